//! Counts by how something ended.
ghost use Rattle.std.specs.Prelude.{◌≡◌, map};
ghost use Rattle.service_status.specs.Counts.{with_walk, with_pull, with_wishes, with_entries, walk_rows, pull_rows, reply_rows};
ghost use Rattle.service_status.specs.Counts.{wish_rows, entry_rows};

/// How a walk ended.
#[derive(Clone, Copy, Debug, PartialEq, Eq)]
pub enum WalkEnd {
    /// With a whole harvest.
    Whole,
    /// With a harvest in part.
    Part,
    /// The archive was busy, and asked to be left alone.
    Busy,
    NoAnswer,
    /// The body is too long.
    TooLong,
    /// Another status than 200 and 404.
    Status,
    /// A content coding.
    Encoded,
    /// No page of a TimeMap.
    NoPage,
    TooManyPages,
    TooManyMementos,
    NoMemory,
}

/// How many walks ended in which way.
#[derive(Clone, Copy, Debug, PartialEq, Eq)]
pub struct WalkCounts {
    pub whole: u64,
    pub part: u64,
    pub busy: u64,
    pub no_answer: u64,
    pub too_long: u64,
    pub status: u64,
    pub encoded: u64,
    pub no_page: u64,
    pub too_many_pages: u64,
    pub too_many_mementos: u64,
    pub no_memory: u64,
}

impl WalkCounts {
    pub const NONE: WalkCounts = WalkCounts {
        whole: 0,
        part: 0,
        busy: 0,
        no_answer: 0,
        too_long: 0,
        status: 0,
        encoded: 0,
        no_page: 0,
        too_many_pages: 0,
        too_many_mementos: 0,
        no_memory: 0,
    };

    /// Counts a walk that ended so.
    pub fn add(&mut self, end: WalkEnd)
        ensures { self.new ≡ with_walk end self.old }
    {
        match end {
            WalkEnd::Whole => self.whole = self.whole.saturating_add(1),
            WalkEnd::Part => self.part = self.part.saturating_add(1),
            WalkEnd::Busy => self.busy = self.busy.saturating_add(1),
            WalkEnd::NoAnswer => self.no_answer = self.no_answer.saturating_add(1),
            WalkEnd::TooLong => self.too_long = self.too_long.saturating_add(1),
            WalkEnd::Status => self.status = self.status.saturating_add(1),
            WalkEnd::Encoded => self.encoded = self.encoded.saturating_add(1),
            WalkEnd::NoPage => self.no_page = self.no_page.saturating_add(1),
            WalkEnd::TooManyPages => self.too_many_pages = self.too_many_pages.saturating_add(1),
            WalkEnd::TooManyMementos => {
                self.too_many_mementos = self.too_many_mementos.saturating_add(1);
            }
            WalkEnd::NoMemory => self.no_memory = self.no_memory.saturating_add(1),
        }
    }

    /// A word for each way, and how many walks ended so.
    #[tactic(auto, unfolding(crate::specs::Counts::walk_rows))]
    pub(crate) fn rows(self) -> [(&'static str, u64); 11]
        ensures { map (λ row. (row.0.now, row.1)) result ≡ walk_rows self }
    {
        [
            ("whole", self.whole),
            ("part", self.part),
            ("busy", self.busy),
            ("no_answer", self.no_answer),
            ("too_long", self.too_long),
            ("status", self.status),
            ("encoded", self.encoded),
            ("no_page", self.no_page),
            ("too_many_pages", self.too_many_pages),
            ("too_many_mementos", self.too_many_mementos),
            ("no_memory", self.no_memory),
        ]
    }
}

/// How a pull from a peer ended.
#[derive(Clone, Copy, Debug, PartialEq, Eq)]
pub enum PullEnd {
    /// With a delta that was taken.
    News,
    /// With a delta that brings nothing.
    NoNews,
    NoAnswer,
    /// Another status than 200.
    Status,
    /// Not the text of a delta.
    NoDelta,
    /// The delta leaves merges out.
    Gap,
    NoMemory,
}

/// How many pulls ended in which way.
#[derive(Clone, Copy, Debug, PartialEq, Eq)]
pub struct PullCounts {
    pub news: u64,
    pub no_news: u64,
    pub no_answer: u64,
    pub status: u64,
    pub no_delta: u64,
    pub gap: u64,
    pub no_memory: u64,
}

impl PullCounts {
    pub const NONE: PullCounts = PullCounts {
        news: 0,
        no_news: 0,
        no_answer: 0,
        status: 0,
        no_delta: 0,
        gap: 0,
        no_memory: 0,
    };

    /// Counts a pull that ended so.
    pub fn add(&mut self, end: PullEnd)
        ensures { self.new ≡ with_pull end self.old }
    {
        match end {
            PullEnd::News => self.news = self.news.saturating_add(1),
            PullEnd::NoNews => self.no_news = self.no_news.saturating_add(1),
            PullEnd::NoAnswer => self.no_answer = self.no_answer.saturating_add(1),
            PullEnd::Status => self.status = self.status.saturating_add(1),
            PullEnd::NoDelta => self.no_delta = self.no_delta.saturating_add(1),
            PullEnd::Gap => self.gap = self.gap.saturating_add(1),
            PullEnd::NoMemory => self.no_memory = self.no_memory.saturating_add(1),
        }
    }

    /// A word for each way, and how many pulls ended so.
    #[tactic(auto, unfolding(crate::specs::Counts::pull_rows))]
    pub(crate) fn rows(self) -> [(&'static str, u64); 7]
        ensures { map (λ row. (row.0.now, row.1)) result ≡ pull_rows self }
    {
        [
            ("news", self.news),
            ("no_news", self.no_news),
            ("no_answer", self.no_answer),
            ("status", self.status),
            ("no_delta", self.no_delta),
            ("gap", self.gap),
            ("no_memory", self.no_memory),
        ]
    }
}

/// How many replies of a gate have which status.
#[derive(Clone, Copy, Debug, PartialEq, Eq)]
pub struct ReplyCounts {
    /// 200.
    pub ok: u64,
    /// 302.
    pub found: u64,
    /// 400.
    pub bad: u64,
    /// 404.
    pub absent: u64,
    /// 405.
    pub method: u64,
    /// 503: the gate gave a fault in place of a reply.
    pub refused: u64,
    pub other: u64,
}

impl ReplyCounts {
    pub const NONE: ReplyCounts = ReplyCounts {
        ok: 0,
        found: 0,
        bad: 0,
        absent: 0,
        method: 0,
        refused: 0,
        other: 0,
    };

    /// Each status, and how many replies have it.
    #[tactic(auto, unfolding(crate::specs::Counts::reply_rows))]
    pub(crate) fn rows(self) -> [(&'static str, u64); 7]
        ensures { map (λ row. (row.0.now, row.1)) result ≡ reply_rows self }
    {
        [
            ("200", self.ok),
            ("302", self.found),
            ("400", self.bad),
            ("404", self.absent),
            ("405", self.method),
            ("503", self.refused),
            ("other", self.other),
        ]
    }
}

/// What became of wishes.
#[derive(Clone, Copy, Debug, PartialEq, Eq)]
pub struct WishCounts {
    pub granted: u64,
    pub ended: u64,
    /// Turned away, because there were as many wishes as may be.
    pub turned_away: u64,
    /// Not taken, because the wishes of the minute were used up.
    pub late: u64,
}

impl WishCounts {
    pub const NONE: WishCounts = WishCounts {
        granted: 0,
        ended: 0,
        turned_away: 0,
        late: 0,
    };

    /// Counts so many more.
    pub fn add(&mut self, more: WishCounts)
        ensures { self.new ≡ with_wishes more self.old }
    {
        self.granted = self.granted.saturating_add(more.granted);
        self.ended = self.ended.saturating_add(more.ended);
        self.turned_away = self.turned_away.saturating_add(more.turned_away);
        self.late = self.late.saturating_add(more.late);
    }

    /// A word for what became of wishes, and of how many it did.
    #[tactic(auto, unfolding(crate::specs::Counts::wish_rows))]
    pub(crate) fn rows(self) -> [(&'static str, u64); 4]
        ensures { map (λ row. (row.0.now, row.1)) result ≡ wish_rows self }
    {
        [
            ("granted", self.granted),
            ("ended", self.ended),
            ("turned_away", self.turned_away),
            ("late", self.late),
        ]
    }
}

/// How many entries of a peer's deltas were kept, and how many not, since they are withdrawn, or neither listed nor
/// young.
#[derive(Clone, Copy, Debug, PartialEq, Eq)]
pub struct EntryCounts {
    pub taken: u64,
    pub left: u64,
}

impl EntryCounts {
    pub const NONE: EntryCounts = EntryCounts { taken: 0, left: 0 };

    /// Counts so many more.
    pub fn add(&mut self, more: EntryCounts)
        ensures { self.new ≡ with_entries more self.old }
    {
        self.taken = self.taken.saturating_add(more.taken);
        self.left = self.left.saturating_add(more.left);
    }

    /// A word for what became of entries, and of how many it did.
    #[tactic(auto, unfolding(crate::specs::Counts::entry_rows))]
    pub(crate) fn rows(self) -> [(&'static str, u64); 2]
        ensures { map (λ row. (row.0.now, row.1)) result ≡ entry_rows self }
    {
        [("taken", self.taken), ("left", self.left)]
    }
}
