//! How many wishes may be taken in a minute.
ghost use Rattle.std.specs.Prelude.{◌≡◌};
ghost use Rattle.wish_list.specs.Allowance as spec;
ghost use Rattle.wish_list.specs.Allowance.{after_giving, after_taking, allowance_of, left_at, minute_at};

/// How many more wishes may be taken in the minute of the last one that was.
#[derive(Clone, Copy, Debug)]
pub(crate) struct Allowance {
    /// How many may be taken in each minute.
    most: u64,
    /// The minute of the last one, of those since 1970.
    pub(crate) minute: u64,
    /// How many more may be taken in it.
    left: u64,
}

impl Allowance {
    /// So many may be taken in each minute, and none was.
    pub(crate) fn new(most: u64) -> Allowance
        ensures { result ≡ allowance_of most }
    {
        Allowance {
            most,
            minute: 0,
            left: most,
        }
    }

    /// Whether a new minute has begun by this second: a later one, or the clock was set back by more than a minute.
    /// Each gate reads the clock before it has the book, so a second of the minute before tells of no change.
    fn is_new(&self, now: u64) -> bool
        ensures { result ≡ spec.is_new self.now now }
    {
        now / 60 > self.minute || now / 60 + 1 < self.minute
    }

    /// The minute to which a wish counts that is taken in this second.
    pub(crate) fn minute_at(&self, now: u64) -> u64
        ensures { result ≡ minute_at self.now now }
    {
        if self.is_new(now) {
            now / 60
        } else {
            self.minute
        }
    }

    /// How many more wishes may be taken in this second.
    pub(crate) fn left_at(&self, now: u64) -> u64
        ensures { result ≡ left_at self.now now }
    {
        if self.is_new(now) {
            self.most
        } else {
            self.left
        }
    }

    /// A wish is taken in this second.
    pub(crate) fn take(&mut self, now: u64)
        ensures { self.new ≡ after_taking self.old now }
    {
        let minute = self.minute_at(now);
        let left = self.left_at(now).saturating_sub(1);
        self.minute = minute;
        self.left = left;
    }

    /// A wish of the last minute doesn't count after all.
    pub(crate) fn give_back(&mut self)
        ensures { self.new ≡ after_giving self.old }
    {
        self.left = self.left.saturating_add(1).min(self.most);
    }
}
