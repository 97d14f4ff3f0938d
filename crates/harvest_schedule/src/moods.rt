//! What a schedule keeps to, and whether an archive may be asked.
ghost use Rattle.std.specs.Prelude.{◌≡◌, ◌↔◌, IsTrue};
ghost use Rattle.harvest_schedule.specs.Moods.{MayAsk, SleepsAt, after_answer, mood_once_asked, asked_from, comes_again, dormant, failing, is_dormant};
ghost use Rattle.harvest_schedule.specs.Moods.{aside_by, mood_after, one_more, rest_after, row_of};
ghost use Rattle.harvest_schedule.specs.declared.moods.Verdict.TheVariants.{Answered, There, Failed, Unknown, Busy as IsBusy, Later as AsksLater};

/// What a schedule keeps to for all archives.
#[derive(Clone, Copy, Debug, PartialEq, Eq)]
pub struct Limits {
    /// After how many failures in a row an archive is dormant; `None` if never.
    pub tolerance: Option<u64>,
    /// How long it is dormant, in the unit of the caller's time.
    pub pause: u64,
}

/// What a schedule keeps to for one archive.
#[derive(Clone, Copy, Debug, PartialEq, Eq)]
pub struct Pace {
    /// The most walks that may be out at the same time.
    pub at_once: usize,
    /// The least time between two walks that begin, and between the end of one and the next that begins.
    pub every: u64,
}

/// How a walk ended, as far as it tells whether the archive works.
#[derive(Clone, Copy, Debug, PartialEq, Eq)]
pub enum Verdict {
    /// The archive's first page came, which ends a row of failures.
    Answered,
    /// The archive is there, and no more is known: a row of failures stays as it is.
    There,
    /// The archive doesn't work, as far as this walk tells.
    Failed,
    /// The walk ended for a reason of our own.
    Unknown,
    /// The archive asks not to be asked before this time, which counts as a failure.
    Busy { until: u64 },
    /// The archive asks not to be asked before this time, and a row of failures stays as it is.
    Later { until: u64 },
}

/// Whether an archive may be asked.
#[derive(Clone, Copy, Debug, PartialEq, Eq)]
pub enum Mood {
    /// It failed this many times in a row.
    Awake { failed: u64 },
    /// It was busy, and isn't asked before this time. It failed this many times in a row.
    Aside { until: u64, failed: u64 },
    /// One walk finds out whether it is still busy. It failed this many times in a row.
    Tried { failed: u64 },
    /// It failed too often, and isn't asked before this time, nor before a time that it named, if an answer comes.
    Dormant { until: u64, named: u64 },
    /// One walk finds out whether it works again.
    Probed,
}

impl Limits {
    /// The mood of an archive that failed too often, and that isn't asked before a time that it named.
    fn dormant(self, now: u64, until: u64) -> Mood
        ensures { result ≡ dormant self now until }
    {
        Mood::Dormant {
            until: until.max(now.saturating_add(self.pause)),
            named: until,
        }
    }

    /// The mood after so many failures in a row: another one, unless they are too many.
    fn failing(self, now: u64, until: u64, failed: u64, otherwise: Mood) -> Mood
        ensures { result ≡ failing self now until failed otherwise }
    {
        match self.tolerance {
            None => Mood::Awake { failed },
            Some(tolerance) if tolerance <= failed => self.dormant(now, until),
            Some(_) => otherwise,
        }
    }

    /// Whether the job of a walk that ended so is handed out again.
    pub fn comes_again(self, verdict: Verdict) -> bool
        ensures { result ≡ comes_again self verdict }
    {
        match verdict {
            Verdict::Answered | Verdict::There | Verdict::Failed | Verdict::Unknown => false,
            Verdict::Busy { until: _ } | Verdict::Later { until: _ } => self.tolerance.is_some(),
        }
    }

    /// The row of failures that made an archive dormant.
    fn row(self) -> u64
        ensures { result ≡ row_of self.tolerance }
    {
        match self.tolerance {
            Some(tolerance) => tolerance,
            None => 0,
        }
    }

    /// The mood of an archive that asks not to be asked before this time, after so many failures in a row.
    fn aside(self, until: u64, failed: u64) -> Mood
        ensures { result ≡ aside_by self.tolerance until failed }
    {
        match self.tolerance {
            Some(_) => Mood::Aside { until, failed },
            None => Mood::Awake { failed },
        }
    }
}

impl Pace {
    /// From when on an archive may be asked, once it was asked or a walk of it ended.
    pub fn rest_after(self, now: u64, rest: u64) -> u64
        ensures { result ≡ rest_after self now rest }
    {
        if self.every == 0 {
            rest
        } else {
            rest.max(now.saturating_add(self.every))
        }
    }
}

impl Mood {
    /// Whether the archive may be asked at this time.
    pub fn may_ask(self, now: u64) -> bool
        ensures { IsTrue result ↔ MayAsk now self }
    {
        match self {
            Mood::Awake { failed: _ } => true,
            Mood::Aside { until, failed: _ } | Mood::Dormant { until, named: _ } => until <= now,
            Mood::Tried { failed: _ } | Mood::Probed => false,
        }
    }

    /// From when on the archive may be asked. `None` while one walk finds that out.
    pub fn asked_from(self) -> Option<u64>
        ensures { result ≡ asked_from self }
    {
        match self {
            Mood::Awake { failed: _ } => Some(0),
            Mood::Aside { until, failed: _ } | Mood::Dormant { until, named: _ } => Some(until),
            Mood::Tried { failed: _ } | Mood::Probed => None,
        }
    }

    /// The mood once the archive is asked.
    pub fn asked(self) -> Mood
        ensures { result ≡ mood_once_asked self }
    {
        match self {
            Mood::Awake { failed } => Mood::Awake { failed },
            Mood::Aside { until: _, failed } | Mood::Tried { failed } => Mood::Tried { failed },
            Mood::Dormant { until: _, named: _ } | Mood::Probed => Mood::Probed,
        }
    }

    /// The mood once a walk has ended.
    pub fn after(self, limits: Limits, verdict: Verdict, now: u64) -> Mood
        ensures { result ≡ mood_after limits verdict now self }
    {
        match verdict {
            Verdict::Answered => self.after_answer(),
            Verdict::There => self.after_sign(limits, now),
            Verdict::Failed => self.after_failure(limits, now),
            Verdict::Unknown => self.after_nothing(limits, now),
            Verdict::Busy { until } => self.after_busy(limits, until, now),
            Verdict::Later { until } => self.after_request(limits, until, now),
        }
    }

    /// No walk begins while an archive is put aside or dormant, so what answers then was asked before.
    fn after_answer(self) -> Mood
        ensures { result ≡ after_answer self }
    {
        match self {
            Mood::Awake { failed: _ } | Mood::Tried { failed: _ } | Mood::Probed => {
                Mood::Awake { failed: 0 }
            }
            Mood::Aside { until, failed: _ } => Mood::Aside { until, failed: 0 },
            Mood::Dormant { until: _, named } => Mood::Aside {
                until: named,
                failed: 0,
            },
        }
    }

    /// The archive is there. A probe that shows it wakes the archive, and one failure more makes it dormant.
    fn after_sign(self, limits: Limits, now: u64) -> Mood
        ensures { result ≡ mood_after limits There now self }
    {
        match self {
            Mood::Awake { failed } | Mood::Tried { failed } => Mood::Awake { failed },
            Mood::Aside { until, failed } => Mood::Aside { until, failed },
            Mood::Dormant { until, named } => Mood::Dormant { until, named },
            Mood::Probed => Mood::Awake {
                failed: limits.row(),
            },
        }
    }

    fn after_failure(self, limits: Limits, now: u64) -> Mood
        ensures { result ≡ mood_after limits Failed now self }
    {
        match self {
            Mood::Awake { failed } | Mood::Tried { failed } => {
                let failed = failed.saturating_add(1);
                limits.failing(now, 0, failed, Mood::Awake { failed })
            }
            Mood::Aside { until, failed } => Mood::Aside { until, failed },
            Mood::Dormant { until, named } => Mood::Dormant { until, named },
            Mood::Probed => limits.dormant(now, 0),
        }
    }

    fn after_nothing(self, limits: Limits, now: u64) -> Mood
        ensures { result ≡ mood_after limits Unknown now self }
    {
        match self {
            Mood::Awake { failed } => Mood::Awake { failed },
            Mood::Aside { until, failed } => Mood::Aside { until, failed },
            Mood::Tried { failed } => Mood::Aside { until: 0, failed },
            Mood::Dormant { until, named } => Mood::Dormant { until, named },
            Mood::Probed => limits.dormant(now, 0),
        }
    }

    fn after_busy(self, limits: Limits, asked_until: u64, now: u64) -> Mood
        ensures { result ≡ mood_after limits (IsBusy asked_until) now self }
    {
        match self {
            Mood::Awake { failed } | Mood::Tried { failed } => {
                let failed = failed.saturating_add(1);
                let until = asked_until;
                limits.failing(now, until, failed, Mood::Aside { until, failed })
            }
            Mood::Aside { until, failed } => Mood::Aside {
                until: until.max(asked_until),
                failed,
            },
            Mood::Dormant { until, named } => Mood::Dormant {
                until: until.max(asked_until),
                named: named.max(asked_until),
            },
            Mood::Probed => limits.dormant(now, asked_until),
        }
    }

    /// The archive is there, and asks not to be asked before a time.
    fn after_request(self, limits: Limits, asked_until: u64, now: u64) -> Mood
        ensures { result ≡ mood_after limits (AsksLater asked_until) now self }
    {
        match self {
            Mood::Awake { failed } | Mood::Tried { failed } => limits.aside(asked_until, failed),
            Mood::Aside { until, failed } => Mood::Aside {
                until: until.max(asked_until),
                failed,
            },
            Mood::Dormant { until, named } => Mood::Dormant {
                until: until.max(asked_until),
                named: named.max(asked_until),
            },
            Mood::Probed => limits.aside(asked_until, limits.row()),
        }
    }

    /// Whether the archive is dormant, at whatever time.
    pub fn is_dormant(self) -> bool
        ensures { IsTrue result ↔ is_dormant self }
    {
        match self {
            Mood::Dormant { until: _, named: _ } => true,
            Mood::Awake { failed: _ }
            | Mood::Aside {
                until: _,
                failed: _,
            }
            | Mood::Tried { failed: _ }
            | Mood::Probed => false,
        }
    }

    /// Whether the archive is dormant until a later time.
    pub fn sleeps_at(self, now: u64) -> bool
        ensures { IsTrue result ↔ SleepsAt now self }
    {
        match self {
            Mood::Dormant { until, named: _ } => now < until,
            Mood::Awake { failed: _ }
            | Mood::Aside {
                until: _,
                failed: _,
            }
            | Mood::Tried { failed: _ }
            | Mood::Probed => false,
        }
    }
}
