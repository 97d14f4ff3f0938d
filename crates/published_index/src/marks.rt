//! The log of publishes, and marks of how much of it was seen.
//!
//! The log holds what contracts know of the published list: each publish notes its batch before the batch is shown, and
//! its success once it is. When the program runs, only the log's length exists, so none of its entries takes memory.
//!
//! An example: a merger was opened, and is handed the merges a and b. For each step, the table shows the log after it,
//! and the numbers of entries of four marks: the merger's `mark`, its `last_success`, the mark of the copy that is
//! shown, and that of a receipt.
//!
//! | Step | Log | `mark` | `last_success` | shown | receipt |
//! |---|---|---|---|---|---|
//! | `open` | nothing | 0 | 0 | 0 | |
//! | `append` of a, and of b | nothing | 0 | 0 | 0 | |
//! | `publish` notes the batch (`offer`) | Attempt [a, b] | 1 | 0 | 0 | |
//! | it shows the copy with a, b and this mark (`show`) | Attempt [a, b] | 1 | 0 | 1 | |
//! | it notes the success (`record_success`) | Attempt [a, b], Success | 2 | 2 | 1 | |
//! | it gives a receipt | Attempt [a, b], Success | 2 | 2 | 1 | 2 |
//!
//! What a mark says depends on whose it is. For the merger and for a receipt, it says which batches were published, so
//! an attempt at its end doesn't count (`successes`): none up to the fourth step, and then [a, b]. A copy that is shown
//! has all that was attempted, so there the last attempt counts (`successes_with_last`): the copy with 1 entry has [a,
//! b], and a gate that enters it between the fourth step and the fifth answers from that front.
//!
//! A gate that learnt the receipt, of 2 entries, meets the copy with 1 entry. That copy has everything that the gate
//! was told, since the entry after an attempt can only be its success. This is why `precedes` allows one more entry.
//! The copy from before the publish has 0 entries; the gate doesn't answer from it, since 2 is more than 1.
//!
//! If the copy had not been shown because memory was refused, the log would have stayed at Attempt [a, b], `mark` at 1
//! and `last_success` at 0. Once c is handed in as well, the next publish notes Attempt [a, b, c]: 2 entries, and 3
//! with its success. The first attempt published nothing, as no success follows it, and the published list is the
//! single batch [a, b, c]. Receipts are made from `last_success`, not from `mark`: after two failed attempts, a receipt
//! of 2 entries would keep a gate from the copy that is shown, which is still at 0.
ghost use Rattle.std.specs.Prelude.{◌≡◌, ◌⊎◌, ◌∷◌, ◌++◌, [], IfSome, IsTrue, length};
ghost use mathlib.Core.List.{IsPrefix};

use logbook::{Gain, Offer, Plain, Play, Rule, Seen, Start, Word};
use memento_index::Merge;
use std::marker::{Brand, PhantomData};
use std::sync::Wait;

/// What a publish notes: the batch that it is about to show, and then that it did. No value of this type is made. A
/// clause reads an array as a list of any length.
pub enum LogEntry {
    Attempt([Merge; 0]),
    Success,
}

/// The rule of the log: the first word of the log counts its entries.
pub struct LogRule;

impl Rule<LogEntry, u64> for LogRule {
    ghost use Rattle.std.specs.Prelude.{[]};
    ghost use base.Fml.{ftrue};
    ghost use Rattle.published_index.specs.Marks.{Counts};

    ghost holds = { λ cells log. Counts cells log };

    ghost first = { [] };

    ghost hinted = { λ n log. Unit {0} };

    ghost shows = { λ log. [] };

    ghost keeps = { λ names log. ftrue };

    ghost moves = { λ ask before after answer. Unit {0} };
}

/// States that nothing is gained by adding an entry.
pub(crate) struct NoGain;

impl Gain<LogEntry, u64> for NoGain {
    ghost use base.Fml.{ftrue};

    ghost after = { λ names about answer. ftrue };
}

/// Names the entry that a step adds, for proofs alone.
pub trait NamesEntry {
    ghost use Rattle.published_index.specs.declared.marks.LogEntry.{LogEntry};

    ghost entry: { LogEntry };
}

impl NamesEntry for Brand {
    ghost use Rattle.published_index.specs.declared.marks.LogEntry.TheVariants.{Success};

    ghost entry = { Success };
}

/// Names the entry that the last attempt succeeded.
pub(crate) struct SuccessEntry;

impl NamesEntry for SuccessEntry {
    ghost use Rattle.published_index.specs.declared.marks.LogEntry.TheVariants.{Success};

    ghost entry = { Success };
}

/// A step that adds the named entry after all entries that were seen.
pub(crate) struct Addition<B> {
    of: PhantomData<B>,
}

impl<B> Play<LogEntry, u64> for Addition<B> {
    ghost use Rattle.published_index.specs.Marks.{Adds};

    ghost then = { Adds };
}

impl<B: NamesEntry> Plain<(), LogEntry, u64> for Addition<B> {
    ghost use Rattle.std.specs.Prelude.{None};

    ghost ask = { λ _. B.entry };

    ghost state = { λ _. None };
}

/// The length of the log.
pub type Head = Word<LogEntry, u64, LogRule>;

/// How much of the log was seen.
#[derive(Drop)]
pub struct Mark {
    pub entries: u64,
    pub seen: Seen<LogEntry, u64, LogRule>,
    ghost counted: { entries ≡ length seen.log },
}

impl Mark {
    ghost use Rattle.published_index.specs.Marks.{successes, successes_with_last, head_of};
    ghost use Rattle.published_index.specs.declared.marks.LogEntry.TheVariants.{Success};

    /// A new, empty log.
    pub fn first() -> (Mark, Head)
        ensures log { result.0.seen.log ≡ [] }
        ensures head { result.1 ≡ head_of result.0.seen.book }
    {
        let (seen, mut pen, _) = Seen::open(Start::alone(), 0, 0);
        (Mark { entries: 0, seen }, Word::tracked(0, &mut pen))
    }

    pub fn copy(&self) -> Mark
        ensures { result ≡ self.now }
    {
        Mark {
            entries: self.entries,
            seen: self.seen.again(),
        }
    }

    /// Adds one entry and returns the mark after it, if nobody else added one.
    pub fn record<B: NamesEntry>(&self, head: &Head) -> Option<Mark>
        requires { head.now ≡ head_of self.now.seen.book }
        ensures { IfSome result
            (λ m. (m.seen.book ≡ self.now.seen.book) × (m.seen.log ≡ self.now.seen.log ++ B.entry ∷ [])) }
    {
        let next = self.entries.checked_add(1)?;
        let mut seen = self.seen.again();
        let mut offer: Offer<LogEntry, u64, LogRule, NoGain> = seen.plain::<
            NoGain,
            (),
            Addition<B>,
        >(&());
        let mut pen = seen.no_pen();
        let found = head.compare_exchange::<Addition<B>, NoGain>(
            self.entries,
            next,
            &mut seen,
            &mut offer,
            &mut pen,
        );
        if found != self.entries {
            return None;
        }
        Some(Mark {
            entries: next,
            seen,
        })
    }

    /// Notes that the last attempt succeeded, and returns the mark after that. Only the merger adds entries, so the
    /// first round of the loop adds this one.
    pub fn record_success<R: Wait>(&self, rt: &R, head: &Head) -> Mark
        requires { head.now ≡ head_of self.now.seen.book }
        ensures { (result.seen.book ≡ self.now.seen.book) × (result.seen.log ≡ self.now.seen.log ++ Success ∷ []) }
    {
        for _ in rt.forever() {
            if let Some(mark) = self.record::<SuccessEntry>(head) {
                return mark;
            }
        }
        unreachable!()
    }

    /// Whether each batch that was published by this mark was also published by the other, if the other's last attempt
    /// counts as a success.
    pub fn precedes(&self, other: &Mark) -> bool
        requires { other.now.seen.book ≡ self.now.seen.book }
        ensures { IsTrue result → IsPrefix (successes self.now.seen.log) (successes_with_last other.now.seen.log) }
    {
        let mut both = self.seen.again();
        both.learn(&other.seen);
        self.entries <= other.entries.saturating_add(1)
    }

    /// The mark with more entries. Its batches begin with those of the other.
    pub fn longer(self, other: Mark) -> Mark
        requires { other.seen.book ≡ self.seen.book }
        ensures book { result.seen.book ≡ self.seen.book }
        ensures this { IsPrefix (successes self.seen.log) (successes result.seen.log) }
        ensures that { IsPrefix (successes other.seen.log) (successes result.seen.log) }
        ensures one { (result ≡ self) ⊎ (result ≡ other) }
    {
        let mut both = self.seen.again();
        both.learn(&other.seen);
        if self.entries < other.entries {
            other
        } else {
            self
        }
    }
}
