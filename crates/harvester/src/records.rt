//! What a walk keeps of the answers that came.
ghost use Rattle.std.specs.Prelude.{◌≡◌, None};
ghost use Rattle.harvester.specs.Patience as spec;

use crate::fetches::Answer;
use crate::patience::asked_patience;
use memento_time::{Clean, NoMemory};

/// What a walk keeps of the answers that came. Its contract speaks of the whole record, which need not be in memory.
pub(crate) trait Record: Drop {
    ghost use Rattle.std.specs.Prelude.{◌≡◌, ◌++◌, ◌∷◌, [], ℕ, List, OnErr, OnOk};
    ghost use Rattle.harvester.specs.Answers.{Entry};

    /// Holds for each record that the value may stand for.
    ghost stands_for: { Self → List Entry → Type 0 };

    /// The second in which the walk began, as far as the value looks at it.
    ghost since: { Self → ℕ };

    /// Adds the answer of a URL.
    fn add(&mut self, url: &Clean, answer: Answer) -> Result<(), NoMemory>
        ensures ok { OnOk result ((entries : List Entry) → stands_for self.old entries
            → stands_for self.new (entries ++ (url.now, answer) ∷ [])) }
        ensures err { OnErr result ((entries : List Entry) → stands_for self.old entries
            → stands_for self.new entries) }
        ensures since { since self.new ≡ since self.old };
}

/// Each URL that was answered, with its answer.
#[derive(Drop)]
pub(crate) struct Kept {
    pub(crate) fetched: Vec<(Clean, Answer)>,
}

impl Record for Kept {
    ghost use Rattle.std.specs.Prelude.{◌≡◌};

    ghost stands_for = { λ kept entries. kept.fetched.items ≡ entries };

    ghost since = { λ _. 0 };

    fn add(&mut self, url: &Clean, answer: Answer) -> Result<(), NoMemory> {
        self.fetched.push((url.try_clone()?, answer))?;
        Ok(())
    }
}

/// For how long the answers ask to be left alone, and nothing else of them.
#[derive(Clone, Copy)]
pub(crate) struct Asked {
    /// When the walk began, as a second since the start of 1970.
    now: u64,
    /// The longest patience that was asked for.
    longest: Option<u64>,
}

impl Asked {
    pub(crate) fn new(now: u64) -> Asked
        ensures { result ≡ record { now = now; longest = None } }
    {
        Asked { now, longest: None }
    }

    pub(crate) fn longest(self) -> Option<u64>
        ensures { result ≡ self.longest }
    {
        self.longest
    }
}

/// The longer of two patiences, as far as they were asked for.
fn longer(one: Option<u64>, other: Option<u64>) -> Option<u64>
    ensures { result ≡ spec.longer one other }
{
    match (one, other) {
        (Some(one), Some(other)) => Some(one.max(other)),
        (None, asked) | (asked, None) => asked,
    }
}

impl Record for Asked {
    ghost use Rattle.harvester.specs.Patience.{IsLongestAsked};

    ghost stands_for = { λ asked entries. IsLongestAsked asked.now entries asked.longest };

    ghost since = { λ asked. asked.now };

    fn add(&mut self, _url: &Clean, answer: Answer) -> Result<(), NoMemory> {
        self.longest = longer(self.longest, asked_patience(&answer, self.now));
        Ok(())
    }
}
