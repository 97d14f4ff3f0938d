//! The jobs of granted wishes: which archives are to be asked, which are being asked, and what came.
ghost use Rattle.std.specs.Prelude.{◌≡◌, ◌++◌, ◌∷◌, [], Some, None, IfNone, IfSome, OnOk, OnErr, length, map, option_map, position, slice_get};
ghost use Rattle.wish_list.specs.Jobs.{Changes, ChangesAt, TakesEnded, begun_for, has_ready, is_for, is_over, after_skip};
ghost use Rattle.wish_list.specs.Stages.{ready};
ghost use Rattle.wish_list.specs.Stages.Act.{Asks, Comes};

use crate::stages::{Outcome, Stages, WishAnswer};
use memento_time::{NoMemory, Original};
use std::alloc::Global;

/// A wish that was granted, and how far each archive is with it.
#[derive(Debug, Drop)]
pub struct Granted {
    pub original: Original,
    pub stages: Stages,
}

/// Identifies a job: a granted wish and an archive, by their places.
#[derive(Clone, Copy, Debug, PartialEq, Eq)]
pub struct Ask {
    pub wish: usize,
    pub archive: usize,
}

/// A wish that is over.
#[derive(Debug, Drop)]
pub struct Ended {
    pub original: Original,
    pub outcome: Outcome,
}

/// Granted wishes that aren't over, the oldest first.
#[derive(Debug, Drop)]
pub struct WishJobs {
    alloc: Global,
    wishes: Vec<Granted>,
}

/// The place of the oldest wish for which an archive is to be asked that may be.
fn first_ready(wishes: &[Granted], may: &[bool]) -> Option<usize>
    ensures { result ≡ position (has_ready may.now) wishes.now }
{
    wishes
        .iter()
        .position(|granted| granted.stages.ready(may).is_some())
}

/// The place of the oldest wish that is over.
fn first_over(wishes: &[Granted]) -> Option<usize>
    ensures { result ≡ position is_over wishes.now }
{
    wishes.iter().position(|granted| granted.stages.is_over())
}

/// The place of the wish for an original.
fn place_of(wishes: &[Granted], original: &Original) -> Option<usize>
    ensures { result ≡ position (is_for original.now) wishes.now }
{
    wishes
        .iter()
        .position(|granted| *original == granted.original)
}

/// Skips an archive in a wish for which it is to be asked.
fn skip_in(granted: &mut Granted, archive: usize)
    ensures { granted.new ≡ after_skip archive granted.old }
{
    let _ = granted.stages.skip(archive);
}

impl WishJobs {
    /// No wishes. Takes no memory.
    pub fn new(alloc: Global) -> WishJobs
        ensures { result.wishes.items ≡ [] }
    {
        WishJobs {
            alloc,
            wishes: Vec::new(alloc),
        }
    }

    /// How many wishes there are.
    pub fn len(&self) -> usize
        ensures { result ≡ length self.now.wishes.items }
    {
        self.wishes.len()
    }

    /// Adds a wish behind the others. Each archive is to be asked, except those that are spared.
    pub fn push(&mut self, original: Original, spared: &[bool]) -> Result<(), NoMemory>
        ensures ok { OnOk result
            (self.new.wishes.items ≡ self.old.wishes.items ++ begun_for original spared.now ∷ []) }
        ensures err { OnErr result (self.new.wishes.items ≡ self.old.wishes.items) }
    {
        let stages = Stages::new(self.alloc, spared)?;
        self.wishes.push(Granted { original, stages })?;
        Ok(())
    }

    /// The next job, where only some archives may be asked: the oldest wish that has one to be asked among them, and
    /// the first such archive.
    pub fn next(&self, may: &[bool]) -> Option<Ask>
        ensures wish { IfSome result (λ ask. position (has_ready may.now) self.now.wishes.items ≡ Some ask.wish) }
        ensures archive { IfSome result (λ ask. IfSome (slice_get self.now.wishes.items ask.wish)
            (λ granted. ready may.now granted.stages ≡ Some ask.archive)) }
        ensures none { result ≡ None → position (has_ready may.now) self.now.wishes.items ≡ None }
    {
        let wish = first_ready(&self.wishes, may)?;
        let archive = self.wishes[wish].stages.ready(may)?;
        Some(Ask { wish, archive })
    }

    /// The original of the wish at this place.
    pub fn original(&self, wish: usize) -> Option<&Original>
        ensures { option_map (λ original. original.now) result
            ≡ option_map (λ granted. granted.original) (slice_get self.now.wishes.items wish) }
    {
        Some(&self.wishes.get(wish)?.original)
    }

    /// An archive is asked for a wish, if it is to be. Returns whether it was to be.
    pub fn ask(&mut self, ask: Ask) -> bool
        ensures { ChangesAt ask.wish (Asks ask.archive) result self.old.wishes.items self.new.wishes.items }
    {
        if ask.wish >= self.wishes.len() {
            return false;
        }
        self.wishes[ask.wish].stages.ask(ask.archive)
    }

    /// An archive answers for an original, if it is being asked for it. Returns whether it was.
    pub fn answer(&mut self, original: &Original, archive: usize, answer: WishAnswer) -> bool
        ensures { Changes original.now (Comes archive answer) result self.old.wishes.items self.new.wishes.items }
    {
        match place_of(&self.wishes, original) {
            Some(wish) => self.wishes[wish].stages.come(archive, answer),
            None => false,
        }
    }

    /// Skips an archive in each wish for which it is to be asked.
    pub fn skip(&mut self, archive: usize)
        ensures { self.new.wishes.items ≡ map (after_skip archive) self.old.wishes.items }
    {
        for granted in self.wishes.iter_mut() {
            skip_in(granted, archive);
        }
    }

    /// Takes out the oldest wish that is over: each of its archives has answered, or was skipped or spared.
    pub fn take_ended(&mut self) -> Option<Ended>
        ensures some { IfSome result (λ ended. TakesEnded self.old.wishes.items ended self.new.wishes.items) }
        ensures none { IfNone result (position is_over self.old.wishes.items ≡ None) }
        ensures same { IfNone result (self.new.wishes.items ≡ self.old.wishes.items) }
    {
        let place = first_over(&self.wishes)?;
        let Granted { original, stages } = self.wishes.remove(place);
        let outcome = stages.outcome();
        Some(Ended { original, outcome })
    }
}
