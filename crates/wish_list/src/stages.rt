//! How far each archive is with a wish.
ghost use Rattle.std.specs.Prelude.{◌≡◌, IfOk, map, slice_get, slice_set};
ghost use Rattle.std.specs.List.{list_any};
ghost use Rattle.wish_list.specs.Stages as spec;
ghost use Rattle.wish_list.specs.Stages.{after, stage_at_first, can, holds, outcome_of, ready, stage_of};
ghost use Rattle.wish_list.specs.Stages.Act.{Asks, Comes, Skips};

use memento_time::NoMemory;
use std::alloc::Global;
use std::marker::Model;

/// How far an archive is with a wish.
#[derive(Clone, Copy, Debug)]
pub enum Stage {
    /// It is to be asked.
    Waits,
    /// It is being asked.
    Out,
    /// It was asked, and has copies.
    Has,
    /// It was asked, and has none.
    HasNone,
    /// It was asked, and gave no harvest.
    Failed,
    /// It wasn't asked, since it couldn't be.
    Skipped,
    /// It wasn't asked, since its harvest is young.
    Spared,
}

/// What an archive that was asked gave.
#[derive(Clone, Copy, Debug)]
pub enum WishAnswer {
    /// A harvest with copies.
    Copies,
    /// A harvest without any.
    NoCopies,
    /// No harvest.
    NoHarvest,
}

/// What came of a wish.
#[derive(Clone, Copy, Debug)]
pub struct Outcome {
    /// An archive that was asked has copies.
    pub is_found: bool,
    /// Each archive gave a harvest, now or a short time ago.
    pub is_whole: bool,
    /// An archive was asked.
    pub is_asked: bool,
}

/// How far each archive is with a wish.
#[derive(Debug, Drop)]
pub struct Stages {
    list: Vec<Stage>,
}

impl Model for Stages {
    ghost use Rattle.std.specs.Prelude.{List};
    ghost use Rattle.wish_list.specs.declared.stages.Stage.{Stage};

    ghost Value = { List Stage };

    ghost view = { λ stages. stages.list.items };
}

/// How far an archive is when a wish is granted.
fn first_stage(is_spared: bool) -> Stage
    ensures { result ≡ stage_at_first is_spared }
{
    if is_spared {
        Stage::Spared
    } else {
        Stage::Waits
    }
}

/// How far an archive is that gave this.
fn stage_of(answer: WishAnswer) -> Stage
    ensures { result ≡ stage_of answer }
{
    match answer {
        WishAnswer::Copies => Stage::Has,
        WishAnswer::NoCopies => Stage::HasNone,
        WishAnswer::NoHarvest => Stage::Failed,
    }
}

#[tactic(auto, unfolding(crate::specs::Stages::waits))]
fn waits(stage: Stage) -> bool
    ensures { result ≡ spec.waits stage }
{
    matches!(stage, Stage::Waits)
}

#[tactic(auto, unfolding(crate::specs::Stages::is_out))]
fn is_out(stage: Stage) -> bool
    ensures { result ≡ spec.is_out stage }
{
    matches!(stage, Stage::Out)
}

#[tactic(auto, unfolding(crate::specs::Stages::has))]
fn has(stage: Stage) -> bool
    ensures { result ≡ spec.has stage }
{
    matches!(stage, Stage::Has)
}

/// Whether an archive is to be asked, or is being asked.
#[tactic(auto, unfolding(crate::specs::Stages::is_open))]
fn is_open(stage: Stage) -> bool
    ensures { result ≡ spec.is_open stage }
{
    matches!(stage, Stage::Waits | Stage::Out)
}

/// Whether an archive wasn't asked that was to be, or gave no harvest.
#[tactic(auto, unfolding(crate::specs::Stages::is_missed))]
fn is_missed(stage: Stage) -> bool
    ensures { result ≡ spec.is_missed stage }
{
    matches!(stage, Stage::Failed | Stage::Skipped)
}

fn was_asked(stage: Stage) -> bool
    ensures { result ≡ spec.was_asked stage }
{
    matches!(
        stage,
        Stage::Out | Stage::Has | Stage::HasNone | Stage::Failed
    )
}

fn any_is_open(list: &[Stage]) -> bool
    ensures { result ≡ list_any spec.is_open list.now }
{
    list.iter().any(|stage| is_open(*stage))
}

fn any_has(list: &[Stage]) -> bool
    ensures { result ≡ list_any spec.has list.now }
{
    list.iter().any(|stage| has(*stage))
}

fn any_is_missed(list: &[Stage]) -> bool
    ensures { result ≡ list_any spec.is_missed list.now }
{
    list.iter().any(|stage| is_missed(*stage))
}

fn any_was_asked(list: &[Stage]) -> bool
    ensures { result ≡ list_any spec.was_asked list.now }
{
    list.iter().any(|stage| was_asked(*stage))
}

impl Stages {
    /// A wish is granted: each archive is to be asked, except those that are spared.
    pub(crate) fn new(alloc: Global, spared: &[bool]) -> Result<Stages, NoMemory>
        ensures { IfOk result (λ stages. stages ≡ map stage_at_first spared.now) }
    {
        let list = spared
            .iter()
            .map(|is_spared| first_stage(*is_spared))
            .collect(alloc)?;
        Ok(Stages { list })
    }

    /// The first archive that is to be asked and may be.
    pub(crate) fn ready(&self, may: &[bool]) -> Option<usize>
        ensures { result ≡ ready may.now self.now }
    {
        self.list
            .iter()
            .zip(may)
            .position(|(stage, may)| waits(*stage) && *may)
    }

    /// Whether an archive is to be asked.
    fn waits(&self, archive: usize) -> bool
        ensures { result ≡ holds spec.waits (slice_get self.now archive) }
    {
        match self.list.get(archive) {
            Some(stage) => waits(*stage),
            None => false,
        }
    }

    /// Whether an archive is being asked.
    fn is_out(&self, archive: usize) -> bool
        ensures { result ≡ holds spec.is_out (slice_get self.now archive) }
    {
        match self.list.get(archive) {
            Some(stage) => is_out(*stage),
            None => false,
        }
    }

    /// Brings an archive to a stage, if there is such an archive.
    fn set(&mut self, archive: usize, stage: Stage)
        ensures { self.new ≡ slice_set self.old archive stage }
    {
        if archive < self.list.len() {
            self.list[archive] = stage;
        }
    }

    /// An archive is asked, if it is to be. Returns whether it was to be.
    pub(crate) fn ask(&mut self, archive: usize) -> bool
        ensures could { result ≡ can (Asks archive) self.old }
        ensures after { self.new ≡ after (Asks archive) self.old }
    {
        if !self.waits(archive) {
            return false;
        }
        self.set(archive, Stage::Out);
        true
    }

    /// An archive answers, if it is being asked. Returns whether it was.
    pub(crate) fn come(&mut self, archive: usize, answer: WishAnswer) -> bool
        ensures could { result ≡ can (Comes archive answer) self.old }
        ensures after { self.new ≡ after (Comes archive answer) self.old }
    {
        if !self.is_out(archive) {
            return false;
        }
        self.set(archive, stage_of(answer));
        true
    }

    /// An archive is skipped, if it is to be asked. Returns whether it was.
    pub(crate) fn skip(&mut self, archive: usize) -> bool
        ensures could { result ≡ can (Skips archive) self.old }
        ensures after { self.new ≡ after (Skips archive) self.old }
    {
        if !self.waits(archive) {
            return false;
        }
        self.set(archive, Stage::Skipped);
        true
    }

    /// Whether no archive is to be asked or being asked.
    pub(crate) fn is_over(&self) -> bool
        ensures { result ≡ spec.is_over self.now }
    {
        !any_is_open(&self.list)
    }

    /// What came of the wish, so far.
    pub(crate) fn outcome(&self) -> Outcome
        ensures { result ≡ outcome_of self.now }
    {
        Outcome {
            is_found: any_has(&self.list),
            is_whole: !any_is_missed(&self.list),
            is_asked: any_was_asked(&self.list),
        }
    }
}
