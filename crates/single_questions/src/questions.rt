//! One original that was asked for: what is known of it, and which archives have answered.
ghost use Rattle.std.specs.Prelude.{◌≡◌, IfOk, OnOk, OnErr, IsTrue, length};
ghost use Rattle.std.specs.FinMap as map;
ghost use Rattle.harvester.specs.Unkept.{Comes};
ghost use Rattle.single_questions.specs.Failings.{failing_of as why};
ghost use Rattle.single_questions.specs.Gathered.{IsAnswer, IsGathered, known_after};

use crate::answers::write_answer;
use crate::failings::{Failing, failing_of};
use crate::outcomes::Outcome;
use crate::wants::Want;
use harvest_lattice::Harvest;
use harvest_workers::{Opened, WalkRules};
use harvester::WalkFault;
use memento_index::{Index, Merge};
use memento_time::{NoMemory, Original};
use std::alloc::Global;
use std::marker::PhantomData;
use timemap_writer::Service;

/// How far an archive is with the answer.
#[derive(Clone, Copy, Debug, PartialEq, Eq)]
enum Asked {
    /// It is still to be asked.
    NotYet,
    /// Its walk is out.
    Out,
    /// All that it has is known.
    Answered,
    /// Its mementos are missing, or some of them.
    Failed,
}

/// An original that was asked for: what is known of it, and which archives have answered.
#[derive(Drop)]
pub struct Question<P: WalkRules> {
    original: Original,
    known: Index,
    archives: Vec<Asked>,
    of: PhantomData<P>,

    ghost gathered: { ∥ IsGathered P.jobs P.answers P.faults original known ∥₁ },
}

/// Takes in what a walk gave.
fn take_in(known: &mut Index, walked: Result<Harvest, WalkFault>) -> Result<(), NoMemory>
    ensures known { OnOk result (known.new ≡ known_after walked known.old) }
    ensures same { OnErr result (known.new ≡ known.old) }
{
    match walked {
        Ok(harvest) => known.absorb(&Merge::Harvest(harvest)),
        Err(_) => Ok(()),
    }
}

impl<P: WalkRules> Question<P> {
    /// Of an original of which nothing is known yet, for so many archives, which are still to be asked.
    pub fn new(alloc: Global, original: Original, archives: usize) -> Result<Question<P>, NoMemory>
        ensures original { IfOk result (λ question. question.original ≡ original) }
        ensures known { IfOk result (λ question. question.known ≡ map.empty) }
        ensures archives { IfOk result (λ question. length question.archives.items ≡ archives) }
    {
        Ok(Question {
            original,
            known: Index::new(alloc),
            archives: vec![in alloc; Asked::NotYet; archives]?,
            of: PhantomData,
        })
    }

    /// The original.
    pub fn original(&self) -> &Original
        ensures { result.now ≡ self.now.original }
    {
        &self.original
    }

    /// Whether an archive is still to be asked.
    pub fn is_to_ask(&self, archive: usize) -> bool {
        self.archives.get(archive) == Some(&Asked::NotYet)
    }

    fn set(&mut self, archive: usize, asked: Asked)
        ensures original { self.new.original ≡ self.old.original }
        ensures known { self.new.known ≡ self.old.known }
    {
        if let Some(place) = self.archives.get_mut(archive) {
            *place = asked;
        }
    }

    /// An archive is asked now.
    pub fn ask(&mut self, archive: usize)
        ensures original { self.new.original ≡ self.old.original }
        ensures known { self.new.known ≡ self.old.known }
    {
        self.set(archive, Asked::Out);
    }

    /// An archive isn't asked.
    pub fn give_up(&mut self, archive: usize)
        ensures original { self.new.original ≡ self.old.original }
        ensures known { self.new.known ≡ self.old.known }
    {
        self.set(archive, Asked::Failed);
    }

    /// Whether a walk of this archive for this original is one that the question waits for.
    pub fn waits_for(&self, archive: usize, original: &Original) -> bool
        ensures { IsTrue result → original.now ≡ self.now.original }
    {
        self.original == *original && self.archives.get(archive) == Some(&Asked::Out)
    }

    /// Takes in what came of a walk for the original. Returns why mementos are missing, if some are.
    pub fn take(&mut self, walked: Opened) -> Result<Option<Failing>, NoMemory>
        requires is_for { walked.job.original ≡ self.old.original }
        requires own { ∥ P.jobs walked.errand walked.job ∥₁ }
        requires comes { ∥ Comes P.answers P.faults walked.job walked.begun walked.result walked.asked ∥₁ }
        ensures failing { IfOk result (λ failing. failing ≡ why walked.result) }
        ensures original { self.new.original ≡ self.old.original }
        ensures known { OnOk result (self.new.known ≡ known_after walked.result self.old.known) }
        ensures same { OnErr result (self.new.known ≡ self.old.known) }
    {
        let Opened {
            errand,
            job: _,
            begun: _,
            result: ended,
            asked: _,
        } = walked;
        let failing = failing_of(&ended);
        take_in(&mut self.known, ended)?;
        let asked = if failing.is_some() {
            Asked::Failed
        } else {
            Asked::Answered
        };
        self.set(errand.archive(), asked);
        Ok(failing)
    }

    /// How many archives have answered, or failed.
    pub fn ended(&self) -> usize {
        let is_over = |asked: &&Asked| matches!(asked, Asked::Answered | Asked::Failed);
        self.archives.iter().filter(is_over).count()
    }

    /// Whether no archive is still to be asked, and no walk is out.
    pub fn is_over(&self) -> bool {
        self.ended() == self.archives.len()
    }

    /// What the question comes to.
    pub fn outcome(&self) -> Outcome {
        let mementos = self.known.list(&self.original).len();
        Outcome::of(mementos, self.archives.contains(&Asked::Failed))
    }

    /// What is answered: a TimeMap also if nothing is known, and of a TimeGate a line with an address, which is empty
    /// if there is no memento. TimeMaps name themselves below the service's base.
    pub fn answer(&self, alloc: Global, service: &Service, want: Want) -> Result<Vec<u8>, NoMemory>
        ensures { IfOk result (λ text. ∥ IsAnswer P.jobs P.answers P.faults want service.now self.now.original text.items ∥₁) }
    {
        write_answer(alloc, service, want, &self.original, &self.known)
    }
}
