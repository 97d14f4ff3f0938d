//! The questions that wait for their answers.
ghost use Rattle.std.specs.Prelude.{◌≡◌, ℕ, List, [], length, IfOk, IfSome, OnOk, OnErr};
ghost use Rattle.harvester.specs.Unkept.{Comes};
ghost use Rattle.question_threads.specs.Queued.{IsNext, with_one, without_first};

use harvest_workers::{Opened, WalkRules};
use memento_time::{NoMemory, Original};
use single_questions::{Failing, Outcome, Question, Want};
use std::alloc::Global;
use std::collections::VecDeque;
use std::marker::Model;
use timemap_writer::Service;

/// Questions that wait for their answers, the first of them first, and what all of them ask. A contract sees their
/// originals.
#[derive(Drop)]
pub(crate) struct Queue<P: WalkRules> {
    want: Want,
    base: Service,
    questions: VecDeque<Question<P>>,
}

impl<P: WalkRules> Model for Queue<P> {
    ghost use Rattle.std.specs.Prelude.{map};
    ghost use Rattle.question_threads.specs.Queued.{Queued};

    ghost Value = { Queued };

    ghost view = { λ queue. record {
      want = queue.want;
      base = queue.base;
      originals = map (λ question. question.original) queue.questions.items;
    } };
}

impl<P: WalkRules> Queue<P> {
    /// No questions. TimeMaps will name themselves below this base.
    pub(crate) fn new(alloc: Global, want: Want, base: &Service) -> Result<Queue<P>, NoMemory>
        ensures { IfOk result (λ queue. queue ≡ record { want = want; base = base.now; originals = [] }) }
    {
        Ok(Queue {
            want,
            base: base.try_clone()?,
            questions: VecDeque::new(alloc),
        })
    }

    /// How many questions wait.
    pub(crate) fn len(&self) -> usize
        ensures { result ≡ length self.now.originals }
    {
        self.questions.len()
    }

    /// The question at this place.
    pub(crate) fn get(&self, place: usize) -> Option<&Question<P>> {
        self.questions.get(place)
    }

    /// Whether an archive is still to be asked for the question at this place.
    pub(crate) fn is_to_ask(&self, place: usize, archive: usize) -> bool {
        match self.questions.get(place) {
            Some(question) => question.is_to_ask(archive),
            None => false,
        }
    }

    /// The place of the first question that waits for a walk of this archive for this original.
    pub(crate) fn place_of(&self, archive: usize, original: &Original) -> Option<usize> {
        self.questions
            .iter()
            .position(|question| question.waits_for(archive, original))
    }

    /// Adds a question for an original, for so many archives, behind the others.
    pub(crate) fn add(
        &mut self,
        alloc: Global,
        original: Original,
        archives: usize,
    ) -> Result<(), NoMemory>
        ensures ok { OnOk result (self.new ≡ with_one self.old original) }
        ensures err { OnErr result (self.new ≡ self.old) }
    {
        let question = Question::new(alloc, original, archives)?;
        self.questions.push_back(question)?;
        Ok(())
    }

    /// An archive is asked now for the question at this place.
    pub(crate) fn ask(&mut self, place: usize, archive: usize)
        ensures { self.new ≡ self.old }
    {
        let Some(question) = self.questions.get_mut(place) else {
            return;
        };
        question.ask(archive);
    }

    /// An archive isn't asked for the question at this place.
    pub(crate) fn give_up(&mut self, place: usize, archive: usize)
        ensures { self.new ≡ self.old }
    {
        let Some(question) = self.questions.get_mut(place) else {
            return;
        };
        question.give_up(archive);
    }

    /// Gives the question at this place what came of a walk, if the walk was for its original. Returns why mementos are
    /// missing, if some are.
    pub(crate) fn take(&mut self, place: usize, opened: Opened) -> Result<Option<Failing>, NoMemory>
        requires own { ∥ P.jobs opened.errand opened.job ∥₁ }
        requires comes { ∥ Comes P.answers P.faults opened.job opened.begun opened.result opened.asked ∥₁ }
        ensures { self.new ≡ self.old }
    {
        let Some(question) = self.questions.get_mut(place) else {
            return Ok(None);
        };
        if *question.original() != opened.job.original {
            return Ok(None);
        }
        question.take(opened)
    }

    /// The answer to the first question, once all archives have answered it.
    pub(crate) fn ready(&self, alloc: Global) -> Result<Option<Vec<u8>>, NoMemory>
        ensures next { IfOk result (λ ready. IfSome ready (λ text. IsNext P.jobs P.answers P.faults self.now text.items)) }
        ensures refused { OnErr result ((text : List ℕ) × IsNext P.jobs P.answers P.faults self.now text) }
    {
        let Some(question) = self.questions.front() else {
            return Ok(None);
        };
        if !question.is_over() {
            return Ok(None);
        }
        let text = question.answer(alloc, &self.base, self.want)?;
        Ok(Some(text))
    }

    /// Leaves out the first question, and returns what it came to.
    pub(crate) fn leave(&mut self) -> Option<Outcome>
        ensures { self.new ≡ without_first self.old }
    {
        let question = self.questions.pop_front()?;
        Some(question.outcome())
    }
}
