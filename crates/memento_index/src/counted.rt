//! Mementos with the numbers of archives that show them, and the steps by which these numbers change.
ghost use Rattle.std.specs.Prelude.{◌≡◌, ◌++◌, IfOk, OnOk, length};
ghost use Rattle.memento_index.specs.Lists.{each_step, steps_in};

use crate::replacement::Replacement;
use memento_time::{Items, Memento, NoMemory};
use std::alloc::Global;

/// A memento, and how many archives show it.
#[derive(Debug, Drop)]
pub struct Counted {
    pub memento: Memento,
    pub count: u64,
}

/// One archive begins or ceases to show a memento.
#[derive(Debug, Drop, PartialEq, Eq, PartialOrd, Ord)]
pub struct Step {
    pub memento: Memento,
    pub begins: bool,
}

/// What begins and ceases to be shown of one original: either its whole list is replaced by one that can be shared, or
/// there are single steps.
#[derive(Debug, Drop)]
pub enum Steps {
    All(Replacement),
    Each(Items<Step>),
}

impl Steps {
    pub fn len(&self) -> usize
        ensures { result ≡ length (steps_in self.now) }
    {
        match self {
            Steps::All(made) => made.before().len() + made.after().len(),
            Steps::Each(steps) => steps.as_slice().len(),
        }
    }

    /// The steps, one by one. For a list that is replaced, they have copies of its mementos.
    pub fn into_vec(self, alloc: Global) -> Result<Vec<Step>, NoMemory>
        ensures { IfOk result (λ steps. steps.items ≡ steps_in self) }
    {
        match self {
            Steps::All(made) => {
                let mut steps = Vec::new(alloc);
                push_each(&mut steps, made.before(), false)?;
                push_each(&mut steps, made.after(), true)?;
                Ok(steps)
            }
            Steps::Each(steps) => Ok(steps.into_vec()),
        }
    }
}

/// Adds a step for each memento.
fn push_each(steps: &mut Vec<Step>, mementos: &[Memento], begins: bool) -> Result<(), NoMemory>
    ensures { OnOk result (steps.new.items ≡ steps.old.items ++ each_step begins mementos.now) }
{
    for memento in mementos {
        let memento = memento.try_clone()?;
        steps.push(Step { memento, begins })?;
    }
    Ok(())
}
