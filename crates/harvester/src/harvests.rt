//! The harvest of a job.
ghost use Rattle.std.specs.Prelude.{◌≡◌, ◌≤◌, IfOk, IfErr, IsErrOf, length};
ghost use Rattle.memento_time.specs.Mementos.{memento_cmp};
ghost use Rattle.memento_sets.specs.Sets as set;
ghost use Rattle.harvest_lattice.specs.Making.{harvest_from, AreTooMany};
ghost use Rattle.harvester.specs.Limits.{max_mementos};

use crate::faults::WalkFault;
use crate::frontier::put_in_order;
use crate::jobs::Job;
use harvest_lattice::{Harvest, HarvestFault};
use memento_time::Memento;

/// The job's harvest, whole or part as the mark says.
fn make(job: &Job, is_whole: bool, mementos: Vec<Memento>) -> Result<Harvest, HarvestFault>
    ensures kept { IfOk result (λ h. h ≡ harvest_from job.now.archive job.now.original
        job.now.revision is_whole mementos.items) }
    ensures too_many { IsErrOf result HarvestFault.TooMany → AreTooMany mementos.items }
{
    if is_whole {
        Harvest::new(job.archive, &job.original, job.revision, mementos)
    } else {
        Harvest::new_part(job.archive, &job.original, job.revision, mementos)
    }
}

/// The job's harvest with these mementos: whole if no page is lost, otherwise part.
pub(crate) fn harvest(
    job: &Job,
    is_whole: bool,
    mut mementos: Vec<Memento>,
) -> Result<Harvest, WalkFault>
    requires { length (set.items (set.from_list {R = memento_cmp} mementos.items)) ≤ max_mementos }
    ensures kept { IfOk result (λ h. h ≡ harvest_from job.now.archive job.now.original
        job.now.revision is_whole mementos.items) }
    ensures err { IfErr result (λ fault. fault ≡ WalkFault.NoMemory) }
{
    put_in_order(&mut mementos)?;
    match make(job, is_whole, mementos) {
        Ok(harvest) => Ok(harvest),
        Err(HarvestFault::NoMemory) => Err(WalkFault::NoMemory),
        Err(HarvestFault::TooMany) => unreachable!(),
    }
}
