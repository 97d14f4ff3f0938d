//! Gates of two replicas.
ghost use Rattle.std.specs.Prelude.{◌≡◌, IfOk};
ghost use Rattle.harvest_lattice.specs.Knowledge.{lat};
ghost use Rattle.replica_events.specs.Agreement.{SameHarvests};
ghost use Rattle.timegate.specs.Route.{IsOfTaken};
ghost use Rattle.published_index.specs.Batches.{fold_of};

use crate::faults::GateFault;
use crate::gates::Gate;
use timegate::{Reply, Request};

/// Asks the gates of two replicas the same. If their fronts hold the same harvests, or at least have the same state,
/// both replies are the same, whether the harvests came directly or in another replica's state. Only deltas may differ,
/// since they also tell of the merges.
pub fn ask_both(
    first: &mut Gate,
    second: &mut Gate,
    request: &Request,
) -> Result<(Reply, Reply), GateFault>
    requires { second.old.base ≡ first.old.base }
    ensures same_state { IsOfTaken request.now → IfOk result
        (λ replies. lat (fold_of first.new.pass.front) ≡ lat (fold_of second.new.pass.front) → replies.0 ≡ replies.1) }
    ensures same_harvests { IsOfTaken request.now → IfOk result
        (λ replies. SameHarvests (fold_of first.new.pass.front) (fold_of second.new.pass.front)
        → replies.0 ≡ replies.1) }
{
    let one = first.answer(request)?;
    let other = second.answer(request)?;
    Ok((one, other))
}
