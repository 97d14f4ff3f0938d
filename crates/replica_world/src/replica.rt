//! A replica, as a world keeps it.
ghost use Rattle.std.specs.Prelude.{◌≡◌, [], true, OnOk, OnErr, IfErr};
ghost use Rattle.std.specs.FinMap as map;
ghost use Rattle.memento_index.specs.declared.merge.Merge.TheVariants as merge;
ghost use Rattle.replica_exchange.specs.Stamps.{IsStamped};
ghost use Rattle.replica_exchange.specs.CursorRule.{fits, taken_from};
ghost use Rattle.replica_world.specs.Keeping.{IsMerged, IsJoinCause};

use memento_index::Merge;
use replica_events::Refused;
use replica_exchange::{Cursors, Delta, Stamped};
use std::alloc::Global;

/// A replica: what the merges of its incarnation made, and for each peer how far it knows that peer's merges.
#[derive(Debug, Drop)]
pub struct KeptReplica {
    pub stamped: Stamped,
    pub cursors: Cursors,
}

impl KeptReplica {
    /// A replica that has taken nothing in this incarnation. Takes no memory.
    pub fn new(alloc: Global, incarnation: u64) -> KeptReplica
        ensures stamped { IsStamped [] result.stamped }
        ensures incarnation { result.stamped.incarnation ≡ incarnation }
        ensures cursors { result.cursors ≡ map.empty }
    {
        KeptReplica {
            stamped: Stamped::new(alloc, incarnation),
            cursors: Cursors::new(alloc),
        }
    }

    /// Joins a delta of a peer and moves the cursor that is held for the peer, unless the delta leaves a gap after that
    /// cursor. It does both or neither.
    pub fn join(&mut self, peer: u64, delta: Delta) -> Result<(), Refused>
        ensures fits { OnOk result (fits (map.get self.old.cursors peer) delta ≡ true) }
        ensures joined { OnOk result
            (IsMerged self.old (merge.State delta.state) (taken_from self.old.cursors peer delta) self.new) }
        ensures cause { IfErr result (λ refused. IsJoinCause refused self.old peer delta) }
        ensures err { OnErr result (self.new ≡ self.old) }
    {
        let mut cursors = self.cursors.try_clone()?;
        cursors.take(peer, &delta)?;
        self.stamped.absorb(&Merge::State(delta.state))?;
        self.cursors = cursors;
        Ok(())
    }
}
