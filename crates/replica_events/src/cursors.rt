//! Laws of what a replica's merges make, and of what its cursors say.
ghost use Rattle.std.specs.Prelude.{◌≡◌, ◌↔◌, ℕ, List, Some, None};
ghost use Rattle.std.specs.FinMap as map;
ghost use Rattle.harvest_lattice.specs.Knowledge.{lat};
ghost use Rattle.replica_exchange.specs.declared.cursor.Cursor.{Cursor};
ghost use Rattle.replica_exchange.specs.Stamps.{state_after};
ghost use Rattle.replica_events.specs.World.{Replica, Course, replica};
ghost use Rattle.replica_events.specs.History.{History, history_of};
ghost use Rattle.replica_events.specs.Cursors.{IsReached, WasBrought, IsFurthest};

/// After every list of events, the merges of a replica have made the state of everything that it has taken: a delta
/// that was delivered brought as much as all that its sender had taken. A cursor that a replica holds for a peer is a
/// number of merges that the peer had taken at some time in that incarnation, and the replica holds at least what these
/// merges made.
pub fn cursors_are_kept()
    ensures states { (base : List ℕ) (course : Course base) (i : ℕ) (r : Replica) → replica course.world i ≡ Some r →
        state_after r.merges ≡ lat r.taken }
    ensures cursors { (base : List ℕ) (course : Course base) (i : ℕ) (r : Replica) → replica course.world i ≡ Some r →
        (peer : ℕ) (c : Cursor) → map.get r.cursors peer ≡ Some c → IsReached course peer c (lat r.taken) }
{}

/// The accepted events alone determine which cursor a replica holds for a peer. It holds none if no message of the peer
/// was delivered to it since its last restart. Otherwise it holds the furthest end of these messages' deltas; but once
/// a delta of another incarnation of the peer comes, the deltas before it no longer count.
pub fn what_cursors_are()
    ensures held { (base : List ℕ) (course : Course base) (i : ℕ) (r : Replica) → replica course.world i ≡ Some r →
        (peer : ℕ) (c : Cursor) →
        (map.get r.cursors peer ≡ Some c) ↔ IsFurthest course.count (history_of course) i peer c }
    ensures none { (base : List ℕ) (course : Course base) (i : ℕ) (r : Replica) → replica course.world i ≡ Some r →
        (peer : ℕ) → (map.get r.cursors peer ≡ None)
        ↔ ((end : Cursor) (after : History) → ¬ WasBrought course.count (history_of course) i peer end after) }
{}
