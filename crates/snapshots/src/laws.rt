//! Laws of the definitions.
ghost use Rattle.std.specs.Prelude.{◌≡◌, ℕ, List, [], ◌++◌, map as map_list};
ghost use Rattle.std.specs.List.{flat_map};
ghost use Rattle.harvest_lattice.specs.Lattice.{Entries, join};
ghost use Rattle.harvest_lattice.specs.Knowledge.{Harvested, lat};
ghost use Rattle.memento_index.specs.Merges.{adds_of};
ghost use Rattle.memento_index.specs.declared.merge.Merge.TheVariants.{State as StateMerge};
ghost use Rattle.snapshots.specs.Cuts.{IsCut, join_all};
ghost use Rattle.snapshots.specs.Snapshots.{IsSnapshotOf, IsReadAs};

/// The join of the states into which a state is cut is that state.
pub fn parts_are_the_state()
    ensures { (x : Entries) (states : List Entries) → IsCut x states → join_all states ≡ x }
{}

/// What is read of a snapshot joins to the state that was written, and of a snapshot that was cut short, or behind
/// which something follows, nothing is read.
pub fn a_snapshot_is_read_back()
    ensures same { (bytes : List ℕ) (x : Entries) (states : List Entries)
        → IsSnapshotOf bytes x → IsReadAs bytes states → join_all states ≡ x }
    ensures cut { (bytes rest : List ℕ) (x : Entries) (states : List Entries)
        → IsSnapshotOf (bytes ++ rest) x → IsReadAs bytes states → rest ≡ [] }
    ensures behind { (bytes rest : List ℕ) (x : Entries) (states : List Entries)
        → IsSnapshotOf bytes x → IsReadAs (bytes ++ rest) states → rest ≡ [] }
{}

/// Who takes in the states, one after the other, then holds the join of what it held and of all of them.
pub fn taking_in_is_joining()
    ensures { (hs : List Harvested) (states : List Entries)
        → lat (hs ++ flat_map adds_of (map_list StateMerge states)) ≡ join (lat hs) (join_all states) }
{}
