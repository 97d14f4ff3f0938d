//! Laws of the definitions. These functions do nothing when they run.
ghost use Rattle.std.specs.Prelude.{◌≡◌, ℕ, List};
ghost use Rattle.harvest_lattice.specs.Lattice.{Entries};
ghost use Rattle.memento_index.specs.declared.merge.Merge.{Merge};
ghost use Rattle.published_index.specs.Views.{MergerView};
ghost use Rattle.retention.specs.Restriction.{Rule, restrict};
ghost use Rattle.retention_laws.specs.Cursors.{HasReachedWithin};
ghost use Rattle.forgetting.specs.Renewing.{Forgets, IsBegun, IsUnnoticed, known};

/// Who begins anew with a state knows just that state.
pub fn what_begins_is_known()
    ensures { (x : Entries) (n : MergerView) → IsBegun x n → known n ≡ x }
{}

/// After a forgetting just what the rule keeps is known, and no reader of a kept original notices it: the same is shown
/// of it, and each request that names it has the same reply. What a cursor says within the rule stays true.
pub fn a_forgetting_is_unnoticed()
    ensures known { (keeps : Rule) (m n : MergerView) → Forgets keeps m n → known n ≡ restrict keeps (known m) }
    ensures unnoticed { (keeps : Rule) (m n : MergerView) → Forgets keeps m n → IsUnnoticed keeps m n }
    ensures cursors { (keeps : Rule) (m n : MergerView) (merges : List Merge) (count : ℕ) → Forgets keeps m n
        → HasReachedWithin keeps merges count (known m) → HasReachedWithin keeps merges count (known n) }
{}
