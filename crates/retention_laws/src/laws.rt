//! Laws of forgetting.
ghost use Rattle.std.specs.Prelude.{◌≡◌, ℕ, List, Some};
ghost use Rattle.harvest_lattice.specs.Lattice.{Entries, AtMost, join};
ghost use Rattle.memento_index.specs.declared.merge.Merge.{Merge};
ghost use Rattle.replica_exchange.specs.Stamps.{StampedState, IsStamped, entries_above, state_after};
ghost use Rattle.timegate.specs.declared.request.Request.{Request};
ghost use Rattle.timegate.specs.Route.{route_of, original_in};
ghost use Rattle.timegate.specs.declared.reply.Reply.{Reply};
ghost use Rattle.timegate.specs.Reply.{reply_of};
ghost use Rattle.replica_events.specs.World.{Knowledge, World};
ghost use Rattle.replica_events.specs.Agreement.{HasTaken, Gives, SameHarvests, timemap_at};
ghost use Rattle.retention.specs.Restriction.{Rule, restrict, kept_of, IsWithin, KeepsOriginal, taken_in};
ghost use Rattle.retention_laws.specs.Cursors.{HasReachedWithin};

/// Each request about a kept original has the same reply before and after.
pub fn kept_originals_reply_the_same()
    ensures { (base : List ℕ) (keeps : Rule) (s t : StampedState) (q : Request) (original : List ℕ)
        → t.entries ≡ restrict keeps s.entries → original_in (route_of q) ≡ Some original
        → KeepsOriginal keeps original → reply_of base t q ≡ reply_of base s q }
{}

/// Of an original that a rule keeps, two replicas give the same reply to each request, and the same TimeMap, if what
/// they have taken since their last restart has the same harvests among those that the rule keeps. So what each of them
/// has forgotten beside it makes no difference: the rule may be what both keep.
pub fn replicas_agree_on_what_both_keep()
    ensures replies { (base : List ℕ) (keeps : Rule) (world : World) (i j : ℕ) (known other : Knowledge)
        → HasTaken world i known → HasTaken world j other
        → SameHarvests (kept_of keeps known) (kept_of keeps other)
        → (q : Request) (original : List ℕ) → original_in (route_of q) ≡ Some original → KeepsOriginal keeps original
        → (r s : Reply) → Gives base world i q r → Gives base world j q s → r ≡ s }
    ensures timemaps { (base : List ℕ) (keeps : Rule) (known other : Knowledge)
        → SameHarvests (kept_of keeps known) (kept_of keeps other)
        → (original : List ℕ) → KeepsOriginal keeps original
        → timemap_at base known original ≡ timemap_at base other original }
{}

/// To anything that has at least what a rule keeps of the first n merges, the kept entries with a stamp above n add
/// exactly what the rule keeps of all merges.
pub fn kept_deltas_suffice()
    ensures { (keeps : Rule) (merges : List Merge) (s : StampedState) (n : ℕ) (x : Entries) → IsStamped merges s
        → HasReachedWithin keeps merges n x
        → taken_in keeps x (entries_above s n) ≡ taken_in keeps x (state_after merges) }
{}

/// Where a rule gives way to one that keeps no more, what a cursor says of the first n merges stays true of what is
/// left: the cursor may be held on. So it does while more is joined.
pub fn cursors_stay_reached()
    ensures forgotten { (inner outer : Rule) (merges : List Merge) (n : ℕ) (x : Entries) → IsWithin inner outer
        → HasReachedWithin outer merges n x → HasReachedWithin inner merges n (restrict inner x) }
    ensures joined { (keeps : Rule) (merges : List Merge) (n : ℕ) (x y : Entries)
        → HasReachedWithin keeps merges n x → HasReachedWithin keeps merges n (join x y) }
    ensures moved { (keeps : Rule) (merges : List Merge) (s : StampedState) (n : ℕ) (x : Entries) → IsStamped merges s
        → HasReachedWithin keeps merges n x
        → AtMost (restrict keeps (state_after merges)) (taken_in keeps x (entries_above s n)) }
{}
