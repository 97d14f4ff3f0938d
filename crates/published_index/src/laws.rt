//! Laws of what follows for one gate from its calls, and for the replies of two gates.
ghost use Rattle.std.specs.Prelude.{◌≡◌, ◌⊎◌, ℕ, ◌+◌, ◌≤◌, [], ◌∷◌, ◌++◌, true, List, Contains, length, Some};
ghost use Rattle.std.specs.Prelude.{IfSome, None, Ok, Option, fold};
ghost use Rattle.std.specs.List.{flat_map};
ghost use Rattle.std.specs.FinMap as finite;
ghost use mathlib.Core.List.{IsPrefix};
ghost use Rattle.memento_index.specs.declared.merge.Merge.{Merge};
ghost use Rattle.harvest_lattice.specs.Knowledge.{Harvested, lat};
ghost use Rattle.replica_exchange.specs.declared.cursor.Cursor.{Cursor};
ghost use Rattle.replica_exchange.specs.declared.delta.Delta.{Delta};
ghost use Rattle.replica_exchange.specs.CursorRule.{delta_from, fits};
ghost use Rattle.replica_exchange.specs.Stamps.{StampedState};
ghost use Rattle.memento_index.specs.Merges.{adds_of};
ghost use Rattle.memento_index.specs.declared.merge.Merge.TheVariants.{State};
ghost use Rattle.delta_parts.specs.declared.part.Part.{Part};
ghost use Rattle.delta_parts.specs.declared.walk.Walk.{Walk};
ghost use Rattle.delta_parts.specs.PartRule.{AreWalked, IsPartOf, fits_part, walk_after, walk_end};
ghost use Rattle.timegate.specs.Reply.{reply};
ghost use Rattle.timegate.specs.declared.request.Request.{Request};
ghost use Rattle.timegate.specs.declared.reply.Reply.{Reply};
ghost use Rattle.replica_events.specs.declared.event.Event.TheVariants.{Ask};
ghost use Rattle.replica_events.specs.declared.event.Said.TheVariants.{Replied};
ghost use Rattle.replica_events.specs.World.{World, Replica, Step, replica};
ghost use Rattle.published_index.specs.Batches.{Batch, fold_of, merges_of};
ghost use Rattle.published_index.specs.Calls.{Call, Learn, Answer, Calls};
ghost use Rattle.published_index.specs.Cursors.{Histories, HasReached, IsDeltaOf, IsKnown};
ghost use Rattle.published_index.specs.Cursors.{MergerCall, Publish, after_call, handed_by, merges_with_pending};
ghost use Rattle.published_index.specs.Cursors.{state_of};
ghost use Rattle.published_index.specs.Cursors.{receipt_of, with_cursor, with_delta, with_merge, with_publish};
ghost use Rattle.published_index.specs.Events.{AreNumbered, RunsAsEvents, after_batch};
ghost use Rattle.published_index.specs.Exchanges.{AreExchanged, Has, IsMadeOf, filled, published_by};
ghost use Rattle.published_index.specs.Replies.{IsReplyFrom};
ghost use Rattle.published_index.specs.Passes.{Pass};
ghost use Rattle.published_index.specs.Views.{MergerView};

/// Whatever a gate is asked and told, the front of each later reply begins with the front of each earlier reply.
pub fn answers_never_go_back()
    ensures { (start end : Pass) (before between after : List Call) (earlier later : List Batch)
        → Calls start (before ++ Answer earlier ∷ (between ++ Answer later ∷ after)) end → IsPrefix earlier later }
{}

/// A gate that learnt a receipt serves each merge in it: each later reply is made from a front that begins with the
/// receipt's list, and so has each of the list's merges and harvests. The receipt of a publish has each merge of its
/// batch.
pub fn what_is_learnt_is_served()
    ensures front { (start end : Pass) (before between after : List Call) (list front : List Batch)
        → Calls start (before ++ Learn list ∷ (between ++ Answer front ∷ after)) end → IsPrefix list front }
    ensures merges { (list front : List Batch) → IsPrefix list front → (m : Merge) → Contains (merges_of list) m
        → Contains (merges_of front) m }
    ensures harvests { (list front : List Batch) → IsPrefix list front → (h : Harvested) → Contains (fold_of list) h
        → Contains (fold_of front) h }
    ensures published { (m : MergerView) (merge : Merge) → Contains m.pending merge
        → Contains (merges_of (receipt_of (with_publish m)).batches) merge }
{}

/// Whatever calls a merger got: what it published, followed by what is pending, is each merge that it was handed, once
/// and in the order of the calls. After a publish, all of that is published, and what was published before stays at the
/// start.
pub fn each_merge_is_published_once()
    ensures handed { (m : MergerView) (calls : List MergerCall)
        → merges_with_pending (fold after_call m calls) ≡ merges_with_pending m ++ flat_map handed_by calls }
    ensures published { (m : MergerView) (calls : List MergerCall)
        → merges_of (fold after_call m (calls ++ Publish ∷ [])).published
        ≡ merges_with_pending m ++ flat_map handed_by calls }
    ensures start { (m : MergerView) (calls : List MergerCall)
        → IsPrefix m.published (fold after_call m calls).published }
{}

/// A publish adds what the merges of its batch add, one after the other, with nothing in between.
pub fn a_publish_adds_its_batch()
    ensures { (m : MergerView) → fold_of (with_publish m).published
        ≡ fold (λ taken merge. taken ++ adds_of merge) (fold_of m.published) m.pending }
{}

/// A publish is the events of its batch at this replica, in order, with nothing in between: each harvest is taken, and
/// each state is received as its text. `run` requires that all merges that are then published have numbers, which
/// `Merger::publish` ensures if it succeeds (`numbered`), and that each text may be received.
/// `a_publish_adds_its_batch` says the same for states of any size.
pub fn a_publish_is_events()
    ensures run { (m : MergerView) → AreNumbered (with_publish m).published → RunsAsEvents m.published m.pending }
    ensures taken { (m : MergerView) (r : Replica) → r.taken ≡ fold_of m.published
        → (after_batch r m.pending).taken ≡ fold_of (with_publish m).published }
    ensures merges { (m : MergerView) (r : Replica) → r.merges ≡ merges_of m.published
        → (after_batch r m.pending).merges ≡ merges_of (with_publish m).published }
{}

/// An entry is an `Ask` of this replica, if the replica has taken what the front holds, by the front's merges.
pub fn an_entry_is_an_ask()
    ensures { (base : List ℕ) (w : World) (i : ℕ) (r : Replica) (front : List Batch) (q : Request) (made : Reply)
        → replica w i ≡ Some r → r.taken ≡ fold_of front → r.merges ≡ merges_of front
        → IsReplyFrom base r.incarnation front q made → Step base w (Ask i q) (Ok (Replied made)) w }
{}

/// Gates of two replicas with one base, whose fronts have the same state, give the same reply to every request that
/// asks for no delta. A delta also tells of the merges; in its place, `reply` has a delta that tells of none.
pub fn same_state_same_reply()
    ensures { (base : List ℕ) (first second : List Batch) (q : Request) → lat (fold_of first) ≡ lat (fold_of second)
        → reply base (fold_of first) q ≡ reply base (fold_of second) q }
{}

/// For each cursor that it holds, a merger has, published or pending, at least what the first so many merges of that
/// peer's incarnation made. This holds for a merger without cursors, and it still holds after each delta of those
/// merges that is appended, after each that moves the cursor alone since all that it has is published, after every
/// other merge, and after a publish.
pub fn held_cursors_are_reached()
    ensures first { (histories : Histories) (m : MergerView) → m.cursors ≡ finite.empty → HasReached histories m }
    ensures delta { (histories : Histories) (m : MergerView) (peer : ℕ) (d : Delta) → HasReached histories m
        → IsDeltaOf histories peer d → fits (finite.get m.cursors peer) d ≡ true
        → HasReached histories (with_delta m peer d) }
    ensures known { (histories : Histories) (m : MergerView) (peer : ℕ) (d : Delta) → HasReached histories m
        → IsDeltaOf histories peer d → fits (finite.get m.cursors peer) d ≡ true → IsKnown m d
        → HasReached histories (with_cursor m peer d) }
    ensures merge { (histories : Histories) (m : MergerView) (merge : Merge) → HasReached histories m
        → HasReached histories (with_merge m merge) }
    ensures publish { (histories : Histories) (m : MergerView) → HasReached histories m
        → HasReached histories (with_publish m) }
{}

/// A walk over the parts of a peer's delta says how far its merges are known, and that stays true: after each part that
/// fits and whose entries are appended, whatever the peer merged meanwhile, after every other merge, and after a
/// publish. With the last part the cursor moves to what the walk tells of (`walk_end`), and says it as every cursor
/// does.
pub fn walks_are_reached()
    ensures part { (histories : Histories) (m : MergerView) (peer : ℕ) (walk : Option Walk) (p : Part)
        → HasReached histories m → AreWalked (histories peer) walk (state_of m) → IsPartOf (histories peer) p
        → fits_part (finite.get m.cursors peer) walk p ≡ true
        → AreWalked (histories peer) (walk_after walk p) (state_of (with_merge m (State p.delta.state))) }
    ensures last { (histories : Histories) (m : MergerView) (peer : ℕ) (walk : Option Walk) (p : Part)
        → HasReached histories m → AreWalked (histories peer) walk (state_of m) → IsPartOf (histories peer) p
        → fits_part (finite.get m.cursors peer) walk p ≡ true → p.until ≡ None
        → HasReached histories (with_delta m peer (walk_end walk p)) }
    ensures known { (histories : Histories) (m : MergerView) (peer : ℕ) (walk : Option Walk) (p : Part)
        → HasReached histories m → AreWalked (histories peer) walk (state_of m) → IsPartOf (histories peer) p
        → fits_part (finite.get m.cursors peer) walk p ≡ true → p.until ≡ None → IsKnown m p.delta
        → HasReached histories (with_cursor m peer (walk_end walk p)) }
    ensures merge { (histories : Histories) (m : MergerView) (peer : ℕ) (walk : Option Walk) (merge : Merge)
        → AreWalked (histories peer) walk (state_of m)
        → AreWalked (histories peer) walk (state_of (with_merge m merge)) }
    ensures publish { (histories : Histories) (m : MergerView) (peer : ℕ) (walk : Option Walk)
        → AreWalked (histories peer) walk (state_of m)
        → AreWalked (histories peer) walk (state_of (with_publish m)) }
{}

/// Deltas that are asked for from the held cursor follow each other: each one fits. Once one is appended, the next one
/// that this incarnation of the peer makes begins no earlier than where that one ended, unless the cursor was beyond
/// what the peer has. The cursors of other peers stay as they are.
pub fn deltas_follow_each_other()
    ensures fits { (s : StampedState) (held : Option Cursor) → fits held (delta_from s held) ≡ true }
    ensures next { (m : MergerView) (peer : ℕ) (d : Delta) (s : StampedState) → s.incarnation ≡ d.incarnation
        → d.end ≤ s.number → IfSome (finite.get m.cursors peer) (λ c. c.number ≤ s.number)
        → d.end ≤ (delta_from s (finite.get (with_delta m peer d).cursors peer)).start }
    ensures others { (m : MergerView) (peer other : ℕ) (d : Delta) → ¬ (other ≡ peer)
        → finite.get (with_delta m peer d).cursors other ≡ finite.get m.cursors other }
{}

/// Mergers that get nothing but each other's deltas have a last merge: with whatever deltas of each other's, each
/// publishes no more batches that have a merge than there are harvests that it hasn't published (`batches`), and once
/// it has published all of them it takes no merge more (`silent`).
///
/// The harvests are those that one of the mergers has published: what each has is made of them (`made`), so is what
/// each tells of it in a delta (`told`), and so is what each has published after such deltas (`stays`).
pub fn exchanges_have_a_last_merge()
    ensures batches { (harvests unknown : List Harvested) (m : MergerView) (calls : List MergerCall) → m.pending ≡ []
        → AreExchanged harvests m calls
        → ((h : Harvested) → Contains harvests h → Has (published_by m) h ⊎ Contains unknown h)
        → length (filled (fold after_call m calls).published) ≤ length (filled m.published) + length unknown }
    ensures silent { (harvests : List Harvested) (m : MergerView) (calls : List MergerCall)
        → AreExchanged harvests m calls → ((h : Harvested) → Contains harvests h → Has (published_by m) h)
        → merges_with_pending (fold after_call m calls) ≡ merges_with_pending m }
    ensures made { (harvests : List Harvested) (m : MergerView)
        → ((h : Harvested) → Contains (fold_of m.published) h → Contains harvests h)
        → IsMadeOf harvests (published_by m) }
    ensures told { (harvests : List Harvested) (s : StampedState) (held : Option Cursor) → IsMadeOf harvests s.entries
        → IsMadeOf harvests (delta_from s held).state }
    ensures stays { (harvests : List Harvested) (m : MergerView) (calls : List MergerCall) → m.pending ≡ []
        → IsMadeOf harvests (published_by m) → AreExchanged harvests m calls
        → IsMadeOf harvests (published_by (fold after_call m calls)) }
{}
