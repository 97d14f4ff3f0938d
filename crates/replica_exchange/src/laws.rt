//! Laws of the definitions.
ghost use Rattle.std.specs.Prelude.{◌≡◌, ℕ, ◌+◌, List, [], ◌∷◌, ◌++◌, length, take, map as map_list};
ghost use Rattle.std.specs.FinMap as map;
ghost use Rattle.std.specs.Ordering.{nat_cmp};
ghost use Rattle.std.specs.List.Sorted.{IsStrictlySortedBy};
ghost use Rattle.memento_sets.specs.Sets as set;
ghost use Rattle.memento_sets.specs.MementoSets.{Mementos};
ghost use Rattle.harvest_lattice.specs.Lattice.{Entries, Key, Kept, AtMost, join};
ghost use Rattle.memento_index.specs.declared.merge.Merge.{Merge};
ghost use Rattle.replica_exchange.specs.StateText.{state_text, IsState, IsTextOf};
ghost use Rattle.replica_exchange.specs.Stamps.{StampedState, IsStamp, IsStamped, IsAbsorbed, state_after};
ghost use Rattle.replica_exchange.specs.Stamps.{entries_above};
ghost use Rattle.replica_exchange.specs.declared.delta.Delta.{Delta};
ghost use Rattle.replica_exchange.specs.DeltaText.{delta_text, IsDelta, IsDeltaText};
ghost use Rattle.replica_exchange.specs.LineOrder.{by_archive_then_original, by_second_then_address};

/// No two states have the same text, whatever their formats.
pub fn one_text_of_a_state()
    ensures written { (x y : Entries) → IsState x → IsState y → state_text x ≡ state_text y → x ≡ y }
    ensures read { (text : List ℕ) (x y : Entries) → IsTextOf text x → IsTextOf text y → x ≡ y }
{}

/// No two deltas have the same text, whatever their formats.
pub fn one_text_of_a_delta()
    ensures written { (x y : Delta) → IsDelta x → IsDelta y → delta_text x ≡ delta_text y → x ≡ y }
    ensures read { (text : List ℕ) (x y : Delta) → IsDeltaText text x → IsDeltaText text y → x ≡ y }
{}

/// The text of a state has its entries by archive and then by original, the revisions of each entry from the least one
/// on, and the mementos of each revision by second and then by address, none twice.
pub fn lines_stand_in_order()
    ensures entries { (x : Entries)
        → IsStrictlySortedBy by_archive_then_original (map_list (λ e. e.0) (map.entries x)) }
    ensures revisions { (kept : Kept) → IsStrictlySortedBy nat_cmp (map_list (λ p. p.0) (map.entries kept.revisions)) }
    ensures mementos { (mementos : Mementos) → IsStrictlySortedBy by_second_then_address (set.items mementos) }
{}

/// Merges have only one result: their state, and one stamp for each of its entries.
pub fn one_stamped_state()
    ensures { (merges : List Merge) (s t : StampedState) → IsStamped merges s → IsStamped merges t
        → s.incarnation ≡ t.incarnation → s ≡ t }
{}

/// One more merge gives its number as a stamp to the entries that it changes, and leaves the other stamps as they are.
pub fn one_merge_more()
    ensures stays { (merges : List Merge) (m : Merge) (k : Key) (n : ℕ) → IsStamp merges k n
        → map.get (state_after (merges ++ m ∷ [])) k ≡ map.get (state_after merges) k → IsStamp (merges ++ m ∷ []) k n }
    ensures changes { (merges : List Merge) (m : Merge) (k : Key)
        → ¬ (map.get (state_after (merges ++ m ∷ [])) k ≡ map.get (state_after merges) k)
        → IsStamp (merges ++ m ∷ []) k (length merges + 1) }
{}

/// So the result of absorbing one more merge is the result of all merges including it, and the result of no merges is
/// empty.
pub fn one_merge_is_absorbed()
    ensures more { (merges : List Merge) (m : Merge) (s t : StampedState) → IsStamped merges s → IsAbsorbed s m t
        → IsStamped (merges ++ m ∷ []) t }
    ensures none { (incarnation : ℕ)
        → IsStamped [] (record { entries = map.empty; stamps = map.empty; number = 0; incarnation = incarnation }) }
{}

/// To anything that is at least the state of the first n merges, the entries with a stamp above n add exactly what all
/// the merges add. All entries have a stamp above zero.
pub fn deltas_suffice()
    ensures suffice { (merges : List Merge) (s : StampedState) (n : ℕ) (x : Entries) → IsStamped merges s →
        AtMost (state_after (take n merges)) x → join x (entries_above s n) ≡ join x (state_after merges) }
    ensures all { (merges : List Merge) (s : StampedState) → IsStamped merges s
        → entries_above s 0 ≡ state_after merges }
{}
