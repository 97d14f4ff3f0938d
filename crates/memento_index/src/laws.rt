//! Laws of the listed, the nearest and the last memento.
ghost use Rattle.std.specs.Prelude.{◌≡◌, ℕ, ◌+◌, ◌≤◌, ◌↔◌, List, [], IsTrue, MatchOption, length};
ghost use Rattle.memento_time.specs.declared.mementos.Memento.{Memento};
ghost use Rattle.memento_sets.specs.Sets as set;
ghost use Rattle.memento_sets.specs.MementoSets.{Mementos};
ghost use Rattle.harvest_lattice.specs.Lattice.{Entries};
ghost use Rattle.harvest_lattice.specs.Knowledge.{shown_of};
ghost use Rattle.memento_index.specs.Choice.{IsNearest, IsLast, distance, nearest, last};
ghost use Rattle.memento_index.specs.Showing.{IsShowing, AreShowing, showing};

/// Each archive that shows a memento counts once for it, in however many revisions the memento stands there. A memento
/// is listed exactly if an archive shows it.
pub fn archives_count_once()
    ensures counted { (x : Entries) (o : List ℕ) (m : Memento)
        → (archives : List (List ℕ)) × AreShowing x o m archives × (showing x o m ≡ length archives) }
    ensures listed { (x : Entries) (o : List ℕ) (m : Memento)
        → IsTrue (set.contains (shown_of x o) m) ↔ ((archive : List ℕ) × IsShowing x o m archive) }
{}

/// A distance is the number of seconds between the memento's second and the other, whichever is later.
pub fn distances_are_between()
    ensures later { (t : ℕ) (m : Memento) → t ≤ m.at → t + distance t m ≡ m.at }
    ensures earlier { (t : ℕ) (m : Memento) → m.at ≤ t → m.at + distance t m ≡ t }
{}

/// There is exactly one nearest memento, unless there are no mementos.
pub fn one_is_nearest()
    ensures is { (mementos : Mementos) (t : ℕ)
        → MatchOption (nearest mementos t) (set.items mementos ≡ []) (IsNearest mementos t) }
    ensures once { (mementos : Mementos) (t : ℕ) (m n : Memento) → IsNearest mementos t m → IsNearest mementos t n
        → m ≡ n }
{}

/// There is exactly one last memento, unless there are no mementos.
pub fn one_is_last()
    ensures is { (mementos : Mementos) → MatchOption (last mementos) (set.items mementos ≡ []) (IsLast mementos) }
    ensures once { (mementos : Mementos) (m n : Memento) → IsLast mementos m → IsLast mementos n → m ≡ n }
{}
