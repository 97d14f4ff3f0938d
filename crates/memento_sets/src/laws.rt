//! A law of the definitions.
ghost use Rattle.std.specs.Prelude.{◌≡◌, ◌↔◌, List, IsTrue};
ghost use Rattle.std.specs.List.{Contains};
ghost use Rattle.std.specs.List.Sorted.{IsStrictlySortedBy};
ghost use Rattle.memento_time.specs.Mementos.{memento_cmp};
ghost use Rattle.memento_time.specs.declared.mementos.Memento.{Memento};
ghost use Rattle.memento_sets.specs.Sets as set;
ghost use Rattle.memento_sets.specs.MementoSets.{Mementos};

/// A sorted list that has each member of a set once is the list that `items` gives.
pub fn one_list_of_a_set()
    ensures sorted { (mementos : Mementos) → IsStrictlySortedBy memento_cmp (set.items mementos) }
    ensures once { (list : List Memento) → IsStrictlySortedBy memento_cmp list
        → set.items (set.from_list {R = memento_cmp} list) ≡ list }
    ensures members { (list : List Memento) (m : Memento)
        → IsTrue (set.contains (set.from_list {R = memento_cmp} list) m) ↔ Contains list m }
{}
