//! The last memento of a list, by binary search.
ghost use Rattle.std.specs.Prelude.{◌≡◌, ◌+◌, ◌^◌, ◌<◌, ◌≤◌, ℕ, IfSome, length, slice_get, option_copied};
ghost use Rattle.std.specs.Option.{option_and_then};
ghost use Rattle.std.specs.List.Sorted.{IsStrictlySortedBy};
ghost use Rattle.memento_time.specs.Mementos.{memento_cmp};
ghost use Rattle.memento_sets.specs.Sets as set;
ghost use Rattle.memento_index.specs.Choice.{last};

use crate::nearest::first_from;
use crate::probed::Probed;
use memento_time::Memento;

/// The place of the memento with the greatest datetime: the one with the least URI, if several have it. `None` if the
/// list is empty.
///
/// Reads only datetimes of the list: at most one more than its length has binary digits.
pub fn last_in(list: &mut Probed<'_>) -> Option<usize>
    requires in_order { IsStrictlySortedBy memento_cmp list.old.list }
    requires few { list.old.probes ≤ 1000000000 }
    ensures within { IfSome result (λ k. k < length list.old.list) }
    ensures last { option_and_then (slice_get list.old.list) result ≡ last (set.from_list list.old.list) }
    ensures same { list.new.list ≡ list.old.list }
    ensures few { (digits : ℕ) → length list.old.list < 2 ^ digits
        → list.new.probes ≤ list.old.probes + (digits + 1) }
{
    let len = list.len();
    if len == 0 {
        return None;
    }
    let greatest = list.at(len - 1);
    Some(first_from(list, len - 1, greatest))
}

/// The memento with the greatest datetime: the one with the least URI, if several have it.
pub(crate) fn last_of(list: &[Memento]) -> Option<&Memento>
    requires { IsStrictlySortedBy memento_cmp list.now }
    ensures { option_copied result ≡ last (set.from_list list.now) }
{
    match last_in(&mut Probed::new(list)) {
        Some(place) => Some(&list[place]),
        None => None,
    }
}
