//! Finds the memento that a gate names, by binary search.
ghost use Rattle.std.specs.Prelude.{◌≡◌, ◌↔◌, ℕ, ◌+◌, ◌*◌, ◌^◌, ◌<◌, ◌≤◌, IsTrue, IfSome, length, slice_index};
ghost use Rattle.std.specs.Prelude.{slice_get, option_copied};
ghost use Rattle.std.specs.Option.{option_and_then};
ghost use Rattle.std.specs.List.Sorted.{IsNonDecreasing, IsStrictlySortedBy};
ghost use Rattle.memento_time.specs.Mementos.{memento_cmp};
ghost use Rattle.memento_sets.specs.Sets as set;
ghost use Rattle.memento_index.specs.Choice.{nearest};
ghost use Rattle.memento_index.specs.Probes.{datetimes, gap};

use crate::probed::Probed;
use memento_time::{Memento, Moment};

/// The first place before the end whose datetime isn't earlier than the moment, or the end if there is none.
pub(crate) fn first_from(list: &mut Probed<'_>, end: usize, moment: Moment) -> usize
    requires in_order { IsNonDecreasing (datetimes list.old.list) }
    requires in_range { end ≤ length list.old.list }
    requires few { list.old.probes ≤ 2000000000 }
    ensures within { result ≤ end }
    ensures before { (k : ℕ) → k < result → slice_index (datetimes list.old.list) k < moment }
    ensures after { (k : ℕ) → result ≤ k → k < end → moment ≤ slice_index (datetimes list.old.list) k }
    ensures same { list.new.list ≡ list.old.list }
    ensures few { (digits : ℕ) → end < 2 ^ digits → list.new.probes ≤ list.old.probes + digits }
{
    let mut low = 0;
    let mut high = end;
    while low < high {
        let middle = low + (high - low) / 2;
        if list.at(middle) < moment {
            low = middle + 1;
        } else {
            high = middle;
        }
    }
    low
}

/// Whether there is a memento at the place that is nearer to the moment than one with this datetime.
fn is_nearer_than(list: &mut Probed<'_>, place: usize, other: Moment, moment: Moment) -> bool
    requires in_range { place ≤ length list.old.list }
    requires few { list.old.probes ≤ 2000000000 }
    ensures answer { IsTrue result
        ↔ ((place < length list.old.list)
        × (gap moment (slice_index (datetimes list.old.list) place) < gap moment other)) }
    ensures same { list.new.list ≡ list.old.list }
    ensures few { list.new.probes ≤ list.old.probes + 1 }
{
    if place == list.len() {
        return false;
    }
    let at = list.at(place);
    at.secs().abs_diff(moment.secs()) < other.secs().abs_diff(moment.secs())
}

/// The place of the memento at the least distance in seconds: the earlier of two at the same distance, and the one with
/// the least URI of those at one datetime. `None` if the list is empty.
///
/// Reads only datetimes of the list: at most 2 more than twice the number of binary digits of its length.
pub fn nearest_in(list: &mut Probed<'_>, moment: Moment) -> Option<usize>
    requires in_order { IsStrictlySortedBy memento_cmp list.old.list }
    requires few { list.old.probes ≤ 1000000000 }
    ensures within { IfSome result (λ k. k < length list.old.list) }
    ensures nearest { option_and_then (slice_get list.old.list) result ≡ nearest (set.from_list list.old.list) moment }
    ensures same { list.new.list ≡ list.old.list }
    ensures few { (digits : ℕ) → length list.old.list < 2 ^ digits
        → list.new.probes ≤ list.old.probes + (2 * digits + 2) }
{
    let len = list.len();
    if len == 0 {
        return None;
    }
    let place = first_from(list, len, moment);
    if place == 0 {
        return Some(0);
    }
    let before = list.at(place - 1);
    if is_nearer_than(list, place, before, moment) {
        return Some(place);
    }
    Some(first_from(list, place - 1, before))
}

/// The memento at the least distance in seconds.
pub(crate) fn nearest_of(list: &[Memento], moment: Moment) -> Option<&Memento>
    requires { IsStrictlySortedBy memento_cmp list.now }
    ensures { option_copied result ≡ nearest (set.from_list list.now) moment }
{
    match nearest_in(&mut Probed::new(list), moment) {
        Some(place) => Some(&list[place]),
        None => None,
    }
}
