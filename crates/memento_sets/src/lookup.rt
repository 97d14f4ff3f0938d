//! Looking up keys that come in their order.
ghost use Rattle.std.specs.Prelude.{◌≡◌, IsTrue, None, is_some, option_copied};
ghost use Rattle.std.specs.BTreeMap as tree;
ghost use Rattle.memento_time.specs.Mementos.{text_cmp};

use memento_time::Original;
use std::collections::BTreeMap;

/// What a map has at an original, found at once if the original is behind all of the map's.
///
/// A snapshot, a state and a long delta bring originals in their order, so a map that takes them in has nothing at most
/// of them. For those it takes one comparison in place of a logarithm of them; any other original takes one more than
/// `BTreeMap::get`.
pub fn get_rising<'a, V>(map: &'a BTreeMap<Original, V>, original: &Original) -> Option<&'a V>
    ensures { option_copied result ≡ tree.get text_cmp map.now original.now }
{
    if is_behind(map, original) {
        return None;
    }
    map.get(original)
}

/// Whether a map has something at an original, told as soon as `get_rising` finds it.
pub fn contains_rising<V>(map: &BTreeMap<Original, V>, original: &Original) -> bool
    ensures { result ≡ is_some (tree.get text_cmp map.now original.now) }
{
    get_rising(map, original).is_some()
}

/// Whether an original is behind all of a map's.
fn is_behind<V>(map: &BTreeMap<Original, V>, original: &Original) -> bool
    ensures { IsTrue result → tree.get text_cmp map.now original.now ≡ None }
{
    match map.last_key_value() {
        Some((last, _)) => last < original,
        None => true,
    }
}
