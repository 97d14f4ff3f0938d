//! What the book of wishes is told: how many unknown originals may be wished for, and which originals rounds look
//! after.
ghost use Rattle.std.specs.Prelude.{◌≡◌, option_map};
ghost use Rattle.std.specs.FinMap as map;
ghost use Rattle.forgetting.specs.Renewing.{known};
ghost use Rattle.round_standing.specs.Rooms as rooms;

use memento_time::{NoMemory, Original};
use original_sets::{Key, OriginalSet};
use published_index::Merger;
use round_values::room_left;
use service_settings::Settings;
use std::alloc::{AllocGlobal, Global};
use std::hash::RandomState;
use std::sync::Wait;
use wishing_gates::WishBook;

/// The set of these originals.
fn set_of(
    alloc: Global,
    originals: &[Original],
    keys: RandomState,
) -> Result<OriginalSet, NoMemory> {
    let mut set = OriginalSet::with_room(alloc, originals.len(), keys)?;
    for original in originals {
        let _ = set.insert(Key::new(original)?)?;
    }
    Ok(set)
}

/// How many more unknown originals may be wished for.
#[derive(Clone, Copy, Debug, PartialEq, Eq)]
struct Room {
    /// How many more the settings' `wanted` allows, by what is published.
    left: usize,
    /// What the book is told: with `forget` what is known gives way to what is wished for.
    told: usize,
}

/// How many more unknown originals may be wished for, by what is published, if rounds look after so many originals, and
/// the settings have `wanted`.
fn room_of(settings: &Settings, listed: usize, merger: &Merger) -> Option<Room>
    ensures { result ≡ rooms.room_of settings.now listed (map.len (known merger.now)) }
{
    let wanted = settings.wishing.wanted?.get();
    let entries = merger.published_state().len();
    let left = room_left(settings.archives.len(), listed, wanted, entries);
    let is_forgotten = settings.forgetting.every.is_some();
    Some(Room {
        left,
        told: if is_forgotten { wanted } else { left },
    })
}

/// Tells the book how many more unknown originals may be wished for, by what is published, if rounds look after so many
/// originals. Returns how many more the settings' `wanted` allows, if they have it.
pub fn book_room<R: Wait>(
    rt: &R,
    book: &WishBook,
    settings: &Settings,
    listed: usize,
    merger: &Merger,
) -> Option<usize>
    ensures { result ≡ option_map (λ room. room.left) (rooms.room_of settings.now listed (map.len (known merger.now))) }
{
    let room = room_of(settings, listed, merger)?;
    book.set_room(rt, room.told);
    Some(room.left)
}

/// Tells the book which originals rounds look after. Returns whether it is told, if it takes wishes. Where memory is
/// refused, those of before stay.
pub fn book_listed<R: Wait + AllocGlobal>(
    rt: &R,
    book: &WishBook,
    listed: &[Original],
    keys: RandomState,
) -> bool {
    if !book.is_open() {
        return true;
    }
    let Ok(listed) = set_of(rt.alloc(), listed, keys) else {
        return false;
    };
    book.set_listed(rt, listed);
    true
}
