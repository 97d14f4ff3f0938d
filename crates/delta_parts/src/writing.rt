//! Writing a part as its text.
ghost use Rattle.std.specs.Prelude.{◌≡◌, ◌≤◌, ◌++◌, IfOk, OnOk, option_copied};
ghost use Rattle.std.specs.FinMap as map;
ghost use Rattle.replica_exchange.specs.Stamps.{entries_above};
ghost use Rattle.delta_parts.specs.Filling.{rows_above};
ghost use Rattle.delta_parts.specs.PartText.{place_text, head, IsPlace, IsTextAbove, IsTextFrom};

use crate::lines::{Lines, rows_from};
use crate::place::Place;
use harvest_lattice::State;
use memento_time::NoMemory;
use replica_exchange::{Cursor, Stamped, write_span};
use std::alloc::{AllocError, Global};
use text_fields::write_decimal;

/// Writes a place, or a hyphen for none, and the end of its line.
fn write_place(out: &mut Vec<u8>, place: Option<&Place>) -> Result<(), AllocError>
    ensures written { OnOk result (out.new.items ≡ out.old.items ++ place_text (option_copied place.entry)) }
    ensures fits { OnOk result (IsPlace (option_copied place.entry)) }
{
    match place {
        None => out.extend_from_slice(b"-\n"),
        Some(place) => {
            out.extend_from_slice(place.archive.as_bytes())?;
            out.push(b' ')?;
            out.extend_from_slice(place.original.as_bytes())?;
            out.push(b'\n')?;
            Ok(())
        }
    }
}

/// Writes a part's own lines.
fn write_head(
    out: &mut Vec<u8>,
    behind: Option<&Place>,
    until: Option<&Place>,
) -> Result<(), AllocError>
    ensures written { OnOk result (out.new.items
        ≡ out.old.items ++ head.spelled (option_copied behind.entry, option_copied until.entry)) }
    ensures behind { OnOk result (IsPlace (option_copied behind.entry)) }
    ensures until { OnOk result (IsPlace (option_copied until.entry)) }
{
    out.extend_from_slice(b"memento-part 1\nbehind ")?;
    write_place(out, behind)?;
    out.extend_from_slice(b"until ")?;
    write_place(out, until)
}

/// The text of a part whose entries are among those of a state, which has all entries with a stamp above the start.
fn write_part_of(
    alloc: Global,
    state: &State,
    stamped: &Stamped,
    start: u64,
    behind: Option<&Place>,
    room: usize,
) -> Result<Vec<u8>, NoMemory>
    requires entries { rows_above stamped.now start (map.entries state.now)
        ≡ map.entries (entries_above stamped.now start) }
    requires within { start ≤ stamped.now.number }
    ensures { IfOk result (λ text. IsTextAbove text.items stamped.now start (option_copied behind.entry)) }
{
    let mut lines = Lines::new(alloc);
    let until = lines.fill(rows_from(state, behind), stamped, start, room)?;
    let mut out = Vec::new(alloc);
    write_head(&mut out, behind, until.as_ref())?;
    out.extend_from_slice(b"memento-delta 2\n")?;
    write_span(&mut out, stamped.incarnation(), start, stamped.number())?;
    out.extend_from_slice(b"entries ")?;
    write_decimal(&mut out, lines.count)?;
    out.push(b'\n')?;
    out.extend_from_slice(lines.text.as_slice())?;
    out.extend_from_slice(b"end\n")?;
    Ok(out)
}

/// The text of a part of what the merges after a cursor changed, or of everything if there is no cursor of this
/// incarnation: the entries behind a place, as many as fill so many bytes. An entry that is longer is a part by itself.
///
/// Takes time linear in the text, and for each entry that it walks past, time logarithmic in the number of keys. Where
/// more than an eighth of all stamps are above the cursor, it walks past the entries between those of the part, too;
/// else it takes time in all entries above the cursor.
pub fn write_part(
    alloc: Global,
    stamped: &Stamped,
    cursor: Option<Cursor>,
    behind: Option<&Place>,
    room: usize,
) -> Result<Vec<u8>, NoMemory>
    ensures { IfOk result (λ text. IsTextFrom text.items stamped.now cursor (option_copied behind.entry)) }
{
    let start = stamped.start_from(cursor);
    match stamped.few_above(start)? {
        Some(state) => write_part_of(alloc, &state, stamped, start, behind, room),
        None => {
            let state = stamped.index().state();
            write_part_of(alloc, state, stamped, start, behind, room)
        }
    }
}
