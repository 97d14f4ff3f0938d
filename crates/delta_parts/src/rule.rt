//! Which parts go on with a walk, and what the walk comes to.
ghost use Rattle.std.specs.Prelude.{◌≡◌, IfOk, option_copied};
ghost use Rattle.delta_parts.specs.PartRule as parts;
ghost use Rattle.replica_exchange.specs.CursorRule as cursors;

use crate::part::Part;
use crate::place::Place;
use crate::walk::Walk;
use memento_time::NoMemory;
use replica_exchange::{Cursor, Delta};

/// Whether a part begins no later than at this place.
fn is_near(place: &Place, behind: Option<&Place>) -> bool
    ensures { result ≡ parts.is_near place.now (option_copied behind.entry) }
{
    match behind {
        Some(behind) => !place.is_past(behind.archive, &behind.original),
        None => true,
    }
}

/// Whether a part goes on with a walk: it is of the walk's incarnation, starts no later than the walk did, and leaves
/// out no key.
pub fn goes_on(walk: Option<&Walk>, part: &Part) -> bool
    ensures { result ≡ parts.goes_on (option_copied walk.entry) part.now }
{
    match walk {
        Some(walk) => {
            walk.incarnation == part.delta.incarnation
                && part.delta.start <= walk.start
                && is_near(&walk.place, part.behind.as_ref())
        }
        None => false,
    }
}

/// Whether a delta that starts there would be taken where this cursor is held.
fn fits(held: Option<Cursor>, delta: &Delta) -> bool
    ensures { result ≡ cursors.fits held delta.now }
{
    match held {
        _ if delta.start == 0 => true,
        Some(cursor) => cursor.incarnation == delta.incarnation && delta.start <= cursor.number,
        None => false,
    }
}

/// Whether a part is taken: it goes on with the walk, or it begins a walk from the cursor that is held.
pub fn fits_part(held: Option<Cursor>, walk: Option<&Walk>, part: &Part) -> bool
    ensures { result ≡ parts.fits_part held (option_copied walk.entry) part.now }
{
    goes_on(walk, part) || part.behind.is_none() && fits(held, &part.delta)
}

/// Of how many merges a walk tells once this part was taken.
fn number_after(walk: Option<&Walk>, part: &Part) -> u64
    ensures { result ≡ parts.number_after (option_copied walk.entry) part.now }
{
    match walk {
        Some(known) if goes_on(walk, part) => known.number.min(part.delta.end),
        _ => part.delta.end,
    }
}

/// The delta of which a walk tells that ends with this part: the part's entries, and as many merges as all of the
/// walk's parts tell of.
pub fn walk_end(walk: Option<&Walk>, part: Part) -> Delta
    ensures { result ≡ parts.walk_end (option_copied walk.entry) part }
{
    let end = number_after(walk, &part);
    let Part { delta, .. } = part;
    let Delta {
        incarnation,
        start,
        state,
        ..
    } = delta;
    Delta {
        incarnation,
        start,
        end,
        state,
    }
}

/// Where a walk stands after a part; `None` after the last one.
pub fn walk_after(walk: Option<&Walk>, part: &Part) -> Result<Option<Walk>, NoMemory>
    ensures { IfOk result (λ after. after ≡ parts.walk_after (option_copied walk.entry) part.now) }
{
    let Some(until) = &part.until else {
        return Ok(None);
    };
    let after = match walk {
        Some(known) if goes_on(walk, part) => Walk {
            incarnation: known.incarnation,
            start: known.start,
            number: known.number.min(part.delta.end),
            place: later(&known.place, until)?,
        },
        _ => Walk {
            incarnation: part.delta.incarnation,
            start: part.delta.start,
            number: part.delta.end,
            place: until.try_clone()?,
        },
    };
    Ok(Some(after))
}

/// Of two places the later one.
fn later(known: &Place, until: &Place) -> Result<Place, NoMemory>
    ensures { IfOk result (λ place. place ≡ parts.later known.now until.now) }
{
    if known.is_past(until.archive, &until.original) {
        until.try_clone()
    } else {
        known.try_clone()
    }
}
