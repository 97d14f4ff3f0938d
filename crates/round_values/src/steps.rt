//! How far the parts of a peer's delta were taken.
ghost use Rattle.std.specs.Prelude.{◌≡◌, IfErr, IfOk, OnOk, option_copied, true, false};
ghost use Rattle.delta_parts.specs.PartRule as parts;
ghost use Rattle.round_values.specs.Steps as spec;

use delta_parts::{Part, PartAsk, Place, Walk, fits_part, goes_on, walk_after, walk_end};
use memento_time::NoMemory;
use replica_exchange::{Cursor, Delta};
use service_log::PartFault;

/// How far the parts of a peer's delta were taken.
#[derive(Debug, Drop)]
pub struct Walking {
    pub walk: Walk,
    /// The cursor from which the first part was asked for.
    pub asked: Option<Cursor>,
    /// Whether something of the parts wasn't taken.
    pub left_out: bool,
}

/// What a part comes to.
#[derive(Debug, Drop)]
pub struct Stepped {
    /// The part's entries, and as many merges as the walk tells of with it.
    pub delta: Delta,
    /// The cursor from which the walk's first part was asked for.
    pub asked: Option<Cursor>,
    /// Whether something of the parts before wasn't taken.
    pub left_out: bool,
    /// Where the walk stands; `None` after its last part.
    pub next: Option<Walking>,
}

/// The walk, if there is one.
fn walk_of(walking: Option<&Walking>) -> Option<&Walk>
    ensures { option_copied result ≡ spec.walk_of (option_copied walking.entry) }
{
    match walking {
        Some(walking) => Some(&walking.walk),
        None => None,
    }
}

/// Which part of a peer's delta is asked for: the first one from a cursor, or the next one of the walk.
pub fn next_ask(cursor: Option<Cursor>, walking: Option<&Walking>) -> Result<PartAsk, NoMemory>
    ensures { IfOk result (λ ask. ask ≡ spec.next_ask cursor (option_copied walking.entry)) }
{
    let Some(Walking { walk, .. }) = walking else {
        return Ok(PartAsk::First(cursor));
    };
    let from = Cursor {
        incarnation: walk.incarnation,
        number: walk.start,
    };
    Ok(PartAsk::Next(from, walk.place.try_clone()?))
}

/// Whether a part behind which more follows ends no further on than this place.
fn is_no_further(place: &Place, until: Option<&Place>) -> bool
    ensures { result ≡ spec.is_no_further place.now (option_copied until.entry) }
{
    match until {
        Some(until) => !place.is_past(until.archive, &until.original),
        None => false,
    }
}

/// Whether a part goes on with a walk and ends no further on, though more follows.
fn is_still(walk: Option<&Walk>, part: &Part) -> bool
    ensures { result ≡ spec.is_still (option_copied walk.entry) part.now }
{
    match walk {
        Some(known) => goes_on(walk, part) && is_no_further(&known.place, part.until.as_ref()),
        None => false,
    }
}

/// What was noted of a walk with which a part goes on: from which cursor it began, and whether something wasn't taken.
/// A part that doesn't go on begins a walk, from the cursor from which it was asked for.
fn noted(asked: Option<Cursor>, walking: Option<&Walking>, part: &Part) -> (Option<Cursor>, bool)
    ensures { result ≡ spec.noted asked (option_copied walking.entry) part.now }
{
    match walking {
        Some(known) if goes_on(Some(&known.walk), part) => (known.asked, known.left_out),
        _ => (asked, false),
    }
}

/// Takes a step with a part that a peer gave when it was asked from a cursor, or for the walk's next part.
///
/// `Apart` if the part neither goes on with the walk nor begins one from that cursor. `Still` if it goes on and ends no
/// further on, though more follows: a peer could give such parts without end.
pub fn step(
    asked: Option<Cursor>,
    walking: Option<&Walking>,
    part: Part,
) -> Result<Stepped, PartFault>
    ensures fits { OnOk result
        (parts.fits_part asked (spec.walk_of (option_copied walking.entry)) part ≡ true) }
    ensures further { OnOk result (spec.is_still (spec.walk_of (option_copied walking.entry)) part ≡ false) }
    ensures delta { IfOk result
        (λ it. it.delta ≡ parts.walk_end (spec.walk_of (option_copied walking.entry)) part) }
    ensures next { IfOk result (λ it. spec.walk_of it.next
        ≡ parts.walk_after (spec.walk_of (option_copied walking.entry)) part) }
    ensures noted { IfOk result (λ it. spec.IsNoted asked (option_copied walking.entry) part it) }
    ensures cause { IfErr result (λ fault.
        spec.IsPartCause fault asked (spec.walk_of (option_copied walking.entry)) part) }
{
    let walk = walk_of(walking);
    if !fits_part(asked, walk, &part) {
        return Err(PartFault::Apart);
    }
    if is_still(walk, &part) {
        return Err(PartFault::Still);
    }
    let Ok(after) = walk_after(walk, &part) else {
        return Err(PartFault::NoMemory);
    };
    let (asked, left_out) = noted(asked, walking, &part);
    let delta = walk_end(walk, part);
    let next = match after {
        Some(walk) => Some(Walking {
            walk,
            asked,
            left_out,
        }),
        None => None,
    };
    Ok(Stepped {
        delta,
        asked,
        left_out,
        next,
    })
}
