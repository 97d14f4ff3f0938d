//! From where a peer is asked some of whose news weren't taken.
ghost use Rattle.std.specs.Prelude.{◌≡◌, ◌≢◌, IfSome};
ghost use Rattle.replica_exchange.specs.CursorRule as rule;
ghost use Rattle.round_values.specs.Leads as spec;

use crate::freshness::is_young;
use crate::times::Second;
use replica_exchange::{Cursor, Delta};

/// For how many seconds a lead lasts.
const LASTS: u64 = 3_600;

/// How far a peer's news were looked through beyond the cursor that is held, since some of them weren't taken. The
/// cursor can't go past these, so without a lead each pull would bring all that came behind them once more.
#[derive(Clone, Copy, Debug, PartialEq, Eq)]
pub struct Lead {
    pub cursor: Cursor,
    /// The second in which the peer was last asked from the held cursor.
    pub begun: Second,
}

impl Lead {
    /// Whether the peer is asked from here yet: for an hour of the clock. Then it is asked from the held cursor, which
    /// brings again what wasn't taken. A clock that is set by an hour or more ends it at once.
    pub fn lasts(self, now: Second) -> bool
        ensures { result ≡ spec.lasts self now.0 }
    {
        is_young(self.begun, now, Some(LASTS))
    }
}

/// From which cursor a peer is asked: from the lead's, if there is one that lasts, and else from the one that is held.
pub fn asked_from(held: Option<Cursor>, lead: Option<Lead>, now: Second) -> Option<Cursor>
    ensures { spec.IsAskedFrom held lead now.0 result }
{
    match lead {
        Some(lead) if lead.lasts(now) => Some(lead.cursor),
        _ => held,
    }
}

/// Whether a cursor has a delta's incarnation, and isn't before the delta's start.
fn reaches(asked: Option<Cursor>, delta: &Delta) -> bool
    ensures { result ≡ rule.reaches asked delta.now }
{
    match asked {
        Some(cursor) => cursor.incarnation == delta.incarnation && delta.start <= cursor.number,
        None => false,
    }
}

/// Whether a delta begins at the beginning, or no later than the cursor from which it was asked for.
pub fn follows(asked: Option<Cursor>, delta: &Delta) -> bool
    ensures { result ≡ rule.fits asked delta.now }
{
    delta.start == 0 || reaches(asked, delta)
}

/// The lead once a delta was looked through that was asked for from this cursor, and that the held cursor can't follow.
pub fn led_by(
    asked: Option<Cursor>,
    held: Option<Cursor>,
    lead: Option<Lead>,
    delta: &Delta,
    now: Second,
) -> Lead
    ensures cursor { result.cursor ≡ rule.end_of delta.now }
    ensures again { asked ≡ held → result.begun ≡ now }
    ensures on { asked ≢ held → IfSome lead (λ before. result.begun ≡ before.begun) }
{
    let begun = match lead {
        Some(lead) if asked != held => lead.begun,
        _ => now,
    };
    Lead {
        cursor: Cursor {
            incarnation: delta.incarnation,
            number: delta.end,
        },
        begun,
    }
}
