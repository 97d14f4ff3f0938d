//! Reading a state or a delta from its text.
ghost use Rattle.std.specs.Prelude.{◌≤◌, [], length, IfOk, IfErr};
ghost use Rattle.replica_exchange.specs.StateText.{IsTextOf};
ghost use Rattle.replica_exchange.specs.DeltaText.{IsDeltaText};
ghost use Rattle.replica_exchange.specs.Faults.{IsCause, IsDeltaCause, longest_text};
ghost use Rattle.replica_exchange.specs.Spelling.{Begins, Refuses, RefusesWhole};
ghost use Rattle.replica_exchange.specs.Parts.{entries_in, span};

use crate::delta::Delta;
use crate::entries::read_listing;
use crate::fault::StateFault;
use crate::fields::{read_number, skip};
use crate::format::{Format, read_format};
use harvest_lattice::State;
use std::alloc::Global;

/// The most bytes that the text of a state or a delta can have.
const MAX_LEN: usize = 268_435_456;

/// The state from `entries N` to `end`, which nothing may follow.
fn read_entries_of_state(alloc: Global, format: Format, text: &[u8]) -> Result<State, StateFault>
    ensures found { IfOk result (λ state. Begins (entries_in format) text.now state []) }
    ensures refused { IfErr result (λ fault. RefusesWhole (entries_in format) text.now fault) }
{
    let rows = read_listing(alloc, format, text)?;
    match State::of_rows(alloc, rows)? {
        Some(state) => Ok(state),
        None => Err(StateFault::NotState),
    }
}

/// Reads the state whose text this is, in either format. Takes time linear in the text, and reserves nothing by N,
/// REVISIONS and COUNT. Nothing of the text is kept: an original has a buffer of its own, and so do the addresses of a
/// revision.
pub fn read_state(alloc: Global, text: &[u8]) -> Result<State, StateFault>
    ensures found { IfOk result (λ state. IsTextOf text.now state) }
    ensures within { IfOk result (λ _. length text.now ≤ longest_text) }
    ensures cause { IfErr result (λ fault. IsCause fault text.now) }
{
    if text.len() > MAX_LEN {
        return Err(StateFault::TooLong);
    }
    let (format, entries) = read_format(text, b"memento-state")?;
    let state = read_entries_of_state(alloc, format, entries)?;
    Ok(state)
}

/// The second line of a delta's text.
#[derive(Debug, Drop)]
struct Span {
    incarnation: u64,
    start: u64,
    end: u64,
}

fn read_span(text: &[u8]) -> Result<(Span, &[u8]), StateFault>
    ensures found { IfOk result (λ read. let s = read.0 in
        Begins span text.now (s.incarnation, (s.start, s.end)) read.1.now) }
    ensures refused { IfErr result (λ fault. Refuses span text.now fault) }
{
    let rest = skip(text, b"from ")?;
    let (incarnation, rest) = read_number(rest, b' ')?;
    let (start, rest) = read_number(rest, b' ')?;
    let (end, rest) = read_number(rest, b'\n')?;
    if start > end {
        return Err(StateFault::NotState);
    }
    let span = Span {
        incarnation,
        start,
        end,
    };
    Ok((span, rest))
}

/// Reads the delta whose text this is, in either format. Takes time linear in the text, and reserves nothing by N,
/// REVISIONS and COUNT. Nothing of the text is kept: an original has a buffer of its own, and so do the addresses of a
/// revision.
pub fn read_delta(alloc: Global, text: &[u8]) -> Result<Delta, StateFault>
    ensures found { IfOk result (λ delta. IsDeltaText text.now delta) }
    ensures within { IfOk result (λ _. length text.now ≤ longest_text) }
    ensures cause { IfErr result (λ fault. IsDeltaCause fault text.now) }
{
    if text.len() > MAX_LEN {
        return Err(StateFault::TooLong);
    }
    let (format, line) = read_format(text, b"memento-delta")?;
    let (span, entries) = read_span(line)?;
    let state = read_entries_of_state(alloc, format, entries)?;
    Ok(Delta {
        incarnation: span.incarnation,
        start: span.start,
        end: span.end,
        state,
    })
}
