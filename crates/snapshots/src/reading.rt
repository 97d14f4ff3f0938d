//! Reads a snapshot.
ghost use Rattle.std.specs.Prelude.{IfOk, IfSome, IsErrOf};
ghost use Rattle.snapshots.specs.Snapshots.{IsNoSnapshot, IsReadAs};

use crate::faults::ReadFault;
use harvest_lattice::State;
use replica_exchange::read_state;
use snapshot_sections::{next_section, read_first_line};
use std::alloc::Global;
use std::io::Read;

/// Reads the states of a snapshot, in order. Their join is the state that was written (`a_snapshot_is_read_back`).
///
/// At most one text is in memory at a time. Nothing is given back of a snapshot that is cut short or of which a text is
/// no state's: `NotSnapshot`, which never comes of what was written whole.
pub fn read_snapshot<R: Read>(alloc: Global, reader: &mut R) -> Result<Vec<State>, ReadFault>
    ensures read { IfOk result (λ states. IfSome (R.remaining reader.old) (λ bytes. IsReadAs bytes states.items)) }
    ensures refused { IsErrOf result ReadFault.NotSnapshot → IfSome (R.remaining reader.old) IsNoSnapshot }
{
    read_first_line(alloc, reader)?;
    let mut states = Vec::new(alloc);
    for count in 0..=u64::MAX {
        let Some(text) = next_section(alloc, reader, count)? else {
            return Ok(states);
        };
        let state = read_state(alloc, &text)?;
        states.push(state)?;
    }
    Err(ReadFault::NotSnapshot)
}
