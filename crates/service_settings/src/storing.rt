//! Where what is known is kept over a restart.
ghost use Rattle.std.specs.Prelude.{IfOk, IfSome, length};
ghost use Rattle.service_settings.specs.Limits.{IsWithin};

use crate::fault::{Key, SettingsFault};
use crate::values::{number_or, text_if};
use std::alloc::Global;
use toml::Table;

/// How many seconds pass at least between two snapshots by default.
const DEFAULT_EVERY: u64 = 600;

/// Where what is known is kept over a restart.
#[derive(Debug, Drop)]
pub struct Storing {
    /// The path of the snapshot; `None` if there is none.
    pub snapshot: Option<String>,
    /// How many seconds pass at least between two snapshots.
    pub every: u64,
}

/// Where what is known is kept, by the keys `snapshot` and `snapshot_every`.
pub(crate) fn storing_at(alloc: Global, table: &Table) -> Result<Storing, SettingsFault>
    ensures snapshot { IfOk result (λ storing. IfSome storing.snapshot
        (λ path. IsWithin Key.Snapshot (length path.bytes.items))) }
    ensures every { IfOk result (λ storing. IsWithin Key.SnapshotEvery storing.every) }
{
    let snapshot = text_if(alloc, table, Key::Snapshot)?;
    let every = number_or(table, Key::SnapshotEvery, DEFAULT_EVERY)?;
    Ok(Storing { snapshot, every })
}
