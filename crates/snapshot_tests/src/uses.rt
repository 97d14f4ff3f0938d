//! How `snapshots` is used: a state is written as a snapshot, and read back.
use crate::states::{are_same, join_all, some_state};
use anyhow::Result;
use snapshots::{read_snapshot, write_snapshot};
use std::alloc::AllocGlobal;
use std::test::*;

#[test]
fn a_state_is_kept_and_read_again(rt: HostRuntime) -> Result<()> {
    let alloc = rt.alloc();
    let state = some_state(alloc)?;
    let mut file = Vec::new(alloc);
    write_snapshot(alloc, &state, &mut file)?;
    // A snapshot's sections are states, which together are what was written.
    let sections = read_snapshot(alloc, &mut file.as_slice())?;
    assert!(rt; are_same(alloc, &join_all(alloc, sections)?, &state)?);
    Ok(())
}
