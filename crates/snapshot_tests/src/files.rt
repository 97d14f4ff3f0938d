//! Tests of `snapshots`, over files of the folder for temporary ones.
use crate::states::{are_same, join_all, some_state};
use anyhow::{Context, Result};
use harvest_lattice::State;
use snapshots::{ReadFault, WriteFault, keep_snapshot, set_aside, take_snapshot};
use std::test::*;
use std::{env, fs, process};

/// The path of a file of this test alone.
fn path_of(rt: &HostRuntime, name: &str) -> Result<String> {
    let folder = env::temp_dir(rt)?;
    let folder = folder.to_str().context("no text")?;
    let number = process::id(rt.process());
    Ok(format!(in rt.alloc(); "{folder}/maplewrench-{number}-{name}")?)
}

#[test]
fn a_file_is_kept_and_taken(rt: HostRuntime) -> Result<()> {
    let alloc = rt.alloc();
    let path = path_of(&rt, "kept")?;
    assert!(rt; take_snapshot(&rt, path.as_str())?.is_none());
    keep_snapshot(&rt, &State::new(alloc), path.as_str())?;
    let state = some_state(alloc)?;
    keep_snapshot(&rt, &state, path.as_str())?;
    let states = take_snapshot(&rt, path.as_str())?.context("nothing")?;
    assert!(rt; are_same(alloc, &join_all(alloc, states)?, &state)?);
    set_aside(&rt, path.as_str())?;
    assert!(rt; take_snapshot(&rt, path.as_str())?.is_none());
    let bad = format!(in alloc; "{path}.bad")?;
    assert!(rt; take_snapshot(&rt, bad.as_str())?.is_some());
    fs::remove_file(&rt, bad.as_str())?;
    Ok(())
}

#[test]
fn what_cannot_be_kept_changes_nothing(rt: HostRuntime) -> Result<()> {
    let alloc = rt.alloc();
    let path = path_of(&rt, "folder")?;
    let state = some_state(alloc)?;
    let below = format!(in alloc; "{path}/below")?;
    assert!(rt; keep_snapshot(&rt, &state, below.as_str()).err() == Some(WriteFault::NotWritten));
    fs::create_dir(&rt, path.as_str())?;
    assert!(rt; keep_snapshot(&rt, &state, path.as_str()).err() == Some(WriteFault::NotWritten));
    let new = format!(in alloc; "{path}.new")?;
    assert!(rt; !fs::exists(&rt, new.as_str())?);
    assert!(rt; take_snapshot(&rt, path.as_str()).err() == Some(ReadFault::NotRead));
    fs::remove_dir(&rt, path.as_str())?;
    Ok(())
}
