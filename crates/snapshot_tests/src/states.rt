//! Tests of `snapshots`, in memory.
use anyhow::Result;
use harvest_lattice::State;
use knowledge_tests::makers::{harvest, part_harvest};
use replica_exchange::write_state;
use snapshots::{ReadFault, WriteFault, read_snapshot, write_snapshot};
use std::alloc::Global;
use std::io::{self, Write};
use std::test::*;
use text_tests::makers::mementos;

/// What two archives had of two originals.
pub(crate) fn some_state(alloc: Global) -> Result<State> {
    let mut state = State::new(alloc);
    let captures = mementos(
        alloc,
        &[(5, b"http://m.example/1"), (9, b"http://m.example/2")],
    )?;
    state.merge(&harvest(alloc, b"a1", b"http://a.example/", 3, captures)?)?;
    let captures = mementos(alloc, &[(7, b"http://m.example/3")])?;
    state.merge(&part_harvest(alloc, b"b1", b"http://b.example/", 4, captures)?)?;
    Ok(state)
}

const SOME: &[u8] =
    b"memento-snapshot 1\nsection 169\nmemento-state 2\nentries 2\nentry a1 3 1 http://a.example/\nat 3 2\n5 http://m.example/1\n9 http://m.example/2\nentry b1 - 1 http://b.example/\nat 4 1\n7 http://m.example/3\nend\nsections 1\n";

/// The join of states.
pub(crate) fn join_all(alloc: Global, states: Vec<State>) -> Result<State> {
    let mut all = State::new(alloc);
    for state in states {
        all.join(&state)?;
    }
    Ok(all)
}

/// Whether two states have the same text.
pub(crate) fn are_same(alloc: Global, one: &State, other: &State) -> Result<bool> {
    Ok(write_state(alloc, one)?.as_slice() == write_state(alloc, other)?.as_slice())
}

#[test]
fn a_state_is_written_and_read(rt: HostRuntime) -> Result<()> {
    let alloc = rt.alloc();
    let state = some_state(alloc)?;
    let mut out = Vec::new(alloc);
    write_snapshot(alloc, &state, &mut out)?;
    assert!(rt; out.as_slice() == SOME);
    let mut reader = SOME;
    let states = read_snapshot(alloc, &mut reader)?;
    assert!(rt; are_same(alloc, &join_all(alloc, states)?, &state)?);
    Ok(())
}

#[test]
fn nothing_is_written_and_read(rt: HostRuntime) -> Result<()> {
    let alloc = rt.alloc();
    let mut out = Vec::new(alloc);
    write_snapshot(alloc, &State::new(alloc), &mut out)?;
    assert!(rt; out.as_slice() == b"memento-snapshot 1\nsections 0\n".as_slice());
    let mut reader = out.as_slice();
    assert!(rt; read_snapshot(alloc, &mut reader)?.is_empty());
    Ok(())
}

#[test]
fn what_is_no_snapshot_gives_nothing(rt: HostRuntime) {
    let alloc = rt.alloc();
    for end in 0..SOME.len() {
        let mut reader = &SOME[..end];
        let fault = read_snapshot(alloc, &mut reader).err();
        assert!(rt; fault == Some(ReadFault::NotSnapshot), "cut at {end}");
    }
    let mut reader = b"memento-snapshot 1\nsection 3\nab\nsections 1\n".as_slice();
    assert!(rt; read_snapshot(alloc, &mut reader).err() == Some(ReadFault::NotSnapshot));
}

/// A disk with room for so many bytes.
#[derive(Drop)]
struct FullDisk {
    room: usize,
}

impl Write for FullDisk {
    fn write(&mut self, buf: &[u8]) -> io::Result<usize> {
        if self.room == 0 {
            return Err(io::Error::from(io::ErrorKind::StorageFull));
        }
        let taken = buf.len().min(self.room);
        self.room -= taken;
        Ok(taken)
    }

    fn flush(&mut self) -> io::Result<()> {
        Ok(())
    }
}

#[test]
fn a_full_disk_is_told(rt: HostRuntime) -> Result<()> {
    let alloc = rt.alloc();
    let state = some_state(alloc)?;
    for room in 0..SOME.len() {
        let mut disk = FullDisk { room };
        let fault = write_snapshot(alloc, &state, &mut disk).err();
        assert!(rt; fault == Some(WriteFault::NotWritten), "room for {room}");
    }
    let mut disk = FullDisk { room: SOME.len() };
    write_snapshot(alloc, &state, &mut disk)?;
    Ok(())
}
