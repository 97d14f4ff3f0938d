//! Tests of `snapshot_sections`.
use anyhow::Result;
use snapshot_sections::{
    SectionFault, next_section, read_first_line, write_first_line, write_last_line,
    write_section_line,
};
use std::alloc::Global;
use std::io::{self, Error, ErrorKind, Read, Write};
use std::test::*;

const TWO: &[u8] = b"memento-snapshot 1\nsection 3\nab\nsection 0\nsections 2\n";

fn read_all(alloc: Global, bytes: &[u8]) -> Result<Vec<Vec<u8>>, SectionFault> {
    let mut reader = bytes;
    read_first_line(alloc, &mut reader)?;
    let mut texts = Vec::new(alloc);
    for count in 0..10 {
        let Some(text) = next_section(alloc, &mut reader, count)? else {
            return Ok(texts);
        };
        texts.push(text)?;
    }
    Err(SectionFault::NotSections)
}

#[test]
fn texts_are_written_and_read(rt: HostRuntime) -> Result<()> {
    let alloc = rt.alloc();
    let mut out = Vec::new(alloc);
    write_first_line(&mut out)?;
    write_section_line(alloc, &mut out, 3)?;
    out.write_all(b"ab\n")?;
    write_section_line(alloc, &mut out, 0)?;
    write_last_line(alloc, &mut out, 2)?;
    assert!(rt; out.as_slice() == TWO);
    let texts = read_all(alloc, TWO)?;
    assert_eq!(rt; texts.len(), 2);
    assert!(rt; texts[0].as_slice() == b"ab\n".as_slice() && texts[1].is_empty());
    Ok(())
}

#[test]
fn a_cut_file_is_none(rt: HostRuntime) {
    for end in 0..TWO.len() {
        let fault = read_all(rt.alloc(), &TWO[..end]).err();
        assert!(rt; fault == Some(SectionFault::NotSections), "cut at {end}");
    }
}

#[test]
fn other_files_are_none(rt: HostRuntime) {
    let others = [
        b"memento-snapshot 2\nsections 0\n".as_slice(),
        b"memento-snapshot 1\nsections 1\n".as_slice(),
        b"memento-snapshot 1\nsections 0\n\n".as_slice(),
        b"memento-snapshot 1\nsection 3\nab\nsections 2\n".as_slice(),
        b"memento-snapshot 1\nsection 268435457\n".as_slice(),
        b"memento-snapshot 1\nsection 03\nab\nsections 1\n".as_slice(),
        b"memento-state 2\nentries 0\nend\n".as_slice(),
    ];
    for other in others {
        let fault = read_all(rt.alloc(), other).err();
        assert!(rt; fault == Some(SectionFault::NotSections));
    }
}

/// A reader that is interrupted `times` times before each read that gives something, and `left` times before the next.
#[derive(Drop)]
struct InterruptedReader<'a> {
    rest: &'a [u8],
    times: usize,
    left: usize,
}

impl Read for InterruptedReader<'_> {
    fn read(&mut self, buf: &mut [u8]) -> io::Result<usize> {
        if self.left > 0 {
            self.left -= 1;
            return Err(Error::from(ErrorKind::Interrupted));
        }
        self.left = self.times;
        self.rest.read(buf)
    }
}

/// A read that is interrupted is tried again, up to 1,000 times in a row.
#[test]
fn interrupted_reads_are_tried_again(rt: HostRuntime) {
    let cases = [
        (0, None),
        (1, None),
        (999, None),
        (1_000, Some(SectionFault::NotRead)),
        (1_001, Some(SectionFault::NotRead)),
    ];
    for (times, fault) in cases {
        let mut reader = InterruptedReader {
            rest: TWO,
            times,
            left: times,
        };
        assert!(rt;
            read_first_line(rt.alloc(), &mut reader).err() == fault,
            "{times} times"
        );
    }
}

/// A writer that takes one byte at a time, is interrupted before each, and has room for `room` bytes.
#[derive(Drop)]
struct NarrowWriter {
    taken: Vec<u8>,
    room: usize,
    is_interrupted: bool,
}

impl Write for NarrowWriter {
    fn write(&mut self, buf: &[u8]) -> io::Result<usize> {
        self.is_interrupted = !self.is_interrupted;
        if self.is_interrupted {
            return Err(Error::from(ErrorKind::Interrupted));
        }
        if buf.is_empty() || self.taken.len() >= self.room {
            return Ok(0);
        }
        self.taken.push(buf[0])?;
        Ok(1)
    }

    fn flush(&mut self) -> io::Result<()> {
        Ok(())
    }
}

/// A write that is interrupted is tried again. A writer that is full has a beginning of what was to be written.
#[test]
fn a_full_writer_has_a_beginning(rt: HostRuntime) {
    for (room, fault) in [
        (0, Some(ErrorKind::WriteZero)),
        (18, Some(ErrorKind::WriteZero)),
        (19, None),
        (20, None),
    ] {
        let mut writer = NarrowWriter {
            taken: Vec::new(rt.alloc()),
            room,
            is_interrupted: false,
        };
        let kind = write_first_line(&mut writer)
            .err()
            .map(|error| error.kind());
        assert!(rt; kind == fault, "room for {room}");
        assert!(rt; writer.taken.as_slice() == &TWO[..room.min(19)]);
    }
}
