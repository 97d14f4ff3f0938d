//! Tests of scripts: what a replay writes, which lines are bad, and readers and writers that fail.
use anyhow::Result;
use replica_world::{ReplayFault, Watched, replay};
use std::alloc::Global;
use std::io;
use std::io::{Error, ErrorKind, Read, Write};
use std::test::*;

/// Lines that are empty stand between commands, and nothing ends the last one.
const SCRIPT: &[u8] = b"
replicas 2 http://agg.example

send 1
deliver 2 1
sendfrom 1 0
receive 2 30
memento-state 1
entries 0
end

take 2 a1 1 http://m.example/ 0 http://a.example/

takepart 2 a1 2 http://m.example/ 0 http://a.example/

ask 2 GET 0 /state
map 2 http://a.example/
gate 2 http://a.example/
ask 1 GET 0 /delta/1/0
restart 1
restart 3";

const SAYS: &[u8] = b"sent 1
joined
sent 2
received
taken 0 0 0
taken 0 0 0
reply 200
Content-Type: text/plain
body 75
memento-state 2
entries 1
entry a1 1 2 http://a.example/
at 1 0
at 2 0
end
reply 404
Content-Type: text/plain
body 11
no memento
reply 404
Vary: accept-datetime
Content-Type: text/plain
body 11
no memento
reply 200
Content-Type: text/plain
body 41
memento-delta 2
from 1 0 0
entries 0
end
restarted
refused no replica
";

/// A reader that gives a byte at a time, and fails after `reads` of them.
#[derive(Drop)]
struct FailingReader<'a> {
    rest: &'a [u8],
    reads: usize,
}

impl Read for FailingReader<'_> {
    fn read(&mut self, buf: &mut [u8]) -> io::Result<usize> {
        if self.reads == 0 {
            return Err(Error::from(ErrorKind::Other));
        }
        self.reads -= 1;
        let most = buf.len().min(1);
        let mut one = &self.rest[..self.rest.len().min(1)];
        let count = one.read(&mut buf[..most])?;
        self.rest = &self.rest[count.min(self.rest.len())..];
        Ok(count.min(buf.len()))
    }
}

/// A writer that takes a byte at a time, fails after `writes` of them, and shows what it took only once it is flushed.
/// It fails too after `flushes` flushes.
#[derive(Drop)]
struct FailingWriter<'a> {
    taken: &'a mut Vec<u8>,
    shown: &'a mut usize,
    writes: usize,
    flushes: usize,
}

impl Write for FailingWriter<'_> {
    fn write(&mut self, buf: &[u8]) -> io::Result<usize> {
        if self.writes == 0 || buf.is_empty() {
            return Err(Error::from(ErrorKind::Other));
        }
        self.writes -= 1;
        self.taken.write(&buf[..1])
    }

    fn flush(&mut self) -> io::Result<()> {
        if self.flushes == 0 {
            return Err(Error::from(ErrorKind::Other));
        }
        self.flushes -= 1;
        *self.shown = self.taken.len();
        Ok(())
    }
}

/// How the replay of a script ends, where just this is written.
fn ended(alloc: Global, script: &[u8], wanted: &[u8]) -> Option<Result<(), ReplayFault>> {
    let mut reader = Watched::new(script);
    let mut writer = Watched::new(Vec::new(alloc));
    let result = replay(alloc, &mut reader, &mut writer);
    if writer.device().as_slice() == wanted {
        Some(result)
    } else {
        None
    }
}

#[test]
fn scripts(rt: HostRuntime) {
    let alloc = rt.alloc();
    assert_eq!(rt; ended(alloc, b"", b""), Some(Ok(())));
    assert_eq!(rt; ended(alloc, SCRIPT, SAYS), Some(Ok(())));
}

/// What is written before the bad line, and its number.
#[test]
fn bad_lines(rt: HostRuntime) {
    let cases: [(&[u8], &[u8], u64); 7] = [
        (
            b"replicas 1 http://agg.example\nrestart 1\nbogus\n",
            b"restarted\n",
            3,
        ),
        (b"replicas 17 http://agg.example\n", b"", 1),
        (b"\nreplicas 1 http://agg.example/x\n", b"", 2),
        (b"replicas 1 http://agg.example\nsendfrom 1\n", b"", 2),
        (
            b"replicas 1 http://agg.example\ntakepart 1 a1 1 http://m/ 0\n",
            b"",
            2,
        ),
        (
            b"replicas 1 http://agg.example\nreceive 1 3\n\n\nend\n",
            b"",
            2,
        ),
        (b"replicas 1 http://agg.example\nask 1 GET 2 /x\n\n", b"", 2),
    ];
    for (script, written, number) in cases {
        assert_eq!(rt;
            ended(rt.alloc(), script, written),
            Some(Err(ReplayFault::BadLine { number }))
        );
    }
}

/// Any number of reads, writes or flushes.
const ENOUGH: usize = 10_000_000;

/// What a replay gives of a script that is read a byte at a time, with at most so many reads and flushes, how much it
/// writes, and how much of that was flushed.
fn replay_by_bytes(
    alloc: Global,
    rest: &[u8],
    reads: usize,
    flushes: usize,
) -> (Result<(), ReplayFault>, usize, usize) {
    let mut reader = Watched::new(FailingReader { rest, reads });
    let mut output = Vec::new(alloc);
    let mut length = 0;
    let taken = &mut output;
    let shown = &mut length;
    let mut writer = Watched::new(FailingWriter {
        taken,
        shown,
        writes: ENOUGH,
        flushes,
    });
    let result = replay(alloc, &mut reader, &mut writer);
    (result, output.len(), length)
}

/// A reader may give a byte at a time for as long as it likes, below the limit of a thousand million reads.
#[test]
fn many_reads(rt: HostRuntime) -> Result<()> {
    let lines = vec![in rt.alloc(); b'\n'; 1_000_001]?;
    assert_eq!(rt;
        replay_by_bytes(rt.alloc(), &lines, 1_000_002, ENOUGH),
        (Ok(()), 0, 0)
    );
    Ok(())
}

/// How much of `SAYS` is said once so many bytes of `SCRIPT` are read: where a command's last byte stands, how much is
/// said from there on.
fn said_after(reads: usize) -> usize {
    let said = [
        (39, 7),
        (51, 14),
        (64, 21),
        (108, 30),
        (159, 42),
        (214, 54),
        (233, 172),
        (257, 226),
        (282, 302),
        (305, 386),
        (315, 396),
    ];
    let mut most = 0;
    for (read, says) in said {
        if reads >= read {
            most = says;
        }
    }
    most
}

/// A command is answered as soon as its last byte is read, and what is said is flushed before the next byte is asked
/// for.
#[test]
fn failing_readers(rt: HostRuntime) {
    for reads in 0..=SCRIPT.len() {
        let said = said_after(reads);
        assert_eq!(rt;
            replay_by_bytes(rt.alloc(), SCRIPT, reads, ENOUGH),
            (Err(ReplayFault::Read), said, said),
            "after {reads} bytes"
        );
    }
}

/// A flush that fails ends a replay: what was said before was said by then, and flushed but for the last answer.
#[test]
fn failing_flushes(rt: HostRuntime) {
    for flushes in 0..=SCRIPT.len() {
        let (result, said, shown) = replay_by_bytes(rt.alloc(), SCRIPT, ENOUGH, flushes);
        assert_eq!(rt; result, Err(ReplayFault::Write), "after {flushes} flushes");
        assert_eq!(rt; said, said_after(flushes), "after {flushes} flushes");
        assert_eq!(rt;
            shown,
            said_after(flushes.saturating_sub(1)),
            "after {flushes} flushes"
        );
    }
}

/// Whether a replay to a writer that fails after so many bytes has written just these, and says whether that were all.
fn is_cut_at(alloc: Global, script: &[u8], wanted: &[u8], writes: usize) -> bool {
    let mut reader = Watched::new(script);
    let mut output = Vec::new(alloc);
    let mut length = 0;
    let taken = &mut output;
    let shown = &mut length;
    let mut writer = Watched::new(FailingWriter {
        taken,
        shown,
        writes,
        flushes: ENOUGH,
    });
    let result = replay(alloc, &mut reader, &mut writer);
    let said = if writes == wanted.len() {
        Ok(())
    } else {
        Err(ReplayFault::Write)
    };
    result == said && output.len() == writes && wanted.starts_with(&output)
}

#[test]
fn failing_writers(rt: HostRuntime) {
    for writes in 0..=SAYS.len() {
        assert!(rt;
            is_cut_at(rt.alloc(), SCRIPT, SAYS, writes),
            "after {writes} bytes"
        );
    }
}
