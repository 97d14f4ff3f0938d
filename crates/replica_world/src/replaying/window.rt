//! What was read of a script and isn't used yet.
ghost use Rattle.std.specs.Prelude.{◌≡◌, ◌+◌, ◌<◌, ◌≤◌, ◌++◌, [], true, false, length, drop, OnOk, OnErr, IfErr};
ghost use Rattle.std.specs.Io.KnownBytes.{Keeps};
ghost use Rattle.replica_world.specs.Devices.{BlamesWriter, IsBreak, StopsReading};
ghost use Rattle.replica_world.specs.Fields.{after_empty_lines};
ghost use Rattle.replica_world.specs.Reading.{Drops, Told, IsReadTo, BlamesReader, Fills, ReadsOn, IsWhole, told_of, ends_of_lines};
ghost use Rattle.replica_world.specs.Reading.{nothing_held};

use crate::replaying::fault::ReplayFault;
use crate::replaying::fields::after_empty_lines;
use crate::replaying::settled::{Part, is_settled};
use crate::replaying::watched::Watched;
use memento_time::NoMemory;
use std::alloc::Global;
use std::io::{Read, Write};
use std::marker::Model;

/// The most bytes of a piece.
const LONGEST_PIECE: usize = 65_536;

/// A reader counts as failed if it gave this many pieces and its end had not been seen, so that a replay ends.
const MOST_PIECES: u64 = 1_000_000_000;

/// How many bytes a block has, whose lines are counted in a byte: so the compiler counts those of many bytes at once.
const BLOCK: usize = 192;

/// How many lines end in a block.
#[inline]
fn ends_in_block(block: &[u8]) -> u8
    requires { length block.now ≤ 192 }
    ensures { result ≡ ends_of_lines block.now }
{
    let mut count = 0u8;
    for byte in block {
        count += u8::from(*byte == b'\n');
    }
    count
}

/// How many lines end in a text.
fn ends_of_lines(text: &[u8]) -> u64
    ensures count { result ≡ ends_of_lines text.now }
    ensures bound { result ≤ length text.now }
{
    let mut count = 0;
    let mut rest = text;
    'parts: while !rest.is_empty() {
        let (block, after) = rest.split_at(rest.len().min(BLOCK));
        count += u64::from(ends_in_block(block));
        rest = after;
    }
    count
}

/// Removes bytes at the front.
fn remove_front(bytes: &mut Vec<u8>, count: usize)
    requires { count ≤ length bytes.old.items }
    ensures { bytes.new.items ≡ drop count bytes.old.items }
{
    let len = bytes.len();
    bytes.as_mut_slice().copy_within(count..len, 0);
    bytes.truncate(len - count);
}

/// The bytes that were read and aren't used yet. They stand at the end of a buffer that is used again.
#[derive(Debug, Drop)]
pub(crate) struct Window {
    buffer: Vec<u8>,
    start: usize,
    lines: u64,
    pieces: u64,
    ended: bool,
}

impl Model for Window {
    ghost use Rattle.std.specs.Prelude.{drop};
    ghost use Rattle.replica_world.specs.Reading.{Held, IsHeld};

    ghost Value = { Held };

    ghost view = { λ w. record {
      bytes = drop w.start w.buffer.items;
      lines = w.lines;
      pieces = w.pieces;
      ended = w.ended;
    } };

    ghost invariant = { λ w. IsHeld w.start w.buffer.items w.lines w.pieces };
}

impl Window {
    /// Nothing was read.
    pub(crate) fn new(alloc: Global) -> Window
        ensures { result ≡ nothing_held }
    {
        Window {
            buffer: Vec::new(alloc),
            start: 0,
            lines: 0,
            pieces: 0,
            ended: false,
        }
    }

    /// The bytes.
    pub(crate) fn bytes(&self) -> &[u8]
        ensures { result.now ≡ self.now.bytes }
    {
        &self.buffer[self.start..]
    }

    /// The number of the line at which they begin, counted from 1.
    pub(crate) fn line_number(&self) -> u64
        ensures { result ≡ 1 + self.now.lines }
    {
        1 + self.lines
    }

    /// How many pieces came.
    fn pieces(&self) -> u64
        ensures pieces { result ≡ self.now.pieces }
        ensures most { result ≤ 1000000000 }
    {
        self.pieces
    }

    /// The end was seen.
    fn end(&mut self)
        ensures { self.new ≡ record self.old { ended = true } }
    {
        self.ended = true;
    }

    /// Uses all but the last `left` bytes.
    pub(crate) fn keep(&mut self, left: usize)
        requires { left ≤ length self.old.bytes }
        ensures drops { Drops self.old self.new }
        ensures left { length self.new.bytes ≡ left }
    {
        let start = self.buffer.len() - left;
        self.lines += ends_of_lines(&self.buffer[self.start..start]);
        self.start = start;
    }

    /// Uses the empty lines at the front.
    fn skip_empty_lines(&mut self)
        ensures drops { Drops self.old self.new }
        ensures bytes { self.new.bytes ≡ after_empty_lines self.old.bytes }
    {
        let left = after_empty_lines(self.bytes()).len();
        self.keep(left);
    }

    /// Makes room of what was used, where that is more than what is left: so a byte is moved once for each that was
    /// used.
    fn compact(&mut self)
        ensures { self.new ≡ self.old }
    {
        if self.start > self.buffer.len() - self.start {
            remove_front(&mut self.buffer, self.start);
            self.start = 0;
        }
    }

    /// Appends a piece.
    fn push(&mut self, piece: &[u8]) -> Result<(), NoMemory>
        requires short { length piece.now ≤ 65536 }
        requires few { self.old.pieces < 1000000000 }
        ensures ok { OnOk result (self.new ≡ record self.old {
          bytes = self.old.bytes ++ piece.now;
          pieces = self.old.pieces + 1;
        }) }
        ensures err { OnErr result (self.new ≡ self.old) }
    {
        self.buffer.extend_from_slice(piece)?;
        self.pieces += 1;
        Ok(())
    }

    /// Whether the end was seen, or the part at the front is whole.
    fn has_whole(&self, part: Part) -> bool
        ensures whole { result ≡ true → IsWhole part self.now }
        ensures more { result ≡ false → self.now.ended ≡ false }
    {
        self.ended || is_settled(part, self.bytes())
    }

    /// Reads one piece more into this buffer, or sees that there is none.
    fn fill<R: Read>(
        &mut self,
        reader: &mut Watched<R>,
        piece: &mut [u8],
    ) -> Result<(), ReplayFault>
        requires more { self.old.ended ≡ false }
        requires long { length piece.old ≡ 65536 }
        ensures ok { OnOk result (Fills self.old (told_of R.remaining reader.old) self.new (told_of R.remaining reader.new)) }
        ensures blame { (begun : Told) → IsReadTo begun self.old (told_of R.remaining reader.old) →
            BlamesReader result begun (told_of R.remaining reader.new) }
        ensures fault { IfErr result StopsReading }
    {
        if self.pieces() == MOST_PIECES {
            return Err(ReplayFault::Read);
        }
        let Ok(count) = reader.read(piece) else {
            return Err(ReplayFault::Read);
        };
        if count == 0 {
            self.end();
            return Ok(());
        }
        self.compact();
        self.push(&piece[..count])?;
        Ok(())
    }
}

/// Reads pieces until the part at the front is whole, or the end was seen. What was written is flushed before each
/// read, which may wait.
fn read_part<R: Read, W: Write>(
    part: Part,
    window: &mut Window,
    reader: &mut Watched<R>,
    writer: &mut Watched<W>,
) -> Result<(), ReplayFault>
    requires { after_empty_lines window.old.bytes ≡ window.old.bytes }
    ensures on { OnOk result
        (ReadsOn window.old (told_of R.remaining reader.old) window.new (told_of R.remaining reader.new)) }
    ensures whole { OnOk result (IsWhole part window.new) }
    ensures front { OnOk result (after_empty_lines window.new.bytes ≡ window.new.bytes) }
    ensures reader { (begun : Told) → IsReadTo begun window.old (told_of R.remaining reader.old) →
        BlamesReader result begun (told_of R.remaining reader.new) }
    ensures fault { IfErr result IsBreak }
    ensures kept { Keeps (W.contents writer.old.device) (W.contents writer.new.device) }
    ensures writer { BlamesWriter result writer.old.failures writer.new.failures }
{
    let mut piece = [0u8; LONGEST_PIECE];
    'pieces: while !window.has_whole(part) {
        if writer.flush().is_err() {
            return Err(ReplayFault::Write);
        }
        window.fill(reader, &mut piece)?;
        window.skip_empty_lines();
    }
    Ok(())
}

/// Has the part at the front whole, or the end seen. A buffer for pieces is set up only where one has to be read.
pub(crate) fn await_part<R: Read, W: Write>(
    part: Part,
    window: &mut Window,
    reader: &mut Watched<R>,
    writer: &mut Watched<W>,
) -> Result<(), ReplayFault>
    ensures on { OnOk result
        (ReadsOn window.old (told_of R.remaining reader.old) window.new (told_of R.remaining reader.new)) }
    ensures whole { OnOk result (IsWhole part window.new) }
    ensures front { OnOk result (after_empty_lines window.new.bytes ≡ window.new.bytes) }
    ensures reader { (begun : Told) → IsReadTo begun window.old (told_of R.remaining reader.old) →
        BlamesReader result begun (told_of R.remaining reader.new) }
    ensures fault { IfErr result IsBreak }
    ensures kept { Keeps (W.contents writer.old.device) (W.contents writer.new.device) }
    ensures writer { BlamesWriter result writer.old.failures writer.new.failures }
{
    window.skip_empty_lines();
    if window.has_whole(part) {
        return Ok(());
    }
    read_part(part, window, reader, writer)
}
