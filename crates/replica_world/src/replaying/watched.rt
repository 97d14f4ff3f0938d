//! Devices that count their failures, so that contracts can refer to them.
ghost use Rattle.std.specs.Prelude.{◌≡◌, OnOk, OnErr};
ghost use Rattle.std.specs.Io.{ReadsAtMost, WritesAtMost};
ghost use Rattle.std.specs.Io.KnownBytes.{ReadConsumes, WriteAppends, Keeps};
ghost use Rattle.replica_world.specs.Watching.{count_after, IsPiece, IsFailedWrite};

use std::io::{self, Read, Write};
use std::marker::Model;

/// A reader or a writer, how many of its calls have failed, and how many reads have given bytes. Only `read`, `write`
/// and `flush` below, which call the device once, count.
#[derive(Debug, Drop)]
pub struct Watched<D> {
    device: D,
    failures: u64,
    pieces: u64,
}

impl<D> Model for Watched<D> {
    ghost use Rattle.replica_world.specs.Watching.{Seen};

    ghost Value = { Seen D };

    ghost view = { λ w. record { device = w.device; failures = w.failures; pieces = w.pieces } };
}

impl<D> Watched<D> {
    /// A device that hasn't been called yet.
    pub fn new(device: D) -> Watched<D>
        ensures { result ≡ record { device = device; failures = 0; pieces = 0 } }
    {
        Watched {
            device,
            failures: 0,
            pieces: 0,
        }
    }

    /// The device.
    pub fn device(&self) -> &D
        ensures { result.now ≡ self.now.device }
    {
        &self.device
    }

    /// How many reads and flushes failed, and how many writes failed or took none of the bytes that they were given.
    pub fn failures(&self) -> u64
        ensures { result ≡ self.now.failures }
    {
        self.failures
    }

    /// How many reads gave bytes.
    pub fn pieces(&self) -> u64
        ensures { result ≡ self.now.pieces }
    {
        self.pieces
    }
}

impl<R: Read> Watched<R> {
    /// Reads once, and counts whether that failed or gave bytes.
    pub fn read(&mut self, buffer: &mut [u8]) -> io::Result<usize>
        ensures bound { ReadsAtMost result buffer.new }
        ensures bytes { ReadConsumes (R.remaining self.old.device) (R.remaining self.new.device) result buffer.new }
        ensures failed { OnErr result (self.new.failures ≡ count_after 1 self.old.failures) }
        ensures not_failed { OnOk result (self.new.failures ≡ self.old.failures) }
        ensures piece { IsPiece result → self.new.pieces ≡ count_after 1 self.old.pieces }
        ensures no_piece { ¬ (IsPiece result) → self.new.pieces ≡ self.old.pieces }
    {
        let result = self.device.read(buffer);
        match result {
            Ok(0) => {}
            Ok(_) => self.pieces = self.pieces.saturating_add(1),
            Err(_) => self.failures = self.failures.saturating_add(1),
        }
        result
    }
}

impl<W: Write> Watched<W> {
    /// Writes once, and counts whether that failed or took none of the bytes.
    pub fn write(&mut self, bytes: &[u8]) -> io::Result<usize>
        ensures bound { WritesAtMost result bytes.now }
        ensures bytes { WriteAppends (W.contents self.old.device) (W.contents self.new.device) result bytes.now }
        ensures failed { IsFailedWrite result bytes.now → self.new.failures ≡ count_after 1 self.old.failures }
        ensures not_failed { ¬ (IsFailedWrite result bytes.now) → self.new.failures ≡ self.old.failures }
        ensures no_piece { self.new.pieces ≡ self.old.pieces }
    {
        let result = self.device.write(bytes);
        match result {
            Ok(count) if count > 0 || bytes.is_empty() => {}
            _ => self.failures = self.failures.saturating_add(1),
        }
        result
    }
    /// Flushes once, and counts whether that failed.
    pub fn flush(&mut self) -> io::Result<()>
        ensures bytes { Keeps (W.contents self.old.device) (W.contents self.new.device) }
        ensures failed { OnErr result (self.new.failures ≡ count_after 1 self.old.failures) }
        ensures not_failed { OnOk result (self.new.failures ≡ self.old.failures) }
        ensures no_piece { self.new.pieces ≡ self.old.pieces }
    {
        let result = self.device.flush();
        if result.is_err() {
            self.failures = self.failures.saturating_add(1);
        }
        result
    }
}
