//! How much memory the process holds.
ghost use Rattle.std.specs.Prelude.{◌≡◌};
ghost use Rattle.service_status.specs.Memory as spec;
ghost use Rattle.service_status.specs.Memory.{pages_in};

use std::io::Read;
use std::rt::Files;
use text_fields::{next_field, read_decimal};

/// The bytes of a page of memory.
const PAGE: u64 = 4_096;

/// The second field of a text, if it is a decimal and another field follows.
fn pages_in(text: &[u8]) -> Option<u64>
    ensures { result ≡ pages_in text.now }
{
    let (_, rest) = next_field(text)?;
    let (pages, _) = next_field(rest)?;
    read_decimal(pages)
}

/// The resident bytes of a process of which `/proc/PID/statm` has this text.
fn resident_in(text: &[u8]) -> Option<u64>
    ensures { result ≡ spec.resident_in text.now }
{
    pages_in(text)?.checked_mul(PAGE)
}

/// The resident bytes of this process; `None` if the system doesn't tell.
pub fn resident_bytes<R: Files>(rt: &R) -> Option<u64> {
    let mut file = std::fs::open(rt, "/proc/self/statm").ok()?;
    let mut buffer = [0u8; 256];
    let count = file.read(&mut buffer).ok()?;
    resident_in(&buffer[..count])
}
