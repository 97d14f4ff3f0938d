//! Reads and writes dates in a row. Neighbours mostly share their day, so only the clock of such a date has to be read
//! or written.
ghost use Rattle.std.specs.Prelude.{◌≡◌, ◌<◌, ◌≤◌, ◌*◌, drop, IfNone, IfSome, IsTrue};
ghost use Rattle.memento_time.specs.Clock.{clock_text, day_of};
ghost use Rattle.memento_time.specs.Second.{imf, Reads};
ghost use Rattle.memento_time.specs.SecondOf.{second_of};

use crate::moments::Moment;
use std::marker::Model;

const DAY: u64 = 86_400;

const EPOCH: &[u8; 29] = b"Thu, 01 Jan 1970 00:00:00 GMT";

/// Where the clock begins in an IMF-fixdate.
const CLOCK: usize = 17;

/// Reads dates one after another, each as `Moment::read_imf` does. It remembers the last day that it read, only to save
/// time.
#[derive(Debug, Drop)]
pub struct DateReader {
    text: [u8; 29],
    moment: Moment,
}

impl Model for DateReader {
    ghost use Rattle.std.specs.Prelude.{ℕ};
    ghost use Rattle.memento_time.specs.Clock.{day_of};
    ghost use Rattle.memento_time.specs.Second.{Reads};

    // The day that was read last, counted from 1 January 1970; 0 if none was.
    ghost Value = { ℕ };

    ghost view = { λ reader. day_of reader.moment };

    ghost invariant = { λ reader. Reads reader.text reader.moment };
}

impl DateReader {
    /// A reader that knows the day of 1 January 1970.
    pub fn new() -> DateReader
        ensures { result ≡ 0 }
    {
        DateReader {
            text: *EPOCH,
            moment: epoch(),
        }
    }

    /// Reads an IMF-fixdate (RFC 9110, section 5.6.7). The name of the day doesn't have to fit the date.
    pub fn read(&mut self, text: &[u8]) -> Option<Moment>
        ensures read { result ≡ second_of text.now }
        ensures day { IfSome result (λ s. self.new ≡ day_of s) }
        ensures none { IfNone result (self.new ≡ self.old) }
    {
        let text: &[u8; 29] = text.try_into().ok()?;
        if let Some(moment) = self.read_same_day(text) {
            return Some(moment);
        }
        let moment = Moment::read_imf(text)?;
        *self = DateReader {
            text: *text,
            moment,
        };
        Some(moment)
    }

    /// Reads a date of the day that was read last.
    fn read_same_day(&self, text: &[u8; 29]) -> Option<Moment>
        ensures { IfSome result (λ s. Reads text.now s × (day_of s ≡ self.now)) }
    {
        if !is_same::<CLOCK>(text.first_chunk()?, self.text.first_chunk()?) {
            return None;
        }
        let clock = read_clock(text)?;
        Moment::from_secs(self.moment.secs() / DAY * DAY + clock)
    }
}

/// Writes dates one after another, each as `Moment::to_imf` does. It remembers the last day that it wrote, only to save
/// time.
#[derive(Debug, Drop)]
pub struct DateWriter {
    text: [u8; 29],
    moment: Moment,
}

impl Model for DateWriter {
    ghost use Rattle.std.specs.Prelude.{◌≡◌, ℕ};
    ghost use Rattle.memento_time.specs.Clock.{day_of};
    ghost use Rattle.memento_time.specs.Second.{imf};

    // The day that was written last, counted from 1 January 1970; 0 if none was.
    ghost Value = { ℕ };

    ghost view = { λ writer. day_of writer.moment };

    ghost invariant = { λ writer. writer.text ≡ imf writer.moment };
}

impl DateWriter {
    /// A writer that knows the day of 1 January 1970.
    pub fn new() -> DateWriter
        ensures { result ≡ 0 }
    {
        DateWriter {
            text: *EPOCH,
            moment: epoch(),
        }
    }

    /// The IMF-fixdate (RFC 9110, section 5.6.7), as `Sat, 01 Jan 2000 00:00:00 GMT`.
    pub fn write(&mut self, moment: Moment) -> [u8; 29]
        ensures text { result ≡ imf moment }
        ensures day { self.new ≡ day_of moment }
    {
        let secs = moment.secs();
        let mut text = self.text;
        if secs / DAY == self.moment.secs() / DAY {
            text[CLOCK..].copy_from_slice(&to_clock(secs));
        } else {
            text = moment.to_imf();
        }
        *self = DateWriter { text, moment };
        text
    }
}

/// The second of the day that a date's clock shows.
fn read_clock(text: &[u8; 29]) -> Option<u64>
    ensures { IfSome result (λ secs. (secs < 86400) × (drop 17 text.now ≡ clock_text secs)) }
{
    let hour = number(text[17], text[18]);
    let minute = number(text[20], text[21]);
    let second = number(text[23], text[24]);
    let secs = hour * 3600 + minute * 60 + second;
    // Whatever the bytes are, they show this second or none.
    if secs < DAY && is_same(text.last_chunk()?, &to_clock(secs)) {
        Some(secs)
    } else {
        None
    }
}

/// Whether the bytes are the same. Looks at all of them, because a loop without an early exit compares many at once.
#[inline(always)]
fn is_same<const N: usize>(a: &[u8; N], b: &[u8; N]) -> bool
    ensures { IsTrue result → a.now ≡ b.now }
{
    let mut same = true;
    for k in 0..N {
        same &= a[k] == b[k];
    }
    same
}

/// The number that these two digits write; any number if they aren't digits.
fn number(tens: u8, ones: u8) -> u64
    ensures { result ≤ 11 * 255 }
{
    u64::from(tens.wrapping_sub(b'0')) * 10 + u64::from(ones.wrapping_sub(b'0'))
}

/// The clock of a second, such as `08:49:37 GMT`.
#[tactic(auto, unfolding(crate::specs::Clock::clock_text))]
fn to_clock(secs: u64) -> [u8; 12]
    ensures { result ≡ clock_text secs }
{
    let (hour, minute, second) = (secs / 3600 % 24, secs / 60 % 60, secs % 60);
    [
        b'0' + (hour / 10) as u8,
        b'0' + (hour % 10) as u8,
        b':',
        b'0' + (minute / 10) as u8,
        b'0' + (minute % 10) as u8,
        b':',
        b'0' + (second / 10) as u8,
        b'0' + (second % 10) as u8,
        b' ',
        b'G',
        b'M',
        b'T',
    ]
}

fn epoch() -> Moment
    ensures { result ≡ 0 }
{
    Moment::from_secs(0).unwrap()
}
