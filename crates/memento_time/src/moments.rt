//! Seconds, and the texts that stand for them.
ghost use Rattle.std.specs.Prelude.{◌≡◌, ℕ, ◌↔◌, ◌++◌, take, drop, IsTrue, IfSome, IfNone, Contains};
ghost use Rattle.httpdate.specs.Date.{date_text};
ghost use Rattle.httpdate.specs.declared.date.HttpDate.{HttpDate as Date};
ghost use Rattle.std.specs.Option.{SomeIff};
ghost use Rattle.memento_time.specs.Names.{day_names};
ghost use Rattle.memento_time.specs.Second.{IsSecond, imf, Reads, Asks};
ghost use Rattle.memento_time.specs.SecondOf.{second_of, asked_of};

use crate::blanks::trim_blanks;
use crate::form::{DAY_NAMES, fits_form, is_before_epoch};
use httpdate::HttpDate;
use std::marker::Model;

/// A second from 1970 to 9999, counted from the start of 1970.
#[derive(Clone, Copy, Debug, PartialEq, Eq, PartialOrd, Ord, Hash)]
pub struct Moment {
    secs: u64,
}

impl Model for Moment {
    ghost use Rattle.std.specs.Prelude.{ℕ};
    ghost use Rattle.memento_time.specs.Second.{IsSecond};

    ghost Value = { ℕ };

    ghost view = { λ moment. moment.secs };

    ghost invariant = { λ moment. IsSecond moment.secs };

    ghost inverse = { λ secs. record { secs = secs } };
}

const LAST_SECOND: u64 = 253_402_300_799;

impl Moment {
    /// The moment at this second; `None` above 253402300799, the last second of the year 9999.
    pub fn from_secs(secs: u64) -> Option<Moment>
        ensures { SomeIff result (IsSecond secs) secs }
    {
        if secs <= LAST_SECOND {
            Some(Moment { secs })
        } else {
            None
        }
    }

    /// Seconds since the start of 1970, without leap seconds.
    pub fn secs(&self) -> u64
        ensures value { result ≡ self.now }
        ensures bound { IsSecond result }
    {
        self.secs
    }

    /// The IMF-fixdate (RFC 9110, section 5.6.7), as `Sat, 01 Jan 2000 00:00:00 GMT`.
    pub fn to_imf(&self) -> [u8; 29]
        ensures { result ≡ imf self.now }
    {
        HttpDate::from_unix_secs(self.secs).unwrap().to_bytes()
    }

    /// Reads an IMF-fixdate (RFC 9110, section 5.6.7). The name of the day doesn't have to fit the date.
    pub fn read_imf(text: &[u8]) -> Option<Moment>
        ensures read { IfSome result (λ s. Reads text.now s) }
        ensures exact { (s : ℕ) → Reads text.now s → result ≡ Some s }
        ensures value { result ≡ second_of text.now }
    {
        let bytes: &[u8; 29] = text.try_into().ok()?;
        let own_name = [bytes[0], bytes[1], bytes[2]];
        if !is_day_name(own_name) {
            return None;
        }
        // Nearly every date has the right name, so that name is tried before all seven.
        if let Some(date) = date_under(&own_name, bytes) {
            return Some(Moment {
                secs: date.unix_secs(),
            });
        }
        // Most texts that aren't dates have another form, and aren't parsed any further.
        if !fits_form(bytes) {
            return None;
        }
        date_under_any_name(bytes)
    }

    /// Reads the value of `Accept-Datetime` (RFC 7089, section 2.1.1): an IMF-fixdate, optionally between spaces and
    /// tabs. A date before 1970 asks for second 0, since no memento is earlier.
    #[tactic(auto, unfolding(crate::specs::SecondOf::asked_of))]
    pub fn read_asked(text: &[u8]) -> Option<Moment>
        ensures asked { IfSome result (λ s. Asks text.now s) }
        ensures exact { (s : ℕ) → Asks text.now s → result ≡ Some s }
        ensures value { result ≡ asked_of text.now }
    {
        let date = trim_blanks(text);
        if let Some(moment) = Moment::read_imf(date) {
            return Some(moment);
        }
        if is_before_epoch(date) {
            Some(Moment { secs: 0 })
        } else {
            None
        }
    }
}

fn date_under_any_name(bytes: &[u8; 29]) -> Option<Moment>
    requires { Contains day_names (take 3 bytes.now) }
    ensures read { IfSome result (λ s. Reads bytes.now s) }
    ensures exact { (s : ℕ) → Reads bytes.now s → result ≡ Some s }
{
    for name in &DAY_NAMES {
        if let Some(date) = date_under(name, bytes) {
            return Some(Moment {
                secs: date.unix_secs(),
            });
        }
    }
    None
}

fn is_day_name(name: [u8; 3]) -> bool
    ensures { IsTrue result ↔ Contains day_names name }
{
    DAY_NAMES.contains(&name)
}

/// The date that the text shows when this day's name replaces its own. `httpdate` accepts only the right name.
fn date_under(name: &[u8; 3], text: &[u8; 29]) -> Option<HttpDate>
    ensures shown { IfSome result (λ date. name.now ++ drop 3 text.now ≡ date_text date) }
    ensures none { IfNone result ((date : Date) → ¬ (name.now ++ drop 3 text.now ≡ date_text date)) }
{
    let mut named = *text;
    named[..3].copy_from_slice(name);
    HttpDate::parse_ascii(&named).ok()
}
