//! For how long archives ask to be left alone (RFC 9110, section 10.2.3).
ghost use Rattle.std.specs.Prelude.{◌≡◌, min, option_map, true};
ghost use Rattle.std.specs.Char.{is_ascii_digit};
ghost use Rattle.std.specs.List.{list_all};
ghost use Rattle.std.specs.Str.Parse.{digits_value};
ghost use Rattle.harvester.specs.Patience as spec;

use crate::fetches::Answer;
use memento_time::{Moment, Octets, trim_blanks};

/// The most seconds that count, however many an archive asks for.
const MOST_PATIENCE: u64 = 3_600;

/// The seconds that count if the archive names none.
const USUAL_PATIENCE: u64 = 60;

/// Whether an answer asks for patience.
fn asks_for_patience(answer: &Answer) -> bool
    ensures { result ≡ spec.asks_for_patience answer.now }
{
    answer.status == 429 || answer.status == 503 && !answer.retry_after.as_slice().is_empty()
}

fn are_digits(text: &[u8]) -> bool
    ensures { result ≡ list_all is_ascii_digit text.now }
{
    text.iter().all(|byte| byte.is_ascii_digit())
}

fn is_number(text: &[u8]) -> bool
    ensures { result ≡ spec.is_number text.now }
{
    !text.is_empty() && are_digits(text)
}

/// The number that these digits write, up to the most that count.
fn number_of(digits: &[u8]) -> u64
    requires { spec.is_number digits.now ≡ true }
    ensures { result ≡ min (digits_value 10 digits.now) spec.most_patience }
{
    let Ok(text) = str::from_utf8(digits) else {
        unreachable!()
    };
    match text.parse::<u64>() {
        Ok(number) => number.min(MOST_PATIENCE),
        // More than 64 bits.
        Err(_) => MOST_PATIENCE,
    }
}

/// The seconds that a text names, up to the most that count.
fn seconds_named(text: &[u8], now: u64) -> Option<u64>
    ensures { result ≡ option_map (λ seconds. min seconds spec.most_patience) (spec.seconds_named now text.now) }
{
    if is_number(text) {
        return Some(number_of(text));
    }
    let date = Moment::read_asked(text)?;
    Some(date.secs().saturating_sub(now).min(MOST_PATIENCE))
}

/// The seconds for which the values of `Retry-After` ask. Of several values the first counts.
fn patience_named(values: &[Octets], now: u64) -> u64
    ensures { result ≡ spec.patience_named now values.now }
{
    let [value, ..] = values else {
        return USUAL_PATIENCE;
    };
    seconds_named(trim_blanks(value.as_slice()), now).unwrap_or(USUAL_PATIENCE)
}

/// The seconds from now on, a second since the start of 1970, for which an answer asks to be left alone, if it does: at
/// most an hour, and a minute if it names neither a number of seconds nor a date. A 503 without `Retry-After` doesn't
/// ask: it is an archive's failure as any other.
pub fn asked_patience(answer: &Answer, now: u64) -> Option<u64>
    ensures { result ≡ spec.asked_patience now answer.now }
{
    if asks_for_patience(answer) {
        Some(patience_named(answer.retry_after.as_slice(), now))
    } else {
        None
    }
}
