//! Decimals of 64-bit numbers.
ghost use Rattle.std.specs.Prelude.{◌≡◌, ◌↔◌, ℕ, List, ◌+◌, ◌-◌, ◌*◌, ◌^◌, ◌<◌, ◌++◌, length, drop};
ghost use Rattle.std.specs.Prelude.{slice_index, IsTrue, IfSome, IfNone, OnOk, OnErr};
ghost use Rattle.std.specs.Option.{SomeIff};
ghost use Rattle.std.specs.Int.{IsInRange};
ghost use Rattle.std.specs.Fmt.{decimal};
ghost use Rattle.text_fields.specs.Decimals.{IsDecimal, number_of, Writes, IsTooLarge};
ghost use Rattle.text_fields.specs.Decimals.{BeginsOtherwise, BeginsWithDecimal};

use itoa::Buffer;
use std::alloc::AllocError;

/// Appends a number's decimal. After an error nothing is written.
pub fn write_decimal(out: &mut Vec<u8>, number: u64) -> Result<(), AllocError>
    ensures ok { OnOk result (out.new.items ≡ out.old.items ++ decimal number) }
    ensures err { OnErr result (out.new.items ≡ out.old.items) }
    ensures fits { number < 2 ^ 64 }
{
    let mut buffer = Buffer::new();
    out.extend_from_slice(buffer.format(number).as_bytes())
}

/// The number with one more digit at its end.
fn append_digit(number: u64, digit: u8) -> Option<u64>
    ensures { let next = number * 10 + (digit - 48) in
        SomeIff result (IsInRange 48 57 digit × (next < 2 ^ 64)) next }
{
    if !digit.is_ascii_digit() {
        return None;
    }
    number.checked_mul(10)?.checked_add(u64::from(digit - b'0'))
}

/// So many digits can't write a number of more than 64 bits.
const FEW: usize = 19;

/// The number that the first digits of a text write, `FEW` of them at most, and how many they are.
#[inline]
fn read_few(text: &[u8]) -> (u64, usize)
    ensures { Writes text.now result.1 result.0 }
{
    let end = text.len().min(FEW);
    let mut number: u64 = 0;
    let mut count = 0;
    while count < end && text[count].is_ascii_digit() {
        number = number * 10 + u64::from(text[count] - b'0');
        count += 1;
    }
    (number, count)
}

/// Reads on where so many digits are read, which write this number: the number that all digits at the front write, and
/// how many they are. `None` if the number is too large.
fn read_on(text: &[u8], mut number: u64, mut count: usize) -> Option<(u64, usize)>
    requires { Writes text.now count number }
    ensures found { IfSome result (λ read. Writes text.now read.1 read.0) }
    ensures stops { IfSome result (λ read. BeginsOtherwise (drop read.1 text.now)) }
    ensures none { IfNone result (IsTooLarge text.now) }
{
    while count < text.len() && text[count].is_ascii_digit() {
        number = append_digit(number, text[count])?;
        count += 1;
    }
    Some((number, count))
}

/// Whether there are digits, and no zero in front of another digit.
fn has_decimal_front(digits: &[u8]) -> bool
    ensures { IsTrue result
        ↔ (0 < length digits.now) × (slice_index digits.now 0 ≡ 48 → length digits.now ≡ 1) }
{
    match digits {
        [] => false,
        [b'0', rest @ ..] => rest.is_empty(),
        _ => true,
    }
}

/// The 64-bit number whose decimal a text begins with, and what follows it, which begins with no digit.
pub fn leading_decimal(text: &[u8]) -> Option<(u64, &[u8])>
    ensures found { IfSome result (λ read. BeginsWithDecimal text.now read.0 read.1.now) }
    ensures none { IfNone result ((n : ℕ) (rest : List ℕ) → ¬ BeginsWithDecimal text.now n rest) }
{
    let (number, count) = read_few(text);
    let (number, count) = read_on(text, number, count)?;
    if !has_decimal_front(&text[..count]) {
        return None;
    }
    Some((number, &text[count..]))
}

/// The 64-bit number whose decimal this is.
pub fn read_decimal(digits: &[u8]) -> Option<u64>
    ensures found { IfSome result (IsDecimal digits.now) }
    ensures none { IfNone result ((n : ℕ) → ¬ IsDecimal digits.now n) }
    ensures value { result ≡ number_of digits.now }
{
    let (number, rest) = leading_decimal(digits)?;
    if !rest.is_empty() {
        return None;
    }
    Some(number)
}
