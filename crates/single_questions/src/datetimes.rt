//! Datetimes in fourteen digits.
ghost use Rattle.std.specs.Prelude.{◌≡◌};
ghost use Rattle.single_questions.specs.Datetimes as spec;
ghost use Rattle.single_questions.specs.Datetimes.{moment_of, month_name_of};

use memento_time::Moment;

/// The name of the month that two digits name.
fn month_name(number: &[u8]) -> Option<[u8; 3]>
    ensures { result ≡ month_name_of number.now }
{
    if number == b"01".as_slice() {
        return Some([b'J', b'a', b'n']);
    }
    if number == b"02".as_slice() {
        return Some([b'F', b'e', b'b']);
    }
    if number == b"03".as_slice() {
        return Some([b'M', b'a', b'r']);
    }
    if number == b"04".as_slice() {
        return Some([b'A', b'p', b'r']);
    }
    if number == b"05".as_slice() {
        return Some([b'M', b'a', b'y']);
    }
    if number == b"06".as_slice() {
        return Some([b'J', b'u', b'n']);
    }
    if number == b"07".as_slice() {
        return Some([b'J', b'u', b'l']);
    }
    if number == b"08".as_slice() {
        return Some([b'A', b'u', b'g']);
    }
    if number == b"09".as_slice() {
        return Some([b'S', b'e', b'p']);
    }
    if number == b"10".as_slice() {
        return Some([b'O', b'c', b't']);
    }
    if number == b"11".as_slice() {
        return Some([b'N', b'o', b'v']);
    }
    if number == b"12".as_slice() {
        return Some([b'D', b'e', b'c']);
    }
    None
}

/// Fourteen digits as an IMF-fixdate with a month's name, under the name of some day.
fn as_imf(t: &[u8; 14], m: [u8; 3]) -> [u8; 29]
    ensures { result ≡ spec.as_imf t.now m }
{
    [
        b'M', b'o', b'n', b',', b' ', t[6], t[7], b' ', m[0], m[1], m[2], b' ', t[0], t[1], t[2],
        t[3], b' ', t[8], t[9], b':', t[10], t[11], b':', t[12], t[13], b' ', b'G', b'M', b'T',
    ]
}

/// The moment with these fourteen digits, such as `20150105102336`.
#[tactic(auto, unfolding(crate::specs::Datetimes::moment_of))]
pub fn read_digits(text: &[u8]) -> Option<Moment>
    ensures { result ≡ moment_of text.now }
{
    let digits: &[u8; 14] = text.try_into().ok()?;
    let month = month_name(&text[4..6])?;
    Moment::read_imf(&as_imf(digits, month))
}
