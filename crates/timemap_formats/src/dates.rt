//! The datetimes of the forms, rearranged from the IMF-fixdate that link-format has.
ghost use Rattle.std.specs.Prelude.{◌≡◌};
ghost use Rattle.memento_time.specs.Text.{IsClean};
ghost use Rattle.timemap_formats.specs.Dates.{rfc3339, digits, month_digits};

use memento_time::{DateWriter, Moment};

/// The two digits of the month with this name.
fn month(name: &[u8]) -> [u8; 2]
    ensures { result ≡ month_digits name.now }
{
    if name == b"Jan".as_slice() {
        return [b'0', b'1'];
    }
    if name == b"Feb".as_slice() {
        return [b'0', b'2'];
    }
    if name == b"Mar".as_slice() {
        return [b'0', b'3'];
    }
    if name == b"Apr".as_slice() {
        return [b'0', b'4'];
    }
    if name == b"May".as_slice() {
        return [b'0', b'5'];
    }
    if name == b"Jun".as_slice() {
        return [b'0', b'6'];
    }
    if name == b"Jul".as_slice() {
        return [b'0', b'7'];
    }
    if name == b"Aug".as_slice() {
        return [b'0', b'8'];
    }
    if name == b"Sep".as_slice() {
        return [b'0', b'9'];
    }
    if name == b"Oct".as_slice() {
        return [b'1', b'0'];
    }
    if name == b"Nov".as_slice() {
        return [b'1', b'1'];
    }
    [b'1', b'2']
}

/// The datetime as RFC 3339 writes it, such as `2015-01-05T10:23:36Z`.
pub(crate) fn rfc3339(dates: &mut DateWriter, moment: Moment) -> [u8; 20]
    ensures value { result ≡ rfc3339 moment }
    ensures clean { IsClean result }
{
    // Called for its contract, which says that the moment has a date.
    let _second = moment.secs();
    let text = dates.write(moment);
    let month = month(&[text[8], text[9], text[10]]);
    [
        text[12], text[13], text[14], text[15], b'-', month[0], month[1], b'-', text[5], text[6],
        b'T', text[17], text[18], b':', text[20], text[21], b':', text[23], text[24], b'Z',
    ]
}

/// The datetime in fourteen digits, such as `20150105102336`.
pub(crate) fn digits(dates: &mut DateWriter, moment: Moment) -> [u8; 14]
    ensures { result ≡ digits moment }
{
    let _second = moment.secs();
    let text = dates.write(moment);
    let month = month(&[text[8], text[9], text[10]]);
    [
        text[12], text[13], text[14], text[15], month[0], month[1], text[5], text[6], text[17],
        text[18], text[20], text[21], text[23], text[24],
    ]
}
