//! The form of an IMF-fixdate, and the dates before 1970 that have it.
ghost use Rattle.std.specs.Prelude.{◌≡◌, length};
ghost use Rattle.std.specs.List.{list_all, zip};
ghost use Rattle.memento_time.specs.Names.{day_names, month_names};
ghost use Rattle.memento_time.specs.BeforeEpoch as spec;

/// Each `0` stands for a digit and the question marks for a name; all other bytes stand for themselves.
const FORM: [u8; 29] = *b"???, 00 ??? 0000 00:00:00 GMT";

pub(crate) const DAY_NAMES: [[u8; 3]; 7] = [
    *b"Mon", *b"Tue", *b"Wed", *b"Thu", *b"Fri", *b"Sat", *b"Sun",
];

const MONTH_NAMES: [[u8; 3]; 12] = [
    *b"Jan", *b"Feb", *b"Mar", *b"Apr", *b"May", *b"Jun", *b"Jul", *b"Aug", *b"Sep", *b"Oct",
    *b"Nov", *b"Dec",
];

fn fits(byte: u8, form: u8) -> bool
    ensures { result ≡ spec.fits (byte, form) }
{
    match form {
        b'?' => true,
        b'0' => byte.is_ascii_digit(),
        _ => byte == form,
    }
}

/// Whether the text has the form of an IMF-fixdate.
pub(crate) fn fits_form(text: &[u8; 29]) -> bool
    ensures { result ≡ list_all spec.fits (zip text.now spec.date_form) }
{
    text.iter()
        .zip(FORM.iter())
        .all(|(byte, form)| fits(*byte, *form))
}

fn is_name_of(names: &[[u8; 3]], name: &[u8]) -> bool
    ensures { result ≡ spec.is_name names.now name.now }
{
    names.iter().any(|known| known.as_slice() == name)
}

fn has_year_before_1970(digits: &[u8]) -> bool
    ensures { result ≡ spec.is_year_before_1970 digits.now }
{
    digits.cmp(b"1970".as_slice()).is_lt()
}

/// Whether the text has the form of an IMF-fixdate with a year before 1970.
#[tactic(auto, unfolding(crate::specs::BeforeEpoch::is_before_epoch))]
pub(crate) fn is_before_epoch(text: &[u8]) -> bool
    ensures { result ≡ spec.is_before_epoch text.now }
{
    let Ok(bytes) = <&[u8; 29]>::try_from(text) else {
        return false;
    };
    fits_form(bytes)
        && is_name_of(&DAY_NAMES, &bytes[..3])
        && is_name_of(&MONTH_NAMES, &bytes[8..11])
        && has_year_before_1970(&bytes[12..16])
}
