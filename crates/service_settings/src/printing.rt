//! How a text is shown that may hold anything.
ghost use Rattle.std.specs.Prelude.{◌≡◌, ◌++◌, ◌<◌, IfOk, OnOk, string_bytes};
ghost use Rattle.service_settings.specs.Shown as spec;

use std::alloc::{AllocError, Global};

/// A text so that no terminal and no line of a log takes it for something else: blanks and what prints in ASCII as
/// they are, but for `\`, which is `\\`; each other byte as `\x1b`. If it has more than so many bytes, the first of
/// them, and how many it has.
pub fn shown(alloc: Global, text: &str, most: usize) -> Result<String, AllocError>
    ensures { IfOk result (λ shown. string_bytes shown ≡ spec.shown most text.now) }
{
    let bytes = text.as_bytes();
    let count = bytes.len();
    let mut shown = String::new(alloc);
    if count <= most {
        push_bytes(bytes, &mut shown)?;
        return Ok(shown);
    }
    push_bytes(&bytes[..most], &mut shown)?;
    format!(in alloc; "{shown}.. ({count} bytes)")
}

fn push_bytes(bytes: &[u8], shown: &mut String) -> Result<(), AllocError>
    ensures { OnOk result (string_bytes shown.new ≡ string_bytes shown.old ++ spec.shown_bytes bytes.now) }
{
    for byte in bytes {
        push_byte(*byte, shown)?;
    }
    Ok(())
}

fn push_byte(byte: u8, shown: &mut String) -> Result<(), AllocError>
    ensures { OnOk result (string_bytes shown.new ≡ string_bytes shown.old ++ spec.shown_byte byte) }
{
    if byte == b'\\' {
        return shown.push_str("\\\\");
    }
    if (b' '..=b'~').contains(&byte) {
        return shown.push(char::from(byte));
    }
    shown.push_str("\\x")?;
    shown.push(char::from(hex_digit(byte / 16)))?;
    shown.push(char::from(hex_digit(byte % 16)))
}

/// A hexadecimal digit.
fn hex_digit(number: u8) -> u8
    requires { number < 16 }
    ensures value { result ≡ spec.hex_digit number }
    ensures ascii { result < 128 }
{
    if number < 10 {
        b'0' + number
    } else {
        b'a' + (number - 10)
    }
}
