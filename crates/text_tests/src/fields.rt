//! The fields and the decimals of a text's lines (`text_fields`).
use crate::tables::{are_same, halves, hold, is, is_number};
use anyhow::Result;
use std::alloc::Global;
use text_fields::{
    decimals_are_read_back, leading_decimal, next_field, next_line, parts_are_read_back,
    read_decimal, split_once, write_decimal,
};

/// Texts, and the number that each is.
const DECIMALS: &str = "0|0
18446744073709551615|18446744073709551615
18446744073709551616|none
|none
007|none
+7|none
7 |none
";

fn is_decimal(_: Global, case: &str) -> Result<bool> {
    let (text, wanted) = halves(case);
    Ok(is_number(read_decimal(text.as_bytes()), wanted))
}

#[test]
fn decimals(rt: HostRuntime) -> Result<()> {
    decimals_are_read_back();
    hold(rt.alloc(), DECIMALS, is_decimal)
}

/// Each is written behind what stands there.
#[test]
fn written_decimals(rt: HostRuntime) -> Result<()> {
    let mut out = Vec::new(rt.alloc());
    write_decimal(&mut out, 0)?;
    write_decimal(&mut out, u64::MAX)?;
    assert!(rt; is(&out, "018446744073709551615"));
    Ok(())
}

/// Texts, the number that each begins with, and what follows the number.
const FRONTS: &str = "0:7|0|:7
1262304000 x|1262304000| x
9999999999999999999|9999999999999999999|
18446744073709551615/|18446744073709551615|/
18446744073709551616|none|
100000000000000000000 |none|
00000000000000000000001|none|
007|none|
:7|none|
|none|
";

fn is_front(_: Global, case: &str) -> Result<bool> {
    let (text, answer) = halves(case);
    let (front, wanted) = halves(answer);
    Ok(match leading_decimal(text.as_bytes()) {
        Some((found, rest)) => is_number(Some(found), front) && is(rest, wanted),
        None => is_number(None, front),
    })
}

#[test]
fn leading_decimals(rt: HostRuntime) -> Result<()> {
    hold(rt.alloc(), FRONTS, is_front)
}

/// Whether a text was parted into these.
fn are(parts: Option<(&[u8], &[u8])>, first: &[u8], rest: &[u8]) -> bool {
    match parts {
        Some(parts) => are_same(parts.0, first) && are_same(parts.1, rest),
        None => false,
    }
}

#[test]
fn parts(rt: HostRuntime) {
    parts_are_read_back();
    assert!(rt; are(next_field(b"a 1  x"), b"a", b"1  x"));
    assert!(rt; are(next_field(b" x"), b"", b"x"));
    assert!(rt; next_field(b"a\n").is_none());
    assert!(rt; are(next_line(b"a\r\n\nb"), b"a\r", b"\nb"));
    assert!(rt; next_line(b"a").is_none());
    assert!(rt; are(split_once(b"a:b", b':'), b"a", b"b"));
}
