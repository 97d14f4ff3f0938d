//! Splits a text at a byte, or behind a front.
ghost use Rattle.std.specs.Prelude.{◌≡◌, ◌++◌, ◌∷◌, IfSome, IfNone, true, false, nat_eq, length, drop};
ghost use Rattle.std.specs.List.{starts_with};
ghost use Rattle.std.specs.Option.{option_map};
ghost use Rattle.text_fields.specs.Parts.{Lacks, behind, parts_at, space, line_end};

use memchr::memchr;

/// What comes before the first occurrence of a byte, and what comes after it.
pub fn split_once(text: &[u8], byte: u8) -> Option<(&[u8], &[u8])>
    ensures found { IfSome result (λ p. text.now ≡ p.0.now ++ byte ∷ p.1.now) }
    ensures first { IfSome result (λ p. Lacks byte p.0.now) }
    ensures none { IfNone result (Lacks byte text.now) }
    ensures parts { option_map (λ p. (p.0.now, p.1.now)) result ≡ parts_at byte text.now }
{
    let at = memchr(byte, text)?;
    Some((&text[..at], &text[at + 1..]))
}

/// The field that ends at the first space, and what follows the space.
pub fn next_field(text: &[u8]) -> Option<(&[u8], &[u8])>
    ensures found { IfSome result (λ p. text.now ≡ p.0.now ++ space ∷ p.1.now) }
    ensures first { IfSome result (λ p. Lacks space p.0.now) }
    ensures none { IfNone result (Lacks space text.now) }
    ensures parts { option_map (λ p. (p.0.now, p.1.now)) result ≡ parts_at space text.now }
{
    split_once(text, b' ')
}

/// The line that ends at the first LF, and what follows the LF.
pub fn next_line(text: &[u8]) -> Option<(&[u8], &[u8])>
    ensures found { IfSome result (λ p. text.now ≡ p.0.now ++ line_end ∷ p.1.now) }
    ensures first { IfSome result (λ p. Lacks line_end p.0.now) }
    ensures none { IfNone result (Lacks line_end text.now) }
    ensures parts { option_map (λ p. (p.0.now, p.1.now)) result ≡ parts_at line_end text.now }
{
    split_once(text, b'\n')
}

/// What follows the front, if the text begins with it.
pub fn behind<'a>(front: &[u8], text: &'a [u8]) -> Option<&'a [u8]>
    ensures found { IfSome result (λ rest. (starts_with nat_eq text.now front.now ≡ true)
        × (rest.now ≡ drop (length front.now) text.now)) }
    ensures none { IfNone result (starts_with nat_eq text.now front.now ≡ false) }
    ensures rest { option_map (λ rest. rest.now) result ≡ behind front.now text.now }
{
    text.strip_prefix(front)
}
