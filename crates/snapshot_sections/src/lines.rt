//! The lines between texts.
ghost use Rattle.std.specs.Prelude.{◌≡◌, ◌≢◌, ◌++◌, ◌∷◌, [], IfSome, IfNone};
ghost use Rattle.snapshot_sections.specs.Sections.{line_text, IsLine};

use text_fields::{behind, read_decimal};

/// A line that follows the first line or a text.
#[derive(Clone, Copy, Debug, PartialEq, Eq)]
pub enum Line {
    /// A text of so many bytes follows.
    Section(u64),
    /// There are so many texts, and nothing follows.
    Last(u64),
}

/// The line whose bytes before the LF these are.
pub(crate) fn line_of(text: &[u8]) -> Option<Line>
    ensures found { IfSome result (λ line. text.now ++ 10 ∷ [] ≡ line_text line) }
    ensures fits { IfSome result IsLine }
    ensures none { IfNone result ((line : Line) → IsLine line → text.now ++ 10 ∷ [] ≢ line_text line) }
{
    if let Some(length) = behind(b"section ".as_slice(), text) {
        return Some(Line::Section(read_decimal(length)?));
    }
    let count = behind(b"sections ".as_slice(), text)?;
    Some(Line::Last(read_decimal(count)?))
}
