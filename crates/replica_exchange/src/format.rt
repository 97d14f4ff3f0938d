//! The formats of a text.
ghost use Rattle.std.specs.Prelude.{◌≡◌, ◌++◌, List, ℕ, IfOk, IfErr};
ghost use Rattle.replica_exchange.specs.Parts.{first_line};

use crate::fault::StateFault;
use crate::fields::skip;

/// How the entries of a text are written.
#[derive(Clone, Copy, Debug, PartialEq, Eq)]
pub(crate) enum Format {
    /// Each entry with only its whole revision.
    One,
    /// Each entry with its whole revision, if there is one, and all its revisions.
    Two,
}

/// The format of a text whose first line begins with this word, and what follows that line.
pub(crate) fn read_format<'a>(text: &'a [u8], word: &[u8]) -> Result<(Format, &'a [u8]), StateFault>
    ensures found { IfOk result (λ read. text.now ≡ first_line word.now read.0 ++ read.1.now) }
    ensures refused { IfErr result (λ fault. (fault ≡ StateFault.NotState)
        × ((format : Format) (rest : List ℕ) → ¬ (text.now ≡ first_line word.now format ++ rest))) }
{
    let number = skip(text, word)?;
    if let Ok(rest) = skip(number, b" 2\n") {
        return Ok((Format::Two, rest));
    }
    let rest = skip(number, b" 1\n")?;
    Ok((Format::One, rest))
}
