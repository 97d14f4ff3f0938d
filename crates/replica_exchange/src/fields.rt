//! The fields of a line, read from the front of a text.
ghost use Rattle.std.specs.Prelude.{◌≡◌, ℕ, ◌<◌, List, ◌++◌, ◌∷◌, ◌↔◌, IfOk, IfErr, IsErrOf};
ghost use Rattle.memento_time.specs.Text.{IsOriginal};
ghost use Rattle.text_fields.specs.Parts.{Lacks};
ghost use Rattle.replica_exchange.specs.Spelling.{Begins, Refuses, field, number};

use crate::fault::StateFault;
use memento_time::Original;
use std::alloc::Global;
use text_fields::{leading_decimal, split_once};

/// The field before the first occurrence of a byte, and what follows that byte.
pub fn cut(text: &[u8], byte: u8) -> Result<(&[u8], &[u8]), StateFault>
    ensures found { IfOk result (λ cut. text.now ≡ cut.0.now ++ byte ∷ cut.1.now) }
    ensures first { IfOk result (λ cut. Lacks byte cut.0.now) }
    ensures refused { IfErr result (λ fault. (fault ≡ StateFault.NotState) × Lacks byte text.now) }
{
    split_once(text, byte).ok_or(StateFault::NotState)
}

/// What follows these bytes.
pub fn skip<'a>(text: &'a [u8], front: &[u8]) -> Result<&'a [u8], StateFault>
    ensures found { IfOk result (λ rest. text.now ≡ front.now ++ rest.now) }
    ensures refused { IfErr result (λ fault. (fault ≡ StateFault.NotState)
        × ((rest : List ℕ) → ¬ (text.now ≡ front.now ++ rest))) }
{
    match text.strip_prefix(front) {
        Some(rest) => Ok(rest),
        None => Err(StateFault::NotState),
    }
}

/// A number and the byte that ends it, and what follows.
pub(crate) fn read_number(text: &[u8], end: u8) -> Result<(u64, &[u8]), StateFault>
    requires { end < 48 }
    ensures found { IfOk result (λ read. Begins (number end) text.now read.0 read.1.now) }
    ensures refused { IfErr result (λ fault. Refuses (number end) text.now fault) }
{
    let Some((number, behind)) = leading_decimal(text) else {
        return Err(StateFault::NotState);
    };
    let [byte, rest @ ..] = behind else {
        return Err(StateFault::NotState);
    };
    if *byte != end {
        return Err(StateFault::NotState);
    }
    Ok((number, rest))
}

/// An original and the end of its line, and what follows. The original has a buffer of its own, since a state keeps it
/// as a key long after the rest of the text is gone.
pub fn read_original(alloc: Global, text: &[u8]) -> Result<(Original, &[u8]), StateFault>
    ensures found { IfOk result (λ read. Begins (field IsOriginal 10) text.now read.0 read.1.now) }
    ensures refused { IfErr result (λ fault. Refuses (field IsOriginal 10) text.now fault) }
{
    let (line, rest) = cut(text, b'\n')?;
    let original = Original::new(alloc, line)?;
    Ok((original, rest))
}
