//! The addresses that a listing gives.
ghost use Rattle.std.specs.Prelude.{◌≡◌, ◌++◌, IfOk, string_bytes};
ghost use Rattle.timemap_formats.specs.Addresses.{form_address, timegate_at};

use crate::listing::Head;
use memento_time::{Clean, NoMemory};
use std::alloc::Global;

/// The pieces, one after the other.
fn joined(alloc: Global, first: &str, second: &str, third: &str) -> Result<String, NoMemory>
    ensures { IfOk result (λ text. string_bytes text ≡ first.now ++ second.now ++ third.now) }
{
    let mut text = String::from_str(alloc, first)?;
    text.push_str(second)?;
    text.push_str(third)?;
    Ok(text)
}

/// Where a listing in this form stands.
pub(crate) fn form_address(
    alloc: Global,
    base: &Clean,
    form: &str,
    place: &Clean,
) -> Result<String, NoMemory>
    ensures { IfOk result (λ text. string_bytes text ≡ form_address base.now form.now place.now) }
{
    let front = joined(alloc, base.as_str(), "/timemap/", form)?;
    joined(alloc, front.as_str(), "/", place.as_str())
}

/// Where the TimeGate stands.
pub(crate) fn timegate_at(alloc: Global, head: &Head) -> Result<String, NoMemory>
    ensures { IfOk result (λ text. string_bytes text ≡ timegate_at head.now) }
{
    joined(
        alloc,
        head.base.as_str(),
        "/timegate/",
        head.original.as_str(),
    )
}
