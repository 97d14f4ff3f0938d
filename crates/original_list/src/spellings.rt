//! The other spellings of an original: with the other scheme, and with or without `www.`.
ghost use Rattle.std.specs.Prelude.{◌≡◌, ◌++◌, ◌∷◌, [], IfOk, OnOk, filter, position};
ghost use Rattle.std.specs.List.{list_any, starts_with};
ghost use Rattle.original_list.specs.Spellings as spec;
ghost use Rattle.original_list.specs.Spellings.{SpellingsAreAlike, SpellingsComeBack, is_itself, other_spellings, others, others_behind, plain_spellings, swapped_spellings, text_of};

use memento_time::{NoMemory, Original};
use std::alloc::Global;
use text_fields::behind;
use timegate::original_at;

/// Whether the byte ends an authority.
fn is_end(byte: u8) -> bool
    ensures { result ≡ spec.is_end byte }
{
    byte == b'/' || byte == b'?' || byte == b'#'
}

/// Whether the byte is one that a name alone hasn't.
fn is_mark(byte: u8) -> bool
    ensures { result ≡ spec.is_mark byte }
{
    byte == b'@' || byte == b':' || byte == b'['
}

fn first_end(text: &[u8]) -> Option<usize>
    ensures { result ≡ position spec.is_end text.now }
{
    text.iter().position(|byte| is_end(*byte))
}

/// What stands before the first `/`, `?` or `#`: the authority, where the text follows a scheme.
fn authority(text: &[u8]) -> &[u8]
    ensures { result.now ≡ spec.authority text.now }
{
    match first_end(text) {
        Some(end) => &text[..end],
        None => text,
    }
}

fn any_is_mark(text: &[u8]) -> bool
    ensures { result ≡ list_any spec.is_mark text.now }
{
    text.iter().any(|byte| is_mark(*byte))
}

/// Whether the authority is a name alone: without a user, a port, or the brackets of an address.
fn is_named(rest: &[u8]) -> bool
    ensures { result ≡ spec.is_named rest.now }
{
    !any_is_mark(authority(rest))
}

/// Whether `www.` may stand before this or not: before a name that doesn't begin with it.
fn may_swap(rest: &[u8]) -> bool
    ensures { result ≡ spec.may_swap rest.now }
{
    !authority(rest).is_empty() && !rest.starts_with(b"www.")
}

/// What stands in front of a host.
#[derive(Clone, Copy)]
struct Front {
    /// The scheme is `https`.
    is_secure: bool,
    has_www: bool,
}

/// The text with this front, and with this behind it.
fn text_of(alloc: Global, front: Front, rest: &[u8]) -> Result<Vec<u8>, NoMemory>
    ensures { IfOk result (λ text. text.items ≡ text_of front.is_secure front.has_www rest.now) }
{
    let mut text = Vec::new(alloc);
    if front.is_secure {
        text.extend_from_slice(b"https://")?;
    } else {
        text.extend_from_slice(b"http://")?;
    }
    if front.has_www {
        text.extend_from_slice(b"www.")?;
    }
    text.extend_from_slice(rest)?;
    Ok(text)
}

/// Adds the original that a text names, if the text is how it names itself.
fn add(alloc: Global, list: &mut Vec<Original>, text: &[u8]) -> Result<(), NoMemory>
    ensures { OnOk result (list.new.items ≡ list.old.items ++ filter is_itself (text.now ∷ [])) }
{
    if let Some(original) = original_at(alloc, text)? {
        if original.as_bytes() == text {
            list.push(original)?;
        }
    }
    Ok(())
}

/// Adds the original that is spelled like this, if it names itself so.
fn add_spelling(
    alloc: Global,
    list: &mut Vec<Original>,
    front: Front,
    rest: &[u8],
) -> Result<(), NoMemory>
    ensures { OnOk result
        (list.new.items ≡ list.old.items ++ filter is_itself (text_of front.is_secure front.has_www rest.now ∷ [])) }
{
    let text = text_of(alloc, front, rest)?;
    add(alloc, list, &text)
}

/// Adds the spellings with `www.` where there was none, or without it where there was one.
fn add_swapped(
    alloc: Global,
    list: &mut Vec<Original>,
    front: Front,
    rest: &[u8],
) -> Result<(), NoMemory>
    ensures { OnOk result
        (list.new.items ≡ list.old.items ++ filter is_itself (swapped_spellings front.is_secure front.has_www rest.now)) }
{
    if !may_swap(rest) {
        return Ok(());
    }
    let swapped = Front {
        is_secure: front.is_secure,
        has_www: !front.has_www,
    };
    let opposite = Front {
        is_secure: !front.is_secure,
        has_www: !front.has_www,
    };
    add_spelling(alloc, list, swapped, rest)?;
    add_spelling(alloc, list, opposite, rest)?;
    Ok(())
}

/// The other spellings of what has this front, and this behind it.
fn others(alloc: Global, front: Front, rest: &[u8]) -> Result<Vec<Original>, NoMemory>
    ensures { IfOk result (λ list. list.items ≡ filter is_itself (others front.is_secure front.has_www rest.now)) }
{
    let mut list = Vec::new(alloc);
    if !is_named(rest) {
        return Ok(list);
    }
    let other_scheme = Front {
        is_secure: !front.is_secure,
        has_www: front.has_www,
    };
    add_spelling(alloc, &mut list, other_scheme, rest)?;
    add_swapped(alloc, &mut list, front, rest)?;
    Ok(list)
}

/// The other spellings of what has this scheme and this behind it.
fn others_behind(alloc: Global, is_secure: bool, rest: &[u8]) -> Result<Vec<Original>, NoMemory>
    ensures { IfOk result (λ list. list.items ≡ filter is_itself (others_behind is_secure rest.now)) }
{
    let (has_www, rest) = match behind(b"www.", rest) {
        Some(rest) => (true, rest),
        None => (false, rest),
    };
    others(alloc, Front { is_secure, has_www }, rest)
}

/// The other spellings of a text that begins with `http://`.
fn plain_spellings(alloc: Global, text: &[u8]) -> Result<Vec<Original>, NoMemory>
    ensures { IfOk result (λ list. list.items ≡ filter is_itself (plain_spellings text.now)) }
{
    match behind(b"http://", text) {
        Some(rest) => others_behind(alloc, false, rest),
        None => Ok(Vec::new(alloc)),
    }
}

/// The other spellings of an original, which are originals too: with the other scheme, with or without `www.`, and with
/// both changed. There are none where the authority has a user, a port or an address in brackets.
pub fn spellings_of(alloc: Global, original: &Original) -> Result<Vec<Original>, NoMemory>
    ensures { IfOk result (λ list. list.items ≡ filter is_itself (other_spellings original.now)) }
{
    let text = original.as_bytes();
    match behind(b"https://", text) {
        Some(rest) => others_behind(alloc, true, rest),
        None => plain_spellings(alloc, text),
    }
}

/// Spellings differ in their scheme and in `www.` before their host alone.
pub fn spellings_are_alike()
    ensures { SpellingsAreAlike }
{}

/// What is another spelling of an original has the original as another spelling.
pub fn spellings_come_back()
    ensures { SpellingsComeBack }
{}
