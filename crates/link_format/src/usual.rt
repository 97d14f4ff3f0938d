//! What nearly every link of a TimeMap says: the relation type `memento`, and a datetime (RFC 7089, section 5). If a
//! link's parameters begin with these two, they are read word by word.
ghost use Rattle.std.specs.Prelude.{◌≡◌, ◌+◌, ◌≤◌, ◌++◌, length, codes, IfSome, Some};
ghost use Rattle.link_format.specs.Scan.{behind_params, params_of};
ghost use Rattle.link_format.specs.Spans.{value_from};
ghost use Rattle.link_format.specs.Usual.{usual_params, FollowsRelation, FollowsSemicolon};
ghost use Rattle.link_format.specs.Walk.{behind_link, left_by};

use crate::bytes::Class;
use crate::scan::{skip_byte, skip_while, split_while};
use crate::spans::{ParamSpan, ValueSpan};

/// The relation type of usual parameters.
pub(crate) const MEMENTO: &[u8; 7] = b"memento";

/// What follows a semicolon and the blanks around it.
#[inline(always)]
fn skip_semicolon(text: &[u8]) -> Option<&[u8]>
    ensures { IfSome result (λ rest. FollowsSemicolon text.now rest.now) }
{
    let rest = skip_byte(b';', skip_while(Class::Blank, text))?;
    Some(skip_while(Class::Blank, rest))
}

/// What follows the word, if the text begins with it.
#[inline(always)]
fn skip_word<'a, const N: usize>(word: &[u8; N], text: &'a [u8]) -> Option<&'a [u8]>
    ensures { IfSome result (λ rest. text.now ≡ word.now ++ rest.now) }
{
    let (front, rest) = text.split_first_chunk::<N>()?;
    // A loop without an early exit compares many bytes at once.
    let mut same = true;
    for k in 0..N {
        same &= front[k] == word[k];
    }
    if same { Some(rest) } else { None }
}

/// What follows the relation type, a quoted text or a token.
#[inline(always)]
fn skip_relation(text: &[u8]) -> Option<&[u8]>
    ensures { IfSome result (λ rest. FollowsRelation text.now rest.now) }
{
    match skip_word(b"rel=\"memento\"", text) {
        Some(rest) => Some(rest),
        None => skip_word(b"rel=memento", text),
    }
}

/// What follows the opening quote of a datetime.
#[inline(always)]
fn skip_datetime(text: &[u8]) -> Option<&[u8]>
    ensures { IfSome result (λ rest. text.now ≡ codes "datetime=\"" ++ rest.now) }
{
    skip_word(b"datetime=\"", text)
}

/// The datetime of usual parameters at the front, and what follows its quote.
#[inline(always)]
pub(crate) fn split_usual(text: &[u8]) -> Option<(&[u8], &[u8])>
    ensures params { IfSome result (λ x. params_of text.now ≡ usual_params x.0.now ++ params_of x.1.now) }
    ensures rest { IfSome result (λ x. behind_params text.now ≡ behind_params x.1.now) }
    ensures left { IfSome result (λ x. left_by behind_link text.now ≡ left_by behind_link x.1.now) }
    ensures shorter { IfSome result (λ x. 2 + length x.1.now ≤ length text.now) }
{
    let first = skip_semicolon(text)?;
    let behind = skip_relation(first)?;
    let second = skip_semicolon(behind)?;
    let quoted = skip_datetime(second)?;
    let (datetime, rest) = split_while(Class::Plain, quoted);
    let rest = skip_byte(b'"', rest)?;
    Some((datetime, rest))
}

/// The datetime, if the relation type is just `memento` and neither value has to be unescaped.
#[inline(always)]
pub(crate) fn memento_datetime<'a>(
    rel: Option<ParamSpan<'a>>,
    datetime: Option<ParamSpan<'a>>,
) -> Option<&'a [u8]>
    ensures rel { IfSome result (λ _. value_from rel.entry ≡ Some (codes "memento")) }
    ensures datetime { IfSome result (λ text. value_from datetime.entry ≡ Some text.now) }
{
    let Some(ValueSpan::Plain(rel)) = rel?.value else {
        return None;
    };
    let Some(ValueSpan::Plain(datetime)) = datetime?.value else {
        return None;
    };
    match skip_word(MEMENTO, rel) {
        Some([]) => Some(datetime),
        _ => None,
    }
}
