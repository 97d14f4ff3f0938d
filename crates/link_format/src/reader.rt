//! The links of a text, one after another.
ghost use Rattle.std.specs.Prelude.{◌≡◌, ◌+◌, ◌<◌, ◌≤◌, ℕ, List, [], ◌∷◌, length, Option, Some, None, Ok, Err};
ghost use Rattle.std.specs.Prelude.{IfOk, IfErr, IfSome, IfNone, IsTrue, option_map, ◌↔◌};
ghost use Rattle.std.specs.List.{slice_get};
ghost use Rattle.link_format.specs.Grammar.{Link, Reading};
ghost use Rattle.link_format.specs.Limits.{IsAnswer};
ghost use Rattle.link_format.specs.Reader.{BeginsWith, IsSamePlace, IsWithin, StandsBehind, with_left};
ghost use Rattle.link_format.specs.Scan.{reading_of};
ghost use Rattle.link_format.specs.Spans.{link_of};
ghost use Rattle.link_format.specs.Walk.{in_list, left_by};

use crate::fault::LinkFault;
use crate::links::{LinkRef, MAX_LINKS, MAX_PARAMS, MAX_TARGET, read_links};
use crate::scan::step;
use crate::spans::LinkSpan;
use std::alloc::Global;
use std::marker::Model;

/// The next link of a text, and what follows its comma; `None` if there is no further link.
#[inline(always)]
fn next_span(text: &[u8]) -> Result<Option<(LinkSpan<'_>, Option<&[u8]>)>, usize>
    ensures some { IfOk result (λ found. IfSome found (λ x.
        with_left (link_of x.0 ∷ []) (option_map (λ rest. rest.now) x.1) ≡ reading_of text.now)) }
    ensures begins { IfOk result (λ found. IfSome found (λ x.
        BeginsWith text.now (option_map (λ rest. rest.now) x.1) (link_of x.0 ∷ []))) }
    ensures none { IfOk result (λ found. IfNone found (reading_of text.now ≡ Some [])) }
    ensures place { IfOk result (λ found. IfSome found (λ x.
        IsSamePlace text.now (option_map (λ rest. rest.now) x.1))) }
    ensures fault { IfErr result (λ left. (reading_of text.now ≡ None) × (left ≡ left_by in_list text.now)) }
{
    let mut rest = text;
    'elements: loop {
        match step(rest)? {
            (Some(found), after) => return Ok(Some((found, after))),
            (None, Some(after)) => rest = after,
            (None, None) => return Ok(None),
        }
    }
}

/// Whether a link that follows this many others exceeds no limit.
fn is_within(others: usize, link: LinkSpan<'_>) -> bool
    ensures { IsTrue result ↔ IsWithin others (link_of link.entry) }
{
    others < MAX_LINKS && link.params.count <= MAX_PARAMS && link.target.len() <= MAX_TARGET
}

/// The first fault of a text that isn't read.
fn first_fault(alloc: Global, text: &[u8]) -> LinkFault
    requires { (links : List Link) → IsAnswer text.now (Ok links) → ⊥ }
    ensures { IsAnswer text.now (Err result) }
{
    match read_links(alloc, text) {
        Err(fault) => fault,
        Ok(_) => unreachable!(),
    }
}

/// Reads the links of a text one after another, and keeps none of them.
#[derive(Drop)]
pub struct LinkReader<'a> {
    alloc: Global,
    text: &'a [u8],
    /// What follows the links that were read and the comma after them.
    rest: Option<&'a [u8]>,
    /// How many were read.
    count: usize,
}

impl<'a> Model for LinkReader<'a> {
    ghost use Rattle.std.specs.Prelude.{option_map};
    ghost use Rattle.link_format.specs.Reader.{IsReadTo, Progress};

    ghost Value = { Progress };

    ghost view = { λ r. record { text = r.text.now; count = r.count } };

    ghost invariant = { λ r. IsReadTo r.text.now (option_map (λ rest. rest.now) r.rest) r.count };
}

impl<'a> LinkReader<'a> {
    /// A reader that has read no link of the text.
    pub fn new(alloc: Global, text: &'a [u8]) -> LinkReader<'a>
        ensures { result ≡ record { text = text.now; count = 0 } }
    {
        LinkReader {
            alloc,
            text,
            rest: Some(text),
            count: 0,
        }
    }

    /// The next link; `None` if there are no more.
    ///
    /// A link is given before anything after it is looked at. So it is a link of the text whether or not the whole text
    /// has a reading: together with the links before it, it is the reading of a prefix that ends at a comma or with the
    /// text (`begins`).
    ///
    /// A fault is the text's fault, as `read_links` reports it, and leaves the reader as it was. It is reported when
    /// reading comes to it, so the links before it are still read. If a link exceeds a limit, the whole text is read to
    /// find its first fault.
    pub fn read(&mut self) -> Result<Option<LinkRef<'a>>, LinkFault>
        ensures link { IfOk result (λ found. IfSome found (λ link.
            (links : List Link) → Reading self.old.text links → slice_get links self.old.count ≡ Some link)) }
        ensures begins { IfOk result (λ found. IfSome found (StandsBehind self.old.count self.old.text)) }
        ensures count { IfOk result (λ found. IfSome found (λ link.
            self.new ≡ record { text = self.old.text; count = 1 + self.old.count })) }
        ensures within { IfOk result (λ found. IfSome found (λ link. IsWithin self.old.count link)) }
        ensures end { IfOk result (λ found. IfNone found
            ((links : List Link) × IsAnswer self.old.text (Ok links) × (length links ≡ self.old.count))) }
        ensures fault { IfErr result (λ fault. IsAnswer self.old.text (Err fault)) }
        ensures same { IfErr result (λ fault. self.new ≡ self.old) }
        ensures still { IfOk result (λ found. IfNone found (self.new ≡ self.old)) }
    {
        let Some(rest) = self.rest else {
            return Ok(None);
        };
        match next_span(rest) {
            Ok(Some((span, after))) => {
                if !is_within(self.count, span) {
                    return Err(first_fault(self.alloc, self.text));
                }
                self.rest = after;
                self.count += 1;
                Ok(Some(LinkRef {
                    alloc: self.alloc,
                    span,
                }))
            }
            Ok(None) => {
                self.rest = None;
                Ok(None)
            }
            Err(left) => Err(LinkFault::NotLinkFormat {
                at: self.text.len().saturating_sub(left),
            }),
        }
    }
}
