//! The rule that the published copies keep with the views of their readers and of the writer, and its steps.
ghost use Rattle.published_index.specs.Passes.{no_view};
ghost use Rattle.published_index.specs.Rule.{Keeps, Enters, Shows, view_of_note};

use crate::editions::{Change, Edition};
use crate::views::ReaderView;
use atomic_table::{Join, Split};
use crossbeam_utils::rule::{Outcome, Protocol};
use left_right::reader::Reader;
use left_right::writer::Writer;

/// The rule of the published copies.
pub struct Published;

impl Protocol<Edition, ReaderView> for Published {
    ghost holds = { Keeps };

    ghost first = { no_view };
}

/// A reader enters the copy that is shown.
pub struct Entry;

impl Outcome<Edition, ReaderView> for Entry {
    ghost then = { Enters };
}

/// The writer shows the other copy.
pub(crate) struct Publication;

impl Outcome<Edition, ReaderView> for Publication {
    ghost then = { Shows };
}

/// The writer tells everything that it knows, and still knows it.
pub(crate) struct Telling;

impl Split<ReaderView> for Telling {
    ghost left = { λ view. view };

    ghost right = { λ view. view };
}

/// A new reader learns what the writer told.
pub(crate) struct Learning;

impl Join<ReaderView> for Learning {
    ghost both = { view_of_note };

    ghost spent = { no_view };
}

pub type EditionReader = Reader<Edition, ReaderView, Published>;

pub type EditionWriter = Writer<Edition, Change, ReaderView, Published>;
