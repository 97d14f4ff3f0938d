//! What a TimeMap, the index of its pages or a page says.
use memento_time::{Clean, Items, Memento, Moment};

/// Whether a memento is the first of all that are shown, and whether it is the last.
#[derive(Clone, Copy, Debug, PartialEq, Eq)]
pub struct Ends {
    pub first: bool,
    pub last: bool,
}

/// A page that an index names.
#[derive(Debug, Drop)]
pub struct PageLink {
    /// What follows `/timemap/link/` in its address: `page/`, its number, a slash and the original.
    pub place: Clean,
    /// The datetime of its first memento.
    pub from: Moment,
    /// The datetime of its last memento.
    pub until: Moment,
}

/// What a link below the head lists.
#[derive(Debug, Drop)]
pub enum Row {
    OfMemento(Ends, Memento),
    OfPage(PageLink),
}

/// Which text it is.
#[derive(Debug, Drop)]
pub struct Head {
    /// The base of the service, such as `http://agg.example`.
    pub base: Clean,
    pub original: Clean,
    /// What follows `/timemap/link/` in the text's own address: the original, or a page's number and the original.
    pub place: Clean,
}

/// What a text lists.
#[derive(Debug, Drop)]
pub struct Listing {
    pub head: Head,
    pub rows: Items<Row>,
}
