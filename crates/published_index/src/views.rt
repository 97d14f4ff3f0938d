//! What the rule of the published copies knows about one reader, or about the writer. No value of these types is made.
use memento_index::Merge;

/// Identifies an opening, by the names of the log that the opening's merger and gates share.
pub struct Opening {
    pub number: u64,
    pub log_name: u64,
    pub cells_name: u64,
}

/// The opening, the incarnation and the batches of the copy that was seen last, once one was. A clause reads an array
/// as a list of any length.
pub struct ReaderView {
    pub named: bool,
    pub opening: Opening,
    pub incarnation: u64,
    pub front: [[Merge; 0]; 0],
}
