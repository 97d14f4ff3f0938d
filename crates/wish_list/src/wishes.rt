//! What readers wish for, and when it was looked after.
use crate::allowance::Allowance;
use crate::queue::Queue;
use crate::table::Table;
use original_sets::OriginalSet;
use std::num::NonZeroUsize;

/// How much may be wished for.
#[derive(Clone, Copy, Debug)]
pub struct WishLimits {
    /// How many originals are remembered that are shown; as many more that aren't.
    pub remembered: NonZeroUsize,
    /// The seconds in which an original isn't looked after again.
    pub again: u64,
    /// How many wishes are taken in one minute, without those for which no archive was asked.
    pub in_a_minute: u64,
}

/// What became of a wish.
#[derive(Clone, Copy, Debug, PartialEq, Eq)]
pub enum Decision {
    /// It is taken.
    Added,
    /// There is one for the same original.
    Waits,
    /// The original was looked after a short time ago.
    Fresh,
    /// There are as many wishes as may be.
    Full,
    /// As many wishes were taken in this minute as may be.
    Late,
    /// Something of the original is shown, and rounds look after it.
    Listed,
}

/// What was found when an original was looked after.
#[derive(Clone, Copy, Debug)]
pub struct Found {
    /// Whether something of it is shown.
    pub is_shown: bool,
    /// Whether each archive gave a harvest.
    pub is_whole: bool,
    /// The second in which it was looked after.
    pub second: u64,
}

/// What readers wish for, and when it was looked after.
#[derive(Drop)]
pub struct Wishes {
    /// The seconds in which an original isn't looked after again.
    pub(crate) again: u64,
    pub(crate) allowance: Allowance,
    pub(crate) queue: Queue,
    /// Originals of which something is shown.
    pub(crate) shown: Table,
    /// Originals of which nothing is.
    pub(crate) unshown: Table,
    /// The originals that rounds look after.
    pub(crate) listed: OriginalSet,
    /// How many wishes there may be for originals of which nothing is shown.
    pub(crate) room: usize,
    /// How many wishes were turned away since that was last told, because there were as many as may be.
    pub(crate) turned_away: u64,
    /// How many wishes came too late since that was last told, because their minute was used up.
    pub(crate) late: u64,
}
