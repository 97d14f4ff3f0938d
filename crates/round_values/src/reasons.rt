//! How many walks failed for which reason.
ghost use Rattle.std.specs.Prelude.{◌≡◌};
ghost use Rattle.round_values.specs.Reasons.{reason_of, with_one_more};

use harvester::{FetchFault, WalkFault};
use service_log::Reason;

/// How many walks of an archive failed for each reason, in a round.
#[derive(Clone, Copy, Debug, PartialEq, Eq)]
pub(crate) struct Reasons {
    no_answer: u64,
    too_long: u64,
    status: u64,
    encoded: u64,
    no_page: u64,
    too_many_pages: u64,
    too_many_mementos: u64,
    no_memory: u64,
}

/// The reason that a fault is.
pub(crate) fn reason_of(fault: WalkFault) -> Reason
    ensures { result ≡ reason_of fault }
{
    match fault {
        WalkFault::Fetch(FetchFault::TooLong) => Reason::TooLong,
        WalkFault::Fetch(FetchFault::Failed | FetchFault::Broken) => Reason::NoAnswer,
        WalkFault::Fetch(FetchFault::NoMemory) | WalkFault::NoMemory => Reason::NoMemory,
        WalkFault::Status(_) => Reason::Status,
        WalkFault::Encoded => Reason::Encoded,
        WalkFault::Page(_) => Reason::NoPage,
        WalkFault::TooManyPages => Reason::TooManyPages,
        WalkFault::TooManyMementos => Reason::TooManyMementos,
    }
}

impl Reasons {
    pub(crate) const NONE: Reasons = Reasons {
        no_answer: 0,
        too_long: 0,
        status: 0,
        encoded: 0,
        no_page: 0,
        too_many_pages: 0,
        too_many_mementos: 0,
        no_memory: 0,
    };

    /// Counts a walk that failed so.
    pub(crate) fn add(&mut self, fault: WalkFault)
        ensures { self.new ≡ with_one_more (reason_of fault) self.old }
    {
        match reason_of(fault) {
            Reason::NoAnswer => self.no_answer = self.no_answer.saturating_add(1),
            Reason::TooLong => self.too_long = self.too_long.saturating_add(1),
            Reason::Status => self.status = self.status.saturating_add(1),
            Reason::Encoded => self.encoded = self.encoded.saturating_add(1),
            Reason::NoPage => self.no_page = self.no_page.saturating_add(1),
            Reason::TooManyPages => self.too_many_pages = self.too_many_pages.saturating_add(1),
            Reason::TooManyMementos => {
                self.too_many_mementos = self.too_many_mementos.saturating_add(1);
            }
            Reason::NoMemory => self.no_memory = self.no_memory.saturating_add(1),
        }
    }

    /// The reasons, each with how many walks failed for it.
    pub(crate) fn counts(self) -> [(Reason, u64); 8] {
        [
            (Reason::NoAnswer, self.no_answer),
            (Reason::TooLong, self.too_long),
            (Reason::Status, self.status),
            (Reason::Encoded, self.encoded),
            (Reason::NoPage, self.no_page),
            (Reason::TooManyPages, self.too_many_pages),
            (Reason::TooManyMementos, self.too_many_mementos),
            (Reason::NoMemory, self.no_memory),
        ]
    }
}
