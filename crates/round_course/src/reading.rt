//! The originals that rounds look after are read from their file, and told to the book of wishes.
ghost use Rattle.std.specs.Prelude.{◌≡◌};

use crate::course::Course;
use forgetting::{FileFault, read_file};
use harvest_workers::WalkRules;
use harvester::SocketRuntime;
use part_gates::NamesBase;
use round_standing::book_listed;
use service_ledger::Begins;
use service_log::ListMatter;
use std::io::Write;
use std::rt::Files;

/// What is told of a file that isn't read.
fn matter_of(fault: FileFault) -> ListMatter {
    match fault {
        FileFault::Unread => ListMatter::Unread,
        FileFault::NoMemory => ListMatter::NoMemory,
    }
}

impl<R, P, L> Course<'_, R, P, L>
where
    R: SocketRuntime + Files,
    P: WalkRules + Begins + NamesBase,
    L: Write + Copy,
{
    /// Reads the file of originals, if the settings name one, for the round with this number. Where it can't be read,
    /// the originals of before stay.
    pub(crate) fn read_list(&mut self, number: u64) {
        let settings = self.settings();
        let (Some(path), Some(keys)) = (&settings.wishing.originals_file, self.shared.keys) else {
            return;
        };
        let text = match read_file(self.rt, path.as_str()) {
            Ok(text) => text,
            Err(fault) => return self.console.log_list(number, matter_of(fault)),
        };
        let (alloc, seed) = (self.alloc(), self.seed);
        let originals = &mut self.standing.originals;
        if originals.read(alloc, settings, text, keys, seed).is_err() {
            return self.console.log_list(number, ListMatter::NoMemory);
        }
        self.console.log_bad(number, &self.standing.originals);
    }

    /// Tells the book which originals rounds look after, unless it was told of these. Where memory is refused, those of
    /// before stay.
    pub(crate) fn book_listed(&mut self)
        ensures standing { self.new.standing ≡ record self.old.standing {
          originals
              = record self.old.standing.originals { is_booked = self.new.standing.originals.is_booked };
        } }
        ensures terms { self.new.terms.now.settings ≡ self.old.terms.now.settings }
    {
        let settings = self.settings();
        let Some(keys) = self.shared.keys else {
            return;
        };
        if !self.standing.originals.is_booked {
            let listed = self.standing.list(settings);
            let is_told = book_listed(self.rt, &self.shared.book, listed, keys);
            self.standing.originals.is_booked = is_told;
        }
    }
}
