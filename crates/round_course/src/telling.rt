//! An operator is told what a round left out, and the book of wishes how much room there is.
ghost use Rattle.std.specs.Prelude.{◌≡◌};

use crate::course::Course;
use harvest_workers::WalkRules;
use harvester::SocketRuntime;
use part_gates::NamesBase;
use round_standing::book_room;
use service_ledger::Begins;
use service_log::{Matter, Want};
use service_status::WishCounts;
use std::io::Write;
use std::rt::Files;

impl<R, P, L> Course<'_, R, P, L>
where
    R: SocketRuntime + Files,
    P: WalkRules + Begins + NamesBase,
    L: Write + Copy,
{
    /// Logs how many harvests weren't taken since the last round, if there were some.
    pub(crate) fn log_left_out(&mut self, round: u64)
        ensures standing { self.new.standing ≡ record self.old.standing { left_out = 0 } }
        ensures ledger { self.new.ledger.now.merger ≡ self.old.ledger.now.merger }
    {
        let count = self.standing.take_left_out();
        self.console.log_wanting(round, count, Want::Clock);
    }

    /// Logs jobs that weren't handed out, since their archive was dormant.
    pub(crate) fn log_left(&self) {
        let settings = self.settings();
        for place in 0..settings.archives.len() {
            let left = self.standing.schedule.left(place);
            if left > 0 {
                let matter = Matter::Left(left as u64);
                self.console
                    .log_archive(settings, self.standing.number, place, matter);
            }
        }
    }

    /// Logs how many wishes were turned away since the last round, if any were.
    pub(crate) fn log_turned_away(&self, number: u64) {
        let count = self.shared.book.turned_away(self.rt);
        if count > 0 {
            self.console.log_wanting(number, count, Want::Room);
            self.console.show_wishes(WishCounts {
                turned_away: count,
                ..WishCounts::NONE
            });
        }
    }

    /// Logs how many harvests of wishes weren't kept for lack of room since the last round, if some weren't.
    pub(crate) fn log_dropped(&mut self, round: u64) {
        let count = self.standing.take_dropped();
        self.console.log_wanting(round, count, Want::Mementos);
    }

    /// Tells the book how many more unknown originals may be wished for, by what is published.
    pub(crate) fn book_room(&self) {
        let settings = self.settings();
        let listed = self.standing.list(settings).len();
        let (book, merger) = (&self.shared.book, self.ledger.merger());
        let room = book_room(self.rt, book, settings, listed, merger);
        if let (Some(room), Some(wanted)) = (room, settings.wishing.wanted) {
            self.console.show_room(room, wanted.get());
        }
    }
}
