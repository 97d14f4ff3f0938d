//! What a round comes to: what was appended in it, and whether that is published.
ghost use Rattle.std.specs.Prelude.{◌≡◌, IfOk, OnErr, OnOk, Some, false, true};
ghost use Rattle.std.specs.FinMap as map;
ghost use Rattle.replica_exchange.specs.CursorRule.{fits};
ghost use Rattle.published_index.specs.Cursors.{IsTaken, with_delta, with_publish};
ghost use Rattle.published_index.specs.declared.mergers.TakenAs.TheVariants.{News};
ghost use Rattle.service_status.specs.Counts.{one_more};
ghost use Rattle.round_values.specs.Lines.{round_words};
ghost use Rattle.round_values.specs.Counts.{round_after, with_harvest};
ghost use Rattle.round_values.specs.Pulls.{Pulls, PullsNothing, PullsSome, with_pull, with_taken};

use crate::logs::Log;
use harvest_lattice::State;
use harvester::SocketRuntime;
use memento_index::Merge;
use memento_time::Clean;
use outgoing_requests::{Patience, pull_within};
use published_index::{Merger, TakenAs};
use replica_exchange::{Delta, TakeFault};
use service_log::{Line, PeerFault};
use service_settings::Settings;
use std::fmt;
use std::io::Write;

/// The outcome of a round.
#[derive(Clone, Copy, Debug, PartialEq, Eq)]
pub struct Round {
    /// How many jobs were tried.
    pub jobs: u64,
    /// How many harvests were appended, whole and part ones.
    pub harvests: u64,
    /// How many deltas of peers were appended.
    pub pulls: u64,
    /// Whether what was appended is published; otherwise it stays pending.
    pub published: bool,
    /// Whether something was appended since the last publish.
    pub pending: bool,
}

impl fmt::Display for Round {
    ghost output = { λ round. Some (round_words round) };

    fn fmt<W: fmt::Write>(&self, f: &mut fmt::Formatter<W>) -> fmt::Result {
        let end = if self.published { "published" } else { "kept" };
        write!(
            f,
            "jobs {} harvests {} pulls {} {end}",
            self.jobs, self.harvests, self.pulls
        )
    }
}

impl Round {
    /// A round in which nothing was done yet.
    pub const NONE: Round = Round {
        jobs: 0,
        harvests: 0,
        pulls: 0,
        published: false,
        pending: false,
    };

    /// Counts a job that was tried.
    pub fn add_job(&mut self)
        ensures { self.new ≡ record self.old { jobs = one_more self.old.jobs } }
    {
        self.jobs = self.jobs.saturating_add(1);
    }

    /// Counts a harvest that was appended, and that is to be published.
    pub fn add_harvest(&mut self)
        ensures { self.new ≡ with_harvest self.old }
    {
        self.harvests = self.harvests.saturating_add(1);
        self.pending = true;
    }

    /// Publishes what is pending, in the round with this number. What is refused stays pending.
    pub fn publish<R, L>(&mut self, rt: &R, number: u64, merger: &mut Merger, log: Log<L>)
    where
        R: SocketRuntime,
        L: Write + Copy,
        ensures published { self.new.published ≡ true → merger.new ≡ with_publish merger.old }
        ensures refused { self.new.published ≡ false → merger.new ≡ merger.old }
        ensures round { self.new ≡ round_after self.new.published self.old }
    {
        match merger.publish(rt) {
            Ok(_) => {
                self.published = true;
                self.pending = false;
                // What comes next begins with nothing of this in the merger's log.
                merger.settle(rt);
            }
            Err(fault) => {
                self.published = false;
                let line = Line::Unpublished {
                    round: number,
                    fault,
                };
                log.tell(rt.alloc(), line);
            }
        }
    }

    /// Appends what the peer with this number has learnt since the last pull, whatever it has learnt, if it answers
    /// with a delta that follows on the held cursor. Otherwise the cursor stays, and the next round asks from it again.
    pub fn pull<R>(
        &mut self,
        rt: &R,
        merger: &mut Merger,
        number: u64,
        peer: &Clean,
        patience: Patience,
    ) -> Result<TakenAs, PeerFault>
    where
        R: SocketRuntime,
        ensures ok { OnOk result (Pulls number self.old merger.old self.new merger.new) }
        ensures news { IfOk result (λ taken. taken ≡ News) }
        ensures err { OnErr result (PullsNothing self.old merger.old self.new merger.new) }
    {
        match pull_within(rt, patience, peer, merger.cursor(number)) {
            Ok(delta) => self.append_delta(merger, number, &delta),
            Err(fault) => Err(PeerFault::Pull(fault)),
        }
    }

    /// Appends a delta of this peer, if it follows on the held cursor. It counts as news, also if all of it was
    /// published.
    pub fn append_delta(
        &mut self,
        merger: &mut Merger,
        number: u64,
        delta: &Delta,
    ) -> Result<TakenAs, PeerFault>
        ensures ok { OnOk result (merger.new ≡ with_delta merger.old number delta.now) }
        ensures fits { OnOk result (fits (map.get merger.old.cursors number) delta.now ≡ true) }
        ensures counted { OnOk result (self.new ≡ with_pull self.old) }
        ensures news { IfOk result (λ taken. taken ≡ News) }
        ensures err { OnErr result (PullsNothing self.old merger.old self.new merger.new) }
    {
        match merger.append_delta(number, delta) {
            Ok(()) => {
                self.count_pull();
                Ok(TakenAs::News)
            }
            Err(fault) => Err(PeerFault::Take(fault)),
        }
    }

    /// Takes a delta of this peer, if it follows on the held cursor. If all of it was published, it isn't appended and
    /// doesn't count: the peer's cursor alone is moved.
    pub fn take_delta(
        &mut self,
        merger: &mut Merger,
        number: u64,
        delta: &Delta,
    ) -> Result<TakenAs, PeerFault>
        ensures merger { IfOk result (λ taken. IsTaken taken merger.old number delta.now merger.new) }
        ensures fits { OnOk result (fits (map.get merger.old.cursors number) delta.now ≡ true) }
        ensures counted { IfOk result (λ taken. self.new ≡ with_taken taken self.old) }
        ensures err { OnErr result (PullsNothing self.old merger.old self.new merger.new) }
    {
        let taken = match merger.take_delta(number, delta) {
            Ok(taken) => taken,
            Err(fault) => return Err(PeerFault::Take(fault)),
        };
        if matches!(taken, TakenAs::News) {
            self.count_pull();
        }
        Ok(taken)
    }

    /// Appends what was taken of a peer's delta. The peer's cursor stays, since it says that all is known up to there.
    pub fn take_some(&mut self, merger: &mut Merger, state: State) -> Result<TakenAs, PeerFault>
        ensures ok { OnOk result (PullsSome state self.old merger.old self.new merger.new) }
        ensures news { IfOk result (λ taken. taken ≡ News) }
        ensures err { OnErr result (PullsNothing self.old merger.old self.new merger.new) }
    {
        match merger.append(&Merge::State(state)) {
            Ok(()) => {
                self.count_pull();
                Ok(TakenAs::News)
            }
            Err(_) => Err(PeerFault::Take(TakeFault::NoMemory)),
        }
    }

    /// Counts a delta that was appended, and that is to be published.
    fn count_pull(&mut self)
        ensures { self.new ≡ with_pull self.old }
    {
        self.pulls = self.pulls.saturating_add(1);
        self.pending = true;
    }
}
