//! Mergers, which publish.
ghost use Rattle.std.specs.Prelude.{◌≡◌, ◌∷◌, [], ◌++◌, false, true, IfOk, IfErr, OnOk, OnErr, option_copied};
ghost use Rattle.std.specs.FinMap as map;
ghost use Rattle.harvest_lattice.specs.Knowledge.{lat};
ghost use Rattle.replica_exchange.specs.CursorRule as rule;
ghost use Rattle.replica_exchange.specs.Stamps.{state_after};
ghost use Rattle.published_index.specs.Batches.{fold_of, merges_of};
ghost use Rattle.published_index.specs.Cursors.{IsTaken, receipt_of, with_merge, with_delta, with_publish};
ghost use Rattle.published_index.specs.Events.{AreNumbered, RunsAsEvents};

use crate::faults::PublishRefused;
use crate::marks::{Head, Mark};
use crate::receipts::Receipt;
use crate::rules::EditionWriter;
use crate::writing::{add, catch_up, offer, show};
use core::mem::replace_with;
use harvest_lattice::{Entry, State};
use memento_index::Merge;
use memento_time::{ArchiveName, NoMemory, Original};
use replica_exchange::{Cursor, Cursors, Delta, TakeFault};
use std::alloc::Global;
use std::marker::{Brand, Model};
use std::sync::Wait;

/// What a delta was that a merger took.
#[derive(Clone, Copy, Debug, PartialEq, Eq)]
pub enum TakenAs {
    /// It has something that wasn't published. It was appended.
    News,
    /// All of it was published. The peer's cursor alone was moved.
    Known,
}

/// Takes in merges, and publishes all pending ones at once. Contracts see a merger as the list of batches that were
/// published, one for each publish that succeeded; the batch of pending merges; and for each peer the cursor that says
/// how far the peer's merges are known.
///
/// A merger isn't `Drop`, since ending it may wait for readers. End it with `close`.
pub struct Merger {
    pub(crate) alloc: Global,
    pub(crate) writer: EditionWriter,
    pub(crate) head: Head,
    /// The mark of everything that was attempted.
    pub(crate) mark: Mark,
    /// The mark of the log as it was when a publish last succeeded. A gate that learnt of a later attempt would find no
    /// copy that has it.
    pub(crate) last_success: Mark,
    pub(crate) cursors: Cursors,
}

impl Model for Merger {
    ghost use Rattle.std.specs.Prelude.{◌≡◌, drop};
    ghost use Rattle.published_index.specs.Changes.{IsWhole, merges_in, batches_of, book_of};
    ghost use Rattle.published_index.specs.Marks.{successes, head_of};
    ghost use Rattle.published_index.specs.Passes.{opening_of};
    ghost use Rattle.published_index.specs.Views.{MergerView, coded_held};
    ghost use Rattle.std.specs.Coded.{codes};
    ghost use Rattle.memento_index.specs.contracts.merge.Merge as merge;

    ghost Value = { MergerView };

    ghost coded = { Prim.hlevel (codes, merge.the_row.coded, coded_held) };

    ghost view = { λ m. record {
      opening = opening_of m.mark.seen.book;
      published = successes m.mark.seen.log;
      pending = merges_in (drop m.writer.behind m.writer.log.items);
      cursors = m.cursors;
    } };

    ghost invariant = { λ m. (m.head ≡ head_of m.mark.seen.book)
        × (book_of m.writer.desk.shown.value ≡ m.mark.seen.book)
        × (batches_of m.writer.desk.shown.value ≡ successes m.mark.seen.log)
        × IsWhole m.writer.desk.shown.value
        × (m.last_success.seen.book ≡ m.mark.seen.book)
        × (successes m.last_success.seen.log ≡ successes m.mark.seen.log) };
}

impl Merger {
    /// Appends a copy of the merge to what is pending. The copy shares the published list of an entry whose mementos
    /// are the same in the merge, so that a round that brings nothing new keeps no list of its own.
    pub fn append(&mut self, merge: &Merge) -> Result<(), NoMemory>
        ensures ok { OnOk result (self.new ≡ with_merge self.old merge.now) }
        ensures err { OnErr result (self.new ≡ self.old) }
    {
        let shown = self.writer.published().stamped.index().state();
        let copy = merge.shared_with(shown)?;
        add(&mut self.writer, self.alloc, copy)
    }

    /// Appends a copy of the state of a peer's delta to what is pending, and moves the peer's cursor, if the delta
    /// starts at the beginning or within what the cursor reaches. The copy shares lists as that of `append` does.
    pub fn append_delta(&mut self, peer: u64, delta: &Delta) -> Result<(), TakeFault>
        ensures ok { OnOk result (self.new ≡ with_delta self.old peer delta.now) }
        ensures fits { OnOk result (rule.fits (map.get self.old.cursors peer) delta.now ≡ true) }
        ensures cause { IfErr result (λ fault. rule.IsTakeCause fault (map.get self.old.cursors peer) delta.now) }
        ensures err { OnErr result (self.new ≡ self.old) }
    {
        if !self.cursors.fits(peer, delta) {
            let held = self.cursors.held(peer);
            return Err(TakeFault::Gap { held });
        }
        let shown = self.writer.published().stamped.index().state();
        let (Ok(state), Ok(mut moved)) = (shown.share_state(&delta.state), self.cursors.try_clone())
        else {
            return Err(TakeFault::NoMemory);
        };
        moved.advance(peer, delta)?;
        // What was appended can't be taken back, so the cursors move last.
        let Ok(()) = add(&mut self.writer, self.alloc, Merge::State(state)) else {
            return Err(TakeFault::NoMemory);
        };
        self.cursors = moved;
        Ok(())
    }

    /// Takes a peer's delta, if it starts at the beginning or within what the peer's cursor reaches. A delta that has
    /// something that isn't published is appended as `append_delta` does. For any other delta the peer's cursor alone
    /// is moved: that makes no merge, which would be told to peers. So mergers that get nothing but each other's deltas
    /// fall silent (`exchanges_have_a_last_merge`).
    ///
    /// Takes time in the size of the delta, as far as its first entry that isn't published if it is appended.
    pub fn take_delta(&mut self, peer: u64, delta: &Delta) -> Result<TakenAs, TakeFault>
        ensures ok { IfOk result (λ taken. IsTaken taken self.old peer delta.now self.new) }
        ensures fits { OnOk result (rule.fits (map.get self.old.cursors peer) delta.now ≡ true) }
        ensures cause { IfErr result (λ fault. rule.IsTakeCause fault (map.get self.old.cursors peer) delta.now) }
        ensures err { OnErr result (self.new ≡ self.old) }
    {
        if !delta.state.le(self.published_state()) {
            self.append_delta(peer, delta)?;
            return Ok(TakenAs::News);
        }
        self.cursors.take(peer, delta)?;
        Ok(TakenAs::Known)
    }

    /// The state of everything that was published, and of nothing that is pending. While it is borrowed, nothing can be
    /// appended or published, and no gate waits.
    pub fn published_state(&self) -> &State
        ensures { result.now ≡ lat (fold_of self.now.published) }
    {
        self.writer.published().stamped.index().state()
    }

    /// The cursor that is held for a peer.
    pub fn cursor(&self, peer: u64) -> Option<Cursor>
        ensures { result ≡ map.get self.now.cursors peer }
    {
        self.cursors.held(peer)
    }

    /// The entry of an archive and original in the state of all that was published, if there is one.
    pub fn published_entry(&self, archive: ArchiveName, original: &Original) -> Option<&Entry>
        ensures { option_copied result
            ≡ map.get (state_after (merges_of self.now.published)) (archive, original.now) }
    {
        let shown = self.writer.published().stamped.index().state();
        shown.entry(archive, original)
    }

    /// Whether something may be pending: after a refused publish that is said even where nothing is.
    pub fn may_have_pending(&self) -> bool
        ensures { result ≡ false → self.now.pending ≡ [] }
    {
        self.writer.has_pending_operations()
    }

    /// Makes everything that is pending into one batch, which may be empty, at the end of the published list, and
    /// returns a receipt of the whole list. Gates show all of the batch or nothing of it. The batch is the events of
    /// its merges (`a_publish_is_events`), for which enough numbers are left.
    ///
    /// It is refused if a growth is refused, and if there are more merges than a 64-bit number can count. It may wait
    /// for gates that are about to answer from what was published before. Takes time in what is pending, and in what
    /// the previous publish took in unless `settle` was called since.
    pub fn publish<R: Wait>(&mut self, rt: &R) -> Result<Receipt, PublishRefused>
        ensures ok { OnOk result (self.new ≡ with_publish self.old) }
        ensures receipt { IfOk result (λ told. told ≡ receipt_of self.new) }
        ensures numbered { OnOk result (AreNumbered self.new.published) }
        ensures events { OnOk result (RunsAsEvents self.old.published self.old.pending) }
        ensures err { OnErr result (self.new ≡ self.old) }
    {
        if offer::<Brand>(&mut self.writer, &self.head, &mut self.mark).is_err() {
            return Err(PublishRefused);
        }
        if replace_with(&mut self.writer, rt, show::<R>).is_err() {
            return Err(PublishRefused);
        }
        self.mark = self.mark.record_success(rt, &self.head);
        self.last_success = self.mark.copy();
        Ok(self.tell())
    }

    /// Has the copy that gates no longer enter take in what the last publish showed, which the log otherwise keeps for
    /// the next publish. Nothing else changes: it does nothing while a merge is pending, and where memory is refused
    /// the next publish brings that copy up. It may wait for gates that are about to answer.
    pub fn settle<R: Wait>(&mut self, rt: &R)
        ensures { self.new ≡ self.old }
    {
        replace_with(&mut self.writer, rt, catch_up::<R>);
    }

    /// A receipt of the whole published list.
    pub fn tell(&mut self) -> Receipt
        ensures same { self.new ≡ self.old }
        ensures receipt { result ≡ receipt_of self.old }
    {
        Receipt {
            mark: self.last_success.copy(),
        }
    }

    /// Ends the merger: what is pending is lost, and gates answer `Closed`. It may wait for gates that are about to
    /// answer.
    pub fn close<R: Wait>(self, rt: &R) {
        let Merger {
            alloc: _,
            writer,
            head: _,
            mark: _,
            last_success: _,
            cursors: _,
        } = self;
        drop(writer.take(rt));
    }
}
