//! Gates, which answer from what is published.
ghost use Rattle.std.specs.Prelude.{◌≡◌, IfOk, IfErr, OnOk};
ghost use Rattle.timegate.specs.Reply.{reply};
ghost use Rattle.timegate.specs.Route.{IsOfTaken};
ghost use Rattle.published_index.specs.Batches.{fold_of};
ghost use Rattle.published_index.specs.Passes.{Advances, Learns, AfterFault};
ghost use Rattle.published_index.specs.Replies.{IsPartFrom, IsReplyFrom};

use crate::asking::{MadePart, MadeReply, ask_in_place, longest};
use crate::faults::GateFault;
use crate::marks::Mark;
use crate::receipts::Receipt;
use crate::rules::EditionReader;
use delta_parts::PartAsk;
use std::alloc::Global;
use std::marker::Model;
use timegate::{Reply, Request};
use timemap_writer::Service;

/// Answers requests from what is published, and never waits. It can be moved to a thread of its own.
///
/// Contracts see a gate as its opening and incarnation, the base of its service, and a pass. The pass has the front,
/// which is the list of batches that the gate's last reply was made from, and the longest list that it was told since
/// then.
#[derive(Drop)]
pub struct Gate {
    pub(crate) alloc: Global,
    pub(crate) reader: EditionReader,
    pub(crate) service: Service,
    /// The mark of the edition that the last reply was made from.
    pub(crate) seen: Mark,
    /// The longest of the receipts that were learnt since then.
    pub(crate) told: Option<Mark>,
}

impl Model for Gate {
    ghost use Rattle.std.specs.Prelude.{◌≡◌, true, IfSome};
    ghost use mathlib.Core.List.{IsPrefix};
    ghost use Rattle.left_right.specs.Sides.{view as view_of};
    ghost use Rattle.published_index.specs.Marks.{successes_with_last};
    ghost use Rattle.published_index.specs.Passes.{told_list, opening_of};
    ghost use Rattle.published_index.specs.Views.{GateView};
    ghost use Rattle.std.specs.Coded.{codes};
    ghost use Rattle.memento_index.specs.contracts.merge.Merge as merge;

    ghost Value = { GateView };

    ghost coded = { Prim.hlevel (codes, merge.the_row.coded) };

    ghost view = { λ g. record {
      opening = (view_of g.reader.place).opening;
      incarnation = (view_of g.reader.place).incarnation;
      base = g.service;
      pass = record { front = successes_with_last g.seen.seen.log; told = told_list g.told };
    } };

    ghost invariant = { λ g. ((view_of g.reader.place).named ≡ true)
        × IsPrefix (successes_with_last g.seen.seen.log) (view_of g.reader.place).front
        × IfSome g.told (λ m. opening_of m.seen.book ≡ (view_of g.reader.place).opening) };
}

impl Gate {
    /// The reply to a request, made from a front that begins with everything that this gate has answered from and was
    /// told.
    ///
    /// `NoMemory` if the reply couldn't be made; what this gate has seen may have become longer. `Closed` if nothing
    /// can be entered, because the merger was closed. Enters once, which takes no memory and no lock.
    pub fn answer(&mut self, request: &Request) -> Result<Reply, GateFault>
        ensures same { self.new ≡ record self.old { pass = self.new.pass } }
        ensures advances { OnOk result (Advances self.old.pass self.new.pass) }
        ensures reply { IsOfTaken request.now →
            IfOk result (λ made. made ≡ reply self.old.base (fold_of self.new.pass.front) request.now) }
        // Deltas are those of the front's merges in the opening's incarnation.
        ensures stamped { IfOk result
            (IsReplyFrom self.old.base self.old.incarnation self.new.pass.front request.now) }
        ensures no_memory { result ≡ Err GateFault.NoMemory → Advances self.old.pass self.new.pass }
        ensures closed { result ≡ Err GateFault.Closed → self.new ≡ self.old }
    {
        self.answer_then(request, || ())
    }

    /// Like `answer`, but calls `then` once the reply is made and before the entry ends. Until the entry ends, other
    /// gates answer, and a publish may have to wait.
    pub fn answer_then<F: FnOnce()>(
        &mut self,
        request: &Request,
        then: F,
    ) -> Result<Reply, GateFault>
        requires { F.IsAlwaysCallable then }
        ensures same { self.new ≡ record self.old { pass = self.new.pass } }
        ensures reply { IfOk result (λ made. Advances self.old.pass self.new.pass
            × IsReplyFrom self.old.base self.old.incarnation self.new.pass.front request.now made) }
        ensures refused { IfErr result (λ fault. AfterFault fault self.old.pass self.new.pass) }
    {
        let maker = MadeReply {
            service: &self.service,
            request,
        };
        let Some((mark, made)) = ask_in_place(
            self.alloc,
            &self.told,
            &mut self.reader,
            &maker,
            then,
        ) else {
            return Err(GateFault::Closed);
        };
        self.seen = mark;
        self.told = None;
        made
    }

    /// The text of a part of a delta, made as `answer` makes a reply: the entries behind a place, as many as fill so
    /// many bytes.
    pub fn answer_part(&mut self, ask: &PartAsk, room: usize) -> Result<Vec<u8>, GateFault>
        ensures same { self.new ≡ record self.old { pass = self.new.pass } }
        ensures part { IfOk result (λ text. Advances self.old.pass self.new.pass
            × IsPartFrom self.old.incarnation self.new.pass.front ask.now text) }
        ensures refused { IfErr result (λ fault. AfterFault fault self.old.pass self.new.pass) }
    {
        let maker = MadePart { ask, room };
        let Some((mark, made)) = ask_in_place(
            self.alloc,
            &self.told,
            &mut self.reader,
            &maker,
            || (),
        ) else {
            return Err(GateFault::Closed);
        };
        self.seen = mark;
        self.told = None;
        made
    }

    /// Learns a receipt: from now on, this gate's replies are made from fronts that begin with the receipt's list.
    /// Takes no memory.
    pub fn learn(&mut self, receipt: Receipt)
        requires { receipt.opening ≡ self.old.opening }
        ensures same { self.new ≡ record self.old { pass = self.new.pass } }
        ensures learns { Learns self.old.pass receipt.batches self.new.pass }
    {
        let Receipt { mark } = receipt;
        self.told = Some(longest(self.told.take(), mark));
    }
}
