//! One entry of a gate into what is published.
ghost use Rattle.std.specs.Prelude.{◌≡◌, ◌⊎◌, true, IfOk, IfErr, IfSome, IsTrue};
ghost use mathlib.Core.List.{IsPrefix};
ghost use Rattle.left_right.specs.Sides.{view as view_of};
ghost use Rattle.published_index.specs.Changes.{batches_of, book_of};
ghost use Rattle.published_index.specs.Marks.{successes, successes_with_last};
ghost use Rattle.published_index.specs.declared.faults.GateFault.TheVariants.{NoMemory as OutOfMemory};
ghost use Rattle.published_index.specs.Passes.{opening_of, told_list};
ghost use Rattle.published_index.specs.Replies.{IsMadeFrom};

use crate::editions::Edition;
use crate::faults::GateFault;
use crate::marks::Mark;
use crate::rules::{EditionReader, Entry};
use core::mem::replace_with;
use delta_parts::{PartAsk, write_part};
use memento_time::NoMemory;
use replica_exchange::Stamped;
use std::alloc::Global;
use timegate::{Reply, Request, answer};
use timemap_writer::Service;

/// Whether the edition has everything that the gate was told.
pub(crate) fn has_told(told: &Option<Mark>, edition: &Edition) -> bool
    requires { IfSome told.now (λ m. opening_of m.seen.book ≡ opening_of (book_of edition.now)) }
    ensures { IsTrue result → IsPrefix (told_list told.now) (batches_of edition.now) }
{
    match told {
        Some(mark) => mark.precedes(&edition.mark),
        None => true,
    }
}

/// The longer one of what was told before and what is told now.
pub(crate) fn longest(told: Option<Mark>, mark: Mark) -> Mark
    requires { IfSome told (λ m. opening_of m.seen.book ≡ opening_of mark.seen.book) }
    ensures opening { opening_of result.seen.book ≡ opening_of mark.seen.book }
    ensures told { IsPrefix (told_list told) (successes result.seen.log) }
    ensures mark { IsPrefix (successes mark.seen.log) (successes result.seen.log) }
    ensures one { (successes result.seen.log ≡ told_list told) ⊎ (successes result.seen.log ≡ successes mark.seen.log) }
{
    match told {
        Some(told) => mark.longer(told),
        None => mark,
    }
}

/// Something that is made of a copy while it is entered.
pub(crate) trait Makes {
    type Made;

    ghost use Rattle.replica_exchange.specs.Stamps.{StampedState};

    /// Holds for what may be made of a copy.
    ghost is_made: { Self → StampedState → Self.Made → Type 0 };

    /// Makes it.
    fn make(&self, alloc: Global, stamped: &Stamped) -> Result<Self::Made, NoMemory>
        ensures { IfOk result (is_made self.now stamped.now) };
}

/// The reply to a request.
#[derive(Drop)]
pub(crate) struct MadeReply<'a> {
    pub(crate) service: &'a Service,
    pub(crate) request: &'a Request,
}

impl<'a> Makes for MadeReply<'a> {
    ghost use Rattle.std.specs.Prelude.{◌≡◌};
    ghost use Rattle.timegate.specs.Reply.{reply_of};

    type Made = Reply;

    ghost is_made = { λ it s made. made ≡ reply_of it.service.now s it.request.now };

    fn make(&self, alloc: Global, stamped: &Stamped) -> Result<Reply, NoMemory> {
        answer(alloc, self.service, stamped, self.request)
    }
}

/// The text of a part of a delta.
#[derive(Drop)]
pub(crate) struct MadePart<'a> {
    pub(crate) ask: &'a PartAsk,
    pub(crate) room: usize,
}

impl<'a> Makes for MadePart<'a> {
    ghost use Rattle.delta_parts.specs.Asks.{cursor_of, place_of};
    ghost use Rattle.delta_parts.specs.PartText.{IsTextFrom};

    type Made = Vec<u8>;

    ghost is_made = { λ it s text. IsTextFrom text.items s (cursor_of it.ask.now) (place_of it.ask.now) };

    fn make(&self, alloc: Global, stamped: &Stamped) -> Result<Vec<u8>, NoMemory> {
        write_part(
            alloc,
            stamped,
            self.ask.cursor(),
            self.ask.behind(),
            self.room,
        )
    }
}

/// Enters, makes what is asked for, calls `then`, and leaves. Returns the edition's mark and what was made. `None` if
/// no edition that has what was told can be entered; no run shows an edition that lacks it.
pub(crate) fn ask<M: Makes, F: FnOnce()>(
    alloc: Global,
    told: &Option<Mark>,
    reader: EditionReader,
    maker: &M,
    then: F,
) -> (EditionReader, Option<(Mark, Result<M::Made, GateFault>)>)
    requires then { F.IsAlwaysCallable then }
    requires named { (view_of reader.place).named ≡ true }
    requires opening { IfSome told.now (λ m. opening_of m.seen.book ≡ (view_of reader.place).opening) }
    ensures same { ((view_of result.0.place).named ≡ true)
        × ((view_of result.0.place).opening ≡ (view_of reader.place).opening)
        × ((view_of result.0.place).incarnation ≡ (view_of reader.place).incarnation) }
    ensures seen { IsPrefix (view_of reader.place).front (view_of result.0.place).front }
    ensures mark { IfSome result.1 (λ made. successes_with_last made.0.seen.log ≡ (view_of result.0.place).front) }
    ensures told { IfSome result.1 (λ _. IsPrefix (told_list told.now) (view_of result.0.place).front) }
    ensures made { IfSome result.1 (λ made. IfOk made.1 (IsMadeFrom (M.is_made maker.now)
        (view_of reader.place).incarnation (view_of result.0.place).front)) }
    ensures fault { IfSome result.1 (λ made. IfErr made.1 (λ fault. fault ≡ OutOfMemory)) }
{
    match reader.enter_as::<Entry>() {
        Ok(reading) => {
            let edition = reading.get();
            if !has_told(told, edition) {
                return (reading.leave(), None);
            }
            let mark = edition.mark.copy();
            match maker.make(alloc, &edition.stamped) {
                Ok(made) => {
                    then();
                    (reading.leave(), Some((mark, Ok(made))))
                }
                Err(_) => (reading.leave(), Some((mark, Err(GateFault::NoMemory)))),
            }
        }
        Err(reader) => (reader, None),
    }
}

/// `ask`, with the reader in its place.
pub(crate) fn ask_in_place<M: Makes, F: FnOnce()>(
    alloc: Global,
    told: &Option<Mark>,
    reader: &mut EditionReader,
    maker: &M,
    then: F,
) -> Option<(Mark, Result<M::Made, GateFault>)>
    requires then { F.IsAlwaysCallable then }
    requires named { (view_of reader.old.place).named ≡ true }
    requires opening { IfSome told.now (λ m. opening_of m.seen.book ≡ (view_of reader.old.place).opening) }
    ensures same { ((view_of reader.new.place).named ≡ true)
        × ((view_of reader.new.place).opening ≡ (view_of reader.old.place).opening)
        × ((view_of reader.new.place).incarnation ≡ (view_of reader.old.place).incarnation) }
    ensures seen { IsPrefix (view_of reader.old.place).front (view_of reader.new.place).front }
    ensures mark { IfSome result (λ made. successes_with_last made.0.seen.log ≡ (view_of reader.new.place).front) }
    ensures told { IfSome result (λ _. IsPrefix (told_list told.now) (view_of reader.new.place).front) }
    ensures made { IfSome result (λ made. IfOk made.1 (IsMadeFrom (M.is_made maker.now)
        (view_of reader.old.place).incarnation (view_of reader.new.place).front)) }
    ensures fault { IfSome result (λ made. IfErr made.1 (λ fault. fault ≡ OutOfMemory)) }
{
    replace_with(reader, then, |reader, then| {
        ask(alloc, told, reader, maker, then)
    })
}
