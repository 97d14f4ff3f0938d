//! Replicas in one memory.
ghost use Rattle.std.specs.Prelude.{IfSome, IfNone};
ghost use Rattle.replica_world.specs.Places.{IsPlaceOf, IsNoNumber};

use crate::message::SentMessage;
use crate::replica::KeptReplica;
use harvest_lattice::Harvest;
use memento_index::Merge;
use memento_time::{NoMemory, Octets};
use replica_events::{Event, EventAnswer, Refused, Said};
use replica_exchange::{Cursor, Delta, StampFault, read_delta, read_state, write_delta};
use std::alloc::Global;
use std::marker::Model;
use timegate::{Request, answer};
use timemap_writer::Service;

/// Replicas of one service, the messages that they have sent, and the last incarnation that any of them began. Replicas
/// and messages are numbered from 1.
#[derive(Debug, Drop)]
pub struct World {
    alloc: Global,
    service: Service,
    replicas: Vec<KeptReplica>,
    messages: Vec<SentMessage>,
    last: u64,
}

impl Model for World {
    ghost use Rattle.replica_world.specs.Stands.{Kept, coded_kept_world};

    ghost Value = { Kept };

    ghost coded = { coded_kept_world };

    ghost view = { λ w. record {
      base = w.service;
      replicas = w.replicas.items;
      messages = w.messages.items;
      last = w.last;
    } };
}

/// The place of a number that counts from 1.
fn place_of(number: usize, count: usize) -> Option<usize>
    ensures found { IfSome result (IsPlaceOf number count) }
    ensures none { IfNone result (IsNoNumber number count) }
{
    if number == 0 || number > count {
        return None;
    }
    Some(number - 1)
}

impl World {
    ghost use Rattle.std.specs.Prelude.{◌≡◌, ◌↔◌, ◌<◌, ◌≤◌, ◌++◌, ◌∷◌, [], length, true, IfOk, IfErr, OnOk, OnErr};
    ghost use Rattle.std.specs.Prelude.{IsErrOf, Some, None};
    ghost use Rattle.replica_world.specs.Places.{IsPlaceOf, IsNoNumber};
    ghost use Rattle.std.specs.FinMap as fmap;
    ghost use Rattle.memento_index.specs.declared.merge.Merge.TheVariants as merge;
    ghost use Rattle.replica_exchange.specs.CursorRule.{fits, taken_from};
    ghost use Rattle.replica_events.specs.World.{at_number, start};
    ghost use Rattle.replica_events.specs.declared.event.Refused.TheVariants as refused;
    ghost use Rattle.replica_world.specs.Keeping.{IsJoinCause};
    ghost use Rattle.replica_world.specs.Stands.{Stands, Steps, Runs, MergedAt, kept_at};
    ghost use Rattle.replica_events.specs.declared.event.Event.TheVariants as event;

    /// A world of `replicas` empty replicas of this service that have sent nothing. Their incarnations are 1 to
    /// `replicas`.
    pub fn new(alloc: Global, replicas: usize, service: Service) -> Result<World, NoMemory>
        requires { (1 ≤ replicas) × (replicas ≤ 16) }
        ensures stands { IfOk result (λ world. Stands world (start replicas)) }
        ensures base { IfOk result (λ world. world.base ≡ service) }
    {
        let mut all = Vec::with_capacity(alloc, replicas)?;
        for place in 0..replicas {
            all.push(KeptReplica::new(alloc, place as u64 + 1))?;
        }
        Ok(World {
            alloc,
            service,
            replicas: all,
            messages: Vec::new(alloc),
            last: replicas as u64,
        })
    }

    /// Runs one event. A refused event changes nothing. The refusals, tested in this order: `NoReplica` and `NoMessage`
    /// if a number names none, `BadState` if bytes aren't the text of a state in either format or are too many, `Gap`
    /// if a message leaves out merges of its sender that the replica doesn't know, and `NumbersSpent` if no number is
    /// left for a merge or an incarnation. A restart takes no memory.
    pub fn step(&mut self, event: &Event) -> EventAnswer
        ensures steps { Steps self.old event.now result self.new }
        ensures refused { OnErr result (self.new ≡ self.old) }
    {
        match event {
            Event::Take(number, harvest) => self.take(*number, harvest),
            Event::Send(number) => self.send(*number),
            Event::SendFrom(number, merges) => self.send_from(*number, *merges),
            Event::Deliver(number, message) => self.deliver(*number, *message),
            Event::Receive(number, bytes) => self.receive(*number, bytes.as_slice()),
            Event::Restart(number) => self.restart(*number),
            Event::Ask(number, request) => self.ask(*number, request),
        }
    }

    /// Runs events one after the other, and answers each. An error means that none was run.
    pub fn run(&mut self, events: &[Event]) -> Result<Vec<EventAnswer>, NoMemory>
        ensures ok { IfOk result (λ answers. Runs self.old events.now answers.items self.new) }
        ensures err { OnErr result (self.new ≡ self.old) }
    {
        let mut answers = Vec::with_capacity(self.alloc, events.len())?;
        for event in events {
            let answer = self.step(event);
            answers.push_reserved(answer);
        }
        Ok(answers)
    }

    fn take(&mut self, number: usize, harvest: &Harvest) -> EventAnswer
        ensures steps { Steps self.old (event.Take number harvest.now) result self.new }
        ensures refused { OnErr result (self.new ≡ self.old) }
    {
        let place = self.replica_place(number)?;
        let merge = Merge::Harvest(harvest.try_clone()?);
        self.absorb(place, &merge)?;
        Ok(Said::Taken)
    }

    fn send(&mut self, number: usize) -> EventAnswer
        ensures steps { Steps self.old (event.Send number) result self.new }
        ensures refused { OnErr result (self.new ≡ self.old) }
    {
        let place = self.replica_place(number)?;
        let text = write_delta(self.alloc, &self.replicas[place].stamped, None)?;
        let count = self.push_message(number, text)?;
        Ok(Said::Sent(count))
    }

    fn send_from(&mut self, number: usize, merges: u64) -> EventAnswer
        ensures steps { Steps self.old (event.SendFrom number merges) result self.new }
        ensures refused { OnErr result (self.new ≡ self.old) }
    {
        let place = self.replica_place(number)?;
        let stamped = &self.replicas[place].stamped;
        let cursor = Cursor {
            incarnation: stamped.incarnation(),
            number: merges,
        };
        let text = write_delta(self.alloc, stamped, Some(cursor))?;
        let count = self.push_message(number, text)?;
        Ok(Said::Sent(count))
    }

    fn deliver(&mut self, number: usize, message: usize) -> EventAnswer
        ensures steps { Steps self.old (event.Deliver number message) result self.new }
        ensures refused { OnErr result (self.new ≡ self.old) }
    {
        let place = self.replica_place(number)?;
        let message = self.message(message)?;
        let sender = message.sender as u64;
        let delta = read_delta(self.alloc, message.bytes.as_slice())?;
        self.join(place, sender, delta)?;
        Ok(Said::Joined)
    }

    fn receive(&mut self, number: usize, bytes: &[u8]) -> EventAnswer
        ensures steps { Steps self.old (event.Receive number bytes.now) result self.new }
        ensures refused { OnErr result (self.new ≡ self.old) }
    {
        let place = self.replica_place(number)?;
        let state = read_state(self.alloc, bytes)?;
        self.absorb(place, &Merge::State(state))?;
        Ok(Said::Joined)
    }

    fn restart(&mut self, number: usize) -> EventAnswer
        ensures steps { Steps self.old (event.Restart number) result self.new }
        ensures refused { OnErr result (self.new ≡ self.old) }
    {
        let place = self.replica_place(number)?;
        let Some(incarnation) = self.last.checked_add(1) else {
            return Err(Refused::NumbersSpent);
        };
        self.replicas[place] = KeptReplica::new(self.alloc, incarnation);
        self.last = incarnation;
        Ok(Said::Restarted)
    }

    /// The reply of a replica to a request: the event `Ask`, which changes nothing.
    pub fn ask(&self, number: usize, request: &Request) -> EventAnswer
        ensures { Steps self.now (event.Ask number request.now) result self.now }
    {
        let place = self.replica_place(number)?;
        let stamped = &self.replicas[place].stamped;
        let reply = answer(self.alloc, &self.service, stamped, request)?;
        Ok(Said::Replied(reply))
    }

    /// The place of the replica with this number.
    fn replica_place(&self, number: usize) -> Result<usize, Refused>
        ensures found { IfOk result (IsPlaceOf number (length self.now.replicas)) }
        ensures none { IfErr result
            (λ why. (why ≡ refused.NoReplica) × IsNoNumber number (length self.now.replicas)) }
    {
        place_of(number, self.replicas.len()).ok_or(Refused::NoReplica)
    }

    /// The message with this number, as the world keeps it.
    fn message(&self, number: usize) -> Result<&SentMessage, Refused>
        ensures found { IfOk result (λ message. at_number self.now.messages number ≡ Some message.now) }
        ensures none { IfErr result
            (λ why. (why ≡ refused.NoMessage) × (at_number self.now.messages number ≡ None)) }
    {
        match place_of(number, self.messages.len()) {
            Some(place) => Ok(&self.messages[place]),
            None => Err(Refused::NoMessage),
        }
    }

    /// Merges into one replica.
    fn absorb(&mut self, place: usize, merge: &Merge) -> Result<(), StampFault>
        requires { place < length self.old.replicas }
        ensures ok { OnOk result
            (MergedAt self.old place merge.now (kept_at self.old place).cursors self.new) }
        ensures spent { IsErrOf result StampFault.NumbersSpent
            ↔ ((kept_at self.old place).stamped.number ≡ 18446744073709551615) }
        ensures err { OnErr result (self.new ≡ self.old) }
    {
        self.replicas[place].stamped.absorb(merge)?;
        Ok(())
    }

    /// Joins a delta of a peer to one replica.
    fn join(&mut self, place: usize, peer: u64, delta: Delta) -> Result<(), Refused>
        requires { place < length self.old.replicas }
        ensures fits { OnOk result (fits (fmap.get (kept_at self.old place).cursors peer) delta ≡ true) }
        ensures ok { OnOk result (MergedAt self.old place (merge.State delta.state)
            (taken_from (kept_at self.old place).cursors peer delta) self.new) }
        ensures cause { IfErr result (λ refused. IsJoinCause refused (kept_at self.old place) peer delta) }
        ensures err { OnErr result (self.new ≡ self.old) }
    {
        self.replicas[place].join(peer, delta)
    }

    /// Adds a message, and counts them all.
    fn push_message(&mut self, sender: usize, text: Vec<u8>) -> Result<usize, NoMemory>
        ensures base { self.new.base ≡ self.old.base }
        ensures replicas { self.new.replicas ≡ self.old.replicas }
        ensures last { self.new.last ≡ self.old.last }
        ensures messages { OnOk result
            (self.new.messages ≡ self.old.messages ++ record { sender = sender; bytes = text.items } ∷ []) }
        ensures count { IfOk result (λ count. count ≡ length self.new.messages) }
        ensures err { OnErr result (self.new ≡ self.old) }
    {
        let bytes = Octets::of(text);
        self.messages.push(SentMessage { sender, bytes })?;
        Ok(self.messages.len())
    }
}
