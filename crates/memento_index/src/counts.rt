//! Changes the numbers of archives that show mementos.
//!
//! A change of counts works at one place of a list: everything from there on is lifted to a second list, the next
//! memento last. So a walk over changes in the order of their mementos moves each memento after the first of them
//! twice, and none before it. Nothing here takes memory: the caller has made room.
ghost use Rattle.std.specs.Prelude.{◌≡◌, ◌+◌, ◌<◌, ◌≤◌, [], ◌++◌, Some, IfSome, option_to_list, reverse, vec_len};
ghost use Rattle.std.specs.Prelude.{length};
ghost use Rattle.memento_time.specs.declared.mementos.Memento.{Memento};
ghost use Rattle.memento_index.specs.Counts.{whole, once, count_of, AreBelow, AreAbove, IsTally, beginnings, endings};
ghost use Rattle.memento_index.specs.Counts.{IsRecounted};

use crate::counted::{Counted, Step};
use crate::tally::Tally;
use memento_time::Memento;
use std::cmp::Ordering;

/// Lifts the mementos that aren't less than a memento.
fn lift(list: &mut Tally, lifted: &mut Tally, memento: &Memento)
    requires tally { IsTally (whole list.old.entries lifted.old.entries) }
    requires room { length list.old.entries + length lifted.old.entries ≤ lifted.old.room }
    ensures whole { whole list.new.entries lifted.new.entries ≡ whole list.old.entries lifted.old.entries }
    ensures below { AreBelow memento.now list.new.entries }
    ensures len { length list.new.entries + length lifted.new.entries
        ≡ length list.old.entries + length lifted.old.entries }
    ensures list_room { list.old.room ≤ list.new.room }
    ensures lifted_room { lifted.old.room ≤ lifted.new.room }
{
    while !list.is_below(memento) {
        match list.pop() {
            Some(counted) => lifted.push(counted),
            None => return,
        }
    }
}

/// Puts back the mementos that are less than a memento, and takes out the memento itself, if it is there.
fn take_out(list: &mut Tally, lifted: &mut Tally, memento: &Memento) -> Option<Counted>
    requires tally { IsTally (whole list.old.entries lifted.old.entries) }
    requires below { AreBelow memento.now list.old.entries }
    requires room { length list.old.entries + length lifted.old.entries ≤ list.old.room }
    ensures parts { list.new.entries ++ (option_to_list result ++ reverse lifted.new.entries)
        ≡ whole list.old.entries lifted.old.entries }
    ensures below { AreBelow memento.now list.new.entries }
    ensures above { AreAbove memento.now (reverse lifted.new.entries) }
    ensures found { IfSome result (λ counted. counted.memento ≡ memento.now) }
    ensures len { length list.new.entries + (length (option_to_list result) + length lifted.new.entries)
        ≡ length list.old.entries + length lifted.old.entries }
    ensures list_room { list.old.room ≤ list.new.room }
    ensures lifted_room { lifted.old.room ≤ lifted.new.room }
{
    while let Some(counted) = lifted.pop() {
        match counted.memento.cmp(memento) {
            Ordering::Less => list.push(counted),
            Ordering::Equal => return Some(counted),
            Ordering::Greater => {
                lifted.push(counted);
                return None;
            }
        }
    }
    None
}

/// Counts one more archive that shows a memento.
pub(crate) fn count_in(list: &mut Tally, lifted: &mut Tally, memento: Memento)
    requires tally { IsTally (whole list.old.entries lifted.old.entries) }
    requires list_room { length list.old.entries + length lifted.old.entries < list.old.room }
    requires lifted_room { length list.old.entries + length lifted.old.entries ≤ lifted.old.room }
    requires few { count_of (whole list.old.entries lifted.old.entries) memento < 18446744073709551615 }
    ensures tally { IsTally (whole list.new.entries lifted.new.entries) }
    ensures counts { (m : Memento)
        → count_of (whole list.new.entries lifted.new.entries) m
        ≡ count_of (whole list.old.entries lifted.old.entries) m + once m memento }
    ensures len { length list.new.entries + length lifted.new.entries
        ≤ length list.old.entries + length lifted.old.entries + 1 }
    ensures list_room { list.old.room ≤ list.new.room }
    ensures lifted_room { lifted.old.room ≤ lifted.new.room }
{
    lift(list, lifted, &memento);
    let count = match take_out(list, lifted, &memento) {
        Some(counted) => counted.count + 1,
        None => 1,
    };
    list.push(Counted { memento, count });
}

/// Counts one archive less that shows a memento, and drops the memento with the last archive.
pub(crate) fn count_out(list: &mut Tally, lifted: &mut Tally, memento: &Memento)
    requires tally { IsTally (whole list.old.entries lifted.old.entries) }
    requires list_room { length list.old.entries + length lifted.old.entries ≤ list.old.room }
    requires lifted_room { length list.old.entries + length lifted.old.entries ≤ lifted.old.room }
    requires counted { 0 < count_of (whole list.old.entries lifted.old.entries) memento.now }
    ensures tally { IsTally (whole list.new.entries lifted.new.entries) }
    ensures counts { (m : Memento)
        → count_of (whole list.new.entries lifted.new.entries) m + once m memento.now
        ≡ count_of (whole list.old.entries lifted.old.entries) m }
    ensures len { length list.new.entries + length lifted.new.entries
        ≤ length list.old.entries + length lifted.old.entries }
    ensures list_room { list.old.room ≤ list.new.room }
    ensures lifted_room { lifted.old.room ≤ lifted.new.room }
{
    lift(list, lifted, memento);
    match take_out(list, lifted, memento) {
        Some(counted) => {
            if counted.count > 1 {
                let fewer = Counted {
                    memento: counted.memento,
                    count: counted.count - 1,
                };
                list.push(fewer);
            }
        }
        None => {}
    }
}

/// Puts back everything that was lifted.
pub(crate) fn settle(list: &mut Tally, lifted: &mut Tally)
    requires room { length list.old.entries + length lifted.old.entries ≤ list.old.room }
    ensures list { list.new.entries ≡ whole list.old.entries lifted.old.entries }
    ensures lifted { lifted.new.entries ≡ [] }
    ensures lifted_room { lifted.old.room ≤ lifted.new.room }
{
    while let Some(counted) = lifted.pop() {
        list.push(counted);
    }
}

/// Counts what archives begin and cease to show.
///
/// It moves each memento of the list twice that isn't less than the first step's memento, and of those that are less it
/// touches only the last.
pub(crate) fn recount(list: &mut Tally, lifted: &mut Tally, mut steps: Vec<Step>)
    requires tally { IsTally list.old.entries }
    requires settled { lifted.old.entries ≡ [] }
    requires list_room { length list.old.entries + vec_len steps ≤ list.old.room }
    requires lifted_room { length list.old.entries + vec_len steps ≤ lifted.old.room }
    requires shown { (m : Memento) → endings steps.items m ≤ count_of list.old.entries m }
    requires few { (m : Memento) → count_of list.old.entries m + beginnings steps.items m ≤ 18446744073709551615 }
    ensures recounted { IsRecounted list.old.entries steps.items list.new.entries }
    ensures lifted_room { lifted.old.room ≤ lifted.new.room }
    ensures settled { lifted.new.entries ≡ [] }
{
    steps.sort_unstable();
    for step in steps {
        if step.begins {
            count_in(list, lifted, step.memento);
        } else {
            count_out(list, lifted, &step.memento);
        }
    }
    settle(list, lifted);
}
