//! Takes wishes within their limits, and notes which originals were looked after.
ghost use Rattle.std.specs.Prelude.{◌≡◌, ◌≤◌, ◌+◌, ◌++◌, ◌∷◌, [], ◌&&◌, ◌||◌, not, None, true, false, if◌then◌else◌, IfOk, IfNone, IfSome, OnOk, OnErr, filter, length, position};
ghost use Rattle.std.specs.NonZero.{non_zero_usize_get};
ghost use Rattle.lru.specs.LruCache.{lru_cache};
ghost use Rattle.wish_list.specs.Allowance.{after_taking, allowance_of, minute_at};
ghost use Rattle.wish_list.specs.Queue.{Grants, PutsBack, is_waiting, isnt_of, most_wishes, stands};
ghost use Rattle.wish_list.specs.Tables.{second_of};
ghost use Rattle.wish_list.specs.Wishing as spec;
ghost use Rattle.wish_list.specs.Wishing.{allowance_after, asked_if, decision, due_decision, has_room, is_fresh, is_settled, is_use, new_wish, noted_second, seconds_for, spent, with_note, with_wish};

use crate::allowance::Allowance;
use crate::asked::AskedOriginal;
use crate::queue::{MOST_WISHES, Queue, Wish};
use crate::table::Table;
use crate::wishes::{Decision, Found, WishLimits, Wishes};
use memento_time::{NoMemory, Original};
use original_sets::{Key, OriginalSet};
use std::alloc::Global;
use std::hash::RandomState;
use std::mem;

/// Whether an original that was last looked after in this second, if at all, is to be looked after again. What is ahead
/// of the clock by as much was noted by a clock that was ahead: it tells nothing.
fn is_due(last: Option<u64>, again: u64, now: u64) -> bool
    ensures { result ≡ spec.is_due last again now }
{
    match last {
        Some(second) => {
            now.saturating_sub(second) >= again || second.saturating_sub(now) >= again
        }
        None => true,
    }
}

/// The seconds in which an original is looked after again where an archive gave no harvest.
pub const RETRY: u64 = 600;

/// The second to note for an original that was looked after now.
fn noted_second(again: u64, is_whole: bool, now: u64) -> u64
    ensures { result ≡ noted_second again is_whole now }
{
    if is_whole {
        now
    } else {
        now.saturating_sub(again.saturating_sub(RETRY))
    }
}

impl Wishes {
    /// No wishes, and room for as many as there may be.
    pub fn new(alloc: Global, limits: WishLimits, keys: RandomState) -> Result<Wishes, NoMemory>
        ensures again { IfOk result (λ wishes. wishes.again ≡ limits.again) }
        ensures allowance { IfOk result (λ wishes. wishes.allowance ≡ allowance_of limits.in_a_minute) }
        ensures queue { IfOk result (λ wishes. wishes.queue ≡ []) }
        ensures shown { IfOk result (λ wishes. wishes.shown ≡ lru_cache [] (non_zero_usize_get limits.remembered)) }
        ensures unshown { IfOk result (λ wishes. wishes.unshown ≡ lru_cache [] (non_zero_usize_get limits.remembered)) }
        ensures listed { IfOk result (λ wishes. wishes.listed ≡ []) }
        ensures room { IfOk result (λ wishes. wishes.room ≡ usize.MAX) }
        ensures counts { IfOk result (λ wishes. (wishes.turned_away ≡ 0) × (wishes.late ≡ 0)) }
    {
        let shown = Table::new(alloc, limits.remembered, keys)?;
        let unshown = Table::new(alloc, limits.remembered, keys)?;
        let listed = OriginalSet::with_room(alloc, 0, keys)?;
        Ok(Wishes {
            again: limits.again,
            allowance: Allowance::new(limits.in_a_minute),
            queue: Queue::new(alloc),
            shown,
            unshown,
            listed,
            room: usize::MAX,
            turned_away: 0,
            late: 0,
        })
    }

    /// The second in which an original was looked after last.
    fn last(&self, original: &Key, is_shown: bool) -> Option<u64>
        ensures { result ≡ second_of (seconds_for self.now is_shown) original.now }
    {
        if is_shown {
            self.shown.get(original)
        } else {
            self.unshown.get(original)
        }
    }

    /// Whether one more wish may stand in the queue.
    fn has_room(&self, is_shown: bool) -> bool
        ensures { result ≡ has_room self.now is_shown }
    {
        self.queue.len() < MOST_WISHES && (is_shown || self.queue.unshown() < self.room)
    }

    /// What becomes of a wish for an original that is to be looked after.
    fn due_decision(&self, original: &Original, key: &Key, is_shown: bool, now: u64) -> Decision
        requires { key.now ≡ original.now }
        ensures { result ≡ due_decision self.now original.now is_shown now }
    {
        if is_shown && self.listed.has(key) {
            Decision::Listed
        } else if self.queue.has(original) {
            Decision::Waits
        } else if !self.has_room(is_shown) {
            Decision::Full
        } else if self.allowance.left_at(now) == 0 {
            Decision::Late
        } else {
            Decision::Added
        }
    }

    /// What becomes of a wish. Whether it is due comes first, since that is one look into a table: this is on the way
    /// of each reader, and the queue may be long.
    fn decision(&self, original: &Original, key: &Key, is_shown: bool, now: u64) -> Decision
        requires { key.now ≡ original.now }
        ensures { result ≡ decision self.now original.now is_shown now }
    {
        if is_due(self.last(key, is_shown), self.again, now) {
            self.due_decision(original, key, is_shown, now)
        } else {
            Decision::Fresh
        }
    }

    /// Whether there is a wish for an original, granted or not.
    pub fn is_wished(&self, original: &Original) -> bool
        ensures { result ≡ stands self.now.queue original.now }
    {
        self.queue.has(original)
    }

    /// Takes a wish for an original of which something was shown or nothing, if the limits allow it.
    pub fn wish(
        &mut self,
        original: AskedOriginal,
        is_shown: bool,
        now: u64,
    ) -> Result<Decision, NoMemory>
        ensures decision { IfOk result (λ it. it ≡ decision self.old original is_shown now) }
        ensures queue { OnOk result (self.new.queue ≡ with_wish (decision self.old original is_shown now) self.old.queue
            (new_wish original is_shown (minute_at self.old.allowance now))) }
        ensures shown { OnOk result (self.new.shown
            ≡ asked_if (is_shown && is_use (decision self.old original is_shown now)) self.old.shown original) }
        ensures unshown { self.new.unshown ≡ self.old.unshown }
        ensures limits { (self.new.again ≡ self.old.again) × (self.new.room ≡ self.old.room) }
        ensures listed { self.new.listed ≡ self.old.listed }
        ensures spent { OnOk result (self.new.allowance
            ≡ spent (decision self.old original is_shown now) self.old.allowance now) }
        ensures turned_away { OnOk result (self.new.turned_away
            ≡ spec.turned_away (decision self.old original is_shown now) self.old.turned_away) }
        ensures late { OnOk result (self.new.late
            ≡ spec.late (decision self.old original is_shown now) self.old.late) }
        ensures err { OnErr result (self.new ≡ self.old) }
    {
        let key = Key::new(original.as_original())?;
        let decision = self.decision(original.as_original(), &key, is_shown, now);
        if decision == Decision::Added {
            self.add(original, is_shown, now)?;
        }
        self.count(decision);
        if is_shown && decision != Decision::Listed {
            self.shown.ask(&key);
        }
        Ok(decision)
    }

    /// Takes a wish within the limits.
    fn add(&mut self, original: AskedOriginal, is_shown: bool, now: u64) -> Result<(), NoMemory>
        requires room { length self.old.queue + 1 ≤ most_wishes }
        requires new { stands self.old.queue original ≡ false }
        ensures queue { OnOk result (self.new.queue
            ≡ self.old.queue ++ new_wish original is_shown (minute_at self.old.allowance now) ∷ []) }
        ensures rest { OnOk result (self.new ≡ record self.old {
          queue = self.new.queue;
          allowance = after_taking self.old.allowance now;
        }) }
        ensures err { OnErr result (self.new ≡ self.old) }
    {
        let minute = self.allowance.minute_at(now);
        self.queue.push(Wish {
            original,
            is_shown,
            is_granted: false,
            minute,
        })?;
        self.allowance.take(now);
        Ok(())
    }

    /// Counts a wish that isn't taken, if that is to be told.
    fn count(&mut self, decision: Decision)
        ensures { self.new ≡ record self.old {
          turned_away = spec.turned_away decision self.old.turned_away;
          late = spec.late decision self.old.late;
        } }
    {
        match decision {
            Decision::Full => self.turned_away = self.turned_away.saturating_add(1),
            Decision::Late => self.late = self.late.saturating_add(1),
            Decision::Added | Decision::Waits | Decision::Fresh | Decision::Listed => {}
        }
    }

    /// Whether something is shown of the original that has this text, and no wish for it is to be taken in this second,
    /// since it was looked after a short time ago or rounds look after it. It is asked for then, as by `wish`. This
    /// needs no original that was read: what is written otherwise is neither remembered nor listed.
    #[tactic(auto, using(crate::proofs::SettledLemmas::settled_if_due, crate::proofs::SettledLemmas::asked_if_due, crate::proofs::SettledLemmas::settled_if_young, crate::proofs::SettledLemmas::asked_if_young))]
    pub fn is_settled(&mut self, text: &Original, now: u64) -> Result<bool, NoMemory>
        ensures settled { IfOk result (λ it. it ≡ is_settled (decision self.old text.now true now)) }
        ensures asked { OnOk result (self.new.shown
            ≡ asked_if (is_fresh (decision self.old text.now true now)) self.old.shown text.now) }
        ensures rest { self.new ≡ record self.old { shown = self.new.shown } }
        ensures err { OnErr result (self.new ≡ self.old) }
    {
        let key = Key::new(text)?;
        if is_due(self.last(&key, true), self.again, now) {
            return Ok(self.listed.has(&key));
        }
        self.shown.ask(&key);
        Ok(true)
    }

    /// Tells which originals rounds look after. Returns those of before.
    pub fn set_listed(&mut self, listed: OriginalSet) -> OriginalSet
        ensures before { result ≡ self.old.listed }
        ensures after { self.new ≡ record self.old { listed = listed } }
    {
        mem::replace(&mut self.listed, listed)
    }

    /// Allows so many wishes for originals of which nothing is shown to stand in the queue. What stands there stays.
    pub fn set_room(&mut self, room: usize)
        ensures { self.new ≡ record self.old { room = room } }
    {
        self.room = room;
    }

    /// How many wishes were turned away since this was last asked, because there were as many as may be.
    pub fn turned_away(&mut self) -> u64
        ensures count { result ≡ self.old.turned_away }
        ensures after { self.new ≡ record self.old { turned_away = 0 } }
    {
        let count = self.turned_away;
        self.turned_away = 0;
        count
    }

    /// How many wishes came too late since this was last asked, because as many as may be were taken in their minute.
    pub fn late(&mut self) -> u64
        ensures count { result ≡ self.old.late }
        ensures after { self.new ≡ record self.old { late = 0 } }
    {
        let count = self.late;
        self.late = 0;
        count
    }

    /// Grants the oldest wish that waits: its original, whose archives are to be asked. The wish stands in the queue
    /// until `end`, so that its original isn't wished for once more.
    pub fn grant(&mut self) -> Result<Option<Original>, NoMemory>
        ensures some { IfOk result (λ it. IfSome it (λ original. Grants self.old.queue original self.new.queue)) }
        ensures none { IfOk result (λ it. IfNone it (position is_waiting self.old.queue ≡ None)) }
        ensures rest { self.new ≡ record self.old { queue = self.new.queue } }
        ensures err { OnErr result (self.new ≡ self.old) }
    {
        self.queue.grant()
    }

    /// Lets a granted wish wait again, at its place: its archives couldn't be asked.
    pub fn put_back(&mut self, original: &Original)
        ensures queue { PutsBack self.old.queue original.now self.new.queue }
        ensures rest { self.new ≡ record self.old { queue = self.new.queue } }
    {
        self.queue.put_back(original);
    }

    /// Ends the wish for an original, if there is one. A wish for which no archive was asked doesn't count: one more
    /// may be taken in its minute, if no later one has begun.
    pub fn end(&mut self, original: &Original, is_asked: bool)
        ensures queue { self.new.queue ≡ filter (isnt_of original.now) self.old.queue }
        ensures allowance { self.new.allowance ≡ allowance_after self.old original.now is_asked }
        ensures rest { self.new ≡ record self.old { queue = self.new.queue; allowance = self.new.allowance } }
    {
        if !is_asked && self.queue.has_from(original, self.allowance.minute) {
            self.allowance.give_back();
        }
        self.queue.end(original);
    }

    /// Notes what was found when an original that stands in the queue was looked after. Where an archive gave no
    /// harvest, the original is to be looked after again in `RETRY` seconds at most. Of what wasn't wished for nothing
    /// is noted.
    pub fn note(&mut self, original: &Original, found: Found) -> Result<(), NoMemory>
        ensures ok { OnOk result (self.new ≡ if stands self.old.queue original.now
            then with_note self.old original.now found.is_shown (noted_second self.old.again found.is_whole found.second)
            else self.old) }
        ensures err { OnErr result (self.new ≡ self.old) }
    {
        if !self.queue.has(original) {
            return Ok(());
        }
        let key = Key::new(original)?;
        let second = noted_second(self.again, found.is_whole, found.second);
        if found.is_shown {
            self.shown.note(key, second)
        } else {
            self.unshown.note(key, second)
        }
    }
}
