//! Lanes: what is left to ask of one archive, what is out, and when it may be asked.
ghost use Rattle.std.specs.Prelude.{◌≡◌, ◌↔◌, ◌+◌, ◌<◌, ◌==◌, Contains, vec_len, IfOk, IsSome, IsTrue, Some, [], if◌then◌else◌, position};
ghost use Rattle.std.specs.Vec.{vec_capacity};
ghost use Rattle.harvest_schedule.specs.Lanes.{IsDormant, IsOver, IsReady, MayWalk, MayWish, after_advance, after_begin, after_end, new_standing, after_handing};
ghost use Rattle.harvest_schedule.specs.Lanes.{job_of, left_of, time_after, walk_begun, walk_ended, walk_from, without};
ghost use Rattle.harvest_schedule.specs.Standing.{walks};
ghost use Rattle.harvest_schedule.specs.Steps.{Can, Ended, Handed, Passed, WalkBegun, WalkEnded};

use crate::moods::{Limits, Mood, Pace, Verdict};
use std::alloc::{AllocError, Global};
use std::marker::Model;

/// What a schedule keeps of one archive.
#[derive(Debug, Drop)]
pub struct Lane {
    pace: Pace,
    /// How many jobs its list has, one for each original.
    originals: usize,
    /// The first original that is neither handed out nor passed over yet.
    next: usize,
    /// The originals whose walks are out. There is memory for as many as may be.
    out: Vec<usize>,
    /// The originals that come again, likewise.
    again: Vec<usize>,
    /// How many walks beyond the list are out.
    wished: usize,
    mood: Mood,
    /// The time before which it isn't asked, by its pace.
    rest: u64,
    /// Whether a walk beyond the list has begun since a job was handed out or passed over: then the list goes next.
    list_next: bool,
}

impl Model for Lane {
    ghost use Rattle.std.specs.Prelude.{◌≤◌};
    ghost use Rattle.std.specs.Vec.{vec_capacity};
    ghost use Rattle.harvest_schedule.specs.Standing.{IsSound, Standing};

    ghost Value = { Standing };

    ghost view = { λ l. record {
      pace = l.pace;
      originals = l.originals;
      next = l.next;
      out = l.out.items;
      again = l.again.items;
      wished = l.wished;
      mood = l.mood;
      rest = l.rest;
      list_next = l.list_next;
    } };

    ghost invariant = { λ l. IsSound (record {
      pace = l.pace;
      originals = l.originals;
      next = l.next;
      out = l.out.items;
      again = l.again.items;
      wished = l.wished;
      mood = l.mood;
      rest = l.rest;
      list_next = l.list_next;
    }) × (l.pace.at_once ≤ vec_capacity l.out) × (l.pace.at_once ≤ vec_capacity l.again) };
}

/// The first place where an original stands.
fn place_of(originals: &[usize], original: usize) -> Option<usize>
    ensures { result ≡ position (λ x. x == original) originals.now }
{
    originals.iter().position(|other| *other == original)
}

/// Takes out the first place of an original.
#[tactic(auto, using(crate::proofs::Counts::taken_out, crate::proofs::Counts::not_taken_out))]
fn take_out(originals: &mut Vec<usize>, original: usize)
    requires { Contains originals.old.items original }
    ensures items { originals.new.items ≡ without original originals.old.items }
    ensures len { vec_len originals.new + 1 ≡ vec_len originals.old }
    ensures capacity { vec_capacity originals.new ≡ vec_capacity originals.old }
{
    if let Some(place) = place_of(originals, original) {
        originals.remove(place);
    }
}

impl Lane {
    /// The lane of an archive of which nothing was asked yet.
    pub fn new(alloc: Global, pace: Pace, originals: usize) -> Result<Lane, AllocError>
        ensures { IfOk result (λ lane. lane ≡ new_standing originals pace) }
    {
        let out = Vec::with_capacity(alloc, pace.at_once)?;
        let again = Vec::with_capacity(alloc, pace.at_once)?;
        Ok(Lane {
            pace,
            originals,
            next: 0,
            out,
            again,
            wished: 0,
            mood: Mood::Awake { failed: 0 },
            rest: 0,
            list_next: false,
        })
    }

    /// Whether no walk of a job is out.
    pub fn is_idle(&self) -> bool
        ensures { IsTrue result ↔ (self.now.out ≡ []) }
    {
        self.out.is_empty()
    }

    /// Whether the walk of an original is out.
    pub fn is_out(&self, original: usize) -> bool
        ensures { IsTrue result ↔ Contains self.now.out original }
    {
        self.out.contains(&original)
    }

    /// Begins a new round: the list starts anew.
    pub fn begin(&mut self, originals: usize)
        requires { self.old.out ≡ [] }
        ensures { self.new ≡ after_begin originals self.old }
    {
        self.originals = originals;
        self.next = 0;
        self.again.clear();
    }

    /// The original that is asked for next: one that comes again, or the next of the list.
    pub fn job(&self) -> Option<usize>
        ensures { result ≡ job_of self.now }
    {
        match self.again.first() {
            Some(original) => Some(*original),
            None if self.next < self.originals => Some(self.next),
            None => None,
        }
    }

    /// How many jobs are neither handed out nor passed over, those that come again included.
    pub fn left(&self) -> usize
        ensures { result ≡ left_of self.now }
    {
        self.originals - self.next + self.again.len()
    }

    pub fn mood(&self) -> Mood
        ensures { result ≡ self.now.mood }
    {
        self.mood
    }

    /// How many walks are out, those beyond the list included.
    pub fn walks(&self) -> usize
        ensures { result ≡ walks self.now }
    {
        self.out.len() + self.wished
    }

    /// Whether one walk more may begin at this time.
    pub fn may_walk(&self, now: u64) -> bool
        ensures { IsTrue result ↔ MayWalk now self.now }
    {
        self.walks() < self.pace.at_once && self.rest <= now && self.mood.may_ask(now)
    }

    /// Whether a walk beyond the list may begin at this time: of two walks that begin one at most is one, while the
    /// list has jobs.
    pub fn may_wish(&self, now: u64) -> bool
        ensures { IsTrue result ↔ MayWish now self.now }
    {
        self.may_walk(now) && !(self.list_next && self.job().is_some())
    }

    /// Whether a job may be handed out at this time.
    pub fn is_ready(&self, now: u64) -> bool
        ensures { IsTrue result ↔ IsReady now self.now }
    {
        self.job().is_some() && self.may_walk(now)
    }

    /// Whether the round is over for this archive.
    pub fn is_over(&self, now: u64) -> bool
        ensures { IsTrue result ↔ IsOver now self.now }
    {
        self.is_idle() && (self.job().is_none() || self.mood.sleeps_at(now))
    }

    /// The earliest time at which one walk more may begin if nothing else happens, if there is one.
    pub fn walk_from(&self) -> Option<u64>
        ensures { result ≡ walk_from self.now }
    {
        if self.walks() < self.pace.at_once {
            let from = self.mood.asked_from()?;
            Some(self.rest.max(from))
        } else {
            None
        }
    }

    /// The time after this one from which on a job may be handed out if nothing else happens, if there is one.
    pub fn time_after(&self, now: u64) -> Option<u64>
        ensures { result ≡ time_after now self.now }
    {
        self.job()?;
        let time = self.walk_from()?;
        if now < time { Some(time) } else { None }
    }

    /// Takes the next job off the list.
    pub fn pass_over(&mut self)
        requires { IsSome (job_of self.old) }
        ensures { self.new ≡ after_advance self.old }
    {
        self.list_next = false;
        if self.again.is_empty() {
            self.next += 1;
        } else {
            self.again.remove(0);
        }
    }

    /// Hands out the next job, which is this original's.
    pub fn hand_out(&mut self, original: usize, now: u64)
        requires ready { IsReady now self.old }
        requires job { job_of self.old ≡ Some original }
        ensures { self.new ≡ after_handing now original self.old }
    {
        self.list_next = false;
        if self.again.is_empty() {
            self.next += 1;
        } else {
            self.again.remove(0);
        }
        self.out.push(original).unwrap();
        self.mood = self.mood.asked();
        self.rest = self.pace.rest_after(now, self.rest);
    }

    /// Takes in how the walk of an original ended.
    pub fn end(&mut self, limits: Limits, original: usize, verdict: Verdict, now: u64)
        requires { Contains self.old.out original }
        ensures { self.new ≡ after_end limits now original verdict self.old }
    {
        take_out(&mut self.out, original);
        if limits.comes_again(verdict) {
            self.again.push(original).unwrap();
        }
        self.mood = self.mood.after(limits, verdict, now);
        self.rest = self.pace.rest_after(now, self.rest);
    }

    /// Begins a walk beyond the list.
    pub fn begin_walk(&mut self, now: u64)
        requires { MayWish now self.old }
        ensures { self.new ≡ walk_begun now self.old }
    {
        self.wished += 1;
        self.list_next = true;
        self.mood = self.mood.asked();
        self.rest = self.pace.rest_after(now, self.rest);
    }

    /// Takes in how a walk beyond the list ended.
    pub fn end_walk(&mut self, limits: Limits, verdict: Verdict, now: u64)
        requires { 0 < self.old.wished }
        ensures { self.new ≡ walk_ended limits now verdict self.old }
    {
        self.wished -= 1;
        self.mood = self.mood.after(limits, verdict, now);
        self.rest = self.pace.rest_after(now, self.rest);
    }

    /// Whether this original's job is the next.
    pub fn is_next(&self, original: usize) -> bool
        ensures { IsTrue result ↔ (job_of self.now ≡ Some original) }
    {
        match self.job() {
            Some(next) => next == original,
            None => false,
        }
    }

    /// Hands out the job of an original if it is the next, and may be handed out at this time. Returns whether.
    pub fn try_hand_out(&mut self, original: usize, now: u64) -> bool
        ensures can { IsTrue result ↔ Can (Handed now original) self.old }
        ensures after { self.new ≡ (if result then after_handing now original self.old else self.old) }
    {
        if self.is_next(original) && self.may_walk(now) {
            self.hand_out(original, now);
            true
        } else {
            false
        }
    }

    /// Passes over the job of an original if it is the next. Returns whether.
    pub fn try_pass_over(&mut self, original: usize) -> bool
        ensures can { IsTrue result ↔ Can (Passed original) self.old }
        ensures after { self.new ≡ (if result then after_advance self.old else self.old) }
    {
        if self.is_next(original) {
            self.pass_over();
            true
        } else {
            false
        }
    }

    /// Takes in how the walk of an original ended, if it is out. Returns whether.
    pub fn try_end(&mut self, limits: Limits, original: usize, verdict: Verdict, now: u64) -> bool
        ensures can { IsTrue result ↔ Can (Ended now original verdict) self.old }
        ensures after { self.new ≡ (if result then after_end limits now original verdict self.old else self.old) }
    {
        if self.is_out(original) {
            self.end(limits, original, verdict, now);
            true
        } else {
            false
        }
    }

    /// Begins a walk beyond the list, if one may begin at this time. Returns whether.
    pub fn try_begin_walk(&mut self, now: u64) -> bool
        ensures can { IsTrue result ↔ Can (WalkBegun now) self.old }
        ensures after { self.new ≡ (if result then walk_begun now self.old else self.old) }
    {
        if self.may_wish(now) {
            self.begin_walk(now);
            true
        } else {
            false
        }
    }

    /// Takes in how a walk beyond the list ended, if one is out. Returns whether.
    pub fn try_end_walk(&mut self, limits: Limits, verdict: Verdict, now: u64) -> bool
        ensures can { IsTrue result ↔ Can (WalkEnded now verdict) self.old }
        ensures after { self.new ≡ (if result then walk_ended limits now verdict self.old else self.old) }
    {
        if self.wished > 0 {
            self.end_walk(limits, verdict, now);
            true
        } else {
            false
        }
    }

    /// Whether the archive is dormant, at whatever time.
    pub fn is_dormant(&self) -> bool
        ensures { IsTrue result ↔ IsDormant self.now }
    {
        self.mood.is_dormant()
    }
}
