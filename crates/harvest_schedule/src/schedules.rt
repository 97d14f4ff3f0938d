//! Schedules of rounds.
ghost use Rattle.std.specs.Prelude.{◌≡◌, ◌↔◌, ℕ, ◌≤◌, ◌<◌, ◌+◌, All, Contains, IfOk, IfSome, IsNone, IsTrue, MatchBool, None, Some, is_some};
ghost use Rattle.std.specs.Prelude.{false, length, map, min, option_map, slice_get, true, []};
ghost use Rattle.std.specs.List.{reduce};
ghost use Rattle.harvest_schedule.specs.Standing.{Standing};
ghost use Rattle.harvest_schedule.specs.Lanes.{IsDormant, IsOver, IsReady, after_begin, new_standing, left_of};
ghost use Rattle.harvest_schedule.specs.Steps.{Answers, Ended, Handed, JobGoesFirst, NoneIsReady, Offers, Passed, SomeIs, TakesTurn};
ghost use Rattle.harvest_schedule.specs.Steps.{WalkBegun, WalkEnded, times_after};

use crate::lanes::Lane;
use crate::moods::{Limits, Mood, Pace, Verdict};
use crate::permits::Permit;
use crate::turns::Turn;
use std::alloc::{AllocError, Global};

/// What is left to ask of each archive in a round, and when. Archives take turns. A schedule lasts for many rounds.
#[derive(Debug, Drop)]
pub struct Schedule {
    limits: Limits,
    /// The lanes of the archives, in the order of the settings.
    lanes: Vec<Lane>,
    /// The archive whose turn is next.
    turn: usize,
    /// Whether a walk beyond the list has begun since a job was handed out or passed over: then a job goes next.
    jobs_next: bool,
}

/// The first lane from this place on that is ready, if there is one before the end.
fn first_ready(lanes: &[Lane], now: u64, start: usize, end: usize) -> Option<usize>
    requires { end ≤ length lanes.now }
    ensures some { IfSome result (λ k. (start ≤ k) × (k < end) × IfSome (slice_get lanes.now k) (IsReady now)) }
    ensures first { IfSome result
        (λ k. (j : ℕ) → start ≤ j → j < k → IfSome (slice_get lanes.now j) (λ s. ¬ (IsReady now s))) }
    ensures none { result ≡ None
        → (j : ℕ) → start ≤ j → j < end → IfSome (slice_get lanes.now j) (λ s. ¬ (IsReady now s)) }
{
    for place in start..end {
        if lanes[place].is_ready(now) {
            return Some(place);
        }
    }
    None
}

/// Begins a new round of each archive.
fn begin_all(lanes: &mut [Lane], originals: usize)
    requires { All (λ s. s.out ≡ []) lanes.old }
    ensures { lanes.new ≡ map (after_begin originals) lanes.old }
{
    for lane in lanes.iter_mut() {
        lane.begin(originals);
    }
}

/// The least of the later times at which archives have a job to hand out if nothing else happens.
fn first_time(lanes: &[Lane], now: u64) -> Option<u64>
    ensures { result ≡ reduce min (times_after now lanes.now) }
{
    lanes.iter().filter_map(|lane| lane.time_after(now)).min()
}

impl Schedule {
    /// A schedule whose first round has begun, in which each archive is asked for so many originals. There is one
    /// pace for each archive. No other call takes memory.
    pub fn new(
        alloc: Global,
        limits: Limits,
        paces: &[Pace],
        originals: usize,
    ) -> Result<Schedule, AllocError>
        ensures limits { IfOk result (λ schedule. schedule.limits ≡ limits) }
        ensures lanes { IfOk result (λ schedule. schedule.lanes.items ≡ map (new_standing originals) paces.now) }
        ensures turn { IfOk result (λ schedule. schedule.turn ≡ 0) }
        ensures jobs_next { IfOk result (λ schedule. schedule.jobs_next ≡ false) }
    {
        let mut lanes = Vec::new(alloc);
        for pace in paces {
            lanes.push(Lane::new(alloc, *pace, originals)?)?;
        }
        Ok(Schedule {
            limits,
            lanes,
            turn: 0,
            jobs_next: false,
        })
    }

    /// Begins a new round: each archive's list starts anew, with so many originals, and the first archive goes first.
    /// Moods, times and walks beyond the list stay. Returns whether no job was out; otherwise nothing changes.
    pub fn begin(&mut self, originals: usize) -> bool
        ensures idle { IsTrue result ↔ All (λ s. s.out ≡ []) self.old.lanes.items }
        ensures limits { self.new.limits ≡ self.old.limits }
        ensures lanes { MatchBool result (self.new.lanes.items ≡ map (after_begin originals) self.old.lanes.items)
            (self.new.lanes.items ≡ self.old.lanes.items) }
        ensures turn { MatchBool result (self.new.turn ≡ 0) (self.new.turn ≡ self.old.turn) }
        ensures jobs_next { self.new.jobs_next ≡ self.old.jobs_next }
    {
        if !self.lanes.iter().all(|lane| lane.is_idle()) {
            return false;
        }
        begin_all(&mut self.lanes, originals);
        self.turn = 0;
        true
    }

    /// The archive that is asked next, if one may be asked at this time: the first from the one whose turn it is.
    fn ready(&self, now: u64) -> Option<usize>
        ensures some { IfSome result (λ k. IfSome (slice_get self.now.lanes.items k) (IsReady now)) }
        ensures within { IfSome result (λ k. k < length self.now.lanes.items) }
        ensures turns { IfSome result (λ k. TakesTurn now self.now.turn k self.now.lanes.items) }
        ensures none { result ≡ None → NoneIsReady now self.now.lanes.items }
    {
        let end = self.lanes.len();
        let turn = self.turn.min(end);
        match first_ready(&self.lanes, now, turn, end) {
            Some(place) => Some(place),
            None => first_ready(&self.lanes, now, 0, turn),
        }
    }

    /// The job that is handed out next, if there is one that may be at this time: of the archives in a circle from the
    /// one whose turn it is, the first that is ready is asked.
    pub fn offer(&self, now: u64) -> Option<Turn>
        ensures some { IfSome result (λ turn. Offers now turn self.now.lanes.items) }
        ensures turns { IfSome result (λ turn. TakesTurn now self.now.turn turn.archive self.now.lanes.items) }
        ensures none { result ≡ None → NoneIsReady now self.now.lanes.items }
    {
        let archive = self.ready(now)?;
        let original = self.lanes[archive].job()?;
        Some(Turn { archive, original })
    }

    /// Hands out the job of this turn, which is to be walked: gives leave to ask its archive, if the job is the next of
    /// its archive, and may be handed out at this time; otherwise nothing changes.
    pub fn hand_out(&mut self, turn: Turn, now: u64) -> Option<Permit>
        ensures limits { self.new.limits ≡ self.old.limits }
        ensures lanes { Answers self.old.limits turn.archive (Handed now turn.original) (is_some result)
            self.old.lanes.items self.new.lanes.items }
        ensures turn { MatchBool (is_some result) (self.new.turn ≡ turn.archive + 1) (self.new.turn ≡ self.old.turn) }
        ensures jobs_next { MatchBool (is_some result) (self.new.jobs_next ≡ false)
            (self.new.jobs_next ≡ self.old.jobs_next) }
        ensures permit { IfSome result (λ permit. permit.archive ≡ turn.archive) }
    {
        if self.try_hand_out(turn, now) {
            Some(Permit::new(turn.archive))
        } else {
            None
        }
    }

    /// Notes that the job of this turn is handed out. Returns whether it is the next of its archive, and may be handed
    /// out at this time; otherwise nothing changes.
    fn try_hand_out(&mut self, turn: Turn, now: u64) -> bool
        ensures limits { self.new.limits ≡ self.old.limits }
        ensures lanes { Answers self.old.limits turn.archive (Handed now turn.original) result
            self.old.lanes.items self.new.lanes.items }
        ensures turn { MatchBool result (self.new.turn ≡ turn.archive + 1) (self.new.turn ≡ self.old.turn) }
        ensures jobs_next { MatchBool result (self.new.jobs_next ≡ false) (self.new.jobs_next ≡ self.old.jobs_next) }
    {
        if turn.archive >= self.lanes.len() {
            return false;
        }
        let is_handed_out = self.lanes[turn.archive].try_hand_out(turn.original, now);
        if is_handed_out {
            self.turn = turn.archive + 1;
            self.jobs_next = false;
        }
        is_handed_out
    }

    /// Passes over the job of this turn, which isn't needed. Returns whether it is the next of its archive; otherwise
    /// nothing changes. It stays the archive's turn.
    pub fn pass_over(&mut self, turn: Turn) -> bool
        ensures limits { self.new.limits ≡ self.old.limits }
        ensures lanes { Answers self.old.limits turn.archive (Passed turn.original) result
            self.old.lanes.items self.new.lanes.items }
        ensures turn { self.new.turn ≡ self.old.turn }
        ensures jobs_next { MatchBool result (self.new.jobs_next ≡ false) (self.new.jobs_next ≡ self.old.jobs_next) }
    {
        if turn.archive >= self.lanes.len() {
            return false;
        }
        let is_passed_over = self.lanes[turn.archive].try_pass_over(turn.original);
        if is_passed_over {
            self.jobs_next = false;
        }
        is_passed_over
    }

    /// Takes in how the walk of this turn's job ended. Returns whether it was out; otherwise nothing changes.
    pub fn done(&mut self, turn: Turn, verdict: Verdict, now: u64) -> bool
        ensures limits { self.new.limits ≡ self.old.limits }
        ensures lanes { Answers self.old.limits turn.archive (Ended now turn.original verdict) result
            self.old.lanes.items self.new.lanes.items }
        ensures turn { self.new.turn ≡ self.old.turn }
        ensures jobs_next { self.new.jobs_next ≡ self.old.jobs_next }
    {
        if turn.archive >= self.lanes.len() {
            return false;
        }
        self.lanes[turn.archive].try_end(self.limits, turn.original, verdict, now)
    }

    /// Whether a job goes before a walk beyond the list: there is one free hand for both, such a walk began since the
    /// last job was handed out or passed over, and a job may be handed out at this time.
    fn job_goes_first(&self, now: u64, is_last: bool) -> bool
        ensures yes { result ≡ true → JobGoesFirst now is_last self.now.jobs_next self.now.lanes.items }
        ensures no { result ≡ false → ¬ (JobGoesFirst now is_last self.now.jobs_next self.now.lanes.items) }
    {
        is_last && self.jobs_next && self.ready(now).is_some()
    }

    /// Begins a walk beyond the round's list, by a hand that may be the last free one: gives leave to ask the archive,
    /// if it may be asked at this time, and no job goes first; otherwise nothing changes.
    pub fn begin_walk(&mut self, archive: usize, now: u64, is_last: bool) -> Option<Permit>
        ensures limits { self.new.limits ≡ self.old.limits }
        ensures later { JobGoesFirst now is_last self.old.jobs_next self.old.lanes.items
            → (result ≡ None) × (self.new.lanes.items ≡ self.old.lanes.items) }
        ensures lanes { ¬ (JobGoesFirst now is_last self.old.jobs_next self.old.lanes.items)
            → Answers self.old.limits archive (WalkBegun now) (is_some result) self.old.lanes.items self.new.lanes.items }
        ensures turn { self.new.turn ≡ self.old.turn }
        ensures jobs_next { MatchBool (is_some result) (self.new.jobs_next ≡ true)
            (self.new.jobs_next ≡ self.old.jobs_next) }
        ensures permit { IfSome result (λ permit. permit.archive ≡ archive) }
    {
        if self.try_begin_walk(archive, now, is_last) {
            Some(Permit::new(archive))
        } else {
            None
        }
    }

    /// Notes that a walk beyond the round's list begins. Returns whether the archive may be asked at this time, and no
    /// job goes first; otherwise nothing changes.
    fn try_begin_walk(&mut self, archive: usize, now: u64, is_last: bool) -> bool
        ensures limits { self.new.limits ≡ self.old.limits }
        ensures later { JobGoesFirst now is_last self.old.jobs_next self.old.lanes.items
            → (result ≡ false) × (self.new.lanes.items ≡ self.old.lanes.items) }
        ensures lanes { ¬ (JobGoesFirst now is_last self.old.jobs_next self.old.lanes.items)
            → Answers self.old.limits archive (WalkBegun now) result self.old.lanes.items self.new.lanes.items }
        ensures turn { self.new.turn ≡ self.old.turn }
        ensures jobs_next { MatchBool result (self.new.jobs_next ≡ true) (self.new.jobs_next ≡ self.old.jobs_next) }
    {
        if self.job_goes_first(now, is_last) || archive >= self.lanes.len() {
            return false;
        }
        let is_begun = self.lanes[archive].try_begin_walk(now);
        if is_begun {
            self.jobs_next = true;
        }
        is_begun
    }

    /// Takes in how a walk beyond the round's list ended. Returns whether one was out; otherwise nothing changes.
    pub fn end_walk(&mut self, archive: usize, verdict: Verdict, now: u64) -> bool
        ensures limits { self.new.limits ≡ self.old.limits }
        ensures lanes { Answers self.old.limits archive (WalkEnded now verdict) result
            self.old.lanes.items self.new.lanes.items }
        ensures turn { self.new.turn ≡ self.old.turn }
        ensures jobs_next { self.new.jobs_next ≡ self.old.jobs_next }
    {
        if archive >= self.lanes.len() {
            return false;
        }
        self.lanes[archive].try_end_walk(self.limits, verdict, now)
    }

    /// Whether the round is over: no job is out, and what is left belongs to archives that are dormant until a later
    /// time.
    pub fn is_over(&self, now: u64) -> bool
        ensures { IsTrue result ↔ All (IsOver now) self.now.lanes.items }
    {
        self.lanes.iter().all(|lane| lane.is_over(now))
    }

    /// The earliest later time at which an archive has a job to hand out if nothing else happens, if there is one.
    #[tactic(auto, using(crate::proofs::Least::least_of_none, crate::proofs::Least::least_within, crate::proofs::Least::least_first))]
    pub fn next_time(&self, now: u64) -> Option<u64>
        ensures none { IsNone result ↔ (times_after now self.now.lanes.items ≡ []) }
        ensures some { IfSome result (Contains (times_after now self.now.lanes.items)) }
        ensures first { IfSome result (λ time. All (λ other. time ≤ other) (times_after now self.now.lanes.items)) }
    {
        first_time(&self.lanes, now)
    }

    /// Whether the archive is dormant, at whatever time.
    pub fn is_dormant(&self, archive: usize) -> bool
        ensures { IsTrue result ↔ SomeIs IsDormant archive self.now.lanes.items }
    {
        match self.lanes.get(archive) {
            Some(lane) => lane.is_dormant(),
            None => false,
        }
    }

    /// How many jobs of the archive are neither handed out nor passed over, those that come again included.
    pub fn left(&self, archive: usize) -> usize
        ensures some { IfSome (slice_get self.now.lanes.items archive) (λ s. result ≡ left_of s) }
        ensures none { slice_get self.now.lanes.items archive ≡ None → result ≡ 0 }
    {
        match self.lanes.get(archive) {
            Some(lane) => lane.left(),
            None => 0,
        }
    }

    /// Whether the archive may be asked, with the time before which it isn't. `None` if there is no such archive.
    pub fn mood(&self, archive: usize) -> Option<Mood>
        ensures { result ≡ option_map (λ s. s.mood) (slice_get self.now.lanes.items archive) }
    {
        match self.lanes.get(archive) {
            Some(lane) => Some(lane.mood()),
            None => None,
        }
    }
}
