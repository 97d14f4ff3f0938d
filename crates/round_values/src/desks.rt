//! What the thread of the rounds keeps of granted wishes.
ghost use Rattle.std.specs.Prelude.{◌≡◌, ◌-◌, ◌+◌, ◌^◌, ◌≤◌, ◌<◌, ◌↔◌, ◌++◌, ◌∷◌, [], Bool, false, true, bytes_eq, if◌then◌else◌};
ghost use Rattle.std.specs.Prelude.{IfNone, IfOk, IfSome, IsSomeAnd, IsTrue, None, OnErr, OnOk, Some};
ghost use Rattle.std.specs.Prelude.{filter, is_some, length, map, max, min, position, slice_get, unwrap_or};
ghost use Rattle.service_status.specs.Counts.{one_more};
ghost use Rattle.wish_list.specs.Jobs.{Changes, TakesEnded, begun_for, has_ready, is_over};
ghost use Rattle.wish_list.specs.Stages.Act.{Comes};
ghost use Rattle.round_values.specs.Desks.{IsAsked, IsNext, IsNoted, from_now, is_another, is_of, isnt_of, not_so};
ghost use Rattle.round_values.specs.Dues.{IsDueAt};

use crate::times::Millis;
use crate::wished::is_overdue;
use memento_time::{NoMemory, Original};
use service_log::WishCounts;
use std::alloc::{AllocError, Global};
use wish_list::{Ask, Ended, WishAnswer, WishJobs};

/// How many milliseconds what wishes bring waits for more of it before it is published.
const GATHER: u64 = 20;

/// How many milliseconds pass at least between two publishes of what wishes bring.
const BETWEEN: u64 = 100;

/// The same after a publish that was refused.
const AFTER_REFUSAL: u64 = 10_000;

/// How many milliseconds pass at least between two lines of the log about wishes.
const TELL: u64 = 60_000;

/// The most milliseconds that a new wish waits before it is looked at.
const LOOK: u64 = 50;

/// Where a wish's job stands.
#[derive(Clone, Copy, Debug)]
enum Place {
    /// Its archive wasn't asked for it yet.
    First(Ask),
    /// Its archive was busy: the place among the jobs that come again.
    Again(usize),
}

/// A job of a wish.
#[derive(Drop)]
pub struct WishJob {
    pub archive: usize,
    pub original: Original,
    place: Place,
}

/// A job of a wish that comes again, since its archive was busy.
#[derive(Drop)]
struct Again {
    archive: usize,
    original: Original,
}

/// Whether a job that comes again is one of this archive.
fn is_of(job: &Again, archive: usize) -> bool
    ensures { result ≡ is_of archive job.now }
{
    job.archive == archive
}

/// Whether two originals are one.
fn is_same(one: &Original, other: &Original) -> bool
    ensures { result ≡ bytes_eq other.now one.now }
{
    *other == *one
}

/// The archive gives no harvest for each of its jobs among these, which come again.
fn answer_again(jobs: &mut WishJobs, again: &[Again], archive: usize) {
    for job in again {
        if is_of(job, archive) {
            let _ = jobs.answer(&job.original, archive, WishAnswer::NoHarvest);
        }
    }
}

/// Leaves out an original.
fn leave_out(originals: &mut Vec<Original>, original: &Original)
    ensures { originals.new.items ≡ filter (is_another original.now) originals.old.items }
{
    originals.retain(|other| !is_same(other, original));
}

/// Granted wishes, and how far they are.
#[derive(Drop)]
pub struct Desk {
    jobs: WishJobs,
    /// The jobs whose archives were busy, in the order in which they come again. Meanwhile they count as asked for.
    again: Vec<Again>,
    /// For each archive, since when wishes wait for a time that it named, if they do.
    aside: Vec<Option<Millis>>,
    /// For each archive, whether it may be asked, as far as was tried.
    may: Vec<bool>,
    /// For each archive, since when wishes wait for it, if it couldn't be asked when that was tried last.
    refused: Vec<Option<Millis>>,
    /// Other spellings of wished originals that are wished for, and not granted yet.
    spellings: Vec<Original>,
    /// How many walks are out.
    out: usize,
    /// From when on what wishes brought is to be published, if that is to be.
    due: Option<Millis>,
    /// Before this moment nothing of wishes is published by itself.
    rest: Millis,
    /// What the log wasn't told yet.
    counts: WishCounts,
    /// When the log was told last.
    told: Option<Millis>,
}

impl Desk {
    /// No wishes, and room for what is noted of so many archives.
    pub fn new(alloc: Global, archives: usize) -> Result<Desk, AllocError>
        ensures wishes { IfOk result (λ desk. desk.jobs.wishes.items ≡ []) }
        ensures again { IfOk result (λ desk. desk.again.items ≡ []) }
        ensures out { IfOk result (λ desk. desk.out ≡ 0) }
        ensures due { IfOk result (λ desk. desk.due ≡ None) }
    {
        let mut may = Vec::with_capacity(alloc, archives)?;
        let mut refused = Vec::with_capacity(alloc, archives)?;
        let mut aside = Vec::with_capacity(alloc, archives)?;
        for _ in 0..archives {
            may.push(false)?;
            refused.push(None)?;
            aside.push(None)?;
        }
        Ok(Desk {
            jobs: WishJobs::new(alloc),
            again: Vec::new(alloc),
            aside,
            may,
            refused,
            spellings: Vec::new(alloc),
            out: 0,
            due: None,
            rest: Millis(0),
            counts: WishCounts::NONE,
            told: None,
        })
    }

    /// How many walks are out.
    pub fn out(&self) -> usize
        ensures { result ≡ self.now.out }
    {
        self.out
    }

    /// One walk more is out.
    pub fn add_out(&mut self)
        ensures { self.new ≡ record self.old { out = one_more self.old.out } }
    {
        self.out = self.out.saturating_add(1);
    }

    /// A walk that was out has ended.
    pub fn end_out(&mut self)
        ensures { self.new ≡ record self.old { out = self.old.out - 1 } }
    {
        self.out = self.out.saturating_sub(1);
    }

    /// Adds a granted wish. Each archive is to be asked, except those that are spared.
    pub fn push(&mut self, original: Original, spared: &[bool]) -> Result<(), NoMemory>
        ensures ok { OnOk result (self.new.jobs.wishes.items
            ≡ self.old.jobs.wishes.items ++ begun_for original spared.now ∷ []) }
        ensures err { OnErr result (self.new.jobs.wishes.items ≡ self.old.jobs.wishes.items) }
    {
        self.jobs.push(original, spared)
    }

    /// Each archive may be asked, until it is found that one can't be.
    pub fn allow_all(&mut self)
        ensures may { self.new.may.items ≡ map (λ _. true) self.old.may.items }
        ensures rest { self.new ≡ record self.old { may = self.new.may } }
    {
        for may in self.may.iter_mut() {
            *may = true;
        }
    }

    /// Whether wishes stand on the desk.
    pub fn has_wishes(&self) -> bool
        ensures { IsTrue result ↔ (1 ≤ length self.now.jobs.wishes.items) }
    {
        self.jobs.len() > 0
    }

    /// The next job of an archive that may be asked: that of the oldest wish, or else one that comes again. So an
    /// original for which an archive is busy each time keeps no other wish from it.
    pub fn next(&self) -> Option<WishJob>
        ensures { IfSome result (λ job. IsNext self.now job job.place) }
    {
        let Some(ask) = self.jobs.next(&self.may) else {
            return self.next_again();
        };
        let original = self.jobs.original(ask.wish)?.try_clone().ok()?;
        Some(WishJob {
            archive: ask.archive,
            original,
            place: Place::First(ask),
        })
    }

    /// The next job that comes again.
    fn next_again(&self) -> Option<WishJob>
        requires { position (has_ready self.now.may.items) self.now.jobs.wishes.items ≡ None }
        ensures { IfSome result (λ job. IsNext self.now job job.place) }
    {
        let place = self.again.iter().position(|job| self.may_ask(job.archive))?;
        let job = self.again.get(place)?;
        Some(WishJob {
            archive: job.archive,
            original: job.original.try_clone().ok()?,
            place: Place::Again(place),
        })
    }

    /// Whether the archive may be asked, as far as was tried.
    fn may_ask(&self, archive: usize) -> bool
        ensures { result ≡ unwrap_or (slice_get self.now.may.items archive) false }
    {
        matches!(self.may.get(archive), Some(true))
    }

    /// The archive can't be asked now.
    pub fn refuse(&mut self, archive: usize, now: Millis)
        ensures may { IsNoted archive (λ _. false) self.old.may.items self.new.may.items }
        ensures since { IsNoted archive (from_now now) self.old.refused.items self.new.refused.items }
        ensures rest { self.new ≡ record self.old { may = self.new.may; refused = self.new.refused } }
    {
        if let Some(may) = self.may.get_mut(archive) {
            *may = false;
        }
        if let Some(refused) = self.refused.get_mut(archive) {
            *refused = Some(refused.unwrap_or(now));
        }
    }

    /// The archive of a job that `next` gave is asked.
    pub fn ask(&mut self, job: &WishJob)
        ensures job { IsAsked self.old self.new job.now.place }
        ensures refused { IsNoted job.now.archive not_so self.old.refused.items self.new.refused.items }
        ensures rest { self.new ≡ record self.old { jobs = self.new.jobs; again = self.new.again; refused = self.new.refused } }
    {
        if let Some(refused) = self.refused.get_mut(job.archive) {
            *refused = None;
        }
        match job.place {
            Place::First(ask) => {
                let _ = self.jobs.ask(ask);
            }
            Place::Again(place) => {
                if place < self.again.len() {
                    self.again.remove(place);
                }
            }
        }
    }

    /// The archive answers for an original. Nobody waits for a time that it named before.
    pub fn answer(&mut self, original: &Original, archive: usize, answer: WishAnswer)
        ensures wishes { (came : Bool) × Changes original.now (Comes archive answer) came
            self.old.jobs.wishes.items self.new.jobs.wishes.items }
        ensures aside { IsNoted archive not_so self.old.aside.items self.new.aside.items }
        ensures rest { self.new ≡ record self.old { jobs = self.new.jobs; aside = self.new.aside } }
    {
        if let Some(aside) = self.aside.get_mut(archive) {
            *aside = None;
        }
        let _ = self.jobs.answer(original, archive, answer);
    }

    /// The job of the archive for an original comes again. Returns whether there was memory for it.
    pub fn add_again(&mut self, original: &Original, archive: usize) -> bool
        ensures added { result ≡ true → self.new.again.items
            ≡ self.old.again.items ++ record { archive = archive; original = original.now } ∷ [] }
        ensures refused { result ≡ false → self.new.again.items ≡ self.old.again.items }
        ensures rest { self.new ≡ record self.old { again = self.new.again } }
    {
        match original.try_clone() {
            Ok(original) => self.again.push(Again { archive, original }).is_ok(),
            Err(_) => false,
        }
    }

    /// Since when wishes wait for a time that the archive named, if they do.
    pub fn aside_since(&self, archive: usize) -> Option<Millis>
        ensures { result ≡ unwrap_or (slice_get self.now.aside.items archive) None }
    {
        *self.aside.get(archive)?
    }

    /// Wishes wait for a time that the archive named. How long it can't be asked counts from that time on.
    pub fn wait_for(&mut self, archive: usize, now: Millis)
        ensures aside { IsNoted archive (from_now now) self.old.aside.items self.new.aside.items }
        ensures refused { IsNoted archive not_so self.old.refused.items self.new.refused.items }
        ensures rest { self.new ≡ record self.old { aside = self.new.aside; refused = self.new.refused } }
    {
        if let Some(aside) = self.aside.get_mut(archive) {
            *aside = Some(aside.unwrap_or(now));
        }
        if let Some(refused) = self.refused.get_mut(archive) {
            *refused = None;
        }
    }

    /// Whether wishes have waited for the archive for so many milliseconds.
    pub fn is_overdue(&self, archive: usize, most: u64, now: Millis) -> bool
        ensures { IsTrue result ↔ IsSomeAnd (unwrap_or (slice_get self.now.refused.items archive) None)
            (λ since. IsDueAt since.0 most now.0) }
    {
        match self.refused.get(archive) {
            Some(since) => is_overdue(*since, most, now),
            None => false,
        }
    }

    /// Whether the archive couldn't be asked when that was tried last.
    pub fn is_refused(&self, archive: usize) -> bool
        ensures { IsTrue result ↔ (slice_get self.now.may.items archive ≡ Some false) }
    {
        matches!(self.may.get(archive), Some(false))
    }

    /// No wish waits for the archive any longer. Where it was asked it gave no harvest.
    pub fn skip(&mut self, archive: usize)
        ensures again { self.new.again.items ≡ filter (isnt_of archive) self.old.again.items }
        ensures aside { IsNoted archive not_so self.old.aside.items self.new.aside.items }
        ensures refused { IsNoted archive not_so self.old.refused.items self.new.refused.items }
    {
        self.jobs.skip(archive);
        self.end_again(archive);
        if let Some(refused) = self.refused.get_mut(archive) {
            *refused = None;
        }
        if let Some(aside) = self.aside.get_mut(archive) {
            *aside = None;
        }
    }

    /// No job of the archive comes again.
    fn end_again(&mut self, archive: usize)
        ensures again { self.new.again.items ≡ filter (isnt_of archive) self.old.again.items }
        ensures rest { self.new ≡ record self.old { jobs = self.new.jobs; again = self.new.again } }
    {
        answer_again(&mut self.jobs, &self.again, archive);
        self.again.retain(|job| !is_of(job, archive));
    }

    /// Takes out a wish that is over, unless something that wishes brought isn't published.
    pub fn take_ended(&mut self) -> Option<Ended>
        ensures some { IfSome result (λ ended. TakesEnded self.old.jobs.wishes.items ended self.new.jobs.wishes.items) }
        ensures pending { IfSome self.old.due (λ _. result ≡ None) }
        ensures none { self.old.due ≡ None → IfNone result (position is_over self.old.jobs.wishes.items ≡ None) }
        ensures same { IfNone result (self.new.jobs.wishes.items ≡ self.old.jobs.wishes.items) }
        ensures rest { self.new ≡ record self.old { jobs = self.new.jobs } }
    {
        if self.due.is_some() {
            return None;
        }
        self.jobs.take_ended()
    }

    /// Wishes brought something that is to be published.
    pub fn add_pending(&mut self, now: Millis)
        ensures first { self.old.due ≡ None → IsSomeAnd self.new.due
            (λ due. due.0 ≡ max (min (now.0 + 20) (2 ^ 64 - 1)) self.old.rest.0) }
        ensures later { IfSome self.old.due (λ due. self.new.due ≡ Some due) }
        ensures rest { self.new ≡ record self.old { due = self.new.due } }
    {
        if self.due.is_none() {
            self.due = Some(Millis(now.after(GATHER).0.max(self.rest.0)));
        }
    }

    /// Whether wishes brought something that isn't published.
    pub fn has_pending(&self) -> bool
        ensures { result ≡ is_some self.now.due }
    {
        self.due.is_some()
    }

    /// Whether what wishes brought is to be published now.
    pub fn is_due(&self, now: Millis) -> bool
        ensures { IsTrue result ↔ IsSomeAnd self.now.due (λ due. due.0 ≤ now.0) }
    {
        matches!(self.due, Some(due) if due.0 <= now.0)
    }

    /// What was appended is published, or couldn't be.
    pub fn note_publish(&mut self, is_published: bool, now: Millis)
        ensures published { is_published ≡ true → self.new.due ≡ None }
        ensures pause { is_published ≡ true → self.new.rest.0 ≡ min (now.0 + 100) (2 ^ 64 - 1) }
        ensures refused { is_published ≡ false → IfSome self.old.due (λ _. IsSomeAnd self.new.due
            (λ due. due.0 ≡ min (now.0 + 10000) (2 ^ 64 - 1))) }
        ensures none { is_published ≡ false → self.old.due ≡ None → self.new.due ≡ None }
        ensures rest { self.new ≡ record self.old { due = self.new.due; rest = self.new.rest } }
    {
        if is_published {
            self.due = None;
            self.rest = now.after(BETWEEN);
        } else if self.due.is_some() {
            self.due = Some(now.after(AFTER_REFUSAL));
        }
    }

    /// For how many milliseconds to wait before wishes are looked at again.
    pub fn wait(&self, now: Millis) -> u64
        ensures most { result ≤ 50 }
        ensures due { IfSome self.now.due (λ due. result ≡ min (max (due.0 - now.0) 1) 50) }
    {
        match self.due {
            Some(due) => due.since(now).max(1).min(LOOK),
            None => LOOK,
        }
    }

    /// Notes that another spelling is wished for. Returns whether there was memory for it.
    pub fn add_spelling(&mut self, spelling: &Original) -> bool
        ensures added { result ≡ true → self.new.spellings.items ≡ self.old.spellings.items ++ spelling.now ∷ [] }
        ensures refused { result ≡ false → self.new.spellings.items ≡ self.old.spellings.items }
        ensures rest { self.new ≡ record self.old { spellings = self.new.spellings } }
    {
        match spelling.try_clone() {
            Ok(spelling) => self.spellings.push(spelling).is_ok(),
            Err(_) => false,
        }
    }

    /// Whether a granted original is such a spelling, which is then forgotten.
    pub fn take_spelling(&mut self, original: &Original) -> bool
        ensures left { self.new.spellings.items ≡ filter (is_another original.now) self.old.spellings.items }
        ensures taken { IsTrue result ↔ (length self.new.spellings.items < length self.old.spellings.items) }
        ensures rest { self.new ≡ record self.old { spellings = self.new.spellings } }
    {
        let count = self.spellings.len();
        leave_out(&mut self.spellings, original);
        self.spellings.len() < count
    }

    /// Counts a wish that is over.
    pub fn count(&mut self, is_found: bool)
        ensures ended { self.new.counts.ended ≡ one_more self.old.counts.ended }
        ensures found { self.new.counts.found ≡ (if is_found then one_more self.old.counts.found else self.old.counts.found) }
        ensures failed { self.new.counts.failed ≡ self.old.counts.failed }
        ensures rest { self.new ≡ record self.old { counts = self.new.counts } }
    {
        self.counts.ended = self.counts.ended.saturating_add(1);
        if is_found {
            self.counts.found = self.counts.found.saturating_add(1);
        }
    }

    /// Counts a walk for a wish that failed.
    pub fn count_failed(&mut self)
        ensures { self.new ≡ record self.old { counts = record self.old.counts { failed = one_more self.old.counts.failed } } }
    {
        self.counts.failed = self.counts.failed.saturating_add(1);
    }

    /// What the log is to be told now, if it is to be told of wishes.
    pub fn take_counts(&mut self, now: Millis) -> Option<WishCounts>
        ensures taken { IfSome result (λ counts. counts ≡ self.old.counts) }
        ensures told { IfSome result (λ _. self.new ≡ record self.old { counts = self.new.counts; told = Some now }) }
        ensures again { IfSome result (λ _. (self.new.counts.ended ≡ 0) × (self.new.counts.found ≡ 0)
            × (self.new.counts.failed ≡ 0)) }
        ensures early { IfSome self.old.told (λ told. now.0 < min (told.0 + 60000) (2 ^ 64 - 1) → result ≡ None) }
        ensures none { self.old.counts.ended ≡ 0 → result ≡ None }
        ensures same { IfNone result (self.new ≡ self.old) }
    {
        let is_early = matches!(self.told, Some(told) if now.0 < told.after(TELL).0);
        if is_early || self.counts.ended == 0 {
            return None;
        }
        let counts = self.counts;
        self.counts = WishCounts::NONE;
        self.told = Some(now);
        Some(counts)
    }
}
