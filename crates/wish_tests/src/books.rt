//! Tests of the book of wishes, and of gates that note in it. They are scripts, as those of wishes are.
use crate::wishes::{asked, is_named, named, set_of_one};
use anyhow::{Context, Result, bail};
use gate_server::Answers;
use knowledge_tests::makers::{get, request};
use memento_time::{Items, Octets};
use published_index::GateFault;
use std::alloc::{AllocGlobal, Global};
use std::hash::RandomState;
use std::num::NonZeroUsize;
use std::random::RandomSource;
use std::sync::Wait;
use std::test::*;
use std::time::{Clock, SystemTime, UNIX_EPOCH};
use text_tests::scripts::{Step, is_told, read_step};
use text_tests::tables::{follow, halves, hold, number};
use timegate::{Reply, Request};
use wish_list::{Outcome, WishLimits};
use wishing_gates::{WishBook, WishingGate, asked_original};

/// Answers each request with this status.
#[derive(Drop)]
struct Told {
    alloc: Global,
    status: u16,
}

impl Answers for Told {
    ghost use Rattle.std.specs.Prelude.{⊤};

    ghost shows = { λ _ _ _. ⊤ };

    ghost follows = { λ _ _. ⊤ };

    ghost may_close = { ⊤ };

    fn answer(&mut self, _request: &Request) -> Result<Reply, GateFault> {
        Ok(Reply {
            status: self.status,
            headers: Items::of(Vec::new(self.alloc)),
            body: Octets::of(Vec::new(self.alloc)),
        })
    }

    ghost stays = { λ _. tt };

    ghost goes_on = { λ _ _ _ _ _. tt };
}

/// The clock's second.
fn now(rt: &impl Clock) -> Result<u64> {
    let now = SystemTime::now(rt).ok().context("no clock")?;
    let since = now.duration_since(UNIX_EPOCH).ok().context("before 1970")?;
    Ok(since.as_secs())
}

/// A book in which one wish is taken in a minute.
fn book_in<R: RandomSource + AllocGlobal>(rt: &R) -> Result<WishBook> {
    let limits = WishLimits {
        remembered: NonZeroUsize::new(9).context("no room")?,
        again: 1_000,
        in_a_minute: 1,
    };
    Ok(WishBook::open(rt.alloc(), limits, RandomState::new(rt)?)?)
}

/// What a gate that answers with this status does with GET of a target.
fn ask<R>(rt: &R, book: &WishBook, status: u16, target: &[u8]) -> Result<u16>
where
    R: Clock + AllocGlobal + Clone + Drop,
{
    let told = Told {
        alloc: rt.alloc(),
        status,
    };
    let mut gate = WishingGate::new(rt.clone()?, told, book.share()?);
    let reply = gate
        .answer(&get(rt.alloc(), target)?)
        .ok()
        .context("no reply")?;
    Ok(reply.status)
}

/// A book, and what its gates run in.
#[derive(Drop)]
struct Tried<'a, R> {
    rt: &'a R,
    book: WishBook,
}

/// `wish a hidden 60: Some(Added)`: what becomes of a wish in second 60 for an original of which nothing is shown.
fn wish<R: AllocGlobal>(tried: &mut Tried<'_, R>, step: Step<'_>) -> Result<bool> {
    let alloc = tried.rt.alloc();
    let second = number(step.second)?;
    let asked = asked(alloc, step.name)?;
    is_told(
        alloc,
        tried.book.note(asked, step.how == "shown", second),
        step.wanted,
    )
}

/// `grant: a`, or `grant: none`.
fn grant<R: Wait + AllocGlobal>(tried: &mut Tried<'_, R>, step: Step<'_>) -> Result<bool> {
    is_named(tried.rt.alloc(), tried.book.grant(tried.rt), step.wanted)
}

/// `put-back a`.
fn put_back<R: Wait + AllocGlobal>(tried: &mut Tried<'_, R>, step: Step<'_>) -> Result<bool> {
    let original = named(tried.rt.alloc(), step.name)?;
    tried.book.put_back(tried.rt, &original);
    Ok(true)
}

/// The second that a step names, which may be `now`.
fn second_of(rt: &impl Clock, step: Step<'_>) -> Result<u64> {
    if step.second == "now" {
        now(rt)
    } else {
        number(step.second)
    }
}

/// `end a asked 60`, or `end a spared 60`: something of the original is shown then.
fn end<R: Wait + Clock + AllocGlobal>(tried: &mut Tried<'_, R>, step: Step<'_>) -> Result<bool> {
    let second = second_of(tried.rt, step)?;
    let original = named(tried.rt.alloc(), step.name)?;
    let outcome = Outcome {
        is_found: true,
        is_whole: true,
        is_asked: step.how == "asked",
    };
    tried.book.end(tried.rt, &original, true, outcome, second);
    Ok(true)
}

/// `settled a at 60: Some(true)`.
fn is_settled<R: AllocGlobal>(tried: &mut Tried<'_, R>, step: Step<'_>) -> Result<bool> {
    let alloc = tried.rt.alloc();
    let second = number(step.second)?;
    let is_settled = tried.book.is_settled(&named(alloc, step.name)?, second);
    is_told(alloc, is_settled, step.wanted)
}

/// `list a`: rounds look after this original alone.
fn list<R: Wait + RandomSource + AllocGlobal>(
    tried: &mut Tried<'_, R>,
    step: Step<'_>,
) -> Result<bool> {
    let keys = RandomState::new(tried.rt)?;
    let listed = set_of_one(tried.rt.alloc(), keys, step.name)?;
    tried.book.set_listed(tried.rt, listed);
    Ok(true)
}

/// `room 1`: so many wishes may stand of what isn't shown.
fn set_room<R: Wait>(tried: &mut Tried<'_, R>, step: Step<'_>) -> Result<bool> {
    let room = usize::try_from(number(step.name)?)?;
    tried.book.set_room(tried.rt, room);
    Ok(true)
}

/// `ask 404 /state`: a gate that answers with this status is asked for a target, and answers so.
fn ask_gate<R>(tried: &mut Tried<'_, R>, step: Step<'_>) -> Result<bool>
where
    R: Clock + AllocGlobal + Clone + Drop,
{
    let status = u16::try_from(number(step.name)?)?;
    let found = ask(tried.rt, &tried.book, status, step.how.as_bytes())?;
    Ok(found == status)
}

/// `new`: another book.
fn begin_anew<R: RandomSource + AllocGlobal>(tried: &mut Tried<'_, R>) -> Result<bool> {
    tried.book = book_in(tried.rt)?;
    Ok(true)
}

/// Takes a step of a script; `late: 1` and `turned-away: 1` ask how many wishes came too late, or to a full queue.
fn take_step<R>(tried: &mut Tried<'_, R>, line: &str) -> Result<bool>
where
    R: Wait + Clock + RandomSource + AllocGlobal + Clone + Drop,
{
    let step = read_step(line);
    let alloc = tried.rt.alloc();
    match step.verb {
        "new" => begin_anew(tried),
        "ask" => ask_gate(tried, step),
        "wish" => wish(tried, step),
        "grant" => grant(tried, step),
        "put-back" => put_back(tried, step),
        "end" => end(tried, step),
        "settled" => is_settled(tried, step),
        "list" => list(tried, step),
        "room" => set_room(tried, step),
        "late" => is_told(alloc, tried.book.late(tried.rt), step.wanted),
        "turned-away" => is_told(alloc, tried.book.turned_away(tried.rt), step.wanted),
        "open" => is_told(alloc, tried.book.is_open(), step.wanted),
        _ => bail!("there is no such step"),
    }
}

/// Follows a script on a book.
fn play_on<R>(rt: &R, book: WishBook, script: &str) -> Result<()>
where
    R: Wait + Clock + RandomSource + AllocGlobal + Clone + Drop,
{
    follow(&mut Tried { rt, book }, script, take_step)
}

/// Follows a script on a new book.
fn play<R>(rt: &R, script: &str) -> Result<()>
where
    R: Wait + Clock + RandomSource + AllocGlobal + Clone + Drop,
{
    play_on(rt, book_in(rt)?, script)
}

#[test]
fn a_closed_book_takes_nothing(rt: HostRuntime) -> Result<()> {
    play_on(&rt, WishBook::closed().share()?, "open: false\n")?;
    let script = "open: false
wish a hidden 60: None
grant: none
settled a at 60: None
turned-away: 0
late: 0
ask 404 /timegate/http://a.example/
";
    play_on(&rt, WishBook::closed(), script)
}

#[test]
fn a_wish_goes_through_a_book(rt: HostRuntime) -> Result<()> {
    let book = book_in(&rt)?;
    play_on(&rt, book.share()?, "wish a hidden 60: Some(Added)\n")?;
    let script = "open: true
wish a hidden 60: Some(Waits)
grant: a
put-back a
grant: a
";
    play_on(&rt, book, script)
}

#[test]
fn a_wish_that_ended_is_fresh(rt: HostRuntime) -> Result<()> {
    let script = "wish a hidden 60: Some(Added)
end a asked 60
wish a shown 1059: Some(Fresh)
wish b shown 60: Some(Late)
wish b shown 120: Some(Added)
late: 1
late: 0
settled a at 60: Some(true)
settled b at 60: Some(false)
";
    play(&rt, script)
}

#[test]
fn a_wish_that_asked_nobody_gives_its_place_back(rt: HostRuntime) -> Result<()> {
    let script = "wish b shown 120: Some(Added)
end b spared 120
wish a hidden 120: Some(Added)
";
    play(&rt, script)
}

#[test]
fn a_book_has_room_and_what_rounds_look_after(rt: HostRuntime) -> Result<()> {
    let script = "room 0
wish a hidden 60: Some(Full)
turned-away: 1
list a
wish a shown 60: Some(Listed)
";
    play(&rt, script)
}

#[test]
fn a_gate_notes_what_it_is_asked_for_in_vain(rt: HostRuntime) -> Result<()> {
    let script = "ask 404 /timemap/link/page/2/http://a.example/
grant: none
ask 404 /other/http://a.example/
grant: none
ask 400 /timegate/http://a.example/
grant: none
ask 405 /timegate/http://a.example/
grant: none
ask 404 /timegate/http://a.example/
grant: a
";
    play(&rt, script)
}

#[test]
fn a_gate_notes_what_it_shows(rt: HostRuntime) -> Result<()> {
    let script = "ask 302 /timegate/http://a.example/
grant: a
new
ask 200 /timemap/link/http://a.example/
grant: a
";
    play(&rt, script)
}

/// Each in a new book. The spellings have another case, a dot segment, a port that the scheme has anyway, a fragment.
#[test]
fn however_it_is_spelled_what_is_shown_is_noted_under_one_name(rt: HostRuntime) -> Result<()> {
    let script = "ask 302 /timegate/HTTP://A.example/
grant: a
ask 302 /timegate/HTTP://A.example/
grant: none
new
ask 302 /timegate/http://A.EXAMPLE
grant: a
ask 302 /timegate/http://A.EXAMPLE
grant: none
new
ask 302 /timegate/http://a.example/x/../
grant: a
ask 302 /timegate/http://a.example/x/../
grant: none
new
ask 302 /timegate/http://a.example:80/
grant: a
ask 302 /timegate/http://a.example:80/
grant: none
new
ask 302 /timegate/http://a.example/#top
grant: a
ask 302 /timegate/http://a.example/#top
grant: none
";
    play(&rt, script)
}

#[test]
fn what_is_no_timegate_or_timemap_wishes_for_nothing(rt: HostRuntime) -> Result<()> {
    let script = "ask 200 /timemap/link/page/1/http://a.example/
grant: none
ask 200 /timemap/link/page/x
grant: none
ask 200 /state
grant: none
ask 200 /delta
grant: none
ask 200 /other/http://a.example/
grant: none
ask 200 /timegate/nothing
grant: none
";
    play(&rt, script)
}

#[test]
fn spellings_of_what_was_looked_after_wish_for_nothing(rt: HostRuntime) -> Result<()> {
    let script = "ask 302 /timegate/http://a.example/
grant: a
end a asked now
ask 302 /timegate/HTTP://A.example/
grant: none
ask 302 /timegate/http://A.EXAMPLE
grant: none
ask 302 /timegate/http://a.example/x/../
grant: none
ask 302 /timegate/http://a.example:80/
grant: none
ask 302 /timegate/http://a.example/#top
grant: none
ask 302 /timegate/http://a.example/
grant: none
";
    play(&rt, script)
}

/// Methods and targets, and the original that such a request asks for.
const ASKED: &str = "HEAD|/timegate/http://a.example/|a
POST|/timegate/http://a.example/|none
HEAD|/timemap/link/http://a.example/|a
POST|/timemap/link/http://a.example/|none
";

fn is_asked_for(alloc: Global, case: &str) -> Result<bool> {
    let (method, rest) = halves(case);
    let (target, name) = halves(rest);
    let request = request(alloc, method.as_bytes(), target.as_bytes(), &[])?;
    match asked_original(alloc, &request)? {
        Some(asked) => Ok(*asked.as_original() == named(alloc, name)?),
        None => Ok(name == "none"),
    }
}

#[test]
fn a_request_asks_for_an_original(rt: HostRuntime) -> Result<()> {
    hold(rt.alloc(), ASKED, is_asked_for)
}
