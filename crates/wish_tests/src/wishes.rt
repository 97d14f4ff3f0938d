//! Tests of wishes. They are scripts: originals have a letter there, `shown` says that
//! something of an original is shown, and `spared` that no archive was asked.
use anyhow::{Context, Result, bail};
use memento_time::Original;
use original_sets::{Key, OriginalSet};
use std::alloc::{AllocGlobal, Global};
use std::hash::RandomState;
use std::num::NonZeroUsize;
use std::random::RandomSource;
use std::test::*;
use text_tests::makers::original;
use text_tests::scripts::{Step, is_told, read_step};
use text_tests::tables::{follow, number};
use wish_list::{AskedOriginal, Found, MOST_WISHES, RETRY, WishLimits, Wishes};
use wishing_gates::wished_at;

/// The original of a letter, or of another name of a host; or of a whole address.
pub(crate) fn named(alloc: Global, name: &str) -> Result<Original> {
    if name.contains('/') {
        return original(alloc, name.as_bytes());
    }
    let address = format!(in alloc; "http://{name}.example/")?;
    original(alloc, address.as_bytes())
}

/// The same, to be wished for.
pub(crate) fn asked(alloc: Global, name: &str) -> Result<AskedOriginal> {
    let original = named(alloc, name)?;
    wished_at(alloc, original.as_bytes())?.context("no original")
}

/// Whether there is an original, and it is that of a name; or there is none where the name is `none`.
pub(crate) fn is_named(alloc: Global, found: Option<Original>, name: &str) -> Result<bool> {
    match found {
        Some(found) => Ok(found == named(alloc, name)?),
        None => Ok(name == "none"),
    }
}

/// A set of one original.
pub(crate) fn set_of_one(alloc: Global, keys: RandomState, name: &str) -> Result<OriginalSet> {
    let mut set = OriginalSet::with_room(alloc, 1, keys)?;
    if !set.insert(Key::new(&named(alloc, name)?)?)? {
        bail!("an empty set had it");
    }
    Ok(set)
}

/// Wishes, and by what sets of originals for them are made.
#[derive(Drop)]
struct Tried {
    alloc: Global,
    keys: RandomState,
    wishes: Wishes,
}

/// No wishes, of which so many may be taken in a minute. So many originals of which something is shown are remembered.
fn no_wishes<R>(rt: &R, remembered: usize, in_a_minute: u64) -> Result<Tried>
where
    R: RandomSource + AllocGlobal,
{
    let limits = WishLimits {
        remembered: NonZeroUsize::new(remembered).context("no room")?,
        again: 1_000,
        in_a_minute,
    };
    let keys = RandomState::new(rt)?;
    Ok(Tried {
        alloc: rt.alloc(),
        keys,
        wishes: Wishes::new(rt.alloc(), limits, keys)?,
    })
}

/// `wish a hidden 60: Added`: what is decided on a wish in second 60 for an original of which nothing is shown.
fn wish(tried: &mut Tried, step: Step<'_>) -> Result<bool> {
    let second = number(step.second)?;
    let asked = asked(tried.alloc, step.name)?;
    let decision = tried.wishes.wish(asked, step.how == "shown", second)?;
    is_told(tried.alloc, decision, step.wanted)
}

/// `note a whole 60`: an original was looked after in second 60. Each archive answered, unless it is a `part`, and had
/// nothing, unless it is `shown`.
fn note(tried: &mut Tried, step: Step<'_>) -> Result<bool> {
    let found = Found {
        is_shown: step.how == "shown",
        is_whole: step.how != "part",
        second: number(step.second)?,
    };
    tried.wishes.note(&named(tried.alloc, step.name)?, found)?;
    Ok(true)
}

/// `end a asked`, or `end a spared`.
fn end(tried: &mut Tried, step: Step<'_>) -> Result<bool> {
    let original = named(tried.alloc, step.name)?;
    tried.wishes.end(&original, step.how == "asked");
    Ok(true)
}

/// `grant: a`, or `grant: none`.
fn grant(tried: &mut Tried, step: Step<'_>) -> Result<bool> {
    is_named(tried.alloc, tried.wishes.grant()?, step.wanted)
}

/// `put-back a`.
fn put_back(tried: &mut Tried, step: Step<'_>) -> Result<bool> {
    tried.wishes.put_back(&named(tried.alloc, step.name)?);
    Ok(true)
}

/// `settled a at 60: true`.
fn is_settled(tried: &mut Tried, step: Step<'_>) -> Result<bool> {
    let second = number(step.second)?;
    let original = named(tried.alloc, step.name)?;
    let is_settled = tried.wishes.is_settled(&original, second)?;
    is_told(tried.alloc, is_settled, step.wanted)
}

/// `list a`: rounds look after this original alone.
fn list(tried: &mut Tried, step: Step<'_>) -> Result<bool> {
    let listed = set_of_one(tried.alloc, tried.keys, step.name)?;
    drop(tried.wishes.set_listed(listed));
    Ok(true)
}

/// `room 1`: so many wishes may stand of what isn't shown.
fn set_room(tried: &mut Tried, step: Step<'_>) -> Result<bool> {
    tried.wishes.set_room(usize::try_from(number(step.name)?)?);
    Ok(true)
}

/// Takes a step of a script; `late: 1` and `turned-away: 1` ask how many wishes came too late, or to a full queue.
fn take_step(tried: &mut Tried, line: &str) -> Result<bool> {
    let step = read_step(line);
    match step.verb {
        "wish" => wish(tried, step),
        "note" => note(tried, step),
        "end" => end(tried, step),
        "grant" => grant(tried, step),
        "put-back" => put_back(tried, step),
        "settled" => is_settled(tried, step),
        "list" => list(tried, step),
        "room" => set_room(tried, step),
        "late" => is_told(tried.alloc, tried.wishes.late(), step.wanted),
        "turned-away" => is_told(tried.alloc, tried.wishes.turned_away(), step.wanted),
        _ => bail!("there is no such step"),
    }
}

/// Follows a script from no wishes on, of which two may be taken in a minute.
fn play<R: RandomSource + AllocGlobal>(rt: &R, script: &str) -> Result<()> {
    follow(&mut no_wishes(rt, 9, 2)?, script, take_step)
}

#[test]
fn a_wish_is_taken_once_and_two_in_a_minute(rt: HostRuntime) -> Result<()> {
    let script = "wish a hidden 60: Added
wish a hidden 61: Waits
wish b shown 119: Added
wish c hidden 119: Late
wish c hidden 120: Added
";
    play(&rt, script)
}

#[test]
fn a_minute_is_given_once_in_whatever_order_gates_read_the_clock(rt: HostRuntime) -> Result<()> {
    let script = "wish a hidden 119: Added
wish b hidden 119: Added
wish c hidden 120: Added
wish d hidden 119: Added
wish e hidden 119: Late
wish e hidden 179: Late
wish e hidden 180: Added
late: 2
late: 0
";
    play(&rt, script)
}

#[test]
fn a_clock_that_was_ahead_keeps_no_wish(rt: HostRuntime) -> Result<()> {
    let script = "wish a hidden 3456060: Added
wish b hidden 3456060: Added
wish c hidden 3456060: Late
wish c hidden 60: Added
";
    play(&rt, script)
}

/// B is ahead by less than 1,000 seconds, within which an original isn't looked after again.
#[test]
fn what_was_looked_after_ahead_of_the_clock_is_due(rt: HostRuntime) -> Result<()> {
    let script = "wish a hidden 3456000: Added
note a whole 3456000
end a spared
wish b hidden 1059: Added
note b whole 1059
end b spared
wish b hidden 60: Fresh
wish a hidden 60: Added
";
    play(&rt, script)
}

#[test]
fn a_wish_is_granted_and_put_back(rt: HostRuntime) -> Result<()> {
    let script = "wish a hidden 60: Added
grant: a
grant: none
put-back a
grant: a
";
    play(&rt, script)
}

/// What archives are missing for is looked after again once `RETRY` seconds are over.
#[test]
fn what_was_looked_after_is_fresh(rt: HostRuntime) -> Result<()> {
    let script = "wish a hidden 2000: Added
note a whole 2000
end a spared
wish b hidden 2000: Added
note b part 2000
end b spared
wish b hidden 2599: Fresh
wish b hidden 2600: Added
wish a hidden 2999: Fresh
wish a hidden 3000: Added
";
    play(&rt, script)
}

#[test]
fn ten_minutes_are_six_hundred_seconds(rt: HostRuntime) -> Result<()> {
    assert!(rt; RETRY == 600);
    Ok(())
}

#[test]
fn what_was_not_wished_for_is_not_noted(rt: HostRuntime) -> Result<()> {
    play(&rt, "note a whole 60\nwish a hidden 60: Added\n")
}

/// At first nothing is known of A, and in second 1,060 it is due. Another spelling of it isn't looked after.
#[test]
fn a_text_is_settled_if_it_is_that_of_what_was_looked_after(rt: HostRuntime) -> Result<()> {
    let script = "settled a at 60: false
wish a shown 60: Added
note a shown 60
end a asked
settled a at 1059: true
settled a at 1060: false
settled HTTP://A.example/ at 60: false
list b
settled b at 60: true
";
    play(&rt, script)
}

/// In the end C has the place of A, and an archive was asked for B.
#[test]
fn a_wish_that_asks_no_archive_does_not_count(rt: HostRuntime) -> Result<()> {
    let script = "wish a shown 60: Added
wish b shown 60: Added
wish c hidden 60: Late
end a spared
wish c hidden 60: Added
end b asked
wish c hidden 60: Waits
wish a hidden 60: Late
";
    play(&rt, script)
}

#[test]
fn a_wish_of_an_earlier_minute_gives_none_back(rt: HostRuntime) -> Result<()> {
    let script = "wish a shown 60: Added
wish b hidden 120: Added
wish c hidden 120: Added
end a spared
wish a shown 120: Late
";
    play(&rt, script)
}

/// Nothing of A is shown the second time.
#[test]
fn rounds_have_their_originals(rt: HostRuntime) -> Result<()> {
    play(
        &rt,
        "list a\nwish a shown 60: Listed\nwish a hidden 60: Added\n",
    )
}

#[test]
fn room_is_bounded_for_what_is_not_shown(rt: HostRuntime) -> Result<()> {
    let script = "room 1
wish a hidden 60: Added
wish b hidden 60: Full
wish b shown 60: Added
turned-away: 1
turned-away: 0
";
    play(&rt, script)
}

/// A and B are looked after in this order, and something of each is shown.
const A_AND_B: &str = "wish a hidden 0: Added
note a shown 0
end a spared
wish b hidden 0: Added
note b shown 0
end b spared
";

/// C takes the place of A or of B. The wish for D, if there is one, is over by then.
const THEN_C: &str = "end d asked
wish c hidden 1020: Added
note c shown 1020
end c spared
";

const A_IS_KEPT: &str = "wish a shown 999: Fresh\nwish b shown 999: Added\n";

const B_IS_KEPT: &str = "wish b shown 999: Fresh\nwish a shown 999: Added\n";

/// Follows a script between what happens to A and B, and what happens to C; and then another.
fn play_between(tried: &mut Tried, script: &str, kept: &str) -> Result<()> {
    follow(tried, A_AND_B, take_step)?;
    follow(tried, script, take_step)?;
    follow(tried, THEN_C, take_step)?;
    follow(tried, kept, take_step)
}

/// The same from no wishes on, of which two may be taken in a minute.
fn remember<R: RandomSource + AllocGlobal>(rt: &R, script: &str, kept: &str) -> Result<()> {
    play_between(&mut no_wishes(rt, 2, 2)?, script, kept)
}

#[test]
fn what_was_asked_for_is_remembered_longer(rt: HostRuntime) -> Result<()> {
    for script in [
        "wish a shown 999: Fresh\n",
        "wish a shown 1000: Added\n",
        "wish a hidden 1000: Added\nwish a shown 1000: Waits\n",
        "wish d hidden 1000: Added\nwish e hidden 1000: Added\nwish a shown 1000: Late\n",
    ] {
        remember(&rt, script, A_IS_KEPT)?;
    }
    remember(&rt, "", B_IS_KEPT)
}

/// Wishes for one original less than may be wished for at once.
fn crowd(tried: &mut Tried) -> Result<()> {
    for number in 1..MOST_WISHES {
        let name = format!(in tried.alloc; "{number}")?;
        let _ = tried.wishes.wish(asked(tried.alloc, &name)?, false, 0)?;
    }
    Ok(())
}

#[test]
fn what_a_full_queue_turns_away_is_remembered_longer(rt: HostRuntime) -> Result<()> {
    let mut tried = no_wishes(&rt, 2, 2_000)?;
    crowd(&mut tried)?;
    let script = "wish d hidden 1000: Added\nwish a shown 1000: Full\n";
    play_between(&mut tried, script, A_IS_KEPT)
}

#[test]
fn what_rounds_look_after_is_remembered_no_longer(rt: HostRuntime) -> Result<()> {
    let mut tried = no_wishes(&rt, 2, 2)?;
    follow(&mut tried, "list a\n", take_step)?;
    play_between(
        &mut tried,
        "wish a shown 1000: Listed\n",
        "wish b shown 999: Fresh\n",
    )
}
