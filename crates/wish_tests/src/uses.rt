//! How `wish_list` is used: one wish, from a question to its end.
use anyhow::{Context, Result};
use std::alloc::AllocGlobal;
use std::hash::RandomState;
use std::num::NonZeroUsize;
use std::test::*;
use wish_list::{Decision, Found, WishLimits, Wishes};
use wishing_gates::wished_at;

#[test]
fn a_wish_is_taken_granted_and_ended(rt: HostRuntime) -> Result<()> {
    let limits = WishLimits {
        remembered: NonZeroUsize::new(1_000).context("no room")?,
        again: 86_400,
        in_a_minute: 60,
    };
    let mut wishes = Wishes::new(rt.alloc(), limits, RandomState::new(&rt)?)?;
    wishes.set_room(10);
    // In second 60 a reader asks for an original of which nothing is shown.
    let asked = wished_at(rt.alloc(), b"http://a.example/")?.context("no original")?;
    assert!(rt; wishes.wish(asked, false, 60)? == Decision::Added);
    // Archives are asked for it, and one of them has a copy in second 62.
    let original = wishes.grant()?.context("no wish")?;
    let found = Found {
        is_shown: true,
        is_whole: true,
        second: 62,
    };
    wishes.note(&original, found)?;
    wishes.end(&original, true);
    // Who asks again within a day is answered, and no archive is asked.
    let again = wished_at(rt.alloc(), b"http://a.example/")?.context("no original")?;
    assert!(rt; wishes.wish(again, true, 63)? == Decision::Fresh);
    Ok(())
}
