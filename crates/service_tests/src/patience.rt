//! For how long archives ask to be left alone.
use crate::archives::{ALL, add, answer, walk_unkept};
use anyhow::Result;
use harvester::{Answer, MemoryFetch, asked_patience};
use memento_time::{Items, Octets};
use std::alloc::Global;
use text_tests::makers::clean;

/// An answer with this status and this value of `Retry-After`.
fn asking(alloc: Global, status: u16, value: &str) -> Result<Answer> {
    let mut asking = answer(alloc, status, "", "")?;
    let mut values = Vec::new(alloc);
    values.push(Octets::from_slice(alloc, value.as_bytes())?)?;
    asking.retry_after = Items::of(values);
    Ok(asking)
}

#[test]
fn patience_that_is_asked_for(rt: HostRuntime) -> Result<()> {
    let alloc = rt.alloc();
    let cases = [
        (200, "7", None),
        (429, "7", Some(7)),
        (503, "soon", Some(60)),
        (503, "-5", Some(60)),
        (503, "86400", Some(3_600)),
        (503, "999999999999999999999999999999", Some(3_600)),
        (429, "Sun, 06 Nov 1994 08:50:07 GMT", Some(30)),
        (429, "Sun, 06 Nov 1994 08:49:07 GMT", Some(0)),
        (429, "Fri, 31 Dec 9999 23:59:59 GMT", Some(3_600)),
    ];
    for (status, value, seconds) in cases {
        let asked = asked_patience(&asking(alloc, status, value)?, 784_111_777);
        assert!(rt; asked == seconds, "{value}");
    }
    Ok(())
}

#[test]
fn patience_without_a_time(rt: HostRuntime) -> Result<()> {
    for (status, seconds) in [(429, Some(60)), (503, None)] {
        let asked = asked_patience(&answer(rt.alloc(), status, "", "")?, 784_111_777);
        assert!(rt; asked == seconds, "{status}");
    }
    Ok(())
}

#[test]
fn the_longest_patience_counts(rt: HostRuntime) -> Result<()> {
    let alloc = rt.alloc();
    let mut table = MemoryFetch::new(alloc);
    add(&mut table, alloc, "http://arc.example/i", 200, "", ALL)?;
    for (url, status, value) in [
        (b"http://arc.example/p1".as_slice(), 503, "120"),
        (b"http://arc.example/p2", 429, "7"),
    ] {
        table.add(clean(alloc, url)?, asking(alloc, status, value)?)?;
    }
    assert!(rt; walk_unkept(&rt, &table)? == (Some((0, true)), Some(120)));
    Ok(())
}
