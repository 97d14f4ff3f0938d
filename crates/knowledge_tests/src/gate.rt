//! Tests of `timegate`: requests that lead to no memento. What it answers to others stands in `examples` and
//! `tests/scripts`, at the repository's top.
use crate::makers::get;
use anyhow::Result;
use replica_exchange::Stamped;
use std::alloc::Global;
use std::test::*;
use text_tests::makers::service;
use timegate::{answer, original_at};

/// How a replica that knows nothing answers.
fn status_of(alloc: Global, target: &str) -> Result<u16> {
    let request = get(alloc, target.as_bytes())?;
    let reply = answer(alloc, &service(alloc)?, &Stamped::new(alloc, 1), &request)?;
    Ok(reply.status)
}

#[test]
fn nothing_is_shown(rt: HostRuntime) -> Result<()> {
    for (target, status) in [
        ("/timegate/http://a.example/", 404),
        ("/timemap/link/http://a.example/", 404),
        ("/timemap/link/page/1/http://a.example/", 404),
        ("/timegate/nonsense", 400),
        ("/timemap/link/nonsense", 400),
    ] {
        assert!(rt; status_of(rt.alloc(), target)? == status, "{target}");
    }
    Ok(())
}

#[test]
fn bytes_name_an_original(rt: HostRuntime) -> Result<()> {
    for (bytes, original) in [
        (b"http://a.example".as_slice(), Some("http://a.example/")),
        (b"nonsense", None),
        (b"http://a.example/\xff", None),
    ] {
        let named = original_at(rt.alloc(), bytes)?;
        assert!(rt; named.as_ref().map(|found| found.as_bytes()) == original.map(str::as_bytes));
    }
    Ok(())
}
