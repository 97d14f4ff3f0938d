//! How `published_index` is used: a harvest is published, and a gate answers from it.
use anyhow::{Context, Result};
use knowledge_tests::makers::{get, location, merge};
use published_index::open;
use std::alloc::AllocGlobal;
use std::test::*;
use text_tests::makers::{FIRST_DAY, service};

#[test]
fn a_gate_answers_from_what_is_published(rt: HostRuntime) -> Result<()> {
    let alloc = rt.alloc();
    let memento = b"http://m.example/1";
    let found = merge(
        alloc,
        b"a1",
        b"http://a.example/",
        1,
        &[(FIRST_DAY, memento)],
    )?;
    let request = get(alloc, b"/timegate/http://a.example/")?;
    let (mut merger, mut gates) = open(&rt, alloc, service(alloc)?, 1, 1)?;
    let asked = gates.pop().map(|mut gate| {
        let before = gate.answer(&request).map(|reply| reply.status);
        let told = merger.append(&found).is_ok() && merger.publish(&rt).is_ok();
        (before, told, gate.answer(&request))
    });
    // A merger is closed, since gates may wait for it.
    merger.close(&rt);
    let (before, told, after) = asked.context("no gate")?;
    let after = after?;
    assert!(rt; before? == 404 && told && after.status == 302);
    assert!(rt; location(&after) == Some(memento.as_slice()));
    Ok(())
}
