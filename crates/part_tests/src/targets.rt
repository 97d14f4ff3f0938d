//! Where parts stand.
use anyhow::Result;
use delta_parts::{PartAsk, Place, read_target, write_target};
use replica_exchange::Cursor;
use std::alloc::Global;
use std::test::*;
use text_tests::makers::{archive, original};

const CURSOR: Cursor = Cursor {
    incarnation: 7,
    number: 5,
};

fn next(alloc: Global) -> Result<PartAsk> {
    let place = Place {
        archive: archive(b"a1")?,
        original: original(alloc, b"http://a.example/#1")?,
    };
    Ok(PartAsk::Next(CURSOR, place))
}

/// Whether an ask stands at a target, and is read there.
fn stands(alloc: Global, ask: &PartAsk, target: &[u8]) -> Result<bool> {
    let written = write_target(alloc, ask)?;
    let Some(read) = read_target(alloc, target)? else {
        return Ok(false);
    };
    let again = write_target(alloc, &read)?;
    Ok(written.as_slice() == target && again.as_slice() == target && read.cursor() == ask.cursor())
}

#[test]
fn parts_stand_at_their_targets(rt: HostRuntime) -> Result<()> {
    let alloc = rt.alloc();
    assert!(rt; stands(alloc, &PartAsk::First(None), b"/part")?);
    assert!(rt; stands(alloc, &PartAsk::First(Some(CURSOR)), b"/part/7/5")?);
    assert!(rt;
        stands(
            alloc,
            &next(alloc)?,
            b"/part/7/5/a1/687474703a2f2f612e6578616d706c652f2331"
        )?
    );
    Ok(())
}

#[test]
fn other_targets_ask_for_no_part(rt: HostRuntime) -> Result<()> {
    let alloc = rt.alloc();
    for target in [
        b"/parts".as_slice(),
        b"/part/",
        b"/part/7",
        b"/part/7/05",
        b"/part/7/5/a1",
        b"/part/7/5/A1/61",
        b"/part/7/5/a1/6",
        b"/part/7/5/a1/zz",
        b"/part/7/5/a1/",
        b"/delta",
    ] {
        assert!(rt; read_target(alloc, target)?.is_none());
    }
    Ok(())
}
