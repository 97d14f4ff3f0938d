//! Tests of `service_log`: what a line says, and how walks are counted.
use anyhow::{Context, Result};
use harvest_lattice::Harvest;
use harvester::WalkFault;
use memento_time::{ArchiveName, Original};
use service_log::{Cause, Counts, Line, Matter, WishCounts, name_text, write_line};

const NAME: &[u8] = b"arc.example";

#[test]
fn a_line_is_written_behind_its_mark(rt: HostRuntime) -> Result<()> {
    let name = ArchiveName::new(NAME).context("no name")?;
    assert!(rt; name_text(&name) == "arc.example");
    let counts = Counts {
        walks: 3,
        failed: 2,
        parts: 1,
    };
    let cause = Cause::Known {
        fault: WalkFault::Status(503),
        url: "http://arc.example/list",
    };
    let line = Line::Archive {
        round: 7,
        name: name_text(&name),
        matter: Matter::Failed { counts, cause },
    };
    let mut log = Vec::new(rt.alloc());
    write_line(rt.alloc(), line, &mut log)?;
    let told =
        "log: round 7: archive arc.example: 2 of 3 walks failed, the first: status 503 from http://arc.example/list\n";
    assert!(rt; log.as_slice() == told.as_bytes());
    write_line(rt.alloc(), Line::Output, &mut log)?;
    let more = "log: standard output fails: no further round is made\n";
    assert!(rt; log.strip_prefix(told.as_bytes()) == Some(more.as_bytes()));
    Ok(())
}

#[test]
fn walks_are_counted_by_their_ends(rt: HostRuntime) -> Result<()> {
    let alloc = rt.alloc();
    let name = ArchiveName::new(NAME).context("no name")?;
    let original = Original::new(alloc, b"http://a.example/")?;
    let whole = Ok(Harvest::new(name, &original, 1, Vec::new(alloc))?);
    let part = Ok(Harvest::new_part(name, &original, 2, Vec::new(alloc))?);
    let counts = Counts::NONE.with(&whole).with(&part);
    let counts = counts.with(&Err(WalkFault::TooManyPages));
    let expected = Counts {
        walks: 3,
        failed: 1,
        parts: 1,
    };
    assert!(rt; counts == expected);
    Ok(())
}

#[test]
fn how_many_wishes_are_found_is_told_first(rt: HostRuntime) -> Result<()> {
    for (failed, told) in [
        (0, "log: wishes: 2 of 3 found\n"),
        (4, "log: wishes: 2 of 3 found, 4 walks failed\n"),
    ] {
        let counts = WishCounts {
            found: 2,
            ended: 3,
            failed,
        };
        let mut log = Vec::new(rt.alloc());
        write_line(rt.alloc(), Line::Wishes(counts), &mut log)?;
        assert!(rt; log.as_slice() == told.as_bytes(), "{told}");
    }
    Ok(())
}
