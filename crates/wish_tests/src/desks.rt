//! Tests of what the thread of the rounds keeps of granted wishes, and of what a wish's walk says.
use anyhow::{Context, Result};
use harvest_lattice::Harvest;
use memento_time::{ArchiveName, Original};
use round_values::{Desk, Millis, answer_to};
use service_log::WishCounts;
use std::alloc::Global;
use std::test::*;
use text_tests::makers::original;
use wish_list::WishAnswer;

const A: &[u8] = b"http://a.example/";

/// Whether the wish for this original ends, and an archive was asked for it in vain.
fn ends_without_answer(desk: &mut Desk, original: &Original) -> bool {
    match desk.take_ended() {
        Some(ended) => {
            let outcome = ended.outcome;
            ended.original == *original
                && outcome.is_asked
                && !outcome.is_found
                && !outcome.is_whole
        }
        None => false,
    }
}

/// A desk with one wish for A, whose only archive may be asked.
fn desk_of_one(alloc: Global) -> Result<Desk> {
    let mut desk = Desk::new(alloc, 1)?;
    desk.push(original(alloc, A)?, &[false])?;
    desk.allow_all();
    Ok(desk)
}

/// A wish whose archive stays busy isn't answered as a whole: it may soon be made again.
#[test]
fn an_archive_that_stays_busy_gives_no_harvest(rt: HostRuntime) -> Result<()> {
    let a = original(rt.alloc(), A)?;
    let mut desk = desk_of_one(rt.alloc())?;
    let job = desk.next().context("no job")?;
    desk.ask(&job);
    assert!(rt; desk.add_again(&a, 0) && desk.take_ended().is_none());
    desk.skip(0);
    assert!(rt; ends_without_answer(&mut desk, &a));
    Ok(())
}

/// What one line of the log told of wishes isn't told by the next.
#[test]
fn each_line_about_wishes_counts_anew(rt: HostRuntime) -> Result<()> {
    let mut desk = Desk::new(rt.alloc(), 1)?;
    desk.count(true);
    desk.count_failed();
    let told = desk.take_counts(Millis(0)).context("nothing is told")?;
    let first = WishCounts {
        found: 1,
        ended: 1,
        failed: 1,
    };
    assert!(rt; told == first && desk.take_counts(Millis(60_000)).is_none());
    desk.count(false);
    let told = desk.take_counts(Millis(60_000)).context("nothing is told")?;
    let second = WishCounts {
        found: 0,
        ended: 1,
        failed: 0,
    };
    assert!(rt; told == second);
    Ok(())
}

/// An archive whose pages are missing may have copies on them.
#[test]
fn a_part_of_nothing_says_nothing(rt: HostRuntime) -> Result<()> {
    let alloc = rt.alloc();
    let name = ArchiveName::new(b"arc.example").context("no name")?;
    let a = original(alloc, A)?;
    let whole = Ok(Harvest::new(name, &a, 1, Vec::new(alloc))?);
    let part = Ok(Harvest::new_part(name, &a, 1, Vec::new(alloc))?);
    assert!(rt; matches!(answer_to(&whole), WishAnswer::NoCopies));
    assert!(rt; matches!(answer_to(&part), WishAnswer::NoHarvest));
    Ok(())
}
