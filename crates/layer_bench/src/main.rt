//! Does one layer's job by itself and many times, so that `bench/run` can measure it beside a plain Rust program.
//!
//! - `layer_bench links COUNT < PAGE`: reads the links of a page COUNT times.
//! - `layer_bench pages COUNT < PAGE`: reads what the page says COUNT times.
//! - `layer_bench keys COUNT`: merges one memento for each of COUNT originals into a state, one by one.
//! - `layer_bench states COUNT < TEXT`: reads the text of a state and writes it again, COUNT times.
//! - `layer_bench hostile COUNT < TEXT`: reads the text of a state and absorbs it in an index of nothing, COUNT times.
//! - `layer_bench memory COUNT`: fills an index with COUNT mementos, ten of each original.
//! - `layer_bench spread COUNT`: fills an index with 1,000,000 mementos of one archive, as many of each of COUNT
//!   originals.
//! - `layer_bench at_once COUNT`: fills an index with COUNT mementos of each of ten originals, beside another
//!   archive's, in one merge of each.
//! - `layer_bench rounds COUNT`: fills it with these in COUNT revisions, each of which has one memento more.
//! - `layer_bench repeats COUNT`: fills it with these in one revision that comes COUNT times, each time with one more.
//! - `layer_bench texts COUNT`: fills an index from COUNT texts of states, each of which has one key more.
//! - `layer_bench refused COUNT`: has an index try COUNT times to take 1,000 mementos of each of ten originals, and
//!   goes on where memory is refused.
//! - `layer_bench stamped COUNT`: takes these mementos with a replica that stamps its entries.
//! - `layer_bench last COUNT`, `layer_bench all COUNT`: takes them too, and writes 10,000 times the delta with the last
//!   merge, or ten times that with all merges.
//! - `layer_bench walk COUNT`: walks over 64 pages of 1,500 mementos each, COUNT times.
//! - `layer_bench read COUNT`: fetches and reads these pages COUNT times, and does no more with them.
//! - `layer_bench round WORKERS`: a round of 1,000 jobs, each of a page that takes a millisecond.
//!
//! Each time it prints some counts, which must be those of the plain program. With no words it does nothing.
#![tactic(auto)]

mod deltas;
mod growth;
mod keys;
mod links;
mod memory;
mod pages;
mod states;
mod telling;
mod walks;

use crate::telling::tell;
use anyhow::{Context, Result, bail};
use std::alloc::Global;
use std::env;
use std::io::Read;

/// Reads standard input, and does this `count` times with it.
fn read(rt: &HostRuntime, kind: &str, count: u32) -> Result<()> {
    let alloc = rt.alloc();
    let mut text = Vec::new(alloc);
    rt.stdin().read_to_end(&mut text)?;
    for _ in 0..count {
        match kind {
            "links" => tell(rt, &links::counts_of(alloc, &text)?)?,
            "pages" => tell(rt, &pages::counts_of(alloc, &text)?)?,
            "states" => tell(rt, &[states::rewrite(alloc, &text)?])?,
            _ => tell(rt, &[states::absorb(alloc, &text)?])?,
        }
    }
    Ok(())
}

/// Fills a state, an index or a replica so, and counts what is in it.
fn fill(alloc: Global, kind: &str, count: u32) -> Result<usize> {
    match kind {
        "keys" => keys::merge(alloc, count),
        "memory" => memory::fill(alloc, count),
        "spread" => memory::spread(alloc, count),
        "at_once" | "rounds" | "repeats" => growth::take(alloc, kind, count),
        "texts" => growth::take_texts(alloc, count),
        "refused" => growth::try_again(alloc, count),
        "stamped" => deltas::fill(alloc, count),
        _ => bail!("nothing of that name is measured"),
    }
}

/// Only `main` may wait and start threads.
fn main(rt: HostRuntime) -> Result<()> {
    let mut words = env::args(&rt)?.skip(1);
    let Some(kind) = words.next() else {
        return Ok(());
    };
    let count = words.next().context("how often?")?;
    let count = count.parse::<u32>().context("how often?")?;
    match kind.as_str() {
        "links" | "pages" | "states" | "hostile" => read(&rt, &kind, count),
        "last" | "all" => deltas::write(&rt, count, kind.as_str() == "last"),
        "walk" | "read" => walks::go_over(&rt, count, kind.as_str() == "walk"),
        "round" => tell(&rt, &[walks::round(&rt, count as usize)?]),
        kind => tell(&rt, &[fill(rt.alloc(), kind, count)?]),
    }
}
