//! Reads a TimeMap, an index or a page in link-format from its input, and writes what that lists in JSON and in CDXJ,
//! or in the form that its word names: `json` or `cdxj`. Ends with status 1 where the input isn't such a text.
//!
//! `tests/formats` compares what it writes with what other programs read in it.
#![tactic(auto)]

use anyhow::{Result, bail};
use std::env;
use std::io::{Read, Write};
use timemap_formats::{Form, Listing, read_listing, write_listing};

fn write_form(rt: &HostRuntime, form: Form, listing: &Listing) -> Result<()> {
    let text = write_listing(rt.alloc(), form, listing)?;
    let mut out = rt.stdout();
    out.write_all(&text)?;
    out.write_all(b"\n")?;
    Ok(())
}

fn run(rt: &HostRuntime) -> Result<()> {
    let word = env::args(rt)?.nth(1);
    let mut input = Vec::new(rt.alloc());
    rt.stdin().read_to_end(&mut input)?;
    let Some(listing) = read_listing(rt.alloc(), &input)? else {
        bail!("not a listing in link-format");
    };
    let word = match &word {
        Some(word) => word.as_str(),
        None => "",
    };
    if word != "cdxj" {
        write_form(rt, Form::Json, &listing)?;
    }
    if word != "json" {
        write_form(rt, Form::Cdxj, &listing)?;
    }
    Ok(())
}

fn main(rt: HostRuntime) -> Result<()> {
    run(&rt)
}
