//! Texts as URLs (`url_texts`).
use crate::tables::{halves, hold, is};
use anyhow::{Context, Result};
use std::alloc::Global;
use url_texts::{join_url, read_url};

/// Texts, and the URL that each is.
const URLS: &str = "HTTP://A.example:80/b c|http://a.example/b%20c
/b|none
http://a b/|none
";

fn is_url(alloc: Global, case: &str) -> Result<bool> {
    let (text, wanted) = halves(case);
    Ok(match read_url(alloc, text)? {
        Some(url) => is(url.as_str().as_bytes(), wanted),
        None => is(b"none", wanted),
    })
}

/// Targets, and the URL that each is below `http://a/b/c`.
const TARGETS: &str = "../d?e|http://a/d?e
//a b/|none
";

fn is_joined(alloc: Global, case: &str) -> Result<bool> {
    let (target, wanted) = halves(case);
    let base = read_url(alloc, "http://a/b/c")?.context("the base is no URL")?;
    Ok(match join_url(&base, target)? {
        Some(url) => is(url.as_str().as_bytes(), wanted),
        None => is(b"none", wanted),
    })
}

#[test]
fn texts_are_urls_or_none(rt: HostRuntime) -> Result<()> {
    hold(rt.alloc(), URLS, is_url)
}

#[test]
fn targets_are_joined_to_a_base(rt: HostRuntime) -> Result<()> {
    hold(rt.alloc(), TARGETS, is_joined)
}
