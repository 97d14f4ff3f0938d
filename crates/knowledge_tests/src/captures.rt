//! Mementos of the original `http://a.example/`, for the tests here.
use anyhow::Result;
use memento_time::{Memento, Original};
use std::alloc::Global;
use text_tests::makers::{FIRST_DAY, THIRD_DAY, mementos, original};

/// A memento by its second and its address.
pub(crate) type Capture = (u64, &'static [u8]);

pub(crate) const FIRST: Capture = (FIRST_DAY, b"http://m.example/1");

pub(crate) const SECOND: Capture = (THIRD_DAY, b"http://m.example/2");

/// At the second of `SECOND`.
pub(crate) const THIRD: Capture = (THIRD_DAY, b"http://m.example/3");

pub(crate) const ROOT: &[u8] = b"http://a.example/";

pub(crate) fn root(alloc: Global) -> Result<Original> {
    original(alloc, ROOT)
}

/// Whether these are the mementos of a list.
pub(crate) fn are(alloc: Global, list: &[Memento], captures: &[Capture]) -> Result<bool> {
    Ok(list == mementos(alloc, captures)?.as_slice())
}
