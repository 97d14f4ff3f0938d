//! The version of the program.

/// The newest number of CHANGELOG.md, with which `tests/single_questions` compares it.
pub(crate) const VERSION: &str = "0.4.0";
