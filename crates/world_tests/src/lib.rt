//! Tests of `replica_world`: what its contracts say of worlds and of scripts, on values from outside. They call public
//! functions alone, so that it is proved without them.
//!
//! Whole scripts, each with what it must write, stand in `examples/` and in `tests/scripts/` at the repository's top.
#![tactic(auto)]

#[cfg(test)]
mod scripts;
#[cfg(test)]
mod worlds;
