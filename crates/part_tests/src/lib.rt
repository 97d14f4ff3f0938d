//! Tests of `delta_parts`: what its contracts say, on values from outside. They call public functions alone.
#![tactic(auto)]

#[cfg(test)]
mod targets;
#[cfg(test)]
mod walks;
