//! Tests of walks by a fetch that counts: that a walk asks for each URL at most once, and keeps every answer; and of a
//! round by one that waits: that its workers walk at once. `told` is of what a walk tells of its archive.
//!
//! No contract says that of walks. What a fetch may give for a URL is a relation, and where it allows every answer and
//! every fault, as this one does and one over sockets has to, a walk that asked again would meet its contract too.
#![tactic(auto)]

#[cfg(test)]
mod asked;
#[cfg(test)]
mod met;
#[cfg(test)]
mod told;
