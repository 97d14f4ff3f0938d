//! The replay alone: what `aggregator replay` does, without the crates that sockets need.
//!
//! `./run` takes it by `rt try` where nothing is built, since that compiles all that a program stands on.
#![tactic(auto)]

use replica_world::{ReplayFault, Watched, replay};
use std::process::ExitCode;

/// The exit status of a fault: 2 for a wrong script, 3 for a device or memory.
fn status_of(fault: ReplayFault) -> ExitCode {
    match fault {
        ReplayFault::BadLine { .. } => ExitCode::from(2),
        ReplayFault::Read | ReplayFault::Write | ReplayFault::NoMemory => ExitCode::from(3),
    }
}

fn main(rt: HostRuntime) -> ExitCode {
    let mut input = Watched::new(rt.stdin());
    let mut output = Watched::new(rt.stdout());
    match replay(rt.alloc(), &mut input, &mut output) {
        Ok(()) => ExitCode::SUCCESS,
        Err(fault) => {
            let _ = eprintln!(rt; "{fault}");
            status_of(fault)
        }
    }
}
