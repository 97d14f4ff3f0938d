//! Probes gates and their merger that no contract can make: races between threads, refused memory, and speed.
//!
//! - `gate_probe rounds COUNT`: so often, a gate learns the receipt of a publish while another, that isn't told, is
//!   asked in a second thread.
//! - `gate_probe climbs`: 200 publishes, each beside two gates that were told of the one before and are asked in
//!   threads of their own.
//! - `gate_probe doors`: gates over sockets, two at once, one that serves two connections at once, and one whose client
//!   closes after a byte of its reply.
//! - `gate_probe refusals`: publishes and asks, and calls again whatever was refused memory. Whichever request is
//!   refused, the same is printed (`tests/memory` refuses each in turn).
//! - `gate_probe replies`: replies over sockets, with the same promise.
//! - `gate_probe readers GATES`: how many replies a second so many gates give in threads of their own, alone and while
//!   the merger publishes as fast as it can (`bench/run`).
//! - `gate_probe publishes`: how long a publish takes, by the number of pending merges.
//! - `gate_probe memory`: publishes 1,000,000 mementos, for whoever watches how much memory that takes.
//!
//! With no words it does nothing.
#![tactic(auto)]

mod climbs;
mod doors;
mod harvests;
mod refusals;
mod replies;
mod rounds;
mod speeds;

use anyhow::{Context, Result, bail};
use std::env::{self, Env};

/// A probe, as the words of the command line name it.
#[derive(Clone, Copy, Debug)]
enum Probe {
    Nothing,
    Rounds { count: u32 },
    Climbs,
    Doors,
    Refusals,
    Replies,
    Readers { gates: u32 },
    Publishes,
    Memory,
}

fn probe_of(rt: &(impl Env + Alloc)) -> Result<Probe> {
    let mut words = env::args(rt)?.skip(1);
    let Some(kind) = words.next() else {
        return Ok(Probe::Nothing);
    };
    let count = words.next();
    match kind.as_str() {
        "rounds" => {
            let count = count.context("how many rounds?")?;
            Ok(Probe::Rounds {
                count: count.parse::<u32>()?,
            })
        }
        "climbs" => Ok(Probe::Climbs),
        "doors" => Ok(Probe::Doors),
        "refusals" => Ok(Probe::Refusals),
        "replies" => Ok(Probe::Replies),
        "readers" => {
            let gates = count.context("how many gates?")?;
            Ok(Probe::Readers {
                gates: gates.parse::<u32>()?,
            })
        }
        "publishes" => Ok(Probe::Publishes),
        "memory" => Ok(Probe::Memory),
        _ => bail!("there is no probe of that name"),
    }
}

fn main(rt: HostRuntime) -> Result<()> {
    let alloc = rt.alloc();
    // Memory may be refused here too.
    let probe = match probe_of(&rt) {
        Ok(probe) => probe,
        Err(_) => probe_of(&rt)?,
    };
    match probe {
        Probe::Nothing => {}
        Probe::Rounds { count } => {
            rounds::play(&rt, alloc, count)?;
            println!(rt; "{count} rounds")?;
        }
        Probe::Climbs => {
            climbs::play(&rt, alloc)?;
            println!(rt; "{} publishes", climbs::PUBLISHES)?;
        }
        Probe::Doors => {
            doors::meet(&rt)?;
            doors::share(&rt)?;
            let faults = doors::leave(&rt)?;
            println!(rt;
                "two gates were served at once, and the next client behind one that left; faults {faults}"
            )?;
        }
        Probe::Refusals => {
            for reply in &refusals::perform(&rt, alloc)? {
                replies::print(&rt, reply)?;
            }
        }
        Probe::Replies => {
            doors::insist(&rt)?;
            println!(rt; "each client got its reply, or a refusal and the next its reply")?;
        }
        Probe::Readers { gates } => speeds::measure_readers(&rt, alloc, gates)?,
        Probe::Publishes => speeds::measure_publishes(&rt, alloc)?,
        Probe::Memory => speeds::hold(&rt, alloc)?,
    }
    Ok(())
}
