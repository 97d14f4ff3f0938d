//! Makes the public calls of mergers and gates, of what stands between them and HTTP, and of other forms than
//! link-format, while requests for memory may be refused, and names each that is. `tests/memory` refuses each
//! request in turn.
//!
//! `refusal_probe` does so for the crates below.
#![tactic(auto)]

mod forms;
mod services;

use anyhow::Result;

fn main(rt: HostRuntime) -> Result<()> {
    let alloc = rt.alloc();
    services::perform(&rt, alloc)?;
    forms::perform(&rt, alloc)
}
