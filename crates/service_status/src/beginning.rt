//! The status of a service that begins.
ghost use Rattle.std.specs.Prelude.{◌≡◌, IfOk, map};
ghost use Rattle.service_status.specs.Series.{AreApart, AreNumbered, AreToldApart};

use crate::counts::{EntryCounts, PullCounts, ReplyCounts, WalkCounts};
use crate::status::{
    ArchiveStatus, GateStatus, KnownStatus, PeerStatus, PublishStatus, RoundStatus, Status,
};
use memento_time::{ArchiveName, Clean, NoMemory};
use std::alloc::Global;

/// The archives with these names, before any was walked.
fn begun_archives(alloc: Global, names: &[ArchiveName]) -> Result<Vec<ArchiveStatus>, NoMemory>
    ensures { IfOk result (λ archives. map (λ archive. archive.name) archives.items ≡ names.now) }
{
    let mut archives = Vec::with_capacity(alloc, names.len())?;
    for name in names {
        archives.push(ArchiveStatus {
            name: *name,
            walks: WalkCounts::NONE,
            seconds: 0,
            dormant_until: 0,
            aside_until: 0,
        })?;
    }
    Ok(archives)
}

/// The peers with these bases, numbered from 1, before any was pulled.
fn numbered_peers(alloc: Global, bases: Vec<Clean>) -> Result<Vec<PeerStatus>, NoMemory>
    ensures { IfOk result (λ peers. AreNumbered (λ peer. peer.number) peers.items) }
{
    let mut peers = Vec::with_capacity(alloc, bases.len())?;
    for base in bases {
        let number = peers.len() as u64 + 1;
        peers.push(PeerStatus {
            number,
            base,
            pulls: PullCounts::NONE,
            last: 0,
            entries: EntryCounts::NONE,
            parts: 0,
        })?;
    }
    Ok(peers)
}

/// So many gates, numbered from 1, before any was asked.
fn numbered_gates(alloc: Global, count: usize) -> Result<Vec<GateStatus>, NoMemory>
    ensures { IfOk result (λ gates. AreNumbered (λ gate. gate.number) gates.items) }
{
    let mut gates = Vec::with_capacity(alloc, count)?;
    for place in 0..count {
        gates.push(GateStatus {
            number: place as u64 + 1,
            replies: ReplyCounts::NONE,
        })?;
    }
    Ok(gates)
}

impl Status {
    /// The status of a service of this version that begins, with archives of these names, peers with these bases, and
    /// so many gates. Nothing is told of snapshots, wishes, a file of originals, what is forgotten and parts.
    pub fn begin(
        alloc: Global,
        version: &'static str,
        names: &[ArchiveName],
        bases: Vec<Clean>,
        gates: usize,
    ) -> Result<Status, NoMemory>
        ensures apart { AreApart (λ name. name) names.now → IfOk result AreToldApart }
    {
        Ok(Status {
            clock: 0,
            version,
            is_shown: false,
            rounds: 0,
            round: RoundStatus {
                jobs: 0,
                done: 0,
                passed: 0,
            },
            publishes: PublishStatus {
                published: 0,
                refused: 0,
                last: 0,
            },
            snapshots: None,
            known: KnownStatus {
                entries: 0,
                mementos: 0,
                ahead: 0,
            },
            resident: None,
            archives: begun_archives(alloc, names)?,
            peers: numbered_peers(alloc, bases)?,
            gates: numbered_gates(alloc, gates)?,
            wishes: None,
            room: None,
            list: None,
            forgetting: None,
            is_in_parts: false,
        })
    }
}
