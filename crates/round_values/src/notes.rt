//! What a round notes of its walks, for the log.
ghost use Rattle.std.specs.Prelude.{◌≡◌, ◌<◌, IfErr, IfSome};
ghost use Rattle.service_log.specs.Counts.{counts_after};
ghost use Rattle.round_values.specs.Notes.{IsFirst};

use crate::logs::Log;
use crate::reasons::Reasons;
use harvest_lattice::Harvest;
use harvester::WalkFault;
use memento_time::{ArchiveName, Clean};
use service_log::{Cause, Counts, Line, Matter, Want, name_text};
use service_settings::Settings;
use std::alloc::Global;
use std::io::Write;

/// The first walk of an archive that failed in a round: where it began, and why it failed.
#[derive(Drop)]
pub(crate) struct First {
    url: Clean,
    fault: WalkFault,
}

/// From how many originals on the log is told that they lost all their copies.
const MANY_EMPTIED: u64 = 10;

/// What a round notes of one archive.
#[derive(Drop)]
pub(crate) struct Noted {
    counts: Counts,
    /// Also `None` if memory was refused for its copy.
    first: Option<First>,
    reasons: Reasons,
    /// How many originals had copies before, and have none now.
    emptied: u64,
    /// Whether the log was told in this round that the archive is dormant.
    told_dormant: bool,
    /// Whether the log was told in this round that the archive answers again.
    told_awake: bool,
}

impl Noted {
    /// Takes in a walk that began at this URL.
    fn add(&mut self, url: &Clean, walked: &Result<Harvest, WalkFault>)
        ensures counts { self.new.counts ≡ counts_after self.old.counts walked.now }
        ensures first { self.old.counts.failed ≡ 0
            → IfErr walked.now (λ fault. IfSome self.new.first (IsFirst url.now fault)) }
        ensures kept { 0 < self.old.counts.failed → self.new.first ≡ self.old.first }
    {
        if let Err(fault) = walked {
            if self.counts.failed == 0 {
                self.first = first_at(url, *fault);
            }
        }
        self.counts = self.counts.with(walked);
    }

    /// Writes the lines that are told only where the settings have a key that asks for them.
    fn tell_more<L>(&self, alloc: Global, round: u64, archive: &ArchiveName, log: Log<L>)
    where
        L: Write + Copy,
    {
        let name = name_text(archive);
        for (reason, count) in self.reasons.counts() {
            if count > 0 {
                let matter = Matter::Reason { count, reason };
                let line = Line::Archive {
                    round,
                    name,
                    matter,
                };
                log.tell(alloc, line);
            }
        }
        if self.emptied >= MANY_EMPTIED {
            let line = Line::Archive {
                round,
                name,
                matter: Matter::Emptied(self.emptied),
            };
            log.tell(alloc, line);
        }
    }

    /// Writes the lines of this archive.
    fn tell<L: Write + Copy>(&self, alloc: Global, round: u64, archive: &ArchiveName, log: Log<L>) {
        let name = name_text(archive);
        let counts = self.counts;
        if counts.failed > 0 {
            let matter = Matter::Failed {
                counts,
                cause: self.cause(),
            };
            let line = Line::Archive {
                round,
                name,
                matter,
            };
            log.tell(alloc, line);
        }
        if counts.parts > 0 {
            let matter = Matter::Parts(counts.parts);
            let line = Line::Archive {
                round,
                name,
                matter,
            };
            log.tell(alloc, line);
        }
    }

    /// Why the first walk failed.
    fn cause(&self) -> Cause<'_> {
        match &self.first {
            Some(first) => Cause::Known {
                fault: first.fault,
                url: first.url.as_str(),
            },
            None => Cause::Unknown,
        }
    }
}

/// The first walk that failed; `None` if memory is refused.
fn first_at(url: &Clean, fault: WalkFault) -> Option<First>
    ensures { IfSome result (IsFirst url.now fault) }
{
    let url = url.try_clone().ok()?;
    Some(First { url, fault })
}

/// What a round notes of its walks.
#[derive(Drop)]
pub struct Notes {
    /// The notes of the archives, in the order of the settings. From the first archive for which memory is refused,
    /// they are missing.
    archives: Vec<Noted>,
    /// The peers that the log was told of, by their numbers.
    peers: Vec<u64>,
    failed: u64,
    unwalked: u64,
    unkept: u64,
}

impl Notes {
    /// The notes of a round that has walked nothing yet. Without a log, nothing is noted about archives.
    pub fn new(alloc: Global, settings: &Settings) -> Notes {
        let mut archives = Vec::new(alloc);
        let count = if settings.log {
            settings.archives.len()
        } else {
            0
        };
        for _ in 0..count {
            let noted = Noted {
                counts: Counts::NONE,
                first: None,
                reasons: Reasons::NONE,
                emptied: 0,
                told_dormant: false,
                told_awake: false,
            };
            let _ = archives.push(noted);
        }
        Notes {
            archives,
            peers: Vec::new(alloc),
            failed: 0,
            unwalked: 0,
            unkept: 0,
        }
    }

    /// Takes in a walk of the archive at this place, which began at this URL.
    pub fn add(&mut self, place: usize, url: &Clean, walked: &Result<Harvest, WalkFault>) {
        if walked.is_err() {
            self.failed = self.failed.saturating_add(1);
        }
        if let Some(noted) = self.archives.get_mut(place) {
            noted.add(url, walked);
            if let Err(fault) = walked {
                noted.reasons.add(*fault);
            }
        }
    }

    /// How many walks failed.
    pub fn failed(&self) -> u64
        ensures { result ≡ self.now.failed }
    {
        self.failed
    }

    /// Counts a walk for which memory is refused.
    pub fn add_unwalked(&mut self) {
        self.unwalked = self.unwalked.saturating_add(1);
    }

    /// Counts a harvest that isn't appended.
    pub fn add_unkept(&mut self) {
        self.unkept = self.unkept.saturating_add(1);
    }

    /// Counts an original of which the archive at this place had copies before, and has none now.
    pub fn add_emptied(&mut self, place: usize) {
        if let Some(noted) = self.archives.get_mut(place) {
            noted.emptied = noted.emptied.saturating_add(1);
        }
    }

    /// Whether the log is to be told that the archive at this place is dormant, or that it answers again: once each in
    /// a round.
    pub fn tells_mood(&mut self, place: usize, is_dormant: bool) -> bool {
        let Some(noted) = self.archives.get_mut(place) else {
            return false;
        };
        let told = if is_dormant {
            noted.told_dormant
        } else {
            noted.told_awake
        };
        if is_dormant {
            noted.told_dormant = true;
        } else {
            noted.told_awake = true;
        }
        !told
    }

    /// Whether the log is to be told that the peer with this number brings nothing: once in a round.
    pub fn tells_peer(&mut self, number: u64) -> bool {
        if self.peers.contains(&number) {
            return false;
        }
        let _ = self.peers.push(number);
        true
    }

    /// Writes the lines of a round; those that the specified lines lack only where more is wanted.
    pub fn tell<L>(
        &self,
        alloc: Global,
        round: u64,
        settings: &Settings,
        tells_more: bool,
        log: Log<L>,
    )
    where
        L: Write + Copy,
    {
        for (archive, noted) in settings.archives.iter().zip(&self.archives) {
            noted.tell(alloc, round, &archive.name, log);
            if tells_more {
                noted.tell_more(alloc, round, &archive.name, log);
            }
        }
        tell_want(alloc, round, self.unwalked, Want::Walks, log);
        tell_want(alloc, round, self.unkept, Want::Harvests, log);
    }
}

/// Tells the log what memory was refused for, if for anything.
fn tell_want<L: Write + Copy>(alloc: Global, round: u64, count: u64, want: Want, log: Log<L>) {
    if count > 0 {
        log.tell(alloc, Line::Wanting { round, count, want });
    }
}
