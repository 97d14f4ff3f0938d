//! All settings, and how they are read.
//!
//! Keys are looked for in the order of `Key`. The fault is the first key that is missing or holds what it may not. An
//! optional key may be missing. Other keys aren't looked at: `unknown_keys` tells which.
ghost use Rattle.std.specs.Prelude.{◌≡◌, ◌≤◌, ◌<◌, All, IfOk, IfSome, length, true};
ghost use Rattle.std.proofs.Props.{props};
ghost use Rattle.service_settings.specs.Limits.{IsWithin};
ghost use Rattle.service_settings.specs.Peers.{is_reached};
ghost use Rattle.service_settings.specs.Threads.{most_threads};
ghost use Rattle.service_settings.specs.declared.fault.Key.TheVariants.{Gates, Connections, Rounds, Pause};
ghost use Rattle.service_settings.specs.declared.fault.Key.TheVariants.{Originals, Peers, Archives, Patience};
ghost use Rattle.service_settings.specs.declared.fault.Key.TheVariants.{Hosts, Together};

use crate::archives::{Archive, archives_at};
use crate::asking::{Asking, agent_at, asking_at};
use crate::fault::{Key, SettingsFault};
use crate::forgetting::{Forgetting, forgetting_at};
use crate::hosts::hosts_at;
use crate::showing::{forms_at, status_at};
use crate::storing::{Storing, storing_at};
use crate::threads::{WalkThreads, most_at_once};
use crate::timing::{Timing, timing_at};
use crate::values::{
    gates_at, number_at, number_if, number_or, originals_at, peers_at, service_at, wants,
};
use crate::wishing::{Wishing, wait_at, wishing_at};
use memento_time::{Clean, Original};
use outgoing_requests::{Agent, AllowedHost, DEFAULT_PATIENCE};
use std::alloc::Global;
use timemap_formats::Forms;
use timemap_writer::Service;
use toml::Table;

/// The most bytes that the text of settings can have.
pub const MAX_TEXT: usize = 1_048_576;

/// How many connections a gate serves at once by default: one after the other.
const DEFAULT_TOGETHER: u64 = 1;

/// What a service has to do, by the keys of its settings, each within its limits (`Key::limits`).
#[derive(Drop)]
pub struct Settings {
    /// The address under which readers reach the service.
    pub base: Service,
    /// The addresses where gates listen: texts that std reads as socket addresses.
    pub gates: Vec<String>,
    /// How many connections each gate serves.
    pub connections: u64,
    /// How many rounds are made.
    pub rounds: u64,
    /// How many seconds to wait between two rounds.
    pub pause: u64,
    /// In which threads walks run, and so how many at once.
    pub threads: WalkThreads,
    /// The originals whose mementos are gathered.
    pub originals: Vec<Original>,
    /// The bases of other replicas, each without the last `/`, and one that the program can connect to.
    pub peers: Vec<Clean>,
    /// The archives, of which no two have one name.
    pub archives: Vec<Archive>,
    /// How many seconds an archive or a peer may take for a connection and the head of its answer. It may take ten
    /// times as many for the whole answer.
    pub patience: u64,
    /// The hosts that archives' pages are fetched from; `None` allows all hosts.
    pub hosts: Option<Vec<AllowedHost>>,
    /// Whether what went wrong is told in a log.
    pub log: bool,
    /// How archives are asked.
    pub asking: Asking,
    /// When archives and peers are asked, and when what came is published.
    pub timing: Timing,
    /// How the program names itself to archives; `None` if it doesn't.
    pub agent: Option<Agent>,
    /// Whether a gate says that it isn't ready until something was published or taken in.
    pub ready: bool,
    /// What readers may wish for, and where more originals are named.
    pub wishing: Wishing,
    /// Where what is known is kept over a restart.
    pub storing: Storing,
    /// In which forms beside link-format gates answer.
    pub forms: Forms,
    /// The address at which the status is shown: a text that std reads as a socket address; `None` if it isn't.
    pub status: Option<String>,
    /// How many connections a gate serves at once.
    pub together: u64,
    /// For how many seconds a gate holds a request for an original that is being looked after; `None` if it doesn't.
    pub wait: Option<u64>,
    /// What is forgotten of what is known.
    pub forgetting: Forgetting,

    ghost few_gates: { IsWithin Gates (length gates.items) },
    ghost few_connections: { IsWithin Connections connections },
    ghost few_rounds: { IsWithin Rounds rounds },
    ghost short_pause: { IsWithin Pause pause },
    ghost few_originals: { IsWithin Originals (length originals.items) },
    ghost few_peers: { IsWithin Peers (length peers.items) },
    ghost reached_peers: { All (λ peer. is_reached peer ≡ true) peers.items },
    ghost few_archives: { IsWithin Archives (length archives.items) },
    ghost few_of_each: { All (λ archive. IfSome archive.at_once (λ own. own ≤ most_threads threads.stacks))
        archives.items } by { Prim.hlevel props },
    ghost fair_patience: { IsWithin Patience patience },
    ghost few_at_once: { asking.at_once ≤ most_threads threads.stacks },
    ghost few_hosts: { IfSome hosts (λ listed. IsWithin Hosts (length listed.items)) } by { Prim.hlevel props },
}

/// Reads settings. `Text` if the text isn't TOML or has more than 1,048,576 bytes.
pub fn read_settings(alloc: Global, text: &str) -> Result<Settings, SettingsFault>
    ensures long { MAX_TEXT < length text.now → result ≡ Err SettingsFault.Text }
{
    if text.len() > MAX_TEXT {
        return Err(SettingsFault::Text);
    }
    match toml::table_from_str(alloc, text) {
        Ok(table) => settings_of(alloc, &table),
        Err(error) if error.is_memory() => Err(SettingsFault::NoMemory),
        Err(_) => Err(SettingsFault::Text),
    }
}

/// What stands at the keys that are this service's own.
#[derive(Drop)]
struct OwnKeys {
    asking: Asking,
    timing: Timing,
    agent: Option<Agent>,
    ready: bool,
    wishing: Wishing,
    storing: Storing,
    forms: Forms,
    status: Option<String>,
    together: u64,
    wait: Option<u64>,
    forgetting: Forgetting,
}

/// What stands at the keys from `at_once` on.
fn own_keys_at(
    alloc: Global,
    table: &Table,
    threads: WalkThreads,
    archives: usize,
) -> Result<OwnKeys, SettingsFault>
    ensures at_once { IfOk result (λ own. own.asking.at_once ≤ most_threads threads.stacks) }
    ensures together { IfOk result (λ own. IsWithin Together own.together) }
{
    let asking = asking_at(table, threads, archives)?;
    let timing = timing_at(table)?;
    let agent = agent_at(alloc, table)?;
    let ready = wants(table, Key::Ready)?;
    let wishing = wishing_at(alloc, table)?;
    let storing = storing_at(alloc, table)?;
    let forms = forms_at(table)?;
    let status = status_at(alloc, table)?;
    let together = number_or(table, Key::Together, DEFAULT_TOGETHER)?;
    let wait = wait_at(table, wishing.wanted.is_some() && together > 1)?;
    let forgetting = forgetting_at(alloc, table)?;
    Ok(OwnKeys {
        asking,
        timing,
        agent,
        ready,
        wishing,
        storing,
        forms,
        status,
        together,
        wait,
        forgetting,
    })
}

fn settings_of(alloc: Global, table: &Table) -> Result<Settings, SettingsFault> {
    let base = service_at(alloc, table)?;
    let gates = gates_at(alloc, table)?;
    let connections = number_at(table, Key::Connections)?;
    let rounds = number_at(table, Key::Rounds)?;
    let pause = number_at(table, Key::Pause)?;
    let workers = number_at(table, Key::Workers)?;
    let originals = originals_at(alloc, table)?;
    let peers = peers_at(alloc, table)?;
    let walks = number_if(table, Key::Walks);
    let archives = archives_at(alloc, table, most_at_once(&walks))?;
    let patience = number_or(table, Key::Patience, DEFAULT_PATIENCE)?;
    let hosts = hosts_at(alloc, table)?;
    let log = wants(table, Key::Log)?;
    let threads = WalkThreads::new(workers, walks?);
    let own = own_keys_at(alloc, table, threads, archives.len())?;
    Ok(Settings {
        base,
        gates,
        connections,
        rounds,
        pause,
        threads,
        originals,
        peers,
        archives,
        patience,
        hosts,
        log,
        asking: own.asking,
        timing: own.timing,
        agent: own.agent,
        ready: own.ready,
        wishing: own.wishing,
        storing: own.storing,
        forms: own.forms,
        status: own.status,
        together: own.together,
        wait: own.wait,
        forgetting: own.forgetting,
    })
}
