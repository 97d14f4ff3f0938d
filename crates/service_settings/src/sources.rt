//! Which archives are asked, and how, where there is no service.
ghost use Rattle.std.specs.Prelude.{◌≡◌, ◌≤◌, ◌<◌, All, IfOk, IfSome, length};
ghost use Rattle.std.proofs.Props.{props};
ghost use Rattle.service_settings.specs.Limits.{IsWithin};
ghost use Rattle.service_settings.specs.Threads.{most_threads};
ghost use Rattle.service_settings.specs.declared.fault.Key.TheVariants.{Workers, Archives, Patience, Hosts};

use crate::archives::{Archive, archives_at};
use crate::asking::{Asking, agent_at, asking_at};
use crate::fault::{Key, SettingsFault};
use crate::hosts::hosts_at;
use crate::settings::MAX_TEXT;
use crate::threads::{WalkThreads, most_at_once};
use crate::values::{number_if, number_or, service_at, service_of};
use outgoing_requests::{Agent, AllowedHost, DEFAULT_PATIENCE};
use std::alloc::Global;
use timemap_writer::Service;
use toml::Table;

/// The base of TimeMaps if the settings have none.
const DEFAULT_BASE: &str = "http://localhost";

/// The most walks that run at once by default.
const MOST_WORKERS: u64 = 64;

/// Which archives are asked, and how: what those keys of settings say that are for this, each within its limits
/// (`Key::limits`). The others aren't looked at.
#[derive(Drop)]
pub struct Sources {
    /// The address below which TimeMaps name themselves; `http://localhost` if the settings have none.
    pub base: Service,
    /// In which threads walks run, and so how many at once. By default there are as many as there are archives, and 64
    /// at most.
    pub threads: WalkThreads,
    /// The archives, of which no two have one name. There is one at least.
    pub archives: Vec<Archive>,
    /// How many seconds an archive may take for a connection and the head of its answer. It may take ten times as many
    /// for the whole answer.
    pub patience: u64,
    /// The hosts that archives' pages are fetched from; `None` allows all hosts.
    pub hosts: Option<Vec<AllowedHost>>,
    /// How archives are asked.
    pub asking: Asking,
    /// How the program names itself to archives; `None` if it doesn't.
    pub agent: Option<Agent>,

    ghost few_archives: { IsWithin Archives (length archives.items) },
    ghost some_archives: { 1 ≤ length archives.items },
    ghost few_of_each: { All (λ archive. IfSome archive.at_once (λ own. own ≤ most_threads threads.stacks))
        archives.items } by { Prim.hlevel props },
    ghost few_at_once: { asking.at_once ≤ most_threads threads.stacks },
    ghost fair_patience: { IsWithin Patience patience },
    ghost few_hosts: { IfSome hosts (λ listed. IsWithin Hosts (length listed.items)) } by { Prim.hlevel props },
}

/// Reads from settings which archives are asked, and how. Each of these keys may be missing, but that of the archives,
/// of which there has to be one. `Text` if the text isn't TOML or has more than 1,048,576 bytes.
pub fn read_sources(alloc: Global, text: &str) -> Result<Sources, SettingsFault>
    ensures long { MAX_TEXT < length text.now → result ≡ Err SettingsFault.Text }
{
    if text.len() > MAX_TEXT {
        return Err(SettingsFault::Text);
    }
    match toml::table_from_str(alloc, text) {
        Ok(table) => sources_of(alloc, &table),
        Err(error) if error.is_memory() => Err(SettingsFault::NoMemory),
        Err(_) => Err(SettingsFault::Text),
    }
}

/// The archives, of which there is one at least.
fn some_archives_at(
    alloc: Global,
    table: &Table,
    most_at_once: u64,
) -> Result<Vec<Archive>, SettingsFault>
    ensures few { IfOk result (λ archives. IsWithin Archives (length archives.items)) }
    ensures some { IfOk result (λ archives. 1 ≤ length archives.items) }
    ensures at_once { IfOk result (λ archives. All (λ archive. IfSome archive.at_once (λ own. own ≤ most_at_once))
        archives.items) }
{
    let archives = archives_at(alloc, table, most_at_once)?;
    if archives.is_empty() {
        return Err(SettingsFault::Key(Key::Archives));
    }
    Ok(archives)
}

/// The address below which TimeMaps name themselves.
fn base_at(alloc: Global, table: &Table) -> Result<Service, SettingsFault> {
    if table.get(Key::Base.name()).is_none() {
        return service_of(alloc, DEFAULT_BASE, Key::Base);
    }
    service_at(alloc, table)
}

/// As many walks at once as there are archives, and 64 at most.
fn workers_for(archives: usize) -> u64
    requires { 1 ≤ archives }
    ensures { IsWithin Workers result }
{
    (archives as u64).min(MOST_WORKERS)
}

fn sources_of(alloc: Global, table: &Table) -> Result<Sources, SettingsFault> {
    let base = base_at(alloc, table)?;
    let walks = number_if(table, Key::Walks);
    let archives = some_archives_at(alloc, table, most_at_once(&walks))?;
    let workers = number_or(table, Key::Workers, workers_for(archives.len()))?;
    let patience = number_or(table, Key::Patience, DEFAULT_PATIENCE)?;
    let hosts = hosts_at(alloc, table)?;
    let threads = WalkThreads::new(workers, walks?);
    let asking = asking_at(table, threads, archives.len())?;
    let agent = agent_at(alloc, table)?;
    Ok(Sources {
        base,
        threads,
        archives,
        patience,
        hosts,
        asking,
        agent,
    })
}
