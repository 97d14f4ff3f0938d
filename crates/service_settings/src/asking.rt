//! How archives are asked.
ghost use Rattle.std.specs.Prelude.{◌≤◌, IfOk, IfSome};
ghost use Rattle.std.proofs.Props.{props};
ghost use Rattle.service_settings.specs.Limits.{IsWithin};
ghost use Rattle.service_settings.specs.Threads.{most_threads};

use crate::fault::{Key, SettingsFault};
use crate::threads::WalkThreads;
use crate::values::{number_if, number_or};
use outgoing_requests::Agent;
use std::alloc::Global;
use toml::Table;

/// For how many seconds an archive is dormant by default.
const DEFAULT_DORMANT: u64 = 600;

/// How archives are asked.
#[derive(Clone, Copy, Debug)]
pub struct Asking {
    /// How many walks of one archive run at once. By default no more than where threads are shared alike.
    pub at_once: u64,
    /// After how many failures in a row an archive is dormant; `None` if never.
    pub tolerance: Option<u64>,
    /// For how many seconds an archive is dormant.
    pub dormant: u64,
    /// How many seconds a whole walk may take; `None` if it may take as long as its pages do.
    pub walk: Option<u64>,
    /// The fewest bytes a second in which a body may come; `None` if it may come at any rate.
    pub rate: Option<u64>,
}

/// How archives are asked, by the keys from `at_once` to `rate`.
pub(crate) fn asking_at(
    table: &Table,
    threads: WalkThreads,
    archives: usize,
) -> Result<Asking, SettingsFault>
    ensures at_once { IfOk result (λ asking. IsWithin Key.AtOnce asking.at_once) }
    ensures few { IfOk result (λ asking. asking.at_once ≤ most_threads threads.stacks) }
    ensures tolerance { IfOk result (λ asking. IfSome asking.tolerance (IsWithin Key.Tolerance)) }
    ensures dormant { IfOk result (λ asking. IsWithin Key.Dormant asking.dormant) }
    ensures walk { IfOk result (λ asking. IfSome asking.walk (IsWithin Key.Walk)) }
    ensures rate { IfOk result (λ asking. IfSome asking.rate (IsWithin Key.Rate)) }
{
    let at_once = at_once_at(table, threads, archives)?;
    let tolerance = number_if(table, Key::Tolerance)?;
    let dormant = number_or(table, Key::Dormant, DEFAULT_DORMANT)?;
    let walk = number_if(table, Key::Walk)?;
    let rate = number_if(table, Key::Rate)?;
    Ok(Asking {
        at_once,
        tolerance,
        dormant,
        walk,
        rate,
    })
}

/// How many walks of one archive run at once: no more than there can be threads.
#[tactic(auto, using(crate::proofs::ThreadLemmas::most_within))]
fn at_once_at(table: &Table, threads: WalkThreads, archives: usize) -> Result<u64, SettingsFault>
    ensures within { IfOk result (IsWithin Key.AtOnce) }
    ensures few { IfOk result (λ at_once. at_once ≤ most_threads threads.stacks) }
{
    let at_once = number_or(table, Key::AtOnce, fair_share(threads, archives))?;
    if at_once > threads.stacks.most() {
        return Err(SettingsFault::Key(Key::AtOnce));
    }
    Ok(at_once)
}

/// How many walks of one archive run at once by default: as many as there are where all archives are asked alike.
fn fair_share(threads: WalkThreads, archives: usize) -> u64
    ensures some { 1 ≤ result }
    ensures few { result ≤ threads.count }
{
    let count = threads.count as u64;
    if archives == 0 {
        return count;
    }
    (count - 1) / archives as u64 + 1
}

/// How the program names itself, if there is such a key.
pub(crate) fn agent_at(alloc: Global, table: &Table) -> Result<Option<Agent>, SettingsFault> {
    let Some(value) = table.get(Key::Agent.name()) else {
        return Ok(None);
    };
    let Some(text) = value.as_str() else {
        return Err(SettingsFault::Key(Key::Agent));
    };
    match Agent::new(alloc, text)? {
        Some(agent) => Ok(Some(agent)),
        None => Err(SettingsFault::Key(Key::Agent)),
    }
}
