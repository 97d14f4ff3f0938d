//! What is published of an original, and which archives a wish doesn't ask.
ghost use Rattle.std.specs.Prelude.{◌≡◌, [], IfOk, false};
ghost use Rattle.memento_sets.specs.Sets as set;
ghost use Rattle.harvest_lattice.specs.Knowledge.{shown_of};
ghost use Rattle.published_index.specs.Batches.{merges_of};
ghost use Rattle.replica_exchange.specs.Stamps.{state_after};
ghost use Rattle.forgetting.specs.Renewing.{known};
ghost use Rattle.round_walks.specs.Sparing as spec;

use forgetting::Forgetting;
use harvest_lattice::Harvest;
use memento_time::{NoMemory, Original};
use published_index::Merger;
use round_course::is_young;
use round_values::{Second, has_mementos, wish_timing};
use service_settings::{Archive, Settings};
use std::alloc::Global;

/// Whether a wish doesn't ask an archive for an original in this second: what is published is too young, or withdrawn.
fn is_spared(
    settings: &Settings,
    forgetting: &Forgetting,
    merger: &Merger,
    archive: &Archive,
    original: &Original,
    second: Second,
) -> Result<bool, NoMemory>
    ensures { IfOk result (λ it. it ≡ spec.is_spared settings.now.timing forgetting.now.withdrawn
        (state_after (merges_of merger.now.published)) original.now second.0 archive.now) }
{
    let is_withdrawn = forgetting.has_withdrawn(archive.name, original)?;
    let timing = wish_timing(settings.timing);
    let is_young = is_young(timing, merger, archive.name, original, second);
    Ok(is_young || is_withdrawn)
}

/// For each archive, whether a wish doesn't ask it for an original in this second.
pub(crate) fn spared(
    alloc: Global,
    settings: &Settings,
    forgetting: &Forgetting,
    merger: &Merger,
    original: &Original,
    second: Second,
) -> Result<Vec<bool>, NoMemory>
    ensures { IfOk result (λ spared. spared.items ≡ spec.spared_by settings.now forgetting.now.withdrawn
        merger.now original.now second.0) }
{
    let mut spared = Vec::with_capacity(alloc, settings.archives.len())?;
    for archive in &settings.archives {
        spared.push(is_spared(settings, forgetting, merger, archive, original, second)?)?;
    }
    Ok(spared)
}

/// Whether gates show something of an original. Where memory is refused they may, and that counts as such.
pub(crate) fn is_shown(settings: &Settings, merger: &Merger, original: &Original) -> bool
    ensures { result ≡ false → set.items (shown_of (known merger.now) original.now) ≡ [] }
{
    let has_some = settings.archives.iter().any(|archive| {
        match merger.published_entry(archive.name, original) {
            Some(entry) => has_mementos(entry),
            None => false,
        }
    });
    // An archive that isn't in these settings may be known from a peer.
    has_some || may_show(merger, original)
}

/// Whether gates show something of an original, of whichever archive; or memory is refused.
fn may_show(merger: &Merger, original: &Original) -> bool
    ensures { result ≡ false → set.items (shown_of (known merger.now) original.now) ≡ [] }
{
    match merger.published_state().shown(original) {
        Ok(shown) => !shown.is_empty(),
        Err(_) => true,
    }
}

/// Whether a whole harvest has no memento where there were some.
pub(crate) fn is_emptied(merger: &Merger, harvest: &Harvest) -> bool {
    if harvest.is_part() || !harvest.mementos().is_empty() {
        return false;
    }
    match merger.published_entry(harvest.archive(), harvest.original()) {
        Some(entry) => has_mementos(entry),
        None => false,
    }
}
