//! Whether anything is forgotten, and where each gate's thread is handed another gate.
ghost use Rattle.std.specs.Prelude.{◌≡◌, ◌||◌, is_some};

use memento_time::NoMemory;
use part_gates::{NamesBase, PartGate};
use service_settings::Settings;
use std::alloc::Global;
use switching_gates::GateSlot;

/// Whether these settings have something forgotten.
pub fn forgets(settings: &Settings) -> bool
    ensures { result ≡ (is_some settings.now.forgetting.every || is_some settings.now.forgetting.withdrawn_file) }
{
    settings.forgetting.every.is_some() || settings.forgetting.withdrawn_file.is_some()
}

/// A place for another gate, for each gate of these settings. Where nothing is forgotten nothing is left in it.
pub(crate) fn slots_of<B: NamesBase>(
    alloc: Global,
    settings: &Settings,
) -> Result<Vec<GateSlot<PartGate<B>>>, NoMemory> {
    let mut slots = Vec::with_capacity(alloc, settings.gates.len())?;
    for _ in &settings.gates {
        let slot = if forgets(settings) {
            GateSlot::open(alloc)?
        } else {
            GateSlot::closed()
        };
        slots.push(slot)?;
    }
    Ok(slots)
}
