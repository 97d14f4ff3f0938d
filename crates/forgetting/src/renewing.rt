//! A merger takes the place of another, and no reader waits for it.
ghost use Rattle.std.specs.Prelude.{◌≡◌, All, IfOk, OnOk};
ghost use Rattle.memento_index.specs.declared.merge.Merge.TheVariants.{State as StateMerge};
ghost use Rattle.published_index.specs.Cursors.{with_merge, with_publish};
ghost use Rattle.forgetting.specs.Renewing.{IsBegun};

use harvest_lattice::State;
use memento_index::Merge;
use memento_time::NoMemory;
use part_gates::{NamesBase, PartGate, part_gates};
use published_index::{Gate, Merger, open};
use service_settings::Settings;
use std::alloc::Global;
use std::mem;
use std::sync::Wait;
use switching_gates::GateSlot;

/// Publishes a state.
fn publish_state<R: Wait>(rt: &R, merger: &mut Merger, state: State) -> Result<(), NoMemory>
    ensures { OnOk result (merger.new ≡ with_publish (with_merge merger.old (StateMerge state))) }
{
    let merge = Merge::State(state);
    merger.append(&merge)?;
    drop(merge);
    match merger.publish(rt) {
        Ok(_) => Ok(()),
        Err(_) => Err(NoMemory),
    }
}

/// Publishes a state in a merger that begins, and makes the gates that its threads serve. If memory is refused, the
/// merger is to be closed.
fn begin_with<R: Wait, B: NamesBase>(
    rt: &R,
    alloc: Global,
    fresh: &mut Merger,
    state: State,
    gates: Vec<Gate>,
    room: Option<usize>,
) -> Result<Vec<PartGate<B>>, NoMemory>
    requires { All (λ gate. gate.base ≡ B.base) gates.items }
    ensures { OnOk result (fresh.new ≡ with_publish (with_merge fresh.old (StateMerge state))) }
{
    let gates = part_gates(alloc, gates, room)?;
    publish_state(rt, fresh, state)?;
    Ok(gates)
}

/// A merger of this incarnation that has published a state and nothing else, and its gates.
pub(crate) fn begin<R: Wait, B: NamesBase>(
    rt: &R,
    alloc: Global,
    settings: &Settings,
    incarnation: u64,
    state: State,
) -> Result<(Merger, Vec<PartGate<B>>), NoMemory>
    requires { settings.now.base ≡ B.base }
    ensures { IfOk result (λ begun. IsBegun state begun.0) }
{
    let service = settings.base.try_clone()?;
    let Ok((mut fresh, gates)) = open(rt, alloc, service, settings.gates.len(), incarnation) else {
        return Err(NoMemory);
    };
    let room = settings.timing.room();
    match begin_with(rt, alloc, &mut fresh, state, gates, room) {
        Ok(gates) => Ok((fresh, gates)),
        Err(refused) => {
            fresh.close(rt);
            Err(refused)
        }
    }
}

/// Leaves each thread its gate.
fn hand_over<R: Wait, B: NamesBase>(
    rt: &R,
    slots: &[GateSlot<PartGate<B>>],
    gates: Vec<PartGate<B>>,
) {
    for (slot, gate) in slots.iter().zip(gates) {
        slot.hand(rt, gate);
    }
}

/// Has a merger take the place of another, whose gates are handed over first. What is pending in the other is lost. The
/// second copy of what is published is made only once both copies of the other are let go.
pub(crate) fn replace<R: Wait, B: NamesBase>(
    rt: &R,
    slots: &[GateSlot<PartGate<B>>],
    merger: &mut Merger,
    fresh: Merger,
    gates: Vec<PartGate<B>>,
)
    ensures { merger.new ≡ fresh }
{
    hand_over(rt, slots, gates);
    let old = mem::replace(merger, fresh);
    old.close(rt);
    merger.settle(rt);
}
