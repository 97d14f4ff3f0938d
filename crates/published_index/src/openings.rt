//! A merger and its gates.
ghost use Rattle.std.specs.Prelude.{◌≡◌, ◌≤◌, [], true, drop, replicate, IfOk};
ghost use Rattle.std.specs.FinMap as map;
ghost use Rattle.left_right.specs.Sides.{view as view_of};
ghost use Rattle.published_index.specs.Views.{new_gate};

use crate::editions::Edition;
use crate::faults::OpenFault;
use crate::gates::Gate;
use crate::marks::Mark;
use crate::mergers::Merger;
use crate::rules::{EditionWriter, Learning, Telling};
use crate::writing::show;
use replica_exchange::Cursors;
use std::alloc::Global;
use std::sync::Wait;
use timemap_writer::Service;

/// The most gates that can share one merger.
pub const MOST_GATES: usize = 64;

/// Opens a merger that has nothing pending or published and no cursors, and this many gates that have seen nothing and
/// were told nothing. Their deltas have this incarnation; two openings should have different incarnations.
///
/// `NoMemory` if the allocator refused a growth. `NoPlace` if there was no place for a reader; no cause is promised.
pub fn open<R: Wait>(
    rt: &R,
    alloc: Global,
    service: Service,
    gates: usize,
    incarnation: u64,
) -> Result<(Merger, Vec<Gate>), OpenFault>
    requires { (1 ≤ gates) × (gates ≤ MOST_GATES) }
    ensures published { IfOk result (λ opened. opened.0.published ≡ []) }
    ensures pending { IfOk result (λ opened. opened.0.pending ≡ []) }
    ensures cursors { IfOk result (λ opened. opened.0.cursors ≡ map.empty) }
    ensures gates { IfOk result
        (λ opened. opened.1.items ≡ replicate gates (new_gate opened.0.opening incarnation service)) }
{
    let (mark, head) = Mark::first();
    let first = Edition::new(alloc, incarnation, &mark);
    let second = Edition::new(alloc, incarnation, &mark);
    let Ok(writer) = EditionWriter::new(alloc, first, second, gates) else {
        return Err(OpenFault::NoMemory);
    };
    let (mut writer, shown) = show(writer, rt);
    if shown.is_err() {
        drop(writer.take(rt));
        return Err(OpenFault::NoMemory);
    }
    match make_gates(alloc, &mut writer, &mark, &service, gates) {
        Ok(made) => {
            let last_success = mark.copy();
            Ok((
                Merger {
                    alloc,
                    writer,
                    head,
                    mark,
                    last_success,
                    cursors: Cursors::new(alloc),
                },
                made,
            ))
        }
        Err(fault) => {
            drop(writer.take(rt));
            Err(fault)
        }
    }
}

fn make_gates(
    alloc: Global,
    writer: &mut EditionWriter,
    mark: &Mark,
    service: &Service,
    gates: usize,
) -> Result<Vec<Gate>, OpenFault>
    requires { ((view_of writer.old.desk.place).named ≡ true) × ((view_of writer.old.desk.place).front ≡ [])
        × (mark.now.seen.log ≡ []) }
    ensures writer { (writer.new.desk.shown ≡ writer.old.desk.shown)
        × (view_of writer.new.desk.place ≡ view_of writer.old.desk.place)
        × (drop writer.new.behind writer.new.log.items ≡ drop writer.old.behind writer.old.log.items) }
    ensures gates { IfOk result
        (λ made. made.items ≡ replicate gates (new_gate (view_of writer.old.desk.place).opening
        (view_of writer.old.desk.place).incarnation service.now)) }
{
    let mut made = Vec::new(alloc);
    for _done in 0..gates {
        let gate = make_gate(alloc, writer, mark, service)?;
        if made.push(gate).is_err() {
            return Err(OpenFault::NoMemory);
        }
    }
    Ok(made)
}

fn make_gate(
    alloc: Global,
    writer: &mut EditionWriter,
    mark: &Mark,
    service: &Service,
) -> Result<Gate, OpenFault>
    requires { ((view_of writer.old.desk.place).named ≡ true) × ((view_of writer.old.desk.place).front ≡ [])
        × (mark.now.seen.log ≡ []) }
    ensures writer { (writer.new.desk.shown ≡ writer.old.desk.shown)
        × (view_of writer.new.desk.place ≡ view_of writer.old.desk.place)
        × (drop writer.new.behind writer.new.log.items ≡ drop writer.old.behind writer.old.log.items) }
    ensures gate { IfOk result (λ gate. gate ≡ new_gate (view_of writer.old.desk.place).opening
        (view_of writer.old.desk.place).incarnation service.now) }
{
    let Ok(service) = service.try_clone() else {
        return Err(OpenFault::NoMemory);
    };
    let Ok(mut reader) = writer.factory().reader() else {
        return Err(OpenFault::NoPlace);
    };
    reader.learn::<Learning>(writer.tell::<Telling>());
    Ok(Gate {
        alloc,
        reader,
        service,
        seen: mark.copy(),
        told: None,
    })
}
