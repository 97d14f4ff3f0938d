//! Calls of the parts in which peers ask for a delta.
use crate::makers::{FIRST_DAY, harvest};
use anyhow::Result;
use delta_parts::{Part, PartAsk, read_part, read_target, walk_after, write_part, write_target};
use memento_index::Merge;
use refused_calls::{Tried, again, insist, share};
use replica_exchange::Stamped;
use std::alloc::Global;

const PART: &[u8] = b"memento-part 1
behind -
until a1 http://a.example/
memento-delta 2
from 1 0 1
entries 1
entry a1 1 1 http://a.example/
at 1 1
946684800 http://m.example/1
end
";

const TARGET: &[u8] = b"/part/1/0/a1/687474703a2f2f612e6578616d706c652f";

/// How many bytes of entries' lines fill a part.
const ROOM: usize = 1;

/// A sender, and a part that was read of another.
#[derive(Drop)]
struct Parts {
    alloc: Global,
    stamped: Stamped,
    part: Part,
    ask: PartAsk,
}

fn make_parts(alloc: Global) -> Option<Parts> {
    let harvest = harvest(alloc, 1, FIRST_DAY, b"http://m.example/1").ok()?;
    let mut stamped = Stamped::new(alloc, 1);
    stamped.absorb(&Merge::Harvest(harvest)).ok()?;
    Some(Parts {
        alloc,
        stamped,
        part: read_part(alloc, PART).ok()?,
        ask: read_target(alloc, TARGET).ok()??,
    })
}

/// The calls, none of which changes anything.
#[derive(Clone, Copy, Debug)]
enum OfParts {
    WritePart,
    ReadPart,
    WriteTarget,
    ReadTarget,
    WalkAfter,
    PlaceTryClone,
}

const OF_PARTS: [OfParts; 4] = [
    OfParts::WritePart,
    OfParts::ReadPart,
    OfParts::WriteTarget,
    OfParts::ReadTarget,
];

/// The calls that share what they copy.
const SHARING: [OfParts; 2] = [OfParts::WalkAfter, OfParts::PlaceTryClone];

fn ask(parts: &Parts, call: OfParts) -> Option<Tried> {
    let alloc = parts.alloc;
    let is_answered = match call {
        OfParts::WritePart => write_part(alloc, &parts.stamped, None, None, ROOM).is_ok(),
        OfParts::ReadPart => read_part(alloc, PART).is_ok(),
        OfParts::WriteTarget => write_target(alloc, &parts.ask).is_ok(),
        OfParts::ReadTarget => matches!(read_target(alloc, TARGET), Ok(Some(_))),
        OfParts::WalkAfter => matches!(walk_after(None, &parts.part), Ok(Some(_))),
        OfParts::PlaceTryClone => parts.part.until.as_ref()?.try_clone().is_ok(),
    };
    Some(Tried::of(is_answered))
}

/// Makes each call, and names it.
pub(crate) fn perform(rt: &HostRuntime, alloc: Global) -> Result<()> {
    let parts = again(|| make_parts(alloc))?;
    for call in OF_PARTS {
        insist(rt, call, || ask(&parts, call))?;
    }
    for call in SHARING {
        share(rt, call, || ask(&parts, call))?;
    }
    Ok(())
}
