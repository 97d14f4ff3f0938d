//! When the addresses of a list are packed anew.
ghost use Rattle.std.specs.Prelude.{◌≡◌};

use crate::counted::Step;
use crate::tally::Tally;
use memento_time::Memento;

/// How many bytes of other lists' addresses a list may keep alive in addition to its own.
///
/// A buffer is kept as long as one address in it, so a list may keep the bytes of the addresses that began or ceased to
/// be shown since it was packed. It is packed anew once these are more than its own. This is tested whenever half as
/// many bytes have come as it had at the last test, and more than `FEW`. So it keeps at most four times as many bytes
/// as it has, plus three times `FEW`, and the tests take time in what comes. A list that was copied from an entry of
/// several revisions also keeps these revisions' buffers until it is packed.
///
/// A list that is frozen keeps the addresses of its columns where they are, and so its wear, which goes on when it gets
/// columns again. A list that is shared with an entry keeps what the entry keeps, and has no wear.
///
/// The counts take one word together, since each list has them. They end at 4 GiB: a list with more isn't packed.
#[derive(Clone, Copy, Debug)]
pub struct Wear {
    moved: u32,
    due: u32,
}

/// This many bytes aren't worth a test.
const FEW: u32 = 1024;

impl Wear {
    pub fn none() -> Wear {
        Wear { moved: 0, due: FEW }
    }

    /// Packs a list, if it is due, after addresses of this many bytes began or ceased to be shown. If memory is
    /// refused, the list stays as it is until the next test.
    pub fn pack_worn(&mut self, list: &mut Tally, bytes: usize)
        ensures { list.new.entries ≡ list.old.entries }
    {
        self.moved = self.moved.saturating_add(saturated(bytes));
        if self.moved <= self.due {
            return;
        }
        let own = saturated(bytes_of(list.mementos()));
        if self.moved > own {
            if let Ok(packed) = list.packed() {
                *list = packed;
                self.moved = 0;
            }
        }
        self.due = self.moved.saturating_add(FEW.max(own / 2));
    }
}

/// As many bytes, or as many as a count ends at.
fn saturated(bytes: usize) -> u32 {
    u32::try_from(bytes).unwrap_or(u32::MAX)
}

/// How many bytes the addresses of the mementos have.
fn bytes_of(mementos: &[Memento]) -> usize {
    let mut bytes: usize = 0;
    for memento in mementos {
        bytes = bytes.saturating_add(memento.uri.as_bytes().len());
    }
    bytes
}

/// How many bytes the addresses of steps have.
pub(crate) fn bytes_of_steps(steps: &[Step]) -> usize {
    let mut bytes: usize = 0;
    for step in steps {
        bytes = bytes.saturating_add(step.memento.uri.as_bytes().len());
    }
    bytes
}
