//! Where a gate is left for the thread that is to go on with it.
ghost use Rattle.std.specs.Prelude.{◌≡◌, IfOk, is_some, None, true};

use memento_time::NoMemory;
use std::alloc::Global;
use std::sync::{Arc, Mutex, Wait};

/// A place for one gate, which its owners share, or no place, in which nothing is ever left.
#[derive(Drop)]
pub struct GateSlot<G> {
    shared: Option<Arc<Mutex<Option<G>>>>,
}

impl<G: Drop> GateSlot<G> {
    /// No place. Takes no memory.
    pub fn closed() -> GateSlot<G>
        ensures { result.shared ≡ None }
    {
        GateSlot { shared: None }
    }

    /// An empty place.
    pub fn open(alloc: Global) -> Result<GateSlot<G>, NoMemory>
        ensures { IfOk result (λ slot. is_some slot.shared ≡ true) }
    {
        let shared = Arc::new(alloc, Mutex::new(None))?;
        Ok(GateSlot {
            shared: Some(shared),
        })
    }

    /// Another owner of the same place.
    pub fn share(&self) -> Result<GateSlot<G>, NoMemory>
        ensures { IfOk result (λ other. is_some other.shared ≡ is_some self.now.shared) }
    {
        let shared = match &self.shared {
            Some(shared) => Some(Arc::try_clone(shared)?),
            None => None,
        };
        Ok(GateSlot { shared })
    }

    /// Leaves a gate in the place of one that wasn't taken. It waits at most while another thread takes one.
    pub fn hand<R: Wait>(&self, rt: &R, gate: G) {
        if let Some(shared) = &self.shared {
            let before = shared.lock(rt).replace(gate);
            drop(before);
        }
    }

    /// Takes the gate that was left last, if there is one. Doesn't wait: while another thread has the place, nothing is
    /// taken.
    pub(crate) fn newest(&self) -> Option<G>
        ensures closed { self.now.shared ≡ None → result ≡ None }
    {
        let shared = self.shared.as_ref()?;
        let mut place = shared.try_lock()?;
        place.take()
    }

    /// The same, but waits while another thread leaves a gate.
    pub(crate) fn awaited<R: Wait>(&self, rt: &R) -> Option<G>
        ensures closed { self.now.shared ≡ None → result ≡ None }
    {
        let shared = self.shared.as_ref()?;
        let mut place = shared.lock(rt);
        place.take()
    }
}
