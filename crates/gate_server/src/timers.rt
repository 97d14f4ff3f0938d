//! The clock and the timers of a gate's connections.
use hyper::rt::Timer;
use std::alloc::AllocError;
use std::time::{Clock, Instant, SystemTime};
use tokio::time::{Handle, Sleep};

/// A clock of which `hyper` may keep copies, with the timers of the runtime that drives the connections.
#[derive(Clone, Drop)]
pub(crate) struct GateTimer<R> {
    clock: R,
    timers: Handle,
}

impl<R> GateTimer<R> {
    pub(crate) fn new(clock: R, timers: Handle) -> GateTimer<R> {
        GateTimer { clock, timers }
    }
}

impl<R: Clock + Clone + Drop> Timer for GateTimer<R> {
    fn now(&self) -> Option<Instant> {
        Instant::now(&self.clock).ok()
    }

    fn system_time(&self) -> Option<SystemTime> {
        SystemTime::now(&self.clock).ok()
    }

    fn sleep_until(&self, deadline: Instant) -> Result<Option<Sleep>, AllocError> {
        Ok(Some(self.timers.sleep_until(deadline)?))
    }
}
