//! How many requests a gate holds, and for how long.
ghost use Rattle.std.specs.Prelude.{◌≡◌};
ghost use Rattle.tokio.specs.Timers.{sleep_deadline};

use memento_time::NoMemory;
use std::alloc::Global;
use std::sync::Arc;
use std::sync::atomic::{AtomicU64, Ordering};
use std::time::{Clock, Duration, Instant};
use tokio::time::{Handle, Sleep};

/// How many milliseconds pass before it is looked once more whether a held request can be answered.
const LOOK: u64 = 50;

/// What the connections of a gate that holds requests share.
#[derive(Drop)]
struct Room {
    timers: Handle,
    /// For how many seconds a request is held at most.
    seconds: u64,
    /// How many requests are held at once at most.
    most: u64,
    held: AtomicU64,
}

/// Room for requests that are held.
#[derive(Drop)]
pub(crate) struct Holding {
    room: Arc<Room>,
}

/// The place of a request that is held. It is given back when it is dropped.
struct Place {
    room: Arc<Room>,
}

impl Drop for Place {
    fn drop(self) {
        let Place { room } = self;
        let _ = room.held.fetch_sub(1, Ordering::SeqCst);
    }
}

/// How long a request is held: a place, its timer, and when it ends at the latest.
#[derive(Drop)]
pub(crate) struct Hold {
    place: Place,
    pub(crate) sleep: Sleep,
    end: Instant,
}

impl Holding {
    /// Room for so many requests, each for so many seconds at most.
    pub(crate) fn new(
        alloc: Global,
        timers: Handle,
        seconds: u64,
        most: u64,
    ) -> Result<Holding, NoMemory> {
        let held = AtomicU64::new(0);
        let room = Arc::new(
            alloc,
            Room {
                timers,
                seconds,
                most,
                held,
            },
        )?;
        Ok(Holding { room })
    }

    /// Another owner of the same room.
    pub(crate) fn share(&self) -> Result<Holding, NoMemory> {
        let room = Arc::try_clone(&self.room)?;
        Ok(Holding { room })
    }

    /// A place, if there is one.
    fn place(&self) -> Option<Place> {
        let place = Place {
            room: Arc::try_clone(&self.room).ok()?,
        };
        let before = self.room.held.fetch_add(1, Ordering::SeqCst);
        if before < self.room.most {
            Some(place)
        } else {
            None
        }
    }

    /// Begins to hold a request. `None` if as many are held as may be, or if there is no clock or no memory.
    pub(crate) fn begin(&self, clock: &impl Clock) -> Option<Hold> {
        let place = self.place()?;
        let now = Instant::now(clock).ok()?;
        let end = now.checked_add(Duration::from_secs(self.room.seconds))?;
        let look = now.checked_add(Duration::from_millis(LOOK))?;
        let sleep = self.room.timers.sleep_until(look.min(end)).ok()?;
        Some(Hold { place, sleep, end })
    }
}

impl Hold {
    /// Sets the timer to the next look. Returns whether there is one: otherwise the request is to be answered now.
    pub(crate) fn go_on(&mut self, clock: &impl Clock) -> bool {
        let Ok(now) = Instant::now(clock) else {
            return false;
        };
        let Some(look) = now.checked_add(Duration::from_millis(LOOK)) else {
            return false;
        };
        if now >= self.end {
            return false;
        }
        self.sleep.reset(look.min(self.end));
        true
    }
}
