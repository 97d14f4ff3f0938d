//! The threads that rounds are made with, and what these share with the gates.
ghost use Rattle.std.specs.Prelude.{◌≡◌, IfOk};

use crate::pool::Pool;
use crate::pulls::Pullers;
use crate::shared::Shared;
use crate::terms::Terms;
use harvest_workers::WalkRules;
use harvester::SocketRuntime;
use outgoing_requests::Patience;
use part_gates::NamesBase;
use service_settings::Settings;
use std::alloc::{AllocError, Global};
use std::hash::RandomState;
use std::sync::Wait;
use std::thread::Threads;

/// The threads that rounds are made with, and what these share with the gates.
#[derive(Drop)]
pub struct Means<P: WalkRules + NamesBase> {
    pub pool: Pool<P>,
    pub pullers: Pullers,
    pub shared: Shared<P>,
}

/// How many peers are pulled in threads of their own.
fn peers_pulled(settings: &Settings) -> usize {
    if settings.timing.pull.is_some() || settings.wishing.wanted.is_some() {
        settings.peers.len()
    } else {
        0
    }
}

impl<P: WalkRules + NamesBase> Means<P> {
    /// Room for the threads that these settings ask for, of which none is started. Hashes have these keys.
    pub fn new(
        alloc: Global,
        settings: &Settings,
        keys: Option<RandomState>,
    ) -> Result<Means<P>, AllocError>
        ensures keys { IfOk result (λ means. means.shared.keys ≡ keys) }
    {
        Ok(Means {
            pool: Pool::new(alloc, settings.threads.count)?,
            pullers: Pullers::new(alloc, peers_pulled(settings))?,
            shared: Shared::new(alloc, settings, keys)?,
        })
    }

    /// Ends the workers, once each has reported. A pull that is out isn't waited for.
    pub fn close(self, rt: &(impl Threads + Wait)) {
        let Means {
            pool,
            pullers: _,
            shared: _,
        } = self;
        pool.close(rt);
    }
}

impl<P: WalkRules + NamesBase + Send + Sync + 'static> Means<P> {
    /// Starts the threads, as far as that is possible.
    pub fn start<R>(&mut self, rt: &R, terms: &Terms<P>)
    where
        R: SocketRuntime + Threads + Sync + Send + Clone + Drop + 'static,
        ensures shared { self.new.shared ≡ self.old.shared }
    {
        let settings = terms.settings();
        let patience = Patience::of_seconds(settings.patience);
        self.pool.start(rt, terms);
        self.pullers.start(rt, peers_pulled(settings), patience);
    }
}
