//! What the thread of the rounds shares with the gates.
ghost use Rattle.std.specs.Prelude.{◌≡◌, IfOk};

use crate::slots::slots_of;
use crate::telling::Telling;
use hyper_edge::Readiness;
use part_gates::{NamesBase, PartGate};
use round_values::DEFAULT_AGAIN;
use service_settings::Settings;
use std::alloc::{AllocError, Global};
use std::hash::RandomState;
use switching_gates::GateSlot;
use wish_list::WishLimits;
use wishing_gates::WishBook;

/// What the thread of the rounds shares with the gates.
#[derive(Drop)]
pub struct Shared<B: NamesBase> {
    /// By it gates are ready.
    pub readiness: Readiness,
    /// What readers wish for.
    pub book: WishBook,
    /// What an operator is told.
    pub telling: Telling,
    /// The secret keys of hashes, where sets of originals are made.
    pub keys: Option<RandomState>,
    /// Where each gate's thread is handed another gate, in the order of the gates.
    pub slots: Vec<GateSlot<PartGate<B>>>,
}

/// The book of wishes that these settings ask for. Hashes have these keys.
fn book_of(
    alloc: Global,
    settings: &Settings,
    keys: Option<RandomState>,
) -> Result<WishBook, AllocError> {
    let (Some(remembered), Some(keys)) = (settings.wishing.wanted, keys) else {
        return Ok(WishBook::closed());
    };
    let limits = WishLimits {
        remembered,
        again: settings.timing.again.unwrap_or(DEFAULT_AGAIN),
        in_a_minute: settings.wishing.wishes,
    };
    WishBook::open(alloc, limits, keys).map_err(|_| AllocError)
}

impl<B: NamesBase> Shared<B> {
    /// What these settings ask for. Hashes have these keys.
    pub(crate) fn new(
        alloc: Global,
        settings: &Settings,
        keys: Option<RandomState>,
    ) -> Result<Shared<B>, AllocError>
        ensures keys { IfOk result (λ shared. shared.keys ≡ keys) }
    {
        let Ok(readiness) = Readiness::new(alloc) else {
            return Err(AllocError);
        };
        if !settings.ready {
            readiness.set();
        }
        Ok(Shared {
            readiness,
            book: book_of(alloc, settings, keys)?,
            telling: Telling::new(alloc, settings).map_err(|_| AllocError)?,
            keys,
            slots: slots_of(alloc, settings).map_err(|_| AllocError)?,
        })
    }
}
