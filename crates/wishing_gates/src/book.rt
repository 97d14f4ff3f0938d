//! The book of wishes that the gates and the thread that hands out walks share.
ghost use Rattle.std.specs.Prelude.{◌≡◌, IfOk, IsSome, None, false, is_some};

use memento_time::{NoMemory, Original};
use original_sets::OriginalSet;
use std::alloc::Global;
use std::hash::RandomState;
use std::sync::{Arc, Mutex, Wait};
use wish_list::{AskedOriginal, Decision, Found, Outcome, WishLimits, Wishes};

/// Wishes that gates and the thread that hands out walks share, or a closed book, which takes none.
#[derive(Drop)]
pub struct WishBook {
    shared: Option<Arc<Mutex<Wishes>>>,
}

impl WishBook {
    /// A book that takes no wishes. Takes no memory.
    pub fn closed() -> WishBook
        ensures { result.shared ≡ None }
    {
        WishBook { shared: None }
    }

    /// A book without wishes that takes them within these limits. The keys of hashes are to be secret, as readers
    /// choose originals.
    pub fn open(alloc: Global, limits: WishLimits, keys: RandomState) -> Result<WishBook, NoMemory>
        ensures { IfOk result (λ book. IsSome book.shared) }
    {
        let wishes = Mutex::new(Wishes::new(alloc, limits, keys)?);
        let shared = Arc::new(alloc, wishes)?;
        Ok(WishBook {
            shared: Some(shared),
        })
    }

    /// Another owner of the same book.
    pub fn share(&self) -> Result<WishBook, NoMemory>
        ensures { IfOk result (λ other. is_some other.shared ≡ is_some self.now.shared) }
    {
        let shared = match &self.shared {
            Some(shared) => Some(Arc::try_clone(shared)?),
            None => None,
        };
        Ok(WishBook { shared })
    }

    /// Whether wishes are taken.
    pub fn is_open(&self) -> bool
        ensures { result ≡ is_some self.now.shared }
    {
        self.shared.is_some()
    }

    /// Takes a wish for an original that was asked for in this second, of which something was shown or nothing. Doesn't
    /// wait: while another thread has the book, and where memory is refused, nothing is taken, and a reader who still
    /// misses the original asks again.
    pub fn note(&self, original: AskedOriginal, is_shown: bool, now: u64) -> Option<Decision>
        ensures closed { self.now.shared ≡ None → result ≡ None }
    {
        let shared = self.shared.as_ref()?;
        let mut wishes = shared.try_lock()?;
        wishes.wish(original, is_shown, now).ok()
    }

    /// Whether there is a wish for an original, granted or not. Doesn't wait: while another thread has the book, there
    /// may be.
    pub fn may_be_wished(&self, original: &Original) -> bool
        ensures closed { self.now.shared ≡ None → result ≡ false }
    {
        let Some(shared) = &self.shared else {
            return false;
        };
        match shared.try_lock() {
            Some(wishes) => wishes.is_wished(original),
            None => true,
        }
    }

    /// Whether something that is shown has this text, and no wish for it is to be taken in this second. Doesn't wait:
    /// while another thread has the book, and where memory is refused, nothing is told.
    pub fn is_settled(&self, text: &Original, now: u64) -> Option<bool>
        ensures closed { self.now.shared ≡ None → result ≡ None }
    {
        let shared = self.shared.as_ref()?;
        let mut wishes = shared.try_lock()?;
        wishes.is_settled(text, now).ok()
    }

    /// Grants the oldest wish that waits: its original. It is to be put back or ended.
    pub fn grant<R: Wait>(&self, rt: &R) -> Option<Original>
        ensures closed { self.now.shared ≡ None → result ≡ None }
    {
        let shared = self.shared.as_ref()?;
        let mut wishes = shared.lock(rt);
        wishes.grant().ok()?
    }

    /// Lets a granted wish wait again, at its place.
    pub fn put_back<R: Wait>(&self, rt: &R, original: &Original) {
        if let Some(shared) = &self.shared {
            shared.lock(rt).put_back(original);
        }
    }

    /// Ends a granted wish in this second, and notes whether something of its original is shown, and whether each
    /// archive gave a harvest. A wish for which no archive was asked doesn't count among those of its minute. Where
    /// memory is refused nothing is noted, and the original may be wished for again at once.
    pub fn end<R: Wait>(
        &self,
        rt: &R,
        original: &Original,
        is_shown: bool,
        outcome: Outcome,
        now: u64,
    ) {
        if let Some(shared) = &self.shared {
            let mut wishes = shared.lock(rt);
            let found = Found {
                is_shown,
                is_whole: outcome.is_whole,
                second: now,
            };
            let _ = wishes.note(original, found);
            wishes.end(original, outcome.is_asked);
        }
    }

    /// Tells which originals rounds look after.
    pub fn set_listed<R: Wait>(&self, rt: &R, listed: OriginalSet) {
        if let Some(shared) = &self.shared {
            let before = shared.lock(rt).set_listed(listed);
            // It may be large, and is let go only once the lock is.
            drop(before);
        }
    }

    /// Allows so many wishes for originals of which nothing is shown to stand in the book.
    pub fn set_room<R: Wait>(&self, rt: &R, room: usize) {
        if let Some(shared) = &self.shared {
            shared.lock(rt).set_room(room);
        }
    }

    /// How many wishes were turned away since this was last asked, because there were as many as may be.
    pub fn turned_away<R: Wait>(&self, rt: &R) -> u64
        ensures closed { self.now.shared ≡ None → result ≡ 0 }
    {
        match &self.shared {
            Some(shared) => shared.lock(rt).turned_away(),
            None => 0,
        }
    }

    /// How many wishes came too late since this was last asked, because as many as may be were taken in their minute.
    pub fn late<R: Wait>(&self, rt: &R) -> u64
        ensures closed { self.now.shared ≡ None → result ≡ 0 }
    {
        match &self.shared {
            Some(shared) => shared.lock(rt).late(),
            None => 0,
        }
    }
}
