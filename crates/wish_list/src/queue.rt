//! Wishes that wait to be granted, and those that were granted and aren't over.
ghost use Rattle.std.specs.Prelude.{◌≡◌, ◌++◌, ◌∷◌, [], ◌≤◌, ◌+◌, length, false, IfOk, IfNone, IfSome, OnOk, OnErr, count_by, position, filter};
ghost use Rattle.wish_list.specs.Queue.{Grants, PutsBack, is_of, is_taken_in, is_unshown, is_waiting, isnt_of, most_wishes, stands, stands_from};

use crate::asked::AskedOriginal;
use memento_time::{NoMemory, Original};
use std::alloc::Global;
use std::marker::Model;

/// The most wishes that stand in a queue.
pub const MOST_WISHES: usize = 1_000;

/// An original that readers asked for.
#[derive(Debug, Drop)]
pub struct Wish {
    pub original: AskedOriginal,
    /// Something of it was shown to the reader.
    pub is_shown: bool,
    /// Archives are being asked.
    pub is_granted: bool,
    /// The minute to which it counts.
    pub minute: u64,
}

/// Wishes, the oldest first, none twice, and at most `MOST_WISHES`.
#[derive(Debug, Drop)]
pub struct Queue {
    wishes: Vec<Wish>,
}

impl Model for Queue {
    ghost use Rattle.std.specs.Prelude.{List};
    ghost use Rattle.wish_list.specs.declared.queue.Wish.{Wish};
    ghost use Rattle.wish_list.specs.Queue.{AreWishes};

    ghost Value = { List Wish };

    ghost view = { λ queue. queue.wishes.items };

    ghost invariant = { λ queue. AreWishes queue.wishes.items };
}

/// The place of the oldest wish that waits.
fn oldest_waiting(wishes: &[Wish]) -> Option<usize>
    ensures place { result ≡ position is_waiting wishes.now }
{
    wishes.iter().position(|wish| !wish.is_granted)
}

fn is_of(wish: &Wish, original: &Original) -> bool
    ensures { result ≡ is_of original.now wish.now }
{
    *original == *wish.original.as_original()
}

fn is_taken_in(wish: &Wish, original: &Original, minute: u64) -> bool
    ensures { result ≡ is_taken_in original.now minute wish.now }
{
    is_of(wish, original) && wish.minute == minute
}

/// The place of the wish for an original.
fn place_of(wishes: &[Wish], original: &Original) -> Option<usize>
    ensures { result ≡ position (is_of original.now) wishes.now }
{
    wishes.iter().position(|wish| is_of(wish, original))
}

/// Leaves out the wish for an original.
fn leave_out(wishes: &mut Vec<Wish>, original: &Original)
    ensures { wishes.new.items ≡ filter (isnt_of original.now) wishes.old.items }
{
    wishes.retain(|wish| !is_of(wish, original));
}

impl Queue {
    /// No wishes. Takes no memory.
    pub fn new(alloc: Global) -> Queue
        ensures { result ≡ [] }
    {
        Queue {
            wishes: Vec::new(alloc),
        }
    }

    /// How many wishes there are.
    pub fn len(&self) -> usize
        ensures len { result ≡ length self.now }
        ensures most { result ≤ most_wishes }
    {
        self.wishes.len()
    }

    /// How many wishes are for originals of which nothing was shown.
    pub fn unshown(&self) -> usize
        ensures count { result ≡ count_by is_unshown self.now }
        ensures most { result ≤ length self.now }
    {
        self.wishes.iter().filter(|wish| !wish.is_shown).count()
    }

    /// Whether there is a wish for an original.
    pub fn has(&self, original: &Original) -> bool
        ensures { result ≡ stands self.now original.now }
    {
        self.wishes.iter().any(|wish| is_of(wish, original))
    }

    /// Whether there is a wish for an original that was taken in this minute.
    pub fn has_from(&self, original: &Original, minute: u64) -> bool
        ensures { result ≡ stands_from self.now original.now minute }
    {
        self.wishes
            .iter()
            .any(|wish| is_taken_in(wish, original, minute))
    }

    /// Adds a wish behind the others. There has to be room, and none for its original.
    pub fn push(&mut self, wish: Wish) -> Result<(), NoMemory>
        requires room { length self.old + 1 ≤ most_wishes }
        requires new { stands self.old wish.original ≡ false }
        ensures ok { OnOk result (self.new ≡ self.old ++ wish ∷ []) }
        ensures err { OnErr result (self.new ≡ self.old) }
    {
        self.wishes.push(wish)?;
        Ok(())
    }

    /// Grants the oldest wish that waits: its original. It stays where it stands, until `end`.
    pub fn grant(&mut self) -> Result<Option<Original>, NoMemory>
        ensures some { IfOk result (λ granted. IfSome granted (λ original. Grants self.old original self.new)) }
        ensures none { IfOk result (λ granted. IfNone granted (position is_waiting self.old ≡ None)) }
        ensures same { IfOk result (λ granted. IfNone granted (self.new ≡ self.old)) }
        ensures err { OnErr result (self.new ≡ self.old) }
    {
        let Some(place) = oldest_waiting(&self.wishes) else {
            return Ok(None);
        };
        let wish = &mut self.wishes[place];
        let original = wish.original.as_original().try_clone()?;
        wish.is_granted = true;
        Ok(Some(original))
    }

    /// Lets a granted wish wait again, at its place.
    pub fn put_back(&mut self, original: &Original)
        ensures { PutsBack self.old original.now self.new }
    {
        if let Some(place) = place_of(&self.wishes, original) {
            self.wishes[place].is_granted = false;
        }
    }

    /// Takes out the wish for an original, if there is one.
    pub fn end(&mut self, original: &Original)
        ensures { self.new ≡ filter (isnt_of original.now) self.old }
    {
        leave_out(&mut self.wishes, original);
    }
}
