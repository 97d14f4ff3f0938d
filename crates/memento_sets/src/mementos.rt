//! Sets of mementos, as lists in order.
ghost use Rattle.std.specs.Prelude.{◌≡◌, ◌+◌, ◌<◌, ◌≤◌, ◌∷◌, [], ◌++◌, ◌||◌, ◌↔◌, IsTrue, IfOk, OnOk, OnErr, not};
ghost use Rattle.std.specs.Prelude.{length, reverse, take, vec_len};
ghost use Rattle.std.specs.Vec.{vec_capacity};
ghost use Rattle.std.specs.List.{filter, list_all, list_any};
ghost use Rattle.std.specs.List.Sorted.{IsStrictlySortedBy};
ghost use Rattle.std.specs.Ordering.{eq_by_cmp};
ghost use Rattle.memento_time.specs.Mementos.{memento_cmp};
ghost use Rattle.memento_time.specs.declared.mementos.Memento.{Memento};
ghost use Rattle.memento_sets.specs.Sets as set;
ghost use Rattle.memento_sets.specs.MementoSets.{IsSubset, mementos_rise, mementos_with};

use memento_time::{Memento, MementosBuilder, NoMemory, in_order, into_packed};
use std::alloc::{AllocError, Global};
use std::cmp::Ordering;
use std::marker::Model;

/// Mementos by datetime, then by URI, each once. A contract sees the set of them.
#[derive(Debug, Drop)]
pub struct Mementos {
    list: Vec<Memento>,
}

impl Model for Mementos {
    ghost use Rattle.std.specs.List.Sorted.{IsStrictlySortedBy};
    ghost use Rattle.memento_time.specs.Mementos.{memento_cmp, coded_memento};
    ghost use Rattle.memento_sets.specs.Sets as set;

    ghost Value = { set.Set memento_cmp };

    ghost coded = { set.code coded_memento };

    ghost view = { λ s. set.from_list s.list.items };

    ghost invariant = { λ s. IsStrictlySortedBy memento_cmp s.list.items };
}

impl Mementos {
    /// The set of these mementos, which may come in any order and more than once. Takes no memory, and only one walk if
    /// they are already in order.
    pub fn of(mementos: Vec<Memento>) -> Mementos
        ensures { result ≡ set.from_list mementos.items }
    {
        Mementos {
            list: in_order(mementos),
        }
    }

    /// The set of these mementos; `None` unless they are in order, each once.
    pub fn of_sorted(mementos: Vec<Memento>) -> Option<Mementos>
        ensures { result ≡ mementos_with mementos.items }
    {
        if !mementos_rise(&mementos) {
            return None;
        }
        Some(Mementos { list: mementos })
    }

    /// The allocator of the list.
    pub fn allocator(&self) -> Global {
        *self.list.allocator()
    }

    /// How many mementos there are.
    pub fn len(&self) -> usize
        ensures { result ≡ length (set.items self.now) }
    {
        self.as_slice().len()
    }

    /// The mementos in order, borrowed.
    pub fn as_slice(&self) -> &[Memento]
        ensures { result.now ≡ set.items self.now }
    {
        &self.list
    }

    /// The mementos in order.
    pub fn into_vec(self) -> Vec<Memento>
        ensures { result.items ≡ set.items self }
    {
        self.list
    }

    /// Whether a memento is one of them. Takes time logarithmic in their number.
    pub fn has(&self, memento: &Memento) -> bool
        ensures { result ≡ set.contains self.now memento.now }
    {
        self.list.binary_search(memento).is_ok()
    }

    /// Whether the other set has each of these.
    pub fn is_subset(&self, other: &Mementos) -> bool
        ensures { IsTrue result ↔ IsSubset self.now other.now }
    {
        all_in(self.as_slice(), other)
    }

    /// The mementos that the other set lacks, packed: nothing of the rest is kept.
    pub fn without(&self, other: &Mementos) -> Result<Mementos, NoMemory>
        ensures { IfOk result (λ rest. rest ≡ set.minus self.now other.now) }
    {
        let list = copy_missing(*self.list.allocator(), self.as_slice(), other)?;
        Ok(Mementos { list })
    }

    /// The same set, with addresses that share one buffer that holds nothing else: see `memento_time::packed`.
    pub fn packed(self) -> Result<Mementos, NoMemory>
        ensures { IfOk result (λ packed. packed ≡ self) }
    {
        let list = into_packed(*self.list.allocator(), self.list)?;
        Ok(Mementos { list })
    }

    /// Takes in all mementos of another set.
    ///
    /// Takes time in the number of mementos that come, and of those here that stand after the first that comes.
    pub fn absorb(&mut self, other: Mementos) -> Result<(), NoMemory>
        ensures ok { OnOk result (self.new ≡ set.union self.old other) }
        ensures err { OnErr result (self.new ≡ self.old) }
    {
        unite(&mut self.list, other.into_vec())
    }
}

impl Clone for Mementos {
    ghost is_clone = { λ mementos copy. copy ≡ mementos };

    fn clone(&self) -> Result<Mementos, AllocError> {
        let list = self.list.clone()?;
        Ok(Mementos { list })
    }
}

/// Whether each memento is less than the next.
fn mementos_rise(list: &[Memento]) -> bool
    ensures { result ≡ mementos_rise list.now }
{
    for k in 1..list.len() {
        if !list[k - 1].cmp(&list[k]).is_lt() {
            return false;
        }
    }
    true
}

fn all_in(list: &[Memento], others: &Mementos) -> bool
    ensures { result ≡ list_all (λ m. set.contains others.now m) list.now }
{
    list.iter().all(|memento| others.has(memento))
}

/// The mementos of a list that a set lacks, packed.
fn copy_missing(
    alloc: Global,
    list: &[Memento],
    others: &Mementos,
) -> Result<Vec<Memento>, NoMemory>
    ensures { IfOk result (λ rest. rest.items ≡ filter (λ m. not (set.contains others.now m)) list.now) }
{
    let mut rest = MementosBuilder::new(alloc);
    for memento in list {
        if !others.has(memento) {
            rest.push_copy(memento)?;
        }
    }
    Ok(rest.build(alloc)?)
}

/// Whether both lists have the same mementos in the same places.
pub fn are_same(left: &[Memento], right: &[Memento]) -> bool
    ensures { IsTrue result ↔ (left.now ≡ right.now) }
{
    left == right
}

/// How many mementos of a list in order are less than a memento.
fn count_below(list: &[Memento], memento: &Memento) -> usize
    requires { IsStrictlySortedBy memento_cmp list.now }
    ensures within { result ≤ length list.now }
    ensures below { IsStrictlySortedBy memento_cmp (take result list.now ++ memento.now ∷ []) }
{
    match list.binary_search(memento) {
        Ok(at) => at,
        Err(at) => at,
    }
}

/// Adds mementos in order to a list in order. The list's mementos after the first that is added are lifted off, the
/// next one last, and come back between those that are added. If memory is refused, nothing changes.
fn unite(list: &mut Vec<Memento>, added: Vec<Memento>) -> Result<(), NoMemory>
    requires list_in_order { IsStrictlySortedBy memento_cmp list.old.items }
    requires added_in_order { IsStrictlySortedBy memento_cmp added.items }
    ensures in_order { IsStrictlySortedBy memento_cmp list.new.items }
    ensures members { OnOk result
        (set.from_list {R = memento_cmp} list.new.items
        ≡ set.union (set.from_list list.old.items) (set.from_list added.items)) }
    ensures err { OnErr result (list.new.items ≡ list.old.items) }
{
    let at = match added.first() {
        Some(first) => count_below(list, first),
        None => return Ok(()),
    };
    list.reserve(added.len())?;
    let mut lifted = list.split_off(at)?;
    lifted.reverse();
    merge(list, lifted, added);
    Ok(())
}

/// Appends what was lifted and what is added to a list, in order.
fn merge(list: &mut Vec<Memento>, mut lifted: Vec<Memento>, added: Vec<Memento>)
    requires in_order { IsStrictlySortedBy memento_cmp (list.old.items ++ reverse lifted.items) }
    requires added_in_order { IsStrictlySortedBy memento_cmp (list.old.items ++ added.items) }
    requires room { vec_len list.old + vec_len lifted + vec_len added ≤ vec_capacity list.old }
    ensures in_order { IsStrictlySortedBy memento_cmp list.new.items }
    ensures members { (m : Memento)
        → list_any (eq_by_cmp memento_cmp m) list.new.items
        ≡ (list_any (eq_by_cmp memento_cmp m) (list.old.items ++ reverse lifted.items)
        || list_any (eq_by_cmp memento_cmp m) added.items) }
{
    for memento in added {
        pass(list, &mut lifted, &memento);
        list.push_reserved(memento);
    }
    settle(list, lifted);
}

/// Puts back what is less than a memento, and drops the memento itself if it was lifted.
fn pass(list: &mut Vec<Memento>, lifted: &mut Vec<Memento>, memento: &Memento)
    requires in_order { IsStrictlySortedBy memento_cmp (list.old.items ++ reverse lifted.old.items) }
    requires below { IsStrictlySortedBy memento_cmp (list.old.items ++ memento.now ∷ []) }
    requires room { vec_len list.old + vec_len lifted.old ≤ vec_capacity list.old }
    ensures in_order { IsStrictlySortedBy memento_cmp (list.new.items ++ memento.now ∷ reverse lifted.new.items) }
    ensures members { (m : Memento)
        → list_any (eq_by_cmp memento_cmp m) (list.new.items ++ memento.now ∷ reverse lifted.new.items)
        ≡ (eq_by_cmp memento_cmp m memento.now
        || list_any (eq_by_cmp memento_cmp m) (list.old.items ++ reverse lifted.old.items)) }
    ensures len { vec_len list.new + vec_len lifted.new ≤ vec_len list.old + vec_len lifted.old }
    ensures capacity { vec_capacity list.old ≤ vec_capacity list.new }
{
    while let Some(next) = lifted.pop() {
        match next.cmp(memento) {
            Ordering::Less => list.push_reserved(next),
            Ordering::Equal => return,
            Ordering::Greater => {
                lifted.push_reserved(next);
                return;
            }
        }
    }
}

/// Puts back everything that was lifted.
fn settle(list: &mut Vec<Memento>, mut lifted: Vec<Memento>)
    requires { vec_len list.old + vec_len lifted ≤ vec_capacity list.old }
    ensures { list.new.items ≡ list.old.items ++ reverse lifted.items }
{
    while let Some(next) = lifted.pop() {
        list.push_reserved(next);
    }
}
