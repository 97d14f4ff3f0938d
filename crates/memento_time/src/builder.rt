//! Lists of mementos whose addresses share one buffer.
ghost use Rattle.std.specs.Prelude.{◌≡◌, ◌↔◌, [], ◌∷◌, ◌++◌, IfOk, IsErrOf, OnOk, OnErr};
ghost use Rattle.memento_time.specs.Text.{IsClean};

use crate::faults::{CleanFault, NoMemory};
use crate::mementos::Memento;
use crate::moments::Moment;
use crate::texts::{Clean, is_clean};
use std::alloc::{AllocError, Global};
use std::marker::Model;
use std::sync::Arc;

/// Gathers mementos whose addresses share one buffer.
#[derive(Debug, Drop)]
pub struct MementosBuilder {
    marks: Vec<(Moment, u32)>,
    bytes: Vec<u8>,
}

impl Model for MementosBuilder {
    ghost use Rattle.std.specs.Prelude.{List};
    ghost use Rattle.memento_time.specs.declared.mementos.Memento.{Memento};
    ghost use Rattle.memento_time.specs.Builder.{mementos_listed, IsBuilder};

    ghost Value = { List Memento };

    ghost view = { λ builder. mementos_listed builder.marks.items builder.bytes.items };

    ghost invariant = { λ builder. IsBuilder builder.marks.items builder.bytes.items };
}

impl MementosBuilder {
    /// No mementos yet.
    pub fn new(alloc: Global) -> MementosBuilder
        ensures { result ≡ [] }
    {
        MementosBuilder {
            marks: Vec::new(alloc),
            bytes: Vec::new(alloc),
        }
    }

    /// Adds a memento and copies its address. `NotClean` if the address isn't a clean text; `NoMemory` also if the
    /// addresses together would have 4 GiB.
    pub fn push(&mut self, at: Moment, uri: &[u8]) -> Result<(), CleanFault>
        ensures ok { OnOk result (self.new ≡ self.old ++ record { at = at; uri = uri.now } ∷ []) }
        ensures clean { OnOk result (IsClean uri.now) }
        ensures not_clean { IsErrOf result CleanFault.NotClean ↔ ¬ IsClean uri.now }
        ensures err { OnErr result (self.new ≡ self.old) }
    {
        if !is_clean(uri) {
            return Err(CleanFault::NotClean);
        }
        match self.push_clean(at, uri) {
            Ok(()) => Ok(()),
            Err(NoMemory) => Err(CleanFault::NoMemory),
        }
    }

    /// Adds a memento whose address is a copy of another one's. `NoMemory` also if the addresses together would have
    /// 4 GiB.
    pub fn push_copy(&mut self, memento: &Memento) -> Result<(), NoMemory>
        ensures ok { OnOk result (self.new ≡ self.old ++ memento.now ∷ []) }
        ensures err { OnErr result (self.new ≡ self.old) }
    {
        self.push_clean(memento.at, memento.uri.as_bytes())
    }

    /// Adds a memento and copies its address, which is a clean text.
    fn push_clean(&mut self, at: Moment, uri: &[u8]) -> Result<(), NoMemory>
        requires { IsClean uri.now }
        ensures ok { OnOk result (self.new ≡ self.old ++ record { at = at; uri = uri.now } ∷ []) }
        ensures err { OnErr result (self.new ≡ self.old) }
    {
        if uri.len() > u32::MAX as usize - self.bytes.len() {
            return Err(NoMemory);
        }
        self.marks.reserve(1)?;
        self.bytes.extend_from_slice(uri)?;
        match self.marks.push((at, uri.len() as u32)) {
            Ok(()) => Ok(()),
            Err(_) => unreachable!(),
        }
    }

    /// The mementos, in the order in which they were added. Their addresses share one buffer that has no spare room.
    pub fn build(self, alloc: Global) -> Result<Vec<Memento>, AllocError>
        ensures { IfOk result (λ mementos. mementos.items ≡ self) }
    {
        let MementosBuilder { marks, mut bytes } = self;
        bytes.shrink_to_fit();
        let buffer = Arc::new(alloc, bytes)?;
        let mut mementos = Vec::with_capacity(alloc, marks.len())?;
        let mut start = 0;
        for (at, len) in &marks {
            let uri = Clean::range(&buffer, start, *len)?;
            mementos.push(Memento { at: *at, uri })?;
            start += *len;
        }
        Ok(mementos)
    }
}

/// Copies whose addresses share one buffer that holds nothing else: they are *packed*. `NoMemory` also if the addresses
/// together would have 4 GiB.
///
/// An address is a range of a buffer, and keeps the whole buffer alive. So a list is packed wherever a part outlives
/// the rest: a harvest's list and that of a revision that is read, since a page or a text has more than their mementos;
/// what one list has and another lacks; what an entry of several revisions shows; and a list of an index in which more
/// addresses began and ceased than it has.
pub fn packed(alloc: Global, list: &[Memento]) -> Result<Vec<Memento>, NoMemory>
    ensures { IfOk result (λ copies. copies.items ≡ list.now) }
{
    let mut builder = MementosBuilder::new(alloc);
    for memento in list {
        builder.push_copy(memento)?;
    }
    Ok(builder.build(alloc)?)
}

/// The mementos of a list, packed. No address is copied if they already stand one after the other in a buffer of just
/// their length, as those of a page do that is in order and has no repeats.
pub fn into_packed(alloc: Global, mut list: Vec<Memento>) -> Result<Vec<Memento>, NoMemory>
    ensures { IfOk result (λ mementos. mementos.items ≡ list.items) }
{
    if !are_in_a_row(&list) || !share_first(&mut list)? {
        return packed(alloc, &list);
    }
    list.shrink_to_fit();
    Ok(list)
}

/// Whether the addresses stand one after the other, and the first one's buffer has just their length. They may stand in
/// several buffers.
fn are_in_a_row(list: &[Memento]) -> bool {
    let mut end: usize = 0;
    for memento in list {
        if memento.uri.start() != end {
            return false;
        }
        end = end.saturating_add(memento.uri.as_bytes().len());
    }
    match list.first() {
        Some(first) => first.uri.room() == end,
        None => true,
    }
}

/// Has the addresses share the first one's buffer, up to one that it lacks. Returns whether it has all of them.
fn share_first(list: &mut Vec<Memento>) -> Result<bool, NoMemory>
    ensures { list.new.items ≡ list.old.items }
{
    let Some(first) = list.first() else {
        return Ok(true);
    };
    let first = first.uri.try_clone()?;
    for k in 0..list.len() {
        if !share(&mut list[k], &first)? {
            return Ok(false);
        }
    }
    Ok(true)
}

/// Has a memento's address share the buffer of another one, if that has it at the same place.
fn share(memento: &mut Memento, first: &Clean) -> Result<bool, NoMemory>
    ensures { memento.new ≡ memento.old }
{
    match memento.uri.moved_to(first)? {
        Some(uri) => {
            memento.uri = uri;
            Ok(true)
        }
        None => Ok(false),
    }
}
