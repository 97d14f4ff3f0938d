//! What is kept from one forgetting to the next.
ghost use Rattle.std.specs.Prelude.{◌≡◌, ◌⊎◌, ◌&&◌, IfOk, None, Some, false, is_some, true};
ghost use Rattle.std.specs.FinMap as map;
ghost use Rattle.forgetting.specs.Renewing.{is_withdrawn_by};

use crate::files::{FileFault, read_file};
use crate::withdrawing::{Read, read_text};
use memento_time::{ArchiveName, NoMemory, Original};
use original_sets::{Key, OriginalSet};
use replica_exchange::{Cursor, Cursors};
use retention::Withdrawn;
use round_values::{Due, Log, Millis};
use service_log::{Line, WithdrawnMatter};
use service_settings::Settings;
use std::alloc::{AllocGlobal, Global};
use std::hash::RandomState;
use std::io::Write;
use std::rt::Files;

/// What is kept from one forgetting to the next.
#[derive(Drop)]
pub struct Forgetting {
    /// When what is known beyond what is wanted is to be forgotten again.
    pub(crate) due: Due,
    /// What is withdrawn, once that is read.
    pub(crate) withdrawn: Option<Withdrawn>,
    /// The file as it was read last.
    text: Vec<u8>,
    /// The originals that rounds look after, once that is told.
    pub(crate) listed: Option<OriginalSet>,
    /// How far peers' merges are known, as far as they are kept.
    pub(crate) cursors: Cursors,
    /// What is known of an unlisted original is kept from this second on.
    pub(crate) floor: u64,
    /// The incarnation of the merger.
    pub(crate) incarnation: u64,
    /// At most how many mementos unlisted originals have, once they were counted.
    pub(crate) mementos: Option<u64>,
    /// When they were counted last.
    pub(crate) counted: Millis,
    /// How many mementos of unlisted originals were appended since a publish.
    pub(crate) pending: u64,
    /// The most mementos of a wish's harvest that wasn't kept since something was forgotten, as far as room is made for
    /// it.
    pub(crate) missing: u64,
    /// Whether something that is withdrawn may be published.
    pub(crate) is_new: bool,
}

/// The set of these originals.
fn set_of(
    alloc: Global,
    originals: &[Original],
    keys: RandomState,
) -> Result<OriginalSet, NoMemory> {
    let mut set = OriginalSet::with_room(alloc, originals.len(), keys)?;
    for original in originals {
        let _ = set.insert(Key::new(original)?)?;
    }
    Ok(set)
}

/// Whether a list has an original that a set lacks. Where memory is refused, it may.
fn has_more(list: &[Original], set: &OriginalSet) -> bool {
    for original in list {
        match Key::new(original) {
            Ok(key) if set.has(&key) => {}
            _ => return true,
        }
    }
    false
}

impl Forgetting {
    /// Before anything was forgotten, at this moment, by a merger of this incarnation.
    pub fn new(alloc: Global, settings: &Settings, incarnation: u64, now: Millis) -> Forgetting
        ensures rule { (result.withdrawn ≡ None) × (result.listed ≡ None) }
        ensures cursors { result.cursors ≡ map.empty }
        ensures floor { result.floor ≡ 0 }
        ensures incarnation { result.incarnation ≡ incarnation }
    {
        Forgetting {
            due: Due::of_seconds(settings.forgetting.every, now),
            withdrawn: None,
            text: Vec::new(alloc),
            listed: None,
            cursors: Cursors::new(alloc),
            floor: 0,
            incarnation,
            mementos: None,
            counted: now,
            pending: 0,
            missing: 0,
            is_new: false,
        }
    }

    /// Whether what is withdrawn and what is listed is known.
    pub fn knows_rule(&self) -> bool
        ensures { result ≡ (is_some self.now.withdrawn && is_some self.now.listed) }
    {
        self.withdrawn.is_some() && self.listed.is_some()
    }

    /// Whether what is withdrawn was read anew, so that something of it may be published.
    pub fn has_news(&self) -> bool
        ensures { result ≡ self.now.is_new }
    {
        self.is_new
    }

    /// From which second on what a peer gives of unlisted originals is kept.
    pub fn floor(&self) -> u64
        ensures { result ≡ self.now.floor }
    {
        self.floor
    }

    /// At most how many mementos unlisted originals have, once they were counted.
    pub fn mementos(&self) -> Option<u64>
        ensures { result ≡ self.now.mementos }
    {
        self.mementos
    }

    /// The cursor that is held for a peer.
    pub fn held(&self, peer: u64) -> Option<Cursor>
        ensures { result ≡ map.get self.now.cursors peer }
    {
        self.cursors.held(peer)
    }

    /// Whether what an archive has of an original is withdrawn, as far as that was read.
    pub fn has_withdrawn(&self, archive: ArchiveName, original: &Original) -> Result<bool, NoMemory>
        ensures { IfOk result (λ has. has ≡ is_withdrawn_by self.now.withdrawn (archive, original.now)) }
    {
        match &self.withdrawn {
            Some(withdrawn) => withdrawn.has(archive, original),
            None => Ok(false),
        }
    }

    /// Reads what is withdrawn, and takes what is listed. Returns whether more may be kept from now on: then what peers
    /// gave before may lack it, and no cursor is held any more.
    pub fn take_rule<R, L>(
        &mut self,
        rt: &R,
        settings: &Settings,
        keys: RandomState,
        list: &[Original],
        log: Log<L>,
    ) -> bool
    where
        R: Files + AllocGlobal,
        L: Write + Copy,
        ensures wider { result ≡ true → self.new.cursors ≡ map.empty }
        ensures same { result ≡ false → self.new.cursors ≡ self.old.cursors }
        ensures floor { self.new.floor ≡ self.old.floor }
        ensures news { self.old.withdrawn ≡ None → (self.new.withdrawn ≡ None) ⊎ (self.new.is_new ≡ true) }
    {
        let is_read = self.read_withdrawn(rt, settings, keys, log);
        // While nothing was forgotten by its age, all unlisted originals were taken, too.
        let is_wider = self.take_list(rt.alloc(), keys, list) && self.floor > 0;
        if is_read || is_wider {
            self.cursors = Cursors::new(rt.alloc());
        }
        is_read || is_wider
    }

    /// Takes the originals that rounds look after. Returns whether some weren't looked after before. Where memory is
    /// refused, those of before stay.
    fn take_list(&mut self, alloc: Global, keys: RandomState, list: &[Original]) -> bool
        ensures { self.new ≡ record self.old { listed = self.new.listed; mementos = self.new.mementos } }
    {
        let is_wider = match &self.listed {
            Some(listed) => has_more(list, listed),
            None => true,
        };
        if let Ok(listed) = set_of(alloc, list, keys) {
            self.listed = Some(listed);
            self.mementos = None;
        }
        is_wider
    }

    /// Reads what is withdrawn. Where it can't be read, what was withdrawn before stays so. Returns whether it is
    /// another text than before.
    fn read_withdrawn<R, L>(
        &mut self,
        rt: &R,
        settings: &Settings,
        keys: RandomState,
        log: Log<L>,
    ) -> bool
    where
        R: Files + AllocGlobal,
        L: Write + Copy,
        ensures rest { (self.new.cursors ≡ self.old.cursors) × (self.new.floor ≡ self.old.floor) }
        ensures news { self.old.withdrawn ≡ None → (self.new.withdrawn ≡ None) ⊎ (self.new.is_new ≡ true) }
    {
        match self.take_text(rt, settings, keys) {
            Ok(Some(read)) => {
                self.take_read(rt.alloc(), read, log);
                true
            }
            Ok(None) => false,
            Err(matter) => {
                log.tell(rt.alloc(), Line::Withdrawn(matter));
                false
            }
        }
    }

    /// What is told where the file isn't read.
    fn matter_of(&self, fault: FileFault) -> WithdrawnMatter {
        match fault {
            FileFault::NoMemory => WithdrawnMatter::NoMemory,
            FileFault::Unread if self.withdrawn.is_some() => WithdrawnMatter::Unread,
            FileFault::Unread => WithdrawnMatter::Unreadable,
        }
    }

    /// What the file withdraws, if it is another text than before. Without a file nothing is withdrawn.
    fn take_text<R: Files + AllocGlobal>(
        &mut self,
        rt: &R,
        settings: &Settings,
        keys: RandomState,
    ) -> Result<Option<Read>, WithdrawnMatter>
        ensures { self.new ≡ record self.old { text = self.new.text } }
    {
        let text = match &settings.forgetting.withdrawn_file {
            Some(path) => match read_file(rt, path.as_str()) {
                Ok(text) => text,
                Err(fault) => return Err(self.matter_of(fault)),
            },
            None => Vec::new(rt.alloc()),
        };
        if self.withdrawn.is_some() && text == self.text {
            return Ok(None);
        }
        let read = read_text(rt.alloc(), &text, keys)?;
        self.text = text;
        Ok(Some(read))
    }

    /// Takes what was read, and tells the log which lines name nothing.
    fn take_read<L: Write + Copy>(&mut self, alloc: Global, read: Read, log: Log<L>)
        ensures withdrawn { self.new.withdrawn ≡ Some read.withdrawn }
        ensures news { self.new.is_new ≡ true }
        ensures rest { (self.new.cursors ≡ self.old.cursors) × (self.new.floor ≡ self.old.floor) }
    {
        let Read {
            withdrawn,
            bad,
            bad_count,
        } = read;
        for number in &bad {
            log.tell(alloc, Line::Withdrawn(WithdrawnMatter::Bad(*number as u64)));
        }
        let more = bad_count.saturating_sub(bad.len());
        if more > 0 {
            log.tell(alloc, Line::Withdrawn(WithdrawnMatter::More(more as u64)));
        }
        self.withdrawn = Some(withdrawn);
        self.mementos = None;
        self.is_new = true;
    }
}
