//! What the lines of a file of what is withdrawn hold.
ghost use Rattle.std.specs.Prelude.{◌≡◌, ◌≤◌, ◌==◌, IfOk, OnOk, length, option_map};
ghost use Rattle.std.specs.List.{list_any};
ghost use Rattle.timegate.specs.Route.{original_at};
ghost use Rattle.original_list.specs.Withdrawals.{IsArchiveRow, IsNamedRow, IsPrefixRow, IsRowOf, has_host, has_host_behind, is_passed, is_wide_enough, original_row};
ghost use Rattle.text_fields.specs.Parts.{behind};

use crate::rows::{MOST_TOLD, behind_mark, lines_of};
use memento_time::{ArchiveName, Clean, CleanFault, NoMemory, Original, trim};
use std::alloc::{AllocError, AllocFailed, Global};
use text_fields::behind;
use timegate::original_at;

/// The most archives, and the most prefixes, that a file may have.
pub const MOST_WITHDRAWN: usize = 1_000;

/// What a line holds.
#[derive(Debug, Drop)]
pub enum Withdrawal {
    /// Nothing but blanks, or a comment.
    Nothing,
    /// An archive.
    Archive(ArchiveName),
    /// An original, as a request's target names it.
    Original(Original),
    /// What originals begin with: a scheme, a host, a slash, and maybe more.
    Prefix(Clean),
    /// Something else.
    Bad,
}

/// What a file withdraws.
#[derive(Debug, Drop)]
pub struct Withdrawals {
    /// In the order of their lines.
    pub archives: Vec<ArchiveName>,
    pub originals: Vec<Original>,
    pub prefixes: Vec<Clean>,
    /// The numbers of the first lines that hold something else, from 1 on.
    pub bad: Vec<usize>,
    /// How many such lines there are.
    pub bad_count: usize,
}

/// Why a file withdraws nothing.
#[derive(Clone, Copy, Debug, PartialEq, Eq)]
pub enum WithdrawnFault {
    /// It has more than 1,000 archives.
    ManyArchives,
    /// It has more than 1,000 prefixes.
    ManyPrefixes,
    /// The allocator refused a growth.
    NoMemory,
}

impl From<NoMemory> for WithdrawnFault {
    fn from(_refused: NoMemory) -> WithdrawnFault {
        WithdrawnFault::NoMemory
    }
}

impl From<AllocError> for WithdrawnFault {
    fn from(_refused: AllocError) -> WithdrawnFault {
        WithdrawnFault::NoMemory
    }
}

impl<T: Drop> From<AllocFailed<T>> for WithdrawnFault {
    fn from(_refused: AllocFailed<T>) -> WithdrawnFault {
        WithdrawnFault::NoMemory
    }
}

/// Whether the line is passed over.
fn is_passed(text: &[u8]) -> bool
    ensures { result ≡ is_passed text.now }
{
    text.is_empty() || text.starts_with(b"#")
}

fn has_slash(text: &[u8]) -> bool
    ensures { result ≡ list_any (λ b. b == 47) text.now }
{
    text.iter().any(|byte| *byte == b'/')
}

/// Whether this is a host with a slash behind it, and maybe more.
fn has_host(rest: &[u8]) -> bool
    ensures { result ≡ has_host rest.now }
{
    has_slash(rest) && !rest.starts_with(b"/")
}

fn has_host_behind(front: &[u8], text: &[u8]) -> bool
    ensures { result ≡ has_host_behind front.now text.now }
{
    match behind(front, text) {
        Some(rest) => has_host(rest),
        None => false,
    }
}

/// Whether the beginning of originals has their scheme, their host and the slash behind it.
fn is_wide_enough(text: &[u8]) -> bool
    ensures { result ≡ is_wide_enough text.now }
{
    has_host_behind(b"http://", text) || has_host_behind(b"https://", text)
}

fn archive_row(name: &[u8]) -> Withdrawal
    ensures { IsArchiveRow name.now result }
{
    match ArchiveName::new(name) {
        Some(archive) => Withdrawal::Archive(archive),
        None => Withdrawal::Bad,
    }
}

fn original_row(alloc: Global, address: &[u8]) -> Result<Withdrawal, NoMemory>
    ensures { IfOk result (λ row. row ≡ original_row (original_at address.now)) }
{
    match original_at(alloc, address)? {
        Some(original) => Ok(Withdrawal::Original(original)),
        None => Ok(Withdrawal::Bad),
    }
}

fn prefix_row(alloc: Global, text: &[u8]) -> Result<Withdrawal, NoMemory>
    ensures { IfOk result (IsPrefixRow text.now) }
{
    if !is_wide_enough(text) {
        return Ok(Withdrawal::Bad);
    }
    match Clean::new(alloc, text) {
        Ok(prefix) => Ok(Withdrawal::Prefix(prefix)),
        Err(CleanFault::NotClean) => Ok(Withdrawal::Bad),
        Err(CleanFault::NoMemory) => Err(NoMemory),
    }
}

/// What a line withdraws that has no blanks at its ends, and isn't passed over.
fn named_row(alloc: Global, text: &[u8]) -> Result<Withdrawal, NoMemory>
    ensures { IfOk result (IsNamedRow text.now) }
{
    if let Some(name) = behind(b"archive ", text) {
        return Ok(archive_row(name));
    }
    if let Some(address) = behind(b"original ", text) {
        return original_row(alloc, address);
    }
    match behind(b"prefix ", text) {
        Some(prefix) => prefix_row(alloc, prefix),
        None => Ok(Withdrawal::Bad),
    }
}

/// What a line holds, without the spaces, tabs and CRs at its ends: `archive NAME`, `original ADDRESS` or
/// `prefix TEXT`. A comment begins with `#`.
pub fn withdrawal_of(alloc: Global, line: &[u8]) -> Result<Withdrawal, NoMemory>
    ensures { IfOk result (IsRowOf line.now) }
{
    let line = trim(line, b" \t\r");
    if is_passed(line) {
        return Ok(Withdrawal::Nothing);
    }
    named_row(alloc, line)
}

impl Withdrawals {
    fn nothing(alloc: Global) -> Withdrawals
        ensures archives { length result.archives.items ≤ MOST_WITHDRAWN }
        ensures prefixes { length result.prefixes.items ≤ MOST_WITHDRAWN }
    {
        Withdrawals {
            archives: Vec::new(alloc),
            originals: Vec::new(alloc),
            prefixes: Vec::new(alloc),
            bad: Vec::new(alloc),
            bad_count: 0,
        }
    }

    /// Takes in what the line with this number holds.
    fn take_row(&mut self, number: usize, row: Withdrawal) -> Result<(), WithdrawnFault>
        requires archives { length self.old.archives.items ≤ MOST_WITHDRAWN }
        requires prefixes { length self.old.prefixes.items ≤ MOST_WITHDRAWN }
        ensures archives { OnOk result (length self.new.archives.items ≤ MOST_WITHDRAWN) }
        ensures prefixes { OnOk result (length self.new.prefixes.items ≤ MOST_WITHDRAWN) }
    {
        match row {
            Withdrawal::Nothing => {}
            Withdrawal::Archive(archive) => {
                if self.archives.len() >= MOST_WITHDRAWN {
                    return Err(WithdrawnFault::ManyArchives);
                }
                self.archives.push(archive)?;
            }
            Withdrawal::Original(original) => self.originals.push(original)?,
            Withdrawal::Prefix(prefix) => {
                if self.prefixes.len() >= MOST_WITHDRAWN {
                    return Err(WithdrawnFault::ManyPrefixes);
                }
                self.prefixes.push(prefix)?;
            }
            Withdrawal::Bad => {
                if self.bad.len() < MOST_TOLD {
                    self.bad.push(number)?;
                }
                self.bad_count = self.bad_count.saturating_add(1);
            }
        }
        Ok(())
    }
}

/// Reads a text that withdraws something in each line. A byte order mark at its beginning is passed over. A text of
/// more than 1,000 archives, or of more than 1,000 prefixes, is refused.
pub fn read_withdrawn(alloc: Global, text: &[u8]) -> Result<Withdrawals, WithdrawnFault>
    ensures archives { IfOk result (λ withdrawals. length withdrawals.archives.items ≤ MOST_WITHDRAWN) }
    ensures prefixes { IfOk result (λ withdrawals. length withdrawals.prefixes.items ≤ MOST_WITHDRAWN) }
{
    let lines = lines_of(alloc, behind_mark(text))?;
    let mut withdrawals = Withdrawals::nothing(alloc);
    for (place, line) in lines.iter().enumerate() {
        let row = withdrawal_of(alloc, line)?;
        withdrawals.take_row(place + 1, row)?;
    }
    Ok(withdrawals)
}
