//! Performs commands: what each does, and what it writes.
ghost use Rattle.std.specs.Prelude.{◌≡◌, ◌∷◌, IfOk, IsErrOf, MatchOption};
ghost use Rattle.std.specs.List.Sorted.{IsStrictlySortedBy};
ghost use Rattle.memento_time.specs.Mementos.{memento_cmp};
ghost use Rattle.harvest_lattice.specs.Making.{harvest_from, HasFewMementos, AreTooMany};
ghost use Rattle.timemap_reader.specs.declared.page.Page.{Page as PageRead};
ghost use Rattle.replica_world.specs.Output.{IsPage};
ghost use Rattle.replica_world.specs.Performing.{IsHappening, IsHarvestTaken, IsPageTaken, IsPerformed};
ghost use Rattle.replica_world.specs.Spelled.{command_view, taking_view};

use crate::replaying::command::{Command, Taking};
use crate::replaying::fields::utf8_text;
use crate::replaying::output::Output;
use crate::replaying::texts::{accepted_line, answer_text, refusal_text, taken_line};
use crate::world::World;
use harvest_lattice::{Harvest, HarvestFault};
use memento_time::{ArchiveName, Memento, NoMemory, Original};
use replica_events::Event;
use std::alloc::Global;
use timegate::original_at;
use timemap_reader::{Page, PageFault, read_page};

/// The page that a body makes if it was fetched from an address.
fn page(alloc: Global, address: &[u8], body: &[u8]) -> Result<Option<Page>, NoMemory>
    ensures { IfOk result (λ page.
        MatchOption page ((p : PageRead) → ¬ (IsPage address.now body.now p)) (IsPage address.now body.now)) }
{
    let Some(address) = utf8_text(address) else {
        return Ok(None);
    };
    match read_page(alloc, address, body) {
        Ok(page) => Ok(Some(page)),
        Err(PageFault::TooLong) => Ok(None),
        Err(PageFault::Links(_)) => Ok(None),
        Err(PageFault::BadBase) => Ok(None),
        Err(PageFault::NoMemory) => Err(NoMemory),
    }
}

/// Runs an event, and returns what it writes.
fn happen(
    alloc: Global,
    world: &mut World,
    accepted: &[u8],
    event: &Event,
) -> Result<Output, NoMemory>
    ensures { IfOk result (λ text. IsHappening world.old accepted.now event.now text world.new) }
{
    let answer = world.step(event);
    answer_text(alloc, accepted, answer)
}

/// The harvest that mementos make: a whole one or a part.
fn harvest_of(
    taking: &Taking<'_>,
    archive: ArchiveName,
    original: &Original,
    mementos: Vec<Memento>,
) -> Result<Harvest, HarvestFault>
    ensures kept { IfOk result (λ h. h ≡ harvest_from archive original.now
        taking.now.revision taking.now.is_whole mementos.items) }
    ensures few { IfOk result HasFewMementos }
    ensures too_many { IsErrOf result HarvestFault.TooMany → AreTooMany mementos.items }
{
    if taking.is_whole {
        Harvest::new(archive, original, taking.revision, mementos)
    } else {
        Harvest::new_part(archive, original, taking.revision, mementos)
    }
}

/// Takes the mementos of a page.
fn take_harvest(
    alloc: Global,
    world: &mut World,
    taking: &Taking<'_>,
    original: &Original,
    page: Page,
) -> Result<Output, NoMemory>
    requires { IsStrictlySortedBy memento_cmp page.mementos }
    ensures { IfOk result (λ text. IsHarvestTaken world.old (taking_view taking.now) original.now page text world.new) }
{
    let Some(archive) = ArchiveName::new(taking.archive) else {
        return refusal_text(alloc, "bad archive");
    };
    let accepted = taken_line(alloc, &page)?;
    match harvest_of(taking, archive, original, page.mementos.into_vec()) {
        Ok(harvest) => {
            let event = Event::Take(taking.replica as usize, harvest);
            happen(alloc, world, &accepted, &event)
        }
        Err(HarvestFault::TooMany) => refusal_text(alloc, "too many"),
        Err(HarvestFault::NoMemory) => Err(NoMemory),
    }
}

/// Reads a page and takes its mementos.
fn take(alloc: Global, world: &mut World, taking: &Taking<'_>) -> Result<Output, NoMemory>
    ensures { IfOk result (λ text. IsPageTaken world.old (taking_view taking.now) text world.new) }
{
    let Some(original) = original_at(alloc, taking.original)? else {
        return refusal_text(alloc, "bad original");
    };
    let Some(page) = page(alloc, taking.address, taking.body)? else {
        return refusal_text(alloc, "bad page");
    };
    take_harvest(alloc, world, taking, &original, page)
}

/// Does what a command says, and returns what it writes.
pub(crate) fn perform(
    alloc: Global,
    world: &mut World,
    command: &Command<'_>,
) -> Result<Output, NoMemory>
    ensures { IfOk result (λ text. IsPerformed world.old (command_view command.now) text world.new) }
{
    match command {
        Command::Take(taking) => take(alloc, world, taking),
        Command::Step(event) => happen(alloc, world, accepted_line(event), event),
    }
}
