//! A whole script.
ghost use Rattle.std.specs.Prelude.{◌≡◌, ◌≢◌, ◌⊎◌, ◌++◌, ◌<◌, ℕ, List, length, None, Some, Err, IfOk, IfSome, MatchOption};
ghost use Rattle.replica_world.specs.Script.{command_at};
ghost use Rattle.replica_events.specs.World.{World as Replicas};
ghost use Rattle.replica_world.specs.Stands.{Stands};
ghost use Rattle.replica_world.specs.Watching.{count_after};
ghost use Rattle.replica_world.specs.Devices.{BlamesWriter};
ghost use Rattle.replica_world.specs.Output.{Replays, ReplaysFrom};
ghost use Rattle.replica_world.specs.Performing.{IsFirstPerformed};
ghost use Rattle.replica_world.specs.Reading.{Told, IsReadTo, BlamesReader, told_of, nothing_held};

use crate::replaying::command::command_at;
use crate::replaying::fault::ReplayFault;
use crate::replaying::fields::after_empty_lines;
use crate::replaying::output::Output;
use crate::replaying::perform::perform;
use crate::replaying::settled::Part;
use crate::replaying::start::start_at;
use crate::replaying::watched::Watched;
use crate::replaying::window::{Window, await_part};
use crate::world::World;
use memento_time::NoMemory;
use std::alloc::Global;
use std::io::{Read, Write};
use timemap_reader::one_page;

/// Performs the command at the front of a text, and returns what it writes and the text from the next command on.
/// `None` if the line is bad.
fn perform_first<'a>(
    alloc: Global,
    world: &mut World,
    text: &'a [u8],
) -> Result<Option<(Output, &'a [u8])>, NoMemory>
    ensures { IfOk result (λ first. MatchOption first (command_at text.now ≡ None)
        (λ p. IsFirstPerformed world.old text.now p.0 p.1.now world.new)) }
{
    let Some((command, rest)) = command_at(alloc, text)? else {
        return Ok(None);
    };
    let said = perform(alloc, world, &command)?;
    Ok(Some((said, after_empty_lines(rest))))
}

/// Performs the commands of what is left of a script, each once it is whole.
fn replay_commands<R: Read, W: Write>(
    alloc: Global,
    world: &mut World,
    window: &mut Window,
    reader: &mut Watched<R>,
    writer: &mut Watched<W>,
) -> Result<(), ReplayFault>
    ensures replays { (begun : Told) (script rest : List ℕ) → begun.bytes ≡ Some script →
        R.remaining reader.old.device ≡ Some rest → IsReadTo begun window.old (told_of R.remaining reader.old) →
        (w : Replicas) → Stands world.old w → ReplaysFrom world.old.base w script (window.old.bytes ++ rest)
        (W.contents writer.old.device) (W.contents writer.new.device) result }
    ensures reader { (begun : Told) → IsReadTo begun window.old (told_of R.remaining reader.old) →
        BlamesReader result begun (told_of R.remaining reader.new) }
    ensures writer { BlamesWriter result writer.old.failures writer.new.failures }
{
    // A body has only one page, so what a failed replay wrote is a prefix of the script's one output.
    one_page();
    'commands: loop {
        await_part(Part::Command, window, reader, writer)?;
        if window.bytes().is_empty() {
            return Ok(());
        }
        let Some((said, rest)) = perform_first(alloc, world, window.bytes())? else {
            return Err(ReplayFault::BadLine {
                number: window.line_number(),
            });
        };
        let left = rest.len();
        said.write(writer)?;
        window.keep(left);
    }
}

/// Performs a script from its first line on.
fn replay_script<R: Read, W: Write>(
    alloc: Global,
    window: &mut Window,
    reader: &mut Watched<R>,
    writer: &mut Watched<W>,
) -> Result<(), ReplayFault>
    requires { window.old ≡ nothing_held }
    ensures replays { IfSome (R.remaining reader.old.device) (λ script.
        Replays script (W.contents writer.old.device) (W.contents writer.new.device) result) }
    ensures reader { BlamesReader result (told_of R.remaining reader.old) (told_of R.remaining reader.new) }
    ensures writer { BlamesWriter result writer.old.failures writer.new.failures }
{
    await_part(Part::Start, window, reader, writer)?;
    if window.bytes().is_empty() {
        return Ok(());
    }
    let Some((start, rest)) = start_at(alloc, window.bytes())? else {
        return Err(ReplayFault::BadLine {
            number: window.line_number(),
        });
    };
    let left = rest.len();
    window.keep(left);
    let mut world = World::new(alloc, start.replicas, start.service)?;
    replay_commands(alloc, &mut world, window, reader, writer)
}

/// Performs the commands of a script in order, each as soon as it is read whole, and writes what each says before it
/// performs the next. What was written is flushed before the reader is asked for more, so whoever writes the script
/// through a pipe gets each answer before asking the next question. Of the script only what isn't performed yet is
/// held.
///
/// A script consists of lines that end with LF, which the last one may lack. A line has at most 65,536 bytes, and empty
/// lines are skipped. The first line is `replicas N BASE`: 1 to 16 replicas, numbered from 1, of the service with this
/// base. Each further line is a command. Its fields are separated by one space, the last field is the rest of the line,
/// and numbers are decimals of 64-bit numbers without unnecessary leading zeros:
///
/// | Command | What it does | What it writes |
/// |---|---|---|
/// | `take I ARCHIVE REVISION PAGEURL LENGTH ORIGINAL`, then a block | reads the block as the page at PAGEURL; replica I takes its mementos as a whole harvest | `taken MEMENTOS FURTHER DROPPED` |
/// | `takepart I ARCHIVE REVISION PAGEURL LENGTH ORIGINAL`, then a block | the same, as a part harvest, of which other pages were lost | `taken MEMENTOS FURTHER DROPPED` |
/// | `map I ORIGINAL` | asks replica I for the original's TimeMap | the reply |
/// | `gate I ORIGINAL`, `gate I ORIGINAL ASKED` | asks it as a TimeGate, with an `Accept-Datetime`; ORIGINAL then ends at the first space | the reply |
/// | `ask I METHOD COUNT TARGET`, then COUNT lines | asks it for a target, with 0 to 16 values of `Accept-Datetime` | the reply |
/// | `send I` | replica I sends a message with all that it has taken, numbered K | `sent K` |
/// | `sendfrom I N` | replica I sends a message with what its merges after the first N changed | `sent K` |
/// | `deliver J K` | replica J gets message K | `joined` |
/// | `receive J LENGTH`, then a block | replica J gets the block as bytes from outside | `received` |
/// | `restart I` | replica I forgets all | `restarted` |
///
/// A block is LENGTH bytes, at most 300,000,000, followed by LF or the end of the script. A reply is written as
/// `reply STATUS`, a line `Name: value` for each header, `body LENGTH`, and the body.
///
/// A command that is refused writes a line and changes nothing: `refused bad original`, `refused bad page`, `refused
/// bad archive`, `refused too many` (over 100,000 mementos), for `take` and `takepart` in this order and before the
/// next; `refused no replica`, `refused no message`, `refused bad state`; `refused gap none` and `refused gap I N`, if
/// a message leaves out merges of its sender, of which none are known or the first N of incarnation I; `refused numbers
/// spent`, if no 64-bit number is left.
///
/// - `BadLine`: the line with this number is none of these, or its block or lines are cut short. The commands before it
///   were performed.
/// - `Read`, `Write`: a device failed in this call, which for a writer may be a flush; a write that takes no byte is a
///   failure. `Read` also if 1,000,000,000 reads gave bytes and the reader's end had not been seen; no script of fewer
///   bytes needs that many.
/// - `NoMemory`: the allocator refused a growth.
///
/// If the reader and the writer say which bytes they read and write, then what is written is the one output of the
/// script, and a prefix of it after `Read`, `Write` and `NoMemory`. `Watched` counts the failures and the reads. This
/// shows that `Read` and `Write` come from the devices, and that anything else comes without a failure of theirs.
pub fn replay<R: Read, W: Write>(
    alloc: Global,
    reader: &mut Watched<R>,
    writer: &mut Watched<W>,
) -> Result<(), ReplayFault>
    ensures output { IfSome (R.remaining reader.old.device) (λ script.
        Replays script (W.contents writer.old.device) (W.contents writer.new.device) result) }
    ensures read { result ≡ Err ReplayFault.Read → (reader.new.failures ≡ count_after 1 reader.old.failures)
        ⊎ (reader.new.pieces ≡ count_after 1000000000 reader.old.pieces) }
    ensures read_of_few { result ≡ Err ReplayFault.Read → IfSome (R.remaining reader.old.device)
        (λ script. length script < 1000000000 → reader.new.failures ≡ count_after 1 reader.old.failures) }
    ensures write { result ≡ Err ReplayFault.Write → writer.new.failures ≡ count_after 1 writer.old.failures }
    ensures no_read_failed { result ≢ Err ReplayFault.Read → reader.new.failures ≡ reader.old.failures }
    ensures no_write_failed { result ≢ Err ReplayFault.Write → writer.new.failures ≡ writer.old.failures }
{
    let mut window = Window::new(alloc);
    replay_script(alloc, &mut window, reader, writer)
}
