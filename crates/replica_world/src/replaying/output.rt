//! What one command writes.
ghost use Rattle.std.specs.Prelude.{◌≡◌, ◌++◌, OnOk, OnErr};
ghost use Rattle.std.specs.Io.KnownBytes.{Appends};
ghost use Rattle.replica_world.specs.Watching.{count_after};
ghost use Rattle.replica_world.specs.Devices.{AppendsBeginning};

use crate::replaying::devices::write_whole;
use crate::replaying::fault::ReplayFault;
use crate::replaying::watched::Watched;
use memento_time::Octets;
use std::alloc::Global;
use std::io::Write;
use std::marker::Model;

/// Lines, followed by the body of a reply. The body is moved here, not copied, since a TimeMap can be long.
#[derive(Drop)]
pub(crate) struct Output {
    lines: Vec<u8>,
    body: Octets,
}

impl Model for Output {
    ghost use Rattle.std.specs.Prelude.{◌++◌, List, ℕ};

    ghost Value = { List ℕ };

    ghost view = { λ output. output.lines.items ++ output.body };
}

impl Output {
    /// Lines without a body.
    pub(crate) fn of_lines(alloc: Global, lines: Vec<u8>) -> Output
        ensures { result ≡ lines.items }
    {
        Output::with_body(lines, Octets::of(Vec::new(alloc)))
    }

    /// Lines followed by a body.
    pub(crate) fn with_body(lines: Vec<u8>, body: Octets) -> Output
        ensures { result ≡ lines.items ++ body }
    {
        Output { lines, body }
    }

    /// Writes all of the output, or a prefix of it if it fails.
    pub(crate) fn write<W: Write>(&self, writer: &mut Watched<W>) -> Result<(), ReplayFault>
        ensures ok { OnOk result (Appends (W.contents writer.old.device) (W.contents writer.new.device) self.now) }
        ensures err { OnErr result
            (AppendsBeginning (W.contents writer.old.device) (W.contents writer.new.device) self.now) }
        ensures write { OnErr result (result ≡ Err ReplayFault.Write) }
        ensures failed { OnErr result (writer.new.failures ≡ count_after 1 writer.old.failures) }
        ensures not_failed { OnOk result (writer.new.failures ≡ writer.old.failures) }
    {
        write_whole(writer, &self.lines)?;
        write_whole(writer, self.body.as_slice())
    }
}
