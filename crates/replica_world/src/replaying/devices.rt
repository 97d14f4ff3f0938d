//! Writes everything that is to be written.
ghost use Rattle.std.specs.Prelude.{◌≡◌, OnOk, OnErr, Err};
ghost use Rattle.std.specs.Io.KnownBytes.{Appends};
ghost use Rattle.replica_world.specs.Watching.{count_after};
ghost use Rattle.replica_world.specs.Devices.{AppendsBeginning};

use crate::replaying::fault::ReplayFault;
use crate::replaying::watched::Watched;
use std::io::Write;

/// Writes all of the bytes, or a prefix of them if it fails.
pub(crate) fn write_whole<W: Write>(
    writer: &mut Watched<W>,
    bytes: &[u8],
) -> Result<(), ReplayFault>
    ensures ok { OnOk result (Appends (W.contents writer.old.device) (W.contents writer.new.device) bytes.now) }
    ensures err { OnErr result
        (AppendsBeginning (W.contents writer.old.device) (W.contents writer.new.device) bytes.now) }
    ensures write { OnErr result (result ≡ Err ReplayFault.Write) }
    ensures failed { OnErr result (writer.new.failures ≡ count_after 1 writer.old.failures) }
    ensures not_failed { OnOk result (writer.new.failures ≡ writer.old.failures) }
{
    let mut rest = bytes;
    while !rest.is_empty() {
        match writer.write(rest) {
            Ok(0) | Err(_) => return Err(ReplayFault::Write),
            Ok(count) => {
                let (_, after) = rest.split_at(count);
                rest = after;
            }
        }
    }
    Ok(())
}
