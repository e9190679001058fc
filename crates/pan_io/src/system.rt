//! Calls of the system, which are tried again where they were interrupted.

ghost use Rattle.std.specs.Prelude.{◌≡◌, ◌≤◌, ◌<◌, length, IfOk};
ghost use Rattle.std.specs.Io.{ReadsAtMost, WritesAtMost};
ghost use Rattle.pan_io.specs.Faults.{HasCause};

use crate::fault_count::FaultCount;
use crate::source::Failed;
use std::io::{ErrorKind, Read, Write};

/// Reads once.
pub fn read_from<R: Read>(
    reader: &mut R,
    into: &mut [u8],
    faults: &mut FaultCount,
) -> Result<usize, Failed>
    ensures bound { ReadsAtMost result into.new }
    ensures cause { HasCause faults.old.count faults.new.count result }
{
    'tries: for _ in 0..u64::MAX {
        match reader.read(into) {
            Ok(count) => return Ok(count),
            Err(error) if error.kind() == ErrorKind::Interrupted => {}
            Err(_) => return Err(faults.add()),
        }
    }
    Err(faults.add())
}

/// Writes once. A writer that takes none of a piece that is not empty has failed.
pub fn write_to<W: Write>(
    writer: &mut W,
    piece: &[u8],
    faults: &mut FaultCount,
) -> Result<usize, Failed>
    ensures bound { WritesAtMost result piece.now }
    ensures some { 0 < length piece.now → IfOk result (λ count. 0 < count) }
    ensures cause { HasCause faults.old.count faults.new.count result }
{
    'tries: for _ in 0..u64::MAX {
        match writer.write(piece) {
            Ok(count) if count > 0 || piece.is_empty() => return Ok(count),
            Err(error) if error.kind() == ErrorKind::Interrupted => {}
            _ => return Err(faults.add()),
        }
    }
    Err(faults.add())
}

/// Sends off what was written.
pub fn flush_out<W: Write>(writer: &mut W, faults: &mut FaultCount) -> Result<(), Failed>
    ensures cause { HasCause faults.old.count faults.new.count result }
{
    'tries: for _ in 0..u64::MAX {
        match writer.flush() {
            Ok(()) => return Ok(()),
            Err(error) if error.kind() == ErrorKind::Interrupted => {}
            Err(_) => return Err(faults.add()),
        }
    }
    Err(faults.add())
}
