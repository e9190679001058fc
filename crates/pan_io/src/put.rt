//! A whole piece into a sink.

ghost use Rattle.std.specs.Prelude.{◌≡◌, OnOk, OnErr, is_some};
ghost use Rattle.std.specs.Io.KnownBytes.{Appends};
ghost use Rattle.pan_io.specs.Faults.{HasCause};
ghost use Rattle.pan_io.specs.Put.{AppendsPrefix};

use crate::sink::Sink;
use crate::source::Failed;

/// Puts all of the piece into the sink, and takes no memory. After `Failed` the sink has taken a
/// prefix of it.
pub fn put_all<K: Sink>(sink: &mut K, piece: &[u8]) -> Result<(), Failed>
    ensures ok { OnOk result (Appends (K.taken sink.old) (K.taken sink.new) piece.now) }
    ensures failed { OnErr result (AppendsPrefix (K.taken sink.old) (K.taken sink.new) piece.now) }
    ensures tells { is_some (K.taken sink.new) ≡ is_some (K.taken sink.old) }
    ensures cause { HasCause (K.faults sink.old) (K.faults sink.new) result }
{
    let mut rest = piece;
    'pieces: while !rest.is_empty() {
        let count = sink.put(rest)?;
        rest = &rest[count..];
    }
    Ok(())
}
