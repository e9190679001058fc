//! A line in pieces into a sink.

ghost use Rattle.std.specs.Prelude.{◌≡◌, ◌++◌, OnOk, OnErr, is_some};
ghost use Rattle.std.specs.Io.KnownBytes.{Appends};
ghost use Rattle.pan_io.specs.Faults.{HasCause};
ghost use Rattle.pan_io.specs.Put.{AppendsPrefix};

use pan_io::{Failed, Sink, put_all};

/// Puts two pieces, one after the other. It takes no memory.
fn put_two<K: Sink>(sink: &mut K, first: &[u8], second: &[u8]) -> Result<(), Failed>
    ensures ok { OnOk result (Appends (K.taken sink.old) (K.taken sink.new) (first.now ++ second.now)) }
    ensures failed { OnErr result (AppendsPrefix (K.taken sink.old) (K.taken sink.new) (first.now ++ second.now)) }
    ensures tells { is_some (K.taken sink.new) ≡ is_some (K.taken sink.old) }
    ensures cause { HasCause (K.faults sink.old) (K.faults sink.new) result }
{
    put_all(sink, first)?;
    put_all(sink, second)
}

/// Puts three pieces, one after the other. It takes no memory.
pub fn put_line<K: Sink>(
    sink: &mut K,
    first: &[u8],
    second: &[u8],
    third: &[u8],
) -> Result<(), Failed>
    ensures ok { OnOk result (Appends (K.taken sink.old) (K.taken sink.new) (first.now ++ (second.now ++ third.now))) }
    ensures failed { OnErr result (AppendsPrefix (K.taken sink.old) (K.taken sink.new) (first.now ++ (second.now ++ third.now))) }
    ensures tells { is_some (K.taken sink.new) ≡ is_some (K.taken sink.old) }
    ensures cause { HasCause (K.faults sink.old) (K.faults sink.new) result }
{
    put_all(sink, first)?;
    put_two(sink, second, third)
}
