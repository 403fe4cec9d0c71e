// Bytes that are written one behind the other.
ghost use Rattle.std.specs.Prelude.{◌≤◌, ◌++◌, OnOk, OnErr};
ghost use Rattle.std.specs.Io.KnownBytes.{Appends};
ghost use Rattle.pcm_io.specs.Faults.{Rose};
ghost use Rattle.pcm_io.specs.Giving.{AppendsPrefix};

use pcm_io::{Sink, WriteFault, write_all};

// Writes these bytes, and others behind them.
pub(crate) fn write_both<K: Sink>(
    sink: &mut K,
    front: &[u8],
    bytes: &[u8],
) -> Result<(), WriteFault>
    ensures ok { OnOk result (Appends (K.written sink.old) (K.written sink.new)
        (front.now ++ bytes.now)) }
    ensures prefix { OnErr result (AppendsPrefix (K.written sink.old) (K.written sink.new)
        (front.now ++ bytes.now)) }
    ensures fault { OnErr result (Rose (K.faults sink.old) (K.faults sink.new)) }
    ensures never_falls { K.faults sink.old ≤ K.faults sink.new }
{
    write_all(sink, front)?;
    write_all(sink, bytes)
}
