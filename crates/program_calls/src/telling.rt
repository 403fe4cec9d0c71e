// The lines of faults, as they are written.
ghost use Rattle.std.specs.Prelude.{◌≡◌};
ghost use Rattle.program_calls.specs.Calls.{Writes, sink_change};
ghost use Rattle.program_calls.specs.FaultLines.{joined, kind_word, trace_line};

use itoa::Buffer;
use pcm_io::{Sink, WriteFault, write_all};
use trace_reader::{Kind, TraceFault};

fn word(kind: Kind) -> &'static [u8]
    ensures { result.now ≡ kind_word kind }
{
    match kind {
        Kind::Header => b"header",
        Kind::Fields => b"fields",
        Kind::Tick => b"tick",
        Kind::Order => b"order",
        Kind::Op => b"op",
        Kind::Line => b"line",
        Kind::Payload => b"payload",
    }
}

/// Writes texts one after the other.
pub fn write_parts<F: Sink>(parts: &[&[u8]], err: &mut F) -> Result<(), WriteFault>
    ensures { Writes (joined parts.now) (sink_change F.written F.faults err.old err.new) result }
{
    for part in parts {
        write_all(err, part)?;
    }
    Ok(())
}

/// Writes the line of a trace's fault.
pub fn tell_trace<F: Sink>(fault: TraceFault, err: &mut F) -> Result<(), WriteFault>
    ensures { Writes (trace_line fault) (sink_change F.written F.faults err.old err.new) result }
{
    let mut digits = Buffer::new();
    let row = digits.format(fault.row).as_bytes();
    let parts = [
        b"trace row ".as_slice(),
        row,
        b": ".as_slice(),
        word(fault.kind),
        b"\n".as_slice(),
    ];
    write_parts(&parts, err)
}
