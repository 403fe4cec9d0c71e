// Why a call ends without its work done, and what it says then.
ghost use Rattle.std.specs.Prelude.{◌≡◌};
ghost use Rattle.program_calls.specs.Calls.{Writes, sink_change};
ghost use Rattle.stream_top.specs.FaultLines.{fault_line, status_of};

use pcm_io::{Sink, WriteFault, write_all};
use program_calls::tell_trace;
use trace_reader::TraceFault;

/// Why a call of the program ends without its work done.
#[derive(Clone, Copy, PartialEq)]
pub enum StreamRunFault {
    /// The words ask for nothing.
    Usage,
    /// A row has a fault.
    Trace(TraceFault),
    /// The source couldn't be read.
    Read,
    /// The output couldn't be written.
    Write,
    /// There are too many rows.
    TooLong,
    /// Memory ran out.
    NoMemory,
}

impl StreamRunFault {
    /// The status of the program for it.
    pub fn status(self) -> u8
        ensures { result ≡ status_of self }
    {
        match self {
            StreamRunFault::Usage => 2,
            StreamRunFault::Trace(_) => 3,
            StreamRunFault::Read => 4,
            StreamRunFault::Write => 5,
            StreamRunFault::TooLong => 6,
            StreamRunFault::NoMemory => 7,
        }
    }
}

/// Writes the line of a fault.
pub fn tell<F: Sink>(fault: StreamRunFault, err: &mut F) -> Result<(), WriteFault>
    ensures { Writes (fault_line fault) (sink_change F.written F.faults err.old err.new) result }
{
    match fault {
        StreamRunFault::Usage => write_all(err, b"usage: pcm stream [options]\n"),
        StreamRunFault::Trace(fault) => tell_trace(fault, err),
        StreamRunFault::Read => write_all(err, b"read fault\n"),
        StreamRunFault::Write => write_all(err, b"write fault\n"),
        StreamRunFault::TooLong => write_all(err, b"trace too long\n"),
        StreamRunFault::NoMemory => write_all(err, b"out of memory\n"),
    }
}
