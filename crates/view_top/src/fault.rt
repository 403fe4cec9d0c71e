// What a call says that ends without its work done.
ghost use Rattle.std.specs.Prelude.{◌≡◌};
ghost use Rattle.program_calls.specs.Calls.{Writes, sink_change};
ghost use Rattle.view_top.specs.FaultLines.{fault_line};

use pcm_io::{Sink, WriteFault, write_all};
use pcm_top::Fault;

/// Writes the line of a fault.
pub fn tell<F: Sink>(fault: Fault, err: &mut F) -> Result<(), WriteFault>
    ensures { Writes (fault_line fault) (sink_change F.written F.faults err.old err.new) result }
{
    match fault {
        Fault::Usage => write_all(err, b"usage: pcm view\n"),
        _ => pcm_top::tell(fault, err),
    }
}
