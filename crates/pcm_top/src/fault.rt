// Why a call ends without its work done, and what it says then.
ghost use Rattle.std.specs.Prelude.{◌≡◌};
ghost use Rattle.program_calls.specs.Calls.{Writes, sink_change};
ghost use Rattle.pcm_top.specs.FaultLines.{image_word, fault_line, status_of};

use itoa::Buffer;
use pcm_image::{ImageFault, ImageKind};
use pcm_io::{Sink, WriteFault, write_all};
use program_calls::{tell_trace, write_parts};
use trace_reader::TraceFault;

/// Why a call of the program ends without its work done.
#[derive(Clone, Copy, PartialEq)]
pub enum Fault {
    /// The words name no command.
    Usage,
    /// The trace has a fault.
    Trace(TraceFault),
    /// The bytes that are to be shown aren't an image.
    Image(ImageFault),
    /// This row of the results is none, of the trace before them; row 0 is the header.
    Results(u32),
    /// The source couldn't be read.
    Read,
    /// The output couldn't be written.
    Write,
    /// The source has too many bytes, or the trace too many rows.
    TooLong,
    /// Memory ran out.
    NoMemory,
}

impl Fault {
    /// The status of the program for it.
    pub fn status(self) -> u8
        ensures { result ≡ status_of self }
    {
        match self {
            Fault::Usage => 2,
            Fault::Trace(_) | Fault::Results(_) => 3,
            Fault::Image(_) => 3,
            Fault::Read => 4,
            Fault::Write => 5,
            Fault::TooLong => 6,
            Fault::NoMemory => 7,
        }
    }
}

fn image_word_of(kind: ImageKind) -> &'static [u8]
    ensures { result.now ≡ image_word kind }
{
    match kind {
        ImageKind::Short => b"short",
        ImageKind::Magic => b"magic",
        ImageKind::Size => b"size",
        ImageKind::Shape => b"shape",
        ImageKind::Bank => b"bank",
        ImageKind::Entry => b"entry",
        ImageKind::Extra => b"extra",
        ImageKind::Line => b"line",
    }
}

fn tell_image<F: Sink>(fault: ImageFault, err: &mut F) -> Result<(), WriteFault>
    ensures { Writes (fault_line (Fault.Image fault))
        (sink_change F.written F.faults err.old err.new) result }
{
    let mut digits = Buffer::new();
    let at = digits.format(fault.at).as_bytes();
    let parts = [
        b"image byte ".as_slice(),
        at,
        b": ".as_slice(),
        image_word_of(fault.kind),
        b"\n".as_slice(),
    ];
    write_parts(&parts, err)
}

fn tell_results<F: Sink>(row: u32, err: &mut F) -> Result<(), WriteFault>
    ensures { Writes (fault_line (Fault.Results row))
        (sink_change F.written F.faults err.old err.new) result }
{
    let mut digits = Buffer::new();
    let number = digits.format(row).as_bytes();
    let parts = [b"results row ".as_slice(), number, b"\n".as_slice()];
    write_parts(&parts, err)
}

/// Writes the line of a fault.
pub fn tell<F: Sink>(fault: Fault, err: &mut F) -> Result<(), WriteFault>
    ensures { Writes (fault_line fault) (sink_change F.written F.faults err.old err.new) result }
{
    match fault {
        Fault::Usage => write_all(err, b"usage: pcm run|gen|map|moves|show|check [options]\n"),
        Fault::Trace(fault) => tell_trace(fault, err),
        Fault::Results(row) => tell_results(row, err),
        Fault::Image(fault) => tell_image(fault, err),
        Fault::Read => write_all(err, b"read fault\n"),
        Fault::Write => write_all(err, b"write fault\n"),
        Fault::TooLong => write_all(err, b"trace too long\n"),
        Fault::NoMemory => write_all(err, b"out of memory\n"),
    }
}
