// How a call of the program ends, and what it says then.
ghost use Rattle.std.specs.Prelude.{◌≡◌};
ghost use Rattle.program_calls.specs.Calls.{Writes, lent_sink, sink_change};
ghost use Rattle.disk_top.specs.Outcomes.{IsStatusOf, IsToldOf, fault_in, fault_line, fault_of, status_of};

use disk_server::Ended;
use pcm_io::{Sink, WriteFault, write_all};

/// How a call of the program ends.
#[derive(Clone, Copy, PartialEq, Eq)]
pub enum DiskOutcome {
    /// A client was served, up to this end.
    Served(Ended),
    /// The words ask for nothing.
    Usage,
    /// Memory ran out before the client was served.
    NoMemory,
}

/// Why a call of the program ends without its work done.
#[derive(Clone, Copy, PartialEq, Eq)]
pub enum DiskFault {
    /// The words ask for nothing.
    Usage,
    /// The client's bytes ended amid a message.
    CutOff,
    /// The client's bytes begin no message.
    NoMessage,
    /// The source couldn't be read.
    Read,
    /// The output couldn't be written.
    Write,
    /// There are too many messages.
    TooLong,
    /// Memory ran out.
    NoMemory,
}

impl DiskFault {
    /// The status of the program for it.
    pub fn status(self) -> u8
        ensures { result ≡ status_of self }
    {
        match self {
            DiskFault::Usage => 2,
            DiskFault::CutOff | DiskFault::NoMessage => 3,
            DiskFault::Read => 4,
            DiskFault::Write => 5,
            DiskFault::TooLong => 6,
            DiskFault::NoMemory => 7,
        }
    }

    // The line that is written for it.
    fn line(self) -> &'static [u8]
        ensures { result.now ≡ fault_line self }
    {
        match self {
            DiskFault::Usage => b"usage: pcm disk [options]\n",
            DiskFault::CutOff => b"message cut off\n",
            DiskFault::NoMessage => b"no message\n",
            DiskFault::Read => b"read fault\n",
            DiskFault::Write => b"write fault\n",
            DiskFault::TooLong => b"too many messages\n",
            DiskFault::NoMemory => b"out of memory\n",
        }
    }
}

// Why a client's session isn't done, where it isn't.
fn fault_of(ended: Ended) -> Option<DiskFault>
    ensures { result ≡ fault_of ended }
{
    match ended {
        Ended::Left | Ended::Closed => None,
        Ended::Broken => Some(DiskFault::CutOff),
        Ended::Strange => Some(DiskFault::NoMessage),
        Ended::Unread => Some(DiskFault::Read),
        Ended::Unwritten => Some(DiskFault::Write),
        Ended::Endless => Some(DiskFault::TooLong),
    }
}

impl DiskOutcome {
    // Why its work isn't done, where it isn't.
    fn fault(self) -> Option<DiskFault>
        ensures { result ≡ fault_in self }
    {
        match self {
            DiskOutcome::Served(ended) => fault_of(ended),
            DiskOutcome::Usage => Some(DiskFault::Usage),
            DiskOutcome::NoMemory => Some(DiskFault::NoMemory),
        }
    }
}

// Writes the line of a fault.
fn tell<F: Sink>(fault: DiskFault, err: &mut F) -> Result<(), WriteFault>
    ensures { Writes (fault_line fault) (sink_change F.written F.faults err.old err.new) result }
{
    write_all(err, fault.line())
}

// The status of a fault, after its line was written; that of a fault of writing where the line
// couldn't be.
fn give_up<F: Sink>(fault: DiskFault, err: &mut F) -> u8
    ensures { IsToldOf fault (sink_change F.written F.faults err.old err.new) result }
{
    match tell(fault, err) {
        Ok(()) => fault.status(),
        Err(_) => DiskFault::Write.status(),
    }
}

/// The status of how a call ended, after the line of its fault was written, if it has one; that of a
/// fault of writing where the line couldn't be.
pub(crate) fn say<F: Sink>(outcome: DiskOutcome, err: &mut F) -> u8
    ensures { IsStatusOf (fault_in outcome) (lent_sink F.written F.faults err.old err.new) result }
{
    match outcome.fault() {
        None => 0,
        Some(fault) => give_up(fault, err),
    }
}
