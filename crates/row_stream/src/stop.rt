// Why and where a stream stops.
ghost use Rattle.std.specs.Prelude.{◌≡◌, ◌&&◌, List, ◌∷◌};
ghost use Rattle.row_printer.specs.Printing.{table_told};
ghost use Rattle.row_printer.specs.Refusing.{any_refused};
ghost use Rattle.trace_stream.specs.declared.asked.Asked.{Asked as StreamAsked};
ghost use Rattle.row_stream.specs.Asking.{behind_of, behind_op};

use pcm_io::Sink;
use row_printer::RowPrinter;
use trace_reader::{EventOp, TraceFault};
use trace_stream::{Asked, StreamFault};

/// Why a stream isn't served to its end.
#[derive(Clone, Copy, PartialEq)]
pub enum Stop {
    /// No further row could be had.
    Input(StreamFault),
    /// A row names a tick below the one that a settle until reached.
    Late(TraceFault),
    /// Rows, settles and queries came that can't be counted: 2 to the power 64 less one of them.
    Endless,
    /// The output couldn't be written.
    Output,
}

/// How a module stands behind what was asked of it.
#[derive(Clone, Copy, PartialEq, Eq)]
pub enum Behind {
    /// Nothing was asked.
    Nothing,
    /// Its power is on.
    Going,
    /// A power cut came last.
    Off,
}

/// What one step of a stream comes to.
#[derive(Clone, Copy)]
pub enum StreamStep {
    /// A row was served, behind which the module stands so, and the stream goes on.
    Goes(Behind),
    /// The stream ends, and the module stands so: no row is left, or one was refused at which it is to stop.
    Ends(Behind),
    /// It isn't served to its end.
    Stops(Stop),
}

/// How a module stands behind a row.
pub fn behind_asked<const B: usize>(asked: &Asked<B>) -> Behind
    ensures { (before : List (StreamAsked B)) → result ≡ behind_of (asked.now ∷ before) }
{
    match asked {
        Asked::Happens(event) => behind_event(&event.op),
        Asked::Settle(_)
        | Asked::Query(_)
        | Asked::Look(_)
        | Asked::Peek(_)
        | Asked::Until(_)
        | Asked::UntilAny(_) => Behind::Going,
    }
}

/// How a module stands behind an event.
pub(crate) fn behind_event<const B: usize>(op: &EventOp<B>) -> Behind
    ensures { result ≡ behind_op op.now }
{
    match op {
        EventOp::Cut => Behind::Off,
        _ => Behind::Going,
    }
}

/// Whether a stream stops behind the row that was served: where it is to stop at a refusal, and one was told.
pub(crate) fn stops_behind<const B: usize, K: Sink + Drop>(
    stops: bool,
    out: &RowPrinter<B, K>,
) -> bool
    ensures { result ≡ (stops && any_refused (table_told out.now)) }
{
    stops && out.refused()
}
