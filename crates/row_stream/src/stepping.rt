// One step of a stream: its next row is taken, where there is one.
ghost use Rattle.std.specs.Prelude.{◌≡◌, ◌≢◌, ◌<◌, ◌≤◌, ◌&&◌, ℕ, List, Option};
ghost use Rattle.std.specs.Io.KnownBytes.{Appends};
ghost use Rattle.pcm_io.specs.Faults.{Rose};
ghost use Rattle.pcm_io.specs.Giving.{AppendsPrefix};
ghost use Rattle.ecp_line.specs.Layout.{IsLayout};
ghost use Rattle.module_shape.specs.Limits.{total_of};
ghost use Rattle.trace_reader.specs.Events.{IsEventFor};
ghost use Rattle.trace_stream.specs.Asked.{IsAskedFor, NamesRow};
ghost use Rattle.trace_stream.specs.declared.asked.Asked.TheVariants.{Happens};
ghost use Rattle.row_printer.specs.Printing.{IsPrinting, table_told, text_told};
ghost use Rattle.row_printer.specs.Refusing.{any_refused};
ghost use Rattle.row_stream.specs.Serving.{MayServe};
ghost use Rattle.row_stream.specs.Sourcing.{StopsLate};
ghost use Rattle.row_stream.specs.Stepping.{AsksBehind, GoesOn, Steps, TakesRow, TellsNoMore, Writes};

use crate::next::next_row;
use crate::serving::{serve, serve_event};
use crate::stop::{Behind, Stop, StreamStep, behind_asked, behind_event, stops_behind};
use pcm_io::{Sink, Source};
use pcm_module::Module;
use row_printer::RowPrinter;
use trace_reader::{Event, Kind, TraceFault};
use trace_stream::{Asked, TraceStream};
use wear_totals::TellsWear;

/// Takes the next row: an event that has come whole, or else what the source gives, which is asked only once all that is known is written. An event goes to the module as it was read: put among all
/// that may be asked it would be copied.
pub fn take_next<
    const B: usize,
    const M: usize,
    const E: usize,
    A: TellsWear<B, M, E>,
    S: Source,
    K: Sink + Drop,
>(
    pcm: &mut Module<B, M, E>,
    array: &mut A,
    stream: &mut TraceStream,
    source: &mut S,
    stops: bool,
    behind: Behind,
    out: &mut RowPrinter<B, K>,
) -> StreamStep
    requires layout { IsLayout B M E }
    requires lines { stream.old.lines ≡ total_of pcm.old.shape }
    requires rows { stream.old.rows ≡ out.old.rows }
    requires few { out.old.rows < 4294967295 }
    requires serving { MayServe pcm.old (A.state array.old) out.old }
    ensures steps { Steps S.left S.taken S.faults stops pcm.old pcm.new (A.state array.old)
        (A.state array.new) source.old source.new stream.old stream.new out.old out.new
        behind result }
    ensures writes { Writes K.written K.faults out.old out.new result }
    ensures waits { AsksBehind S.left S.taken K.written K.faults
        source.old source.new stream.old out.old }
    ensures wear { (A.state array.new).wear ≡ (A.state array.old).wear }
    ensures never_falls { S.faults source.old ≤ S.faults source.new }
{
    if let Some(event) = stream.arrived::<B>() {
        return take_event(pcm, array, &event, stops, out);
    }
    take_given(pcm, array, stream, source, stops, behind, out)
}

// Takes the next row that the source gives. It is called, so that no room for one is made where an event has come.
#[inline(never)]
fn take_given<
    const B: usize,
    const M: usize,
    const E: usize,
    A: TellsWear<B, M, E>,
    S: Source,
    K: Sink + Drop,
>(
    pcm: &mut Module<B, M, E>,
    array: &mut A,
    stream: &mut TraceStream,
    source: &mut S,
    stops: bool,
    behind: Behind,
    out: &mut RowPrinter<B, K>,
) -> StreamStep
    requires layout { IsLayout B M E }
    requires lines { stream.old.lines ≡ total_of pcm.old.shape }
    requires rows { stream.old.rows ≡ out.old.rows }
    requires few { out.old.rows < 4294967295 }
    requires serving { MayServe pcm.old (A.state array.old) out.old }
    ensures steps { Steps S.left S.taken S.faults stops pcm.old pcm.new (A.state array.old)
        (A.state array.new) source.old source.new stream.old stream.new out.old out.new
        behind result }
    ensures writes { Writes K.written K.faults out.old out.new result }
    ensures waits { AsksBehind S.left S.taken K.written K.faults
        source.old source.new stream.old out.old }
    ensures wear { (A.state array.new).wear ≡ (A.state array.old).wear }
    ensures never_falls { S.faults source.old ≤ S.faults source.new }
{
    match next_row(stream, source, out) {
        Ok(Some(asked)) => take_row(pcm, array, &asked, stops, out),
        Ok(None) => StreamStep::Ends(behind),
        Err(stop) => StreamStep::Stops(stop),
    }
}

// Serves an event, where it doesn't come too late.
fn take_event<
    const B: usize,
    const M: usize,
    const E: usize,
    A: TellsWear<B, M, E>,
    K: Sink + Drop,
>(
    pcm: &mut Module<B, M, E>,
    array: &mut A,
    event: &Event<B>,
    stops: bool,
    out: &mut RowPrinter<B, K>,
) -> StreamStep
    requires layout { IsLayout B M E }
    requires event { IsEventFor (total_of pcm.old.shape) 0 event.now }
    requires few { out.old.rows < 4294967295 }
    requires serving { MayServe pcm.old (A.state array.old) out.old }
    ensures takes { TakesRow stops pcm.old pcm.new (A.state array.old) (A.state array.new)
        out.old out.new (Happens event.now) result }
    ensures writes { Writes K.written K.faults out.old out.new result }
    ensures wear { (A.state array.new).wear ≡ (A.state array.old).wear }
{
    if event.tick < pcm.tick() {
        return StreamStep::Stops(stop_late(out));
    }
    serve_event(pcm, array, event, out);
    go_on(stops, behind_event(&event.op), out)
}

// Serves a row, where it doesn't come too late.
fn take_row<const B: usize, const M: usize, const E: usize, A: TellsWear<B, M, E>, K: Sink + Drop>(
    pcm: &mut Module<B, M, E>,
    array: &mut A,
    asked: &Asked<B>,
    stops: bool,
    out: &mut RowPrinter<B, K>,
) -> StreamStep
    requires layout { IsLayout B M E }
    requires asked { IsAskedFor (total_of pcm.old.shape) 0 asked.now }
    requires named { NamesRow out.old.rows asked.now }
    requires few { out.old.rows < 4294967295 }
    requires serving { MayServe pcm.old (A.state array.old) out.old }
    ensures takes { TakesRow stops pcm.old pcm.new (A.state array.old) (A.state array.new)
        out.old out.new asked.now result }
    ensures writes { Writes K.written K.faults out.old out.new result }
    ensures wear { (A.state array.new).wear ≡ (A.state array.old).wear }
{
    if asked.named() < pcm.tick() {
        return StreamStep::Stops(stop_late(out));
    }
    serve(pcm, array, asked, out);
    go_on(stops, behind_asked(asked), out)
}

// Whether a stream goes on behind a row that was served: where it ends there, all that is known is written.
fn go_on<const B: usize, K: Sink + Drop>(
    stops: bool,
    behind: Behind,
    out: &mut RowPrinter<B, K>,
) -> StreamStep
    ensures goes { GoesOn behind (stops && any_refused (table_told out.new)) result }
    ensures told { TellsNoMore out.old out.new }
    ensures writes { Writes K.written K.faults out.old out.new result }
{
    if stops_behind(stops, out) {
        let Ok(()) = out.flush() else {
            return StreamStep::Stops(Stop::Output);
        };
        return StreamStep::Ends(behind);
    }
    StreamStep::Goes(behind)
}

// Why a stream stops at a row that comes too late: all that is known is written before.
fn stop_late<const B: usize, K: Sink + Drop>(out: &mut RowPrinter<B, K>) -> Stop
    requires few { out.old.rows < 4294967295 }
    ensures stops { StopsLate out.new.rows result }
    ensures written { result ≢ Stop.Output → (before : Option (List ℕ)) (first : ℕ)
        → IsPrinting K.written K.faults before first out.old
        → Appends before (K.written out.new.sink) (text_told out.new) }
    ensures part { result ≡ Stop.Output → (before : Option (List ℕ)) (first : ℕ)
        → IsPrinting K.written K.faults before first out.old
        → AppendsPrefix before (K.written out.new.sink) (text_told out.new)
        × Rose first (K.faults out.new.sink) }
    ensures rows { out.new.rows ≡ out.old.rows }
    ensures told { out.new.told ≡ out.old.told }
    ensures snapshots { out.new.snapshots ≡ out.old.snapshots }
    ensures prints { out.new.prints ≡ out.old.prints }
    ensures printing { (before : Option (List ℕ)) (first : ℕ)
        → IsPrinting K.written K.faults before first out.old
        → IsPrinting K.written K.faults before first out.new }
{
    let Ok(()) = out.flush() else {
        return Stop::Output;
    };
    Stop::Late(TraceFault {
        row: out.rows() + 1,
        kind: Kind::Order,
    })
}
