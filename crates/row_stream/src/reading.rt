// The rows that a source gives.
ghost use Rattle.std.specs.Prelude.{◌≡◌, ◌≢◌, ◌<◌, ◌≤◌, ℕ, List, [], Option, Err, IfOk, IfErr};
ghost use Rattle.std.specs.Io.KnownBytes.{Appends};
ghost use Rattle.pcm_io.specs.Faults.{Rose};
ghost use Rattle.pcm_io.specs.Giving.{AppendsPrefix};
ghost use Rattle.ecp_line.specs.Layout.{IsLayout};
ghost use Rattle.module_shape.specs.declared.raw.RawShape.{RawShape};
ghost use Rattle.module_shape.specs.Limits.{total_of};
ghost use Rattle.trace_stream.specs.declared.asked.Asked.{Asked as StreamAsked};
ghost use Rattle.row_printer.specs.Printing.{IsPrinting, text_told};
ghost use Rattle.row_stream.specs.Asking.{behind_of};
ghost use Rattle.row_stream.specs.Refusing.{EndsBehind, GoesAsFar};
ghost use Rattle.row_stream.specs.Serving.{IsServing, told_so_far};
ghost use Rattle.row_stream.specs.Sourcing.{HasStopped, IsRead, IsReadTo};
ghost use Rattle.row_stream.specs.Waiting.{IsTextOf, TellsFirst};

use crate::stepping::take_next;
use crate::stop::{Behind, Stop, StreamStep};
use pcm_io::{Sink, Source};
use pcm_module::Module;
use row_printer::RowPrinter;
use std::alloc::Global;
use trace_stream::TraceStream;
use wear_totals::TellsWear;

/// Serves the rows that a source gives, one after the other, to its end; or, where it is to stop at a refusal, behind the first row that is
/// refused, and asks for nothing more. The source is asked only once all that is known is written: at first the header, and then what became
/// known by the rows that had come whole. Answers how the module stands behind the last row.
pub fn serve_source<
    const B: usize,
    const M: usize,
    const E: usize,
    A: TellsWear<B, M, E>,
    S: Source,
    K: Sink + Drop,
>(
    alloc: Global,
    pcm: &mut Module<B, M, E>,
    array: &mut A,
    source: &mut S,
    stops: bool,
    out: &mut RowPrinter<B, K>,
) -> Result<Behind, Stop>
    requires layout { IsLayout B M E }
    requires begins { (raw : RawShape) × (seed : ℕ)
        × IsServing raw seed [] pcm.old (A.state array.old) out.old.rows out.old.told out.old.prints
        out.old.snapshots }
    ensures served { IfOk result (λ behind. (raw : RawShape) (seed : ℕ)
        → IsServing raw seed [] pcm.old (A.state array.old) out.old.rows out.old.told out.old.prints
        out.old.snapshots
        → (asked : List (StreamAsked B)) × (had : IsServing raw seed asked pcm.new
        (A.state array.new) out.new.rows out.new.told out.new.prints out.new.snapshots)
        × (behind ≡ behind_of asked) × EndsBehind stops asked (told_so_far had)
        (IsRead (total_of raw) S.left S.taken S.faults source.old source.new asked)
        (IsReadTo (total_of raw) S.left S.taken S.faults source.old source.new asked)) }
    ensures few { out.new.rows < 4294967295 }
    ensures stopped { IfErr result (λ stop. (raw : RawShape) (seed : ℕ)
        → IsServing raw seed [] pcm.old (A.state array.old) out.old.rows out.old.told out.old.prints
        out.old.snapshots
        → (asked : List (StreamAsked B)) × (had : IsServing raw seed asked pcm.new
        (A.state array.new) out.new.rows out.new.told out.new.prints out.new.snapshots)
        × HasStopped (total_of raw) S.left S.taken S.faults source.old source.new asked stop
        × GoesAsFar stop stops asked (told_so_far had)) }
    // Before each request to the source all rows that had come whole were served, and all that was told was written; it gave a piece at most.
    ensures waits { (raw : RawShape) (seed : ℕ)
        → IsServing raw seed [] pcm.old (A.state array.old) out.old.rows out.old.told out.old.prints
        out.old.snapshots
        → (before : Option (List ℕ)) (first : ℕ)
        → IsPrinting K.written K.faults before first out.old
        → (times : ℕ) × TellsFirst (total_of raw) S.left S.taken S.faults source.old K.written before
        (IsTextOf B M E raw seed out.old.prints) times source.new }
    ensures prints { out.new.prints ≡ out.old.prints }
    ensures printing { (before : Option (List ℕ)) (first : ℕ)
        → IsPrinting K.written K.faults before first out.old
        → IsPrinting K.written K.faults before first out.new }
    ensures written { result ≢ Err Stop.Output → (before : Option (List ℕ)) (first : ℕ)
        → IsPrinting K.written K.faults before first out.old
        → Appends before (K.written out.new.sink) (text_told out.new) }
    ensures part { result ≡ Err Stop.Output → (before : Option (List ℕ)) (first : ℕ)
        → IsPrinting K.written K.faults before first out.old
        → AppendsPrefix before (K.written out.new.sink) (text_told out.new)
        × Rose first (K.faults out.new.sink) }
    ensures wear { (A.state array.new).wear ≡ (A.state array.old).wear }
    ensures never_falls { S.faults source.old ≤ S.faults source.new }
{
    let Ok(()) = out.flush() else {
        return Err(Stop::Output);
    };
    let mut stream = match TraceStream::open(alloc, source, pcm.shape().total()) {
        Ok(stream) => stream,
        Err(fault) => return Err(Stop::Input(fault)),
    };
    let mut behind = Behind::Nothing;
    'rows: for _ in 0..u64::MAX {
        match take_next(pcm, array, &mut stream, source, stops, behind, out) {
            StreamStep::Goes(stands) => behind = stands,
            StreamStep::Ends(last) => return Ok(last),
            StreamStep::Stops(stop) => return Err(stop),
        }
    }
    let Ok(()) = out.flush() else {
        return Err(Stop::Output);
    };
    Err(Stop::Endless)
}
