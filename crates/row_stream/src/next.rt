// The next row of a source.
ghost use Rattle.std.specs.Prelude.{◌≡◌, ◌≢◌, ◌≤◌, ℕ, List, Option, Err, IfOk, IfErr, IfNone};
ghost use Rattle.std.specs.Io.KnownBytes.{Appends};
ghost use Rattle.pcm_io.specs.Faults.{Rose};
ghost use Rattle.pcm_io.specs.Giving.{AppendsPrefix};
ghost use Rattle.row_printer.specs.Printing.{IsPrinting, text_told};
ghost use Rattle.row_stream.specs.Sourcing.{GivesNext, HasNoNext};
ghost use Rattle.row_stream.specs.Stepping.{AsksBehind};

use crate::stop::Stop;
use pcm_io::{Sink, Source};
use row_printer::RowPrinter;
use trace_stream::{Asked, TraceStream};

/// The next row, where its event hasn't come whole: the source is asked for it only once all that is known is written.
pub fn next_row<const B: usize, S: Source, K: Sink + Drop>(
    stream: &mut TraceStream,
    source: &mut S,
    out: &mut RowPrinter<B, K>,
) -> Result<Option<Asked<B>>, Stop>
    requires { B ≤ 128 }
    ensures ok { IfOk result (λ next. GivesNext S.left S.taken S.faults source.old source.new
        stream.old stream.new next) }
    ensures err { IfErr result (λ stop. HasNoNext B S.left S.taken S.faults source.old
        source.new stream.old stream.new stop) }
    ensures waits { AsksBehind S.left S.taken K.written K.faults
        source.old source.new stream.old out.old }
    ensures none { IfOk result (λ next. IfNone next ((before : Option (List ℕ)) (first : ℕ)
        → IsPrinting K.written K.faults before first out.old
        → Appends before (K.written out.new.sink) (text_told out.new))) }
    ensures written { IfErr result (λ stop. stop ≢ Stop.Output
        → (before : Option (List ℕ)) (first : ℕ)
        → IsPrinting K.written K.faults before first out.old
        → Appends before (K.written out.new.sink) (text_told out.new)) }
    ensures part { result ≡ Err Stop.Output → (before : Option (List ℕ)) (first : ℕ)
        → IsPrinting K.written K.faults before first out.old
        → AppendsPrefix before (K.written out.new.sink) (text_told out.new)
        × Rose first (K.faults out.new.sink) }
    ensures rows { out.new.rows ≡ out.old.rows }
    ensures told { out.new.told ≡ out.old.told }
    ensures snapshots { out.new.snapshots ≡ out.old.snapshots }
    ensures prints { out.new.prints ≡ out.old.prints }
    ensures printing { (before : Option (List ℕ)) (first : ℕ)
        → IsPrinting K.written K.faults before first out.old
        → IsPrinting K.written K.faults before first out.new }
    ensures never_falls { S.faults source.old ≤ S.faults source.new }
{
    let Ok(()) = out.flush() else {
        return Err(Stop::Output);
    };
    match stream.next(source) {
        Ok(next) => Ok(next),
        Err(fault) => Err(Stop::Input(fault)),
    }
}
