// A stream, served to its end or up to a fault.
ghost use Rattle.std.specs.Prelude.{◌≡◌, ◌≢◌, ◌⊎◌, ◌&&◌, ◌≤◌, ◌<◌, ℕ, List, [], Option, true, false, Err, IfOk, IfErr, OnOk};
ghost use Rattle.std.specs.Io.KnownBytes.{Appends};
ghost use Rattle.pcm_io.specs.Faults.{Rose};
ghost use Rattle.pcm_io.specs.Giving.{AppendsPrefix};
ghost use Rattle.pcm_io.specs.Reserved.{reserved};
ghost use Rattle.program_calls.specs.Calls.{lent_sink};
ghost use Rattle.ecp_line.specs.Layout.{IsLayout};
ghost use Rattle.module_shape.specs.Limits.{total_of};
ghost use Rattle.trace_stream.specs.declared.asked.Asked.{Asked as StreamAsked};
ghost use Rattle.row_printer.specs.Printing.{IsPrinting, table_told, text_told};
ghost use Rattle.row_stream.specs.Asking.{behind_of};
ghost use Rattle.row_stream.specs.Serving.{IsServing, told_so_far};
ghost use Rattle.row_stream.specs.Waiting.{IsTextOf, TellsFirst};
ghost use Rattle.row_printer.specs.Refusing.{any_refused};
ghost use Rattle.row_printer.specs.Snapshots.{IsShown};
ghost use Rattle.stream_words.specs.Jobs.{IsStreamJob};
ghost use Rattle.stream_words.specs.Options.{IsPrint};
ghost use Rattle.stream_top.specs.Calls.{source_between};
ghost use Rattle.stream_top.specs.Streams.{ComeFrom, Ends, GoesAsFarAs, HasPlayed, StopsBy, done_by, has_stopped, is_source, is_off, rest_told, shape_told, shape_with, shown_by, stop_fault, stops_at_refusal, told_of_rows};
ghost use Rattle.stream_top.specs.Waiting.{IsJobText, WaitsOn};

use crate::closing::print_closing;
use crate::done::StreamDone;
use crate::fault::StreamRunFault;
use crate::laws::ended_streams_are_kept;
use crate::memory::take_memory;
use command_line::Input;
use module_shape::RawShape;
use pcm_io::{Sink, Source};
use pcm_module::Module;
use row_printer::{RowPrinter, Shown, ToldRest, ToldShape};
use row_stream::{Behind, Stop, each_row_is_told, end, serve_drawn, serve_source};
use std::alloc::Global;
use stream_words::{End, StreamJob, StreamPrint, StreamUntil, Tell};
use text_printer::TEXT_ROOM;
use trace_stream::StreamFault;
use wear_totals::TellsWear;

// The fault of the program that a stop of a stream is.
fn fault_of(stop: Stop) -> StreamRunFault
    ensures { result ≡ stop_fault stop }
{
    match stop {
        Stop::Input(StreamFault::Trace(fault)) => StreamRunFault::Trace(fault),
        Stop::Input(StreamFault::TooMany) => StreamRunFault::TooLong,
        Stop::Input(StreamFault::Read) => StreamRunFault::Read,
        Stop::Input(StreamFault::Endless) => StreamRunFault::TooLong,
        Stop::Input(StreamFault::NoMemory) => StreamRunFault::NoMemory,
        Stop::Late(fault) => StreamRunFault::Trace(fault),
        Stop::Endless => StreamRunFault::TooLong,
        Stop::Output => StreamRunFault::Write,
    }
}

// Whether the power is to stay off in the end.
fn stays_off(end: End) -> bool
    ensures { result ≡ is_off end }
{
    match end {
        End::Drain => false,
        End::Off => true,
    }
}

// Whether a stream is to stop at a refusal.
fn stops_at(until: StreamUntil) -> bool
    ensures { result ≡ stops_at_refusal until }
{
    match until {
        StreamUntil::End => false,
        StreamUntil::Refused => true,
    }
}

// Whether one that is to stop there has come to a refusal.
fn has_stopped<const B: usize, K: Sink + Drop>(until: StreamUntil, out: &RowPrinter<B, K>) -> bool
    ensures { result ≡ (stops_at_refusal until && any_refused (table_told out.now)) }
{
    match until {
        StreamUntil::End => false,
        StreamUntil::Refused => out.refused(),
    }
}

// How a stream was done.
fn done<const B: usize, K: Sink + Drop>(stopped: bool, out: &RowPrinter<B, K>) -> StreamDone
    ensures { result ≡ done_by stopped (table_told out.now) }
{
    if stopped {
        StreamDone::Whole
    } else if out.short() {
        StreamDone::Short
    } else {
        StreamDone::Whole
    }
}

// What the words of a module say besides its shape.
fn rest_told(raw: &RawShape, seed: u64) -> ToldRest
    ensures { result ≡ rest_told raw.now seed }
{
    ToldRest {
        seed,
        psi: raw.psi,
        read_ticks: raw.read_ticks,
        iter_ticks: raw.iter_ticks,
        policy: raw.policy,
        home: raw.home,
    }
}

// The shape of a module of these sizes, with this besides.
fn shape_with(raw: &RawShape, rest: Option<ToldRest>) -> ToldShape
    ensures { result ≡ shape_with raw.now rest }
{
    ToldShape {
        banks: raw.banks,
        regions: raw.regions,
        lines: raw.lines,
        spares: raw.spares,
        writes: raw.writes,
        reads: raw.reads,
        rest,
    }
}

// What is told of a module of these sizes and this seed.
fn shape_told(raw: &RawShape, seed: u64, tell: Tell) -> Option<ToldShape>
    ensures { result ≡ shape_told raw.now seed tell }
{
    match tell {
        Tell::Nothing => None,
        Tell::Shape => Some(shape_with(raw, None)),
        Tell::Module => Some(shape_with(raw, Some(rest_told(raw, seed)))),
    }
}

// What is printed as rows are served, on a module of these sizes and this seed.
fn shown_of(raw: &RawShape, seed: u64, print: StreamPrint) -> Shown
    ensures is { result ≡ shown_by raw.now seed print }
    ensures lawful { IsPrint print → IsShown result }
{
    match print {
        StreamPrint::Rows(tell) => Shown::Rows(shape_told(raw, seed, tell)),
        StreamPrint::Summary => Shown::Nothing,
        StreamPrint::Wear(_) => Shown::Nothing,
        StreamPrint::Lines(_) => Shown::Nothing,
        StreamPrint::Map => Shown::Nothing,
        StreamPrint::Energy => Shown::Nothing,
        StreamPrint::Image => Shown::Nothing,
        StreamPrint::Snapshots(every) => Shown::Snapshots(every),
    }
}

// Serves the rows of a job, wherever they come from.
fn serve_rows<
    const B: usize,
    const M: usize,
    const E: usize,
    A: TellsWear<B, M, E>,
    S: Source,
    K: Sink + Drop,
>(
    alloc: Global,
    job: &StreamJob,
    pcm: &mut Module<B, M, E>,
    array: &mut A,
    source: &mut S,
    out: &mut RowPrinter<B, K>,
) -> Result<Behind, StreamRunFault>
    requires layout { IsLayout B M E }
    requires job { IsStreamJob job.now }
    requires begins { IsServing job.now.shape job.now.seed [] pcm.old (A.state array.old)
        out.old.rows out.old.told out.old.prints out.old.snapshots }
    ensures served { IfOk result (λ behind. (asked : List (StreamAsked B))
        × (had : IsServing job.now.shape job.now.seed asked pcm.new (A.state array.new) out.new.rows
        out.new.told out.new.prints out.new.snapshots)
        × (behind ≡ behind_of asked)
        × ComeFrom B M E job.now (source_between S.left S.taken S.faults source.old source.new)
        job.now.input asked (told_so_far had)) }
    ensures few { out.new.rows < 4294967295 }
    ensures stopped { IfErr result (λ fault. (asked : List (StreamAsked B))
        × (had : IsServing job.now.shape job.now.seed asked pcm.new (A.state array.new) out.new.rows
        out.new.told out.new.prints out.new.snapshots)
        × StopsBy B M E job.now (source_between S.left S.taken S.faults source.old source.new)
        job.now.input fault asked
        × GoesAsFarAs B M E job.now (source_between S.left S.taken S.faults source.old source.new)
        fault asked (told_so_far had)) }
    ensures prints { out.new.prints ≡ out.old.prints }
    ensures printing { (before : Option (List ℕ)) (first : ℕ)
        → IsPrinting K.written K.faults before first out.old
        → IsPrinting K.written K.faults before first out.new }
    ensures written { result ≢ Err StreamRunFault.Write → (before : Option (List ℕ)) (first : ℕ)
        → IsPrinting K.written K.faults before first out.old
        → Appends before (K.written out.new.sink) (text_told out.new) }
    ensures part { result ≡ Err StreamRunFault.Write → (before : Option (List ℕ)) (first : ℕ)
        → IsPrinting K.written K.faults before first out.old
        → AppendsPrefix before (K.written out.new.sink) (text_told out.new)
        × Rose first (K.faults out.new.sink) }
    ensures wear { (A.state array.new).wear ≡ (A.state array.old).wear }
    ensures unread { is_source job.now.input ≡ false → source.new ≡ source.old }
    ensures waits { (before : Option (List ℕ)) (first : ℕ)
        → IsPrinting K.written K.faults before first out.old
        → (times : ℕ) × TellsFirst (total_of job.now.shape) S.left S.taken S.faults source.old
        K.written before (IsTextOf B M E job.now.shape job.now.seed out.old.prints) times
        source.new }
{
    let stops = stops_at(job.until);
    match job.input {
        Input::Source => match serve_source(alloc, pcm, array, source, stops, out) {
            Ok(behind) => Ok(behind),
            Err(stop) => Err(fault_of(stop)),
        },
        Input::Drawn(mix) => match serve_drawn(pcm, array, job.seed, mix, job.banks, stops, out) {
            Ok(behind) => Ok(behind),
            Err(_) => Err(StreamRunFault::Write),
        },
    }
}

// Serves a job on a module that is new, and writes what became known.
fn play<
    const B: usize,
    const M: usize,
    const E: usize,
    A: TellsWear<B, M, E>,
    S: Source,
    K: Sink + Drop,
>(
    alloc: Global,
    job: &StreamJob,
    pcm: &mut Module<B, M, E>,
    array: &mut A,
    source: &mut S,
    out: &mut RowPrinter<B, K>,
) -> Result<StreamDone, StreamRunFault>
    requires layout { IsLayout B M E }
    requires job { IsStreamJob job.now }
    requires begins { IsServing job.now.shape job.now.seed [] pcm.old (A.state array.old)
        out.old.rows out.old.told out.old.prints out.old.snapshots }
    ensures done { IfOk result (λ done. (asked : List (StreamAsked B))
        × (played : HasPlayed B M E job.now
        (source_between S.left S.taken S.faults source.old source.new) asked pcm.new
        (A.state array.new) out.new.rows out.new.told out.new.prints out.new.snapshots)
        × (done ≡ done_by (has_stopped B M E job.now
        (source_between S.left S.taken S.faults source.old source.new) asked
        (told_of_rows B M E job.now (source_between S.left S.taken S.faults source.old source.new)
        asked played.0.0)) (table_told out.new))) }
    ensures stopped { IfErr result (λ fault. fault ≢ StreamRunFault.Write → (asked : List (StreamAsked B))
        × (had : IsServing job.now.shape job.now.seed asked pcm.new (A.state array.new) out.new.rows
        out.new.told out.new.prints out.new.snapshots)
        × StopsBy B M E job.now (source_between S.left S.taken S.faults source.old source.new)
        job.now.input fault asked
        × GoesAsFarAs B M E job.now (source_between S.left S.taken S.faults source.old source.new)
        fault asked (told_so_far had)) }
    ensures broken { result ≡ Err StreamRunFault.Write → (asked : List (StreamAsked B))
        × (HasPlayed B M E job.now (source_between S.left S.taken S.faults source.old source.new)
        asked pcm.new (A.state array.new)
        out.new.rows out.new.told out.new.prints out.new.snapshots
        ⊎ ((had : IsServing job.now.shape job.now.seed asked pcm.new (A.state array.new)
        out.new.rows out.new.told out.new.prints out.new.snapshots)
        × StopsBy B M E job.now (source_between S.left S.taken S.faults source.old source.new)
        job.now.input StreamRunFault.Write asked
        × GoesAsFarAs B M E job.now (source_between S.left S.taken S.faults source.old source.new)
        StreamRunFault.Write asked (told_so_far had))) }
    ensures prints { out.new.prints ≡ out.old.prints }
    ensures written { result ≢ Err StreamRunFault.Write → (before : Option (List ℕ)) (first : ℕ)
        → IsPrinting K.written K.faults before first out.old
        → Appends before (K.written out.new.sink) (text_told out.new) }
    ensures part { result ≡ Err StreamRunFault.Write → (before : Option (List ℕ)) (first : ℕ)
        → IsPrinting K.written K.faults before first out.old
        → AppendsPrefix before (K.written out.new.sink) (text_told out.new)
        × Rose first (K.faults out.new.sink) }
    ensures text { OnOk result (out.new.text ≡ reserved TEXT_ROOM) }
    ensures falls { (before : Option (List ℕ)) (first : ℕ)
        → IsPrinting K.written K.faults before first out.old → first ≤ K.faults out.new.sink }
    ensures wear { (A.state array.new).wear ≡ (A.state array.old).wear }
    ensures unread { is_source job.now.input ≡ false → source.new ≡ source.old }
    ensures waits { (before : Option (List ℕ)) (first : ℕ)
        → IsPrinting K.written K.faults before first out.old
        → (times : ℕ) × TellsFirst (total_of job.now.shape) S.left S.taken S.faults source.old
        K.written before (IsTextOf B M E job.now.shape job.now.seed out.old.prints) times
        source.new }
{
    let behind = match serve_rows(alloc, job, pcm, array, source, out) {
        Ok(behind) => behind,
        Err(fault) => return Err(fault),
    };
    let stopped = has_stopped(job.until, out);
    end(pcm, array, stays_off(job.end), behind, out);
    let Ok(()) = out.flush() else {
        return Err(StreamRunFault::Write);
    };
    Ok(done(stopped, out))
}

/// Serves a stream on the array, which is powered up first: what became of each row is written as soon as it is known. The output is given
/// back.
pub fn stream<
    const B: usize,
    const M: usize,
    const E: usize,
    A: TellsWear<B, M, E>,
    S: Source,
    K: Sink + Drop,
>(
    alloc: Global,
    job: &StreamJob,
    array: &mut A,
    source: &mut S,
    out: Box<K>,
) -> (Result<StreamDone, StreamRunFault>, Box<K>)
    requires layout { IsLayout B M E }
    requires wide { 16 ≤ B }
    requires job { IsStreamJob job.now }
    ensures ends { Ends B M E job.now
        (source_between S.left S.taken S.faults source.old source.new)
        (lent_sink K.written K.faults out.value result.1.value) (A.state array.new)
        (A.changes array.new) result.0 }
    ensures waits { WaitsOn IsJobText
        (source_between S.left S.taken S.faults source.old source.new)
        K.written (K.written out.value) B M E job.now }
{
    each_row_is_told();
    ended_streams_are_kept();
    let (mut pcm, text) = match take_memory::<B, M, E, A>(alloc, job, array) {
        Ok(taken) => taken,
        Err(_) => return (Err(StreamRunFault::NoMemory), out),
    };
    let shown = shown_of(job.shape.raw(), job.seed, job.print);
    let mut printer = RowPrinter::<B, K>::new(out, text, shown);
    let done = match play(alloc, job, &mut pcm, array, source, &mut printer) {
        Ok(done) => done,
        Err(fault) => return (Err(fault), printer.end().0),
    };
    let (rows, counts) = (printer.rows(), printer.counts());
    let (mut out, mut text) = printer.end();
    match print_closing(job, &pcm, array, rows, &counts, &mut text, &mut *out) {
        Ok(()) => (Ok(done), out),
        Err(_) => (Err(StreamRunFault::Write), out),
    }
}
