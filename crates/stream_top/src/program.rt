// The program's one call.
ghost use Rattle.std.specs.Prelude.{◌≡◌, map, string_bytes, Ok, IfOk, IfErr};
ghost use Rattle.stream_words.specs.Jobs.{IsStreamJob, stream_job_of};
ghost use Rattle.program_calls.specs.Calls.{lent_sink, sink_change};
ghost use Rattle.stream_top.specs.Calls.{lent_telling, source_between};
ghost use Rattle.stream_top.specs.Promises.{EndsCall, IsRefused, IsStatusOf, IsToldOf, KeepsPromises};
ghost use Rattle.stream_top.specs.Waiting.{IsJobText, WaitsAt, WaitsFor};

use crate::done::StreamDone;
use crate::fault::{StreamRunFault, tell};
use crate::serving::stream;
use command_line::{LineSize, Refusal};
use pcm_io::{Sink, Source};
use std::alloc::Global;
use stream_words::{StreamJob, read_stream_job};
use wear_totals::TellsWear;

// The status of a fault, after its line was written; that of a fault of writing where the line couldn't be.
fn give_up<F: Sink>(fault: StreamRunFault, err: &mut F) -> u8
    ensures { IsToldOf fault (sink_change F.written F.faults err.old err.new) result }
{
    match tell(fault, err) {
        Ok(()) => fault.status(),
        Err(_) => StreamRunFault::Write.status(),
    }
}

// The status of how a stream ended, after the line of its fault was written.
fn say<F: Sink>(ended: Result<StreamDone, StreamRunFault>, err: &mut F) -> u8
    ensures { IsStatusOf ended (lent_sink F.written F.faults err.old err.new) result }
{
    match ended {
        Ok(done) => done.status(),
        Err(fault) => give_up(fault, err),
    }
}

// Serves a stream on the array of its lines; the other one stays as it is.
fn stream_on<A: TellsWear<64, 8, 6>, V: TellsWear<128, 16, 8>, S: Source, K: Sink + Drop>(
    alloc: Global,
    job: &StreamJob,
    array: &mut A,
    wide: &mut V,
    source: &mut S,
    out: Box<K>,
) -> (Result<StreamDone, StreamRunFault>, Box<K>)
    requires job { IsStreamJob job.now }
    ensures ends { EndsCall (record {
      asked = Ok job.now;
      array = lent_telling A.state A.changes array.old array.new;
      wide = lent_telling V.state V.changes wide.old wide.new;
      source = source_between S.left S.taken S.faults source.old source.new;
      out = lent_sink K.written K.faults out.value result.1.value;
    }) result.0 }
    ensures waits { WaitsAt IsJobText
        (source_between S.left S.taken S.faults source.old source.new)
        K.written (K.written out.value) job.now job.now.line }
{
    match job.line {
        LineSize::Bytes64 => stream::<64, 8, 6, A, S, K>(alloc, job, array, source, out),
        LineSize::Bytes128 => stream::<128, 16, 8, V, S, K>(alloc, job, wide, source, out),
    }
}

// The job of the words.
fn read_words(alloc: Global, words: &[String]) -> Result<StreamJob, StreamRunFault>
    ensures ok { IfOk result (λ job. stream_job_of (map string_bytes words.now) ≡ Ok job) }
    ensures err { IfErr result (λ fault.
        IsRefused (stream_job_of (map string_bytes words.now)) fault) }
    ensures in_range { IfOk result IsStreamJob }
{
    match read_stream_job(alloc, words) {
        Ok(job) => Ok(job),
        Err(Refusal::Usage) => Err(StreamRunFault::Usage),
        Err(Refusal::NoMemory) => Err(StreamRunFault::NoMemory),
    }
}

// Does what the words ask for.
fn work<A: TellsWear<64, 8, 6>, V: TellsWear<128, 16, 8>, S: Source, K: Sink + Drop>(
    alloc: Global,
    words: &[String],
    array: &mut A,
    wide: &mut V,
    source: &mut S,
    out: Box<K>,
) -> (Result<StreamDone, StreamRunFault>, Box<K>)
    ensures ends { EndsCall (record {
      asked = stream_job_of (map string_bytes words.now);
      array = lent_telling A.state A.changes array.old array.new;
      wide = lent_telling V.state V.changes wide.old wide.new;
      source = source_between S.left S.taken S.faults source.old source.new;
      out = lent_sink K.written K.faults out.value result.1.value;
    }) result.0 }
    ensures waits { WaitsFor IsJobText
        (source_between S.left S.taken S.faults source.old source.new)
        K.written (K.written out.value) (stream_job_of (map string_bytes words.now)) }
{
    match read_words(alloc, words) {
        Ok(job) => stream_on(alloc, &job, array, wide, source, out),
        Err(fault) => (Err(fault), out),
    }
}

/// Runs the program of streams on the words behind its name, and answers its status and the output: 0 the stream was served to its end, or up
/// to a refused row where it was to stop there, 1 to its end and some row was refused, lost or left in a queue, 2 the words ask for nothing, 3 a row has a fault, 4 reading failed, 5 writing failed,
/// 6 there are too many rows, 7 memory ran out. It is served on the array of its lines, which is powered up first: `array` for lines of 64
/// bytes, `wide` for lines of 128.
pub fn stream_run<
    A: TellsWear<64, 8, 6>,
    V: TellsWear<128, 16, 8>,
    S: Source,
    K: Sink + Drop,
    F: Sink,
>(
    alloc: Global,
    words: &[String],
    array: &mut A,
    wide: &mut V,
    source: &mut S,
    out: Box<K>,
    err: &mut F,
) -> (u8, Box<K>)
    // Each time that the source is asked for a row, all that is known by then was told, and written.
    ensures waits { WaitsFor IsJobText
        (source_between S.left S.taken S.faults source.old source.new)
        K.written (K.written out.value) (stream_job_of (map string_bytes words.now)) }
    // What was asked for, what was lent, and what became of it: each promise is a field of `KeepsPromises`.
    ensures promises { KeepsPromises (record {
      asked = stream_job_of (map string_bytes words.now);
      array = lent_telling A.state A.changes array.old array.new;
      wide = lent_telling V.state V.changes wide.old wide.new;
      source = source_between S.left S.taken S.faults source.old source.new;
      out = lent_sink K.written K.faults out.value result.1.value;
    }) (lent_sink F.written F.faults err.old err.new) result.0 }
{
    let (result, out) = work(alloc, words, array, wide, source, out);
    (say(result, err), out)
}
