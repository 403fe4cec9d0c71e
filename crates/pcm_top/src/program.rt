// The program's one call.
ghost use Rattle.std.specs.Prelude.{◌≡◌, ◌⊎◌, map, string_bytes, Ok, Err, IfOk, IfErr, OnOk};
ghost use Rattle.command_line.specs.Jobs.{IsJob, IsRun, job_of};
ghost use Rattle.program_calls.specs.Calls.{lent_array, lent_sink, lent_source, sink_change};
ghost use Rattle.pcm_top.specs.Ends.{EndsJob, IsToldOf};
ghost use Rattle.pcm_top.specs.Promises.{KeepsPromises};
ghost use Rattle.pcm_top.specs.Running.{IsRefused};

use crate::check::report_check;
use crate::drawn::write_drawn;
use crate::fault::{Fault, tell};
use crate::report::{report_map, report_moves};
use crate::run::{Done, run};
use crate::show::show;
use cell_rows::CellArray;
use command_line::{Job, LineSize, Refusal, RunJob, read_job};
use pcm_io::{Sink, Source};
use std::alloc::Global;

// The status of a fault, after its line was written; that of a fault of writing where the line couldn't be.
fn give_up<F: Sink>(fault: Fault, err: &mut F) -> u8
    ensures { IsToldOf fault (sink_change F.written F.faults err.old err.new) result }
{
    match tell(fault, err) {
        Ok(()) => fault.status(),
        Err(_) => Fault::Write.status(),
    }
}

// The job of the words.
fn read_words(alloc: Global, words: &[String]) -> Result<Job, Fault>
    ensures ok { IfOk result (λ job. job_of (map string_bytes words.now) ≡ Ok job) }
    ensures err { IfErr result (λ fault. IsRefused (job_of (map string_bytes words.now)) fault) }
    ensures in_range { IfOk result IsJob }
{
    let job = read_job(alloc, words)?;
    Ok(job)
}

// Makes a run on the array of its lines; the other one stays as it is.
fn run_on<A: CellArray<64, 8>, V: CellArray<128, 16>, S: Source, K: Sink>(
    alloc: Global,
    job: &RunJob,
    array: &mut A,
    wide: &mut V,
    source: &mut S,
    out: &mut K,
) -> Result<Done, Fault>
    requires { IsRun job.now }
    ensures { EndsJob (record {
      asked = Ok (Job.Run job.now);
      array = lent_array A.state array.old array.new;
      wide = lent_array V.state wide.old wide.new;
      source = lent_source S.left S.taken S.faults source.old source.new;
      out = lent_sink K.written K.faults out.old out.new;
    }) result }
{
    match job.line {
        LineSize::Bytes64 => run::<64, 8, 6, A, S, K>(alloc, job, array, source, out),
        LineSize::Bytes128 => run::<128, 16, 8, V, S, K>(alloc, job, wide, source, out),
    }
}

// A report that was written is done wholly.
fn whole(written: Result<(), Fault>) -> Result<Done, Fault>
    ensures ok { OnOk written (result ≡ Ok Done.Whole) }
    ensures err { IfErr written (λ fault. result ≡ Err fault) }
{
    match written {
        Ok(()) => Ok(Done::Whole),
        Err(fault) => Err(fault),
    }
}

// Does what a job asks for.
fn carry_out<A: CellArray<64, 8>, V: CellArray<128, 16>, S: Source, K: Sink>(
    alloc: Global,
    job: Job,
    array: &mut A,
    wide: &mut V,
    source: &mut S,
    out: &mut K,
) -> Result<Done, Fault>
    requires { IsJob job }
    ensures { EndsJob (record {
      asked = Ok job;
      array = lent_array A.state array.old array.new;
      wide = lent_array V.state wide.old wide.new;
      source = lent_source S.left S.taken S.faults source.old source.new;
      out = lent_sink K.written K.faults out.old out.new;
    }) result }
{
    match job {
        Job::Run(job) => run_on(alloc, &job, array, wide, source, out),
        Job::Gen(job) => whole(write_drawn(alloc, job, out)),
        Job::Map(job) => whole(report_map(alloc, job, out)),
        Job::Moves(job) => whole(report_moves(alloc, job, out)),
        Job::Show => whole(show(alloc, source, out)),
        Job::Check(job) => report_check(alloc, job, source, out),
    }
}

// Does what the words ask for.
fn work<A: CellArray<64, 8>, V: CellArray<128, 16>, S: Source, K: Sink>(
    alloc: Global,
    words: &[String],
    array: &mut A,
    wide: &mut V,
    source: &mut S,
    out: &mut K,
) -> Result<Done, Fault>
    ensures ends { EndsJob (record {
      asked = job_of (map string_bytes words.now);
      array = lent_array A.state array.old array.new;
      wide = lent_array V.state wide.old wide.new;
      source = lent_source S.left S.taken S.faults source.old source.new;
      out = lent_sink K.written K.faults out.old out.new;
    }) result }
    ensures usage { job_of (map string_bytes words.now) ≡ Err Refusal.Usage
        → ((result ≡ Err Fault.Usage) ⊎ (result ≡ Err Fault.NoMemory)) × (out.new ≡ out.old) }
{
    let job = read_words(alloc, words)?;
    carry_out(alloc, job, array, wide, source, out)
}

/// Runs the program on the words behind its name, and answers its status: 0 the work is done, 1 a run is done
/// in which some row was refused, lost or left in a queue, or results were checked of which a row breaks a
/// rule, 2 the words ask for no job, 3 the trace, its results or the image have a fault, 4 reading failed, 5
/// writing failed, 6 there are too many bytes or rows, 7 memory ran out. A run is made on the array of its
/// lines, which is powered up first: `array` for lines of 64 bytes, `wide` for lines of 128.
pub fn pcm_run<A: CellArray<64, 8>, V: CellArray<128, 16>, S: Source, K: Sink, F: Sink>(
    alloc: Global,
    words: &[String],
    array: &mut A,
    wide: &mut V,
    source: &mut S,
    out: &mut K,
    err: &mut F,
) -> u8
    // What was asked for, what was lent, and what became of it: each promise is a field of `KeepsPromises`.
    ensures { KeepsPromises (record {
      asked = job_of (map string_bytes words.now);
      array = lent_array A.state array.old array.new;
      wide = lent_array V.state wide.old wide.new;
      source = lent_source S.left S.taken S.faults source.old source.new;
      out = lent_sink K.written K.faults out.old out.new;
    }) (lent_sink F.written F.faults err.old err.new) result }
{
    match work(alloc, words, array, wide, source, out) {
        Ok(done) => done.status(),
        Err(fault) => give_up(fault, err),
    }
}
