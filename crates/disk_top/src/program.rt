// The program's one call.
ghost use Rattle.std.specs.Prelude.{◌≡◌, IfOk, Ok, OnErr, map, string_bytes};
ghost use Rattle.pcm_cells.specs.Seeded.{seeded_state};
ghost use Rattle.disk_words.specs.Layouts.{line_bytes};
ghost use Rattle.program_calls.specs.Calls.{lent_sink};
ghost use Rattle.disk_words.specs.Jobs.{IsDiskPlan, asked_by, disk_job_of};
ghost use Rattle.disk_top.specs.Promises.{Becomes, KeepsPromises};
ghost use Rattle.disk_top.specs.Serving.{HasServed, shown};

use crate::outcome::{DiskOutcome, say};
use crate::serving::{NarrowLines, WideLines, narrow, serve, wide};
use command_line::{LineSize, Refusal};
use disk_server::Ended;
use disk_words::{DiskJob, read_disk_job};
use pcm_io::{Sink, Source};
use std::alloc::{AllocError, Global};

/// The lines of a disk that was served, over their array, by the size of a line; nothing where none
/// was.
#[derive(Drop)]
pub enum Remains {
    Nothing,
    Narrow(NarrowLines),
    Wide(WideLines),
}

// Serves a client by a disk on lines of 64 bytes.
fn serve_narrow<S: Source, K: Sink>(
    alloc: Global,
    job: DiskJob,
    source: &mut S,
    sink: &mut K,
) -> Result<(Ended, NarrowLines), AllocError>
    requires plan { IsDiskPlan job.plan }
    requires line { line_bytes job.plan.line ≡ 64 }
    ensures served { IfOk result (λ served. HasServed seeded_state (asked_by job)
        (shown S.left S.taken S.faults K.written K.faults source.old sink.old)
        (shown S.left S.taken S.faults K.written K.faults source.new sink.new)
        served.1 served.0) }
    ensures asleep { OnErr result ((source.new ≡ source.old) × (sink.new ≡ sink.old)) }
{
    let plan = job.plan;
    let mut lines = narrow(alloc, job)?;
    let ended = serve(alloc, plan, &mut lines, source, sink)?;
    Ok((ended, lines))
}

// The same of 128 bytes.
fn serve_wide<S: Source, K: Sink>(
    alloc: Global,
    job: DiskJob,
    source: &mut S,
    sink: &mut K,
) -> Result<(Ended, WideLines), AllocError>
    requires plan { IsDiskPlan job.plan }
    requires line { line_bytes job.plan.line ≡ 128 }
    ensures served { IfOk result (λ served. HasServed seeded_state (asked_by job)
        (shown S.left S.taken S.faults K.written K.faults source.old sink.old)
        (shown S.left S.taken S.faults K.written K.faults source.new sink.new)
        served.1 served.0) }
    ensures asleep { OnErr result ((source.new ≡ source.old) × (sink.new ≡ sink.old)) }
{
    let plan = job.plan;
    let mut lines = wide(alloc, job)?;
    let ended = serve(alloc, plan, &mut lines, source, sink)?;
    Ok((ended, lines))
}

// Serves a client by the disk that is asked for.
fn serve_on<S: Source, K: Sink>(
    alloc: Global,
    job: DiskJob,
    source: &mut S,
    sink: &mut K,
) -> (DiskOutcome, Remains)
    requires plan { IsDiskPlan job.plan }
    ensures becomes { Becomes (record {
      asked = Ok (asked_by job);
      was = shown S.left S.taken S.faults K.written K.faults source.old sink.old;
      now = shown S.left S.taken S.faults K.written K.faults source.new sink.new;
      remains = result.1;
    }) result.0 }
{
    match job.plan.line {
        LineSize::Bytes64 => match serve_narrow(alloc, job, source, sink) {
            Ok((ended, lines)) => (DiskOutcome::Served(ended), Remains::Narrow(lines)),
            Err(_) => (DiskOutcome::NoMemory, Remains::Nothing),
        },
        LineSize::Bytes128 => match serve_wide(alloc, job, source, sink) {
            Ok((ended, lines)) => (DiskOutcome::Served(ended), Remains::Wide(lines)),
            Err(_) => (DiskOutcome::NoMemory, Remains::Nothing),
        },
    }
}

// Does what the words ask for.
fn work<S: Source, K: Sink>(
    alloc: Global,
    words: &[String],
    source: &mut S,
    sink: &mut K,
) -> (DiskOutcome, Remains)
    ensures becomes { Becomes (record {
      asked = disk_job_of (map string_bytes words.now);
      was = shown S.left S.taken S.faults K.written K.faults source.old sink.old;
      now = shown S.left S.taken S.faults K.written K.faults source.new sink.new;
      remains = result.1;
    }) result.0 }
{
    match read_disk_job(alloc, words) {
        Ok(job) => serve_on(alloc, job, source, sink),
        Err(Refusal::Usage) => (DiskOutcome::Usage, Remains::Nothing),
        Err(Refusal::NoMemory) => (DiskOutcome::NoMemory, Remains::Nothing),
    }
}

/// Serves a client by the disk that the words behind the program's name ask for, and answers its
/// status: 0 the client left, or its bytes ended between two messages, 2 the words ask for nothing,
/// 3 its bytes ended amid a message, or begin none, 4 reading failed, 5 writing failed, 6 there are
/// too many messages, 7 memory ran out before the client was served. The disk lies on a new module
/// over the seeded array; its lines are given back.
pub fn run_disk<S: Source, K: Sink, F: Sink>(
    alloc: Global,
    words: &[String],
    source: &mut S,
    sink: &mut K,
    err: &mut F,
) -> (u8, Remains)
    // What was asked for, what was lent, and what became of it.
    ensures promises { KeepsPromises (record {
      asked = disk_job_of (map string_bytes words.now);
      was = shown S.left S.taken S.faults K.written K.faults source.old sink.old;
      now = shown S.left S.taken S.faults K.written K.faults source.new sink.new;
      remains = result.1;
    }) (lent_sink F.written F.faults err.old err.new) result.0 }
{
    let (outcome, remains) = work(alloc, words, source, sink);
    (say(outcome, err), remains)
}
