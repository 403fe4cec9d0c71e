// The program's one call.
ghost use Rattle.std.specs.Prelude.{◌≡◌, ◌⊎◌, map, string_bytes, Ok, Err, IfOk, IfErr};
ghost use Rattle.command_line.specs.Jobs.{IsCheck};
ghost use Rattle.program_calls.specs.Calls.{lent_sink, lent_source, sink_change};
ghost use Rattle.explain_words.specs.Jobs.{explain_job_of};
ghost use Rattle.pcm_top.specs.Running.{IsRefused};
ghost use Rattle.explain_top.specs.Calls.{as_check};
ghost use Rattle.explain_top.specs.Ends.{EndsCall, IsToldOf};
ghost use Rattle.explain_top.specs.Promises.{KeepsPromises};

use crate::fault::tell;
use crate::report::report_explanation;
use command_line::Refusal;
use explain_words::{ExplainJob, read_explain_job};
use pcm_io::{Sink, Source};
use pcm_top::{Done, Fault};
use std::alloc::Global;

// The status of a fault, after its line was written; that of a fault of writing where the line
// couldn't be.
fn give_up<F: Sink>(fault: Fault, err: &mut F) -> u8
    ensures { IsToldOf fault (sink_change F.written F.faults err.old err.new) result }
{
    match tell(fault, err) {
        Ok(()) => fault.status(),
        Err(_) => Fault::Write.status(),
    }
}

// The job of the words.
fn read_words(alloc: Global, words: &[String]) -> Result<ExplainJob, Fault>
    ensures ok { IfOk result (λ job. explain_job_of (map string_bytes words.now) ≡ Ok job) }
    ensures err { IfErr result (λ fault.
        IsRefused (as_check (explain_job_of (map string_bytes words.now))) fault) }
    ensures in_range { IfOk result (λ job. IsCheck job.check) }
{
    let job = read_explain_job(alloc, words)?;
    Ok(job)
}

// Does what the words ask for.
fn work<S: Source, K: Sink>(
    alloc: Global,
    words: &[String],
    source: &mut S,
    out: &mut K,
) -> Result<Done, Fault>
    ensures ends { EndsCall (record {
      asked = explain_job_of (map string_bytes words.now);
      source = lent_source S.left S.taken S.faults source.old source.new;
      out = lent_sink K.written K.faults out.old out.new;
    }) result }
    ensures usage { explain_job_of (map string_bytes words.now) ≡ Err Refusal.Usage
        → ((result ≡ Err Fault.Usage) ⊎ (result ≡ Err Fault.NoMemory)) × (out.new ≡ out.old) }
{
    let job = read_words(alloc, words)?;
    report_explanation(alloc, &job, source, out)
}

/// Runs the program on the words behind its name, and answers its status: 0 the verdict is ok, 1 a
/// row breaks a rule, or isn't earned where that is asked, and that is explained, 2 the words ask for nothing, 3 the trace or its
/// results have a fault, 4 reading failed, 5 writing failed, 6 there are too many bytes or rows, 7
/// memory ran out. The source is read to its end before the first byte is written.
pub fn explain_run<S: Source, K: Sink, F: Sink>(
    alloc: Global,
    words: &[String],
    source: &mut S,
    out: &mut K,
    err: &mut F,
) -> u8
    // What was asked for, what was lent, and what became of it: each promise is a field of
    // `KeepsPromises`.
    ensures { KeepsPromises (record {
      asked = explain_job_of (map string_bytes words.now);
      source = lent_source S.left S.taken S.faults source.old source.new;
      out = lent_sink K.written K.faults out.old out.new;
    }) (lent_sink F.written F.faults err.old err.new) result }
{
    match work(alloc, words, source, out) {
        Ok(done) => done.status(),
        Err(fault) => give_up(fault, err),
    }
}
