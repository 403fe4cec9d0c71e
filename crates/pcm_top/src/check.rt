// The command `check`.
ghost use Rattle.std.specs.Prelude.{◌≡◌, ◌≤◌};
ghost use Rattle.check_text.specs.VerdictText.{verdict_text};
ghost use Rattle.pcm_top.specs.Jobs.{bytes_in};
ghost use Rattle.program_calls.specs.Calls.{lent_sink, source_change};
ghost use Rattle.pcm_top.specs.Checking.{IsCheckFault, ReadsVerdict, done_on, pointers_in};
ghost use Rattle.pcm_top.specs.Ends.{EndsCheck, EndsText, Gives};

use crate::fault::Fault;
use crate::run::Done;
use check_text::{Verdict, check_text, print_verdict};
use command_line::{CheckJob, LineSize};
use pcm_io::{Sink, Source, Text, read_all, write_all};
use std::alloc::Global;

/// Bytes that a trace and its results may have together, whatever the size of their lines.
pub const CHECK_ROOM: usize = 268_435_456;

// The verdict on a trace and its results that the source gives.
fn read_verdict<const B: usize, const E: usize, S: Source>(
    alloc: Global,
    job: &CheckJob,
    source: &mut S,
) -> Result<Verdict, Fault>
    requires some_size { 1 ≤ B }
    requires size { B ≤ 128 }
    requires few { E ≤ 8 }
    ensures { let s = source_change S.left S.taken S.faults source.old source.new in
        Gives (ReadsVerdict B E job.now s) (λ fault. IsCheckFault B job.now fault s) s result }
{
    let bytes = read_all(alloc, source, CHECK_ROOM)?;
    let verdict = check_text::<B, E>(alloc, bytes.as_slice(), &job.shape, job.seed)?;
    Ok(verdict)
}

/// How a check was done, by its verdict.
pub fn done_on(verdict: Verdict) -> Done
    ensures { result ≡ done_on verdict }
{
    match verdict {
        Verdict::Yes => Done::Whole,
        Verdict::No { .. } => Done::Short,
    }
}

// Writes a verdict.
fn write_verdict<K: Sink>(alloc: Global, verdict: Verdict, out: &mut K) -> Result<(), Fault>
    ensures { EndsText (verdict_text verdict)
        (lent_sink K.written K.faults out.old out.new) result }
{
    let mut text = Text::new(alloc, 32)?;
    print_verdict(verdict, &mut text);
    write_all(out, text.bytes())?;
    Ok(())
}

// Reads a trace over lines of `B` bytes, and its results, and writes the verdict on them.
fn check<const B: usize, const E: usize, S: Source, K: Sink>(
    alloc: Global,
    job: &CheckJob,
    source: &mut S,
    out: &mut K,
) -> Result<Done, Fault>
    requires some_size { 1 ≤ B }
    requires size { B ≤ 128 }
    requires few { E ≤ 8 }
    ensures { EndsCheck B E job.now (source_change S.left S.taken S.faults source.old source.new)
        (lent_sink K.written K.faults out.old out.new) result }
{
    let verdict = read_verdict::<B, E, S>(alloc, job, source)?;
    write_verdict(alloc, verdict, out)?;
    Ok(done_on(verdict))
}

/// Reads a trace and its results, and writes the verdict on them.
pub fn report_check<S: Source, K: Sink>(
    alloc: Global,
    job: CheckJob,
    source: &mut S,
    out: &mut K,
) -> Result<Done, Fault>
    ensures { EndsCheck (bytes_in job.line) (pointers_in job.line) job
        (source_change S.left S.taken S.faults source.old source.new)
        (lent_sink K.written K.faults out.old out.new) result }
{
    match job.line {
        LineSize::Bytes64 => check::<64, 6, S, K>(alloc, &job, source, out),
        LineSize::Bytes128 => check::<128, 8, S, K>(alloc, &job, source, out),
    }
}
