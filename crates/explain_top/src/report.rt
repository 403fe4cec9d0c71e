// What is told of a trace and its results that a source gives, as it is written.
ghost use Rattle.std.specs.Prelude.{◌≡◌, ◌≤◌, Ok};
ghost use Rattle.program_calls.specs.Calls.{lent_sink, lent_source, source_change};
ghost use Rattle.pcm_top.specs.Checking.{IsCheckFault};
ghost use Rattle.pcm_top.specs.Ends.{EndsText, Gives};
ghost use Rattle.explain_top.specs.Ends.{EndsCall, EndsExplanation};
ghost use Rattle.explain_top.specs.Explaining.{ReadsExplanation};

use crate::text::{Explained, explain_text};
use command_line::LineSize;
use explain_words::ExplainJob;
use pcm_io::{Sink, Source, read_all, write_all};
use pcm_top::{CHECK_ROOM, Done, Fault, done_on};
use std::alloc::Global;

// What is told of a trace and its results that the source gives.
fn read_explained<const B: usize, const E: usize, S: Source>(
    alloc: Global,
    job: &ExplainJob,
    source: &mut S,
) -> Result<Explained, Fault>
    requires some_size { 1 ≤ B }
    requires size { B ≤ 128 }
    requires few { E ≤ 8 }
    ensures { let s = source_change S.left S.taken S.faults source.old source.new in
        Gives (λ made. ReadsExplanation B E job.now s made.verdict made.text.items)
        (λ fault. IsCheckFault B job.now.check fault s) s result }
{
    let bytes = read_all(alloc, source, CHECK_ROOM)?;
    let made = explain_text::<B, E>(
        alloc,
        bytes.as_slice(),
        &job.check.shape,
        job.check.seed,
        job.strict,
    )?;
    Ok(made)
}

// Writes a text.
fn write_text<K: Sink>(text: &[u8], out: &mut K) -> Result<(), Fault>
    ensures { EndsText text.now (lent_sink K.written K.faults out.old out.new) result }
{
    write_all(out, text)?;
    Ok(())
}

// Reads a trace over lines of `B` bytes, and its results, and writes what is told of them.
fn explain<const B: usize, const E: usize, S: Source, K: Sink>(
    alloc: Global,
    job: &ExplainJob,
    source: &mut S,
    out: &mut K,
) -> Result<Done, Fault>
    requires some_size { 1 ≤ B }
    requires size { B ≤ 128 }
    requires few { E ≤ 8 }
    ensures { EndsExplanation B E job.now
        (source_change S.left S.taken S.faults source.old source.new)
        (lent_sink K.written K.faults out.old out.new) result }
{
    let made = read_explained::<B, E, S>(alloc, job, source)?;
    write_text(made.text.as_slice(), out)?;
    Ok(done_on(made.verdict))
}

/// Reads a trace and its results, and writes what is told of them.
pub fn report_explanation<S: Source, K: Sink>(
    alloc: Global,
    job: &ExplainJob,
    source: &mut S,
    out: &mut K,
) -> Result<Done, Fault>
    ensures { EndsCall (record {
      asked = Ok job.now;
      source = lent_source S.left S.taken S.faults source.old source.new;
      out = lent_sink K.written K.faults out.old out.new;
    }) result }
{
    match job.check.line {
        LineSize::Bytes64 => explain::<64, 6, S, K>(alloc, job, source, out),
        LineSize::Bytes128 => explain::<128, 8, S, K>(alloc, job, source, out),
    }
}
