// The events of a run: those of the trace that the source gives, or those that a seed draws.
ghost use Rattle.std.specs.Prelude.{◌≡◌, ◌≤◌, false, vec_len, IfOk, IfErr};
ghost use Rattle.trace_gen.specs.Generated.{IsMix, generated, whole_lines};
ghost use Rattle.trace_reader.specs.Events.{AreEventsFor};
ghost use Rattle.module_shape.specs.Limits.{IsShape, total_of};
ghost use Rattle.command_line.specs.Jobs.{IsRun};
ghost use Rattle.program_calls.specs.Calls.{source_change};
ghost use Rattle.pcm_top.specs.Reading.{IsReadFault, ReadsTrace};
ghost use Rattle.pcm_top.specs.Ends.{Gives};
ghost use Rattle.pcm_top.specs.Inputs.{ComeFrom, IsFaultOf, is_source};

use crate::fault::Fault;
use command_line::{Input, RunJob};
use pcm_io::{Source, read_all};
use std::alloc::Global;
use trace_gen::{Mix, generate};
use trace_reader::{Event, MOST_ROWS, parse};

/// Bytes that a trace may have, for each byte of a line: 67,108,864 over lines of 64 bytes, 134,217,728 over
/// lines of 128.
pub const TRACE_ROOM: usize = 1_048_576;

// Reads the source to its end as a trace for so many lines of `B` bytes.
fn read_trace<const B: usize, S: Source>(
    alloc: Global,
    lines: u32,
    source: &mut S,
) -> Result<Vec<Event<B>>, Fault>
    requires small { B ≤ 128 }
    requires lines { 1 ≤ lines }
    ensures gives { let s = source_change S.left S.taken S.faults source.old source.new in
        Gives (λ events. ReadsTrace B lines s events.items)
        (λ fault. IsReadFault B lines fault s) s result }
    ensures events { IfOk result (λ events. AreEventsFor lines 0 events.items) }
    ensures rows { IfOk result (λ events. vec_len events ≤ MOST_ROWS) }
{
    let bytes = read_all(alloc, source, B * TRACE_ROOM)?;
    let events = parse(alloc, bytes.as_slice(), lines)?;
    Ok(events)
}

// Draws the trace of a seed for so many lines of `B` bytes.
fn draw_trace<const B: usize>(
    alloc: Global,
    seed: u64,
    lines: u32,
    mix: Mix,
) -> Result<Vec<Event<B>>, Fault>
    requires small { B ≤ 128 }
    requires some_lines { 1 ≤ lines }
    requires few_lines { lines ≤ whole_lines }
    requires mix { IsMix mix }
    ensures drawn { IfOk result (λ events. events.items ≡ generated B seed lines mix) }
    ensures events { IfOk result (λ events. AreEventsFor lines 0 events.items) }
    ensures rows { IfOk result (λ events. vec_len events ≤ MOST_ROWS) }
    ensures fault { IfErr result (λ fault. fault ≡ Fault.NoMemory) }
{
    let events = generate(alloc, seed, lines, mix)?;
    Ok(events)
}

/// The events of a run, from where its job takes them.
pub fn events_of<const B: usize, S: Source>(
    alloc: Global,
    job: &RunJob,
    source: &mut S,
) -> Result<Vec<Event<B>>, Fault>
    requires small { B ≤ 128 }
    requires job { IsRun job.now }
    ensures gives { let s = source_change S.left S.taken S.faults source.old source.new in
        Gives (λ events. ComeFrom B job.now job.now.input s events.items)
        (λ fault. IsFaultOf B job.now job.now.input fault s) s result }
    ensures events { IfOk result (λ events. AreEventsFor (total_of job.now.shape) 0 events.items) }
    ensures rows { IfOk result (λ events. vec_len events ≤ MOST_ROWS) }
    ensures untouched { is_source job.now.input ≡ false → source.new ≡ source.old }
{
    let lines = job.shape.total();
    match job.input {
        Input::Source => read_trace(alloc, lines, source),
        Input::Drawn(mix) => draw_trace(alloc, job.seed, lines, mix),
    }
}
