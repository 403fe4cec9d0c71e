// The command `gen`.
ghost use Rattle.std.specs.Prelude.{◌≡◌, ◌≤◌};
ghost use Rattle.pcm_io.specs.Reserved.{reserved};
ghost use Rattle.module_shape.specs.Limits.{IsSmall};
ghost use Rattle.trace_gen.specs.EventText.{trace_text};
ghost use Rattle.trace_gen.specs.Generated.{IsMix, generated, whole_lines};
ghost use Rattle.pcm_top.specs.Jobs.{gen_text};
ghost use Rattle.program_calls.specs.Calls.{Writes, lent_sink, sink_change};
ghost use Rattle.pcm_top.specs.Ends.{EndsText};

use crate::fault::Fault;
use command_line::{GenJob, LineSize};
use pcm_io::{Sink, Text, WriteFault, write_all};
use run_text::make_room;
use std::alloc::Global;
use text_printer::TEXT_ROOM;
use trace_gen::{Generator, Mix, header, print_event};

// Writes the trace of a seed for so many lines of `B` bytes.
fn print_drawn<const B: usize, K: Sink>(
    seed: u64,
    lines: u32,
    mix: Mix,
    text: &mut Text,
    out: &mut K,
) -> Result<(), WriteFault>
    requires room { text.old ≡ reserved TEXT_ROOM }
    requires small { B ≤ 128 }
    requires some_lines { 1 ≤ lines }
    requires few_lines { lines ≤ whole_lines }
    requires mix { IsMix mix }
    ensures { Writes (trace_text (generated B seed lines mix))
        (sink_change K.written K.faults out.old out.new) result }
{
    let mut generator = Generator::<B>::new(seed, lines, mix);
    text.push(header());
    while let Some(event) = generator.next_event() {
        make_room(text, out)?;
        print_event(&event, text);
    }
    let rest = text.bytes();
    write_all(out, rest)
}

// Writes the events that a job draws, of lines of its size.
fn print_job<K: Sink>(job: &GenJob, text: &mut Text, out: &mut K) -> Result<(), WriteFault>
    requires room { text.old ≡ reserved TEXT_ROOM }
    requires mix { IsMix job.now.mix }
    requires small { IsSmall job.now.shape }
    ensures { Writes (gen_text job.now) (sink_change K.written K.faults out.old out.new) result }
{
    let lines = job.shape.total();
    match job.line {
        LineSize::Bytes64 => print_drawn::<64, K>(job.seed, lines, job.mix, text, out),
        LineSize::Bytes128 => print_drawn::<128, K>(job.seed, lines, job.mix, text, out),
    }
}

/// Writes a generated trace.
pub fn write_drawn<K: Sink>(alloc: Global, job: GenJob, out: &mut K) -> Result<(), Fault>
    requires mix { IsMix job.mix }
    requires small { IsSmall job.shape }
    ensures { EndsText (gen_text job) (lent_sink K.written K.faults out.old out.new) result }
{
    let mut text = Text::new(alloc, TEXT_ROOM)?;
    print_job(&job, &mut text, out)?;
    Ok(())
}
