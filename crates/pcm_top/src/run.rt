// The command `run`.
ghost use Rattle.std.specs.Prelude.{◌≡◌, ◌≤◌};
ghost use Rattle.ecp_line.specs.Layout.{IsLayout};
ghost use Rattle.command_line.specs.Jobs.{IsRun};
ghost use Rattle.program_calls.specs.Calls.{lent_array, lent_sink, lent_source, sink_change};
ghost use Rattle.pcm_top.specs.Ends.{EndsRun, Plays};
ghost use Rattle.pcm_top.specs.Ready.{MayPlay};
ghost use Rattle.pcm_top.specs.Running.{done_by, status_done};

use crate::fault::Fault;
use crate::input::events_of;
use crate::laws::right_runs_can_be_printed;
use crate::memory::take_memory;
use crate::print::print_run;
use crate::replay::replay;
use cell_rows::CellArray;
use command_line::RunJob;
use image_laws::sensed_runs_stay_right;
use pcm_io::{Sink, Source, Text, WriteFault};
use pcm_module::Module;
use result_rows::Results;
use run_text::any_short;
use std::alloc::Global;
use trace_reader::Event;

/// How a job was done.
#[derive(Clone, Copy, PartialEq, Eq)]
pub enum Done {
    /// Wholly: no row of a run fell short of what it asked for, and each row of results that were checked
    /// keeps each rule.
    Whole,
    /// A run was made in which some row was refused, lost or left in a queue, or a row of results breaks a
    /// rule.
    Short,
}

impl Done {
    /// The status of the program for it.
    pub fn status(self) -> u8
        ensures { result ≡ status_done self }
    {
        match self {
            Done::Whole => 0,
            Done::Short => 1,
        }
    }
}

// How a run was done, by its rows.
fn ending<const B: usize>(results: &Results<B>) -> Done
    requires { B ≤ 128 }
    ensures { result ≡ done_by results.now }
{
    if any_short(results) {
        Done::Short
    } else {
        Done::Whole
    }
}

// Replays the events of a job on a module that is ready, and writes what the job asks to see of it.
fn play<const B: usize, const M: usize, const E: usize, A: CellArray<B, M>, K: Sink>(
    job: &RunJob,
    pcm: &mut Module<B, M, E>,
    array: &mut A,
    events: &[Event<B>],
    results: &mut Results<B>,
    text: &mut Text,
    out: &mut K,
) -> Result<Done, WriteFault>
    requires layout { IsLayout B M E }
    requires wide { 16 ≤ B }
    requires may_play { MayPlay job.now events.now pcm.old (A.state array.old)
        results.old text.old }
    ensures { Plays B M E job.now events.now (A.state array.new)
        (sink_change K.written K.faults out.old out.new) result }
{
    right_runs_can_be_printed();
    sensed_runs_stay_right();
    replay(pcm, array, events, results);
    print_run(job, pcm, array, events, results, text, out)?;
    Ok(ending(results))
}

/// Replays the events of a job on the array, and writes what the job asks to see of it. A line has room for
/// what a control line keeps.
pub fn run<const B: usize, const M: usize, const E: usize, A: CellArray<B, M>, S: Source, K: Sink>(
    alloc: Global,
    job: &RunJob,
    array: &mut A,
    source: &mut S,
    out: &mut K,
) -> Result<Done, Fault>
    requires layout { IsLayout B M E }
    requires wide { 16 ≤ B }
    requires job { IsRun job.now }
    ensures { EndsRun B M E job.now (lent_array A.state array.old array.new)
        (lent_source S.left S.taken S.faults source.old source.new)
        (lent_sink K.written K.faults out.old out.new) result }
{
    let events = events_of::<B, S>(alloc, job, source)?;
    let taken = take_memory::<B, M, E, A>(alloc, job, array, events.len() as u32);
    let (mut pcm, mut results, mut text) = match taken {
        Ok(taken) => taken,
        Err(_) => return Err(Fault::NoMemory),
    };
    match play(
        job,
        &mut pcm,
        array,
        events.as_slice(),
        &mut results,
        &mut text,
        out,
    ) {
        Ok(done) => Ok(done),
        Err(_) => Err(Fault::Write),
    }
}
