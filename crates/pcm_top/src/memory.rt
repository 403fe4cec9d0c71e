// The memory of a run.
ghost use Rattle.std.specs.Prelude.{◌≤◌, IfOk};
ghost use Rattle.ecp_line.specs.Layout.{IsLayout};
ghost use Rattle.command_line.specs.Jobs.{IsRun};
ghost use Rattle.pcm_top.specs.Ready.{HasTaken};

use cell_rows::CellArray;
use command_line::RunJob;
use pcm_io::Text;
use pcm_module::Module;
use result_rows::Results;
use std::alloc::{AllocError, Global};
use text_printer::TEXT_ROOM;

/// Takes all the memory of a run of so many rows: that of the array, of the module, of the table of outcomes
/// and of the text that is written. Neither the run nor the printing takes memory afterwards. A line has room
/// for what a control line keeps.
pub fn take_memory<const B: usize, const M: usize, const E: usize, A: CellArray<B, M>>(
    alloc: Global,
    job: &RunJob,
    array: &mut A,
    rows: u32,
) -> Result<(Module<B, M, E>, Results<B>, Text), AllocError>
    requires layout { IsLayout B M E }
    requires wide { 16 ≤ B }
    requires job { IsRun job.now }
    ensures taken { IfOk result (λ taken.
        HasTaken job.now rows taken.0 (A.state array.new) taken.1 taken.2) }
{
    array.power_up(alloc, job.shape.array_lines(), job.wear)?;
    Ok((
        Module::new(alloc, job.shape, job.seed)?,
        Results::new(alloc, rows)?,
        Text::new(alloc, TEXT_ROOM)?,
    ))
}
