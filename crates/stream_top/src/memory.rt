// The memory of a stream.
ghost use Rattle.std.specs.Prelude.{◌≤◌, IfOk};
ghost use Rattle.ecp_line.specs.Layout.{IsLayout};
ghost use Rattle.stream_words.specs.Jobs.{IsStreamJob};
ghost use Rattle.stream_top.specs.Taking.{HasTaken};

use cell_rows::CellArray;
use pcm_io::Text;
use pcm_module::Module;
use std::alloc::{AllocError, Global};
use stream_words::StreamJob;
use text_printer::TEXT_ROOM;

/// Takes the memory of a stream: that of the array, which is powered up, of the module, and of the text that is gathered. What comes after
/// takes memory for the row at hand alone.
pub fn take_memory<const B: usize, const M: usize, const E: usize, A: CellArray<B, M>>(
    alloc: Global,
    job: &StreamJob,
    array: &mut A,
) -> Result<(Module<B, M, E>, Text), AllocError>
    requires layout { IsLayout B M E }
    requires wide { 16 ≤ B }
    requires job { IsStreamJob job.now }
    ensures taken { IfOk result (λ taken.
        HasTaken job.now taken.0 (A.state array.new) taken.1) }
{
    array.power_up(alloc, job.shape.array_lines(), job.wear)?;
    Ok((
        Module::new(alloc, job.shape, job.seed)?,
        Text::new(alloc, TEXT_ROOM)?,
    ))
}
