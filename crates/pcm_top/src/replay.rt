// The events of a trace, replayed on a module.
ghost use Rattle.std.specs.Prelude.{◌≤◌, length};
ghost use Rattle.ecp_line.specs.Layout.{IsLayout};
ghost use Rattle.trace_reader.specs.Events.{AreEventsFor};
ghost use Rattle.module_shape.specs.Limits.{total_of};
ghost use Rattle.pcm_top.specs.Ready.{IsReady};
ghost use Rattle.pcm_top.specs.Played.{HasReplayed};

use cell_rows::CellArray;
use pcm_module::Module;
use result_rows::Results;
use trace_reader::{Event, MOST_ROWS};

/// Hands each event to the module, in order and with its row's number from 1, and then drains the banks.
pub fn replay<const B: usize, const M: usize, const E: usize, A: CellArray<B, M>>(
    pcm: &mut Module<B, M, E>,
    array: &mut A,
    events: &[Event<B>],
    results: &mut Results<B>,
)
    requires layout { IsLayout B M E }
    requires ready { IsReady pcm.old.shape pcm.old.seed (length events.now)
        pcm.old (A.state array.old) results.old }
    requires events { AreEventsFor (total_of pcm.old.shape) 0 events.now }
    requires rows { length events.now ≤ MOST_ROWS }
    ensures { HasReplayed E pcm.old.shape pcm.old.seed events.now results.new
        (A.state array.old) (A.state array.new) pcm.new }
{
    for (i, event) in events.iter().enumerate() {
        pcm.event(array, i as u32 + 1, event, results);
    }
    pcm.finish(array, results);
}
