// One row of a module that another program calls.
ghost use Rattle.std.specs.Prelude.{◌≡◌, ℕ, ◌+◌, ◌<◌, ◌≤◌, List, OnErr, OnOk, length, true, false};
ghost use Rattle.ecp_line.specs.Layout.{IsLayout};
ghost use Rattle.module_shape.specs.declared.raw.RawShape.{RawShape};
ghost use Rattle.module_shape.specs.Limits.{total_of};
ghost use Rattle.trace_reader.specs.Events.{IsEventFor};
ghost use Rattle.trace_reader.specs.Rows.{latest_tick};
ghost use Rattle.trace_stream.specs.declared.asked.Asked.{Asked as StreamAsked};
ghost use Rattle.trace_stream.specs.declared.asked.Asked.TheVariants.{Happens, Settle};
ghost use Rattle.row_stream.specs.Asking.{behind_of};
ghost use Rattle.row_stream.specs.Serving.{IsServing, MayServe, ServesOn, told_so_far};
ghost use Rattle.row_stream.specs.Ending.{IsLeft, told_along};
ghost use Rattle.row_stream.specs.declared.stop.Behind.TheVariants.{Off};
ghost use Rattle.pcm_library.specs.Keeping.{open_in};

use crate::keeper::Keeper;
use cell_rows::CellArray;
use pcm_module::Module;
use std::alloc::AllocError;
use trace_reader::Event;

/// Hands an event to the module, with the next number, where there is memory for its outcome.
pub(crate) fn serve_event<const B: usize, const M: usize, const E: usize, A: CellArray<B, M>>(
    pcm: &mut Module<B, M, E>,
    array: &mut A,
    event: &Event<B>,
    out: &mut Keeper<B>,
) -> Result<(), AllocError>
    requires layout { IsLayout B M E }
    requires event { IsEventFor (total_of pcm.old.shape) pcm.old.tick event.now }
    requires few { out.old.rows < 4294967295 }
    requires serving { MayServe pcm.old (A.state array.old) out.old }
    ensures serves { OnOk result (ServesOn (λ before. Happens event.now) pcm.old pcm.new
        (A.state array.old) (A.state array.new) out.old out.new) }
    ensures going { pcm.new.finished ≡ pcm.old.finished }
    ensures shape { pcm.new.shape ≡ pcm.old.shape }
    ensures taken { out.new.sink.taken ≡ out.old.sink.taken }
    ensures room { out.new.sink.room ≡ out.old.sink.room }
    ensures rest { OnErr result ((pcm.new ≡ pcm.old) × (array.new ≡ array.old)
        × (out.new ≡ out.old)) }
    ensures full { OnErr result (out.old.sink.room ≤ length out.old.sink.waiting + open_in out.old) }
{
    out.add_row()?;
    let row = out.rows();
    // Its sizes make known that each line's bank is one of the module's.
    let _ = pcm.shape();
    pcm.event(array, row, event, out);
    out.tells_once();
    Ok(())
}

/// Brings every bank to a tick.
pub(crate) fn serve_settle<const B: usize, const M: usize, const E: usize, A: CellArray<B, M>>(
    pcm: &mut Module<B, M, E>,
    array: &mut A,
    tick: u64,
    out: &mut Keeper<B>,
)
    requires layout { IsLayout B M E }
    requires rises { pcm.old.tick ≤ tick }
    requires in_time { tick ≤ latest_tick }
    requires serving { MayServe pcm.old (A.state array.old) out.old }
    ensures serves { ServesOn (λ before. Settle tick) pcm.old pcm.new (A.state array.old)
        (A.state array.new) out.old out.new }
    ensures going { pcm.new.finished ≡ false }
    ensures shape { pcm.new.shape ≡ pcm.old.shape }
    ensures taken { out.new.sink.taken ≡ out.old.sink.taken }
    ensures room { out.new.sink.room ≡ out.old.sink.room }
{
    pcm.settle(array, tick, out);
    out.tells_once();
    out.settled(tick);
}

/// Lets the banks finish what is left to do.
pub(crate) fn drain<const B: usize, const M: usize, const E: usize, A: CellArray<B, M>>(
    pcm: &mut Module<B, M, E>,
    array: &mut A,
    out: &mut Keeper<B>,
)
    requires layout { IsLayout B M E }
    requires serving { MayServe pcm.old (A.state array.old) out.old }
    ensures ended { (raw : RawShape) (seed : ℕ) (asked : List (StreamAsked B))
        (had : IsServing raw seed asked pcm.old (A.state array.old) out.old.rows out.old.told
        out.old.prints out.old.snapshots)
        → (left : IsLeft raw seed false asked pcm.new (A.state array.new) out.new.rows out.new.told
        out.new.prints out.new.snapshots) × (told_along left.0 ≡ told_so_far had) }
    ensures finished { pcm.new.finished ≡ true }
    ensures shape { pcm.new.shape ≡ pcm.old.shape }
    ensures taken { out.new.sink.taken ≡ out.old.sink.taken }
    ensures room { out.new.sink.room ≡ out.old.sink.room }
    ensures wear { (A.state array.new).wear ≡ (A.state array.old).wear }
{
    pcm.finish(array, out);
    out.tells_once();
}

/// Leaves all as it is behind a power cut; the array, which is only looked at here, stays as the cut left it.
pub(crate) fn stay_off<const B: usize, const M: usize, const E: usize, A: CellArray<B, M>>(
    pcm: &mut Module<B, M, E>,
    array: &A,
    out: &mut Keeper<B>,
)
    requires layout { IsLayout B M E }
    requires serving { (raw : RawShape) × (seed : ℕ) × (asked : List (StreamAsked B))
        × IsServing raw seed asked pcm.old (A.state array.now) out.old.rows out.old.told
        out.old.prints out.old.snapshots × (behind_of asked ≡ Off) }
    ensures ended { (raw : RawShape) (seed : ℕ) (asked : List (StreamAsked B))
        (had : IsServing raw seed asked pcm.old (A.state array.now) out.old.rows out.old.told
        out.old.prints out.old.snapshots) → behind_of asked ≡ Off
        → (left : IsLeft raw seed true asked pcm.new (A.state array.now) out.new.rows out.new.told
        out.new.prints out.new.snapshots) × (told_along left.0 ≡ told_so_far had) }
    ensures finished { pcm.new.finished ≡ true }
    ensures shape { pcm.new.shape ≡ pcm.old.shape }
    ensures taken { out.new.sink.taken ≡ out.old.sink.taken }
    ensures room { out.new.sink.room ≡ out.old.sink.room }
{
    let _ = array;
    pcm.stop(out);
    out.tells_once();
}
