// The end of a stream.
ghost use Rattle.std.specs.Prelude.{◌≡◌, ℕ, ◌<◌, List, Bool, Option, true, false};
ghost use Rattle.ecp_line.specs.Layout.{IsLayout};
ghost use Rattle.module_shape.specs.declared.raw.RawShape.{RawShape};
ghost use Rattle.row_stream.specs.declared.stop.Behind.TheVariants.{Off};
ghost use Rattle.trace_stream.specs.declared.asked.Asked.{Asked as StreamAsked};
ghost use Rattle.row_printer.specs.Printing.{IsPrinting};
ghost use Rattle.row_stream.specs.Asking.{behind_of, cut_at_end, cut_if, off_behind, stays_off, with_cut};
ghost use Rattle.row_stream.specs.Serving.{IsServing, MayServe, ServesOn, told_so_far};
ghost use Rattle.row_stream.specs.Ending.{EndsShowing, IsLeft, told_along, without_cut, without_cut_if};

use crate::looking::show_last;
use crate::serving::serve_event;
use crate::stop::Behind;
use pcm_io::Sink;
use pcm_module::Module;
use row_printer::RowPrinter;
use trace_reader::{Event, EventOp};
use wear_totals::TellsWear;

/// Ends a stream behind its last row: its banks drain, or, where the power is to stay off, it is cut where that is not its last row, and no
/// bank goes on. What became known by it is told, and where snapshots are taken,
/// one more of what then stands.
pub fn end<const B: usize, const M: usize, const E: usize, A: TellsWear<B, M, E>, K: Sink + Drop>(
    pcm: &mut Module<B, M, E>,
    array: &mut A,
    off: bool,
    behind: Behind,
    out: &mut RowPrinter<B, K>,
)
    requires layout { IsLayout B M E }
    requires few { out.old.rows < 4294967295 }
    requires serving { (raw : RawShape) × (seed : ℕ) × (asked : List (StreamAsked B))
        × IsServing raw seed asked pcm.old (A.state array.old) out.old.rows out.old.told
        out.old.prints out.old.snapshots × (behind ≡ behind_of asked) }
    ensures ended { (raw : RawShape) (seed : ℕ) (asked : List (StreamAsked B))
        (had : IsServing raw seed asked pcm.old (A.state array.old) out.old.rows out.old.told
        out.old.prints out.old.snapshots) → behind ≡ behind_of asked
        → (all : EndsShowing raw seed (stays_off off asked) (with_cut off asked) pcm.new
        (A.state array.new) out.new.rows out.new.told out.new.prints out.new.snapshots)
        × (without_cut off asked (told_along all.0) ≡ told_so_far had) }
    ensures prints { out.new.prints ≡ out.old.prints }
    ensures printing { (before : Option (List ℕ)) (first : ℕ)
        → IsPrinting K.written K.faults before first out.old
        → IsPrinting K.written K.faults before first out.new }
    ensures wear { (A.state array.new).wear ≡ (A.state array.old).wear }
{
    let tick = pcm.tick();
    leave(pcm, array, off, behind, out);
    show_last(tick, pcm, array, out);
}

// Lets the banks drain, or leaves them with the power off.
fn leave<const B: usize, const M: usize, const E: usize, A: TellsWear<B, M, E>, K: Sink + Drop>(
    pcm: &mut Module<B, M, E>,
    array: &mut A,
    off: bool,
    behind: Behind,
    out: &mut RowPrinter<B, K>,
)
    requires layout { IsLayout B M E }
    requires few { out.old.rows < 4294967295 }
    requires serving { (raw : RawShape) × (seed : ℕ) × (asked : List (StreamAsked B))
        × IsServing raw seed asked pcm.old (A.state array.old) out.old.rows out.old.told
        out.old.prints out.old.snapshots × (behind ≡ behind_of asked) }
    ensures ended { (raw : RawShape) (seed : ℕ) (asked : List (StreamAsked B))
        (had : IsServing raw seed asked pcm.old (A.state array.old) out.old.rows out.old.told
        out.old.prints out.old.snapshots) → behind ≡ behind_of asked
        → (left : IsLeft raw seed (stays_off off asked) (with_cut off asked) pcm.new
        (A.state array.new) out.new.rows out.new.told out.new.prints out.new.snapshots)
        × (without_cut off asked (told_along left.0) ≡ told_so_far had) }
    ensures prints { out.new.prints ≡ out.old.prints }
    ensures printing { (before : Option (List ℕ)) (first : ℕ)
        → IsPrinting K.written K.faults before first out.old
        → IsPrinting K.written K.faults before first out.new }
    ensures wear { (A.state array.new).wear ≡ (A.state array.old).wear }
{
    if off {
        stay_off(pcm, array, behind, out);
    } else {
        drain(pcm, array, out);
    }
}

// The power is to stay off.
fn stay_off<const B: usize, const M: usize, const E: usize, A: TellsWear<B, M, E>, K: Sink + Drop>(
    pcm: &mut Module<B, M, E>,
    array: &mut A,
    behind: Behind,
    out: &mut RowPrinter<B, K>,
)
    requires layout { IsLayout B M E }
    requires few { out.old.rows < 4294967295 }
    requires serving { (raw : RawShape) × (seed : ℕ) × (asked : List (StreamAsked B))
        × IsServing raw seed asked pcm.old (A.state array.old) out.old.rows out.old.told
        out.old.prints out.old.snapshots × (behind ≡ behind_of asked) }
    ensures ended { (raw : RawShape) (seed : ℕ) (asked : List (StreamAsked B))
        (had : IsServing raw seed asked pcm.old (A.state array.old) out.old.rows out.old.told
        out.old.prints out.old.snapshots) → behind ≡ behind_of asked
        → (left : IsLeft raw seed (off_behind (behind_of asked)) (cut_if (behind_of asked) asked)
        pcm.new (A.state array.new) out.new.rows out.new.told out.new.prints out.new.snapshots)
        × (without_cut_if (behind_of asked) asked (told_along left.0) ≡ told_so_far had) }
    ensures prints { out.new.prints ≡ out.old.prints }
    ensures printing { (before : Option (List ℕ)) (first : ℕ)
        → IsPrinting K.written K.faults before first out.old
        → IsPrinting K.written K.faults before first out.new }
    ensures wear { (A.state array.new).wear ≡ (A.state array.old).wear }
{
    match behind {
        Behind::Nothing => drain(pcm, array, out),
        Behind::Going => {
            serve_cut(pcm, array, out);
            stop(pcm, array, out);
        }
        Behind::Off => stop(pcm, array, out),
    }
}

// Cuts the power at the tick that was reached.
fn serve_cut<const B: usize, const M: usize, const E: usize, A: TellsWear<B, M, E>, K: Sink + Drop>(
    pcm: &mut Module<B, M, E>,
    array: &mut A,
    out: &mut RowPrinter<B, K>,
)
    requires layout { IsLayout B M E }
    requires few { out.old.rows < 4294967295 }
    requires serving { MayServe pcm.old (A.state array.old) out.old }
    ensures serves { ServesOn cut_at_end pcm.old pcm.new (A.state array.old)
        (A.state array.new) out.old out.new }
    ensures printing { (before : Option (List ℕ)) (first : ℕ)
        → IsPrinting K.written K.faults before first out.old
        → IsPrinting K.written K.faults before first out.new }
{
    let event = Event {
        tick: pcm.tick(),
        op: EventOp::Cut,
    };
    serve_event(pcm, array, &event, out);
}

// Lets the banks finish what is left to do.
fn drain<const B: usize, const M: usize, const E: usize, A: TellsWear<B, M, E>, K: Sink + Drop>(
    pcm: &mut Module<B, M, E>,
    array: &mut A,
    out: &mut RowPrinter<B, K>,
)
    requires layout { IsLayout B M E }
    requires serving { (raw : RawShape) × (seed : ℕ) × (asked : List (StreamAsked B))
        × IsServing raw seed asked pcm.old (A.state array.old) out.old.rows out.old.told
        out.old.prints out.old.snapshots }
    ensures ended { (raw : RawShape) (seed : ℕ) (asked : List (StreamAsked B))
        (had : IsServing raw seed asked pcm.old (A.state array.old) out.old.rows out.old.told
        out.old.prints out.old.snapshots)
        → (left : IsLeft raw seed false asked pcm.new (A.state array.new) out.new.rows out.new.told
        out.new.prints out.new.snapshots) × (told_along left.0 ≡ told_so_far had) }
    ensures prints { out.new.prints ≡ out.old.prints }
    ensures printing { (before : Option (List ℕ)) (first : ℕ)
        → IsPrinting K.written K.faults before first out.old
        → IsPrinting K.written K.faults before first out.new }
    ensures wear { (A.state array.new).wear ≡ (A.state array.old).wear }
{
    pcm.finish(array, out);
    out.tells_once();
}

// Leaves all as it is behind a power cut; the array, which is only looked at here, stays as the cut left it.
fn stop<const B: usize, const M: usize, const E: usize, A: TellsWear<B, M, E>, K: Sink + Drop>(
    pcm: &mut Module<B, M, E>,
    array: &A,
    out: &mut RowPrinter<B, K>,
)
    requires layout { IsLayout B M E }
    requires serving { (raw : RawShape) × (seed : ℕ) × (asked : List (StreamAsked B))
        × IsServing raw seed asked pcm.old (A.state array.now) out.old.rows out.old.told
        out.old.prints out.old.snapshots × (behind_of asked ≡ Off) }
    ensures ended { (raw : RawShape) (seed : ℕ) (asked : List (StreamAsked B))
        (had : IsServing raw seed asked pcm.old (A.state array.now) out.old.rows out.old.told
        out.old.prints out.old.snapshots) → behind_of asked ≡ Off
        → (left : IsLeft raw seed true asked pcm.new (A.state array.now) out.new.rows out.new.told
        out.new.prints out.new.snapshots) × (told_along left.0 ≡ told_so_far had) }
    ensures prints { out.new.prints ≡ out.old.prints }
    ensures printing { (before : Option (List ℕ)) (first : ℕ)
        → IsPrinting K.written K.faults before first out.old
        → IsPrinting K.written K.faults before first out.new }
{
    let _ = array;
    pcm.stop(out);
    out.tells_once();
}
