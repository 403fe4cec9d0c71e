// Snapshots of a module and its array, which are only looked at for them.
ghost use Rattle.std.specs.Prelude.{ℕ, List, Option, true};
ghost use Rattle.ecp_line.specs.Layout.{IsLayout};
ghost use Rattle.row_printer.specs.Printing.{IsPrinting};
ghost use Rattle.row_printer.specs.Snapshots.{is_due, takes_snapshots};
ghost use Rattle.row_stream.specs.Looking.{Looks};

use pcm_io::Sink;
use pcm_module::Module;
use row_printer::{RowPrinter, Snapshot};
use wear_totals::TellsWear;

// Takes a snapshot of what now stands, with this tick.
fn show<const B: usize, const M: usize, const E: usize, A: TellsWear<B, M, E>, K: Sink + Drop>(
    tick: u64,
    pcm: &Module<B, M, E>,
    array: &A,
    out: &mut RowPrinter<B, K>,
)
    requires layout { IsLayout B M E }
    ensures looks { Looks true tick pcm.now (A.state array.now)
        out.old out.new }
    ensures printing { (before : Option (List ℕ)) (first : ℕ)
        → IsPrinting K.written K.faults before first out.old
        → IsPrinting K.written K.faults before first out.new }
{
    let snapshot = Snapshot {
        rows: out.rows(),
        tick,
        counts: out.counts(),
        retired: pcm.retired(),
        wear: array.array_wear(),
    };
    out.snapshot(&snapshot);
}

/// Takes a snapshot where one is due behind the rows that came.
pub fn show_due<
    const B: usize,
    const M: usize,
    const E: usize,
    A: TellsWear<B, M, E>,
    K: Sink + Drop,
>(pcm: &Module<B, M, E>, array: &A, out: &mut RowPrinter<B, K>)
    requires layout { IsLayout B M E }
    ensures looks { Looks (is_due out.old.prints out.old.rows) pcm.now.tick
        pcm.now (A.state array.now) out.old out.new }
    ensures printing { (before : Option (List ℕ)) (first : ℕ)
        → IsPrinting K.written K.faults before first out.old
        → IsPrinting K.written K.faults before first out.new }
{
    if out.is_due() {
        show(pcm.tick(), pcm, array, out);
    }
}

/// Takes one in the end, with the tick that was reached, where snapshots are taken.
pub fn show_last<
    const B: usize,
    const M: usize,
    const E: usize,
    A: TellsWear<B, M, E>,
    K: Sink + Drop,
>(tick: u64, pcm: &Module<B, M, E>, array: &A, out: &mut RowPrinter<B, K>)
    requires layout { IsLayout B M E }
    ensures looks { Looks (takes_snapshots out.old.prints) tick pcm.now (A.state array.now)
        out.old out.new }
    ensures printing { (before : Option (List ℕ)) (first : ℕ)
        → IsPrinting K.written K.faults before first out.old
        → IsPrinting K.written K.faults before first out.new }
{
    if out.takes_snapshots() {
        show(tick, pcm, array, out);
    }
}
