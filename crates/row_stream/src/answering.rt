// What a query, a look and a peek are answered.
ghost use Rattle.std.specs.Prelude.{◌≡◌, ℕ, ◌<◌, ◌≤◌, List, ◌++◌, Option};
ghost use Rattle.ecp_line.specs.Layout.{IsLayout};
ghost use Rattle.trace_reader.specs.Rows.{latest_tick};
ghost use Rattle.module_shape.specs.Limits.{total_of};
ghost use Rattle.trace_stream.specs.declared.asked.Asked.TheVariants.{Look, Peek as Peeks, Query};
ghost use Rattle.row_printer.specs.Printing.{IsPrinting};
ghost use Rattle.row_stream.specs.Answering.{backlog_of, banks_told, mark_of};
ghost use Rattle.row_stream.specs.Serving.{MayServe, ServesOn};

use bank_timing::clocked::Timed;
use pcm_io::Sink;
use pcm_module::Module;
use row_printer::{Backlog, Mark, PeekedLine, RowPrinter};
use trace_stream::Peek;
use wear_totals::TellsWear;

/// Brings every bank to a tick, and tells, behind what became known by it, what waits in each bank then, and the tick.
pub fn serve_query<
    const B: usize,
    const M: usize,
    const E: usize,
    A: TellsWear<B, M, E>,
    K: Sink + Drop,
>(pcm: &mut Module<B, M, E>, array: &mut A, tick: u64, out: &mut RowPrinter<B, K>)
    requires layout { IsLayout B M E }
    requires rises { pcm.old.tick ≤ tick }
    requires in_time { tick ≤ latest_tick }
    requires serving { MayServe pcm.old (A.state array.old) out.old }
    ensures serves { ServesOn (λ before. Query tick) pcm.old pcm.new (A.state array.old)
        (A.state array.new) out.old out.new }
    ensures printing { (before : Option (List ℕ)) (first : ℕ)
        → IsPrinting K.written K.faults before first out.old
        → IsPrinting K.written K.faults before first out.new }
{
    pcm.settle(array, tick, out);
    out.tells_once();
    tell_banks(tick, pcm, out);
    out.settled(tick);
}

/// Brings every bank to a tick, and tells, behind what became known by it, how worn the array is then, and the tick.
pub fn serve_look<
    const B: usize,
    const M: usize,
    const E: usize,
    A: TellsWear<B, M, E>,
    K: Sink + Drop,
>(pcm: &mut Module<B, M, E>, array: &mut A, tick: u64, out: &mut RowPrinter<B, K>)
    requires layout { IsLayout B M E }
    requires rises { pcm.old.tick ≤ tick }
    requires in_time { tick ≤ latest_tick }
    requires serving { MayServe pcm.old (A.state array.old) out.old }
    ensures serves { ServesOn (λ before. Look tick) pcm.old pcm.new (A.state array.old)
        (A.state array.new) out.old out.new }
    ensures printing { (before : Option (List ℕ)) (first : ℕ)
        → IsPrinting K.written K.faults before first out.old
        → IsPrinting K.written K.faults before first out.new }
{
    pcm.settle(array, tick, out);
    out.tells_once();
    let wear = array.array_wear();
    out.looked(tick, wear);
    out.settled(tick);
}

/// Brings every bank to a tick, and tells, behind what became known by it, what a line's newest bytes are then, and the tick. For the bytes nothing
/// is sensed.
pub fn serve_peek<
    const B: usize,
    const M: usize,
    const E: usize,
    A: TellsWear<B, M, E>,
    K: Sink + Drop,
>(pcm: &mut Module<B, M, E>, array: &mut A, peek: &Peek, out: &mut RowPrinter<B, K>)
    requires layout { IsLayout B M E }
    requires rises { pcm.old.tick ≤ peek.now.tick }
    requires in_time { peek.now.tick ≤ latest_tick }
    requires exists { peek.now.line < total_of pcm.old.shape }
    requires serving { MayServe pcm.old (A.state array.old) out.old }
    ensures serves { ServesOn (λ before. Peeks peek.now) pcm.old pcm.new (A.state array.old)
        (A.state array.new) out.old out.new }
    ensures printing { (before : Option (List ℕ)) (first : ℕ)
        → IsPrinting K.written K.faults before first out.old
        → IsPrinting K.written K.faults before first out.new }
{
    pcm.settle(array, peek.tick, out);
    out.tells_once();
    let bytes = pcm.newest(array, peek.line);
    let newest = PeekedLine {
        line: peek.line,
        bytes,
    };
    out.peeked(peek.tick, newest);
    out.settled(peek.tick);
}

// Tells what waits in each bank, in order.
fn tell_banks<const B: usize, const M: usize, const E: usize, K: Sink + Drop>(
    tick: u64,
    pcm: &Module<B, M, E>,
    out: &mut RowPrinter<B, K>,
)
    requires layout { IsLayout B M E }
    ensures rows { out.new.rows ≡ out.old.rows }
    ensures told { out.new.told
        ≡ out.old.told ++ banks_told pcm.now tick pcm.now.shape.banks }
    ensures snapshots { out.new.snapshots ≡ out.old.snapshots }
    ensures prints { out.new.prints ≡ out.old.prints }
    ensures printing { (before : Option (List ℕ)) (first : ℕ)
        → IsPrinting K.written K.faults before first out.old
        → IsPrinting K.written K.faults before first out.new }
{
    for bank in 0..pcm.shape().banks() {
        out.bank(tick, look_at(bank, pcm.timed(bank)));
    }
}

// What waits in a bank of this number.
fn look_at<const B: usize, const M: usize, const E: usize>(
    bank: u32,
    timed: &Timed<B, M, E>,
) -> Backlog
    requires layout { IsLayout B M E }
    ensures { result ≡ backlog_of bank timed.now }
{
    let inside = timed.bank();
    let kept = inside.kept();
    Backlog {
        bank,
        writes: kept.len() as u16,
        reads: inside.waiting() as u16,
        mark: marked(kept.exhausted(), timed.regs().halted()),
    }
}

// The mark of a bank.
fn marked(exhausted: bool, halted: bool) -> Mark
    ensures { result ≡ mark_of exhausted halted }
{
    if exhausted {
        Mark::Exhausted
    } else if halted {
        Mark::Halted
    } else {
        Mark::Going
    }
}
