// One row of a stream.
ghost use Rattle.std.specs.Prelude.{◌≡◌, ℕ, ◌<◌, ◌≤◌, List, Option};
ghost use Rattle.ecp_line.specs.Layout.{IsLayout};
ghost use Rattle.module_shape.specs.declared.raw.RawShape.{RawShape};
ghost use Rattle.module_shape.specs.Limits.{total_of};
ghost use Rattle.trace_reader.specs.Events.{IsEventFor};
ghost use Rattle.trace_reader.specs.Rows.{latest_tick};
ghost use Rattle.trace_stream.specs.Asked.{IsAskedFor, NamesRow, reached_at};
ghost use Rattle.trace_stream.specs.declared.asked.Asked.{Asked as StreamAsked};
ghost use Rattle.trace_stream.specs.declared.asked.Asked.TheVariants.{Happens, Settle};
ghost use Rattle.row_printer.specs.Printing.{IsPrinting};
ghost use Rattle.row_stream.specs.Serving.{MayServe, ServesOn};

use crate::answering::{serve_look, serve_peek, serve_query};
use crate::looking::show_due;
use crate::waiting::{serve_until, serve_until_any};
use pcm_io::Sink;
use pcm_module::Module;
use row_printer::RowPrinter;
use trace_reader::Event;
use trace_stream::Asked;
use wear_totals::TellsWear;

/// Serves one row of a stream, and tells what became known by it: of an event what its bank did before it and what the event itself
/// decides, at a power cut what all banks did, and at a settle too, behind which its tick is told, and at a query, behind which what waits in
/// each bank is told, and its tick, at a look how worn the array is, at a peek a line's newest bytes, and at a settle until, which says how far it
/// went. An event has the next number.
pub fn serve<const B: usize, const M: usize, const E: usize, A: TellsWear<B, M, E>, K: Sink + Drop>(
    pcm: &mut Module<B, M, E>,
    array: &mut A,
    asked: &Asked<B>,
    out: &mut RowPrinter<B, K>,
)
    requires layout { IsLayout B M E }
    requires asked { IsAskedFor (total_of pcm.old.shape) pcm.old.tick asked.now }
    requires named { NamesRow out.old.rows asked.now }
    requires few { out.old.rows < 4294967295 }
    requires serving { MayServe pcm.old (A.state array.old) out.old }
    ensures serves { ServesOn (λ before. reached_at pcm.new.tick asked.now) pcm.old pcm.new
        (A.state array.old) (A.state array.new) out.old out.new }
    ensures printing { (before : Option (List ℕ)) (first : ℕ)
        → IsPrinting K.written K.faults before first out.old
        → IsPrinting K.written K.faults before first out.new }
{
    match asked {
        Asked::Happens(event) => serve_event(pcm, array, event, out),
        Asked::Settle(tick) => serve_settle(pcm, array, *tick, out),
        Asked::Query(tick) => serve_query(pcm, array, *tick, out),
        Asked::Look(tick) => serve_look(pcm, array, *tick, out),
        Asked::Peek(peek) => serve_peek(pcm, array, peek, out),
        Asked::Until(until) => serve_until(pcm, array, until, out),
        Asked::UntilAny(until) => serve_until_any(pcm, array, until, out),
    }
}

/// Hands an event to the module, with the next number; where a snapshot is due then, it is taken.
pub fn serve_event<
    const B: usize,
    const M: usize,
    const E: usize,
    A: TellsWear<B, M, E>,
    K: Sink + Drop,
>(pcm: &mut Module<B, M, E>, array: &mut A, event: &Event<B>, out: &mut RowPrinter<B, K>)
    requires layout { IsLayout B M E }
    requires event { IsEventFor (total_of pcm.old.shape) pcm.old.tick event.now }
    requires few { out.old.rows < 4294967295 }
    requires serving { MayServe pcm.old (A.state array.old) out.old }
    ensures serves { ServesOn (λ before. Happens event.now) pcm.old pcm.new
        (A.state array.old) (A.state array.new) out.old out.new }
    ensures printing { (before : Option (List ℕ)) (first : ℕ)
        → IsPrinting K.written K.faults before first out.old
        → IsPrinting K.written K.faults before first out.new }
{
    out.add_row();
    let row = out.rows();
    // Its sizes make known that each line's bank is one of the module's.
    let _ = pcm.shape();
    pcm.event(array, row, event, out);
    out.tells_once();
    show_due(pcm, array, out);
}

// Brings every bank to a tick, and tells that behind what became known by it.
fn serve_settle<
    const B: usize,
    const M: usize,
    const E: usize,
    A: TellsWear<B, M, E>,
    K: Sink + Drop,
>(pcm: &mut Module<B, M, E>, array: &mut A, tick: u64, out: &mut RowPrinter<B, K>)
    requires layout { IsLayout B M E }
    requires rises { pcm.old.tick ≤ tick }
    requires in_time { tick ≤ latest_tick }
    requires serving { MayServe pcm.old (A.state array.old) out.old }
    ensures serves { ServesOn (λ before. Settle tick) pcm.old pcm.new (A.state array.old)
        (A.state array.new) out.old out.new }
    ensures printing { (before : Option (List ℕ)) (first : ℕ)
        → IsPrinting K.written K.faults before first out.old
        → IsPrinting K.written K.faults before first out.new }
{
    pcm.settle(array, tick, out);
    out.tells_once();
    out.settled(tick);
}
