// The rows that a seed draws.
ghost use Rattle.std.specs.Prelude.{◌≡◌, ◌<◌, ℕ, List, [], ◌∷◌, reverse, Option, IfOk, IfErr, OnOk, OnErr};
ghost use Rattle.std.specs.Io.KnownBytes.{Appends};
ghost use Rattle.pcm_io.specs.Faults.{Rose};
ghost use Rattle.pcm_io.specs.Giving.{AppendsPrefix};
ghost use Rattle.ecp_line.specs.Layout.{IsLayout};
ghost use Rattle.module_shape.specs.declared.raw.RawShape.{RawShape};
ghost use Rattle.module_shape.specs.Limits.{total_of};
ghost use Rattle.trace_gen.specs.Generated.{IsLongMix, generated};
ghost use Rattle.trace_stream.specs.Laws.{all_events};
ghost use Rattle.trace_stream.specs.declared.asked.Asked.{Asked as StreamAsked};
ghost use Rattle.row_printer.specs.Printing.{IsPrinting, text_told};
ghost use Rattle.row_stream.specs.Asking.{BeginsWith, behind_of};
ghost use Rattle.drawn_parts.specs.Parts.{drawn_for};
ghost use Rattle.row_stream.specs.Refusing.{EndsBehind, WentOn};
ghost use Rattle.row_stream.specs.Serving.{IsServing, told_so_far};

use crate::serving::serve_event;
use crate::stop::{Behind, behind_event, stops_behind};
use drawn_parts::{Banks, next_for};
use feistel_map::Feistel;
use pcm_io::{Sink, WriteFault};
use pcm_module::Module;
use row_printer::RowPrinter;
use trace_gen::laws::long_events_are_lawful;
use trace_gen::{Generator, Mix};
use wear_totals::TellsWear;

/// Serves the rows of some banks that a seed draws, one after the other, or, where it is to stop at a refusal, up to the first row that is refused, and then
/// writes what became known by them. Nothing is read meanwhile, so lines are gathered and written where they are many. Answers how the module
/// stands behind the last row.
pub fn serve_drawn<
    const B: usize,
    const M: usize,
    const E: usize,
    A: TellsWear<B, M, E>,
    K: Sink + Drop,
>(
    pcm: &mut Module<B, M, E>,
    array: &mut A,
    seed: u64,
    mix: Mix,
    banks: Banks,
    stops: bool,
    out: &mut RowPrinter<B, K>,
) -> Result<Behind, WriteFault>
    requires layout { IsLayout B M E }
    requires mix { IsLongMix mix }
    requires begins { (raw : RawShape) × (own : ℕ)
        × IsServing raw own [] pcm.old (A.state array.old) out.old.rows out.old.told out.old.prints
        out.old.snapshots }
    ensures served { IfOk result (λ behind. (raw : RawShape) (own : ℕ)
        → IsServing raw own [] pcm.old (A.state array.old) out.old.rows out.old.told out.old.prints
        out.old.snapshots
        → (asked : List (StreamAsked B)) × (had : IsServing raw own asked pcm.new
        (A.state array.new) out.new.rows out.new.told out.new.prints out.new.snapshots)
        × (behind ≡ behind_of asked) × EndsBehind stops asked (told_so_far had)
        (reverse asked ≡ all_events (drawn_for raw seed banks (generated B seed (total_of raw) mix)))
        (BeginsWith asked
        (all_events (drawn_for raw seed banks (generated B seed (total_of raw) mix))))) }
    ensures few { out.new.rows < 4294967295 }
    ensures stopped { OnErr result ((raw : RawShape) (own : ℕ)
        → IsServing raw own [] pcm.old (A.state array.old) out.old.rows out.old.told out.old.prints
        out.old.snapshots
        → (asked : List (StreamAsked B)) × (had : IsServing raw own asked pcm.new
        (A.state array.new) out.new.rows out.new.told out.new.prints out.new.snapshots)
        × BeginsWith asked
        (all_events (drawn_for raw seed banks (generated B seed (total_of raw) mix)))
        × WentOn stops asked (told_so_far had)) }
    ensures prints { out.new.prints ≡ out.old.prints }
    ensures printing { (before : Option (List ℕ)) (first : ℕ)
        → IsPrinting K.written K.faults before first out.old
        → IsPrinting K.written K.faults before first out.new }
    ensures written { OnOk result ((before : Option (List ℕ)) (first : ℕ)
        → IsPrinting K.written K.faults before first out.old
        → Appends before (K.written out.new.sink) (text_told out.new)) }
    ensures part { OnErr result ((before : Option (List ℕ)) (first : ℕ)
        → IsPrinting K.written K.faults before first out.old
        → AppendsPrefix before (K.written out.new.sink) (text_told out.new)
        × Rose first (K.faults out.new.sink)) }
    ensures wear { (A.state array.new).wear ≡ (A.state array.old).wear }
{
    long_events_are_lawful();
    let shape = *pcm.shape();
    let mut generator = Generator::<B>::long(seed, shape.total(), mix);
    let feistel = Feistel::new(shape.address_bits(), seed);
    let mut behind = Behind::Nothing;
    'rows: while let Some(event) = next_for(&mut generator, &feistel, &shape, banks) {
        serve_event(pcm, array, &event, out);
        behind = behind_event(&event.op);
        if out.broken() {
            return Err(WriteFault);
        }
        if stops_behind(stops, out) {
            return match out.flush() {
                Ok(()) => Ok(behind),
                Err(fault) => Err(fault),
            };
        }
    }
    match out.flush() {
        Ok(()) => Ok(behind),
        Err(fault) => Err(fault),
    }
}
