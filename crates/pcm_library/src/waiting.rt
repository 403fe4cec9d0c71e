// A settle until a row has its outcome, or until any row has.
ghost use Rattle.std.specs.Prelude.{◌≡◌, ◌⊎◌, ℕ, ◌<◌, ◌≤◌, None, IfSome, IsSomeAnd, slice_get, true, false};
ghost use Rattle.ecp_line.specs.Layout.{IsLayout};
ghost use Rattle.module_shape.specs.Limits.{IsShape};
ghost use Rattle.trace_reader.specs.Rows.{latest_tick};
ghost use Rattle.trace_stream.specs.declared.asked.Asked.TheVariants.{Until as Waits, UntilAny as Awaits};
ghost use Rattle.pcm_module.specs.Settling.{IsAtTick};
ghost use Rattle.pcm_module.specs.Telling.{rows_at};
ghost use Rattle.row_stream.specs.Serving.{IsFirstTurn, MayServe, ServesOn};

use crate::keeper::Keeper;
use cell_rows::CellArray;
use pcm_module::Module;
use trace_stream::{Until, UntilAny};

/// Brings every bank to the tick that was reached before, and then, as long as a row stands in a bank, to the next tick at which an
/// action of that bank ends, at most to a tick; and tells, behind what became known by it, the tick that was reached.
pub(crate) fn serve_until<const B: usize, const M: usize, const E: usize, A: CellArray<B, M>>(
    pcm: &mut Module<B, M, E>,
    array: &mut A,
    until: &Until,
    out: &mut Keeper<B>,
)
    requires layout { IsLayout B M E }
    requires rises { pcm.old.tick ≤ until.now.limit }
    requires in_time { until.now.limit ≤ latest_tick }
    requires named { (1 ≤ until.now.row) × (until.now.row ≤ out.old.rows) }
    requires serving { MayServe pcm.old (A.state array.old) out.old }
    ensures serves { ServesOn (λ before. Waits (record {
      row = until.now.row;
      limit = until.now.limit;
      reached = pcm.new.tick;
    })) pcm.old pcm.new (A.state array.old) (A.state array.new) out.old out.new }
    ensures going { pcm.new.finished ≡ false }
    ensures shape { pcm.new.shape ≡ pcm.old.shape }
    ensures taken { out.new.sink.taken ≡ out.old.sink.taken }
    ensures room { out.new.sink.room ≡ out.old.sink.room }
{
    // Its sizes make known that each line's bank is one of the module's.
    let _ = pcm.shape();
    let tick = pcm.tick();
    pcm.settle(array, tick, out);
    out.tells_once();
    'waits: while let Some(bank) = waits_at(pcm, until) {
        let next = pcm.timed(bank).next_end(until.limit);
        pcm.settle(array, next, out);
        out.tells_once();
    }
    out.settled(pcm.tick());
}

/// Brings every bank to the tick that was reached before, and then, as long as no outcome becomes known, to the next tick at which an action of
/// some bank ends, at most to a tick; and tells, behind what became known by it, the tick that was reached.
pub(crate) fn serve_until_any<const B: usize, const M: usize, const E: usize, A: CellArray<B, M>>(
    pcm: &mut Module<B, M, E>,
    array: &mut A,
    until: &UntilAny,
    out: &mut Keeper<B>,
)
    requires layout { IsLayout B M E }
    requires rises { pcm.old.tick ≤ until.now.limit }
    requires in_time { until.now.limit ≤ latest_tick }
    requires serving { MayServe pcm.old (A.state array.old) out.old }
    ensures serves { ServesOn (λ before. Awaits (record {
      limit = until.now.limit;
      reached = pcm.new.tick;
    })) pcm.old pcm.new (A.state array.old) (A.state array.new) out.old out.new }
    ensures going { pcm.new.finished ≡ false }
    ensures shape { pcm.new.shape ≡ pcm.old.shape }
    ensures taken { out.new.sink.taken ≡ out.old.sink.taken }
    ensures room { out.new.sink.room ≡ out.old.sink.room }
{
    out.listen();
    wait_for_any(pcm, array, until, out);
}

// So, where the keeper listens, and has heard no outcome yet.
fn wait_for_any<const B: usize, const M: usize, const E: usize, A: CellArray<B, M>>(
    pcm: &mut Module<B, M, E>,
    array: &mut A,
    until: &UntilAny,
    out: &mut Keeper<B>,
)
    requires layout { IsLayout B M E }
    requires rises { pcm.old.tick ≤ until.now.limit }
    requires in_time { until.now.limit ≤ latest_tick }
    requires listens { out.old.heard ≡ false }
    requires serving { MayServe pcm.old (A.state array.old) out.old }
    ensures serves { ServesOn (λ before. Awaits (record {
      limit = until.now.limit;
      reached = pcm.new.tick;
    })) pcm.old pcm.new (A.state array.old) (A.state array.new) out.old out.new }
    ensures going { pcm.new.finished ≡ false }
    ensures shape { pcm.new.shape ≡ pcm.old.shape }
    ensures taken { out.new.sink.taken ≡ out.old.sink.taken }
    ensures room { out.new.sink.room ≡ out.old.sink.room }
{
    // Its sizes make known that each line's bank is one of the module's.
    let _ = pcm.shape();
    let tick = pcm.tick();
    pcm.settle(array, tick, out);
    out.tells_once();
    'turns: while let Some(next) = next_turn(pcm, until.limit, out) {
        pcm.settle(array, next, out);
        out.tells_once();
    }
    out.settled(pcm.tick());
}

// The tick at which the first action ends from now on, where no outcome was heard and there may still be waited.
fn next_turn<const B: usize, const M: usize, const E: usize>(
    pcm: &Module<B, M, E>,
    limit: u64,
    out: &Keeper<B>,
) -> Option<u64>
    requires layout { IsLayout B M E }
    requires in_time { limit ≤ latest_tick }
    requires settled { (bank : ℕ) → bank < pcm.now.shape.banks
        → IsSomeAnd (slice_get pcm.now.banks bank) (IsAtTick pcm.now.tick) }
    ensures some { IfSome result (λ tick. (out.now.heard ≡ false)
        × IsFirstTurn limit pcm.now tick × (pcm.now.tick < limit)) }
    ensures none { result ≡ None → (out.now.heard ≡ true) ⊎ (limit ≤ pcm.now.tick) }
    ensures shape { IsShape pcm.now.shape }
{
    let banks = pcm.shape().banks();
    if out.heard() {
        return None;
    }
    if limit <= pcm.tick() {
        return None;
    }
    let mut first = limit;
    for bank in 0..banks {
        first = first.min(pcm.timed(bank).next_end(limit));
    }
    Some(first)
}

// The bank where the row stands that is waited for, where there may still be waited.
fn waits_at<const B: usize, const M: usize, const E: usize>(
    pcm: &Module<B, M, E>,
    until: &Until,
) -> Option<u32>
    requires layout { IsLayout B M E }
    ensures some { IfSome result (λ bank. (bank < pcm.now.shape.banks)
        × (rows_at pcm.now bank until.now.row ≡ true) × (pcm.now.tick < until.now.limit)) }
    ensures none { result ≡ None → (until.now.limit ≤ pcm.now.tick)
        ⊎ ((bank : ℕ) → bank < pcm.now.shape.banks
        → rows_at pcm.now bank until.now.row ≡ false) }
    ensures shape { IsShape pcm.now.shape }
{
    let banks = pcm.shape().banks();
    if until.limit <= pcm.tick() {
        return None;
    }
    for bank in 0..banks {
        if stands_in(pcm, bank, until.row) {
            return Some(bank);
        }
    }
    None
}

// Whether a row stands in a bank.
fn stands_in<const B: usize, const M: usize, const E: usize>(
    pcm: &Module<B, M, E>,
    bank: u32,
    row: u32,
) -> bool
    requires layout { IsLayout B M E }
    requires exists { bank < pcm.now.shape.banks }
    ensures { result ≡ rows_at pcm.now bank row }
{
    pcm.timed(bank).bank().stands(row)
}
