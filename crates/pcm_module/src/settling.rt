// A module is brought to a tick.
ghost use Rattle.std.specs.Prelude.{◌≡◌, ◌≢◌, ◌*◌, ◌<◌, ◌≤◌, ℕ, List, ◌++◌, length, IsSomeAnd, slice_get, false};
ghost use Rattle.ecp_line.specs.Layout.{IsLayout};
ghost use Rattle.result_rows.specs.Table.{HasRow};
ghost use Rattle.bank_model.specs.Timing.{TimedEvent};
ghost use Rattle.module_shape.specs.Addresses.{module_of, array_lines_of};
ghost use Rattle.module_laws.specs.Asking.{Asked};
ghost use Rattle.bank_timing.specs.Extending.{IsOpen, IsQuiet, outcome_in, last_tick};
ghost use Rattle.pcm_module.specs.State.{ModuleState, StandsNowhere};
ghost use Rattle.pcm_module.specs.Replaying.{Replays};
ghost use Rattle.pcm_module.specs.Taking.{StaysBeyond};
ghost use Rattle.pcm_module.specs.Telling.{TellsByBanks, TellsOf, rows_at};
ghost use Rattle.pcm_module.specs.Settling.{IsAtTick, MaySettle, AreSettled};

use crate::side_by_side::Module;
use bank_timing::clocked::Timed;
use cell_rows::CellArray;
use result_rows::Outcomes;

impl<const B: usize, const M: usize, const E: usize> Module<B, M, E> {
    /// Every bank is brought to a tick, in order, as a power cut brings it there, but nothing is cut: what ends by then is
    /// completed, and its outcomes are told. No row comes.
    pub fn settle<A: CellArray<B, M>, R: Outcomes<B>>(
        &mut self,
        array: &mut A,
        tick: u64,
        results: &mut R,
    )
        requires going { self.old.finished ≡ false }
        requires replays { (h : ℕ → List (TimedEvent B M)) × (asked : List (Asked B))
            × Replays h asked self.old (A.state array.old) (R.table results.old) }
        requires forward { self.old.tick ≤ tick }
        requires within { tick ≤ last_tick }
        ensures shape { self.new.shape ≡ self.old.shape }
        ensures seed { self.new.seed ≡ self.old.seed }
        ensures going { self.new.finished ≡ false }
        ensures tick { self.new.tick ≡ tick }
        ensures settled { (bank : ℕ) → bank < self.new.shape.banks
            → IsSomeAnd (slice_get self.new.banks bank) (IsAtTick tick) }
        ensures rows { self.new.rows_below ≡ self.old.rows_below }
        ensures table { length (R.table results.new) ≡ length (R.table results.old) }

        // each bank's history goes on, and nothing more was asked
        ensures replays { (h : ℕ → List (TimedEvent B M)) (asked : List (Asked B))
            → Replays h asked self.old (A.state array.old) (R.table results.old)
            → (added : ℕ → List (TimedEvent B M))
            × Replays (λ bank. added bank ++ h bank) asked self.new (A.state array.new)
            (R.table results.new) }
        // by ends of actions alone
        ensures quiet { (h : ℕ → List (TimedEvent B M)) (asked : List (Asked B))
            → Replays h asked self.old (A.state array.old) (R.table results.old)
            → (added : ℕ → List (TimedEvent B M))
            × Replays (λ bank. added bank ++ h bank) asked self.new (A.state array.new)
            (R.table results.new) × ((bank : ℕ) → IsQuiet (added bank)) }
        ensures open { (row : ℕ) → self.old.rows_below ≤ row → IsOpen (R.table results.old) row
            → IsOpen (R.table results.new) row }
        ensures others { (row : ℕ) → HasRow (R.table results.old) row → StandsNowhere self.old row
            → outcome_in (R.table results.new) row ≡ outcome_in (R.table results.old) row }
        ensures stays { StaysBeyond
            (self.old.shape.banks * array_lines_of (module_of self.old.shape))
            (A.state array.old) (A.state array.new) }
        ensures goes_on { R.goes_on results.old results.new }
        ensures order { TellsByBanks R.goes_on R.table false (rows_at self.old) self.old.shape.banks
            results.old results.new }
    {
        settle_all(&mut self.banks, array, tick, results);
        self.tick = tick;
    }
    /// One bank is brought to a tick, as `settle` brings all of them, and is the only one that tells outcomes; the others stay where
    /// they are, and go on from there once something arrives there.
    pub fn settle_bank<A: CellArray<B, M>, R: Outcomes<B>>(
        &mut self,
        array: &mut A,
        bank: u32,
        tick: u64,
        results: &mut R,
    )
        requires exists { bank < self.old.shape.banks }
        requires going { self.old.finished ≡ false }
        requires replays { (h : ℕ → List (TimedEvent B M)) × (asked : List (Asked B))
            × Replays h asked self.old (A.state array.old) (R.table results.old) }
        requires forward { self.old.tick ≤ tick }
        requires within { tick ≤ last_tick }
        ensures shape { self.new.shape ≡ self.old.shape }
        ensures seed { self.new.seed ≡ self.old.seed }
        ensures going { self.new.finished ≡ false }
        ensures tick { self.new.tick ≡ tick }
        ensures settled { IsSomeAnd (slice_get self.new.banks bank) (IsAtTick tick) }
        ensures beside { (other : ℕ) → other ≢ bank
            → slice_get self.new.banks other ≡ slice_get self.old.banks other }
        ensures rows { self.new.rows_below ≡ self.old.rows_below }
        ensures table { length (R.table results.new) ≡ length (R.table results.old) }

        // each bank's history goes on, and nothing more was asked
        ensures replays { (h : ℕ → List (TimedEvent B M)) (asked : List (Asked B))
            → Replays h asked self.old (A.state array.old) (R.table results.old)
            → (added : ℕ → List (TimedEvent B M))
            × Replays (λ bank. added bank ++ h bank) asked self.new (A.state array.new)
            (R.table results.new) }
        // by ends of actions alone
        ensures quiet { (h : ℕ → List (TimedEvent B M)) (asked : List (Asked B))
            → Replays h asked self.old (A.state array.old) (R.table results.old)
            → (added : ℕ → List (TimedEvent B M))
            × Replays (λ bank. added bank ++ h bank) asked self.new (A.state array.new)
            (R.table results.new) × ((bank : ℕ) → IsQuiet (added bank)) }
        ensures open { (row : ℕ) → self.old.rows_below ≤ row → IsOpen (R.table results.old) row
            → IsOpen (R.table results.new) row }
        ensures others { (row : ℕ) → HasRow (R.table results.old) row → StandsNowhere self.old row
            → outcome_in (R.table results.new) row ≡ outcome_in (R.table results.old) row }
        ensures stays { StaysBeyond
            (self.old.shape.banks * array_lines_of (module_of self.old.shape))
            (A.state array.old) (A.state array.new) }
        ensures goes_on { R.goes_on results.old results.new }
        ensures order { TellsOf R.goes_on R.table false (rows_at self.old bank) results.old results.new }
    {
        settle_one(&mut self.banks, bank as usize, array, tick, results);
        self.tick = tick;
    }
}

// The banks of a module are brought to a tick in order: all of them, for whichever module they are the banks of.
fn settle_all<const B: usize, const M: usize, const E: usize, A: CellArray<B, M>, R: Outcomes<B>>(
    banks: &mut Vec<Timed<B, M, E>>,
    array: &mut A,
    tick: u64,
    results: &mut R,
)
    requires layout { IsLayout B M E }
    requires ready { (of : ModuleState B M E)
        × MaySettle tick of banks.old.items (A.state array.old) (R.table results.old) }
    ensures settled { (of : ModuleState B M E)
        → MaySettle tick of banks.old.items (A.state array.old) (R.table results.old)
        → AreSettled tick of (λ bank. bank < of.shape.banks) banks.new.items (A.state array.old) (A.state array.new)
        (R.table results.old) (R.table results.new) }
    ensures goes_on { R.goes_on results.old results.new }
    ensures order { (of : ModuleState B M E)
        → MaySettle tick of banks.old.items (A.state array.old) (R.table results.old)
        → TellsByBanks R.goes_on R.table false (rows_at of) of.shape.banks results.old results.new }
{
    for bank in 0..banks.len() {
        banks[bank].advance(array, tick, results);
    }
}

// One of the banks of a module is brought to a tick, for whichever module they are the banks of.
fn settle_one<const B: usize, const M: usize, const E: usize, A: CellArray<B, M>, R: Outcomes<B>>(
    banks: &mut Vec<Timed<B, M, E>>,
    bank: usize,
    array: &mut A,
    tick: u64,
    results: &mut R,
)
    requires layout { IsLayout B M E }
    requires ready { (of : ModuleState B M E)
        × MaySettle tick of banks.old.items (A.state array.old) (R.table results.old)
        × (bank < of.shape.banks) }
    ensures settled { (of : ModuleState B M E)
        → MaySettle tick of banks.old.items (A.state array.old) (R.table results.old)
        → bank < of.shape.banks
        → AreSettled tick of (λ other. other ≡ bank) banks.new.items
        (A.state array.old) (A.state array.new) (R.table results.old) (R.table results.new) }
    ensures goes_on { R.goes_on results.old results.new }
    ensures order { (of : ModuleState B M E)
        → MaySettle tick of banks.old.items (A.state array.old) (R.table results.old)
        → bank < of.shape.banks
        → TellsOf R.goes_on R.table false (rows_at of bank) results.old results.new }
{
    banks[bank].advance(array, tick, results);
}
