// The end of a run.
ghost use Rattle.std.specs.Prelude.{◌≡◌, ◌*◌, ℕ, List, ◌++◌, length, map, true, false};
ghost use Rattle.ecp_line.specs.Layout.{IsLayout};
ghost use Rattle.result_rows.specs.Table.{HasRow};
ghost use Rattle.bank_model.specs.Timing.{TimedEvent};
ghost use Rattle.module_shape.specs.Addresses.{module_of, array_lines_of};
ghost use Rattle.module_laws.specs.Asking.{Asked, row_with};
ghost use Rattle.bank_timing.specs.Extending.{outcome_in};
ghost use Rattle.right_runs.specs.Ends.{BankEnd};
ghost use Rattle.right_runs.specs.Runs.{RunsRight, StopsRight};
ghost use Rattle.run_laws.specs.Finishing.{IsFinished, IsStopped};
ghost use Rattle.pcm_module.specs.State.{ModuleState, AreEndsOf, StandsNowhere, bank_at};
ghost use Rattle.pcm_module.specs.Replaying.{Replays};
ghost use Rattle.pcm_module.specs.Taking.{StaysBeyond};
ghost use Rattle.pcm_module.specs.Telling.{TellsByBanks, rows_at};
ghost use Rattle.pcm_module.specs.Draining.{MayFinish, AreDrained, IsLastCut};
ghost use Rattle.cell_rows.specs.Device.{ArrayState};

use crate::side_by_side::Module;
use bank_timing::clocked::Timed;
use cell_rows::CellArray;
use result_rows::Outcomes;
use run_laws::{finished_runs_are_right, stopped_runs_are_right};

impl<const B: usize, const M: usize, const E: usize> Module<B, M, E> {
    /// The run ends: each bank is drained, in order. Nothing may come any more. The rows, the array and the banks in the end
    /// keep every law of a finished run.
    pub fn finish<A: CellArray<B, M>, R: Outcomes<B>>(&mut self, array: &mut A, results: &mut R)
        requires going { self.old.finished ≡ false }
        requires replays { (h : ℕ → List (TimedEvent B M)) × (asked : List (Asked B))
            × Replays h asked self.old (A.state array.old) (R.table results.old) }
        ensures finished { self.new.finished ≡ true }
        ensures shape { self.new.shape ≡ self.old.shape }
        ensures seed { self.new.seed ≡ self.old.seed }
        ensures tick { self.new.tick ≡ self.old.tick }
        ensures table { length (R.table results.new) ≡ length (R.table results.old) }

        // each bank's history goes on until nothing is left to do there
        ensures finishes { (h : ℕ → List (TimedEvent B M)) (asked : List (Asked B))
            → Replays h asked self.old (A.state array.old) (R.table results.old)
            → (added : ℕ → List (TimedEvent B M))
            × IsFinished self.new.shape self.new.seed (λ bank. added bank ++ h bank) asked
            (bank_at self.new)
            (A.state array.new) (outcome_in (R.table results.new)) }
        ensures right { (h : ℕ → List (TimedEvent B M)) (asked : List (Asked B))
            → Replays h asked self.old (A.state array.old) (R.table results.old)
            → (ends : ℕ → BankEnd) × AreEndsOf self.new ends
            × RunsRight E self.new.shape self.new.seed
            (map (row_with (outcome_in (R.table results.new))) asked)
            (A.state array.new) ends }
        ensures others { (row : ℕ) → HasRow (R.table results.old) row → StandsNowhere self.old row
            → outcome_in (R.table results.new) row ≡ outcome_in (R.table results.old) row }
        ensures stays { StaysBeyond
            (self.old.shape.banks * array_lines_of (module_of self.old.shape))
            (A.state array.old) (A.state array.new) }
        ensures goes_on { R.goes_on results.old results.new }
        ensures order { TellsByBanks R.goes_on R.table true (rows_at self.old) self.old.shape.banks
            results.old results.new }
    {
        finished_runs_are_right();
        drain_all(&mut self.banks, array, results);
        self.finished = true;
    }
}

impl<const B: usize, const M: usize, const E: usize> Module<B, M, E> {
    /// The power stays off behind the last row, a power cut: no bank goes on, and nothing may come any more. The rows, the array and
    /// the banks as the cut left them keep every law of a run, but for those that say that work is finished.
    pub fn stop<R: Outcomes<B>>(&mut self, results: &mut R)
        requires going { self.old.finished ≡ false }
        requires replays { (array : ArrayState B M) × (h : ℕ → List (TimedEvent B M))
            × (asked : List (Asked B))
            × Replays h asked self.old array (R.table results.old) × IsLastCut self.old.tick asked }
        ensures finished { self.new.finished ≡ true }
        ensures shape { self.new.shape ≡ self.old.shape }
        ensures seed { self.new.seed ≡ self.old.seed }
        ensures tick { self.new.tick ≡ self.old.tick }
        ensures table { length (R.table results.new) ≡ length (R.table results.old) }
        ensures stops { (array : ArrayState B M)
            (h : ℕ → List (TimedEvent B M)) (asked : List (Asked B))
            → Replays h asked self.old array (R.table results.old) → IsLastCut self.old.tick asked
            → (added : ℕ → List (TimedEvent B M))
            × IsStopped self.new.shape self.new.seed (λ bank. added bank ++ h bank) asked
            (bank_at self.new)
            array (outcome_in (R.table results.new)) }
        ensures right { (array : ArrayState B M)
            (h : ℕ → List (TimedEvent B M)) (asked : List (Asked B))
            → Replays h asked self.old array (R.table results.old) → IsLastCut self.old.tick asked
            → (ends : ℕ → BankEnd) × AreEndsOf self.new ends
            × StopsRight E self.new.shape self.new.seed
            (map (row_with (outcome_in (R.table results.new))) asked) array ends }
        ensures others { (row : ℕ) → HasRow (R.table results.old) row → StandsNowhere self.old row
            → outcome_in (R.table results.new) row ≡ outcome_in (R.table results.old) row }
        ensures goes_on { R.goes_on results.old results.new }
        ensures order { TellsByBanks R.goes_on R.table true (rows_at self.old) self.old.shape.banks
            results.old results.new }
    {
        stopped_runs_are_right();
        stop_all(&mut self.banks, results);
        self.finished = true;
    }
}

// The banks of a module are stopped in order: all of them, for whichever module they are the banks of.
fn stop_all<const B: usize, const M: usize, const E: usize, R: Outcomes<B>>(
    banks: &mut Vec<Timed<B, M, E>>,
    results: &mut R,
)
    requires layout { IsLayout B M E }
    requires ready { (of : ModuleState B M E) × (array : ArrayState B M)
        × MayFinish true of banks.old.items array (R.table results.old) }
    ensures stopped { (of : ModuleState B M E) (array : ArrayState B M)
        → MayFinish true of banks.old.items array (R.table results.old)
        → AreDrained true of of.shape.banks banks.new.items array array (R.table results.old)
        (R.table results.new) }
    ensures goes_on { R.goes_on results.old results.new }
    ensures order { (of : ModuleState B M E) (array : ArrayState B M)
        → MayFinish true of banks.old.items array (R.table results.old)
        → TellsByBanks R.goes_on R.table true (rows_at of) of.shape.banks results.old results.new }
{
    for bank in 0..banks.len() {
        banks[bank].stop(results);
    }
}

// The banks of a module are drained in order: all of them, for whichever module they are the banks of.
fn drain_all<const B: usize, const M: usize, const E: usize, A: CellArray<B, M>, R: Outcomes<B>>(
    banks: &mut Vec<Timed<B, M, E>>,
    array: &mut A,
    results: &mut R,
)
    requires layout { IsLayout B M E }
    requires ready { (of : ModuleState B M E)
        × MayFinish false of banks.old.items (A.state array.old) (R.table results.old) }
    ensures drained { (of : ModuleState B M E)
        → MayFinish false of banks.old.items (A.state array.old) (R.table results.old)
        → AreDrained false of of.shape.banks banks.new.items (A.state array.old) (A.state array.new)
        (R.table results.old) (R.table results.new) }
    ensures goes_on { R.goes_on results.old results.new }
    ensures order { (of : ModuleState B M E)
        → MayFinish false of banks.old.items (A.state array.old) (R.table results.old)
        → TellsByBanks R.goes_on R.table true (rows_at of) of.shape.banks results.old results.new }
{
    for bank in 0..banks.len() {
        banks[bank].drain(array, results);
    }
}
