// The end of a run.
ghost use Rattle.std.specs.Prelude.{◌≡◌, ℕ, ◌<◌, ◌≤◌, List, [], length, None, IsSomeAnd, slice_get, true, false};
ghost use Rattle.result_rows.specs.Table.{with_outcome};
ghost use Rattle.result_rows.specs.declared.Outcome.TheVariants.{Queued};
ghost use Rattle.bank_model.specs.Timing.{TimedEvent};
ghost use Rattle.clock_laws.specs.State.{next_action};
ghost use Rattle.clock_laws.specs.Draining.{FollowsStores};
ghost use Rattle.clock_laws.specs.Leads.{Leads};
ghost use Rattle.bank_timing.specs.Extending.{RunsDown, AreOpen, IsGoing, IsOpen, LeavesOthers, last_tick};
ghost use Rattle.bank_timing.specs.Laws.{KeepsLaws};
ghost use Rattle.bank_timing.specs.Telling.{TellsInTurn, TellsUpTo};
ghost use Rattle.bank_timing.specs.Draining.{Drains, DrainsTo, AreQueueable, AreQueued, closed};
ghost use Rattle.bank_laws.specs.Resting.{IsCutOff};
ghost use Rattle.cell_rows.specs.Device.{ArrayState};

use crate::clocked::Timed;
use cell_rows::CellArray;
use circular_buffer::HeapCircularBuffer;
use power_recovery::kept::Kept;
use result_rows::{Outcome, Outcomes};
use table_laws::{
    logs_keep_their_laws, places_keep_their_laws, reads_keep_their_law, tables_keep_their_laws,
};

impl<const B: usize, const M: usize, const E: usize> Timed<B, M, E> {
    /// The clock goes on until nothing runs and nothing would be chosen; the writes that stand in the queue then are queued, with
    /// the ticks of their arrival. What becomes known is told in the order of its ticks, and the queued writes behind it. The present
    /// tick is that of the last event, or still that of before where none came. Nothing may come any more. The rows of every history
    /// that leads to the drained bank keep the laws of rows, of places and wear, and of the log; a read that found fewer than four
    /// cancels of the line write then in progress waited for the reads before it alone; and each region's registers stand for the
    /// gap moves that its stores give.
    pub fn drain<A: CellArray<B, M>, R: Outcomes<B>>(&mut self, array: &mut A, results: &mut R)
        requires going { IsGoing self.old (A.state array.old) (R.table results.old) }
        requires within { self.old.tick ≤ last_tick }
        ensures drained { self.new.drained ≡ true }
        ensures rows { self.new.bank.rows_below ≡ self.old.bank.rows_below }
        ensures drains { (xs : List (TimedEvent B M)) → Leads xs self.old (A.state array.old)
            → (added : List (TimedEvent B M))
            × Drains xs added self.old self.new (A.state array.old) (A.state array.new)
            (R.table results.old) (R.table results.new) }
        ensures others { LeavesOthers self.old.bank (R.table results.old) (R.table results.new) }
        ensures laws { (xs : List (TimedEvent B M)) → Leads xs self.new (A.state array.new)
            → KeepsLaws E self.new.bank.kept.shape self.new.pace xs (A.state array.new) }
        ensures registers { (xs : List (TimedEvent B M)) → Leads xs self.new (A.state array.new)
            → (region : ℕ) → region < self.new.bank.kept.shape.regions
            → FollowsStores xs self.new (A.state array.new) region }
        ensures goes_on { R.goes_on results.old results.new }
        ensures in_turn { TellsInTurn R.goes_on R.table true results.old results.new }
    {
        tables_keep_their_laws();
        places_keep_their_laws();
        logs_keep_their_laws();
        reads_keep_their_law();
        self.settle(array, results);
        leave_queued(self.bank.kept(), &self.arrivals, results);
        self.drained = true;
    }

    /// The power stays off: nothing is done any more, and the writes that stand in the queue are queued, with the ticks of their
    /// arrival. Every history that leads here and ends with a power cut is then a whole one.
    pub fn stop<R: Outcomes<B>>(&mut self, results: &mut R)
        requires going { (array : ArrayState B M) × IsGoing self.old array (R.table results.old) }
        ensures clock { self.new ≡ closed self.old }
        ensures stops { (xs : List (TimedEvent B M)) (array : ArrayState B M)
            → Leads xs self.old array → IsCutOff xs
            → DrainsTo true xs [] self.old self.new array array (R.table results.old)
            (R.table results.new) }
        ensures others { LeavesOthers self.old.bank (R.table results.old) (R.table results.new) }
        ensures goes_on { R.goes_on results.old results.new }
        ensures in_turn { TellsInTurn R.goes_on R.table true results.old results.new }
    {
        leave_queued(self.bank.kept(), &self.arrivals, results);
        self.drained = true;
    }

    // Runs until nothing runs and nothing would be chosen.
    fn settle<A: CellArray<B, M>, R: Outcomes<B>>(&mut self, array: &mut A, results: &mut R)
        requires led { (xs : List (TimedEvent B M)) × Leads xs self.old (A.state array.old) }
        requires within { self.old.tick ≤ last_tick }
        requires unset { AreOpen self.old.bank (R.table results.old) }
        ensures ran { RunsDown self.old self.new (A.state array.old) (A.state array.new)
            (R.table results.old) (R.table results.new) }
        ensures rests { next_action self.new ≡ None }
        ensures goes_on { R.goes_on results.old results.new }
        ensures in_turn { TellsUpTo R.goes_on R.table self.new.tick results.old results.new }
    {
        // A field that is read makes known what is true of every clock.
        let _drained = self.drained;
        while let Some(action) = self.next_action() {
            let _tick = self.tick;
            self.complete(array, action, results);
        }
    }
}

// Each write that stands in the queue is queued, with the tick of its arrival.
fn leave_queued<const B: usize, R: Outcomes<B>>(
    kept: &Kept<B>,
    arrivals: &HeapCircularBuffer<u64>,
    results: &mut R,
)
    requires few { B ≤ 128 }
    requires ready { AreQueueable kept.now.entries arrivals.now.items (R.table results.old) }
    ensures queued { AreQueued kept.now.entries arrivals.now.items (R.table results.old)
        (R.table results.new) }
    ensures goes_on { R.goes_on results.old results.new }
{
    for index in 0..kept.len() {
        queue_at(kept, arrivals, index, results);
    }
}

// The write at an index of the queue is queued.
fn queue_at<const B: usize, R: Outcomes<B>>(
    kept: &Kept<B>,
    arrivals: &HeapCircularBuffer<u64>,
    index: usize,
    results: &mut R,
)
    requires few { B ≤ 128 }
    requires there { index < length kept.now.entries }
    requires told { index < length arrivals.now.items }
    requires unset { IsSomeAnd (slice_get kept.now.entries index)
        (λ entry. IsOpen (R.table results.old) entry.row) }
    ensures queued { IsSomeAnd (slice_get kept.now.entries index)
        (λ entry. IsSomeAnd (slice_get arrivals.now.items index) (λ tick.
        (R.table results.new) ≡ with_outcome (R.table results.old) entry.row (Queued tick))) }
    ensures goes_on { R.goes_on results.old results.new }
{
    if let Some(entry) = kept.at(index) {
        if let Some(tick) = arrivals.get(index) {
            results.set(entry.row, Outcome::Queued { tick: *tick });
        }
    }
}
