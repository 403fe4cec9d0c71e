//! What arrives at a bank.
ghost use Rattle.std.specs.Prelude.{◌≡◌, ◌+◌, ◌<◌, ◌≤◌, List, [], ◌∷◌, false, None, ◌&&◌, ◌++◌, true, length, IsTrue, slice_set, if◌then◌else◌};
ghost use Rattle.masked_bytes.specs.Masked.{IsMasked};
ghost use Rattle.cell_rows.specs.Device.{ArrayState};
ghost use Rattle.power_recovery.specs.Slots.{bank_lines};
ghost use Rattle.bank_model.specs.Events.{Write, Read};
ghost use Rattle.bank_model.specs.Timing.{TimedEvent};
ghost use Rattle.bank_invariant.specs.Serving.{read_from};
ghost use Rattle.bank_core.specs.Steps.{write_from};
ghost use Rattle.clock_laws.specs.Leads.{Leads};
ghost use Rattle.result_rows.specs.declared.Outcome.{Outcome as RowOutcome};
ghost use Rattle.clock_laws.specs.Arriving.{cancels_for, drops};
ghost use Rattle.bank_timing.specs.Cancelling.{cancel_by, cancel_first};
ghost use Rattle.bank_shape.specs.declared.clock.Doing.TheVariants.{Beginning};
ghost use Rattle.bank_model.specs.Timing.{is_doing, is_writing};
ghost use Rattle.bank_model.specs.After.{is_store_of};
ghost use Rattle.power_recovery.specs.Kept.{next_work};
ghost use Rattle.bank_timing.specs.Completing.{with_arrivals};
ghost use Rattle.bank_timing.specs.Extending.{Arrives, AreOpen, IsGoing, IsOpen};

use crate::clocked::Timed;
use bank_core::arriving::Arrived;
use bank_shape::Work;
use bank_shape::answer::ReadAnswer;
use bank_shape::clock::{Action, Doing};
use cell_rows::CellArray;
use masked_bytes::entry::Entry;
use masked_bytes::layers::has_all;
use result_rows::{Outcome, Outcomes};

impl<const B: usize, const M: usize, const E: usize> Timed<B, M, E> {
    /// A write of a bank line arrives now; the number of its row is above those of all before it.
    pub fn arrive_write<R: Outcomes<B>>(&mut self, entry: Entry<B>, results: &mut R)
        requires going { (array : ArrayState B M) × IsGoing self.old array (R.table results.old) }
        requires exists { entry.line < bank_lines self.old.bank.kept.shape }
        requires rises { self.old.bank.rows_below ≤ entry.row }
        requires masked { IsMasked B entry.bytes entry.given }
        requires fresh { IsOpen (R.table results.old) entry.row }
        ensures arrives { (array : ArrayState B M)
            → Arrives entry.entry.row
            (Write entry.entry.row entry.entry.line entry.entry.bytes entry.entry.given
            (write_from self.old.bank entry.entry.line))
            (λ xs. []) self.old self.new array array (R.table results.old) (R.table results.new) }
        ensures goes_on { R.goes_on results.old results.new }
    {
        let row = entry.row;
        match self.bank.write(entry) {
            Arrived::Accepted => self.arrive_last(),
            Arrived::Merged { row: old, index } => {
                results.set(old, Outcome::Merged { tick: self.tick });
                self.arrive_again(index);
            }
            Arrived::Full => results.set(row, Outcome::Full { tick: self.tick }),
            Arrived::Exhausted => results.set(row, Outcome::Worn { tick: self.tick }),
        }
    }

    // The last entry of the queue arrived now.
    fn arrive_last(&mut self)
        requires room { length self.old.arrivals < self.old.bank.kept.shape.writes }
        ensures { self.new ≡ with_arrivals (self.old.arrivals ++ self.old.tick ∷ []) self.old }
    {
        match self.arrivals.try_push_back(self.tick) {
            Ok(()) => {}
            Err(_) => unreachable!(),
        }
    }

    // The entry of the queue at an index, into which a write was merged, arrived now.
    fn arrive_again(&mut self, index: usize)
        requires there { index < length self.old.arrivals }
        ensures { self.new
            ≡ with_arrivals (slice_set self.old.arrivals index self.old.tick) self.old }
    {
        let Some(tick) = self.arrivals.get_mut(index) else {
            unreachable!()
        };
        *tick = self.tick;
    }

    /// A read of a bank line arrives now, with its row's number, above those of all before it. One that waits on the line of a
    /// store that is just being begun drops that begin, whose queue entry it might miss.
    pub fn arrive_read<A: CellArray<B, M>, R: Outcomes<B>>(
        &mut self,
        array: &mut A,
        row: u32,
        line: u32,
        results: &mut R,
    )
        requires going { IsGoing self.old (A.state array.old) (R.table results.old) }
        requires exists { line < bank_lines self.old.bank.kept.shape }
        requires rises { self.old.bank.rows_below ≤ row }
        requires fresh { IsOpen (R.table results.old) row }
        ensures arrives { Arrives row (Read row line (read_from self.old.bank line))
            (λ xs. cancel_first xs self.old line) self.old self.new
            (A.state array.old) (A.state array.new)
            (R.table results.old) (R.table results.new) }
        ensures goes_on { R.goes_on results.old results.new }
    {
        if self.cancels_for(line) {
            self.read_cancelled(array, row, line);
        } else {
            self.take_read(row, line, results);
        }
    }

    // A read that cancels what runs of a line write, and then waits.
    fn read_cancelled<A: CellArray<B, M>>(&mut self, array: &mut A, row: u32, line: u32)
        requires led { (xs : List (TimedEvent B M)) × Leads xs self.old (A.state array.old) }
        requires exists { line < bank_lines self.old.bank.kept.shape }
        requires rises { self.old.bank.rows_below ≤ row }
        requires cancels { IsTrue (cancels_for self.old line) }
        ensures arrives { (results : List (RowOutcome B)) → AreOpen self.old.bank results
            → IsOpen results row
            → Arrives row (Read row line (read_from self.old.bank line))
            (λ xs. cancel_by self.old.regs.change xs self.old ∷ []) self.old self.new
            (A.state array.old) (A.state array.new) results results }
    {
        self.cancel(array, line);
        self.bank.read(row, line);
    }

    // A read that leaves what runs, or drops a begin.
    fn take_read<R: Outcomes<B>>(&mut self, row: u32, line: u32, results: &mut R)
        requires led { (xs : List (TimedEvent B M)) × (array : ArrayState B M)
            × Leads xs self.old array }
        requires exists { line < bank_lines self.old.bank.kept.shape }
        requires rises { self.old.bank.rows_below ≤ row }
        requires quiet { cancels_for self.old line ≡ false }
        requires unset { AreOpen self.old.bank (R.table results.old) }
        requires fresh { IsOpen (R.table results.old) row }
        ensures arrives { (array : ArrayState B M)
            → Arrives row (Read row line (read_from self.old.bank line)) (λ xs. [])
            self.old self.new array array (R.table results.old) (R.table results.new) }
        ensures goes_on { R.goes_on results.old results.new }
    {
        let drops = self.begins_store_of(line);
        match self.bank.read(row, line) {
            ReadAnswer::Forwarded(bytes) => results.set(
                row,
                Outcome::Forwarded {
                    tick: self.tick,
                    bytes,
                },
            ),
            ReadAnswer::Waiting => self.action = unless(drops, self.action),
            ReadAnswer::Busy => results.set(row, Outcome::Busy { tick: self.tick }),
        }
    }

    // Whether a read of a line would cancel what runs.
    fn cancels_for(&self, line: u32) -> bool
        ensures { result ≡ cancels_for self.now line }
    {
        if !self.pace.policy.cancels() || !is_writing(self.action) || self.bank.waiting() > 0 {
            return false;
        }
        if self.cancels >= 4 {
            return false;
        }
        let (_bytes, given) = self.bank.kept().newest(line);
        !has_all(&given)
    }

    // Whether the begin of a store of a line runs.
    fn begins_store_of(&self, line: u32) -> bool
        ensures { result ≡ drops self.now.bank.kept self.now.regs.change line self.now.action }
    {
        match self.regs.change() {
            Some(_) => false,
            None => self.begins_work_of(line),
        }
    }

    // Whether the bank's next work is one, and its begin runs.
    fn begins_work_of(&self, line: u32) -> bool
        ensures { result ≡ is_doing Beginning self.now.action
            && is_store_of line (next_work self.now.bank.kept) }
    {
        match self.action {
            Some(
                Action {
                    doing: Doing::Beginning,
                    ..
                },
            ) => is_store_of(self.bank.kept().next_work(), line),
            _ => false,
        }
    }
}

// Whether a work is a store of a line.
fn is_store_of(work: Work, line: u32) -> bool
    ensures { result ≡ is_store_of line work }
{
    match work {
        Work::Store { line: at, .. } => at == line,
        _ => false,
    }
}

// An action, unless it is dropped.
fn unless(drops: bool, action: Option<Action>) -> Option<Action>
    ensures { result ≡ (if drops then None else action) }
{
    if drops { None } else { action }
}

// Whether a begin or an iteration of a line write runs.
fn is_writing(action: Option<Action>) -> bool
    ensures { result ≡ is_writing action }
{
    match action {
        Some(
            Action {
                doing: Doing::Serving,
                ..
            },
        ) => false,
        Some(_) => true,
        None => false,
    }
}
