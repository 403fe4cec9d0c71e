// A power cut.
ghost use Rattle.std.specs.Prelude.{◌≡◌, ◌&&◌, not, List, [], ◌∷◌, false, None, IsTrue};
ghost use Rattle.cell_rows.specs.Device.{ArrayState};
ghost use Rattle.bank_shape.specs.declared.clock.Doing.TheVariants.{Iterating};
ghost use Rattle.bank_model.specs.Events.{BankEvent};
ghost use Rattle.bank_model.specs.Timing.{TimedEvent, is_doing};
ghost use Rattle.bank_invariant.specs.Holds.{Holds};
ghost use Rattle.bank_model.specs.Changes.{all_controls};
ghost use Rattle.bank_model.specs.Touching.{Touches};
ghost use Rattle.bank_shape.specs.declared.Home.TheVariants.{Array, Guarded};
ghost use Rattle.power_recovery.specs.Kept.{KeptState};
ghost use Rattle.power_recovery.specs.Restoring.{stripped_kept};
ghost use Rattle.reg_lines.specs.Keeping.{broken_off};
ghost use Rattle.register_laws.specs.Recovering.{IsReadable};
ghost use Rattle.clock_laws.specs.Leads.{Leads};
ghost use Rattle.clock_laws.specs.Arriving.{cancels_for};
ghost use Rattle.clock_laws.specs.Actions.{ReachesBy};
ghost use Rattle.bank_timing.specs.Cancelling.{cancel_by, cancelled_by};
ghost use Rattle.clock_laws.specs.Cutting.{cut};
ghost use Rattle.bank_timing.specs.Extending.{Extends, GoesOn, IsGoing};
ghost use Rattle.bank_timing.specs.Losing.{LosesOpen, lost_recorded, with_lost};
ghost use Rattle.bank_timing.specs.Reading.{keeping};

use crate::clocked::Timed;
use crate::recovery::recover;
use bank_shape::Home;
use bank_shape::clock::{Action, Doing};
use cell_rows::CellArray;
use result_rows::{Outcome, Outcomes};

impl<const B: usize, const M: usize, const E: usize> Timed<B, M, E> {
    /// The power is cut now: an iteration that runs is torn, any other action is dropped, and each waiting read is lost.
    pub fn power_cut<A: CellArray<B, M>, R: Outcomes<B>>(&mut self, array: &mut A, results: &mut R)
        requires going { IsGoing self.old (A.state array.old) (R.table results.old) }
        ensures ran { GoesOn self.old.tick self.old self.new (R.table results.old)
            (R.table results.new) }
        ensures extends { (xs : List (TimedEvent B M)) → Leads xs self.old (A.state array.old)
            → Extends xs (cut xs self.old (A.state array.new) ∷ []) self.old self.new
            (A.state array.old) (A.state array.new) (R.table results.old) (R.table results.new) }
        ensures kept { self.new.bank.kept ≡ self.old.bank.kept }
        ensures regs { self.new.regs ≡ broken_off self.old.regs }
        ensures goes_on { R.goes_on results.old results.new }
    {
        let stands = self.regs.change().is_some();
        let work = tears_work(self.action, stands);
        let change = tears_change(self.action, stands);
        self.action = None;
        self.cancels = 0;
        self.bank.cut(array, work, self.tick);
        self.regs.cut(array, change, self.tick);
        self.lose(results);
        self.read_back(array);
    }

    // What a bank kept is read back from its control lines, where its registers are kept there: whoever wrote them, and whatever
    // registers, counters, spares and mark it kept before, it then keeps what they and the change hold.
    fn read_back<A: CellArray<B, M>>(&mut self, array: &mut A)
        requires idle { self.old.bank.running ≡ None }
        requires served { self.old.bank.waiting ≡ [] }
        requires taken { self.old.bank.lost ≡ [] }
        requires rests { self.old.action ≡ None }
        requires readable { self.old.bank.kept.shape.home ≡ Array → (kept : KeptState B)
            × IsReadable kept (stripped_kept self.old.bank.kept) self.old.regs
            (A.state array.old) }
        ensures guarded { self.old.bank.kept.shape.home ≡ Guarded → self.new ≡ self.old }
        ensures back { self.old.bank.kept.shape.home ≡ Array → (kept : KeptState B)
            → IsReadable kept (stripped_kept self.old.bank.kept) self.old.regs
            (A.state array.old) → self.new ≡ keeping kept self.old }
        ensures touches { Touches self.old.tick (all_controls self.old.bank.kept.shape) None false
            (A.state array.old) (A.state array.new) }
    {
        match self.bank.kept().shape().home {
            Home::Guarded => {}
            Home::Array => {
                self.bank.strip();
                recover(&mut self.bank, &self.regs, array, self.tick);
            }
        }
    }

    // A read ends what runs of a line write: of the change that stands, or else of the bank. It is torn in the middle of an iteration.
    pub(crate) fn cancel<A: CellArray<B, M>>(&mut self, array: &mut A, line: u32)
        requires led { (xs : List (TimedEvent B M)) × Leads xs self.old (A.state array.old) }
        requires cancels { IsTrue (cancels_for self.old line) }
        ensures clock { self.new ≡ cancelled_by self.old.regs.change self.old }
        ensures reaches { (xs : List (TimedEvent B M)) → Leads xs self.old (A.state array.old)
            → ReachesBy self.old.bank.kept.shape xs (cancel_by self.old.regs.change xs self.old)
            self.new (A.state array.old) (A.state array.new) }
    {
        let tearing = is_iterating(self.action);
        self.action = None;
        self.cancels += 1;
        match self.regs.change() {
            Some(_) => self.regs.cut(array, tearing, self.tick),
            None => self.bank.cut(array, tearing, self.tick),
        }
    }

    // Each read that a cut took away is lost.
    fn lose<R: Outcomes<B>>(&mut self, results: &mut R)
        requires unset { LosesOpen self.old.tick self.old.bank.lost (R.table results.old) }
        ensures clock { self.new ≡ with_lost [] self.old }
        ensures results { (R.table results.new)
            ≡ lost_recorded self.old.tick self.old.bank.lost (R.table results.old) }
        ensures holds { (h : List (BankEvent B)) (array : ArrayState B M)
            → Holds h self.old.bank array
            → Holds h self.new.bank array }
        ensures goes_on { R.goes_on results.old results.new }
    {
        while let Some(row) = self.bank.take_lost() {
            results.set(row, Outcome::Lost { tick: self.tick });
        }
    }
}

// Whether an iteration runs.
fn is_iterating(action: Option<Action>) -> bool
    ensures { result ≡ is_doing Iterating action }
{
    match action {
        Some(
            Action {
                doing: Doing::Iterating,
                ..
            },
        ) => true,
        _ => false,
    }
}

// Whether a cut tears the line write of the bank's work, and whether it tears that of a change.
fn tears_work(action: Option<Action>, stands: bool) -> bool
    ensures { result ≡ (is_doing Iterating action && not stands) }
{
    if stands { false } else { is_iterating(action) }
}

fn tears_change(action: Option<Action>, stands: bool) -> bool
    ensures { result ≡ (is_doing Iterating action && stands) }
{
    if stands { is_iterating(action) } else { false }
}
