// The end of an action.
ghost use Rattle.std.specs.Prelude.{◌≡◌, ◌<◌, ◌≤◌, List, None, IfSome, IsTrue, is_some, slice_get};
ghost use Rattle.bank_shape.specs.declared.clock.Doing.TheVariants.{Serving, Beginning, Iterating};
ghost use Rattle.result_rows.specs.declared.Outcome.{Outcome as RowOutcome};
ghost use Rattle.bank_shape.specs.Shape.{IsBankShape};
ghost use Rattle.register_laws.specs.Items.{items_of, item_values, region_values, spare_values, mark_values};
ghost use Rattle.clock_laws.specs.Putting.{put_if};
ghost use Rattle.bank_timing.specs.Extending.{AreOpen};
ghost use Rattle.bank_timing.specs.Completing.{MayEnd, MayComplete, Completes, IsRecordable, step_recorded, recorded_clock, with_regs, region_of, item_from, cancels_by_step, cancels_by_keep};

use crate::clocked::Timed;
use bank_core::bank::Stepped;
use bank_shape::answer::{Keep, Served, Step};
use bank_shape::clock::{Action, Doing};
use bank_shape::{BankShape, Home, Work};
use cell_rows::CellArray;
use power_recovery::kept::Kept;
use reg_lines::Change;
use region_regs::Region;
use result_rows::{Outcome, Outcomes};
use spare_pool::Remap;

impl<const B: usize, const M: usize, const E: usize> Timed<B, M, E> {
    // Completes the action that runs from now on, at its end: its event happens, and sets what outcome it makes.
    pub(crate) fn complete<A: CellArray<B, M>, R: Outcomes<B>>(
        &mut self,
        array: &mut A,
        action: Action,
        results: &mut R,
    )
        requires due { MayComplete self.old action action.doing (A.state array.old)
            (R.table results.old) }
        ensures completes { Completes self.old self.new action
            (A.state array.old) (A.state array.new)
            (R.table results.old) (R.table results.new) }
        ensures goes_on { R.goes_on results.old results.new }
    {
        match action.doing {
            Doing::Serving => self.serve(array, action, results),
            Doing::Beginning => self.begin(array, action, results),
            Doing::Iterating => self.iterate(array, action, results),
        }
    }

    // The oldest waiting read is served.
    fn serve<A: CellArray<B, M>, R: Outcomes<B>>(
        &mut self,
        array: &mut A,
        action: Action,
        results: &mut R,
    )
        requires due { MayComplete self.old action Serving (A.state array.old)
            (R.table results.old) }
        ensures completes { Completes self.old self.new action
            (A.state array.old) (A.state array.new)
            (R.table results.old) (R.table results.new) }
        ensures goes_on { R.goes_on results.old results.new }
    {
        self.tick = action.ends(self.pace.read, self.pace.iter);
        self.action = None;
        let Served { row, place, bytes } = self.bank.serve(array, self.tick);
        results.set(
            row,
            Outcome::Read {
                tick: self.tick,
                place,
                bytes,
            },
        );
    }

    // A line write begins: that of the change that stands, or else that of the bank's next work.
    fn begin<A: CellArray<B, M>, R: Outcomes<B>>(
        &mut self,
        array: &mut A,
        action: Action,
        results: &mut R,
    )
        requires due { MayComplete self.old action Beginning (A.state array.old)
            (R.table results.old) }
        ensures completes { Completes self.old self.new action
            (A.state array.old) (A.state array.new)
            (R.table results.old) (R.table results.new) }
        ensures goes_on { R.goes_on results.old results.new }
    {
        match self.regs.change() {
            Some(_) => self.begin_change(array, action),
            None => self.begin_work(array, action, results),
        }
    }

    // A line write goes on by an iteration: that of the change that stands, or else the bank's.
    fn iterate<A: CellArray<B, M>, R: Outcomes<B>>(
        &mut self,
        array: &mut A,
        action: Action,
        results: &mut R,
    )
        requires due { MayComplete self.old action Iterating (A.state array.old)
            (R.table results.old) }
        ensures completes { Completes self.old self.new action
            (A.state array.old) (A.state array.new)
            (R.table results.old) (R.table results.new) }
        ensures goes_on { R.goes_on results.old results.new }
    {
        match self.regs.change() {
            Some(_) => self.iterate_change(array, action),
            None => self.iterate_work(array, action, results),
        }
    }

    // The writing of the change begins.
    fn begin_change<A: CellArray<B, M>>(&mut self, array: &mut A, action: Action)
        requires due { MayEnd self.old action Beginning (A.state array.old) }
        requires stands { IsTrue (is_some self.old.regs.change) }
        ensures { (results : List (RowOutcome B)) → AreOpen self.old.bank results
            → Completes self.old self.new action (A.state array.old) (A.state array.new)
            results results }
    {
        self.tick = action.ends(self.pace.read, self.pace.iter);
        self.action = None;
        let keep = self.regs.begin(array, self.tick);
        self.cancels = cancels_by_keep(keep, self.cancels);
    }

    // It goes on by an iteration.
    fn iterate_change<A: CellArray<B, M>>(&mut self, array: &mut A, action: Action)
        requires due { MayEnd self.old action Iterating (A.state array.old) }
        requires stands { IsTrue (is_some self.old.regs.change) }
        ensures { (results : List (RowOutcome B)) → AreOpen self.old.bank results
            → Completes self.old self.new action (A.state array.old) (A.state array.new)
            results results }
    {
        self.tick = action.ends(self.pace.read, self.pace.iter);
        self.action = None;
        let keep = self.regs.iterate(array, self.tick);
        self.cancels = cancels_by_keep(keep, self.cancels);
    }

    // The line write of the bank's next work begins.
    fn begin_work<A: CellArray<B, M>, R: Outcomes<B>>(
        &mut self,
        array: &mut A,
        action: Action,
        results: &mut R,
    )
        requires due { MayComplete self.old action Beginning (A.state array.old)
            (R.table results.old) }
        requires alone { self.old.regs.change ≡ None }
        ensures completes { Completes self.old self.new action
            (A.state array.old) (A.state array.new)
            (R.table results.old) (R.table results.new) }
        ensures goes_on { R.goes_on results.old results.new }
    {
        self.tick = action.ends(self.pace.read, self.pace.iter);
        self.action = None;
        let Stepped { work, step } = self.bank.begin(array, self.tick);
        self.record(step, results);
        self.put(work, step);
    }

    // It goes on by an iteration.
    fn iterate_work<A: CellArray<B, M>, R: Outcomes<B>>(
        &mut self,
        array: &mut A,
        action: Action,
        results: &mut R,
    )
        requires due { MayComplete self.old action Iterating (A.state array.old)
            (R.table results.old) }
        requires alone { self.old.regs.change ≡ None }
        ensures completes { Completes self.old self.new action
            (A.state array.old) (A.state array.new)
            (R.table results.old) (R.table results.new) }
        ensures goes_on { R.goes_on results.old results.new }
    {
        self.tick = action.ends(self.pace.read, self.pace.iter);
        self.action = None;
        let Stepped { work, step } = self.bank.iterate(array, self.tick);
        self.record(step, results);
        self.put(work, step);
    }

    // A step of the bank's line write came so far: a write that is stored leaves the queue, and has its outcome.
    fn record<R: Outcomes<B>>(&mut self, step: Step, results: &mut R)
        requires unset { IsRecordable step (R.table results.old) }
        ensures clock { self.new ≡ recorded_clock step self.old }
        ensures results { (R.table results.new)
            ≡ step_recorded step self.old.tick (R.table results.old) }
        ensures goes_on { R.goes_on results.old results.new }
    {
        self.cancels = cancels_by_step(step, self.cancels);
        if let Step::Stored { row, place } = step {
            self.arrivals.pop_front();
            results.set(
                row,
                Outcome::Stored {
                    tick: self.tick,
                    place,
                },
            );
        }
    }

    // The change that a step of the bank's line write for this work brings is put, with the values that the bank keeps now.
    #[inline(always)]
    fn put(&mut self, work: Work, step: Step)
        requires free { IfSome (item_from self.old.bank.kept.shape work step)
            (λ item. self.old.regs.change ≡ None) }
        requires items { IfSome (item_from self.old.bank.kept.shape work step)
            (λ item. item < self.old.regs.items) }
        requires known { IfSome (item_from self.old.bank.kept.shape work step)
            (λ item. item < items_of self.old.bank.kept.shape) }
        requires rests { self.old.action ≡ None }
        ensures { self.new ≡ with_regs (put_if (item_from self.old.bank.kept.shape work step)
            self.old.bank.kept self.old.regs) self.old }
    {
        let shape = *self.bank.kept().shape();
        if let Some(item) = item_from(&shape, work, step) {
            let values = item_values(self.bank.kept(), item);
            self.regs.put(Change { item, values });
        }
    }
}

// How often the present line write was cancelled, after a step of the bank's.
fn cancels_by_step(step: Step, cancels: u32) -> u32
    ensures { result ≡ cancels_by_step step cancels }
{
    match step {
        Step::More => cancels,
        _ => 0,
    }
}

// How often the present line write was cancelled, after a step of the writing of a change.
fn cancels_by_keep(keep: Keep, cancels: u32) -> u32
    ensures { result ≡ cancels_by_keep keep cancels }
{
    match keep {
        Keep::More => cancels,
        _ => 0,
    }
}

// The item that a step of a line write for this work changes, if the registers are in the array.
fn item_from(shape: &BankShape, work: Work, step: Step) -> Option<u32>
    requires limits { IsBankShape shape.now }
    ensures { result ≡ item_from shape.now work step }
{
    if let Home::Guarded = shape.home {
        return None;
    }
    match step {
        Step::More => None,
        Step::Stored { .. } => Some(region_of(shape, work)),
        Step::Moved(_) => Some(region_of(shape, work)),
        Step::Retired { line, .. } => Some(shape.regions + line.saturating_sub(shape.slots())),
        Step::Exhausted => Some(shape.regions + shape.spares),
    }
}

// The region of a work.
fn region_of(shape: &BankShape, work: Work) -> u32
    requires limits { IsBankShape shape.now }
    ensures { result ≡ region_of shape.now work }
{
    match work {
        Work::Nothing => 0,
        Work::Store { line, .. } => line / shape.lines,
        Work::Copy { region, .. } => region,
    }
}

// The values of an item.
fn item_values<const B: usize>(kept: &Kept<B>, item: u32) -> [u32; 3]
    requires few { B ≤ 128 }
    requires exists { item < items_of kept.now.shape }
    ensures { result ≡ item_values kept.now item }
{
    let shape = *kept.shape();
    if item < shape.regions {
        return region_values(kept.region(item), shape.lines);
    }
    if item < shape.regions + shape.spares {
        return spare_values(kept.remap(), item - shape.regions);
    }
    mark_values(kept.exhausted())
}

// Those of a region.
fn region_values(region: &Region, lines: u32) -> [u32; 3]
    requires { lines ≡ region.now.rotation.lines }
    ensures { result ≡ region_values region.now }
{
    let registers = region.registers();
    [registers.start(), lines - registers.gap(), region.counter()]
}

// Those of a spare.
fn spare_values(remap: &Remap, spare: u32) -> [u32; 3]
    ensures { result ≡ spare_values (slice_get remap.now.replaced spare) }
{
    if spare < remap.used() {
        [remap.replaced(spare) + 1, 0, 0]
    } else {
        [0, 0, 0]
    }
}

// Those of the mark.
fn mark_values(exhausted: bool) -> [u32; 3]
    ensures { result ≡ mark_values exhausted }
{
    if exhausted { [1, 0, 0] } else { [0, 0, 0] }
}
