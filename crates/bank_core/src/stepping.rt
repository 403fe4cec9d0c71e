// The line write in progress.
ghost use Rattle.std.specs.Prelude.{◌≡◌, ℕ, ◌<◌, List, [], ◌∷◌, Some, IfSome, IsTrue, false, is_some};
ghost use Rattle.cell_rows.specs.Device.{ArrayState};
ghost use Rattle.ecp_line.specs.Layout.{IsLayout};
ghost use Rattle.bank_shape.specs.Shape.{slots_of};
ghost use Rattle.line_writer.specs.Writing.{Writes};
ghost use Rattle.power_recovery.specs.Kept.{IsKept, target_slot, next_work};
ghost use Rattle.bank_model.specs.Events.{BankEvent, Iterate};
ghost use Rattle.bank_model.specs.Touching.{Touches};
ghost use Rattle.bank_invariant.specs.Tied.{IsTied};
ghost use Rattle.bank_invariant.specs.Holds.{Holds};
ghost use Rattle.bank_core.specs.Running.{running_of};
ghost use Rattle.bank_core.specs.Steps.{is_some_work};
ghost use Rattle.bank_core.specs.Stepping.{done_from, done_kept, worn_from, worn_kept, with_kept, IsWriterStep, IsIteration};

use crate::bank::{Bank, Running, Stepped};
use bank_shape::Work;
use bank_shape::answer::Step;
use cell_rows::CellArray;
use line_writer::Progress;

impl<const B: usize, const M: usize, const E: usize> Running<B, M, E> {
    // One step of the writer, on the target.
    fn step<A: CellArray<B, M>>(&mut self, array: &mut A, tick: u64) -> Progress
        requires layout { IsLayout B M E }
        requires exists { self.old.target < (A.state array.old).lines }
        requires more { self.old.writer.progress ≡ Progress.More }
        requires writes { Writes self.old.writer ((A.state array.old).line self.old.target) }
        ensures is { result ≡ self.new.writer.progress }
        ensures step { IsWriterStep tick (running_of self.old) (running_of self.new)
            (A.state array.old) (A.state array.new) }
    {
        self.writer.step(array, self.target, tick)
    }
}

impl<const B: usize, const M: usize, const E: usize> Bank<B, M, E> {
    /// One step of the line write in progress: one pulse and one sense of its line. Only after `More` is it still in progress.
    pub fn iterate<A: CellArray<B, M>>(&mut self, array: &mut A, tick: u64) -> Stepped
        requires runs { IsTrue (is_some self.old.running) }
        requires tied { IsTied self.old (A.state array.old) }
        ensures work { result.work ≡ next_work self.old.kept }
        ensures step { IfSome self.old.running (λ op. IsIteration tick op
            self.old self.new result.step (A.state array.old) (A.state array.new)) }
        ensures touches { IfSome self.old.running
            (λ op. Touches tick (op.target ∷ []) (Some op.target) false
            (A.state array.old) (A.state array.new)) }
        ensures tied { IsTied self.new (A.state array.new) }
        ensures holds { (h : List (BankEvent B)) → Holds h self.old (A.state array.old)
            → Holds (Iterate result.step ∷ h) self.new (A.state array.new) }
    {
        let work = self.work_in_progress();
        let step = self.advance(array, tick);
        Stepped { work, step }
    }

    // What the line write in progress is for.
    fn work_in_progress(&self) -> Work
        requires runs { IsTrue (is_some self.now.running) }
        ensures { IfSome self.now.running (λ op. result ≡ op.work) }
    {
        let Some(running) = &self.running else {
            unreachable!();
        };
        running.work
    }

    // Advances the running line write, as `iterate` does, whose promises on histories aren't made here.
    fn advance<A: CellArray<B, M>>(&mut self, array: &mut A, tick: u64) -> Step
        requires runs { IsTrue (is_some self.old.running) }
        requires tied { IsTied self.old (A.state array.old) }
        ensures in_range { IsKept self.old.kept }
        ensures step { IfSome self.old.running (λ op. IsIteration tick op self.old self.new result
            (A.state array.old) (A.state array.new)) }
    {
        let Some(running) = &mut self.running else {
            unreachable!();
        };
        let progress = running.step(array, tick);
        let (work, target) = (running.work, running.target);
        match progress {
            Progress::More => Step::More,
            Progress::Stored => {
                self.running = None;
                self.done(work, target)
            }
            Progress::Worn(_) => {
                self.running = None;
                let slot = self.slot_written(work);
                self.worn(slot)
            }
        }
    }

    // The slot whose array line a work writes.
    fn slot_written(&self, work: Work) -> u32
        requires next { work ≡ next_work self.now.kept }
        ensures { result ≡ target_slot self.now.kept work }
    {
        match work {
            Work::Nothing => 0,
            Work::Store { slot, .. } => slot,
            Work::Copy { region, step } => self.kept.shape().slot(region, step.to),
        }
    }

    // Ends a work that is done, whose array line was this.
    #[inline(always)]
    pub(crate) fn done(&mut self, work: Work, place: u32) -> Step
        requires some { IsTrue (is_some_work work) }
        requires next { work ≡ next_work self.old.kept }
        ensures answer { result ≡ done_from self.old.kept work place }
        ensures bank { self.new ≡ with_kept self.old (done_kept self.old.kept work) }
    {
        match work {
            Work::Nothing => unreachable!(),
            Work::Store { .. } => Step::Stored {
                row: self.kept.stored(),
                place,
            },
            Work::Copy { step, .. } => {
                self.kept.moved();
                Step::Moved(step)
            }
        }
    }

    // Retires the array line of a slot, which is worn.
    fn worn(&mut self, slot: u32) -> Step
        requires { slot < slots_of self.old.kept.shape }
        ensures answer { result ≡ worn_from self.old.kept slot }
        ensures bank { self.new ≡ with_kept self.old (worn_kept self.old.kept slot) }
    {
        match self.kept.retire(slot) {
            Ok(line) => Step::Retired { slot, line },
            Err(_) => Step::Exhausted,
        }
    }
}
