// A line write begins.
ghost use Rattle.std.specs.Prelude.{◌≡◌, ◌<◌, ◌==◌, List, [], ◌∷◌, length, slice_get, None, IfSome, false, IsTrue};
ghost use Rattle.std.specs.List.{list_any};
ghost use Rattle.cell_rows.specs.Device.{ArrayState};
ghost use Rattle.ecp_line.specs.Layout.{IsLayout};
ghost use Rattle.bank_shape.specs.Shape.{slot_at};
ghost use Rattle.bank_shape.specs.declared.Work.TheVariants.{Store, Copy};
ghost use Rattle.line_writer.specs.Writing.{HasBegun};
ghost use Rattle.power_recovery.specs.Kept.{array_line, next_work};
ghost use Rattle.bank_model.specs.Events.{BankEvent, Begin};
ghost use Rattle.bank_model.specs.Touching.{Touches};
ghost use Rattle.bank_invariant.specs.State.{may_begin, is_free, target_of};
ghost use Rattle.ecp_line.specs.Reading.{IsSoundLine};
ghost use Rattle.bank_invariant.specs.Tied.{IsTied};
ghost use Rattle.bank_invariant.specs.Holds.{Holds};
ghost use Rattle.bank_invariant.specs.Beginning.{lines_sensed};
ghost use Rattle.bank_core.specs.Running.{running_of};
ghost use Rattle.bank_core.specs.Steps.{is_some_work};
ghost use Rattle.bank_core.specs.Stepping.{step_from, left_by};
ghost use Rattle.bank_core.specs.Beginning.{IsBegin, IsOfSoundLine};

use crate::bank::{Bank, Running, Stepped};
use bank_shape::Work;
use bank_shape::answer::Step;
use cell_rows::{CellArray, Cells};
use ecp_line::Ecp;
use line_writer::{LineWriter, Progress};
use start_gap::Move;

impl<const B: usize, const M: usize, const E: usize> Bank<B, M, E> {
    /// Whether a line write may be begun: none is in progress, one is due, and for a store no read of its line waits.
    pub fn may_begin(&self) -> bool
        ensures { result ≡ may_begin self.now }
    {
        !self.running.is_some() && self.is_free(self.kept.next_work())
    }

    // Whether this work may be begun while these reads wait.
    fn is_free(&self, work: Work) -> bool
        ensures { result ≡ is_free self.now.waiting work }
    {
        match work {
            Work::Nothing => false,
            Work::Store { line, .. } => !self.awaits(line),
            Work::Copy { .. } => true,
        }
    }

    // Whether a read of this line waits.
    fn awaits(&self, line: u32) -> bool
        ensures { result ≡ list_any (λ w. w.line == line) self.now.waiting }
    {
        for index in 0..self.waiting.len() {
            let Some(read) = self.waiting.get(index) else {
                unreachable!()
            };
            if read.line == line {
                return true;
            }
        }
        false
    }

    /// Begins the next line write: senses its array line, for a copy its source first, and pulses nothing. A store's head is
    /// completed from what its array line is read as. Where that line is read as the bytes already, the write is done at once.
    pub fn begin<A: CellArray<B, M>>(&mut self, array: &mut A, tick: u64) -> Stepped
        requires ready { IsTrue (may_begin self.old) }
        requires tied { IsTied self.old (A.state array.old) }
        ensures work { result.work ≡ next_work self.old.kept }
        ensures begins { IsBegin self.old self.new result.step
            (A.state array.old) (A.state array.new) }
        ensures touches { Touches tick (lines_sensed self.old.kept (next_work self.old.kept))
            None false (A.state array.old) (A.state array.new) }
        ensures tied { IsTied self.new (A.state array.new) }
        ensures holds { (h : List (BankEvent B)) → Holds h self.old (A.state array.old)
            → Holds (Begin result.step ∷ h) self.new (A.state array.new) }
    {
        let work = self.kept.next_work();
        let step = self.begin_next(array, tick, work);
        Stepped { work, step }
    }

    // Begins this work, the next, as `begin` does, whose promises on histories aren't made here.
    fn begin_next<A: CellArray<B, M>>(&mut self, array: &mut A, tick: u64, work: Work) -> Step
        requires ready { IsTrue (may_begin self.old) }
        requires next { work ≡ next_work self.old.kept }
        requires tied { IsTied self.old (A.state array.old) }
        ensures begins { IsBegin self.old self.new result (A.state array.old) (A.state array.new) }
        ensures touches { Touches tick (lines_sensed self.old.kept (next_work self.old.kept))
            None false (A.state array.old) (A.state array.new) }
    {
        match work {
            Work::Nothing => unreachable!(),
            Work::Store { line, slot } => self.begin_store(array, tick, line, slot),
            Work::Copy { region, step } => self.begin_copy(array, tick, region, step),
        }
    }

    // Begins the store of the head, which stands in this slot.
    fn begin_store<A: CellArray<B, M>>(
        &mut self,
        array: &mut A,
        tick: u64,
        line: u32,
        slot: u32,
    ) -> Step
        requires idle { self.old.running ≡ None }
        requires next { next_work self.old.kept ≡ Store line slot }
        requires tied { IsTied self.old (A.state array.old) }
        ensures begins { IsBegin self.old self.new result (A.state array.old) (A.state array.new) }
        ensures touches { Touches tick (lines_sensed self.old.kept (Store line slot)) None false
            (A.state array.old) (A.state array.new) }
    {
        let target = self.kept.array_line(slot);
        let seen = array.sense(target, tick);
        self.start_store(line, slot, target, seen)
    }

    // Begins the copy of a gap move.
    fn begin_copy<A: CellArray<B, M>>(
        &mut self,
        array: &mut A,
        tick: u64,
        region: u32,
        step: Move,
    ) -> Step
        requires idle { self.old.running ≡ None }
        requires next { next_work self.old.kept ≡ Copy region step }
        requires tied { IsTied self.old (A.state array.old) }
        ensures begins { IsBegin self.old self.new result (A.state array.old) (A.state array.new) }
        ensures touches { Touches tick (lines_sensed self.old.kept (Copy region step)) None false
            (A.state array.old) (A.state array.new) }
    {
        let source = self
            .kept
            .array_line(self.kept.shape().slot(region, step.from));
        let target = self
            .kept
            .array_line(self.kept.shape().slot(region, step.to));
        let copied = array.sense(source, tick);
        let seen = array.sense(target, tick);
        self.start_copy(region, step, target, copied, seen)
    }

    // Starts the store of the head, whose array line holds these cells.
    fn start_store(&mut self, line: u32, slot: u32, target: u32, seen: Cells<B, M>) -> Step
        requires layout { IsLayout B M E }
        requires idle { self.old.running ≡ None }
        requires next { next_work self.old.kept ≡ Store line slot }
        requires place { target ≡ array_line self.old.kept slot }
        requires sound { IsOfSoundLine E seen }
        ensures { (old new : ArrayState B M) → (old.line target).held ≡ seen.entry
            → IsSoundLine E (old.line target) → new.line target ≡ old.line target
            → IsBegin self.old self.new result old new }
    {
        let under = Ecp::<B, M, E>::decode(&seen);
        self.kept.complete(&under);
        let bytes = self.head_bytes();
        let writer = LineWriter::begin(seen, bytes);
        let work = Work::Store { line, slot };
        self.start(Running {
            work,
            target,
            writer,
        })
    }

    // The bytes of the head.
    fn head_bytes(&self) -> [u8; B]
        requires { 0 < length self.now.kept.entries }
        ensures { IfSome (slice_get self.now.kept.entries 0) (λ head. result ≡ head.bytes) }
    {
        let Some(head) = self.kept.head() else {
            unreachable!()
        };
        head.bytes
    }

    // Starts the copy of a gap move, whose source and gap hold these cells.
    fn start_copy(
        &mut self,
        region: u32,
        step: Move,
        target: u32,
        copied: Cells<B, M>,
        seen: Cells<B, M>,
    ) -> Step
        requires layout { IsLayout B M E }
        requires idle { self.old.running ≡ None }
        requires next { next_work self.old.kept ≡ Copy region step }
        requires place { target ≡ target_of self.old.kept (Copy region step) }
        requires sound { IsOfSoundLine E seen }
        ensures { (old new : ArrayState B M)
            → (old.line (array_line self.old.kept
            (slot_at self.old.kept.shape region step.from))).held ≡ copied.entry
            → (old.line target).held ≡ seen.entry → IsSoundLine E (old.line target)
            → new.line target ≡ old.line target → IsBegin self.old self.new result old new }
    {
        let bytes = Ecp::<B, M, E>::decode(&copied);
        let writer = LineWriter::begin(seen, bytes);
        let work = Work::Copy { region, step };
        self.start(Running {
            work,
            target,
            writer,
        })
    }

    // Goes on with a line write that was just begun, or ends it where it is done. It is put in its place where it is made: a call
    // would copy it three times.
    #[inline(always)]
    fn start(&mut self, running: Running<B, M, E>) -> Step
        requires idle { self.old.running ≡ None }
        requires some { IsTrue (is_some_work running.work) }
        requires next { running.work ≡ next_work self.old.kept }
        requires begun { HasBegun running.writer.progress }
        ensures answer { result
            ≡ step_from self.old.kept (running_of running.entry) running.entry.writer.progress }
        ensures bank { self.new ≡ left_by self.old (running_of running.entry)
            (running_of running.entry) running.entry.writer.progress }
    {
        match running.writer.status() {
            Progress::More => {
                self.running = Some(running);
                Step::More
            }
            Progress::Stored => self.done(running.work, running.target),
            Progress::Worn(_) => unreachable!(),
        }
    }
}
