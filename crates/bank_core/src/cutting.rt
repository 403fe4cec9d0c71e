// A power cut.
ghost use Rattle.std.specs.Prelude.{◌≡◌, ◌+◌, ◌≤◌, List, [], ◌∷◌, length, IfSome, IsTrue, IsFalse, is_some};
ghost use Rattle.power_recovery.specs.Kept.{IsKept};
ghost use Rattle.bank_model.specs.Events.{BankEvent, Cut};
ghost use Rattle.bank_model.specs.Touching.{Touches};
ghost use Rattle.bank_invariant.specs.Tied.{IsTied};
ghost use Rattle.bank_invariant.specs.Holds.{Holds};
ghost use Rattle.bank_invariant.specs.Steps.{cut_off};
ghost use Rattle.bank_core.specs.Cutting.{stopped, reads_lost, torn_line, IsTorn};

use crate::bank::Bank;
use cell_rows::CellArray;

impl<const B: usize, const M: usize, const E: usize> Bank<B, M, E> {
    /// A power cut, in the middle of the next pulse of the line write in progress if it is `tearing`.
    pub fn cut<A: CellArray<B, M>>(&mut self, array: &mut A, tearing: bool, tick: u64)
        requires taken { length self.old.lost ≡ 0 }
        requires runs { IsTrue tearing → IsTrue (is_some self.old.running) }
        requires tied { IsTied self.old (A.state array.old) }
        ensures bank { self.new ≡ cut_off self.old }
        ensures quiet { IsFalse tearing → A.state array.new ≡ A.state array.old }
        ensures torn { IsTrue tearing
            → IfSome self.old.running (λ op. IsTorn op (A.state array.old) (A.state array.new)) }
        ensures touches { Touches tick [] (torn_line tearing self.old.running) tearing
            (A.state array.old) (A.state array.new) }
        ensures tied { IsTied self.new (A.state array.new) }
        ensures holds { (h : List (BankEvent B)) → Holds h self.old (A.state array.old)
            → Holds (Cut tearing ∷ h) self.new (A.state array.new) }
    {
        self.stop(array, tearing, tick);
        self.lose_reads();
    }

    // Ends the line write in progress, in the middle of its next pulse if it is torn.
    fn stop<A: CellArray<B, M>>(&mut self, array: &mut A, tearing: bool, tick: u64)
        requires runs { IsTrue tearing → IsTrue (is_some self.old.running) }
        requires tied { IsTied self.old (A.state array.old) }
        ensures bank { self.new ≡ stopped self.old }
        ensures in_range { IsKept self.old.kept }
        ensures room { length self.old.waiting ≤ self.old.kept.shape.reads }
        ensures quiet { IsFalse tearing → A.state array.new ≡ A.state array.old }
        ensures torn { IsTrue tearing
            → IfSome self.old.running (λ op. IsTorn op (A.state array.old) (A.state array.new)) }
    {
        if let Some(running) = self.running.take() {
            if tearing {
                running.writer.tear(array, running.target, tick);
            }
        }
    }

    // Loses each read that waits, in order.
    fn lose_reads(&mut self)
        requires room { length self.old.lost + length self.old.waiting ≤ self.old.kept.shape.reads }
        ensures { self.new ≡ reads_lost self.old }
    {
        for _ in 0..self.waiting.len() {
            if let Some(read) = self.waiting.pop_front() {
                match self.lost.try_push_back(read.row) {
                    Ok(()) => {}
                    Err(_) => unreachable!(),
                }
            }
        }
    }
}
