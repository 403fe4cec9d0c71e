//! How a bank takes a write.
ghost use Rattle.std.specs.Prelude.{◌≡◌, ◌<◌, ◌≤◌, List, ◌∷◌};
ghost use Rattle.masked_bytes.specs.Masked.{IsMasked};
ghost use Rattle.cell_rows.specs.Device.{ArrayState};
ghost use Rattle.power_recovery.specs.Slots.{bank_lines};
ghost use Rattle.bank_model.specs.Events.{BankEvent, Write};
ghost use Rattle.bank_invariant.specs.State.{is_storing};
ghost use Rattle.bank_invariant.specs.Tied.{IsTied};
ghost use Rattle.bank_invariant.specs.Holds.{Holds};
ghost use Rattle.bank_invariant.specs.WriteAnswers.{written};
ghost use Rattle.bank_core.specs.Steps.{write_from, after_write};
ghost use Rattle.bank_core.specs.Arriving.{answer_of, arrived_as, IsMergedAt};

use crate::bank::Bank;
use bank_shape::Work;
use masked_bytes::entry::Entry;
use protected_queue::accept::Accept;

/// What became of a write that arrived.
#[derive(Clone, Copy)]
pub enum Arrived {
    /// It stands in the queue as an entry of its own.
    Accepted,
    /// It was laid over the queue's entry at this index, the newest of its line, whose row this was.
    Merged { row: u32, index: usize },
    /// The queue is full.
    Full,
    /// A worn line had found no spare, so the bank takes no more writes.
    Exhausted,
}

impl<const B: usize, const M: usize, const E: usize> Bank<B, M, E> {
    /// A write of a bank line arrives; the number of its row is above those of all before it.
    pub fn write(&mut self, entry: Entry<B>) -> Arrived
        requires exists { entry.line < bank_lines self.old.kept.shape }
        requires rises { self.old.rows_below ≤ entry.row }
        requires masked { IsMasked B entry.bytes entry.given }
        ensures answer { answer_of result ≡ write_from self.old entry.entry.line }
        ensures index { IsMergedAt self.new.kept.entries entry.entry.row result }
        ensures bank { self.new ≡ after_write self.old entry.entry (answer_of result) }
        ensures tied { (array : ArrayState B M) → IsTied self.old array → IsTied self.new array }
        ensures holds { (h : List (BankEvent B)) (array : ArrayState B M) → Holds h self.old array
            → Holds (Write entry.entry.row entry.entry.line entry.entry.bytes entry.entry.given
            (answer_of result) ∷ h) self.new array }
    {
        self.rows_below = entry.row as u64 + 1;
        if self.kept.exhausted() {
            return Arrived::Exhausted;
        }
        let busy = self.storing();
        arrived_as(self.kept.accept(entry, busy))
    }

    // Whether the head of the queue is being stored.
    fn storing(&self) -> bool
        ensures { result ≡ is_storing self.now.running }
    {
        match &self.running {
            None => false,
            Some(running) => match running.work {
                Work::Store { .. } => true,
                _ => false,
            },
        }
    }
}

// What became of a write that the queue took so.
fn arrived_as(taken: Accept) -> Arrived
    ensures is { result ≡ arrived_as taken }
    ensures answer { answer_of result ≡ written taken }
{
    match taken {
        Accept::Pushed => Arrived::Accepted,
        Accept::Merged { row, index } => Arrived::Merged { row, index },
        Accept::Full => Arrived::Full,
    }
}
