// Rows that stand in a bank.
ghost use Rattle.std.specs.Prelude.{◌≡◌, ◌==◌, ◌||◌};
ghost use Rattle.std.specs.List.{list_any};
ghost use Rattle.masked_bytes.specs.Entries.{has_row};

use crate::bank::Bank;

impl<const B: usize, const M: usize, const E: usize> Bank<B, M, E> {
    /// Whether a row stands here: its write in the queue, or its read among those that wait.
    pub fn stands(&self, row: u32) -> bool
        ensures { result
            ≡ (has_row self.now.kept.entries row || list_any (λ w. w.row == row) self.now.waiting) }
    {
        self.is_queued(row) || self.is_waiting(row)
    }

    // Whether a write of this row stands in the queue.
    fn is_queued(&self, row: u32) -> bool
        ensures { result ≡ has_row self.now.kept.entries row }
    {
        for index in 0..self.kept.len() {
            let Some(entry) = self.kept.at(index) else {
                unreachable!()
            };
            if entry.row == row {
                return true;
            }
        }
        false
    }

    // Whether a read of this row waits.
    fn is_waiting(&self, row: u32) -> bool
        ensures { result ≡ list_any (λ w. w.row == row) self.now.waiting }
    {
        for index in 0..self.waiting.len() {
            let Some(read) = self.waiting.get(index) else {
                unreachable!()
            };
            if read.row == row {
                return true;
            }
        }
        false
    }
}
