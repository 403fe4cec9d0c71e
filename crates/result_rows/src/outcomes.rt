// What is told each row's outcome.
ghost use Rattle.std.specs.Prelude.{◌≡◌, Some, IsTrue, is_some};
ghost use Rattle.result_rows.specs.declared.Outcome.TheVariants.{Unset};
ghost use Rattle.result_rows.specs.Outcomes.{op_of};
ghost use Rattle.result_rows.specs.Table.{HasRow, outcome_at, with_outcome};

use crate::{Outcome, Results};

/// What is told the outcomes of a run's rows, as they become known: each row's once. It may keep them, as a table does, or hand
/// them on.
pub trait Outcomes<const B: usize> {
    ghost use Rattle.std.specs.Prelude.{List};
    ghost use Rattle.result_rows.specs.declared.Outcome.{Outcome};

    // The outcomes that were told so far, in a table with a place for each row.
    ghost table: { Self → List (Outcome B) };

    // What is told now is what was told before, and went on.
    ghost goes_on: { Self → Self → Type 0 };

    /// Says what became of a row.
    fn set(&mut self, row: u32, outcome: Outcome<B>)
        requires exists { HasRow (table self.old) row }
        requires unset { outcome_at (table self.old) row ≡ Some Unset }
        requires told { IsTrue (is_some (op_of outcome)) }
        ensures table { table self.new ≡ with_outcome (table self.old) row outcome.entry }
        ensures goes_on { goes_on self.old self.new };

    // It goes on where nothing more is told, and as far as two that follow each other.
    ghost stands: { (one : Self) → goes_on one one };

    ghost follows: { (one two three : Self) → goes_on one two → goes_on two three
        → goes_on one three };
}

impl<const B: usize> Outcomes<B> for Results<B> {
    ghost table = { λ results. results };

    ghost goes_on = { λ old new. Unit {0} };

    ghost stands = { λ one. tt };

    ghost follows = { λ one two three before behind. tt };

    fn set(&mut self, row: u32, outcome: Outcome<B>)
        requires exists { HasRow self.old row }
        requires unset { outcome_at self.old row ≡ Some Unset }
        requires told { IsTrue (is_some (op_of outcome)) }
        ensures table { self.new ≡ with_outcome self.old row outcome.entry }
        ensures goes_on { Unit {0} }
    {
        Results::set(self, row, outcome);
    }
}
