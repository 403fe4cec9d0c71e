// One outcome for each row.
ghost use Rattle.std.specs.Prelude.{◌≡◌, Some, IfOk, length, replicate};
ghost use Rattle.result_rows.specs.Table.{HasRow, outcome_at, with_outcome};
ghost use Rattle.result_rows.specs.declared.Outcome.TheVariants.{Unset};

use crate::Outcome;
use std::alloc::{AllocError, Global};
use std::marker::Model;

/// The outcomes of a run's rows, numbered from 1. Its memory is taken at the start; each row is set once.
#[derive(Drop)]
pub struct Results<const B: usize> {
    outcomes: Vec<Outcome<B>>,
}

impl<const B: usize> Model for Results<B> {
    ghost use Rattle.std.specs.Prelude.{List, ◌<◌, ◌^◌, vec_len};
    ghost use Rattle.result_rows.specs.declared.Outcome.{Outcome};

    ghost Value = { List (Outcome B) };

    ghost view = { λ results. results.outcomes.items };

    ghost invariant = { λ results. vec_len results.outcomes < 2 ^ 32 };
}

impl<const B: usize> Results<B> {
    /// A table of so many rows, none of them set.
    pub fn new(alloc: Global, rows: u32) -> Result<Results<B>, AllocError>
        ensures { IfOk result (λ results. results ≡ replicate rows Unset) }
    {
        Ok(Results {
            outcomes: vec![in alloc; Outcome::Unset; rows as usize]?,
        })
    }

    /// The number of rows.
    pub fn rows(&self) -> u32
        ensures { result ≡ length self.now }
    {
        self.outcomes.len() as u32
    }

    /// Says what became of a row.
    pub fn set(&mut self, row: u32, outcome: Outcome<B>)
        requires exists { HasRow self.old row }
        requires unset { outcome_at self.old row ≡ Some Unset }
        ensures { self.new ≡ with_outcome self.old row outcome.entry }
    {
        self.outcomes[row as usize - 1] = outcome;
    }

    /// What became of a row so far.
    pub fn get(&self, row: u32) -> &Outcome<B>
        requires { HasRow self.now row }
        ensures { outcome_at self.now row ≡ Some result.now }
    {
        &self.outcomes[row as usize - 1]
    }
}
