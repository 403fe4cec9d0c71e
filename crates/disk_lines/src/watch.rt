// What hears of the rows of a module.
ghost use Rattle.std.specs.Prelude.{◌≡◌, ◌+◌, ◌<◌, ◌≤◌, [], ◌∷◌, Some, IsTrue, is_some, if◌then◌else◌, length};
ghost use Rattle.result_rows.specs.declared.Outcome.TheVariants.{Unset};
ghost use Rattle.result_rows.specs.Outcomes.{op_of};
ghost use Rattle.result_rows.specs.Table.{HasRow, outcome_at, with_outcome};
ghost use Rattle.bank_timing.specs.Extending.{outcome_in};
ghost use Rattle.disk_lines.specs.Hearing.{HearsOn, events_in, table_in};
ghost use Rattle.disk_lines.specs.declared.watch.Heard.TheVariants.{Came as CameThen};

use ghost_list::GhostList;
use result_rows::{Outcome, Outcomes};
use std::marker::Model;
use trace_reader::Event;

/// What is heard of a module: that a row came, or what became of the row of a number.
#[derive(Clone, Copy)]
pub enum Heard<const B: usize> {
    Came(Event<B>),
    Became(u32, Outcome<B>),
}

/// Hears what becomes of a module's rows, and keeps what became of the last one. It takes no memory, however many they are.
#[derive(Drop)]
pub struct Watch<const B: usize> {
    // How many rows came.
    rows: u32,
    last: Outcome<B>,
    // For contracts alone: one byte.
    heard: GhostList<Heard<B>>,
}

impl<const B: usize> Model for Watch<B> {
    ghost use Rattle.ghost_list.specs.Items.{newest};
    ghost use Rattle.disk_lines.specs.Hearing.{Hearing, IsHearing};

    ghost Value = { Hearing B };

    ghost view = { λ w. record {
      rows = w.rows;
      last = w.last;
      heard = newest w.heard;
    } };

    ghost invariant = { λ w. IsHearing {n = B} w.rows w.last (newest w.heard) };
}

// What became of the last row, where an outcome is heard of it or of another row.
fn latest<const B: usize>(is_last: bool, outcome: &Outcome<B>, last: &Outcome<B>) -> Outcome<B>
    requires short { B ≤ 128 }
    ensures { result ≡ (if is_last then outcome.now else last.now) }
{
    if is_last { *outcome } else { *last }
}

impl<const B: usize> Watch<B> {
    /// One that heard nothing.
    pub fn new() -> Watch<B>
        requires { B ≤ 128 }
        ensures rows { result.rows ≡ 0 }
        ensures heard { result.heard ≡ [] }
    {
        Watch {
            rows: 0,
            last: Outcome::Unset,
            heard: GhostList::new(),
        }
    }

    /// One row more came: it is open until its outcome is heard.
    pub fn add(&mut self, event: &Event<B>)
        requires few { self.old.rows < 4294967295 }
        ensures rows { self.new.rows ≡ self.old.rows + 1 }
        ensures last { self.new.last ≡ Unset }
        ensures heard { self.new.heard ≡ CameThen event.now ∷ self.old.heard }
    {
        self.rows += 1;
        self.last = Outcome::Unset;
        self.heard = self.heard.and(&Heard::Came(*event));
    }

    /// How many rows came.
    pub fn rows(&self) -> u32
        ensures rows { result ≡ self.now.rows }
        ensures counted { length (events_in self.now.heard) ≡ self.now.rows }
        ensures size { length (table_in self.now.heard) ≡ self.now.rows }
    {
        self.rows
    }

    /// What became of the last row; `Unset` as long as nothing did.
    pub fn last(&self) -> &Outcome<B>
        ensures last { result.now ≡ self.now.last }
        ensures newest { outcome_in (table_in self.now.heard) self.now.rows ≡ self.now.last }
        ensures counted { length (events_in self.now.heard) ≡ self.now.rows }
    {
        &self.last
    }
}

impl<const B: usize> Outcomes<B> for Watch<B> {
    ghost use Rattle.disk_lines.specs.Hearing.{stands-on, follows-on};

    ghost table = { λ w. table_in w.heard };

    ghost goes_on = { λ old new. HearsOn old new };

    ghost stands = { λ one. stands-on one };

    ghost follows = { λ one two three before behind. follows-on one two three before behind };

    fn set(&mut self, row: u32, outcome: Outcome<B>)
        requires exists { HasRow (table_in self.old.heard) row }
        requires unset { outcome_at (table_in self.old.heard) row ≡ Some Unset }
        requires told { IsTrue (is_some (op_of outcome)) }
        ensures table { table_in self.new.heard
            ≡ with_outcome (table_in self.old.heard) row outcome.entry }
        ensures goes_on { HearsOn self.old self.new }
    {
        self.last = latest(row == self.rows, &outcome, &self.last);
        self.heard = self.heard.and(&Heard::Became(row, outcome));
    }
}
