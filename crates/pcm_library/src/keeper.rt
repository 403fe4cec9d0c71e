// What keeps outcomes until they are taken.
ghost use Rattle.std.specs.Prelude.{◌≡◌, ◌+◌, ◌<◌, ◌≤◌, [], ◌∷◌, ◌++◌, Some, IfNone, IfOk, OnErr, OnOk, IsTrue, false, is_some, length, option_to_list};
ghost use Rattle.std.specs.VecDeque.{deque_capacity, deque_len};
ghost use Rattle.result_rows.specs.declared.Outcome.TheVariants.{Unset};
ghost use Rattle.result_rows.specs.Outcomes.{op_of};
ghost use Rattle.result_rows.specs.Table.{HasRow, outcome_at, with_outcome};
ghost use Rattle.row_printer.specs.Printing.{table_told};
ghost use Rattle.row_printer.specs.Telling.{outcomes_in, TellsOnce};
ghost use Rattle.row_printer.specs.declared.told.Shown.TheVariants.{Nothing};
ghost use Rattle.row_printer.specs.declared.told.Told.TheVariants.{Settled};
ghost use Rattle.pcm_library.specs.Keeping.{IsToldTo, KeepsOn, kept_of, open_in};

use ghost_list::GhostList;
use result_rows::{Outcome, Outcomes};
use row_printer::Told;
use std::alloc::{AllocError, Global};
use std::collections::VecDeque;
use std::marker::Model;

/// What became of a row.
#[derive(Clone, Copy, Drop)]
pub struct KeptOutcome<const B: usize> {
    /// The row's number, from 1.
    pub row: u32,
    pub outcome: Outcome<B>,
}

/// Keeps outcomes, in the order in which they are told, until they are taken. A row comes only where there is room for its outcome, so none
/// is lost.
#[derive(Drop)]
pub struct Keeper<const B: usize> {
    waiting: VecDeque<KeptOutcome<B>>,
    // So many have room from the beginning.
    room: usize,
    // How many rows came.
    rows: u32,
    // How many of them have no outcome yet.
    untold: u32,
    // Whether an outcome was told since it began to listen.
    heard: bool,
    // For contracts alone: one byte each.
    told: GhostList<Told<B>>,
    taken: GhostList<KeptOutcome<B>>,
}

impl<const B: usize> Model for Keeper<B> {
    ghost use Rattle.std.specs.Prelude.{[], false};
    ghost use Rattle.std.specs.VecDeque.{deque_capacity};
    ghost use Rattle.row_printer.specs.Printing.{Printing};
    ghost use Rattle.row_printer.specs.declared.told.Shown.TheVariants.{Nothing};
    ghost use Rattle.pcm_io.specs.Reserved.{reserved};
    ghost use Rattle.ghost_list.specs.Items.{items};
    ghost use Rattle.pcm_library.specs.Keeping.{Waiting, IsKept};

    // A printer that prints nothing, to the queue of what waits.
    ghost Value = { Printing B (Waiting B) };

    ghost view = { λ k. record {
      sink = record { taken = items k.taken; waiting = k.waiting.items; room = k.room };
      text = reserved 0;
      told = items k.told;
      snapshots = [];
      rows = k.rows;
      prints = Nothing;
      broken = false;
      heard = k.heard;
    } };

    ghost invariant = { λ k. IsKept {n = B} (deque_capacity k.waiting) k.untold k.rows
        (items k.told)
        (record { taken = items k.taken; waiting = k.waiting.items; room = k.room }) };
}

// Puts an outcome behind those that wait.
fn keep<const B: usize>(waiting: &mut VecDeque<KeptOutcome<B>>, row: u32, outcome: &Outcome<B>)
    requires few { B ≤ 128 }
    requires room { deque_len waiting.old < deque_capacity waiting.old }
    ensures items { waiting.new.items ≡ waiting.old.items ++ kept_of row outcome.now ∷ [] }
    ensures capacity { deque_capacity waiting.new ≡ deque_capacity waiting.old }
{
    let kept = KeptOutcome {
        row,
        outcome: *outcome,
    };
    waiting.push_back_reserved(kept);
}

impl<const B: usize> Keeper<B> {
    /// One that was told nothing, with room for so many outcomes.
    pub fn new(alloc: Global, room: usize) -> Result<Keeper<B>, AllocError>
        requires { B ≤ 128 }
        ensures rows { IfOk result (λ k. k.rows ≡ 0) }
        ensures told { IfOk result (λ k. k.told ≡ []) }
        ensures snapshots { IfOk result (λ k. k.snapshots ≡ []) }
        ensures taken { IfOk result (λ k. k.sink.taken ≡ []) }
        ensures waiting { IfOk result (λ k. k.sink.waiting ≡ []) }
        ensures room { IfOk result (λ k. k.sink.room ≡ room) }
    {
        Ok(Keeper {
            waiting: VecDeque::with_capacity(alloc, room)?,
            room,
            rows: 0,
            untold: 0,
            heard: false,
            told: GhostList::new(),
            taken: GhostList::new(),
        })
    }

    /// One row more came, where there is memory for its outcome: it is open until that is told.
    pub fn add_row(&mut self) -> Result<(), AllocError>
        requires few { self.old.rows < 4294967295 }
        ensures rows { OnOk result (self.new.rows ≡ self.old.rows + 1) }
        ensures told { self.new.told ≡ self.old.told }
        ensures snapshots { self.new.snapshots ≡ self.old.snapshots }
        ensures prints { self.new.prints ≡ self.old.prints }
        ensures sink { self.new.sink ≡ self.old.sink }
        ensures table { OnOk result (table_told self.new ≡ table_told self.old ++ Unset ∷ []) }
        ensures rest { OnErr result (self.new ≡ self.old) }
        ensures full { OnErr result (self.old.sink.room
            ≤ length self.old.sink.waiting + open_in self.old) }
    {
        self.waiting.reserve(self.untold as usize + 1)?;
        self.rows += 1;
        self.untold += 1;
        Ok(())
    }

    /// Listens from now on for an outcome.
    pub fn listen(&mut self)
        ensures heard { self.new.heard ≡ false }
        ensures rows { self.new.rows ≡ self.old.rows }
        ensures told { self.new.told ≡ self.old.told }
        ensures snapshots { self.new.snapshots ≡ self.old.snapshots }
        ensures prints { self.new.prints ≡ self.old.prints }
        ensures sink { self.new.sink ≡ self.old.sink }
    {
        self.heard = false;
    }

    /// Whether an outcome was told since.
    pub fn heard(&self) -> bool
        ensures { result ≡ self.now.heard }
    {
        self.heard
    }

    /// Every bank has come to a tick.
    pub fn settled(&mut self, tick: u64)
        ensures rows { self.new.rows ≡ self.old.rows }
        ensures told { self.new.told ≡ self.old.told ++ Settled tick ∷ [] }
        ensures snapshots { self.new.snapshots ≡ self.old.snapshots }
        ensures prints { self.new.prints ≡ self.old.prints }
        ensures sink { self.new.sink ≡ self.old.sink }
    {
        self.told = self.told.and(&Told::Settled(tick));
    }

    /// Takes the first outcome that waits.
    pub fn next(&mut self) -> Option<KeptOutcome<B>>
        ensures rows { self.new.rows ≡ self.old.rows }
        ensures told { self.new.told ≡ self.old.told }
        ensures snapshots { self.new.snapshots ≡ self.old.snapshots }
        ensures prints { self.new.prints ≡ self.old.prints }
        ensures taken { self.new.sink.taken ≡ self.old.sink.taken ++ option_to_list result }
        ensures waiting { self.old.sink.waiting ≡ option_to_list result ++ self.new.sink.waiting }
        ensures none { IfNone result (self.old.sink.waiting ≡ []) }
        ensures room { self.new.sink.room ≡ self.old.sink.room }
    {
        match self.waiting.pop_front() {
            Some(kept) => {
                self.taken = self.taken.and(&kept);
                Some(kept)
            }
            None => None,
        }
    }

    /// No row was told twice, nothing is printed, and what was told is what was taken and what waits.
    pub fn tells_once(&self)
        ensures once { TellsOnce self.now.rows (outcomes_in self.now.told) }
        ensures prints { self.now.prints ≡ Nothing }
        ensures told { IsToldTo self.now.told self.now.sink }
    {
        // A field that is read makes known what is true of every keeper.
        let _ = &self.rows;
    }

    /// How many outcomes wait.
    pub fn waiting(&self) -> usize
        ensures { result ≡ length self.now.sink.waiting }
    {
        self.waiting.len()
    }

    /// How many rows came.
    pub fn rows(&self) -> u32
        ensures { result ≡ self.now.rows }
    {
        self.rows
    }
}

impl<const B: usize> Outcomes<B> for Keeper<B> {
    ghost use Rattle.pcm_library.specs.Keeping.{stands-on, follows-on};

    ghost table = { λ k. table_told k };

    ghost goes_on = { λ old new. KeepsOn old new };

    ghost stands = { λ one. stands-on one };

    ghost follows = { λ one two three before behind. follows-on one two three before behind };

    fn set(&mut self, row: u32, outcome: Outcome<B>)
        requires exists { HasRow (table_told self.old) row }
        requires unset { outcome_at (table_told self.old) row ≡ Some Unset }
        requires told { IsTrue (is_some (op_of outcome)) }
        ensures table { table_told self.new ≡ with_outcome (table_told self.old) row outcome.entry }
        ensures goes_on { KeepsOn self.old self.new }
    {
        keep(&mut self.waiting, row, &outcome);
        self.untold -= 1;
        self.heard = true;
        self.told = self.told.and(&Told::Became(row, outcome));
    }
}
