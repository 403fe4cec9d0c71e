// A printer of rows.
ghost use Rattle.std.specs.Prelude.{◌≡◌, ℕ, ◌+◌, ◌<◌, ◌≤◌, List, [], ◌∷◌, ◌++◌, Option, Some, true, false, IsTrue, is_some, OnOk, OnErr};
ghost use Rattle.std.specs.Io.KnownBytes.{Appends};
ghost use Rattle.pcm_io.specs.Faults.{Rose};
ghost use Rattle.pcm_io.specs.Giving.{AppendsPrefix};
ghost use Rattle.pcm_io.specs.Reserved.{appended, reserved};
ghost use Rattle.result_rows.specs.declared.Outcome.TheVariants.{Unset};
ghost use Rattle.result_rows.specs.Outcomes.{op_of};
ghost use Rattle.result_rows.specs.Table.{HasRow, outcome_at, with_outcome};
ghost use Rattle.run_text.specs.Counting.{counts_of};
ghost use Rattle.run_text.specs.Shortfall.{any_short};
ghost use Rattle.row_printer.specs.declared.told.Told.{Told as Line};
ghost use Rattle.row_printer.specs.declared.told.Told.TheVariants.{Bank, Looked, Peeked, Settled};
ghost use Rattle.row_printer.specs.Telling.{outcomes_in, TellsOnce};
ghost use Rattle.row_printer.specs.declared.snapshot.Snapshot.{Snapshot as Taken};
ghost use Rattle.row_printer.specs.Snapshots.{IsShown, is_due, takes_snapshots};
ghost use Rattle.row_printer.specs.Refusing.{any_refused};
ghost use Rattle.row_printer.specs.Printing.{IsPrinting, Prints, PrintsOn, stream_text, table_told, text_told};

use crate::snapshot::{Snapshot, print_snapshot, snapshots_header};
use crate::text::{print_head, print_told};
use crate::told::{ArrayWear, Backlog, PeekedLine, Shown, Told};
use ghost_list::GhostList;
use pcm_io::{Sink, Text, WriteFault};
use result_rows::{Outcome, Outcomes};
use run_text::{OutcomeCounts, make_room, print_rest, short_rows_are_counted};
use std::marker::Model;
use text_printer::TEXT_ROOM;

/// Prints a line for each outcome that it is told, behind a header and in the order in which they are told, and counts them; it
/// keeps none. Or it prints snapshots, or nothing, and only counts. A text of 65,536 bytes is gathered and then written. After a fault of the
/// sink it prints no more, and goes on counting.
#[derive(Drop)]
pub struct RowPrinter<const B: usize, S: Sink + Drop> {
    // In a box, so that the printer has one size whatever the sink.
    sink: Box<S>,
    text: Text,
    // For contracts alone: one byte each.
    told: GhostList<Told<B>>,
    snapshots: GhostList<Snapshot>,
    // How many rows came.
    rows: u32,
    // What is printed.
    prints: Shown,
    // Whether a write failed.
    broken: bool,
    // Whether an outcome was told since it began to listen.
    heard: bool,
    counts: OutcomeCounts,
}

impl<const B: usize, S: Sink + Drop> Model for RowPrinter<B, S> {
    ghost use Rattle.ghost_list.specs.Items.{items};
    ghost use Rattle.row_printer.specs.Printing.{Printing, IsTold};

    ghost Value = { Printing B S };

    ghost view = { λ p. record {
      sink = p.sink.value;
      text = p.text;
      told = items p.told;
      snapshots = items p.snapshots;
      rows = p.rows;
      prints = p.prints;
      broken = p.broken;
      heard = p.heard;
    } };

    ghost invariant = { λ p. IsTold p.prints p.text (items p.told) p.rows p.counts };
}

impl<const B: usize, S: Sink + Drop> RowPrinter<B, S> {
    /// A printer of no row yet, which prints lines, or snapshots, or only counts. The text is what it gathers them in.
    pub fn new(sink: Box<S>, text: Text, prints: Shown) -> RowPrinter<B, S>
        requires few { B ≤ 128 }
        requires shown { IsShown prints }
        requires text { text ≡ reserved TEXT_ROOM }
        ensures told { result.told ≡ [] }
        ensures snapshots { result.snapshots ≡ [] }
        ensures rows { result.rows ≡ 0 }
        ensures prints { result.prints ≡ prints }
        ensures broken { result.broken ≡ false }
        ensures sink { result.sink ≡ sink.value }
        ensures printing { IsPrinting S.written S.faults (S.written sink.value)
            (S.faults sink.value) result }
    {
        RowPrinter {
            sink,
            text: begun::<B>(prints, text),
            told: GhostList::new(),
            snapshots: GhostList::new(),
            rows: 0,
            prints,
            broken: false,
            heard: false,
            counts: OutcomeCounts::none(),
        }
    }

    /// One row more came: it is open until its outcome is told.
    pub fn add_row(&mut self)
        requires few { self.old.rows < 4294967295 }
        ensures rows { self.new.rows ≡ self.old.rows + 1 }
        ensures told { self.new.told ≡ self.old.told }
        ensures snapshots { self.new.snapshots ≡ self.old.snapshots }
        ensures prints { self.new.prints ≡ self.old.prints }
        ensures table { table_told self.new ≡ table_told self.old ++ Unset ∷ [] }
        ensures printing { (before : Option (List ℕ)) (first : ℕ)
            → IsPrinting S.written S.faults before first self.old
            → IsPrinting S.written S.faults before first self.new }
    {
        self.rows += 1;
    }

    /// Tells that every bank has come to a tick.
    pub fn settled(&mut self, tick: u64)
        ensures rows { self.new.rows ≡ self.old.rows }
        ensures told { self.new.told ≡ self.old.told ++ Settled tick ∷ [] }
        ensures snapshots { self.new.snapshots ≡ self.old.snapshots }
        ensures prints { self.new.prints ≡ self.old.prints }
        ensures printing { (before : Option (List ℕ)) (first : ℕ)
            → IsPrinting S.written S.faults before first self.old
            → IsPrinting S.written S.faults before first self.new }
    {
        let line = Told::Settled(tick);
        self.broken = print_line(
            &line,
            self.prints,
            self.broken,
            &mut self.text,
            &mut *self.sink,
        );
        self.told = self.told.and(&line);
    }

    /// Tells what waits in a bank, which has come to a tick.
    pub fn bank(&mut self, tick: u64, backlog: Backlog)
        ensures rows { self.new.rows ≡ self.old.rows }
        ensures told { self.new.told ≡ self.old.told ++ Bank tick backlog ∷ [] }
        ensures snapshots { self.new.snapshots ≡ self.old.snapshots }
        ensures prints { self.new.prints ≡ self.old.prints }
        ensures printing { (before : Option (List ℕ)) (first : ℕ)
            → IsPrinting S.written S.faults before first self.old
            → IsPrinting S.written S.faults before first self.new }
    {
        let line = Told::Bank(tick, backlog);
        self.broken = print_line(
            &line,
            self.prints,
            self.broken,
            &mut self.text,
            &mut *self.sink,
        );
        self.told = self.told.and(&line);
    }

    /// Tells how worn the array is, where every bank has come to a tick.
    pub fn looked(&mut self, tick: u64, wear: ArrayWear)
        ensures rows { self.new.rows ≡ self.old.rows }
        ensures told { self.new.told ≡ self.old.told ++ Looked tick wear ∷ [] }
        ensures snapshots { self.new.snapshots ≡ self.old.snapshots }
        ensures prints { self.new.prints ≡ self.old.prints }
        ensures printing { (before : Option (List ℕ)) (first : ℕ)
            → IsPrinting S.written S.faults before first self.old
            → IsPrinting S.written S.faults before first self.new }
    {
        let line = Told::Looked(tick, wear);
        self.broken = print_line(
            &line,
            self.prints,
            self.broken,
            &mut self.text,
            &mut *self.sink,
        );
        self.told = self.told.and(&line);
    }

    /// Tells what a line's newest bytes are, where every bank has come to a tick.
    pub fn peeked(&mut self, tick: u64, newest: PeekedLine<B>)
        ensures rows { self.new.rows ≡ self.old.rows }
        ensures told { self.new.told ≡ self.old.told ++ Peeked tick newest.entry ∷ [] }
        ensures snapshots { self.new.snapshots ≡ self.old.snapshots }
        ensures prints { self.new.prints ≡ self.old.prints }
        ensures printing { (before : Option (List ℕ)) (first : ℕ)
            → IsPrinting S.written S.faults before first self.old
            → IsPrinting S.written S.faults before first self.new }
    {
        let line = Told::Peeked(tick, newest);
        self.broken = print_line(
            &line,
            self.prints,
            self.broken,
            &mut self.text,
            &mut *self.sink,
        );
        self.told = self.told.and(&line);
    }

    /// Listens from now on for an outcome.
    pub fn listen(&mut self)
        ensures heard { self.new.heard ≡ false }
        ensures rows { self.new.rows ≡ self.old.rows }
        ensures told { self.new.told ≡ self.old.told }
        ensures snapshots { self.new.snapshots ≡ self.old.snapshots }
        ensures prints { self.new.prints ≡ self.old.prints }
        ensures printing { (before : Option (List ℕ)) (first : ℕ)
            → IsPrinting S.written S.faults before first self.old
            → IsPrinting S.written S.faults before first self.new }
    {
        self.heard = false;
    }

    /// Whether an outcome was told since.
    pub fn heard(&self) -> bool
        ensures { result ≡ self.now.heard }
    {
        self.heard
    }

    /// Whether a snapshot is to stand behind the rows that came.
    pub fn is_due(&self) -> bool
        ensures { result ≡ is_due self.now.prints self.now.rows }
    {
        match self.prints {
            Shown::Snapshots(every) => self.rows % every == 0,
            _ => false,
        }
    }

    /// Whether snapshots are printed.
    pub fn takes_snapshots(&self) -> bool
        ensures { result ≡ takes_snapshots self.now.prints }
    {
        match self.prints {
            Shown::Snapshots(_) => true,
            _ => false,
        }
    }

    /// Takes a snapshot, which is printed where snapshots are.
    pub fn snapshot(&mut self, snapshot: &Snapshot)
        ensures rows { self.new.rows ≡ self.old.rows }
        ensures told { self.new.told ≡ self.old.told }
        ensures snapshots { self.new.snapshots ≡ self.old.snapshots ++ snapshot.now ∷ [] }
        ensures prints { self.new.prints ≡ self.old.prints }
        ensures printing { (before : Option (List ℕ)) (first : ℕ)
            → IsPrinting S.written S.faults before first self.old
            → IsPrinting S.written S.faults before first self.new }
    {
        self.broken = print_one(
            snapshot,
            self.prints,
            self.broken,
            &mut self.text,
            &mut *self.sink,
        );
        self.snapshots = self.snapshots.and(snapshot);
    }

    /// Writes what is gathered: all that was told is written then, unless a write fails now or failed before.
    pub fn flush(&mut self) -> Result<(), WriteFault>
        ensures rows { self.new.rows ≡ self.old.rows }
        ensures told { self.new.told ≡ self.old.told }
        ensures snapshots { self.new.snapshots ≡ self.old.snapshots }
        ensures prints { self.new.prints ≡ self.old.prints }
        ensures broken { OnOk result (self.new.broken ≡ false) }
        ensures text { OnOk result (self.new.text ≡ reserved TEXT_ROOM) }
        ensures printing { (before : Option (List ℕ)) (first : ℕ)
            → IsPrinting S.written S.faults before first self.old
            → IsPrinting S.written S.faults before first self.new }
        ensures ok { OnOk result ((before : Option (List ℕ)) (first : ℕ)
            → IsPrinting S.written S.faults before first self.old
            → Appends before (S.written self.new.sink) (text_told self.new)) }
        ensures err { OnErr result ((before : Option (List ℕ)) (first : ℕ)
            → IsPrinting S.written S.faults before first self.old
            → AppendsPrefix before (S.written self.new.sink) (text_told self.new)
            × Rose first (S.faults self.new.sink)) }
    {
        self.broken = print_all(self.broken, &mut self.text, &mut *self.sink);
        if self.broken {
            return Err(WriteFault);
        }
        Ok(())
    }

    /// How many rows came.
    pub fn rows(&self) -> u32
        ensures { result ≡ self.now.rows }
    {
        self.rows
    }

    /// No row was told twice.
    pub fn tells_once(&self)
        ensures { TellsOnce self.now.rows (outcomes_in self.now.told) }
    {
        // A field that is read makes known what is true of every printer.
        let _ = &self.rows;
    }

    /// Whether a write failed.
    pub fn broken(&self) -> bool
        ensures { result ≡ self.now.broken }
    {
        self.broken
    }

    /// How many rows had each outcome so far.
    pub fn counts(&self) -> OutcomeCounts
        ensures { result ≡ counts_of (table_told self.now) }
    {
        self.counts
    }

    /// Whether some row was refused so far.
    pub fn refused(&self) -> bool
        ensures { result ≡ any_refused (table_told self.now) }
    {
        self.counts.full > 0 || self.counts.worn > 0
    }

    /// Whether some row fell short of what it asked for: then a run ends with status 1.
    pub fn short(&self) -> bool
        ensures { result ≡ any_short (table_told self.now) }
    {
        short_rows_are_counted();
        self.counts.any_short()
    }

    /// Gives back the sink, and the text with what is still to be written.
    pub fn end(self) -> (Box<S>, Text)
        ensures sink { result.0.value ≡ self.sink }
        ensures text { result.1 ≡ self.text }
        ensures once { TellsOnce self.rows (outcomes_in self.told) }
    {
        let RowPrinter { sink, text, .. } = self;
        (sink, text)
    }
}

impl<const B: usize, S: Sink + Drop> Outcomes<B> for RowPrinter<B, S> {
    ghost use Rattle.row_printer.specs.GoingOn.{stands-on, follows-on};

    ghost table = { λ p. table_told p };

    ghost goes_on = { λ old new. PrintsOn S.written S.faults old new };

    ghost stands = { λ one. stands-on S.written S.faults one };

    ghost follows = { λ one two three before behind. follows-on S.written S.faults one two three
        before behind };

    fn set(&mut self, row: u32, outcome: Outcome<B>)
        requires exists { HasRow (table_told self.old) row }
        requires unset { outcome_at (table_told self.old) row ≡ Some Unset }
        requires told { IsTrue (is_some (op_of outcome)) }
        ensures table { table_told self.new ≡ with_outcome (table_told self.old) row outcome.entry }
        ensures goes_on { PrintsOn S.written S.faults self.old self.new }
    {
        let line = Told::Became(row, outcome);
        self.broken = print_line(
            &line,
            self.prints,
            self.broken,
            &mut self.text,
            &mut *self.sink,
        );
        self.counts.count(&outcome);
        self.heard = true;
        self.told = self.told.and(&line);
    }
}

// A text with what stands in front of all that is printed.
fn begun<const B: usize>(prints: Shown, text: Text) -> Text
    requires few { B ≤ 128 }
    requires text { text ≡ reserved TEXT_ROOM }
    ensures { result ≡ appended text (stream_text {n = B} prints [] []) }
{
    let mut text = text;
    match prints {
        Shown::Nothing => {}
        Shown::Rows(shape) => print_head::<B>(shape, &mut text),
        Shown::Snapshots(_) => text.push(snapshots_header()),
    }
    text
}

// Prints a line, where lines are printed, unless a write failed before; answers whether one failed.
fn print_line<const B: usize, S: Sink>(
    line: &Told<B>,
    prints: Shown,
    broken: bool,
    text: &mut Text,
    sink: &mut S,
) -> bool
    requires few { B ≤ 128 }
    requires limit { text.old.limit ≡ TEXT_ROOM }
    ensures limit { text.new.limit ≡ TEXT_ROOM }
    ensures printed { (before : Option (List ℕ)) (first : ℕ) (told : List (Line B))
        (snapshots : List Taken)
        → Prints before first (S.written sink.old) (S.faults sink.old) text.old
        (stream_text prints told snapshots) broken
        → Prints before first (S.written sink.new) (S.faults sink.new) text.new
        (stream_text prints (told ++ line.now ∷ []) snapshots) result }
{
    if broken {
        return true;
    }
    let Shown::Rows(_) = prints else {
        return false;
    };
    match make_room(text, sink) {
        Ok(()) => {
            print_told(line, text);
            false
        }
        Err(_) => true,
    }
}

// Prints a snapshot, where snapshots are printed, unless a write failed before; answers whether one failed.
fn print_one<S: Sink>(
    snapshot: &Snapshot,
    prints: Shown,
    broken: bool,
    text: &mut Text,
    sink: &mut S,
) -> bool
    requires limit { text.old.limit ≡ TEXT_ROOM }
    ensures limit { text.new.limit ≡ TEXT_ROOM }
    ensures printed { (n : ℕ) (before : Option (List ℕ)) (first : ℕ) (told : List (Line n))
        (snapshots : List Taken)
        → Prints before first (S.written sink.old) (S.faults sink.old) text.old
        (stream_text prints told snapshots) broken
        → Prints before first (S.written sink.new) (S.faults sink.new) text.new
        (stream_text prints told (snapshots ++ snapshot.now ∷ [])) result }
{
    if broken {
        return true;
    }
    let Shown::Snapshots(_) = prints else {
        return false;
    };
    match make_room(text, sink) {
        Ok(()) => {
            print_snapshot(snapshot, text);
            false
        }
        Err(_) => true,
    }
}

// Writes what is gathered, unless a write failed before; answers whether one failed.
fn print_all<S: Sink>(broken: bool, text: &mut Text, sink: &mut S) -> bool
    ensures limit { text.new.limit ≡ text.old.limit }
    ensures empty { result ≡ false → text.new ≡ reserved text.old.limit }
    ensures printed { (before : Option (List ℕ)) (first : ℕ) (whole : List ℕ)
        → Prints before first (S.written sink.old) (S.faults sink.old) text.old whole broken
        → Prints before first (S.written sink.new) (S.faults sink.new) text.new whole result }
    ensures written { result ≡ false → (before : Option (List ℕ)) (first : ℕ) (whole : List ℕ)
        → Prints before first (S.written sink.old) (S.faults sink.old) text.old whole broken
        → Appends before (S.written sink.new) whole }
{
    if broken {
        return true;
    }
    match print_rest(text, sink) {
        Ok(()) => {
            text.clear();
            false
        }
        Err(_) => true,
    }
}
