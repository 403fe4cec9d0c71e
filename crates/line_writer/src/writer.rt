// A whole write of a line.
ghost use Rattle.std.specs.Prelude.{◌≡◌, ℕ, ◌+◌, ◌-◌, ◌*◌, ◌<◌, ◌≤◌, true, false};
ghost use Rattle.cell_rows.specs.Device.{LineState};
ghost use Rattle.cell_rows.specs.Rows.{cell};
ghost use Rattle.program_verify.specs.Programming.{is_wrong, IsRound, IsTear, IsStatus, IsStuckWhereWrong};
ghost use Rattle.ecp_line.specs.Layout.{active, IsLayout, IsWanted, Sound};
ghost use Rattle.ecp_line.specs.Reading.{is_worn_line};
ghost use Rattle.line_writer.specs.Writing.{IsWriting, HasRound, IsDone, Writes, IsFillable, IsInOrder, IsPointable, IsSwitchable, IsProgress, HasBegun, IsFirst, IsWorn, steps_left, most_steps, most_entries};
ghost use Rattle.line_writer.specs.Untouched.{LeavesUnused};

use cell_rows::{CellArray, Cells};
use ecp_line::{Ecp, lowest};
use program_verify::{Prog, Turn};

/// How far a write has come.
#[derive(Clone, Copy, PartialEq, Eq, Drop)]
pub enum Progress {
    /// A step is left to make.
    More,
    /// The line is read as the bytes.
    Stored,
    /// The line can't hold the bytes, or no longer says which of its entries are active.
    Worn(Cause),
}

/// Why a line is worn.
#[derive(Clone, Copy, PartialEq, Eq, Drop)]
pub enum Cause {
    /// More cells are stuck than there are entries.
    TooMany,
    /// This cell is stuck, and should say which entries are active.
    Activity(u16),
}

#[derive(Clone, Copy, Drop)]
enum Phase {
    Clear,
    Fill,
    Point,
    Switch,
}

/// A write of `B` bytes to one line with `E` entries, to be stepped until its status is not `More`.
/// Each phase is one programming of at most eight rounds: clear the activity cells behind the first that is 0,
/// fill the sources of all bits, point the next entry at the lowest bit that is wrong, and switch that entry on.
#[derive(Drop)]
pub struct LineWriter<const B: usize, const M: usize, const E: usize> {
    prog: Prog<B, M>,
    bytes: [u8; B],
    phase: Phase,
    // The number of active entries, and while the last one is made ready, of those before it.
    entries: u8,
    progress: Progress,
}

impl<const B: usize, const M: usize, const E: usize> LineWriter<B, M, E> {
    /// A write of the bytes to a line that holds `seen`. Its status is `More` or `Stored`.
    #[inline(always)]
    pub fn begin(seen: Cells<B, M>, bytes: [u8; B]) -> LineWriter<B, M, E>
        requires { IsLayout B M E }
        ensures writes { (line : LineState B M) → line.held ≡ seen.entry
            → Sound B M E (cell line.held) line.stuck → Writes result line }
        ensures begun { (line : LineState B M) → line.held ≡ seen.entry
            → Sound B M E (cell line.held) line.stuck → HasBegun result.progress }
        ensures bytes { result.bytes ≡ bytes.entry }
        ensures steps { steps_left result ≤ most_steps E }
    {
        let (want, which) = Ecp::<B, M, E>::later(&seen);
        let entries = Ecp::<B, M, E>::active(&seen);
        if which.meet(&seen).is_none() {
            return LineWriter::filling(seen, bytes, entries);
        }
        let mut writer = LineWriter {
            prog: Prog::new(seen, want, which),
            bytes,
            phase: Phase::Clear,
            entries,
            progress: Progress::More,
        };
        let turn = writer.prog.status();
        writer.progress = writer.advance(&turn);
        writer
    }

    /// How far the write has come.
    pub fn status(&self) -> Progress
        ensures is { result ≡ self.now.progress }
        ensures progress { (line : LineState B M) → Writes self.now line
            → IsProgress self.now line result }
        ensures left { (line : LineState B M) → Writes self.now line → result ≡ Progress.More
            → 0 < steps_left self.now }
    {
        self.progress
    }

    /// One round of the present phase: one pulse of the line and one sense.
    pub fn step<A: CellArray<B, M>>(&mut self, array: &mut A, line: u32, tick: u64) -> Progress
        requires layout { IsLayout B M E }
        requires exists { line < (A.state array.old).lines }
        requires more { self.old.progress ≡ Progress.More }
        requires writes { Writes self.old ((A.state array.old).line line) }
        ensures writes { Writes self.new ((A.state array.new).line line) }
        ensures is { result ≡ self.new.progress }
        ensures progress { IsProgress self.new ((A.state array.new).line line) result }
        ensures sound { Sound B M E (cell ((A.state array.new).line line).held)
            ((A.state array.new).line line).stuck }
        ensures round { (after : Prog B M)
            × IsRound line tick self.old.prog after (A.state array.old) (A.state array.new)
            × (((A.state array.new).line line).held ≡ after.seen) }
        ensures unused { LeavesUnused E self.old.prog }
        ensures worn { IsWorn result
            → is_worn_line E ((A.state array.new).line line).held
            ((A.state array.new).line line).stuck
            ≡ true }
        ensures bytes { self.new.bytes ≡ self.old.bytes }
        ensures steps { steps_left self.new < steps_left self.old }
    {
        let turn = self.prog.step(array, line, tick);
        self.progress = self.advance(&turn);
        self.progress
    }

    /// A step that a power cut breaks off: one tear with the mask that `step` would pulse.
    pub fn tear<A: CellArray<B, M>>(self, array: &mut A, line: u32, tick: u64)
        requires layout { IsLayout B M E }
        requires exists { line < (A.state array.old).lines }
        requires more { self.progress ≡ Progress.More }
        requires writes { Writes self ((A.state array.old).line line) }
        ensures tear { IsTear line self.entry.prog (A.state array.old) (A.state array.new) }
        ensures sound { Sound B M E (cell ((A.state array.new).line line).held)
            ((A.state array.new).line line).stuck }
        ensures unused { LeavesUnused E self.entry.prog }
    {
        self.prog.tear(array, line, tick);
    }

    // Goes on to the next phase that has a cell to pulse, if the present one has settled.
    fn advance(&mut self, turn: &Turn<B, M>) -> Progress
        requires layout { IsLayout B M E }
        requires entries { self.old.entries ≤ most_entries E self.old.phase }
        ensures line { (line : LineState B M) → HasRound self.old line
            → IsStatus self.old.prog turn.now
            → IsStuckWhereWrong line turn.now
            → IsWriting self.new line × IsProgress self.new line result }
        ensures bytes { self.new.bytes ≡ self.old.bytes }
        ensures begun { (line : LineState B M) → HasRound self.old line
            → IsStatus self.old.prog turn.now
            → IsStuckWhereWrong line turn.now → self.old.phase ≡ Phase.Clear
            → self.old.prog.rounds ≡ 0
            → HasBegun result }
        ensures steps { IsStatus self.old.prog turn.now
            → steps_left self.new ≤ steps_left self.old }
    {
        let Turn::Settled { wrong } = turn else {
            return Progress::More;
        };
        match self.phase {
            Phase::Clear => self.cleared(wrong),
            Phase::Fill => self.filled(),
            Phase::Point => self.switch(),
            Phase::Switch => self.switched(),
        }
    }

    // After the rounds of `Clear`.
    fn cleared(&mut self, wrong: &Cells<B, M>) -> Progress
        requires layout { IsLayout B M E }
        requires phase { self.old.phase ≡ Phase.Clear }
        requires entries { self.old.entries ≤ E }
        ensures line { (line : LineState B M) → IsDone self.old line
            → ((n : ℕ) → cell wrong.now n ≡ is_wrong self.old.prog n)
            → IsWriting self.new line × IsProgress self.new line result }
        ensures begun { (line : LineState B M) → IsDone self.old line
            → ((n : ℕ) → cell wrong.now n ≡ is_wrong self.old.prog n)
            → ((n : ℕ) → is_wrong self.old.prog n ≡ false) → HasBegun result }
        ensures bytes { self.new.bytes ≡ self.old.bytes }
        ensures steps { steps_left self.new ≤ 8 * (3 * E + 1) + (8 - self.old.prog.rounds) }
    {
        match lowest(wrong) {
            Some(cell) => Progress::Worn(Cause::Activity(cell)),
            None => self.fill(),
        }
    }

    // A write of a line whose activity cells are in order: the sources of all bits are to be filled. Its parts are put together last,
    // and no call is lent the whole: else it would be copied five times.
    #[inline(always)]
    fn filling(seen: Cells<B, M>, bytes: [u8; B], entries: u8) -> LineWriter<B, M, E>
        requires layout { IsLayout B M E }
        requires most { entries ≤ E }
        ensures line { (line : LineState B M) → IsInOrder E seen.entry entries line
            → Writes result line × HasBegun result.progress }
        ensures bytes { result.bytes ≡ bytes.entry }
        ensures steps { steps_left result ≤ 8 + 24 * (E - entries) }
    {
        let (want, which) = Ecp::<B, M, E>::wanted(&seen, &bytes);
        let prog = Prog::new(seen, want, which);
        let progress = LineWriter::<B, M, E>::first(&prog, &seen, &bytes);
        LineWriter {
            prog,
            bytes,
            phase: Phase::Fill,
            entries,
            progress,
        }
    }

    // How far a write of a line that is to be filled has come before its first round: a cell is left to pulse, or the line is read as
    // the bytes.
    #[inline(always)]
    fn first(prog: &Prog<B, M>, seen: &Cells<B, M>, bytes: &[u8; B]) -> Progress
        requires layout { IsLayout B M E }
        requires seen { prog.now.seen ≡ seen.now }
        requires fresh { prog.now.rounds ≡ 0 }
        requires wanted { IsWanted B (active B E (cell seen.now)) (cell seen.now) bytes.now
            (cell prog.now.want) (cell prog.now.which) }
        ensures { IsFirst E prog.now bytes.now result }
    {
        match prog.status() {
            Turn::Going => Progress::More,
            Turn::Settled { .. } => match Ecp::<B, M, E>::wrong(seen, bytes) {
                None => Progress::Stored,
                Some(_) => unreachable!(),
            },
        }
    }

    // Fills the sources of all bits.
    fn fill(&mut self) -> Progress
        requires layout { IsLayout B M E }
        requires entries { self.old.entries ≤ E }
        ensures line { (line : LineState B M) → IsFillable self.old line
            → IsWriting self.new line × IsProgress self.new line result × HasBegun result }
        ensures bytes { self.new.bytes ≡ self.old.bytes }
        ensures steps { steps_left self.new ≤ 8 + 24 * (E - self.old.entries) }
    {
        *self = LineWriter::filling(*self.prog.seen(), self.bytes, self.entries);
        self.progress
    }

    // After the rounds of `Fill`.
    fn filled(&mut self) -> Progress
        requires layout { IsLayout B M E }
        requires phase { self.old.phase ≡ Phase.Fill }
        requires entries { self.old.entries ≤ E }
        ensures line { (line : LineState B M) → IsDone self.old line
            → IsWriting self.new line × IsProgress self.new line result }
        ensures bytes { self.new.bytes ≡ self.old.bytes }
        ensures steps { steps_left self.new ≤ 24 * (E - self.old.entries)
            + (8 - self.old.prog.rounds) }
    {
        match Ecp::<B, M, E>::wrong(self.prog.seen(), &self.bytes) {
            None => Progress::Stored,
            Some(_) if self.entries as usize == E => Progress::Worn(Cause::TooMany),
            Some(bit) => self.point(bit),
        }
    }

    // Points the next entry at the bit.
    fn point(&mut self, bit: u16) -> Progress
        requires layout { IsLayout B M E }
        requires entries { self.old.entries < E }
        requires data { bit < 8 * B }
        ensures line { (line : LineState B M) → IsPointable self.old bit line
            → IsWriting self.new line × IsProgress self.new line result }
        ensures bytes { self.new.bytes ≡ self.old.bytes }
        ensures steps { steps_left self.new ≤ 24 * (E - self.old.entries) }
    {
        let (want, which) = Ecp::<B, M, E>::pointer(self.prog.seen(), self.entries, bit);
        self.prog = Prog::new(*self.prog.seen(), want, which);
        self.phase = Phase::Point;
        match self.prog.status() {
            Turn::Going => Progress::More,
            Turn::Settled { .. } => self.switch(),
        }
    }

    // Switches the next entry on. Its pointer has settled; where a pointer cell is wrong, that cell pays for the entry.
    fn switch(&mut self) -> Progress
        requires layout { IsLayout B M E }
        requires entries { self.old.entries < E }
        ensures line { (line : LineState B M) → IsSwitchable self.old line
            → IsWriting self.new line × IsProgress self.new line result }
        ensures bytes { self.new.bytes ≡ self.old.bytes }
        ensures steps { steps_left self.new ≡ 24 * (E - self.old.entries) - 8 }
    {
        let cell = Ecp::<B, M, E>::switch(self.entries);
        let mut want = *self.prog.seen();
        want.set(cell, true);
        let mut which = Cells::zero();
        which.set(cell, true);
        self.prog = Prog::new(*self.prog.seen(), want, which);
        self.phase = Phase::Switch;
        Progress::More
    }

    // After the rounds of `Switch`.
    fn switched(&mut self) -> Progress
        requires layout { IsLayout B M E }
        requires phase { self.old.phase ≡ Phase.Switch }
        requires entries { self.old.entries < E }
        ensures line { (line : LineState B M) → IsDone self.old line
            → IsWriting self.new line × IsProgress self.new line result }
        ensures bytes { self.new.bytes ≡ self.old.bytes }
        ensures steps { steps_left self.new ≤ 24 * (E - self.old.entries) - 16
            + (8 - self.old.prog.rounds) }
    {
        let cell = Ecp::<B, M, E>::switch(self.entries);
        if self.prog.seen().get(cell) {
            self.entries += 1;
            self.fill()
        } else {
            Progress::Worn(Cause::Activity(cell))
        }
    }
}
