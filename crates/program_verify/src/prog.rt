// One programming of a line, round by round.
ghost use Rattle.std.specs.Prelude.{◌≡◌, ℕ, ◌+◌, ◌<◌};
ghost use Rattle.cell_rows.specs.Device.{LineState};
ghost use Rattle.cell_rows.specs.Rows.{cell};
ghost use Rattle.cell_rows.specs.Shape.{IsShape};
ghost use Rattle.program_verify.specs.Programming.{is_wrong, Programs, IsGoing, IsStatus, IsStuckWhereWrong, IsRound, IsTear};

use cell_rows::{CellArray, Cells};

// The greatest number of rounds.
const ROUNDS: u8 = 8;

/// A programming of one line: what the line was last seen to hold, which of its cells are wanted at which values, and the rounds made.
#[derive(Drop)]
pub struct Prog<const B: usize, const M: usize> {
    seen: Cells<B, M>,
    want: Cells<B, M>,
    which: Cells<B, M>,
    rounds: u8,
}

/// Whether a round is left to make.
#[derive(Drop)]
pub enum Turn<const B: usize, const M: usize> {
    /// A wanted cell differs, and fewer than eight rounds were made.
    Going,
    /// No wanted cell differs, or eight rounds were made.
    Settled {
        /// The mask of the wanted cells that still differ. Each of them is stuck.
        wrong: Cells<B, M>,
    },
}

impl<const B: usize, const M: usize> Prog<B, M> {
    /// A programming of a line that holds `seen`, of the cells `which`, to their values in `want`.
    #[inline(always)]
    pub fn new(seen: Cells<B, M>, want: Cells<B, M>, which: Cells<B, M>) -> Prog<B, M>
        ensures made { result ≡ record {
          seen = seen.entry;
          want = want.entry;
          which = which.entry;
          rounds = 0;
        } }
        ensures programs { (line : LineState B M) → line.held ≡ seen.entry → Programs result line }
    {
        Prog {
            seen,
            want,
            which,
            rounds: 0,
        }
    }

    /// What the line was last seen to hold.
    pub fn seen(&self) -> &Cells<B, M>
        ensures { result.now ≡ self.now.seen }
    {
        &self.seen
    }

    // The wanted cells that differ.
    fn wrong(&self) -> Cells<B, M>
        ensures { (n : ℕ) → cell result n ≡ is_wrong self.now n }
    {
        self.which.meet(&self.seen.differ(&self.want))
    }

    /// Whether a round is left to make, and which cells are left wrong if none is.
    pub fn status(&self) -> Turn<B, M>
        ensures status { IsStatus self.now result }
        ensures stuck { (line : LineState B M) → Programs self.now line
            → IsStuckWhereWrong line result }
    {
        let wrong = self.wrong();
        if self.rounds < ROUNDS && !wrong.is_none() {
            Turn::Going
        } else {
            Turn::Settled { wrong }
        }
    }

    /// One round: a pulse of exactly the wanted cells that differ, and a sense of the line.
    pub fn step<A: CellArray<B, M>>(&mut self, array: &mut A, line: u32, tick: u64) -> Turn<B, M>
        requires exists { line < (A.state array.old).lines }
        requires shape { IsShape B M }
        requires going { IsGoing self.old }
        requires line { Programs self.old ((A.state array.old).line line) }
        ensures round { IsRound line tick self.old self.new (A.state array.old)
            (A.state array.new) }
        ensures line { Programs self.new ((A.state array.new).line line) }
        ensures status { IsStatus self.new result }
        ensures stuck { IsStuckWhereWrong ((A.state array.new).line line) result }
    {
        array.pulse(line, &self.wrong(), &self.want, tick);
        self.seen = array.sense(line, tick);
        self.rounds += 1;
        self.status()
    }

    /// A round that a power cut breaks off: one tear with the mask that `step` would pulse.
    pub fn tear<A: CellArray<B, M>>(self, array: &mut A, line: u32, tick: u64)
        requires exists { line < (A.state array.old).lines }
        requires shape { IsShape B M }
        requires going { IsGoing self }
        requires line { Programs self ((A.state array.old).line line) }
        ensures { IsTear line self.entry (A.state array.old) (A.state array.new) }
    {
        array.tear(line, &self.wrong(), &self.want, tick);
    }
}
