// Arrays that tell what became of their cells.
ghost use Rattle.std.specs.Prelude.{◌≡◌, ◌<◌, ℕ, Option};

use crate::array::{CellArray, LineEnergy};
use crate::row::Cells;

/// What an array tells of the cells of one line.
#[derive(Clone, Copy, Drop, PartialEq, Eq)]
pub struct CellWear {
    /// How many of them are stuck.
    pub stuck: u32,
    /// The most changes that one of them has spent.
    pub changes: u32,
}

/// An array whose lines can be looked at without a sense, which its log would keep.
/// `changes` has the changes that each cell of a line has spent, where the array counts them.
pub trait TellsCells<const B: usize, const M: usize>: CellArray<B, M> {
    ghost use Rattle.cell_rows.specs.Shape.{IsShape};
    ghost use Rattle.cell_rows.specs.Told.{wear_told};

    ghost changes: { Self → ℕ → Option (ℕ → ℕ) };

    /// What the cells of the line hold.
    fn held(&self, line: u32) -> Cells<B, M>
        requires exists { line < (Self.state self.now).lines }
        requires shape { IsShape B M }
        ensures { result ≡ ((Self.state self.now).line line).held };

    /// How the cells of the line are worn; an array that doesn't count their changes tells nothing.
    fn cell_wear(&self, line: u32) -> Option<CellWear>
        requires exists { line < (Self.state self.now).lines }
        requires shape { IsShape B M }
        ensures { result ≡ wear_told ((Self.state self.now).line line) (changes self.now line) };

    /// How many cells of the line were driven to 1 and to 0, and how often it was sensed; an array that doesn't count them tells nothing.
    fn energy(&self, line: u32) -> Option<LineEnergy>
        requires { line < (Self.state self.now).lines }
        ensures { result ≡ (Self.state self.now).energy line };
}
