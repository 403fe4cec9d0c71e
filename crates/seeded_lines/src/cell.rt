// One cell of a line, and where a mask of cells ends.
ghost use Rattle.std.specs.Prelude.{◌≡◌, ℕ, ◌+◌, ◌*◌, ◌≤◌, false};
ghost use Rattle.cell_rows.specs.Rows.{cell};

use cell_rows::Cells;

/// Past its end a mask has no cell, which a caller's contract may say by this call.
pub fn has_end<const B: usize, const M: usize>(mask: &Cells<B, M>)
    ensures { (n : ℕ) → 8 * (B + M) ≤ n → cell mask.now n ≡ false }
{
    let (_bits, _meta) = (&mask.bits[..], &mask.meta[..]);
}

/// One cell: what it holds, whether it is stuck at that, and how often it missed
/// since it last changed, 0 to 7.
#[derive(Clone, Copy, Drop)]
pub struct CellState {
    pub value: bool,
    pub stuck: bool,
    pub misses: u8,
}
