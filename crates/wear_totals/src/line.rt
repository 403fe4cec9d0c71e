// What one line of an array counts for in its totals.
ghost use Rattle.std.specs.Prelude.{◌≡◌, ℕ, ◌+◌, ◌*◌, ◌<◌, ◌≤◌, ◌^◌, false};
ghost use Rattle.cell_rows.specs.Rows.{cell};
ghost use Rattle.cell_rows.specs.Shape.{IsShape};
ghost use Rattle.ecp_line.specs.Layout.{IsLayout};
ghost use Rattle.wear_totals.specs.Totals.{line_totals, pointers_at};

use cell_rows::{Cells, LineEnergy, TellsCells};
use ecp_line::Ecp;

// What one line has; its pointers are left out where its check cells stay as they are.
#[derive(Clone, Copy, Drop)]
pub(crate) struct LineTotals {
    pub(crate) pulses: u64,
    pub(crate) pointers: u8,
    pub(crate) energy: Option<LineEnergy>,
}

// Whether a mask has check cells.
pub(crate) fn has_check_cells<const B: usize, const M: usize>(mask: &Cells<B, M>) -> bool
    requires shape { IsShape B M }
    ensures { result ≡ false → (n : ℕ) → 8 * B ≤ n → n < 8 * (B + M) → cell mask.now n ≡ false }
{
    for group in B..B + M {
        if !mask.is_clear(group) {
            return true;
        }
    }
    false
}

// The pointers that are active by the check cells of a line, where they are asked for.
fn pointers_at<A: TellsCells<B, M>, const B: usize, const M: usize, const E: usize>(
    array: &A,
    line: u32,
    asked: bool,
) -> u8
    requires exists { line < (A.state array.now).lines }
    requires layout { IsLayout B M E }
    ensures { result ≡ pointers_at E asked (A.state array.now) line }
{
    if asked {
        let held = array.held(line);
        Ecp::<B, M, E>::active(&held)
    } else {
        0
    }
}

// What one line has.
pub(crate) fn look<A: TellsCells<B, M>, const B: usize, const M: usize, const E: usize>(
    array: &A,
    line: u32,
    touched: bool,
) -> LineTotals
    requires exists { line < (A.state array.now).lines }
    requires layout { IsLayout B M E }
    ensures is { result ≡ line_totals E touched (A.state array.now) line }
    ensures fits { result.pulses < 2 ^ 64 }
{
    LineTotals {
        pulses: array.pulses(line),
        pointers: pointers_at::<A, B, M, E>(array, line, touched),
        energy: array.energy(line),
    }
}
