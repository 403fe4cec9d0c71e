//! The texts of two reports on rotation: `map`, where every line of a module stands, and `moves`, the gap moves of one
//! region over a full turn; and the row of a line of any module. Each row is put into a text that was reserved before, so that printing takes no memory.
#![tactic(auto)]

mod line_rows;
mod move_rows;

ghost use Rattle.std.specs.Prelude.{◌≡◌, ◌≤◌};
ghost use Rattle.start_gap.specs.Rotation.{IsRotation, StandsFor};

pub use line_rows::{Map, MapOptions, print_map_header, push_standing};
pub use move_rows::{print_move_row, print_moves_header};
use start_gap::Registers;

// The registers of a region of n lines after so many moves from the beginning on.
fn registers_after(n: u32, moves: u64) -> Registers
    requires some_lines { 1 ≤ n }
    requires few_lines { n ≤ 4096 }
    ensures lines { result.lines ≡ n }
    ensures stands { StandsFor result moves }
    ensures in_range { IsRotation result }
{
    let places = n as u64 + 1;
    let in_turn = moves % (n as u64 * places);
    Registers::at(n, (in_turn / places) as u32, n - (in_turn % places) as u32)
}
