// The rows of `moves`.
ghost use Rattle.std.specs.Prelude.{◌≡◌, ℕ, ◌+◌, ◌≤◌, length};
ghost use Rattle.pcm_io.specs.Reserved.{room_in, appended};
ghost use Rattle.rotation_reports.specs.MovesText.{moves_header, move_row};

use crate::registers_after;
use pcm_io::Text;

/// Appends the first line of `moves`, with its LF.
pub fn print_moves_header(text: &mut Text)
    requires { 64 ≤ room_in text.old }
    ensures after { text.new ≡ appended text.old moves_header }
    ensures room { room_in text.old ≤ room_in text.new + 64 }
{
    text.push(b"move,line,from,to\n");
}

/// Appends the row of the gap move that comes after so many moves of a region of `lines` lines.
#[tactic(auto, using(pcm_io::proofs::DigitLemmas::ten_digits, pcm_io::proofs::DigitLemmas::twenty_digits))]
pub fn print_move_row(lines: u32, moves: u64, text: &mut Text)
    requires some_lines { 1 ≤ lines }
    requires few_lines { lines ≤ 4096 }
    requires room { 64 ≤ room_in text.old }
    ensures after { text.new ≡ appended text.old (move_row lines moves) }
    ensures room { room_in text.old ≤ room_in text.new + 64 }
{
    let next = registers_after(lines, moves).next_move();
    text.push_number_then(moves, b",");
    text.push_number_then(next.line as u64, b",");
    text.push_number_then(next.from as u64, b",");
    text.push_number_then(next.to as u64, b"\n");
}
