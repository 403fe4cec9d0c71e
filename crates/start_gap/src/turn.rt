// A full turn of n lines is n*(n+1) gap moves.
ghost use Rattle.std.specs.Prelude.{◌≡◌, ℕ, ◌+◌, ◌*◌, ◌^◌, ◌<◌, ◌≤◌};
ghost use Rattle.start_gap.specs.Rotation.{turn};
ghost use Rattle.start_gap.specs.Turn.{IsOnlyMove, HasEachPairOnce};

/// The number of the gap move that copies a line of a region of n lines into a place, among the n*(n+1) successive moves
/// from the number `first` on. There is exactly one, since n and n+1 share no factor.
pub fn find_move(n: u32, first: u64, line: u32, place: u32) -> u64
    requires some_lines { 1 ≤ n }
    requires fits { first + turn n ≤ 2 ^ 64 }
    requires line_exists { line < n }
    requires place_exists { place ≤ n }
    ensures { IsOnlyMove n first line place result }
{
    let lines = n as u64;
    let turn = lines * (lines + 1);
    let in_round = lines - place as u64;
    let start = (lines - 1 - line as u64 + lines - in_round) % lines;
    let number = start * (lines + 1) + in_round;
    let passed = first % turn;
    if number < passed {
        first + (turn - passed + number)
    } else {
        first + (number - passed)
    }
}

/// The law of the full turn: any n*(n+1) successive gap moves copy each line once into each place, whatever n and the
/// number of moves before.
pub fn each_pair_once()
    ensures { (n first : ℕ) → 1 ≤ n → HasEachPairOnce n first }
{}
