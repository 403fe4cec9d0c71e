// How often an array was pulsed.
ghost use Rattle.std.specs.Prelude.{◌≡◌, ◌+◌};
ghost use Rattle.run_text.specs.Pulses.{at_most_u64, pulses_in_all};

use cell_rows::CellArray;

/// The sum of two counts of pulses, which stays at the greatest u64.
pub fn add_pulses(sum: u64, pulses: u64) -> u64
    ensures { result ≡ at_most_u64 (sum + pulses) }
{
    sum.saturating_add(pulses)
}

/// The sum of the pulses of all lines of an array, which stays at the greatest u64.
pub fn sum_pulses<A: CellArray<B, M>, const B: usize, const M: usize>(array: &A) -> u64
    ensures { result ≡ pulses_in_all (A.state array.now) }
{
    let mut sum = 0;
    for line in 0..array.lines() {
        sum = add_pulses(sum, array.pulses(line));
    }
    sum
}
