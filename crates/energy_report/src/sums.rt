// The sums of the counts of lines.
ghost use Rattle.std.specs.Prelude.{◌≡◌, ◌+◌, ◌≤◌};
ghost use Rattle.energy_report.specs.Sums.{energy_of, together};

use cell_rows::{LineEnergy, TellsCells};

fn together(sum: Option<LineEnergy>, more: Option<LineEnergy>) -> Option<LineEnergy>
    ensures { result ≡ together sum more }
{
    let sum = sum?;
    let more = more?;
    Some(LineEnergy {
        set: sum.set.saturating_add(more.set),
        reset: sum.reset.saturating_add(more.reset),
        senses: sum.senses.saturating_add(more.senses),
    })
}

/// The sums of the counts of so many lines, from a line on, each of which stays at the greatest u64; nothing where the array tells nothing of
/// one of them.
pub fn sum_energy<A: TellsCells<B, M>, const B: usize, const M: usize>(
    array: &A,
    from: u32,
    lines: u32,
) -> Option<LineEnergy>
    requires exist { from + lines ≤ (A.state array.now).lines }
    requires fit { from + lines ≤ 4294967295 }
    ensures { result ≡ energy_of (A.state array.now).energy from lines }
{
    let mut sum = Some(LineEnergy {
        set: 0,
        reset: 0,
        senses: 0,
    });
    for line in 0..lines {
        sum = together(sum, array.energy(from + line));
    }
    sum
}
