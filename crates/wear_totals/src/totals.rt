// Totals of an array, and what a change of one line makes of them.
ghost use Rattle.std.specs.Prelude.{◌≡◌, ◌+◌, ◌<◌, ◌≤◌, ◌^◌};
ghost use Rattle.cell_rows.specs.Energy.{with_sense};
ghost use Rattle.wear_totals.specs.Totals.{energy_grown, grown, renewed, wear_by};
ghost use Rattle.wear_totals.specs.Wear.{mean_of};

use crate::line::LineTotals;
use cell_rows::LineEnergy;
use row_printer::ArrayWear;

// What the lines of an array have together.
#[derive(Clone, Copy, Drop)]
pub(crate) struct Totals {
    // The pulses of all lines, up to the greatest u64.
    pub(crate) pulses: u64,
    // The pulses of the line that has most.
    pub(crate) most: u64,
    // The pointers that are active by the check cells of their lines.
    pub(crate) pointers: u64,
    // How often all lines were sensed and their cells driven, where the array tells it.
    pub(crate) energy: Option<LineEnergy>,
}

fn grown(sum: u64, before: u64, behind: u64) -> u64
    ensures { result ≡ grown sum before behind }
{
    sum.saturating_add(behind.saturating_sub(before))
}

fn energy_grown(
    sum: Option<LineEnergy>,
    before: Option<LineEnergy>,
    behind: Option<LineEnergy>,
) -> Option<LineEnergy>
    ensures { result ≡ energy_grown sum before behind }
{
    let sum = sum?;
    let before = before?;
    let behind = behind?;
    Some(LineEnergy {
        set: grown(sum.set, before.set, behind.set),
        reset: grown(sum.reset, before.reset, behind.reset),
        senses: grown(sum.senses, before.senses, behind.senses),
    })
}

// The totals behind a pulse or a tear, by what its line had before and has behind it.
pub(crate) fn renewed(totals: &Totals, before: &LineTotals, behind: &LineTotals) -> Totals
    requires has { before.now.pointers ≤ totals.now.pointers }
    requires few { totals.now.pointers ≤ 2 ^ 40 }
    ensures { result ≡ renewed totals.now before.now behind.now }
{
    Totals {
        pulses: grown(totals.pulses, before.pulses, behind.pulses),
        most: totals.most.max(behind.pulses),
        pointers: totals.pointers - before.pointers as u64 + behind.pointers as u64,
        energy: energy_grown(totals.energy, before.energy, behind.energy),
    }
}

fn sensed(energy: Option<LineEnergy>) -> Option<LineEnergy>
    ensures { result ≡ with_sense energy }
{
    let energy = energy?;
    Some(LineEnergy {
        set: energy.set,
        reset: energy.reset,
        senses: energy.senses.saturating_add(1),
    })
}

// The totals behind a sense.
pub(crate) fn with_sense(totals: &Totals) -> Totals
    ensures { result ≡ record totals.now { energy = with_sense totals.now.energy } }
{
    Totals {
        pulses: totals.pulses,
        most: totals.most,
        pointers: totals.pointers,
        energy: sensed(totals.energy),
    }
}

fn mean(pulses: u64, lines: u32) -> u64
    ensures { result ≡ mean_of pulses lines }
{
    if lines == 0 { 0 } else { pulses / lines as u64 }
}

// How worn an array of so many lines is whose lines have this together.
pub(crate) fn wear_by(totals: &Totals, lines: u32) -> ArrayWear
    ensures { result ≡ wear_by totals.now lines }
{
    ArrayWear {
        pulses: totals.pulses,
        most: totals.most,
        mean: mean(totals.pulses, lines),
        pointers: totals.pointers,
        energy: totals.energy,
    }
}
