// Totals of an array, sought line by line.
ghost use Rattle.std.specs.Prelude.{◌≡◌, ◌<◌, ◌^◌, IfSome};
ghost use Rattle.ecp_line.specs.Layout.{IsLayout};
ghost use Rattle.wear_totals.specs.Totals.{AreBlank, IsTotalled, totals_of};
ghost use Rattle.wear_totals.specs.Wear.{most_pulses, pointers_of_first};

use crate::totals::Totals;
use cell_rows::{CellArray, TellsCells};
use ecp_line::Ecp;
use energy_report::sum_energy;
use run_text::sum_pulses;

// The pulses of the array line that has most.
fn most<A: CellArray<B, M>, const B: usize, const M: usize>(array: &A) -> u64
    ensures { result ≡ most_pulses (A.state array.now) }
{
    let mut most: u64 = 0;
    for line in 0..array.lines() {
        most = most.max(array.pulses(line));
    }
    most
}

// The pointers that are active by the check cells of all lines.
fn pointers<A: TellsCells<B, M>, const B: usize, const M: usize, const E: usize>(array: &A) -> u64
    requires layout { IsLayout B M E }
    ensures { result ≡ pointers_of_first E (A.state array.now) (A.state array.now).lines }
{
    let mut sum = 0;
    for line in 0..array.lines() {
        let held = array.held(line);
        sum += Ecp::<B, M, E>::active(&held) as u64;
    }
    sum
}

// What the lines of an array have together.
pub(crate) fn totals_of<A: TellsCells<B, M>, const B: usize, const M: usize, const E: usize>(
    array: &A,
) -> Totals
    requires layout { IsLayout B M E }
    ensures is { result ≡ totals_of E (A.state array.now) }
    ensures few { (A.state array.now).lines < 2 ^ 32 }
{
    let lines = array.lines();
    let pulses = sum_pulses(array);
    Totals {
        pulses,
        most: most(array),
        pointers: pointers::<A, B, M, E>(array),
        energy: sum_energy(array, 0, lines),
    }
}

// What the lines of an array have together that was just powered up.
fn fresh<A: TellsCells<B, M>, const B: usize, const M: usize, const E: usize>(array: &A) -> Totals
    requires blank { AreBlank (A.state array.now) }
    ensures is { result ≡ totals_of E (A.state array.now) }
    ensures few { (A.state array.now).lines < 2 ^ 32 }
{
    let lines = array.lines();
    Totals {
        pulses: 0,
        most: 0,
        pointers: 0,
        energy: sum_energy(array, 0, lines),
    }
}

// The totals of such an array, where some are kept.
pub(crate) fn powered<A: TellsCells<B, M>, const B: usize, const M: usize, const E: usize>(
    array: &A,
    kept: Option<Totals>,
) -> Option<Totals>
    requires layout { IfSome kept (λ totals. IsLayout B M E) }
    requires blank { AreBlank (A.state array.now) }
    ensures { IfSome result (IsTotalled E (A.state array.now)) }
{
    match kept {
        None => None,
        Some(_) => Some(fresh::<A, B, M, E>(array)),
    }
}
