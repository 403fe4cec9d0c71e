ghost use Rattle.std.specs.Prelude.{◌≡◌, ◌<◌};

use crate::comparing::compare;
use pcm_cells::{CellArray, Cells, LoggedArray, ScriptArray, Sense, Wear};
use std::alloc::{AllocError, Global};

// Cells live on, and miss up to three times.
const LONG: Wear = Wear {
    seed: 7,
    lo: 1000,
    hi: 2000,
    misses: 3,
};

// Pulses the cells of the line that differ, if any do.
fn overwrite<A: CellArray<64, 8>>(array: &mut A, line: u32, want: &Cells<64, 8>, tick: u64)
    requires { line < (A.state array.old).lines }
    ensures { (A.state array.new).lines ≡ (A.state array.old).lines }
{
    let mask = array.sense(line, tick).differ(want);
    if !mask.is_none() {
        array.pulse(line, &mask, want, tick);
    }
}

#[test]
fn cells_are_bits_of_both_halves(rt: HostRuntime) {
    let mut row: Cells<64, 8> = Cells::zero();
    row.set(0, true);
    row.set(515, true);
    let held = ([row.bits[0], row.meta[0]], [row.get(515), row.get(514)]);
    let (count, none) = (row.count(), [row.differ(&row).is_none(), row.is_none()]);
    row.set(0, false);
    compare(
        &rt,
        (held, count, none, row.meet(&row).count()),
        (([1, 8], [true, false]), 2, [true, false], 1),
    );
}

#[test]
fn wide_cells_are_bits_of_both_halves(rt: HostRuntime) {
    let mut row: Cells<128, 16> = Cells::zero();
    row.set(1151, true);
    let held = (row.meta[15], [row.get(1151), row.get(1150)], row.count());
    let none = [row.differ(&row).is_none(), row.meet(&row).is_none()];
    compare(&rt, (held, none), ((128, [true, false], 1), [true, false]));
}

// Ones in the data alone.
const DATA: Cells<64, 8> = Cells {
    bits: [0xff; 64],
    meta: [0; 8],
};

// Of a sense its line, its tick, the first of its data and of its check bytes, and how often the line was pulsed.
fn told(sense: &Sense<64, 8>) -> (u32, u64, u8, u8, u64) {
    let cells = &sense.cells;
    (
        sense.line,
        sense.tick,
        cells.bits[0],
        cells.meta[0],
        sense.pulses,
    )
}

// The senses of a log that has three.
fn three(log: Option<&[Sense<64, 8>]>) -> Option<[(u32, u64, u8, u8, u64); 3]> {
    match log {
        Some([first, second, third]) => Some([told(first), told(second), told(third)]),
        _ => None,
    }
}

// How many senses a log has.
fn len(log: Option<&[Sense<64, 8>]>) -> Option<usize> {
    match log {
        Some(senses) => Some(senses.len()),
        None => None,
    }
}

// An array of three lines with a log of three senses: the senses behind three, how many the log has behind a fourth, and how many when
// the array is powered up again.
fn logged(
    alloc: Global,
) -> Result<(Option<[(u32, u64, u8, u8, u64); 3]>, [Option<usize>; 2]), AllocError> {
    let script = ScriptArray::new(Vec::new(alloc));
    let mut array: LoggedArray<ScriptArray<64, 8>, 64, 8> = LoggedArray::new(alloc, script, 3)?;
    array.power_up(alloc, 7, LONG)?;
    overwrite(&mut array, 3, &DATA, 5);
    array.sense(3, 15);
    array.sense(3, 105);
    let senses = three(array.log());
    array.sense(0, 106);
    let full = len(array.log());
    array.power_up(alloc, 7, LONG)?;
    Ok((senses, [full, len(array.log())]))
}

#[test]
fn a_log_has_each_sense(rt: HostRuntime) {
    let senses = [(3, 5, 0, 0, 0), (3, 15, 0xff, 0, 1), (3, 105, 0xff, 0, 1)];
    compare(&rt, logged(rt.alloc()), Ok((Some(senses), [None, Some(0)])));
}
