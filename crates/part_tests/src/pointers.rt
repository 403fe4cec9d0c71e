// Worked lines.
#![tactic(auto, using(ecp_line::proofs::Sizes::layout_64, ecp_line::proofs::Sizes::layout_128))]

use crate::comparing::compare;
use cell_rows::Cells;
use ecp_line::{Ecp, lowest};

type Six = Ecp<64, 8, 6>;

type Eight = Ecp<128, 16, 8>;

// A line of ones but for its first byte, with these check bytes.
fn line(first: u8, meta: [u8; 8]) -> Cells<64, 8> {
    let mut cells = Cells {
        bits: [0xff; 64],
        meta,
    };
    cells.bits[0] = first;
    cells
}

// Whether a cell of a line is set.
fn has(cells: &Cells<64, 8>, number: u16) -> bool {
    number < 576 && cells.get(number)
}

// Which of some cells of a line are set.
fn held<const N: usize>(cells: &Cells<64, 8>, numbers: [u16; N]) -> [bool; N] {
    let mut held = [false; N];
    for i in 0..N {
        held[i] = has(cells, numbers[i]);
    }
    held
}

// How many entries are active, and the cells that these bits are read from.
fn read_from(cells: &Cells<64, 8>, bits: [u16; 2]) -> (u8, [u16; 2]) {
    (
        Six::active(cells),
        [
            Six::source_of(cells, bits[0]),
            Six::source_of(cells, bits[1]),
        ],
    )
}

// The first bit that is read otherwise than in a line of this byte alone.
fn wrong(cells: &Cells<64, 8>, byte: u8) -> Option<u16> {
    Six::wrong(cells, &[byte; 64])
}

// Whether each bit is read as one.
fn is_all_ones(cells: &Cells<64, 8>) -> bool {
    Six::decode(cells) == [0xff; 64]
}

#[test]
fn six_entries_replace_the_first_six_bits(rt: HostRuntime) {
    let cells = line(0xc0, [0x00, 0x06, 0x28, 0xe0, 0x80, 0x04, 0x16, 0x18]);
    let wrong = [wrong(&cells, 0xff), wrong(&cells, 0xfb)];
    compare(
        &rt,
        (read_from(&cells, [3, 6]), wrong, is_all_ones(&cells)),
        ((6, [551, 6]), [None, Some(2)], true),
    );
}

#[test]
fn the_later_of_two_entries_for_one_bit_counts(rt: HostRuntime) {
    let cells = line(0xfe, [0x00, 0x00, 0x08, 0, 0, 0, 0x0c, 0]);
    compare(
        &rt,
        (read_from(&cells, [0, 1]), is_all_ones(&cells)),
        ((2, [531, 1]), true),
    );
}

#[test]
fn zeros_are_wanted_in_the_later_of_two_entries(rt: HostRuntime) {
    let cells = line(0xfe, [0x00, 0x00, 0x08, 0, 0, 0, 0x0c, 0]);
    let (want, mask) = Six::wanted(&cells, &[0; 64]);
    compare(
        &rt,
        (held(&mask, [0, 1, 531, 521]), held(&want, [0, 1, 531])),
        ([false, true, true, false], [false, false, false]),
    );
}

#[test]
fn a_pointer_is_written_lowest_digit_first(rt: HostRuntime) {
    let (want, mask) = Six::pointer(&Cells::zero(), 1, 3);
    let asked = (
        held(&want, [522, 523, 524]),
        held(&mask, [522, 530, 531]),
        mask.count(),
    );
    compare(&rt, asked, ([true, true, false], [true, true, false], 9));
}

#[test]
fn an_entry_has_a_switch_and_ten_cells(rt: HostRuntime) {
    let switches = [Six::switch(1), Six::switch(5)];
    let cells = Six::entry_cells(5);
    compare(
        &rt,
        (switches, cells.count(), lowest(&cells)),
        ([563, 572], 10, Some(562)),
    );
}

#[test]
fn activity_cells_behind_the_first_gap_are_cleared(rt: HostRuntime) {
    let mut cells = Cells::zero();
    cells.set(562, true);
    let (want, mask) = Six::later(&cells);
    compare(
        &rt,
        (has(&want, 562), held(&mask, [563, 564, 566]), mask.count()),
        (true, [false, true, true], 3),
    );
}

#[test]
fn lines_of_128_bytes_have_eight_entries(rt: HostRuntime) {
    let mut cells = Cells::<128, 16>::zero();
    cells.set(1112, true);
    let switches = [Eight::switch(7), Eight::switch(0)];
    let read_from = (Eight::active(&cells), Eight::source_of(&cells, 0));
    compare(
        &rt,
        (switches, read_from, Eight::decode(&cells)),
        ([1112, 1101], (8, 1111), [0; 128]),
    );
}
