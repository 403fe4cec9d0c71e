// How lines go round the places of a region, and when they do.
ghost use Rattle.std.specs.Prelude.{◌≡◌};

use crate::comparing::compare;
use region_regs::Region;
use start_gap::{Move, Registers, find_move};

// The places of lines 0 to 3, the start and the gap.
fn seen(registers: &Registers) -> ([u32; 4], u32, u32)
    requires { registers.now.lines ≡ 4 }
{
    let places = [
        registers.place(0),
        registers.place(1),
        registers.place(2),
        registers.place(3),
    ];
    (places, registers.start(), registers.gap())
}

#[test]
fn four_lines_turn_round_five_places(rt: HostRuntime) {
    let mut registers = Registers::new(4);
    let new = seen(&registers);
    registers.advance();
    let once = seen(&registers);
    let lines = (registers.line_at(3), registers.line_at(4));
    registers.advance();
    registers.advance();
    registers.advance();
    registers.advance();
    let round = seen(&registers);
    let expected = [
        ([0, 1, 2, 3], 0, 4),
        ([0, 1, 2, 4], 0, 3),
        ([1, 2, 3, 0], 1, 4),
    ];
    compare(
        &rt,
        ([new, once, round], lines),
        (expected, (None, Some(3))),
    );
}

#[test]
fn registers_are_made_as_they_stand_after_a_turn(rt: HostRuntime) {
    let mut registers = Registers::new(4);
    for _ in 0..5 {
        registers.advance();
    }
    compare(&rt, registers, Registers::at(4, 1, 4));
}

#[test]
fn a_move_follows_the_gap(rt: HostRuntime) {
    compare(
        &rt,
        Registers::at(4, 1, 4).next_move(),
        Move {
            line: 2,
            from: 3,
            to: 4,
        },
    );
}

#[test]
fn each_move_of_a_turn_is_found(rt: HostRuntime) {
    let found = [
        find_move(4, 7, 0, 2),
        find_move(4, 7, 3, 2),
        find_move(4, 7, 1, 2),
    ];
    compare(&rt, found, [7, 12, 22]);
}

#[test]
fn a_move_is_due_at_the_second_of_two_writes(rt: HostRuntime) {
    let mut region = Region::new(4, 2);
    region.stored();
    let once = region.due();
    region.stored();
    let twice = region.due();
    let counter = region.counter();
    region.moved();
    let moved = (region.due(), region.counter(), region.registers().gap());
    let start = Region::at(4, 2, 1, 3, 0).registers().start();
    compare(
        &rt,
        ((once, twice, counter), moved, start),
        ((false, true, 2), (false, 0, 3), 3),
    );
}
