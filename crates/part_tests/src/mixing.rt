ghost use Rattle.std.specs.Prelude.{◌≤◌, ◌^◌, length};

use crate::comparing::compare;
use feistel_map::{Address, Feistel};
use std::process::Abort;

// Compares where each line is mixed to and where that is mixed back to, in order of the lines.
fn compare_lines(rt: &impl Abort, map: &Feistel, expected: &[u32])
    requires within { length expected.now ≤ 2 ^ map.now.bits }
    requires few { length expected.now ≤ 16 }
{
    for at in 0..expected.len() {
        let line = at as u32;
        let mixed = map.forward(line);
        compare(rt, [mixed, map.back(mixed)], [expected[at], line]);
    }
}

#[test]
fn four_lines_of_seed_0_are_mixed(rt: HostRuntime) {
    compare_lines(&rt, &Feistel::new(2, 0), &[3, 1, 2, 0]);
}

#[test]
fn sixteen_lines_of_seed_0_are_mixed(rt: HostRuntime) {
    let map = Feistel::new(4, 0);
    let expected = [5, 1, 7, 3, 4, 0, 6, 2, 13, 9, 15, 11, 12, 8, 14, 10];
    compare_lines(&rt, &map, &expected);
    let address = Address {
        bank: 1,
        region: 1,
        offset: 1,
    };
    compare(&rt, Address::of(map.forward(8), 2, 4), address);
}
