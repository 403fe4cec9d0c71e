use crate::comparing::compare;
use masked_bytes::entry::Entry;
use masked_bytes::layers::{fill_under, has_all, join_given, lay_over};
use std::test::*;

const GIVEN: [bool; 8] = [true, false, false, true, false, false, false, true];

#[test]
fn lays_the_given_bytes_over_others(rt: HostRuntime) {
    let mut under = [1, 2, 3, 4, 5, 6, 7, 8];
    lay_over(&[11, 12, 13, 14, 15, 16, 17, 18], &GIVEN, &mut under);
    let mut bytes = [11, 0, 0, 14, 0, 0, 0, 18];
    fill_under(&mut bytes, &GIVEN, &[1, 2, 3, 4, 5, 6, 7, 8]);
    let laid = [11, 2, 3, 14, 5, 6, 7, 18];
    compare(&rt, [under, bytes], [laid, laid]);
}

#[test]
fn what_either_write_gives_is_given(rt: HostRuntime) {
    let mut other = [false, true, true, false, true, true, true, false];
    let before = has_all(&other);
    join_given(&GIVEN, &mut other);
    compare(&rt, [before, has_all(&other)], [false, true]);
}

// A write of line 3 that gives one byte.
fn giving(row: u32, place: usize, byte: u8) -> Entry<128> {
    let mut bytes = [0; 128];
    let mut given = [false; 128];
    if place < 128 {
        bytes[place] = byte;
        given[place] = true;
    }
    Entry {
        row,
        line: 3,
        bytes,
        given,
    }
}

// The row of a write, its first three bytes, and which of these it gives.
fn first_three(entry: &Entry<128>) -> (u32, [u8; 3], [bool; 3]) {
    let bytes = [entry.bytes[0], entry.bytes[1], entry.bytes[2]];
    let given = [entry.given[0], entry.given[1], entry.given[2]];
    (entry.row, bytes, given)
}

#[test]
fn a_newer_write_wins_byte_by_byte(rt: HostRuntime) {
    let mut entry = giving(1, 0, 10);
    entry.lay_on(&giving(2, 1, 21));
    let laid = first_three(&entry);
    entry.complete(&[7; 128]);
    compare(
        &rt,
        (laid, first_three(&entry), has_all(&entry.given)),
        (
            (2, [10, 21, 0], [true, true, false]),
            (2, [10, 21, 7], [true, true, true]),
            true,
        ),
    );
}

#[test]
fn a_whole_write_gives_each_byte(rt: HostRuntime) {
    let entry = Entry::whole(4, 9, &[0xab; 64]);
    compare(
        &rt,
        (entry.row, entry.line, has_all(&entry.given), entry.bytes),
        (4, 9, true, [0xab; 64]),
    );
}
