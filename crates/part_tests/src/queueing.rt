ghost use Rattle.std.specs.Prelude.{◌<◌, ◌≤◌};

use crate::comparing::compare;
use masked_bytes::entry::Entry;
use masked_bytes::layers::has_all;
use protected_queue::accept::Accept;
use protected_queue::queue::Queue;
use std::alloc::{AllocError, Global};

// A write of a line comes whose bytes are all this one; the head may be in flight.
fn accept<const B: usize>(
    queue: &mut Queue<B>,
    row: u32,
    line: u32,
    byte: u8,
    is_busy: bool,
) -> Accept
    requires some { 0 < B }
    requires few { B ≤ 128 }
{
    queue.accept(Entry::whole(row, line, &[byte; B]), is_busy)
}

// The row, the line and the last byte of the write that goes, if one is there.
fn pop(queue: &mut Queue<64>) -> Option<(u32, u32, u8)> {
    match queue.pop() {
        Some(entry) => Some((entry.row, entry.line, entry.bytes[63])),
        None => None,
    }
}

// Whether a new queue of one write is empty and has no head, what it answers to four writes, how many are in it then, and what goes.
fn merged(
    alloc: Global,
) -> Result<([bool; 2], [Accept; 4], usize, [Option<(u32, u32, u8)>; 2]), AllocError> {
    let mut queue = Queue::<64>::new(alloc, 1)?;
    let empty = [queue.is_empty(), queue.head().is_none()];
    let answers = [
        accept(&mut queue, 1, 0, 0xaa, false),
        accept(&mut queue, 2, 0, 0xbb, true),
        accept(&mut queue, 3, 1, 0xcc, false),
        accept(&mut queue, 4, 0, 0xdd, false),
    ];
    let len = queue.len();
    Ok((empty, answers, len, [pop(&mut queue), pop(&mut queue)]))
}

#[test]
fn merges_unless_the_entry_is_the_head_in_flight(rt: HostRuntime) {
    let answers = [
        Accept::Pushed,
        Accept::Full,
        Accept::Full,
        Accept::Merged { row: 1, index: 0 },
    ];
    compare(
        &rt,
        merged(rt.alloc()),
        Ok(([true, true], answers, 1, [Some((4, 0, 0xdd)), None])),
    );
}

// The row of the write at a place.
fn row_at(queue: &Queue<128>, place: usize) -> Option<u32> {
    match queue.at(place) {
        Some(entry) => Some(entry.row),
        None => None,
    }
}

// The first byte that a queue has for a line, whether it has all, and whether it has the first.
fn newest(queue: &Queue<128>, line: u32) -> (u8, bool, bool) {
    let (bytes, given) = queue.newest(line);
    (bytes[0], has_all(&given), given[0])
}

// What a queue answers to three writes of line 7, their rows, and what it has for that line and for another.
fn kept(
    alloc: Global,
) -> Result<([Accept; 3], [Option<u32>; 3], [(u8, bool, bool); 2]), AllocError> {
    let mut queue = Queue::<128>::new(alloc, 256)?;
    let answers = [
        accept(&mut queue, 1, 7, 0x11, false),
        accept(&mut queue, 2, 7, 0x22, true),
        accept(&mut queue, 3, 7, 0x33, true),
    ];
    let rows = [row_at(&queue, 0), row_at(&queue, 1), row_at(&queue, 2)];
    Ok((answers, rows, [newest(&queue, 7), newest(&queue, 6)]))
}

#[test]
fn keeps_two_writes_of_one_line_while_the_older_is_in_flight(rt: HostRuntime) {
    let answers = [
        Accept::Pushed,
        Accept::Pushed,
        Accept::Merged { row: 2, index: 1 },
    ];
    let newest = [(0x33, true, true), (0, false, false)];
    compare(
        &rt,
        kept(rt.alloc()),
        Ok((answers, [Some(1), Some(3), None], newest)),
    );
}

const FIRST: Entry<8> = Entry {
    row: 1,
    line: 3,
    bytes: [10, 11, 0, 0, 0, 0, 0, 0],
    given: [true, true, false, false, false, false, false, false],
};

const SECOND: Entry<8> = Entry {
    row: 2,
    line: 3,
    bytes: [0, 21, 22, 0, 0, 0, 0, 0],
    given: [false, true, true, false, false, false, false, false],
};

// The bytes of the oldest write.
fn head_bytes(queue: &Queue<8>) -> Option<[u8; 8]> {
    match queue.head() {
        Some(entry) => Some(entry.bytes),
        None => None,
    }
}

// What a queue answers to two masked writes of a line, what it has for that line, and its head once that is complete.
fn laid(alloc: Global) -> Result<([Accept; 2], ([u8; 8], [bool; 8]), Option<[u8; 8]>), AllocError> {
    let mut queue = Queue::new(alloc, 2)?;
    let answers = [queue.accept(FIRST, false), queue.accept(SECOND, false)];
    let newest = queue.newest(3);
    queue.complete(&[90, 91, 92, 93, 94, 95, 96, 97]);
    Ok((answers, newest, head_bytes(&queue)))
}

#[test]
fn lays_masked_writes_over_each_other(rt: HostRuntime) {
    let answers = [Accept::Pushed, Accept::Merged { row: 1, index: 0 }];
    let given = [true, true, true, false, false, false, false, false];
    let newest = ([10, 21, 22, 0, 0, 0, 0, 0], given);
    let head = Some([10, 21, 22, 93, 94, 95, 96, 97]);
    compare(&rt, laid(rt.alloc()), Ok((answers, newest, head)));
}
