use crate::comparing::compare;
use bank_shape::{BankShape, Home, Work};
use masked_bytes::entry::Entry;
use power_recovery::kept::Kept;
use protected_queue::accept::Accept;
use spare_pool::NoSpare;
use start_gap::Move;
use std::alloc::{AllocError, Global};

const SMALL: BankShape = BankShape {
    base: 0,
    regions: 1,
    lines: 4,
    spares: 2,
    writes: 1,
    reads: 4,
    psi: 1,
    home: Home::Guarded,
};

// What a bank answers to a write, to one while the head is in flight, and to the same one behind it.
fn accepted(alloc: Global) -> Result<[Accept; 3], AllocError> {
    let mut kept = Kept::new(alloc, SMALL)?;
    let first = kept.accept(Entry::whole(1, 0, &[0x11; 128]), false);
    let in_flight = kept.accept(Entry::whole(2, 0, &[0x22; 128]), true);
    let behind = kept.accept(Entry::whole(2, 0, &[0x22; 128]), false);
    Ok([first, in_flight, behind])
}

#[test]
fn a_full_queue_refuses_or_merges(rt: HostRuntime) {
    let expected = [
        Accept::Pushed,
        Accept::Full,
        Accept::Merged { row: 1, index: 0 },
    ];
    compare(&rt, accepted(rt.alloc()), Ok(expected));
}

// A store and the move behind it, if these are the next works of a bank with two writes of a line: the works, the row that was stored, the
// work behind them, and where line 3 stands then.
fn moved(alloc: Global) -> Result<Option<([Work; 3], u32, u32)>, AllocError> {
    let mut kept = Kept::new(alloc, SMALL)?;
    let _ = kept.accept(Entry::whole(1, 0, &[0x11; 128]), false);
    let _ = kept.accept(Entry::whole(2, 0, &[0x22; 128]), false);
    let store = kept.next_work();
    let Work::Store { .. } = store else {
        return Ok(None);
    };
    let row = kept.stored();
    let copy = kept.next_work();
    let Work::Copy { .. } = copy else {
        return Ok(None);
    };
    kept.moved();
    Ok(Some(([store, copy, kept.next_work()], row, kept.slot_of(3))))
}

#[test]
fn a_store_makes_a_move_due(rt: HostRuntime) {
    let step = Move {
        line: 3,
        from: 3,
        to: 4,
    };
    let works = [
        Work::Store { line: 0, slot: 0 },
        Work::Copy { region: 0, step },
        Work::Nothing,
    ];
    compare(&rt, moved(rt.alloc()), Ok(Some((works, 2, 4))));
}

// Whether a new bank is of its shape and empty, what three retirements answer, whether it is exhausted behind the second and behind the
// third, the array lines of two slots, how many spares are used, and how many stores are counted.
fn retired(
    alloc: Global,
) -> Result<([bool; 2], [Result<u32, NoSpare>; 3], [bool; 2], [u32; 4]), AllocError> {
    let mut kept: Kept<64> = Kept::new(alloc, SMALL)?;
    let new = [*kept.shape() == SMALL, kept.is_empty()];
    let (first, second) = (kept.retire(4), kept.retire(4));
    let spent = kept.exhausted();
    let third = kept.retire(0);
    let numbers = [
        kept.array_line(0),
        kept.array_line(4),
        kept.remap().used(),
        kept.region(0).counter(),
    ];
    Ok((
        new,
        [first, second, third],
        [spent, kept.exhausted()],
        numbers,
    ))
}

#[test]
fn the_third_retirement_finds_no_spare(rt: HostRuntime) {
    let spares = [Ok(5), Ok(6), Err(NoSpare)];
    let expected = ([true, true], spares, [false, true], [0, 6, 2, 0]);
    compare(&rt, retired(rt.alloc()), Ok(expected));
}

const MASKS: BankShape = BankShape {
    base: 20,
    writes: 2,
    psi: 100,
    ..SMALL
};

const FIRST: Entry<8> = Entry {
    row: 1,
    line: 3,
    bytes: [10, 11, 0, 0, 0, 0, 0, 0],
    given: [true, true, false, false, false, false, false, false],
};

const SECOND: Entry<8> = Entry {
    row: 2,
    line: 3,
    bytes: [0, 21, 22, 0, 0, 0, 0, 0],
    given: [false, true, true, false, false, false, false, false],
};

// The row and the bytes of the oldest write.
fn head(kept: &Kept<8>) -> Option<(u32, [u8; 8])> {
    match kept.head() {
        Some(entry) => Some((entry.row, entry.bytes)),
        None => None,
    }
}

// The row of the second write.
fn second_row(kept: &Kept<8>) -> Option<u32> {
    match kept.at(1) {
        Some(entry) => Some(entry.row),
        None => None,
    }
}

// What a bank answers to two masked writes of a line, and its head once that is complete; what it answers to two more while that is in
// flight, how many writes wait then, the row of the second, what it has for the line, and where the line stands.
fn masked(
    alloc: Global,
) -> Result<
    (
        [Accept; 4],
        Option<(u32, [u8; 8])>,
        usize,
        Option<u32>,
        [u8; 8],
        u32,
    ),
    AllocError,
> {
    let mut kept = Kept::new(alloc, MASKS)?;
    let first = kept.accept(FIRST, false);
    let second = kept.accept(SECOND, false);
    kept.complete(&[90, 91, 92, 93, 94, 95, 96, 97]);
    let head = head(&kept);
    let third = kept.accept(Entry { row: 3, ..FIRST }, true);
    let fourth = kept.accept(Entry { row: 4, ..SECOND }, true);
    let (bytes, _) = kept.newest(3);
    Ok((
        [first, second, third, fourth],
        head,
        kept.len(),
        second_row(&kept),
        bytes,
        kept.array_line(3),
    ))
}

const COMPLETE: [u8; 8] = [10, 21, 22, 93, 94, 95, 96, 97];

#[test]
fn masked_writes_merge_and_so_do_those_behind_a_head_in_flight(rt: HostRuntime) {
    let answers = [
        Accept::Pushed,
        Accept::Merged { row: 1, index: 0 },
        Accept::Pushed,
        Accept::Merged { row: 3, index: 1 },
    ];
    let expected = (answers, Some((2, COMPLETE)), 2, Some(4), COMPLETE, 23);
    compare(&rt, masked(rt.alloc()), Ok(expected));
}
