ghost use Rattle.std.specs.Prelude.{◌≡◌, ◌≤◌, Some};
ghost use Rattle.result_rows.specs.Outcomes.{op_of};

use crate::expected::{assert_made, assert_text, compare};
use pcm_io::Text;
use result_rows::{Op, Outcome, Results, header, print_row};
use std::alloc::{AllocError, Global};

// Prints a row, unless there is too little room for it.
fn print<const B: usize>(text: &mut Text, row: u32, op: Op, line: u32, outcome: &Outcome<B>)
    requires size { B ≤ 128 }
    requires belongs { op_of outcome.now ≡ Some op }
    requires line { line ≤ 65535 }
{
    if text.room() >= 64 + 2 * B {
        print_row(row, op, line, outcome, text);
    }
}

// Rows of writes.
fn writes(alloc: Global) -> Result<Text, AllocError> {
    let mut text = Text::new(alloc, 1024)?;
    let stored = Outcome::<64>::Stored { tick: 15, place: 3 };
    print(&mut text, 1, Op::Write, 0, &stored);
    let merged = Outcome::<64>::Merged { tick: 0 };
    print(&mut text, 1, Op::Write, 0, &merged);
    let queued = Outcome::<64>::Queued { tick: 0 };
    print(&mut text, 1, Op::Write, 0, &queued);
    let full = Outcome::<64>::Full { tick: 6 };
    print(&mut text, 4, Op::Write, 0, &full);
    let worn = Outcome::<64>::Worn { tick: 700 };
    print(&mut text, 2, Op::Write, 1, &worn);
    Ok(text)
}

#[test]
fn a_row_of_each_outcome_of_a_write(rt: HostRuntime) {
    let wanted =
        b"1,W,0,stored,15,3,\n1,W,0,merged,0,,\n1,W,0,queued,0,,\n4,W,0,full,6,,\n2,W,1,worn,700,,\n";
    assert_made(&rt, writes(rt.alloc()), wanted);
}

// Rows of reads and of a cut.
fn reads(alloc: Global) -> Result<Text, AllocError> {
    let mut text = Text::new(alloc, 1024)?;
    let bytes = [0x01, 0x23, 0x45, 0x67, 0x89, 0xab, 0xcd, 0xef];
    let read = Outcome::Read {
        tick: 5,
        place: 3,
        bytes,
    };
    print(&mut text, 1, Op::Read, 0, &read);
    let forwarded = Outcome::Forwarded { tick: 0, bytes };
    print(&mut text, 2, Op::Read, 0, &forwarded);
    let busy = Outcome::<64>::Busy { tick: 0 };
    print(&mut text, 2, Op::Read, 1, &busy);
    let lost = Outcome::<64>::Lost { tick: 19 };
    print(&mut text, 2, Op::Read, 1, &lost);
    let cut = Outcome::<64>::Cut { tick: 20 };
    print(&mut text, 2, Op::Cut, 7, &cut);
    Ok(text)
}

#[test]
fn a_row_of_each_outcome_of_a_read_and_of_a_cut(rt: HostRuntime) {
    let wanted =
        b"1,R,0,read,5,3,0123456789abcdef\n2,R,0,forwarded,0,,0123456789abcdef\n2,R,1,busy,0,,\n2,R,1,lost,19,,\n2,C,,cut,20,,\n";
    assert_made(&rt, reads(rt.alloc()), wanted);
}

// The length of the longest row of a read of a line of `B` bytes.
fn longest<const B: usize>(alloc: Global, byte: u8) -> Result<usize, AllocError>
    requires size { B ≤ 128 }
{
    let read = Outcome::Read {
        tick: u64::MAX,
        place: 98_831,
        bytes: [byte; B],
    };
    let mut text = Text::new(alloc, 64 + 2 * B)?;
    print(&mut text, 400_000, Op::Read, 65_535, &read);
    Ok(text.bytes().len())
}

#[test]
fn the_longest_rows_of_both_sizes(rt: HostRuntime) {
    let lens = [
        longest::<64>(rt.alloc(), 0xff),
        longest::<128>(rt.alloc(), 0x0a),
    ];
    compare(&rt, lens, [Ok(48 + 128), Ok(48 + 256)]);
}

// How many rows there are of three, of which the second is set, and these.
fn set_once(alloc: Global) -> Result<(u32, [Outcome<64>; 3]), AllocError> {
    let mut results = Results::<64>::new(alloc, 3)?;
    results.set(2, Outcome::Cut { tick: 7 });
    let rows = [*results.get(1), *results.get(2), *results.get(3)];
    Ok((results.rows(), rows))
}

#[test]
fn a_row_is_set_once_and_the_others_stay(rt: HostRuntime) {
    let rows = [Outcome::Unset, Outcome::Cut { tick: 7 }, Outcome::Unset];
    compare(&rt, set_once(rt.alloc()), Ok((3, rows)));
}

#[test]
fn the_header_names_the_fields(rt: HostRuntime) {
    assert_text(&rt, header(), b"row,op,line,outcome,tick,place,data\n");
}
