ghost use Rattle.std.specs.Prelude.{◌≤◌};

use crate::expected::{assert_events, compare};
use std::alloc::{AllocError, Global};
use std::test::Fail;
use trace_reader::{Event, EventOp, Kind, MOST_ROWS, ParseFault, TraceFault, number, parse};

#[test]
fn a_number_has_its_digits_and_its_bound(rt: HostRuntime) {
    let numbers = [
        number(b"0042", 5, 63),
        number(b"64", 5, 63),
        number(b"", 5, 63),
        number(b"+7", 5, 63),
        number(b"18446744073709551615", 20, u64::MAX),
        number(b"18446744073709551616", 20, u64::MAX),
    ];
    compare(
        &rt,
        numbers,
        [Some(42), None, None, None, Some(u64::MAX), None],
    );
}

// The fault of a trace over so many lines, of which there is one.
fn fault_of(alloc: Global, text: &[u8], lines: u32) -> Option<TraceFault> {
    if lines == 0 {
        return None;
    }
    match parse::<64>(alloc, text, lines) {
        Err(ParseFault::Trace(fault)) => Some(fault),
        _ => None,
    }
}

// A trace, the lines that it may name, and the row and the kind of its fault.
static FAULTS: [(&[u8], u32, u32, Kind); 11] = [
    (b"", 4, 0, Kind::Header),
    (b"tick,op,arg,payload\n", 4, 0, Kind::Header),
    (
        b"tick,op,arg,data\n5,R,0,\n6,R,0,\n4,R,0,\n",
        4,
        3,
        Kind::Order,
    ),
    (
        b"tick,op,arg,data\n0,W,0,aaaaaaaaaaaaaaaaaaaaaaaaaaaaaaaaaaaaaaaaaaaaaaaaaaaaaaaaaaaaaaaaaaaaaaaaaaaaaaaaaaaaaaaaaaaaaaaaaaaaaaaaaaaaaaaaaaaaaaaaaaaaaaa\n",
        4,
        1,
        Kind::Payload,
    ),
    (b"tick,op,arg,data\n0,R,4,\n", 4, 1, Kind::Line),
    (b"tick,op,arg,data\n0,R,64,\n", 64, 1, Kind::Line),
    (b"tick,op,arg,data\n0,R,0,\n7,R,1", 4, 2, Kind::Fields),
    (b"tick,op,arg,data\n0,X,0,\n", 4, 1, Kind::Op),
    (b"tick,op,arg,data\n1099511627777,R,0,\n", 4, 1, Kind::Tick),
    (
        b"tick,op,arg,data\n0,M,0,................................................................................................................................\n",
        4,
        1,
        Kind::Payload,
    ),
    (b"tick,op,arg,data\nx,X,x\n", 4, 1, Kind::Fields),
];

#[test]
fn the_first_fault_is_told_with_its_row(rt: HostRuntime) {
    for (text, lines, row, kind) in &FAULTS {
        let wanted = TraceFault {
            row: *row,
            kind: *kind,
        };
        compare(&rt, fault_of(rt.alloc(), text, *lines), Some(wanted));
    }
}

static EVENTS: [Event<8>; 4] = [
    Event {
        tick: 0,
        op: EventOp::Write(3, [0, 0x11, 0x22, 0x33, 0x44, 0x55, 0x66, 0xff]),
    },
    Event {
        tick: 7,
        op: EventOp::Mask(
            0,
            [0, 0xa1, 0, 0, 0, 0, 0, 0x5b],
            [false, true, false, false, false, false, false, true],
        ),
    },
    Event {
        tick: 7,
        op: EventOp::Cut,
    },
    Event {
        tick: 1_099_511_627_776,
        op: EventOp::Read(2),
    },
];

#[test]
fn rows_become_events(rt: HostRuntime) -> Result<(), Fail> {
    // The lines end with CR and LF, and the last one has no end.
    let text =
        b"tick,op,arg,data\r\n0,W,3,00112233445566fF\r\n7,M,0,..a1..........5B\r\n7,C,,\r\n1099511627776,R,00002,";
    let events = parse::<8>(rt.alloc(), text, 4)?;
    assert_events(&rt, events.as_slice(), &EVENTS);
    Ok(())
}

// How many events a text has over this many lines of `B` bytes.
fn len<const B: usize>(alloc: Global, text: &[u8], lines: u32) -> Result<usize, ParseFault>
    requires size { B ≤ 128 }
    requires some_lines { 1 ≤ lines }
{
    Ok(parse::<B>(alloc, text, lines)?.len())
}

#[test]
fn the_header_alone_has_no_events(rt: HostRuntime) {
    let lens = [
        len::<64>(rt.alloc(), b"tick,op,arg,data\n", 64).ok(),
        len::<128>(rt.alloc(), b"tick,op,arg,data\n", 65_536).ok(),
    ];
    compare(&rt, lens, [Some(0), Some(0)]);
}

// How many events as many rows as are allowed have, and whether one more, which is none, is too many.
fn many(alloc: Global) -> Result<(Option<usize>, bool), AllocError> {
    let mut text = String::from_str(alloc, "tick,op,arg,data\n")?;
    for _ in 0..MOST_ROWS {
        text.push_str("0,C,,\n")?;
    }
    let most = len::<8>(alloc, text.as_bytes(), 4).ok();
    text.push_str("faulty\n")?;
    let too_many = matches!(
        parse::<8>(alloc, text.as_bytes(), 4),
        Err(ParseFault::TooMany)
    );
    Ok((most, too_many))
}

#[test]
fn one_row_more_than_allowed_is_too_many(rt: HostRuntime) {
    compare(&rt, many(rt.alloc()), Ok((Some(400_000), true)));
}
