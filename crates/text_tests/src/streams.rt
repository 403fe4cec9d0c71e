ghost use Rattle.row_printer.specs.Snapshots.{IsShown};

use crate::expected::{assert_text, compare};
use bank_shape::{Home, Policy};
use cell_rows::LineEnergy;
use pcm_io::{MemSink, MemSource, NeverFailSource, Text};
use result_rows::{Outcome, Outcomes};
use row_printer::{
    ArrayWear, Backlog, Mark, PeekedLine, RowPrinter, Shown, Snapshot, ToldRest, ToldShape,
};
use std::alloc::{AllocError, Global};
use std::process::Abort;
use std::test::Fail;
use text_printer::TEXT_ROOM;
use trace_reader::{Event, EventOp, Kind, TraceFault};
use trace_stream::{Asked, Peek, StreamFault, TraceStream, Until, UntilAny, read_stream};

// What a text asks, read from a source whose call with this number fails. The first call gives one byte, and the others
// all that are left.
fn read(alloc: Global, text: &[u8], fails: u32) -> Result<Vec<Asked<64>>, StreamFault> {
    let bytes = Vec::from_slice(alloc, text)?;
    let fails = Vec::from_slice(alloc, &[fails])?;
    read_stream(alloc, &mut MemSource::new(bytes, fails), 4)
}

static ASKED: [Asked<64>; 8] = [
    Asked::Happens(Event {
        tick: 3,
        op: EventOp::Read(1),
    }),
    Asked::Settle(3),
    Asked::Query(4),
    Asked::Look(4),
    Asked::Until(Until {
        row: 1,
        limit: 8,
        reached: 4,
    }),
    Asked::UntilAny(UntilAny {
        limit: 9,
        reached: 4,
    }),
    Asked::Peek(Peek { tick: 5, line: 3 }),
    Asked::Happens(Event {
        tick: 5,
        op: EventOp::Cut,
    }),
];

fn compare_asked(
    rt: &impl Abort,
    asked: Result<Vec<Asked<64>>, StreamFault>,
    wanted: &[Asked<64>],
) {
    match asked {
        Ok(asked) => assert!(rt; asked.as_slice() == wanted),
        Err(_) => panic!(rt; "a fault"),
    }
}

#[test]
fn rows_come_in_order(rt: HostRuntime) {
    let text =
        b"tick,op,arg,data\n\n3,R,1,\r\n\"3\",S,,\n4,Q,,\n4,L,,\n8,U,01,\n9,U,,\n5,P,03,\n5,C,,";
    compare_asked(&rt, read(rt.alloc(), text, 9), &ASKED);
}

// Texts, the call of the source that fails, and the row and the kind of the fault of each.
static FAULTS: [(&[u8], u32, u32, Kind); 18] = [
    (b"tick,op,arg,data\n3,Q,,\n3,Q,0,\n", 9, 1, Kind::Line),
    (b"tick,op,arg,data\n3,S,,\n2,S,,\n", 9, 1, Kind::Order),
    (b"tick,op,arg,data\n3,S,0,\n", 9, 1, Kind::Line),
    (b"tick,op,arg,data\n3,S,,0\n", 9, 1, Kind::Payload),
    (b"tick,op,arg,data\nx,S,0,0\n", 9, 1, Kind::Tick),
    (b"tick,op,arg,data\n3,S,\n", 9, 1, Kind::Fields),
    (
        b"tick,op,arg,data\n3,S,,\n3,C,,\n3,S,,\n3,S,0,\n",
        9,
        2,
        Kind::Line,
    ),
    (b"tick,op,arg,data\n3,S,,\n3,C,,,,", 3, 1, Kind::Fields),
    (b"tick,op,arg,data\n3,C,,\n3,U,2,\n", 9, 2, Kind::Line),
    (b"tick,op,arg,data\n3,C,,\n3,U,1,0\n", 9, 2, Kind::Payload),
    (b"tick,op,arg,data\n3,L,,\n2,L,,\n", 9, 1, Kind::Order),
    (b"tick,op,arg,data\n3,L,0,\n", 9, 1, Kind::Line),
    (b"tick,op,arg,data\n3,C,,\n3,L,,0\n", 9, 2, Kind::Payload),
    (b"tick,op,arg,data\n3,U,,0\n", 9, 1, Kind::Payload),
    (b"tick,op,arg,data\n3,C,,\n2,U,,\n", 9, 2, Kind::Order),
    (b"tick,op,arg,data\n3,P,,\n", 9, 1, Kind::Line),
    (b"tick,op,arg,data\n3,P,4,\n", 9, 1, Kind::Line),
    (b"tick,op,arg,data\n3,P,3,0\n", 9, 1, Kind::Payload),
];

// Which call of the source of a text fails, and the fault of that.
static FAILS: [(u32, Option<StreamFault>); 4] = [
    (1, Some(StreamFault::Read)),
    (2, Some(StreamFault::Read)),
    (3, Some(StreamFault::Read)),
    (4, None),
];

#[test]
fn faults_are_told(rt: HostRuntime) {
    for (text, fails, row, kind) in &FAULTS {
        let fault = StreamFault::Trace(TraceFault {
            row: *row,
            kind: *kind,
        });
        compare(&rt, read(rt.alloc(), text, *fails).err(), Some(fault));
    }
}

#[test]
fn a_call_that_fails_is_told(rt: HostRuntime) {
    for (fails, fault) in &FAILS {
        let text = b"tick,op,arg,data\n3,R,1,\n";
        compare(&rt, read(rt.alloc(), text, *fails).err(), *fault);
    }
}

// How many rows come before the fault of a text, and the fault: of its ten reads, each behind a settle, one is of a line that isn't there.
fn front(alloc: Global, faulty: u32) -> Result<(u32, Option<StreamFault>), StreamFault> {
    let mut text = Vec::from_slice(alloc, b"tick,op,arg,data\n")?;
    for row in 1..11 {
        text.extend_from_slice(if row == faulty {
            b"3,S,,\n3,R,4,\n"
        } else {
            b"3,S,,\n3,R,1,\n"
        })?;
    }
    let mut source = NeverFailSource::new(text);
    let mut stream = TraceStream::open(alloc, &mut source, 4)?;
    for rows in 0..30 {
        match stream.next::<64, NeverFailSource>(&mut source) {
            Ok(Some(_)) => {}
            Ok(None) => return Ok((rows, None)),
            Err(fault) => return Ok((rows, Some(fault))),
        }
    }
    Ok((30, None))
}

#[test]
fn a_fault_hides_no_row_before_it(rt: HostRuntime) {
    for faulty in 1..11 {
        let fault = StreamFault::Trace(TraceFault {
            row: faulty,
            kind: Kind::Line,
        });
        let found = (2 * faulty - 1, Some(fault));
        compare(&rt, front(rt.alloc(), faulty).ok(), Some(found));
    }
    compare(&rt, front(rt.alloc(), 11).ok(), Some((20, None)));
}

// The fault of a text behind which a byte stands 300,000 times, and then an end.
fn fault_of_long(
    alloc: Global,
    front: &[u8],
    byte: u8,
    end: &[u8],
) -> Result<Option<StreamFault>, AllocError> {
    let mut text = Vec::from_slice(alloc, front)?;
    for _ in 0..300_000 {
        text.push(byte)?;
    }
    text.extend_from_slice(end)?;
    let mut source = NeverFailSource::new(text);
    Ok(read_stream::<64, NeverFailSource>(alloc, &mut source, 4).err())
}

// A record of 300,000 commas, and a field of as many digits.
static LONG: [(&[u8], u8, &[u8], Kind); 2] = [
    (b"tick,op,arg,data\n", b',', b"", Kind::Fields),
    (b"tick,op,arg,data\n0,R,", b'0', b",", Kind::Line),
];

#[test]
fn long_records_are_judged_as_they_are(rt: HostRuntime) {
    for (front, byte, end, kind) in &LONG {
        let fault = StreamFault::Trace(TraceFault {
            row: 1,
            kind: *kind,
        });
        let found = fault_of_long(rt.alloc(), front, *byte, end);
        compare(&rt, found, Ok(Some(fault)));
    }
}

// A bank that refuses writes.
const EXHAUSTED: Backlog = Backlog {
    bank: 7,
    writes: 256,
    reads: 0,
    mark: Mark::Exhausted,
};

// An array whose lines were sensed more often than can be counted.
const WORN: ArrayWear = ArrayWear {
    pulses: 17,
    most: 9,
    mean: 0,
    pointers: 2,
    energy: Some(LineEnergy {
        set: 70,
        reset: 0,
        senses: u64::MAX,
    }),
};

const SHAPE: ToldShape = ToldShape {
    banks: 64,
    regions: 1,
    lines: 1_048_576,
    spares: 1024,
    writes: 256,
    reads: 3,
    rest: None,
};

const REST: ToldRest = ToldRest {
    seed: u64::MAX,
    psi: 100,
    read_ticks: 5,
    iter_ticks: 255,
    policy: Policy::Cancel,
    home: Home::Guarded,
};

// Two rows, a bank, how worn the array is and a tick, told to a printer that prints or only counts: what is written, how many rows were
// stored and how many refused, and whether one fell short.
fn told(alloc: Global, prints: Shown) -> Result<(Box<MemSink>, (u32, u32, bool)), Fail>
    requires { IsShown prints }
{
    let fails = Vec::from_slice(alloc, &[9])?;
    let sink = Box::new(alloc, MemSink::new(alloc, 4096, fails)?)?;
    let mut out = RowPrinter::<64, MemSink>::new(sink, Text::new(alloc, TEXT_ROOM)?, prints);
    out.add_row();
    out.add_row();
    out.set(2, Outcome::Busy { tick: 5 });
    out.set(1, Outcome::Stored { tick: 9, place: 3 });
    out.bank(12, EXHAUSTED);
    out.looked(12, WORN);
    let newest = PeekedLine {
        line: 67_108_863,
        bytes: [0x0f; 64],
    };
    out.peeked(12, newest);
    out.settled(12);
    let _done = out.flush();
    let counts = out.counts();
    let short = out.short();
    let (sink, _text) = out.end();
    Ok((sink, (counts.stored, counts.busy, short)))
}

#[test]
fn a_stream_tells_each_row_once_as_it_comes(rt: HostRuntime) -> Result<(), Fail> {
    let (sink, counted) = told(rt.alloc(), Shown::Rows(None))?;
    assert_text(
        &rt,
        sink.written(),
        b"row,outcome,tick,place,data\n2,busy,5,,\n1,stored,9,3,\n,bank,12,7,256 0 exhausted\n,wear,12,,17 9 0 2 18446744073709551615 70 0\n,bytes,12,67108863,0f0f0f0f0f0f0f0f0f0f0f0f0f0f0f0f0f0f0f0f0f0f0f0f0f0f0f0f0f0f0f0f0f0f0f0f0f0f0f0f0f0f0f0f0f0f0f0f0f0f0f0f0f0f0f0f0f0f0f0f0f0f0f0f\n,settled,12,,\n",
    );
    compare(&rt, counted, (1, 1, true));
    Ok(())
}

#[test]
fn a_shape_stands_behind_the_header(rt: HostRuntime) -> Result<(), Fail> {
    let (sink, counted) = told(rt.alloc(), Shown::Rows(Some(SHAPE)))?;
    assert_text(
        &rt,
        sink.written(),
        b"row,outcome,tick,place,data\n,shape,0,1,64 1 1048576 1024 64 256 3\n2,busy,5,,\n1,stored,9,3,\n,bank,12,7,256 0 exhausted\n,wear,12,,17 9 0 2 18446744073709551615 70 0\n,bytes,12,67108863,0f0f0f0f0f0f0f0f0f0f0f0f0f0f0f0f0f0f0f0f0f0f0f0f0f0f0f0f0f0f0f0f0f0f0f0f0f0f0f0f0f0f0f0f0f0f0f0f0f0f0f0f0f0f0f0f0f0f0f0f0f0f0f0f\n,settled,12,,\n",
    );
    compare(&rt, counted, (1, 1, true));
    Ok(())
}

#[test]
fn more_of_a_module_stands_behind_its_shape(rt: HostRuntime) -> Result<(), Fail> {
    let mut whole = SHAPE;
    whole.rest = Some(REST);
    let (sink, _counted) = told(rt.alloc(), Shown::Rows(Some(whole)))?;
    let written = sink.written();
    let head =
        b"row,outcome,tick,place,data\n,shape,0,2,64 1 1048576 1024 64 256 3 18446744073709551615 100 5 255 cancel guarded\n2,busy,5,,\n";
    assert_text(&rt, &written[..head.len().min(written.len())], head);
    Ok(())
}

#[test]
fn a_stream_may_only_count(rt: HostRuntime) -> Result<(), Fail> {
    let (sink, counted) = told(rt.alloc(), Shown::Nothing)?;
    assert_text(&rt, sink.written(), b"");
    compare(&rt, counted, (1, 1, true));
    Ok(())
}

// Tells a row, and takes a snapshot behind it.
fn told_snapshot(
    out: &mut RowPrinter<64, MemSink>,
    row: u32,
    tick: u64,
    energy: Option<LineEnergy>,
) {
    out.settled(tick);
    let snapshot = Snapshot {
        rows: row,
        tick,
        counts: out.counts(),
        retired: u32::MAX,
        wear: ArrayWear {
            pulses: 17,
            most: 9,
            mean: 0,
            pointers: 2,
            energy,
        },
    };
    out.snapshot(&snapshot);
}

// Snapshots of two rows, of which one is told.
fn taken(alloc: Global) -> Result<(Box<MemSink>, [bool; 2]), Fail> {
    let fails = Vec::from_slice(alloc, &[9])?;
    let sink = Box::new(alloc, MemSink::new(alloc, 4096, fails)?)?;
    let text = Text::new(alloc, TEXT_ROOM)?;
    let mut out = RowPrinter::<64, MemSink>::new(sink, text, Shown::Snapshots(2));
    out.add_row();
    let first = out.is_due();
    out.add_row();
    out.set(2, Outcome::Busy { tick: 5 });
    let second = out.is_due();
    let energy = LineEnergy {
        set: 70,
        reset: 0,
        senses: u64::MAX,
    };
    told_snapshot(&mut out, 2, 5, Some(energy));
    told_snapshot(&mut out, 2, u64::MAX, None);
    let _done = out.flush();
    let (sink, _text) = out.end();
    Ok((sink, [first, second]))
}

#[test]
fn snapshots_stand_behind_multiples(rt: HostRuntime) -> Result<(), Fail> {
    let (sink, due) = taken(rt.alloc())?;
    assert_text(
        &rt,
        sink.written(),
        b"rows,tick,stored,merged,queued,full,worn,read,forwarded,busy,lost,cut,retired,pulses,most,mean,pointers,senses,set,reset\n2,5,0,0,0,0,0,0,0,1,0,0,4294967295,17,9,0,2,18446744073709551615,70,0\n2,18446744073709551615,0,0,0,0,0,0,0,1,0,0,4294967295,17,9,0,2,,,\n",
    );
    compare(&rt, due, [false, true]);
    Ok(())
}
