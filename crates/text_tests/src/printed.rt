ghost use Rattle.std.specs.Prelude.{◌≡◌, ◌≤◌, replicate, length, IfOk, OnOk, OnErr};
ghost use Rattle.std.specs.Io.KnownBytes.{Appends};
ghost use Rattle.pcm_io.specs.Giving.{AppendsPrefix};
ghost use Rattle.pcm_io.specs.Reserved.{reserved};
ghost use Rattle.run_text.specs.WearText.{wear_text};
ghost use Rattle.run_text.specs.ResultText.{ArePrintable};

use bank_shape::Role;
use pcm_io::{MemSink, Sink, Text, WriteFault};
use result_rows::{Outcome, Results};
use run_text::{
    print_counts, print_rest, print_results, print_wear_header, print_wear_row, wear_header,
};
use std::alloc::{AllocError, Global};
use std::process::Abort;
use std::test::Fail;
use text_printer::{ROW_ROOM, TEXT_ROOM};
use trace_reader::{Event, EventOp, MOST_ROWS};

// An empty text of so much room, and a sink whose call with this number fails.
fn desk(alloc: Global, room: usize, fails: u32) -> Result<(Text, MemSink), AllocError>
    ensures { IfOk result (λ desk. desk.0 ≡ reserved room) }
{
    let text = Text::new(alloc, room)?;
    let fails = Vec::from_slice(alloc, &[fails])?;
    Ok((text, MemSink::new(alloc, 4096, fails)?))
}

// Compares what a printer answered, and what it wrote.
fn assert_written(
    rt: &impl Abort,
    printed: Result<(Result<(), WriteFault>, MemSink), AllocError>,
    wanted: (Result<(), WriteFault>, &[u8]),
) {
    match printed {
        Ok((done, out)) => assert!(rt; (done, out.written()) == wanted),
        Err(_) => panic!(rt; "no memory"),
    }
}

fn results<const B: usize>(
    alloc: Global,
    events: &[Event<B>],
    results: &Results<B>,
) -> Result<(Result<(), WriteFault>, MemSink), AllocError>
    requires size { B ≤ 128 }
    requires rows { length events.now ≤ MOST_ROWS }
    requires printable { ArePrintable events.now results.now }
{
    let (mut text, mut out) = desk(alloc, TEXT_ROOM, 9)?;
    let done = print_results(events, results, &mut text, &mut out);
    Ok((done, out))
}

#[test]
fn no_rows_have_a_header_alone(rt: HostRuntime) -> Result<(), Fail> {
    let none = Results::<64>::new(rt.alloc(), 0)?;
    let printed = results(rt.alloc(), &[], &none);
    let header = b"row,op,line,outcome,tick,place,data\n";
    assert_written(&rt, printed, (Ok(()), header));
    Ok(())
}

const EVENTS: [Event<8>; 3] = [
    Event {
        tick: 0,
        op: EventOp::Mask(3, [7; 8], [true; 8]),
    },
    Event {
        tick: 9,
        op: EventOp::Cut,
    },
    Event {
        tick: 9,
        op: EventOp::Read(3),
    },
];

// The results of a write that a cut stopped.
fn stopped(alloc: Global) -> Result<(Result<(), WriteFault>, MemSink), AllocError> {
    let mut three = Results::<8>::new(alloc, 3)?;
    three.set(1, Outcome::Stored { tick: 24, place: 5 });
    three.set(2, Outcome::Cut { tick: 9 });
    three.set(
        3,
        Outcome::Forwarded {
            tick: 9,
            bytes: [7; 8],
        },
    );
    results(alloc, &EVENTS, &three)
}

#[test]
fn a_write_that_a_cut_stopped(rt: HostRuntime) {
    let wanted =
        b"row,op,line,outcome,tick,place,data\n1,W,3,stored,24,5,\n2,C,,cut,9,,\n3,R,3,forwarded,9,,0707070707070707\n";
    assert_written(&rt, stopped(rt.alloc()), (Ok(()), wanted));
}

// The counts of two rows, to a sink whose call with this number fails.
fn counts(alloc: Global, fails: u32) -> Result<(Result<(), WriteFault>, MemSink), AllocError> {
    let mut results = Results::<64>::new(alloc, 2)?;
    results.set(1, Outcome::Stored { tick: 15, place: 3 });
    results.set(2, Outcome::Busy { tick: 0 });
    let (mut text, mut out) = desk(alloc, TEXT_ROOM, fails)?;
    let done = print_counts(&results, 3, 17, &mut text, &mut out);
    Ok((done, out))
}

#[test]
fn a_summary_is_written_whole_or_not_at_all(rt: HostRuntime) {
    let whole =
        b"rows 2\nstored 1\nmerged 0\nqueued 0\nfull 0\nworn 0\nread 0\nforwarded 0\nbusy 1\nlost 0\ncut 0\nretired 3\npulses 17\n";
    assert_written(&rt, counts(rt.alloc(), 9), (Ok(()), whole));
    assert_written(&rt, counts(rt.alloc(), 1), (Err(WriteFault), b""));
}

// Prints the report of two array lines into a text that has room for one row.
fn print_two(text: &mut Text, out: &mut MemSink) -> Result<(), WriteFault>
    requires { text.old ≡ reserved ROW_ROOM }
{
    text.push(wear_header());
    print_wear_row(0, 0, 7, Role::Line(2), text, out)?;
    print_wear_row(1, 0, 1, Role::Retired, text, out)?;
    print_rest(text, out)
}

fn report(alloc: Global, fails: u32) -> Result<(Result<(), WriteFault>, MemSink), AllocError> {
    let (mut text, mut out) = desk(alloc, ROW_ROOM, fails)?;
    let done = print_two(&mut text, &mut out);
    Ok((done, out))
}

// Which call of the sink fails, what the report answers, and what is written.
static REPORTS: [(u32, Result<(), WriteFault>, &[u8]); 3] = [
    (
        9,
        Ok(()),
        b"array,bank,pulses,role\n0,0,7,line 2\n1,0,1,retired\n",
    ),
    (1, Err(WriteFault), b""),
    (2, Err(WriteFault), b"array,bank,pulses,role\n"),
];

#[test]
fn a_wear_report_goes_out_piece_by_piece(rt: HostRuntime) {
    for (fails, done, text) in &REPORTS {
        assert_written(&rt, report(rt.alloc(), *fails), (*done, text));
    }
}

// Prints the report of an array of so many spares that were never pulsed, as a caller does who prints it row by row.
fn print_spares<K: Sink>(lines: u32, text: &mut Text, out: &mut K) -> Result<(), WriteFault>
    requires { text.old ≡ reserved TEXT_ROOM }
    ensures ok { OnOk result (Appends (K.written out.old) (K.written out.new)
        (wear_text (replicate lines (0, 0, Role.Free)))) }
    ensures prefix { OnErr result (AppendsPrefix (K.written out.old) (K.written out.new)
        (wear_text (replicate lines (0, 0, Role.Free)))) }
{
    print_wear_header(text);
    for line in 0..lines {
        print_wear_row(line, 0, 0, Role::Free, text, out)?;
    }
    print_rest(text, out)
}

fn looped(alloc: Global) -> Result<(Result<(), WriteFault>, MemSink), AllocError> {
    let (mut text, mut out) = desk(alloc, TEXT_ROOM, 9)?;
    let done = print_spares(2, &mut text, &mut out);
    Ok((done, out))
}

#[test]
fn a_loop_prints_a_whole_report(rt: HostRuntime) {
    let wanted = b"array,bank,pulses,role\n0,0,0,free\n1,0,0,free\n";
    assert_written(&rt, looped(rt.alloc()), (Ok(()), wanted));
}
