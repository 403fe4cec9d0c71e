// The results of a run, one row for each event.
ghost use Rattle.std.specs.Prelude.{◌≡◌, ◌≤◌, length, OnOk, OnErr};
ghost use Rattle.std.specs.Io.KnownBytes.{Appends};
ghost use Rattle.pcm_io.specs.Faults.{Rose};
ghost use Rattle.pcm_io.specs.Giving.{AppendsPrefix};
ghost use Rattle.pcm_io.specs.Reserved.{reserved};
ghost use Rattle.text_printer.specs.Printing.{Prints};
ghost use Rattle.result_rows.specs.RowText.{row_text};
ghost use Rattle.run_text.specs.ResultText.{ArePrintable, IsPrintable, asked, named_line, results_text, rows_text};

use pcm_io::{Sink, Text, WriteFault};
use result_rows::{Op, Outcome, Results, header, print_row};
use text_printer::{Printer, ROW_ROOM, TEXT_ROOM};
use trace_reader::{Event, EventOp, MOST_ROWS};

// What a row asks for, as its result shows it.
fn asked_by<const B: usize>(op: &EventOp<B>) -> Op
    ensures { result ≡ asked op.now }
{
    match op {
        EventOp::Read(_) => Op::Read,
        EventOp::Write(..) | EventOp::Mask(..) => Op::Write,
        EventOp::Cut => Op::Cut,
    }
}

// The line that a row names; a cut names none, and 0 stands for that.
fn line_named_by<const B: usize>(op: &EventOp<B>) -> u32
    ensures { result ≡ named_line op.now }
{
    match op {
        EventOp::Read(line) | EventOp::Write(line, _) | EventOp::Mask(line, _, _) => *line,
        EventOp::Cut => 0,
    }
}

// Adds the row of an event.
fn print_event<const B: usize, K: Sink>(
    row: u32,
    event: &Event<B>,
    outcome: &Outcome<B>,
    printer: &mut Printer<K>,
)
    requires limit { ROW_ROOM ≤ printer.old.text.now.limit }
    requires size { B ≤ 128 }
    requires printable { IsPrintable event.now outcome.now }
    ensures { Prints K.written K.faults printer.old printer.new
        (row_text row (asked event.now.op) (named_line event.now.op) outcome.now) }
{
    printer.make_room();
    let op = asked_by(&event.op);
    let line = line_named_by(&event.op);
    print_row(row, op, line, outcome, printer.text);
}

// Adds a row for each event.
fn print_events<const B: usize, K: Sink>(
    events: &[Event<B>],
    results: &Results<B>,
    printer: &mut Printer<K>,
)
    requires limit { ROW_ROOM ≤ printer.old.text.now.limit }
    requires size { B ≤ 128 }
    requires rows { length events.now ≤ MOST_ROWS }
    requires printable { ArePrintable events.now results.now }
    ensures { Prints K.written K.faults printer.old printer.new
        (rows_text 1 events.now results.now) }
{
    for (i, event) in events.iter().enumerate() {
        if printer.failed() {
            return;
        }
        let row = i as u32 + 1;
        print_event(row, event, results.get(row), printer);
    }
}

/// Writes the header of the results and one row for each event. The text is empty at first.
pub fn print_results<const B: usize, K: Sink>(
    events: &[Event<B>],
    results: &Results<B>,
    text: &mut Text,
    out: &mut K,
) -> Result<(), WriteFault>
    requires size { B ≤ 128 }
    requires room { text.old ≡ reserved TEXT_ROOM }
    requires rows { length events.now ≤ MOST_ROWS }
    requires printable { ArePrintable events.now results.now }
    ensures ok { OnOk result (Appends (K.written out.old) (K.written out.new)
        (results_text events.now results.now)) }
    ensures prefix { OnErr result (AppendsPrefix (K.written out.old) (K.written out.new)
        (results_text events.now results.now)) }
    ensures fault { OnErr result (Rose (K.faults out.old) (K.faults out.new)) }
    ensures never_falls { K.faults out.old ≤ K.faults out.new }
{
    let mut printer = Printer::new(text, out);
    printer.push(header());
    print_events(events, results, &mut printer);
    printer.finish()
}
