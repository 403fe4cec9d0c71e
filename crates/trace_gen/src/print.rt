//! The rows of a trace.
ghost use Rattle.std.specs.Prelude.{◌≡◌, ◌+◌, ◌*◌, ◌≤◌, ◌∷◌, ◌++◌, codes, length};
ghost use Rattle.pcm_io.specs.Reserved.{room_in, appended};
ghost use Rattle.hex.specs.Hex.{encode_lower};
ghost use Rattle.trace_gen.specs.EventText.{trace_header, pair_text, masked_text, op_letter, line_text, data_text, event_row};

use pcm_io::Text;
use trace_reader::{Event, EventOp};

/// The first line of a trace, with its LF.
pub fn header() -> &'static [u8]
    ensures { result.now ≡ trace_header }
{
    b"tick,op,arg,data\n"
}

/// Appends the row of one event: numbers in decimal, bytes in lower-case hexadecimal digits, LF at the end.
#[tactic(auto, using(pcm_io::proofs::DigitLemmas::twenty_digits))]
pub fn print_event<const B: usize>(event: &Event<B>, text: &mut Text)
    requires size { B ≤ 128 }
    requires room { 64 + 2 * B ≤ room_in text.old }
    ensures after { text.new ≡ appended text.old (event_row event.now) }
    ensures room { room_in text.old ≤ room_in text.new + (64 + 2 * B) }
{
    text.push_number_then(event.tick, b",");
    text.push_field(letter(&event.op));
    push_line(&event.op, text);
    push_data(&event.op, text);
    text.push(b"\n");
}

fn letter<const B: usize>(op: &EventOp<B>) -> &'static [u8]
    ensures letter { result.now ≡ op_letter op.now }
    ensures short { length result.now ≡ 1 }
{
    match op {
        EventOp::Read(_) => b"R",
        EventOp::Write(_, _) => b"W",
        EventOp::Mask(_, _, _) => b"M",
        EventOp::Cut => b"C",
    }
}

// The line that an event names, or nothing, and the comma behind it.
#[tactic(auto, using(pcm_io::proofs::DigitLemmas::ten_digits))]
fn push_line<const B: usize>(op: &EventOp<B>, text: &mut Text)
    requires room { 11 ≤ room_in text.old }
    ensures after { text.new ≡ appended text.old (line_text op.now ++ codes ",") }
    ensures room { room_in text.old ≤ room_in text.new + 11 }
{
    match op {
        EventOp::Read(line) | EventOp::Write(line, _) | EventOp::Mask(line, _, _) =>
            text.push_number_then(*line as u64, b","),
        EventOp::Cut => text.push(b","),
    }
}

fn push_data<const B: usize>(op: &EventOp<B>, text: &mut Text)
    requires size { B ≤ 128 }
    requires room { 2 * B ≤ room_in text.old }
    ensures after { text.new ≡ appended text.old (data_text op.now) }
    ensures room { room_in text.old ≤ room_in text.new + 2 * B }
{
    match op {
        EventOp::Write(_, bytes) => text.push_hex(bytes),
        EventOp::Mask(_, bytes, given) => push_masked(bytes, given, text),
        EventOp::Read(_) | EventOp::Cut => {}
    }
}

fn push_pair(byte: u8, given: bool, text: &mut Text)
    requires room { 2 ≤ room_in text.old }
    ensures after { text.new ≡ appended text.old (pair_text byte given) }
    ensures room { room_in text.new + 2 ≡ room_in text.old }
{
    if given {
        text.push_hex(&[byte]);
    } else {
        text.push(b"..");
    }
}

fn push_masked<const B: usize>(bytes: &[u8; B], given: &[bool; B], text: &mut Text)
    requires size { B ≤ 128 }
    requires room { 2 * B ≤ room_in text.old }
    ensures after { text.new ≡ appended text.old (masked_text bytes.now given.now) }
    ensures room { room_in text.new + 2 * B ≡ room_in text.old }
{
    for i in 0..B {
        push_pair(bytes[i], given[i], text);
    }
}
