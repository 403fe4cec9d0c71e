// The bytes of a stream's lines.
ghost use Rattle.std.specs.Prelude.{◌≡◌, ◌+◌, ◌*◌, ◌≤◌, length};
ghost use Rattle.pcm_io.specs.Reserved.{room_in, appended};
ghost use Rattle.row_printer.specs.Telling.{bank_row, bytes_row, driven_text, home_word, mark_word, policy_word, rest_text, settled_row, shape_row, told_head, told_header, told_line, told_row, version_of, wear_row};

use crate::told::{ArrayWear, Backlog, Mark, PeekedLine, Told, ToldRest, ToldShape};
use bank_shape::{Home, Policy};
use cell_rows::LineEnergy;
use pcm_io::Text;
use result_rows::{Outcome, print_outcome};

/// The first line of a stream, with its LF.
pub fn stream_header() -> &'static [u8]
    ensures { result.now ≡ told_header }
{
    b"row,outcome,tick,place,data\n"
}

/// Appends what stands in front of all lines of a stream: its header, and behind that the module's shape, where it is given.
pub fn print_head<const B: usize>(shape: Option<ToldShape>, text: &mut Text)
    requires size { B ≤ 128 }
    requires room { 256 ≤ room_in text.old }
    ensures { text.new ≡ appended text.old (told_head B shape) }
{
    text.push(stream_header());
    match shape {
        None => {}
        Some(told) => print_shape::<B>(&told, text),
    }
}

// The shape of a module whose lines have B bytes.
#[tactic(auto, using(pcm_io::proofs::DigitLemmas::ten_digits, pcm_io::proofs::DigitLemmas::twenty_digits))]
fn print_shape<const B: usize>(shape: &ToldShape, text: &mut Text)
    requires size { B ≤ 128 }
    requires room { 200 ≤ room_in text.old }
    ensures { text.new ≡ appended text.old (shape_row B shape.now) }
{
    text.push(b",shape,0,");
    text.push_number_then(version(&shape.rest), b",");
    text.push_number_then(shape.banks as u64, b" ");
    text.push_number_then(shape.regions as u64, b" ");
    text.push_number_then(shape.lines as u64, b" ");
    text.push_number_then(shape.spares as u64, b" ");
    text.push_number_then(B as u64, b" ");
    text.push_number_then(shape.writes as u64, b" ");
    text.push_number(shape.reads as u64);
    print_rest(&shape.rest, text);
    text.push(b"\n");
}

// The version of the row of a shape, by what else it tells.
fn version(rest: &Option<ToldRest>) -> u64
    ensures { result ≡ version_of rest.now }
{
    match rest {
        None => 1,
        Some(_) => 2,
    }
}

// What it tells besides, a blank before each.
#[tactic(auto, using(pcm_io::proofs::DigitLemmas::ten_digits, pcm_io::proofs::DigitLemmas::twenty_digits))]
fn print_rest(rest: &Option<ToldRest>, text: &mut Text)
    requires { 80 ≤ room_in text.old }
    ensures after { text.new ≡ appended text.old (rest_text rest.now) }
    ensures room { room_in text.old ≤ room_in text.new + 80 }
{
    let Some(rest) = rest else {
        return;
    };
    text.push(b" ");
    text.push_number_then(rest.seed, b" ");
    text.push_number_then(rest.psi as u64, b" ");
    text.push_number_then(rest.read_ticks as u64, b" ");
    text.push_number_then(rest.iter_ticks as u64, b" ");
    text.push(policy_word(rest.policy));
    text.push(b" ");
    text.push(home_word(rest.home));
}

// The word of a policy.
fn policy_word(policy: Policy) -> &'static [u8]
    ensures word { result.now ≡ policy_word policy }
    ensures short { length result.now ≤ 6 }
{
    match policy {
        Policy::Pause => b"pause",
        Policy::Plain => b"plain",
        Policy::Cancel => b"cancel",
    }
}

// The word of where registers are kept.
fn home_word(home: Home) -> &'static [u8]
    ensures word { result.now ≡ home_word home }
    ensures short { length result.now ≤ 7 }
{
    match home {
        Home::Guarded => b"guarded",
        Home::Array => b"array",
    }
}

/// Appends a line of a stream: numbers in decimal, bytes in lower-case hexadecimal digits, LF at the end.
pub fn print_told<const B: usize>(told: &Told<B>, text: &mut Text)
    requires size { B ≤ 128 }
    requires room { 320 ≤ room_in text.old }
    ensures { text.new ≡ appended text.old (told_line told.now) }
{
    match told {
        Told::Became(row, outcome) => print_became(*row, outcome, text),
        Told::Bank(tick, backlog) => print_bank(*tick, backlog, text),
        Told::Looked(tick, wear) => print_wear(*tick, wear, text),
        Told::Peeked(tick, newest) => print_newest(*tick, newest, text),
        Told::Settled(tick) => print_settled(*tick, text),
    }
}

// What became of a row.
#[tactic(auto, using(pcm_io::proofs::DigitLemmas::ten_digits))]
fn print_became<const B: usize>(row: u32, outcome: &Outcome<B>, text: &mut Text)
    requires size { B ≤ 128 }
    requires room { 64 + 2 * B ≤ room_in text.old }
    ensures { text.new ≡ appended text.old (told_row row outcome.now) }
{
    text.push_number_then(row as u64, b",");
    print_outcome(outcome, text);
}

// What waits in a bank at a tick.
#[tactic(auto, using(pcm_io::proofs::DigitLemmas::ten_digits, pcm_io::proofs::DigitLemmas::twenty_digits, crate::proofs::Pieces::few_digits))]
fn print_bank(tick: u64, backlog: &Backlog, text: &mut Text)
    requires { 64 ≤ room_in text.old }
    ensures { text.new ≡ appended text.old (bank_row tick backlog.now) }
{
    text.push(b",bank,");
    text.push_number_then(tick, b",");
    text.push_number_then(backlog.bank as u64, b",");
    text.push_number_then(backlog.writes as u64, b" ");
    text.push_number_then(backlog.reads as u64, b" ");
    text.push(word_of(backlog.mark));
    text.push(b"\n");
}

// The word of a mark.
fn word_of(mark: Mark) -> &'static [u8]
    ensures word { result.now ≡ mark_word mark }
    ensures short { length result.now ≤ 9 }
{
    match mark {
        Mark::Going => b"going",
        Mark::Exhausted => b"exhausted",
        Mark::Halted => b"halted",
    }
}

// How worn the array is at a tick.
#[tactic(auto, using(pcm_io::proofs::DigitLemmas::twenty_digits))]
fn print_wear(tick: u64, wear: &ArrayWear, text: &mut Text)
    requires { 320 ≤ room_in text.old }
    ensures { text.new ≡ appended text.old (wear_row tick wear.now) }
{
    text.push(b",wear,");
    text.push_number_then(tick, b",,");
    text.push_number_then(wear.pulses, b" ");
    text.push_number_then(wear.most, b" ");
    text.push_number_then(wear.mean, b" ");
    text.push_number_then(wear.pointers, b" ");
    push_driven(wear.energy, text);
    text.push(b"\n");
}

// What the newest bytes of a line are at a tick.
#[tactic(auto, using(pcm_io::proofs::DigitLemmas::ten_digits, pcm_io::proofs::DigitLemmas::twenty_digits))]
fn print_newest<const B: usize>(tick: u64, newest: &PeekedLine<B>, text: &mut Text)
    requires size { B ≤ 128 }
    requires room { 320 ≤ room_in text.old }
    ensures { text.new ≡ appended text.old (bytes_row tick newest.now) }
{
    text.push(b",bytes,");
    text.push_number_then(tick, b",");
    text.push_number_then(newest.line as u64, b",");
    text.push_hex(&newest.bytes);
    text.push(b"\n");
}

// How often was sensed, and how many cells were driven to 1 and to 0, blanks between them.
#[tactic(auto, using(pcm_io::proofs::DigitLemmas::twenty_digits))]
fn push_driven(energy: Option<LineEnergy>, text: &mut Text)
    requires { 62 ≤ room_in text.old }
    ensures after { text.new ≡ appended text.old (driven_text energy) }
    ensures room { room_in text.old ≤ room_in text.new + 62 }
{
    match energy {
        Some(energy) => {
            text.push_number_then(energy.senses, b" ");
            text.push_number_then(energy.set, b" ");
            text.push_number(energy.reset);
        }
        None => text.push(b"  "),
    }
}

// A tick to which every bank has come.
#[tactic(auto, using(pcm_io::proofs::DigitLemmas::twenty_digits))]
fn print_settled(tick: u64, text: &mut Text)
    requires { 64 ≤ room_in text.old }
    ensures { text.new ≡ appended text.old (settled_row tick) }
{
    text.push(b",settled,");
    text.push_number_then(tick, b",,\n");
}
