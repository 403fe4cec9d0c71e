// The summary of a run: its thirteen lines, and how they are written.
ghost use Rattle.std.specs.Prelude.{◌≡◌, ◌+◌, ◌≤◌, length, OnOk, OnErr};
ghost use Rattle.std.specs.Io.KnownBytes.{Appends};
ghost use Rattle.pcm_io.specs.Faults.{Rose};
ghost use Rattle.pcm_io.specs.Giving.{AppendsPrefix};
ghost use Rattle.pcm_io.specs.Reserved.{appended, reserved, room_in};
ghost use Rattle.run_text.specs.Counting.{counts_of};
ghost use Rattle.run_text.specs.SummaryText.{line_text, summary_text};

use crate::counts::OutcomeCounts;
use crate::room::print_rest;
use pcm_io::{Sink, Text, WriteFault};
use result_rows::Results;
use text_printer::TEXT_ROOM;

/// Appends the summary of a run: its rows and how many had each outcome, the spares in use, and the pulses of all array
/// lines.
pub fn print_summary(rows: u32, counts: &OutcomeCounts, retired: u32, pulses: u64, text: &mut Text)
    requires room { 512 ≤ room_in text.old }
    ensures after { text.new ≡ appended text.old (summary_text rows counts.now retired pulses) }
    ensures room { room_in text.old ≤ room_in text.new + 512 }
{
    push_line(b"rows", rows as u64, text);
    push_line(b"stored", counts.stored as u64, text);
    push_line(b"merged", counts.merged as u64, text);
    push_line(b"queued", counts.queued as u64, text);
    push_line(b"full", counts.full as u64, text);
    push_line(b"worn", counts.worn as u64, text);
    push_line(b"read", counts.read as u64, text);
    push_line(b"forwarded", counts.forwarded as u64, text);
    push_line(b"busy", counts.busy as u64, text);
    push_line(b"lost", counts.lost as u64, text);
    push_line(b"cut", counts.cut as u64, text);
    push_line(b"retired", retired as u64, text);
    push_line(b"pulses", pulses, text);
}

// Appends one line; its number has at most twenty digits.
#[tactic(auto, using(pcm_io::proofs::DigitLemmas::twenty_digits))]
fn push_line(word: &[u8], number: u64, text: &mut Text)
    requires short { length word.now ≤ 9 }
    requires room { 31 ≤ room_in text.old }
    ensures after { text.new ≡ appended text.old (line_text word.now number) }
    ensures room { room_in text.old ≤ room_in text.new + 31 }
{
    text.push(word);
    text.push(b" ");
    text.push_number_then(number, b"\n");
}

/// Writes the summary of a run: how many rows it has and how many had each outcome, how many spares are used, and how many
/// pulses the array had. The text is empty at first.
pub fn print_counts<const B: usize, K: Sink>(
    results: &Results<B>,
    retired: u32,
    pulses: u64,
    text: &mut Text,
    out: &mut K,
) -> Result<(), WriteFault>
    requires size { B ≤ 128 }
    requires room { text.old ≡ reserved TEXT_ROOM }
    ensures ok { OnOk result (Appends (K.written out.old) (K.written out.new)
        (summary_text (length results.now) (counts_of results.now) retired pulses)) }
    ensures prefix { OnErr result (AppendsPrefix (K.written out.old) (K.written out.new)
        (summary_text (length results.now) (counts_of results.now) retired pulses)) }
    ensures fault { OnErr result (Rose (K.faults out.old) (K.faults out.new)) }
    ensures never_falls { K.faults out.old ≤ K.faults out.new }
{
    let counts = OutcomeCounts::of(results);
    print_summary(results.rows(), &counts, retired, pulses, text);
    print_rest(text, out)
}
