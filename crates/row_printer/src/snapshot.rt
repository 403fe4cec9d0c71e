// What a module stands at behind a row, and its line.
ghost use Rattle.std.specs.Prelude.{◌≡◌, ◌+◌, ◌≤◌};
ghost use Rattle.pcm_io.specs.Reserved.{room_in, appended};
ghost use Rattle.row_printer.specs.Snapshots.{counts_text, snapshot_line, snapshots_header as header_text};

use crate::told::ArrayWear;
use energy_report::push_energy;
use pcm_io::Text;
use run_text::OutcomeCounts;

/// What stands behind a row of a stream, and in the end.
#[derive(Clone, Copy, PartialEq, Eq)]
pub struct Snapshot {
    /// The rows that were served.
    pub rows: u32,
    /// The tick that was reached.
    pub tick: u64,
    /// How many rows had each outcome.
    pub counts: OutcomeCounts,
    /// The spares in use.
    pub retired: u32,
    /// How worn the array is.
    pub wear: ArrayWear,
}

/// The first line of snapshots, with its LF.
pub fn snapshots_header() -> &'static [u8]
    ensures { result.now ≡ header_text }
{
    b"rows,tick,stored,merged,queued,full,worn,read,forwarded,busy,lost,cut,retired,pulses,most,mean,pointers,senses,set,reset\n"
}

/// Appends the line of a snapshot: numbers in decimal, LF at the end.
#[tactic(auto, using(pcm_io::proofs::DigitLemmas::ten_digits, pcm_io::proofs::DigitLemmas::twenty_digits))]
pub fn print_snapshot(snapshot: &Snapshot, text: &mut Text)
    requires room { 320 ≤ room_in text.old }
    ensures { text.new ≡ appended text.old (snapshot_line snapshot.now) }
{
    text.push_number_then(snapshot.rows as u64, b",");
    text.push_number_then(snapshot.tick, b",");
    push_counts(&snapshot.counts, text);
    text.push_number_then(snapshot.retired as u64, b",");
    text.push_number_then(snapshot.wear.pulses, b",");
    text.push_number_then(snapshot.wear.most, b",");
    text.push_number_then(snapshot.wear.mean, b",");
    text.push_number_then(snapshot.wear.pointers, b",");
    push_energy(snapshot.wear.energy, text);
    text.push(b"\n");
}

// The counts in the order of the summary, a comma behind each.
#[tactic(auto, using(pcm_io::proofs::DigitLemmas::ten_digits))]
fn push_counts(counts: &OutcomeCounts, text: &mut Text)
    requires { 110 ≤ room_in text.old }
    ensures after { text.new ≡ appended text.old (counts_text counts.now) }
    ensures room { room_in text.old ≤ room_in text.new + 110 }
{
    text.push_number_then(counts.stored as u64, b",");
    text.push_number_then(counts.merged as u64, b",");
    text.push_number_then(counts.queued as u64, b",");
    text.push_number_then(counts.full as u64, b",");
    text.push_number_then(counts.worn as u64, b",");
    text.push_number_then(counts.read as u64, b",");
    text.push_number_then(counts.forwarded as u64, b",");
    text.push_number_then(counts.busy as u64, b",");
    text.push_number_then(counts.lost as u64, b",");
    text.push_number_then(counts.cut as u64, b",");
}
