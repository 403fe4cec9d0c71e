// What the words of a stream ask of the arrays that it is served on.
ghost use Rattle.std.specs.Prelude.{◌≡◌};
ghost use Rattle.stream_words.specs.Arrays.{counts_energy, is_of_snapshots, keeps_totals};

use crate::job::{StreamJob, StreamPrint};
use command_line::Refusal;

/// Whether a stream whose words were read so may tell of energy, so that its array is to count it: a stream itself needs no count.
pub fn counts_energy(asked: &Result<StreamJob, Refusal>) -> bool
    ensures { result ≡ counts_energy asked.now }
{
    match asked {
        Ok(job) => job.tells_energy(),
        Err(_) => true,
    }
}

/// Whether a stream whose words were read so takes snapshots, so that its array is to keep totals: a stream itself needs none kept.
pub fn keeps_totals(asked: &Result<StreamJob, Refusal>) -> bool
    ensures { result ≡ keeps_totals asked.now }
{
    match asked {
        Ok(job) => takes_snapshots(job.print),
        Err(_) => false,
    }
}

// Whether snapshots are taken.
fn takes_snapshots(print: StreamPrint) -> bool
    ensures { result ≡ is_of_snapshots print }
{
    match print {
        StreamPrint::Snapshots(_) => true,
        StreamPrint::Rows(_)
        | StreamPrint::Summary
        | StreamPrint::Wear(_)
        | StreamPrint::Lines(_)
        | StreamPrint::Map
        | StreamPrint::Energy
        | StreamPrint::Image => false,
    }
}
