//! The arrays that a stream is served on, by its words: they count energy only where it may be told, and keep totals only where snapshots are
//! taken, since both take time.
#![tactic(auto)]

ghost use Rattle.std.specs.Prelude.{◌≡◌, map, string_bytes};
ghost use Rattle.stream_words.specs.Jobs.{stream_job_of};
ghost use Rattle.stream_arrays.specs.Arrays.{IsArrayFor, blank};

use pcm_cells::MemArray;
use std::alloc::Global;
use stream_words::{counts_energy, keeps_totals, read_stream_job};
use wear_totals::TotalledArray;

/// An array for lines of 64 bytes.
pub type NarrowArray = TotalledArray<MemArray<64, 8>, 64, 8, 6>;

/// An array for lines of 128 bytes.
pub type WideArray = TotalledArray<MemArray<128, 16>, 128, 16, 8>;

// Arrays without lines, which count energy or not.
fn blank_arrays(counts: bool) -> (MemArray<64, 8>, MemArray<128, 16>)
    ensures { result ≡ (blank counts, blank counts) }
{
    if counts {
        (MemArray::new(), MemArray::new())
    } else {
        (MemArray::without_energy(), MemArray::without_energy())
    }
}

// The same arrays, which keep totals or not.
fn totalled(
    keeps: bool,
    narrow: MemArray<64, 8>,
    wide: MemArray<128, 16>,
) -> (NarrowArray, WideArray)
    ensures { result ≡ (narrow, wide) }
{
    if keeps {
        (
            TotalledArray::with_totals(narrow),
            TotalledArray::with_totals(wide),
        )
    } else {
        (TotalledArray::new(narrow), TotalledArray::new(wide))
    }
}

/// The two arrays, before they are powered up, for the words behind the program's name. Where memory runs out as these are read, the arrays count
/// energy anyway.
pub fn arrays_for(alloc: Global, words: &[String]) -> (NarrowArray, WideArray)
    ensures narrow { IsArrayFor (stream_job_of (map string_bytes words.now)) result.0 }
    ensures wide { IsArrayFor (stream_job_of (map string_bytes words.now)) result.1 }
{
    let asked = read_stream_job(alloc, words);
    let (narrow, wide) = blank_arrays(counts_energy(&asked));
    totalled(keeps_totals(&asked), narrow, wide)
}
