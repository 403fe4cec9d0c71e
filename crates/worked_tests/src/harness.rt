// A run of the program.
use cell_rows::CellArray;
use pcm_io::{MemSink, MemSource};
use pcm_top::pcm_run;
use std::alloc::{AllocError, Global};
use std::str;

/// A module of one region of four lines, with two spares and room for four writes and four reads. Lines 0 to 3 begin at
/// the array lines 3, 1, 2 and 0; array line 4 is the gap, 5 and 6 are the spares.
pub const SMALL: &str =
    "run --banks 1 --regions 1 --lines 4 --spares 2 --write-queue 4 --read-queue 4";

// Bytes that a sink has room for.
const SINK_ROOM: usize = 1_048_576;

/// What a run answered.
#[derive(Drop)]
pub struct RunAnswer {
    pub status: u8,
    out: MemSink,
    err: MemSink,
}

impl RunAnswer {
    /// The output.
    pub fn out(&self) -> &str {
        str::from_utf8(self.out.written()).unwrap_or("no text")
    }

    /// The status, the output, and what was said of faults.
    pub fn told(&self) -> (u8, &str, &str) {
        let err = str::from_utf8(self.err.written()).unwrap_or("no text");
        (self.status, self.out(), err)
    }

    /// How many lines the output has.
    pub fn lines(&self) -> usize {
        self.out().lines().count()
    }
}

/// A source of these bytes, of which no call fails.
pub fn source_of(alloc: Global, bytes: &[u8]) -> Result<MemSource, AllocError> {
    let bytes = Vec::from_slice(alloc, bytes)?;
    Ok(MemSource::new(bytes, Vec::new(alloc)))
}

/// A source whose first call fails.
pub fn failing_source(alloc: Global) -> Result<MemSource, AllocError> {
    let fails = Vec::from_slice(alloc, &[1])?;
    Ok(MemSource::new(Vec::new(alloc), fails))
}

// The words of a line, between blanks.
fn words_of(alloc: Global, line: &str) -> Result<Vec<String>, AllocError> {
    let mut words = Vec::new(alloc);
    for word in line.split_ascii_whitespace() {
        let word = String::from_str(alloc, word)?;
        words.push(word)?;
    }
    Ok(words)
}

// A sink of which these calls fail, by their numbers from 1.
fn sink(alloc: Global, fails: &[u32]) -> Result<MemSink, AllocError> {
    let fails = Vec::from_slice(alloc, fails)?;
    MemSink::new(alloc, SINK_ROOM, fails)
}

/// Runs the program on words with blanks between them, where these calls of the output fail.
pub fn run<A: CellArray<64, 8>, V: CellArray<128, 16>>(
    alloc: Global,
    words: &str,
    array: &mut A,
    wide: &mut V,
    mut source: MemSource,
    out_fails: &[u32],
) -> Result<RunAnswer, AllocError> {
    let words = words_of(alloc, words)?;
    let mut out = sink(alloc, out_fails)?;
    let mut err = sink(alloc, &[])?;
    let status = pcm_run(
        alloc,
        words.as_slice(),
        array,
        wide,
        &mut source,
        &mut out,
        &mut err,
    );
    Ok(RunAnswer { status, out, err })
}
