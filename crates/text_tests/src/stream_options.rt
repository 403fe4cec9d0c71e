use crate::expected::compare;
use command_line::{Input, LineSize, Refusal};
use module_shape::{Home, Policy, RawShape};
use std::alloc::{AllocError, Global};
use stream_words::{End, Skip, StreamJob, StreamPrint, StreamUntil, Tell, read_stream_job};
use trace_gen::Mix;

// The job of a line of words.
fn read(alloc: Global, line: &str) -> Result<Result<StreamJob, Refusal>, AllocError> {
    let mut words = Vec::new(alloc);
    for word in line.split_ascii_whitespace() {
        words.push(String::from_str(alloc, word)?)?;
    }
    Ok(read_stream_job(alloc, words.as_slice()))
}

const DEFAULTS: RawShape = RawShape {
    banks: 4,
    regions: 2,
    lines: 64,
    spares: 8,
    writes: 32,
    reads: 32,
    psi: 100,
    read_ticks: 5,
    iter_ticks: 10,
    policy: Policy::Pause,
    home: Home::Guarded,
};

const SHAPE: RawShape = RawShape {
    banks: 2,
    regions: 1,
    lines: 16,
    spares: 3,
    writes: 7,
    reads: 6,
    psi: 9,
    read_ticks: 4,
    iter_ticks: 8,
    policy: Policy::Cancel,
    home: Home::Array,
};

// The size of a line, the sizes of the module and the seed that a line of words asks for.
fn sizes(alloc: Global, line: &str) -> Option<(LineSize, RawShape, u64)> {
    match read(alloc, line) {
        Ok(Ok(job)) => Some((job.line, *job.shape.raw(), job.seed)),
        _ => None,
    }
}

static SIZES: [(&str, (LineSize, RawShape, u64)); 2] = [
    ("", (LineSize::Bytes64, DEFAULTS, 0)),
    (
        "--banks 2 --regions 1 --lines=16 --line=128 --spares 3 --write-queue 7 --read-queue 6 --psi 9 --read-ticks 4 --iter-ticks 8 --policy cancel --registers=array --seed 18446744073709551615",
        (LineSize::Bytes128, SHAPE, u64::MAX),
    ),
];

#[test]
fn the_sizes_of_a_stream_are_those_of_a_run(rt: HostRuntime) {
    for (line, wanted) in &SIZES {
        compare(
            &rt,
            (*line, sizes(rt.alloc(), line)),
            (*line, Some(*wanted)),
        );
    }
}

// The seed, the least and the greatest number of changes and the misses of the cells that a line of words asks for.
fn cells(alloc: Global, line: &str) -> Option<(u64, u32, u32, u8)> {
    match read(alloc, line) {
        Ok(Ok(job)) => Some((job.wear.seed, job.wear.lo, job.wear.hi, job.wear.misses)),
        _ => None,
    }
}

static CELLS: [(&str, (u64, u32, u32, u8)); 2] = [
    ("", (0, 100_000_000, 100_000_000, 0)),
    ("--seed 7 --lo 10 --hi 0020 --misses 7", (7, 10, 20, 7)),
];

#[test]
fn the_cells_of_a_stream_are_those_of_a_run(rt: HostRuntime) {
    for (line, wanted) in &CELLS {
        compare(
            &rt,
            (*line, cells(rt.alloc(), line)),
            (*line, Some(*wanted)),
        );
    }
}

// Rows, and nothing in front of them.
const PLAIN: StreamPrint = StreamPrint::Rows(Tell::Nothing);

// What a line of words prints, where its rows come from, how it ends, and where.
fn ends(alloc: Global, line: &str) -> Option<(StreamPrint, Input, End, StreamUntil)> {
    match read(alloc, line) {
        Ok(Ok(job)) => Some((job.print, job.input, job.end, job.until)),
        _ => None,
    }
}

const MOST: Mix = Mix {
    rows: 4_000_000_000,
    write_percent: 100,
    cuts: 4_000_000_000,
    step: 274,
    hot: 3,
};

// The last tick is at most 2^40.
const LATEST: Mix = Mix {
    rows: 67_108_864,
    write_percent: 50,
    cuts: 0,
    step: 16_384,
    hot: 0,
};

// Two dashes end the options.
static ENDS: [(&str, (StreamPrint, Input, End, StreamUntil)); 18] = [
    ("", (PLAIN, Input::Source, End::Drain, StreamUntil::End)),
    (
        "--print image --input drawn --rows 4000000000 --write-percent 100 --cuts 4000000000 --step 274 --hot 3 --end off",
        (
            StreamPrint::Image,
            Input::Drawn(MOST),
            End::Off,
            StreamUntil::End,
        ),
    ),
    (
        "--input=drawn --rows 67108864 --step 16384 --print=summary --end=drain",
        (
            StreamPrint::Summary,
            Input::Drawn(LATEST),
            End::Drain,
            StreamUntil::End,
        ),
    ),
    (
        "--print wear --input source --end off --",
        (
            StreamPrint::Wear(Skip::Nothing),
            Input::Source,
            End::Off,
            StreamUntil::End,
        ),
    ),
    (
        "--print rows",
        (PLAIN, Input::Source, End::Drain, StreamUntil::End),
    ),
    (
        "--print lines",
        (
            StreamPrint::Lines(Skip::Nothing),
            Input::Source,
            End::Drain,
            StreamUntil::End,
        ),
    ),
    (
        "--skip unpulsed --print=lines",
        (
            StreamPrint::Lines(Skip::Unpulsed),
            Input::Source,
            End::Drain,
            StreamUntil::End,
        ),
    ),
    (
        "--print wear --skip=unpulsed",
        (
            StreamPrint::Wear(Skip::Unpulsed),
            Input::Source,
            End::Drain,
            StreamUntil::End,
        ),
    ),
    (
        "--print wear --skip nothing",
        (
            StreamPrint::Wear(Skip::Nothing),
            Input::Source,
            End::Drain,
            StreamUntil::End,
        ),
    ),
    (
        "--print snapshots",
        (
            StreamPrint::Snapshots(100_000),
            Input::Source,
            End::Drain,
            StreamUntil::End,
        ),
    ),
    (
        "--every 4294967295 --print=snapshots",
        (
            StreamPrint::Snapshots(u32::MAX),
            Input::Source,
            End::Drain,
            StreamUntil::End,
        ),
    ),
    (
        "--until refused --end=off",
        (PLAIN, Input::Source, End::Off, StreamUntil::Refused),
    ),
    (
        "--until=end",
        (PLAIN, Input::Source, End::Drain, StreamUntil::End),
    ),
    (
        "--print map",
        (
            StreamPrint::Map,
            Input::Source,
            End::Drain,
            StreamUntil::End,
        ),
    ),
    (
        "--print energy",
        (
            StreamPrint::Energy,
            Input::Source,
            End::Drain,
            StreamUntil::End,
        ),
    ),
    (
        "--tell shape",
        (
            StreamPrint::Rows(Tell::Shape),
            Input::Source,
            End::Drain,
            StreamUntil::End,
        ),
    ),
    (
        "--print rows --tell=module",
        (
            StreamPrint::Rows(Tell::Module),
            Input::Source,
            End::Drain,
            StreamUntil::End,
        ),
    ),
    (
        "--tell=nothing --print rows",
        (PLAIN, Input::Source, End::Drain, StreamUntil::End),
    ),
];

#[test]
fn a_stream_may_be_long_and_end_without_power(rt: HostRuntime) {
    for (line, wanted) in &ENDS {
        compare(&rt, (*line, ends(rt.alloc(), line)), (*line, Some(*wanted)));
    }
}

static REFUSED: [&str; 51] = [
    "run",
    "3",
    "--help",
    "-h",
    "--version",
    "--print results",
    "--print",
    "--print rows --print rows",
    "--end on",
    "--end",
    "--end=",
    "--end off --end off",
    "--end -- off",
    "-- --end off",
    "--en off",
    "--from 1",
    "--rows 0",
    "--rows 4000000001",
    "--cuts 1001",
    "--rows 5000 --cuts 5001",
    "--step 65536",
    "--rows 4000000000 --step 275",
    "--rows 67108865 --step 16384 --input source",
    "--hi 99999999",
    "--policy cancels",
    "--every 7",
    "--every 7 --print rows",
    "--print snapshots --every 0",
    "--print snapshots --every 4294967296",
    "--until",
    "--until worn",
    "--until=",
    "--until refused --until refused",
    "--tell",
    "--tell=",
    "--tell sizes",
    "--tell module --print summary",
    "--tell shape --tell shape",
    "--tell shape --print summary",
    "--print snapshots --tell shape",
    "--print energy --tell nothing",
    "--skip",
    "--skip unpulsed",
    "--print wear --skip",
    "--print wear --skip=",
    "--print lines --skip pulsed",
    "--print wear --skip unpulsed --skip unpulsed",
    "--print summary --skip nothing",
    "--print map --skip unpulsed",
    "--print map --tell shape",
    "--print snapshots --skip unpulsed",
];

fn is_refused(alloc: Global, line: &str) -> bool {
    match read(alloc, line) {
        Ok(Err(Refusal::Usage)) => true,
        _ => false,
    }
}

#[test]
fn other_words_are_refused(rt: HostRuntime) {
    for line in &REFUSED {
        compare(&rt, (*line, is_refused(rt.alloc(), line)), (*line, true));
    }
}
