use crate::expected::compare;
use command_line::{Input, Job, LineSize, MovesJob, Print, Refusal, read_job};
use module_shape::{Home, Policy, RawShape};
use std::alloc::{AllocError, Global};
use trace_gen::Mix;

// The job of a line of words.
fn read(alloc: Global, line: &str) -> Result<Result<Job, Refusal>, AllocError> {
    let mut words = Vec::new(alloc);
    for word in line.split_ascii_whitespace() {
        words.push(String::from_str(alloc, word)?)?;
    }
    Ok(read_job(alloc, words.as_slice()))
}

const DEFAULTS: RawShape = RawShape {
    banks: 4,
    regions: 2,
    lines: 64,
    spares: 8,
    writes: 32,
    reads: 32,
    psi: 100,
    read_ticks: 5,
    iter_ticks: 10,
    policy: Policy::Pause,
    home: Home::Guarded,
};

const OPTIONS: RawShape = RawShape {
    banks: 2,
    regions: 1,
    lines: 16,
    spares: 3,
    writes: 7,
    reads: 6,
    psi: 9,
    read_ticks: 4,
    iter_ticks: 8,
    policy: Policy::Plain,
    home: Home::Array,
};

const CANCELS: RawShape = RawShape {
    spares: 2,
    policy: Policy::Cancel,
    ..DEFAULTS
};

const CHECKED: RawShape = RawShape {
    spares: 3,
    policy: Policy::Cancel,
    ..DEFAULTS
};

// The size of a line, the sizes of the module and the seed that a line of words asks for, of a run or of a check.
fn sizes(alloc: Global, line: &str) -> Option<(LineSize, RawShape, u64)> {
    match read(alloc, line) {
        Ok(Ok(Job::Run(job))) => Some((job.line, *job.shape.raw(), job.seed)),
        Ok(Ok(Job::Check(job))) => Some((job.line, *job.shape.raw(), job.seed)),
        _ => None,
    }
}

static SIZES: [(&str, (LineSize, RawShape, u64)); 5] = [
    ("run", (LineSize::Bytes64, DEFAULTS, 0)),
    (
        "run --banks 2 --regions 1 --lines=16 --line=128 --spares 3 --write-queue 7 --read-queue 6 --psi 9 --read-ticks 4 --iter-ticks 8 --policy plain --registers=array",
        (LineSize::Bytes128, OPTIONS, 0),
    ),
    (ROWS, (LineSize::Bytes64, DEFAULTS, u64::MAX)),
    (
        "run --policy cancel --registers guarded --spares 2",
        (LineSize::Bytes64, CANCELS, 0),
    ),
    (
        "check --line 128 --spares 3 --policy cancel --seed 7",
        (LineSize::Bytes128, CHECKED, 7),
    ),
];

#[test]
fn a_run_and_a_check_have_defaults_and_options(rt: HostRuntime) {
    for (line, wanted) in &SIZES {
        compare(
            &rt,
            (*line, sizes(rt.alloc(), line)),
            (*line, Some(*wanted)),
        );
    }
}

const ROWS: &str =
    "run --seed 18446744073709551615 --lo 10 --hi 0020 --misses 7 --print wear --input drawn --rows 5 --write-percent 100 --cuts 5 --step 0 --hot 3";

const MIX: Mix = Mix {
    rows: 5,
    write_percent: 100,
    cuts: 5,
    step: 0,
    hot: 3,
};

// How the cells of a run wear out, what it prints and where its rows come from.
fn cells_and_rows(alloc: Global, line: &str) -> Option<((u64, u32, u32, u8), (Print, Input))> {
    match read(alloc, line) {
        Ok(Ok(Job::Run(job))) => {
            let wear = (job.wear.seed, job.wear.lo, job.wear.hi, job.wear.misses);
            Some((wear, (job.print, job.input)))
        }
        _ => None,
    }
}

const LASTING: (u64, u32, u32, u8) = (0, 100_000_000, 100_000_000, 0);

static CELLS: [(&str, ((u64, u32, u32, u8), (Print, Input))); 3] = [
    ("run", (LASTING, (Print::Results, Input::Source))),
    (
        ROWS,
        ((u64::MAX, 10, 20, 7), (Print::Wear, Input::Drawn(MIX))),
    ),
    (
        "run --print image",
        (LASTING, (Print::Image, Input::Source)),
    ),
];

#[test]
fn the_cells_and_the_rows_of_a_run_are_options(rt: HostRuntime) {
    for (line, wanted) in &CELLS {
        compare(
            &rt,
            (*line, cells_and_rows(rt.alloc(), line)),
            (*line, Some(*wanted)),
        );
    }
}

// The size of a line, the lines of the module, the seed and the rows that a line of words asks for.
fn generated(alloc: Global, line: &str) -> Option<(LineSize, u32, u64, Mix)> {
    match read(alloc, line) {
        Ok(Ok(Job::Gen(job))) => Some((job.line, job.shape.total(), job.seed, job.mix)),
        _ => None,
    }
}

const MIX_DEFAULTS: Mix = Mix {
    rows: 1000,
    write_percent: 50,
    cuts: 0,
    step: 10,
    hot: 0,
};

// Two dashes end the options.
static GENERATED: [(&str, (LineSize, u32, u64, Mix)); 2] = [
    ("gen --", (LineSize::Bytes64, 512, 0, MIX_DEFAULTS)),
    (
        "gen --banks 1 --regions 1 --lines 4 --rows 2 --cuts 2 --step 0",
        (
            LineSize::Bytes64,
            4,
            0,
            Mix {
                rows: 2,
                cuts: 2,
                step: 0,
                ..MIX_DEFAULTS
            },
        ),
    ),
];

#[test]
fn a_generated_trace_has_defaults_and_options(rt: HostRuntime) {
    for (line, wanted) in &GENERATED {
        compare(
            &rt,
            (*line, generated(rt.alloc(), line)),
            (*line, Some(*wanted)),
        );
    }
}

// The registers' home, the array lines, the seed and the moves of the map that a line of words asks for.
fn map(alloc: Global, line: &str) -> Option<(Home, u32, u64, u64)> {
    match read(alloc, line) {
        Ok(Ok(Job::Map(job))) => Some((
            job.shape.raw().home,
            job.shape.array_lines(),
            job.seed,
            job.from,
        )),
        _ => None,
    }
}

static MAPS: [(&str, (Home, u32, u64, u64)); 2] = [
    (
        "map --spares 2 --seed 7 --from 16781312",
        (Home::Guarded, 528, 7, 16_781_312),
    ),
    ("map --spares 2 --registers array", (Home::Array, 548, 0, 0)),
];

#[test]
fn a_map_is_told_and_may_have_its_registers_in_the_array(rt: HostRuntime) {
    for (line, wanted) in &MAPS {
        compare(&rt, (*line, map(rt.alloc(), line)), (*line, Some(*wanted)));
    }
}

fn moves(alloc: Global, line: &str) -> Option<MovesJob> {
    match read(alloc, line) {
        Ok(Ok(Job::Moves(job))) => Some(job),
        _ => None,
    }
}

#[test]
fn moves_are_told(rt: HostRuntime) {
    let wanted = MovesJob {
        lines: 256,
        from: 0,
    };
    compare(&rt, moves(rt.alloc(), "moves --lines=256"), Some(wanted));
}

// Whether a saved module is to be shown, or the words are refused.
fn told(alloc: Global, line: &str) -> (bool, bool) {
    match read(alloc, line) {
        Ok(Ok(Job::Show)) => (true, false),
        Ok(Err(Refusal::Usage)) => (false, true),
        _ => (false, false),
    }
}

#[test]
fn a_saved_module_is_shown(rt: HostRuntime) {
    for line in ["show", "show --"] {
        compare(&rt, (line, told(rt.alloc(), line)), (line, (true, false)));
    }
}

static REFUSED: [&str; 34] = [
    "",
    "walk",
    "ru",
    "help",
    "--help",
    "run --help",
    "run 3",
    "run gen",
    "run --psi",
    "run --lines 5",
    "run --psi 1 --psi 1",
    "run --from 1",
    "run --seed=18446744073709551616",
    "run --seed=",
    "run --seed -1",
    "run --seed 000000000000000000001",
    "run --line 064",
    "run --policy cancels",
    "run --registers both",
    "run --registers",
    "run --registers array --registers array",
    "map --registers Array",
    "gen --registers array",
    "moves --registers array",
    "run --hi 99999999",
    "run --lo 100000001",
    "run --cuts 1001",
    "gen -- --rows",
    "map --banks 16 --regions 16 --lines 512",
    "moves --lines 512",
    "moves --lines 24",
    "moves --from 16781313",
    "show x",
    "show --seed 0",
];

#[test]
fn other_words_are_refused(rt: HostRuntime) {
    for line in &REFUSED {
        compare(&rt, (*line, told(rt.alloc(), line)), (*line, (false, true)));
    }
}
