// Runs over traces that a seed draws, on seeded cells that wear out.
use crate::harness::{RunAnswer, failing_source, run, source_of};
use pcm_cells::MemArray;
use std::alloc::{AllocError, Global};
use std::process::Abort;
use std::test::Fail;

// Runs a line of words over seeded arrays, the source giving these bytes or, where none are given, failing at once.
fn run_seeded(alloc: Global, words: &str, bytes: Option<&[u8]>) -> Result<RunAnswer, AllocError> {
    let source = match bytes {
        Some(bytes) => source_of(alloc, bytes)?,
        None => failing_source(alloc)?,
    };
    let mut array = MemArray::new();
    let mut wide = MemArray::new();
    run(alloc, words, &mut array, &mut wide, source, &[])
}

const CELLS: &str = "--spares 3 --lo 20 --hi 90 --misses 2";

// A trace that is generated.
fn generate(alloc: Global, shape: &str, mix: &str) -> Result<RunAnswer, AllocError> {
    let words = format!(in alloc; "gen {shape} {mix}")?;
    run_seeded(alloc, words.as_str(), None)
}

// What a run makes of the trace that was generated.
fn read_back(alloc: Global, shape: &str, generated: &RunAnswer) -> Result<RunAnswer, AllocError> {
    let words = format!(in alloc; "run {shape} {CELLS}")?;
    run_seeded(alloc, words.as_str(), Some(generated.out().as_bytes()))
}

// What a run makes of a trace that it draws.
fn draw(alloc: Global, shape: &str, mix: &str) -> Result<RunAnswer, AllocError> {
    let words = format!(in alloc; "run {shape} {CELLS} --input drawn {mix}")?;
    run_seeded(alloc, words.as_str(), None)
}

// A generated trace that is read back gives the results of the same trace drawn.
fn check_drawn(rt: &impl Abort, alloc: Global, shape: &str, mix: &str) -> Result<(), AllocError> {
    let generated = generate(alloc, shape, mix)?;
    let read = read_back(alloc, shape, &generated)?;
    assert_eq!(rt;
        (generated.status, read.lines(), read.status <= 1),
        (0, generated.lines(), true)
    );
    let drawn = draw(alloc, shape, mix)?;
    assert_eq!(rt; read.told(), drawn.told());
    Ok(())
}

#[test]
fn a_generated_trace_is_run_as_it_was_drawn(rt: HostRuntime) -> Result<(), Fail> {
    for (shape, mix) in [
        (
            "--banks 1 --regions 1 --lines 4 --seed 3",
            "--rows 300 --step 3 --hot 2 --cuts 7",
        ),
        (
            "--banks 2 --regions 4 --lines 8 --seed 3 --line 128",
            "--rows 500 --hot 100 --cuts 500",
        ),
        (
            "--banks 4 --regions 1 --lines 16 --seed 3 --line 128",
            "--rows 700 --hot 5 --step 60",
        ),
    ] {
        check_drawn(&rt, rt.alloc(), shape, mix)?;
    }
    Ok(())
}
