// What a run over an array that keeps a log shows of its senses.
use crate::harness::{SMALL, run, source_of};
use pcm_cells::{LoggedArray, MemArray, ScriptArray, Sense};
use std::alloc::{AllocError, Global};
use std::test::Fail;

// Of each sense of a log its line, its tick, its cells, and how often the line was pulsed.
fn told(
    alloc: Global,
    log: &[Sense<64, 8>],
) -> Result<Vec<(u32, u64, [u8; 64], [u8; 8], u64)>, AllocError> {
    let mut rows = Vec::new(alloc);
    for sense in log {
        rows.push((
            sense.line,
            sense.tick,
            sense.cells.bits,
            sense.cells.meta,
            sense.pulses,
        ))?;
    }
    Ok(rows)
}

#[test]
fn each_sense_of_a_run_is_logged(rt: HostRuntime) -> Result<(), Fail> {
    let alloc = rt.alloc();
    let ff = "ff".repeat(alloc, 64)?;
    let trace = format!(in alloc; "tick,op,arg,data\n0,W,0,{}\n100,R,0,\n", ff.as_str())?;
    let source = source_of(alloc, trace.as_bytes())?;
    let mut array = LoggedArray::new(alloc, ScriptArray::new(Vec::new(alloc)), 16)?;
    let answer = run(alloc, SMALL, &mut array, &mut MemArray::new(), source, &[])?;
    let rows = told(alloc, array.log().ok_or("no log")?)?;
    let zeros = [0; 64];
    let ones = [0xff; 64];
    let wanted = [
        (3, 5, zeros, [0; 8], 0),
        (3, 15, ones, [0; 8], 1),
        (3, 105, ones, [0; 8], 1),
    ];
    assert_eq!(rt; answer.status, 0);
    assert_eq!(rt; rows.as_slice(), wanted.as_slice());
    Ok(())
}
