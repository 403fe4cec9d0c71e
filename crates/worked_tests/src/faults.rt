// A source that is too long, an output that breaks off, and the adapters of std.
use crate::harness::{RunAnswer, SMALL, run, source_of};
use pcm_cells::MemArray;
use pcm_io::{MemSource, StdSink, StdSource};
use pcm_top::pcm_run;
use std::alloc::{AllocError, Global};
use std::test::Fail;

// Runs a small module over seeded cells.
fn run_small(alloc: Global, source: MemSource, out_fails: &[u32]) -> Result<RunAnswer, AllocError> {
    let mut array = MemArray::new();
    let mut wide = MemArray::new();
    run(alloc, SMALL, &mut array, &mut wide, source, out_fails)
}

// A trace of 67,108,864 bytes may be read, and of no more.
#[test]
fn a_trace_may_be_too_long(rt: HostRuntime) -> Result<(), Fail> {
    let alloc = rt.alloc();
    let bytes = vec![in alloc; b'a'; 67_108_865]?;
    let source = MemSource::new(bytes, Vec::new(alloc));
    let answer = run_small(alloc, source, &[])?;
    assert_eq!(rt; answer.told(), (6, "", "trace too long\n"));
    Ok(())
}

// A thousand reads of a line, one behind the other, and the results of that.
fn long_run(alloc: Global) -> Result<(String, String), AllocError> {
    let zeros = "00".repeat(alloc, 64)?;
    let mut trace = String::from_str(alloc, "tick,op,arg,data\n")?;
    let mut results = String::from_str(alloc, "row,op,line,outcome,tick,place,data\n")?;
    for i in 1..1001_u16 {
        let row = u32::from(i);
        writeln!(trace, "{},R,0,", 10 * row)?;
        writeln!(
            results,
            "{row},R,0,read,{},3,{}",
            10 * row + 5,
            zeros.as_str()
        )?;
    }
    Ok((trace, results))
}

#[test]
fn a_fault_amid_the_output_leaves_its_beginning(rt: HostRuntime) -> Result<(), Fail> {
    let alloc = rt.alloc();
    let (trace, results) = long_run(alloc)?;
    let source = source_of(alloc, trace.as_bytes())?;
    let whole = run_small(alloc, source, &[])?;
    let source = source_of(alloc, trace.as_bytes())?;
    let broken = run_small(alloc, source, &[2])?;
    let (status, out, err) = broken.told();
    let begins = results.as_str().starts_with(out);
    let len = out.len();
    assert_eq!(rt; whole.told(), (0, results.as_str(), ""));
    assert_eq!(rt; (status, err, begins), (5, "write fault\n", true));
    assert!(rt; 0 < len && len < results.len());
    Ok(())
}

#[test]
fn the_adapters_of_std_run_it_too(rt: HostRuntime) -> Result<(), Fail> {
    let alloc = rt.alloc();
    let word = String::from_str(alloc, "run")?;
    let mut words = Vec::new(alloc);
    words.push(word)?;
    let mut out = StdSink::new(Vec::new(alloc));
    let mut err = StdSink::new(Vec::new(alloc));
    let status = pcm_run(
        alloc,
        words.as_slice(),
        &mut MemArray::new(),
        &mut MemArray::new(),
        &mut StdSource::new(b"tick,op,arg,data\n0,C,,\n".as_slice()),
        &mut out,
        &mut err,
    );
    assert_eq!(rt; status, 0);
    Ok(())
}
