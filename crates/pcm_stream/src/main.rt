//! The program of streams: it hands its words, standard input, standard output and standard error to `run_stream`, and
//! ends with the status that this answers.
#![tactic(auto)]

use pcm_io::{Sink, StdSink, StdSource, write_all};
use std::process::ExitCode;
use std::{env, io};
use stream_arrays::arrays_for;
use stream_promise::run_stream;

/// The words couldn't be had, for another cause than memory.
const WORDS_FAULT: u8 = 8;

/// Memory ran out.
const OUT_OF_MEMORY: u8 = 7;

// The words behind the program's name.
fn words(rt: &HostRuntime) -> io::Result<Vec<String>> {
    let mut args = env::args(rt)?;
    let _name = args.next();
    let mut words = Vec::new(rt.alloc());
    for word in args {
        words.push(word)?;
    }
    Ok(words)
}

// The status of a stream, if its words and the memory for its output can be had.
fn stream<F: Sink>(rt: &HostRuntime, err: &mut F) -> io::Result<u8> {
    let words = words(rt)?;
    let out = Box::new(rt.alloc(), StdSink::new(rt.stdout()))?;
    let (mut array, mut wide) = arrays_for(rt.alloc(), words.as_slice());
    let (status, _out) = run_stream(
        rt.alloc(),
        words.as_slice(),
        &mut array,
        &mut wide,
        &mut StdSource::new(rt.stdin()),
        out,
        err,
    );
    Ok(status)
}

fn main(rt: HostRuntime) -> ExitCode {
    let mut err = StdSink::new(rt.stderr());
    let status = match stream(&rt, &mut err) {
        Ok(status) => status,
        Err(fault) if fault.kind() == io::ErrorKind::OutOfMemory => {
            let _ = write_all(&mut err, b"out of memory\n");
            OUT_OF_MEMORY
        }
        Err(_) => {
            let _ = write_all(&mut err, b"words fault\n");
            WORDS_FAULT
        }
    };
    ExitCode::from(status)
}
