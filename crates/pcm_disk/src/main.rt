//! The program of disks: it hands its words, standard input, standard output and standard error to
//! `run_disk`, and ends with the status that this answers.
#![tactic(auto)]

use disk_top::run_disk;
use pcm_io::{Sink, StdSink, StdSource, write_all};
use std::process::ExitCode;
use std::{env, io};

/// The words couldn't be had, for another cause than memory.
const WORDS_FAULT: u8 = 8;

/// Memory ran out.
const OUT_OF_MEMORY: u8 = 7;

// The words behind the program's name.
fn words(rt: &HostRuntime) -> io::Result<Vec<String>> {
    let mut args = env::args(rt)?;
    let _name = args.next();
    let mut words = Vec::new(rt.alloc());
    for word in args {
        words.push(word)?;
    }
    Ok(words)
}

// The status of a client that was served, if the words can be had.
fn serve<F: Sink>(rt: &HostRuntime, err: &mut F) -> io::Result<u8> {
    let words = words(rt)?;
    let (status, _remains) = run_disk(
        rt.alloc(),
        words.as_slice(),
        &mut StdSource::new(rt.stdin()),
        &mut StdSink::new(rt.stdout()),
        err,
    );
    Ok(status)
}

fn main(rt: HostRuntime) -> ExitCode {
    let mut err = StdSink::new(rt.stderr());
    let status = match serve(&rt, &mut err) {
        Ok(status) => status,
        Err(fault) if fault.kind() == io::ErrorKind::OutOfMemory => {
            let _ = write_all(&mut err, b"out of memory\n");
            OUT_OF_MEMORY
        }
        Err(_) => {
            let _ = write_all(&mut err, b"words fault\n");
            WORDS_FAULT
        }
    };
    ExitCode::from(status)
}
