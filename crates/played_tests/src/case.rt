// A case, line by line.
use crate::digits::written_out;
use anyhow::{Result, bail};
use pcm_cells::{Act, Script};
use std::alloc::{AllocError, Global};

// A run of a module of one region of four lines, with two spares and room for four writes and four reads.
const SMALL: &str = "run --banks 1 --regions 1 --lines 4 --spares 2 --write-queue 4 --read-queue 4";

const TRACE_HEADER: &str = "tick,op,arg,data\n";

/// A run, or many that differ in the tick of a power cut or in where the source ends.
#[derive(Drop)]
pub struct Case {
    pub name: String,
    pub words: Vec<String>,
    /// What cells do in place of taking the wanted value.
    pub script: Vec<Script>,
    /// The array is a seeded one in place of one that follows the script.
    pub seeded: bool,
    /// Bytes of a line, 64 or 128.
    pub line_bytes: usize,
    /// The calls that fail of the source and of each sink, by their numbers from 1.
    pub source_fails: Vec<u32>,
    pub out_fails: Vec<u32>,
    pub err_fails: Vec<u32>,
    /// Each sink takes one byte a call, and the source gives one.
    pub one_byte: bool,
    /// The array lines that are shown behind the run.
    pub shown: Vec<u32>,
    /// Where the output is an image, of how many bytes its first pieces are; behind them come rows of cells.
    pub pieces: Vec<u32>,
    /// What is changed in the image, showing by showing.
    pub changes: Vec<String>,
    /// How many rows of the output are shown, the last ones, where not all are.
    pub last: Option<usize>,
    /// The greatest tick of a cut; there is a run for each from 0.
    pub cuts: Option<u32>,
    /// There is a run for each beginning of the source's bytes.
    pub beginnings: bool,
    /// There is a run with a faulty row in each place of the trace.
    pub faults: bool,
    /// There is a run in which the output's first call fails, one in which the second does, and so on to this one.
    pub failures: Option<u32>,
    /// The bytes of the source.
    pub trace: String,
    in_trace: bool,
    /// Its last line was taken.
    pub is_whole: bool,
}

impl Case {
    /// A case of which no line was taken.
    pub fn new(alloc: Global) -> Case {
        Case {
            name: String::new(alloc),
            words: Vec::new(alloc),
            script: Vec::new(alloc),
            seeded: false,
            line_bytes: 64,
            source_fails: Vec::new(alloc),
            out_fails: Vec::new(alloc),
            err_fails: Vec::new(alloc),
            one_byte: false,
            shown: Vec::new(alloc),
            pieces: Vec::new(alloc),
            changes: Vec::new(alloc),
            last: None,
            cuts: None,
            beginnings: false,
            faults: false,
            failures: None,
            trace: String::new(alloc),
            in_trace: false,
            is_whole: false,
        }
    }

    /// Takes the next line of the file.
    pub fn take(&mut self, line: &str) -> Result<()> {
        if line == "end" {
            self.is_whole = true;
        } else if self.in_trace {
            self.take_row(line)?;
        } else if !line.is_empty() && !line.starts_with('#') {
            let (key, rest) = line.split_once(' ').unwrap_or((line, ""));
            self.take_part(key, rest)?;
        }
        Ok(())
    }

    // A row of the trace, without its end where it has the mark for that.
    fn take_row(&mut self, line: &str) -> Result<(), AllocError> {
        let alloc = *self.trace.allocator();
        let row = written_out(alloc, line, self.line_bytes)?;
        self.trace.push_str(row.as_str())?;
        if !line.ends_with("[-]") {
            self.trace.push('\n')?;
        }
        Ok(())
    }

    fn take_part(&mut self, key: &str, rest: &str) -> Result<()> {
        match key {
            "case" => self.name.push_str(rest)?,
            "words" => self.take_words(rest)?,
            "small" => {
                self.take_words(SMALL)?;
                self.take_words(rest)?;
            }
            "cells" => take_script(&mut self.script, rest)?,
            "seeded" => self.seeded = true,
            "wide" => self.line_bytes = 128,
            "source-fails" => take_numbers(&mut self.source_fails, rest)?,
            "out-fails" => take_numbers(&mut self.out_fails, rest)?,
            "err-fails" => take_numbers(&mut self.err_fails, rest)?,
            "one-byte" => self.one_byte = true,
            "show" => take_numbers(&mut self.shown, rest)?,
            "image" => take_numbers(&mut self.pieces, rest)?,
            "changed" => take_texts(&mut self.changes, rest)?,
            "last" => self.last = Some(rest.parse::<usize>()?),
            "cuts" => self.cuts = Some(rest.parse::<u32>()?),
            "beginnings" => self.beginnings = true,
            "faults" => self.faults = true,
            "failures" => self.failures = Some(rest.parse::<u32>()?),
            "trace" => self.in_trace = true,
            "rows" => {
                self.trace.push_str(TRACE_HEADER)?;
                self.in_trace = true;
            }
            _ => bail!("no part of a case: {key}"),
        }
        Ok(())
    }

    // Words of the command line, with blanks between them.
    fn take_words(&mut self, text: &str) -> Result<(), AllocError> {
        take_texts(&mut self.words, text)
    }
}

fn take_texts(texts: &mut Vec<String>, text: &str) -> Result<(), AllocError> {
    let alloc = *texts.allocator();
    for item in text.split_ascii_whitespace() {
        let item = String::from_str(alloc, item)?;
        texts.push(item)?;
    }
    Ok(())
}

fn take_numbers(numbers: &mut Vec<u32>, text: &str) -> Result<()> {
    for number in text.split_ascii_whitespace() {
        let number = number.parse::<u32>()?;
        numbers.push(number)?;
    }
    Ok(())
}

fn take_script(script: &mut Vec<Script>, text: &str) -> Result<()> {
    for item in text.split_ascii_whitespace() {
        let Some(item) = script_item(item) else {
            bail!("no item of a script: {item}");
        };
        script.push(item)?;
    }
    Ok(())
}

// `line,cell,turn,miss`, or at the end `stick0` or `stick1`.
fn script_item(text: &str) -> Option<Script> {
    let (line, rest) = text.split_once(',')?;
    let (cell, rest) = rest.split_once(',')?;
    let (turn, act) = rest.split_once(',')?;
    let line = line.parse::<u32>().ok()?;
    let cell = cell.parse::<u16>().ok()?;
    let turn = turn.parse::<u32>().ok()?;
    let act = match act {
        "miss" => Act::Miss,
        "stick0" => Act::Stick(false),
        "stick1" => Act::Stick(true),
        _ => return None,
    };
    Some(Script {
        line,
        cell,
        turn,
        act,
    })
}
