// Runs of a case, and what is told of them.
ghost use Rattle.cell_rows.specs.Shape.{IsShape};

use crate::case::Case;
use crate::digits::in_short;
use crate::sink::CaseSink;
use crate::source::CaseSource;
use crate::stream::{are_same, without_op};
use crate::tally::TextTally;
use explain_top::explain_run;
use pcm_cells::{CellArray, Cells, MemArray, ScriptArray};
use pcm_top::pcm_run;
use std::alloc::{AllocError, Global};
use std::str;
use stream_top::stream_run;
use wear_totals::{TellsWear, TotalledArray};

/// What a run answered.
#[derive(Drop)]
struct CaseAnswer {
    status: u8,
    // The bytes that were written, and how they are shown.
    bytes: Vec<u8>,
    out: String,
    err: String,
    // How many lines each array has in the end, and what the shown lines hold, a text line for each.
    arrays: String,
}

/// A case's name; then what its run wrote, its status and what the shown lines hold, or what its many runs came to.
pub fn played(alloc: Global, case: &Case) -> Result<String, AllocError> {
    let mut text = format!(in alloc; "case {}\n", case.name.as_str())?;
    if let Some(last) = case.cuts {
        let runs = cut_runs(alloc, case, last)?;
        runs.push_to(&mut text)?;
    } else if case.beginnings {
        let runs = short_runs(alloc, case)?;
        runs.push_to(&mut text)?;
    } else if case.faults {
        let runs = faulty_runs(alloc, case)?;
        runs.push_to(&mut text)?;
    } else if let Some(last) = case.failures {
        let runs = failing_runs(alloc, case, last)?;
        runs.push_to(&mut text)?;
    } else {
        push_one(&mut text, case)?;
    }
    Ok(text)
}

// What one run wrote and left, and what a stream of the same rows made of it where it didn't print the same.
fn push_one(text: &mut String, case: &Case) -> Result<(), AllocError> {
    let alloc = *text.allocator();
    let answer = answer_of(alloc, case, case.trace.as_bytes())?;
    push_answer(text, case, &answer)?;
    if !case.pieces.is_empty() {
        push_stood_for(text, case, answer.bytes.as_slice())?;
        for change in case.changes.iter() {
            let image = changed(alloc, answer.bytes.as_slice(), change.as_str())?;
            writeln!(text, "changed {}", change.as_str())?;
            push_stood_for(text, case, image.as_slice())?;
        }
    }
    if answer.status <= 1 && answer.out.as_str().starts_with("row,op,") {
        let stream = stream_of(alloc, case)?;
        let streamed = answer_of(alloc, &stream, case.trace.as_bytes())?;
        let results = without_op(alloc, answer.out.as_str())?;
        if !are_same(results.as_str(), streamed.out.as_str()) {
            text.push_str("its stream differs\n")?;
            push_answer(text, &stream, &streamed)?;
        }
    }
    Ok(())
}

// A stream of a run's rows, over cells that do the same.
fn stream_of(alloc: Global, case: &Case) -> Result<Case, AllocError> {
    let mut stream = Case::new(alloc);
    stream.words.push(String::from_str(alloc, "stream")?)?;
    for word in case.words.iter().skip(1) {
        stream.words.push(String::from_str(alloc, word.as_str())?)?;
    }
    stream.script = Vec::from_slice(alloc, case.script.as_slice())?;
    stream.seeded = case.seeded;
    stream.line_bytes = case.line_bytes;
    stream.one_byte = case.one_byte;
    Ok(stream)
}

// What `show` says of an image.
fn push_stood_for(text: &mut String, case: &Case, image: &[u8]) -> Result<(), AllocError> {
    let alloc = *text.allocator();
    let mut show = Case::new(alloc);
    show.words.push(String::from_str(alloc, "show")?)?;
    show.line_bytes = case.line_bytes;
    show.last = case.last;
    let answer = answer_of(alloc, &show, image)?;
    push_answer(text, &show, &answer)
}

// The image with a byte changed, `AT:BYTE`, or cut or made longer by zeros to so many bytes, `=COUNT`; or several of these, `+` between them.
fn changed(alloc: Global, image: &[u8], change: &str) -> Result<Vec<u8>, AllocError> {
    let mut bytes = Vec::from_slice(alloc, image)?;
    for part in change.split('+') {
        if let Some(count) = part.strip_prefix('=') {
            bytes.resize(count.parse::<usize>().unwrap_or(0), 0)?;
        } else if let Some((at, byte)) = part.split_once(':') {
            let at = at.parse::<usize>().unwrap_or(0);
            if let Some(place) = bytes.get_mut(at) {
                *place = byte.parse::<u8>().unwrap_or(0);
            }
        }
    }
    Ok(bytes)
}

fn answer_of(alloc: Global, case: &Case, trace: &[u8]) -> Result<CaseAnswer, AllocError> {
    if case.seeded {
        let mut array = TotalledArray::new(MemArray::new());
        let mut wide = TotalledArray::new(MemArray::new());
        answer_over(alloc, case, trace, &mut array, &mut wide)
    } else {
        let mut array = TotalledArray::new(scripted(alloc, case)?);
        let mut wide = TotalledArray::new(scripted(alloc, case)?);
        answer_over(alloc, case, trace, &mut array, &mut wide)
    }
}

// An array whose cells do as the case's script says.
fn scripted<const B: usize, const M: usize>(
    alloc: Global,
    case: &Case,
) -> Result<ScriptArray<B, M>, AllocError>
    requires { IsShape B M }
{
    let script = Vec::from_slice(alloc, case.script.as_slice())?;
    Ok(ScriptArray::new(script))
}

fn answer_over<A: TellsWear<64, 8, 6>, V: TellsWear<128, 16, 8>>(
    alloc: Global,
    case: &Case,
    trace: &[u8],
    array: &mut A,
    wide: &mut V,
) -> Result<CaseAnswer, AllocError> {
    let ends = CaseEnds::new(alloc, case, trace)?;
    let (status, ends) = run(alloc, case, array, wide, ends);
    let arrays = arrays_of(alloc, case, array, wide)?;
    ends.answer(alloc, case, status, arrays)
}

// Plays the words on the program of streams, or the one that explains, where the first one says
// so, or else on the other.
fn run<A: TellsWear<64, 8, 6>, V: TellsWear<128, 16, 8>>(
    alloc: Global,
    case: &Case,
    array: &mut A,
    wide: &mut V,
    ends: CaseEnds,
) -> (u8, CaseEnds) {
    let CaseEnds {
        mut source,
        mut out,
        mut err,
    } = ends;
    let (status, out) = match case.words.as_slice() {
        [first, words @ ..] if first.as_str() == "stream" => {
            stream_run(alloc, words, array, wide, &mut source, out, &mut err)
        }
        [first, words @ ..] if first.as_str() == "explain" => {
            let status = explain_run(alloc, words, &mut source, &mut *out, &mut err);
            (status, out)
        }
        words => {
            let status = pcm_run(alloc, words, array, wide, &mut source, &mut *out, &mut err);
            (status, out)
        }
    };
    (status, CaseEnds { source, out, err })
}

/// Where the bytes of a run come from and go to.
#[derive(Drop)]
struct CaseEnds {
    source: CaseSource,
    out: Box<CaseSink>,
    err: CaseSink,
}

impl CaseEnds {
    fn new(alloc: Global, case: &Case, trace: &[u8]) -> Result<CaseEnds, AllocError> {
        let source = source(alloc, case, trace)?;
        let out = CaseSink::new(alloc, &case.out_fails, case.one_byte)?;
        let out = Box::new(alloc, out)?;
        let err = CaseSink::new(alloc, &case.err_fails, case.one_byte)?;
        Ok(CaseEnds { source, out, err })
    }

    fn answer(
        self,
        alloc: Global,
        case: &Case,
        status: u8,
        arrays: String,
    ) -> Result<CaseAnswer, AllocError> {
        let bytes = Vec::from_slice(alloc, self.out.written())?;
        let out = if case.pieces.is_empty() {
            text_in(alloc, &self.out)?
        } else {
            image_in(alloc, case, bytes.as_slice())?
        };
        let err = text_in(alloc, &self.err)?;
        Ok(CaseAnswer {
            status,
            bytes,
            out,
            err,
            arrays,
        })
    }
}

fn source(alloc: Global, case: &Case, trace: &[u8]) -> Result<CaseSource, AllocError> {
    let bytes = Vec::from_slice(alloc, trace)?;
    let fails = Vec::from_slice(alloc, case.source_fails.as_slice())?;
    Ok(CaseSource::new(bytes, fails, case.one_byte))
}

fn text_in(alloc: Global, sink: &CaseSink) -> Result<String, AllocError> {
    let text = str::from_utf8(sink.written()).unwrap_or("no text\n");
    String::from_str(alloc, text)
}

// The digits of an image: those of each of its first pieces, and then of each row of cells, its bits and its check bytes.
fn image_in(alloc: Global, case: &Case, bytes: &[u8]) -> Result<String, AllocError> {
    let mut text = format!(in alloc; "bytes {}\n", bytes.len())?;
    let mut left = bytes;
    for count in case.pieces.iter() {
        let (piece, behind) = left.split_at(left.len().min(*count as usize));
        writeln!(text, "{}", digits(alloc, piece)?.as_str())?;
        left = behind;
    }
    let row_bytes = if case.line_bytes == 128 { 144 } else { 72 };
    for row in left.chunks(row_bytes) {
        let (bits, check) = row.split_at(row.len().min(case.line_bytes));
        let bits = digits(alloc, bits)?;
        let check = digits(alloc, check)?;
        writeln!(text, "{},{}", bits.as_str(), check.as_str())?;
    }
    Ok(text)
}

// How many lines each array has, and what the shown lines hold, a text line for each.
fn arrays_of<A: CellArray<64, 8>, V: CellArray<128, 16>>(
    alloc: Global,
    case: &Case,
    array: &mut A,
    wide: &mut V,
) -> Result<String, AllocError> {
    let lines = array.lines();
    let wide_lines = wide.lines();
    let mut text = format!(in alloc; "array lines {lines} {wide_lines}\n")?;
    for line in case.shown.iter() {
        match case.line_bytes {
            128 => push_line(alloc, &mut text, *line, wide)?,
            _ => push_line(alloc, &mut text, *line, array)?,
        }
    }
    Ok(text)
}

// What a line of an array holds, and how often it was pulsed.
fn push_line<const B: usize, const M: usize, A: CellArray<B, M>>(
    alloc: Global,
    text: &mut String,
    line: u32,
    array: &mut A,
) -> Result<(), AllocError>
    requires { IsShape B M }
{
    if line >= array.lines() {
        return writeln!(text, "line {line} none");
    }
    let pulses = array.pulses(line);
    let cells = array.sense(line, 0);
    push_cells(alloc, text, line, pulses, &cells)
}

fn push_cells<const B: usize, const M: usize>(
    alloc: Global,
    text: &mut String,
    line: u32,
    pulses: u64,
    cells: &Cells<B, M>,
) -> Result<(), AllocError> {
    let bits = digits(alloc, &cells.bits)?;
    let bits = in_short(alloc, bits.as_str(), B)?;
    let check = digits(alloc, &cells.meta)?;
    writeln!(
        text,
        "line {line} pulses {pulses} bits {bits} check {check}"
    )
}

fn digits(alloc: Global, bytes: &[u8]) -> Result<String, AllocError> {
    let mut text = String::new(alloc);
    for byte in bytes {
        write!(text, "{byte:02x}")?;
    }
    Ok(text)
}

fn push_answer(text: &mut String, case: &Case, answer: &CaseAnswer) -> Result<(), AllocError> {
    let count = answer.out.as_str().lines().count();
    let skipped = match case.last {
        None => 0,
        Some(last) => {
            writeln!(text, "lines {count}")?;
            count.saturating_sub(last)
        }
    };
    for row in answer.out.as_str().lines().skip(skipped) {
        push_row(text, row, case.line_bytes)?;
    }
    for row in answer.err.as_str().lines() {
        writeln!(text, "err {row}")?;
    }
    writeln!(text, "status {}", answer.status)?;
    text.push_str(answer.arrays.as_str())
}

fn push_row(text: &mut String, row: &str, line_bytes: usize) -> Result<(), AllocError> {
    let alloc = *text.allocator();
    for (i, field) in row.split(',').enumerate() {
        if i > 0 {
            text.push(',')?;
        }
        let field = in_short(alloc, field, line_bytes)?;
        text.push_str(field.as_str())?;
    }
    text.push('\n')
}

/// What many runs came to: the different tables of results, the rows of cuts left out, and the different ends.
#[derive(Drop)]
struct Runs {
    tables: TextTally,
    ends: TextTally,
}

impl Runs {
    fn new(alloc: Global) -> Runs {
        Runs {
            tables: TextTally::new(alloc),
            ends: TextTally::new(alloc),
        }
    }

    fn count(&mut self, alloc: Global, case: &Case, answer: &CaseAnswer) -> Result<(), AllocError> {
        let table = without_cuts(alloc, answer.out.as_str())?;
        self.tables.count(table)?;
        let end = end_of(alloc, case, answer)?;
        self.ends.count(end)
    }

    fn push_to(&self, text: &mut String) -> Result<(), AllocError> {
        writeln!(text, "tables {}", self.tables.texts.len())?;
        for (end, times) in self.ends.texts.iter() {
            writeln!(text, "{times} x {}", end.as_str())?;
        }
        Ok(())
    }
}

// A run for each tick of a cut.
fn cut_runs(alloc: Global, case: &Case, last: u32) -> Result<Runs, AllocError> {
    let mut runs = Runs::new(alloc);
    for cut in 0..=last {
        let trace = with_cut(alloc, case.trace.as_str(), cut)?;
        let answer = answer_of(alloc, case, trace.as_str().as_bytes())?;
        runs.count(alloc, case, &answer)?;
    }
    Ok(runs)
}

// A run for each beginning of the source's bytes.
fn short_runs(alloc: Global, case: &Case) -> Result<Runs, AllocError> {
    let mut runs = Runs::new(alloc);
    let bytes = case.trace.as_bytes();
    for count in 0..=bytes.len() {
        let answer = answer_of(alloc, case, &bytes[..count])?;
        runs.count(alloc, case, &answer)?;
    }
    Ok(runs)
}

// A run with a faulty row before each line of the source behind the first, and one with it behind the last.
fn faulty_runs(alloc: Global, case: &Case) -> Result<Runs, AllocError> {
    let mut runs = Runs::new(alloc);
    for place in 1..=case.trace.as_str().lines().count() {
        let trace = with_fault(alloc, case.trace.as_str(), place)?;
        let answer = answer_of(alloc, case, trace.as_str().as_bytes())?;
        runs.count(alloc, case, &answer)?;
    }
    Ok(runs)
}

fn with_fault(alloc: Global, trace: &str, place: usize) -> Result<String, AllocError> {
    let mut text = String::new(alloc);
    for (i, row) in trace.lines().enumerate() {
        if i == place {
            text.push_str("no row\n")?;
        }
        writeln!(text, "{row}")?;
    }
    if place == trace.lines().count() {
        text.push_str("no row\n")?;
    }
    Ok(text)
}

// A run in which the output's first call fails, one in which the second does, and so on.
fn failing_runs(alloc: Global, case: &Case, last: u32) -> Result<Runs, AllocError> {
    let mut runs = Runs::new(alloc);
    for call in 1..=last {
        let mut failing = stream_of(alloc, case)?;
        failing.out_fails.push(call)?;
        let answer = answer_of(alloc, &failing, case.trace.as_bytes())?;
        runs.count(alloc, case, &answer)?;
    }
    Ok(runs)
}

// The trace with a cut behind the rows of ticks up to the cut's.
fn with_cut(alloc: Global, trace: &str, cut: u32) -> Result<String, AllocError> {
    let mut text = String::new(alloc);
    let mut is_cut = false;
    for row in trace.lines() {
        let tick = row
            .split(',')
            .next()
            .and_then(|tick| tick.parse::<u64>().ok());
        if !is_cut && tick.is_some_and(|tick| tick > u64::from(cut)) {
            writeln!(text, "{cut},C,,")?;
            is_cut = true;
        }
        writeln!(text, "{row}")?;
    }
    if !is_cut {
        writeln!(text, "{cut},C,,")?;
    }
    Ok(text)
}

fn without_cuts(alloc: Global, out: &str) -> Result<String, AllocError> {
    let mut text = String::new(alloc);
    for row in out.lines() {
        if !row.contains(",C,") {
            writeln!(text, "{row}")?;
        }
    }
    Ok(text)
}

// The status, the number of rows, of the last ones the line and the bytes, and the lines on faults.
fn end_of(alloc: Global, case: &Case, answer: &CaseAnswer) -> Result<String, AllocError> {
    let out = answer.out.as_str();
    let rows = out.lines().count().saturating_sub(1);
    let mut text = format!(in alloc; "status {} rows {rows}", answer.status)?;
    let skipped = out.lines().count().saturating_sub(case.last.unwrap_or(0));
    for row in out.lines().skip(skipped) {
        let line = row.split(',').nth(2).unwrap_or("");
        let bytes = row.split(',').nth(6).unwrap_or("");
        let bytes = in_short(alloc, bytes, case.line_bytes)?;
        write!(text, " {line} {bytes}")?;
    }
    for row in answer.err.as_str().lines() {
        write!(text, " err {row}")?;
    }
    Ok(text)
}
