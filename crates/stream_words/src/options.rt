// What the options of a stream mean, where it isn't what those of a run mean.
ghost use Rattle.std.specs.Prelude.{◌≡◌, ◌≤◌, IfSome, codes, option_map};
ghost use Rattle.clap.specs.Words.{first_of, found_of, rows_of};
ghost use Rattle.command_line.specs.Options.{with_some};
ghost use Rattle.trace_gen.specs.Generated.{IsLongMix};
ghost use Rattle.stream_words.specs.Options.{IsPrint, all_banks_of, bank_of, banks_of, closing_of, end_of, every_of, long_mix_of, plain_of, print_of, report_of, skip_of, skipping_of, snapshots_of, some_banks_of, tell_of, told_rows, until_of, whole_of, without};

use crate::job::{End, Skip, StreamPrint, StreamUntil, Tell};
use clap::ArgMatches;
use command_line::Input;
use command_line::options::{mix_within, value};
use drawn_parts::Banks;
use module_shape::Shape;
use trace_gen::Mix;
use trace_reader::{LATEST_TICK, number};

// Of how many rows more each snapshot stands.
#[tactic(auto, using(trace_reader::proofs::Numbers::number_within))]
fn every(matches: &ArgMatches<'_>) -> Option<u32>
    ensures exact { result ≡ every_of (first_of (codes "every") (rows_of (found_of matches.now))) }
    ensures some { IfSome result (λ every. 1 ≤ every) }
{
    match value(matches, "every") {
        None => Some(100_000),
        Some(text) => {
            let every = number(text.as_bytes(), 20, 4_294_967_295)?;
            if 1 <= every { Some(every as u32) } else { None }
        }
    }
}

// What a stream writes.
pub(crate) fn print(matches: &ArgMatches<'_>) -> Option<StreamPrint>
    ensures exact { result ≡ print_of (rows_of (found_of matches.now)) }
    ensures in_range { IfSome result IsPrint }
{
    match value(matches, "skip") {
        None => whole(matches),
        Some(text) => skipping(matches, text),
    }
}

// A report that may leave array lines out: of how many rows more each snapshot stands is asked for with others.
fn skipping(matches: &ArgMatches<'_>, text: &str) -> Option<StreamPrint>
    ensures exact { result ≡ skipping_of text.now (rows_of (found_of matches.now)) }
    ensures in_range { IfSome result IsPrint }
{
    match value(matches, "every") {
        None => untold(matches, text),
        Some(_) => None,
    }
}

// The same, and what is told in front is asked for with others, too.
fn untold(matches: &ArgMatches<'_>, text: &str) -> Option<StreamPrint>
    ensures exact { result ≡ without (first_of (codes "tell") (rows_of (found_of matches.now)))
        (with_some (skip_of text.now) (λ skipped. report_of skipped
        (first_of (codes "print") (rows_of (found_of matches.now))))) }
    ensures in_range { IfSome result IsPrint }
{
    match value(matches, "tell") {
        None => {
            let skip = skip(text)?;
            report(skip, value(matches, "print"))
        }
        Some(_) => None,
    }
}

// A report with a row for each array line, but for those that are left out.
fn report(skip: Skip, print: Option<&str>) -> Option<StreamPrint>
    ensures exact { result ≡ report_of skip (option_map (λ s. s.now) print.entry) }
    ensures in_range { IfSome result IsPrint }
{
    match print {
        Some("wear") => Some(StreamPrint::Wear(skip)),
        Some("lines") => Some(StreamPrint::Lines(skip)),
        _ => None,
    }
}

// Which array lines a report leaves out.
fn skip(text: &str) -> Option<Skip>
    ensures { result ≡ skip_of text.now }
{
    match text {
        "nothing" => Some(Skip::Nothing),
        "unpulsed" => Some(Skip::Unpulsed),
        _ => None,
    }
}

// What a stream writes that leaves nothing out.
fn whole(matches: &ArgMatches<'_>) -> Option<StreamPrint>
    ensures exact { result ≡ whole_of (rows_of (found_of matches.now)) }
    ensures in_range { IfSome result IsPrint }
{
    if let Some("snapshots") = value(matches, "print") {
        return snapshots(matches);
    }
    match value(matches, "every") {
        None => plain(matches),
        Some(_) => None,
    }
}

// Snapshots: nothing is told in front of them.
fn snapshots(matches: &ArgMatches<'_>) -> Option<StreamPrint>
    ensures exact { result ≡ snapshots_of (rows_of (found_of matches.now)) }
    ensures in_range { IfSome result IsPrint }
{
    match value(matches, "tell") {
        None => {
            let every = every(matches)?;
            Some(StreamPrint::Snapshots(every))
        }
        Some(_) => None,
    }
}

// What a stream writes but snapshots.
fn plain(matches: &ArgMatches<'_>) -> Option<StreamPrint>
    ensures exact { result ≡ plain_of (first_of (codes "print") (rows_of (found_of matches.now)))
        (first_of (codes "tell") (rows_of (found_of matches.now))) }
    ensures in_range { IfSome result IsPrint }
{
    match value(matches, "print") {
        None => rows(matches),
        Some("rows") => rows(matches),
        Some(print) => in_the_end(matches, print),
    }
}

// Rows, and what is told in front of them.
fn rows(matches: &ArgMatches<'_>) -> Option<StreamPrint>
    ensures exact { result ≡ told_rows (first_of (codes "tell") (rows_of (found_of matches.now))) }
    ensures in_range { IfSome result IsPrint }
{
    let tell = tell(matches)?;
    Some(StreamPrint::Rows(tell))
}

// What is told in front of rows.
fn tell(matches: &ArgMatches<'_>) -> Option<Tell>
    ensures { result ≡ tell_of (first_of (codes "tell") (rows_of (found_of matches.now))) }
{
    match value(matches, "tell") {
        None => Some(Tell::Nothing),
        Some("nothing") => Some(Tell::Nothing),
        Some("shape") => Some(Tell::Shape),
        Some("module") => Some(Tell::Module),
        Some(_) => None,
    }
}

// What a stream writes in the end alone: nothing is told in front of it.
fn in_the_end(matches: &ArgMatches<'_>, print: &str) -> Option<StreamPrint>
    ensures exact { result ≡ without (first_of (codes "tell") (rows_of (found_of matches.now)))
        (closing_of print.now) }
    ensures in_range { IfSome result IsPrint }
{
    match value(matches, "tell") {
        None => closing(print),
        Some(_) => None,
    }
}

fn closing(print: &str) -> Option<StreamPrint>
    ensures exact { result ≡ closing_of print.now }
    ensures in_range { IfSome result IsPrint }
{
    match print {
        "summary" => Some(StreamPrint::Summary),
        "wear" => Some(StreamPrint::Wear(Skip::Nothing)),
        "lines" => Some(StreamPrint::Lines(Skip::Nothing)),
        "energy" => Some(StreamPrint::Energy),
        "image" => Some(StreamPrint::Image),
        "map" => Some(StreamPrint::Map),
        _ => None,
    }
}

// What becomes of the module behind the last row.
pub(crate) fn end(matches: &ArgMatches<'_>) -> Option<End>
    ensures { result ≡ end_of (first_of (codes "end") (rows_of (found_of matches.now))) }
{
    match value(matches, "end") {
        None => Some(End::Drain),
        Some("drain") => Some(End::Drain),
        Some("off") => Some(End::Off),
        Some(_) => None,
    }
}

// Up to where the rows are served.
pub(crate) fn until(matches: &ArgMatches<'_>) -> Option<StreamUntil>
    ensures { result ≡ until_of (first_of (codes "until") (rows_of (found_of matches.now))) }
{
    match value(matches, "until") {
        None => Some(StreamUntil::End),
        Some("end") => Some(StreamUntil::End),
        Some("refused") => Some(StreamUntil::Refused),
        Some(_) => None,
    }
}

// A bank's number that an option gives.
#[tactic(auto, using(trace_reader::proofs::Numbers::number_within))]
fn bank(text: Option<&str>, otherwise: u32) -> Option<u32>
    ensures { result ≡ bank_of (option_map (λ s. s.now) text.entry) otherwise }
{
    match text {
        None => Some(otherwise),
        Some(text) => {
            let bank = number(text.as_bytes(), 20, 63)?;
            Some(bank as u32)
        }
    }
}

// The banks from a first one to a last one, which are all where none is given: a module of so many has one of them.
fn some_banks(matches: &ArgMatches<'_>, banks: u32) -> Option<Banks>
    ensures { result ≡ some_banks_of banks (rows_of (found_of matches.now)) }
{
    let first = bank(value(matches, "first-bank"), 0)?;
    let last = bank(value(matches, "last-bank"), 63)?;
    if first <= last && first < banks {
        return Some(Banks { first, last });
    }
    None
}

// All banks, where neither is given.
fn all_banks(matches: &ArgMatches<'_>) -> Option<Banks>
    ensures { result ≡ all_banks_of (rows_of (found_of matches.now)) }
{
    match value(matches, "first-bank") {
        None => match value(matches, "last-bank") {
            None => Some(Banks { first: 0, last: 63 }),
            Some(_) => None,
        },
        Some(_) => None,
    }
}

// The banks whose rows are served: some are asked for only where rows are drawn, and the banks drain.
pub(crate) fn banks(
    matches: &ArgMatches<'_>,
    input: &Input,
    end: End,
    shape: &Shape,
) -> Option<Banks>
    ensures { result ≡ banks_of input.now end shape.now.banks (rows_of (found_of matches.now)) }
{
    match input {
        Input::Source => all_banks(matches),
        Input::Drawn(_) => match end {
            End::Drain => some_banks(matches, shape.banks()),
            End::Off => all_banks(matches),
        },
    }
}

// What the rows are that a stream draws.
pub(crate) fn long_mix(matches: &ArgMatches<'_>) -> Option<Mix>
    ensures exact { result ≡ long_mix_of (rows_of (found_of matches.now)) }
    ensures in_range { IfSome result IsLongMix }
{
    let mix = mix_within(matches, 4_000_000_000, 67_108_864)?;
    if LATEST_TICK < u64::from(mix.rows) * u64::from(mix.step) {
        return None;
    }
    Some(mix)
}
