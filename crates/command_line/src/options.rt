// What the options of a command mean.
ghost use Rattle.std.specs.Prelude.{◌≡◌, ◌≤◌, IfSome, IfOk, codes, option_map};
ghost use Rattle.clap.specs.Words.{found_of, first_of, rows_of};
ghost use Rattle.module_shape.specs.Limits.{IsShape, IsSmall};
ghost use Rattle.cell_rows.specs.Device.{IsWear};
ghost use Rattle.trace_gen.specs.Generated.{IsMix};
ghost use Rattle.command_line.specs.Options.{number_or, number_option, size_option, policy_of, home_of, line_of, print_of, input_of, large_shape_of, raw_of, shape_of, seed_of, wear_of, mix_of, mix_within, from_of, full_turn, HasMix, IsMixWithin};

use crate::job::{Input, LineSize, Print};
use cell_rows::Wear;
use clap::ArgMatches;
use module_shape::{Home, Policy, RawShape, Shape};
use trace_gen::Mix;
use trace_reader::number;

/// The value of an option, as text.
pub fn value<'a>(matches: &ArgMatches<'a>, name: &str) -> Option<&'a str>
    ensures { option_map (λ s. s.now) result ≡ first_of name.now (rows_of (found_of matches.now)) }
{
    matches.get_str(name)
}

// The number that a text writes, or the default where there is none.
#[tactic(auto, unfolding(crate::specs::Options::number_or), using(trace_reader::proofs::Numbers::number_within))]
fn number_or_default(text: Option<&str>, default: u64, least: u64, most: u64) -> Option<u64>
    requires { (least ≤ default) × (default ≤ most) }
    ensures exact { result ≡ number_or default least most (option_map (λ s. s.now) text.entry) }
    ensures least { IfSome result (λ number. least ≤ number) }
    ensures most { IfSome result (λ number. number ≤ most) }
{
    match text {
        None => Some(default),
        Some(text) => {
            let value = number(text.as_bytes(), 20, most)?;
            if least <= value { Some(value) } else { None }
        }
    }
}

/// The number that an option gives, in decimal digits, or its default where it isn't given.
pub fn number_of(
    matches: &ArgMatches<'_>,
    name: &str,
    default: u64,
    least: u64,
    most: u64,
) -> Option<u64>
    requires { (least ≤ default) × (default ≤ most) }
    ensures exact { result ≡ number_option name.now default least most
        (rows_of (found_of matches.now)) }
    ensures least { IfSome result (λ number. least ≤ number) }
    ensures most { IfSome result (λ number. number ≤ most) }
{
    number_or_default(value(matches, name), default, least, most)
}

// A size of a module: the limits of a module say which are in range.
fn size_of(matches: &ArgMatches<'_>, name: &str, default: u32) -> Option<u32>
    ensures { result ≡ size_option name.now default (rows_of (found_of matches.now)) }
{
    let number = number_of(matches, name, u64::from(default), 0, 4_294_967_295)?;
    Some(number as u32)
}

fn policy(text: Option<&str>) -> Option<Policy>
    ensures { result ≡ policy_of (option_map (λ s. s.now) text.entry) }
{
    match text {
        None => Some(Policy::Pause),
        Some("pause") => Some(Policy::Pause),
        Some("plain") => Some(Policy::Plain),
        Some("cancel") => Some(Policy::Cancel),
        Some(_) => None,
    }
}

fn home(text: Option<&str>) -> Option<Home>
    ensures { result ≡ home_of (option_map (λ s. s.now) text.entry) }
{
    match text {
        None => Some(Home::Guarded),
        Some("guarded") => Some(Home::Guarded),
        Some("array") => Some(Home::Array),
        Some(_) => None,
    }
}

/// The size of a line.
pub fn line(matches: &ArgMatches<'_>) -> Option<LineSize>
    ensures { result ≡ line_of (first_of (codes "line") (rows_of (found_of matches.now))) }
{
    match value(matches, "line") {
        None => Some(LineSize::Bytes64),
        Some("64") => Some(LineSize::Bytes64),
        Some("128") => Some(LineSize::Bytes128),
        Some(_) => None,
    }
}

/// Where a run takes its trace from; a generated one has this mix.
pub fn input(matches: &ArgMatches<'_>, mix: Mix) -> Option<Input>
    ensures exact { result ≡ input_of mix (first_of (codes "input")
        (rows_of (found_of matches.now))) }
    ensures drawn { IfSome result (HasMix mix) }
{
    match value(matches, "input") {
        None => Some(Input::Source),
        Some("source") => Some(Input::Source),
        Some("drawn") => Some(Input::Drawn(mix)),
        Some(_) => None,
    }
}

// What a run writes.
pub(crate) fn print(matches: &ArgMatches<'_>) -> Option<Print>
    ensures { result ≡ print_of (first_of (codes "print") (rows_of (found_of matches.now))) }
{
    match value(matches, "print") {
        None => Some(Print::Results),
        Some("results") => Some(Print::Results),
        Some("summary") => Some(Print::Summary),
        Some("wear") => Some(Print::Wear),
        Some("image") => Some(Print::Image),
        Some(_) => None,
    }
}

// The sizes of the module, in range or not.
#[tactic(auto, unfolding(crate::specs::Options::raw_of))]
fn raw(matches: &ArgMatches<'_>) -> Option<RawShape>
    ensures { result ≡ raw_of (rows_of (found_of matches.now)) }
{
    let banks = size_of(matches, "banks", 4)?;
    let regions = size_of(matches, "regions", 2)?;
    let lines = size_of(matches, "lines", 64)?;
    let spares = size_of(matches, "spares", 8)?;
    let writes = size_of(matches, "write-queue", 32)?;
    let reads = size_of(matches, "read-queue", 32)?;
    let psi = size_of(matches, "psi", 100)?;
    let read_ticks = size_of(matches, "read-ticks", 5)?;
    let iter_ticks = size_of(matches, "iter-ticks", 10)?;
    let policy = policy(value(matches, "policy"))?;
    let home = home(value(matches, "registers"))?;
    Some(RawShape {
        banks,
        regions,
        lines,
        spares,
        writes,
        reads,
        psi,
        read_ticks,
        iter_ticks,
        policy,
        home,
    })
}

/// The shape of a small module, on which a whole trace is replayed; None where it can't have these sizes.
#[tactic(auto, unfolding(crate::specs::Options::shape_of))]
pub fn shape(matches: &ArgMatches<'_>) -> Option<Shape>
    ensures exact { result ≡ shape_of (rows_of (found_of matches.now)) }
    ensures in_range { IfSome result IsShape }
    ensures small { IfSome result IsSmall }
{
    match Shape::new(raw(matches)?) {
        Ok(shape) => Some(shape),
        Err(_) => None,
    }
}

/// The shape of a large module, which serves a stream; None where it can't have these sizes.
#[tactic(auto, unfolding(crate::specs::Options::large_shape_of))]
pub fn large_shape(matches: &ArgMatches<'_>) -> Option<Shape>
    ensures exact { result ≡ large_shape_of (rows_of (found_of matches.now)) }
    ensures in_range { IfSome result IsShape }
{
    match Shape::large(raw(matches)?) {
        Ok(shape) => Some(shape),
        Err(_) => None,
    }
}

/// The seed.
pub fn seed(matches: &ArgMatches<'_>) -> Option<u64>
    ensures { result ≡ seed_of (rows_of (found_of matches.now)) }
{
    number_of(matches, "seed", 0, 0, u64::MAX)
}

/// How the cells wear out.
#[tactic(auto, unfolding(crate::specs::Options::wear_of))]
pub fn wear(matches: &ArgMatches<'_>, seed: u64) -> Option<Wear>
    ensures exact { result ≡ wear_of seed (rows_of (found_of matches.now)) }
    ensures in_range { IfSome result IsWear }
    ensures seed { IfSome result (λ wear. wear.seed ≡ seed) }
{
    let lo = number_of(matches, "lo", 100_000_000, 1, 4_000_000_000)?;
    let hi = number_of(matches, "hi", 100_000_000, 1, 4_000_000_000)?;
    let misses = number_of(matches, "misses", 0, 0, 7)?;
    if hi < lo {
        return None;
    }
    Some(Wear {
        seed,
        lo: lo as u32,
        hi: hi as u32,
        misses: misses as u8,
    })
}

/// What the rows of a generated trace are, of at most so many rows and hot lines.
#[tactic(auto, unfolding(crate::specs::Options::mix_within))]
pub fn mix_within(matches: &ArgMatches<'_>, most: u32, most_hot: u32) -> Option<Mix>
    requires { 1000 ≤ most }
    ensures exact { result ≡ mix_within most most_hot (rows_of (found_of matches.now)) }
    ensures in_range { IfSome result (IsMixWithin most most_hot) }
{
    let rows = number_of(matches, "rows", 1000, 1, u64::from(most))?;
    let write_percent = number_of(matches, "write-percent", 50, 0, 100)?;
    let cuts = number_of(matches, "cuts", 0, 0, u64::from(most))?;
    let step = number_of(matches, "step", 10, 0, 65_535)?;
    let hot = number_of(matches, "hot", 0, 0, u64::from(most_hot))?;
    if rows < cuts {
        return None;
    }
    Some(Mix {
        rows: rows as u32,
        write_percent: write_percent as u32,
        cuts: cuts as u32,
        step: step as u32,
        hot: hot as u32,
    })
}

// What the rows are that a run draws or `gen` writes.
pub(crate) fn mix(matches: &ArgMatches<'_>) -> Option<Mix>
    ensures exact { result ≡ mix_of (rows_of (found_of matches.now)) }
    ensures in_range { IfSome result IsMix }
{
    mix_within(matches, 400_000, 65_536)
}

// How many gap moves were made.
pub(crate) fn from(matches: &ArgMatches<'_>) -> Option<u64>
    ensures exact { result ≡ from_of (rows_of (found_of matches.now)) }
    ensures within { IfSome result (λ moves. moves ≤ full_turn) }
{
    number_of(matches, "from", 0, 0, 16_781_312)
}
