// The job that the words ask for.
ghost use Rattle.std.specs.Prelude.{◌≡◌, ◌≢◌, ◌≤◌, ◌∷◌, IfOk, IfErr, IfSome, Ok, Err, Some, map, string_bytes, codes};
ghost use Rattle.clap.specs.Words.{found_of, rows_of, subcommand_rows_of};
ghost use Rattle.command_line.specs.Jobs.{IsJob, run_of, gen_of, map_of, moves_of, check_of, job_named, job_met, or_usage, job_of};

use crate::job::{CheckJob, GenJob, Job, MapJob, MovesJob, Refusal, RunJob};
use crate::options::{from, input, line, mix, number_of, print, seed, shape, wear};
use crate::table::pcm_command;
use clap::ArgMatches;
use std::alloc::{AllocError, Global};

#[tactic(auto, unfolding(crate::specs::Jobs::run_of))]
fn run(matches: &ArgMatches<'_>) -> Option<Job>
    ensures exact { result ≡ run_of (rows_of (found_of matches.now)) }
    ensures in_range { IfSome result IsJob }
{
    let line = line(matches)?;
    let shape = shape(matches)?;
    let seed = seed(matches)?;
    let wear = wear(matches, seed)?;
    let print = print(matches)?;
    let mix = mix(matches)?;
    let input = input(matches, mix)?;
    Some(Job::Run(RunJob {
        line,
        shape,
        seed,
        wear,
        print,
        input,
    }))
}

#[tactic(auto, unfolding(crate::specs::Jobs::gen_of))]
fn generate(matches: &ArgMatches<'_>) -> Option<Job>
    ensures exact { result ≡ gen_of (rows_of (found_of matches.now)) }
    ensures in_range { IfSome result IsJob }
{
    let line = line(matches)?;
    let shape = shape(matches)?;
    let seed = seed(matches)?;
    let mix = mix(matches)?;
    Some(Job::Gen(GenJob {
        line,
        shape,
        seed,
        mix,
    }))
}

#[tactic(auto, unfolding(crate::specs::Jobs::map_of))]
fn map_lines(matches: &ArgMatches<'_>) -> Option<Job>
    ensures exact { result ≡ map_of (rows_of (found_of matches.now)) }
    ensures in_range { IfSome result IsJob }
{
    let shape = shape(matches)?;
    let seed = seed(matches)?;
    let from = from(matches)?;
    Some(Job::Map(MapJob { shape, seed, from }))
}

#[tactic(auto, unfolding(crate::specs::Jobs::moves_of))]
fn moves(matches: &ArgMatches<'_>) -> Option<Job>
    ensures exact { result ≡ moves_of (rows_of (found_of matches.now)) }
    ensures in_range { IfSome result IsJob }
{
    let lines = number_of(matches, "lines", 64, 4, 256)?;
    let from = from(matches)?;
    if !lines.is_power_of_two() {
        return None;
    }
    Some(Job::Moves(MovesJob {
        lines: lines as u32,
        from,
    }))
}

#[tactic(auto, unfolding(crate::specs::Jobs::check_of))]
fn check(matches: &ArgMatches<'_>) -> Option<Job>
    ensures exact { result ≡ check_of (rows_of (found_of matches.now)) }
    ensures in_range { IfSome result IsJob }
{
    let line = line(matches)?;
    let shape = shape(matches)?;
    let seed = seed(matches)?;
    Some(Job::Check(CheckJob { line, shape, seed }))
}

// The job of a command with its options.
#[tactic(auto, unfolding(crate::specs::Jobs::job_named))]
fn named(name: &str, matches: &ArgMatches<'_>) -> Option<Job>
    ensures exact { result ≡ job_named name.now (rows_of (found_of matches.now)) }
    ensures in_range { IfSome result IsJob }
{
    match name {
        "run" => run(matches),
        "gen" => generate(matches),
        "map" => map_lines(matches),
        "moves" => moves(matches),
        "show" => Some(Job::Show),
        "check" => check(matches),
        _ => None,
    }
}

// The words behind the program's name.
fn with_program_name<'a>(alloc: Global, words: &'a [String]) -> Result<Vec<&'a str>, AllocError>
    ensures { IfOk result (λ all. map (λ s. s.now) all.items
        ≡ codes "pcm" ∷ map string_bytes words.entry.now) }
{
    let mut all = Vec::new(alloc);
    all.push("pcm")?;
    for word in words {
        all.push(word.as_str())?;
    }
    Ok(all)
}

/// What the words behind the program's name ask for.
pub fn read_job(alloc: Global, words: &[String]) -> Result<Job, Refusal>
    ensures ok { IfOk result (λ job. job_of (map string_bytes words.now) ≡ Ok job) }
    ensures err { IfErr result (λ e. e ≢ Refusal.NoMemory
        → job_of (map string_bytes words.now) ≡ Err e) }
    ensures in_range { IfOk result IsJob }
{
    let all = with_program_name(alloc, words)?;
    let command = pcm_command(alloc)?;
    let matches = command.try_get_matches_from(all.as_slice())?;
    job(&matches)
}

// The job of what clap found.
fn job(matches: &ArgMatches<'_>) -> Result<Job, Refusal>
    ensures exact { result ≡ or_usage (job_met (subcommand_rows_of matches.now)) }
    ensures in_range { IfOk result IsJob }
{
    let Some((name, matches)) = matches.subcommand() else {
        return Err(Refusal::Usage);
    };
    match named(name, matches) {
        Some(job) => Ok(job),
        None => Err(Refusal::Usage),
    }
}
