// The job that the words ask for.
ghost use Rattle.std.specs.Prelude.{◌≡◌, ◌≢◌, IfErr, IfOk, IfSome, Err, Ok, map, string_bytes};
ghost use Rattle.clap.specs.Words.{found_of, rows_of};
ghost use Rattle.command_line.specs.Jobs.{or_usage};
ghost use Rattle.stream_words.specs.Jobs.{IsStreamJob, stream_job_of, stream_of};

use crate::job::StreamJob;
use crate::options::{banks, end, long_mix, print, until};
use crate::table::stream_command;
use clap::ArgMatches;
use command_line::Refusal;
use command_line::options::{input, large_shape, line, seed, wear};
use std::alloc::Global;

// The job of these options.
#[tactic(auto, unfolding(crate::specs::Jobs::stream_of))]
fn stream(matches: &ArgMatches<'_>) -> Option<StreamJob>
    ensures exact { result ≡ stream_of (rows_of (found_of matches.now)) }
    ensures in_range { IfSome result IsStreamJob }
{
    let line = line(matches)?;
    let shape = large_shape(matches)?;
    let seed = seed(matches)?;
    let wear = wear(matches, seed)?;
    let print = print(matches)?;
    let mix = long_mix(matches)?;
    let input = input(matches, mix)?;
    let end = end(matches)?;
    let until = until(matches)?;
    let banks = banks(matches, &input, end, &shape)?;
    Some(StreamJob {
        line,
        shape,
        seed,
        wear,
        print,
        input,
        end,
        until,
        banks,
    })
}

/// What the words behind the program's name ask for.
pub fn read_stream_job(alloc: Global, words: &[String]) -> Result<StreamJob, Refusal>
    ensures ok { IfOk result (λ job. stream_job_of (map string_bytes words.now) ≡ Ok job) }
    ensures err { IfErr result (λ e. e ≢ Refusal.NoMemory
        → stream_job_of (map string_bytes words.now) ≡ Err e) }
    ensures in_range { IfOk result IsStreamJob }
{
    let command = stream_command(alloc)?;
    let matches = command.try_get_matches_from(words)?;
    stream(&matches).ok_or(Refusal::Usage)
}
