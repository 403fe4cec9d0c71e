// The job that the words ask for.
ghost use Rattle.std.specs.Prelude.{◌≡◌, ◌≢◌, IfErr, IfOk, IfSome, Err, Ok, codes, map, string_bytes};
ghost use Rattle.clap.specs.Words.{first_of, found_of, rows_of};
ghost use Rattle.command_line.specs.Jobs.{IsCheck};
ghost use Rattle.explain_words.specs.Jobs.{explain_job_of, explain_of, strict_of};

use crate::job::ExplainJob;
use crate::table::explain_command;
use clap::ArgMatches;
use command_line::options::{line, seed, shape, value};
use command_line::{CheckJob, Refusal};
use std::alloc::Global;

// Whether more is asked of `worn` rows.
fn strict(matches: &ArgMatches<'_>) -> bool
    ensures { result ≡ strict_of (first_of (codes "strict") (rows_of (found_of matches.now))) }
{
    match value(matches, "strict") {
        Some("true") => true,
        _ => false,
    }
}

// The job of these options.
#[tactic(auto, unfolding(crate::specs::Jobs::explain_of))]
fn explain(matches: &ArgMatches<'_>) -> Option<ExplainJob>
    ensures exact { result ≡ explain_of (rows_of (found_of matches.now)) }
    ensures in_range { IfSome result (λ job. IsCheck job.check) }
{
    let line = line(matches)?;
    let shape = shape(matches)?;
    let seed = seed(matches)?;
    let check = CheckJob { line, shape, seed };
    let strict = strict(matches);
    Some(ExplainJob { check, strict })
}

/// What the words behind the program's name ask for.
pub fn read_explain_job(alloc: Global, words: &[String]) -> Result<ExplainJob, Refusal>
    ensures ok { IfOk result (λ job. explain_job_of (map string_bytes words.now) ≡ Ok job) }
    ensures err { IfErr result (λ e. e ≢ Refusal.NoMemory
        → explain_job_of (map string_bytes words.now) ≡ Err e) }
    ensures in_range { IfOk result (λ job. IsCheck job.check) }
{
    let command = explain_command(alloc)?;
    let matches = command.try_get_matches_from(words)?;
    explain(&matches).ok_or(Refusal::Usage)
}
