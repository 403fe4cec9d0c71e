// The job that the words ask for.
ghost use Rattle.std.specs.Prelude.{◌≡◌, ◌≢◌, IfErr, IfOk, IfSome, Err, Ok, Some, map, string_bytes};
ghost use Rattle.clap.specs.Words.{found_of, rows_of};
ghost use Rattle.command_line.specs.Jobs.{or_usage};
ghost use Rattle.disk_words.specs.Jobs.{IsDiskPlan, asked_by, disk_job_of, disk_of, plan_of};

use crate::job::{DiskJob, DiskPlan};
use crate::options::{cuts, on_cut, sectors};
use crate::table::disk_command;
use clap::ArgMatches;
use command_line::Refusal;
use command_line::options::{large_shape, line, seed, wear};
use std::alloc::Global;

// The disk of these options.
#[tactic(auto, unfolding(crate::specs::Jobs::plan_of))]
fn plan(matches: &ArgMatches<'_>) -> Option<DiskPlan>
    ensures exact { result ≡ plan_of (rows_of (found_of matches.now)) }
    ensures in_range { IfSome result IsDiskPlan }
{
    let line = line(matches)?;
    let shape = large_shape(matches)?;
    let seed = seed(matches)?;
    let wear = wear(matches, seed)?;
    let layout = sectors(matches, line, &shape)?;
    let on_cut = on_cut(matches)?;
    Some(DiskPlan {
        line,
        shape,
        seed,
        wear,
        layout,
        on_cut,
    })
}

// The job of these options.
fn job(alloc: Global, matches: &ArgMatches<'_>) -> Result<DiskJob, Refusal>
    ensures ok { IfOk result (λ job. disk_of (rows_of (found_of matches.now))
        ≡ Some (asked_by job)) }
    ensures err { IfErr result (λ e. e ≢ Refusal.NoMemory
        → or_usage (disk_of (rows_of (found_of matches.now))) ≡ Err e) }
    ensures in_range { IfOk result (λ job. IsDiskPlan job.plan) }
{
    let Some(plan) = plan(matches) else {
        return Err(Refusal::Usage);
    };
    let cuts = cuts(alloc, matches)?;
    Ok(DiskJob { plan, cuts })
}

/// What the words behind the program's name ask for.
pub fn read_disk_job(alloc: Global, words: &[String]) -> Result<DiskJob, Refusal>
    ensures ok { IfOk result (λ job. disk_job_of (map string_bytes words.now)
        ≡ Ok (asked_by job)) }
    ensures err { IfErr result (λ e. e ≢ Refusal.NoMemory
        → disk_job_of (map string_bytes words.now) ≡ Err e) }
    ensures in_range { IfOk result (λ job. IsDiskPlan job.plan) }
{
    let command = disk_command(alloc)?;
    let matches = command.try_get_matches_from(words)?;
    job(alloc, &matches)
}
