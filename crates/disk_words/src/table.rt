// The options, as clap is told them.
ghost use Rattle.std.specs.Prelude.{◌≡◌, IfOk, false, map};
ghost use Rattle.clap.specs.Words.{app_of};
ghost use Rattle.clap.specs.declared.builder.command.Command.TheViews.{out-Command};
ghost use Rattle.command_line.specs.Table.{check_options, leaf_app, with_options};
ghost use Rattle.disk_words.specs.Table.{disk_app};

use clap::Command;
use command_line::table::{add_option, check_command};
use std::alloc::{AllocError, Global};

static OWN_OPTIONS: [&str; 10] = [
    "psi",
    "lo",
    "hi",
    "misses",
    "sector",
    "cuts",
    "cut-every",
    "cut-seed",
    "cut-ticks",
    "on-cut",
];

// A command with the options of `check`, and with these.
fn checked<'a>(
    alloc: Global,
    name: &'a str,
    options: &'a [&'a str],
) -> Result<Command<'a>, AllocError>
    ensures app { IfOk result (λ c. app_of c ≡ with_options
        (leaf_app name.entry.now check_options) (map (λ s. s.now) options.entry.now)) }
    ensures globals { IfOk result (λ c. (out-Command c).has_globals ≡ false) }
{
    let mut command = check_command(alloc, name)?;
    for option in options {
        command = add_option(alloc, command, option)?;
    }
    Ok(command)
}

// The program's command: it has no help, and its words come without the program's name.
#[tactic(auto, unfolding(crate::specs::Table::disk_app))]
pub(crate) fn disk_command<'a>(alloc: Global) -> Result<Command<'a>, AllocError>
    ensures { IfOk result (λ c. app_of c ≡ disk_app) }
{
    let command = checked(alloc, "pcm_disk", &OWN_OPTIONS)?;
    Ok(command.disable_help_flag(true).no_binary_name(true))
}
