// The commands and their options, as clap is told them.
ghost use Rattle.std.specs.Prelude.{◌≡◌, IfOk, false, map};
ghost use Rattle.clap.specs.Words.{app_of, with_rule, with_subcommand};
ghost use Rattle.clap.specs.declared.builder.command.Command.TheViews.{out-Command};
ghost use Rattle.command_line.specs.Table.{check_options, leaf_app, option_rule, pcm_app, run_options, top_app};

use clap::{Arg, ArgAction, Command};
use std::alloc::{AllocError, Global};

static RUN_OPTIONS: [&str; 23] = [
    "banks",
    "regions",
    "lines",
    "line",
    "spares",
    "write-queue",
    "read-queue",
    "psi",
    "read-ticks",
    "iter-ticks",
    "policy",
    "registers",
    "seed",
    "lo",
    "hi",
    "misses",
    "print",
    "input",
    "rows",
    "write-percent",
    "cuts",
    "step",
    "hot",
];

static GEN_OPTIONS: [&str; 10] = [
    "banks",
    "regions",
    "lines",
    "line",
    "seed",
    "rows",
    "write-percent",
    "cuts",
    "step",
    "hot",
];

static MAP_OPTIONS: [&str; 7] = [
    "banks",
    "regions",
    "lines",
    "spares",
    "registers",
    "seed",
    "from",
];

static MOVES_OPTIONS: [&str; 2] = ["lines", "from"];

static SHOW_OPTIONS: [&str; 0] = [];

static CHECK_OPTIONS: [&str; 12] = [
    "banks",
    "regions",
    "lines",
    "line",
    "spares",
    "write-queue",
    "read-queue",
    "read-ticks",
    "iter-ticks",
    "policy",
    "registers",
    "seed",
];

/// Adds an option that takes one value.
pub fn add_option<'a>(
    alloc: Global,
    command: Command<'a>,
    name: &'a str,
) -> Result<Command<'a>, AllocError>
    requires { (out-Command command).has_globals ≡ false }
    ensures app { IfOk result (λ c. app_of c
        ≡ with_rule (app_of command.entry) (option_rule name.entry.now)) }
    ensures globals { IfOk result (λ c. (out-Command c).has_globals ≡ false) }
{
    command.arg(Arg::new(alloc, name).long(name).action(ArgAction::Set))
}

// A command with these options.
fn leaf<'a>(alloc: Global, name: &'a str, options: &'a [&'a str]) -> Result<Command<'a>, AllocError>
    ensures app { IfOk result (λ c. app_of c ≡ leaf_app name.entry.now
        (map (λ s. s.now) options.entry.now)) }
    ensures globals { IfOk result (λ c. (out-Command c).has_globals ≡ false) }
{
    let mut command = Command::new(alloc, name);
    for option in options {
        command = add_option(alloc, command, option)?;
    }
    Ok(command)
}

/// A command with the options of `run`.
pub fn run_command<'a>(alloc: Global, name: &'a str) -> Result<Command<'a>, AllocError>
    ensures app { IfOk result (λ c. app_of c ≡ leaf_app name.entry.now run_options) }
    ensures globals { IfOk result (λ c. (out-Command c).has_globals ≡ false) }
{
    leaf(alloc, name, &RUN_OPTIONS)
}

/// A command with the options of `check`.
pub fn check_command<'a>(alloc: Global, name: &'a str) -> Result<Command<'a>, AllocError>
    ensures app { IfOk result (λ c. app_of c ≡ leaf_app name.entry.now check_options) }
    ensures globals { IfOk result (λ c. (out-Command c).has_globals ≡ false) }
{
    leaf(alloc, name, &CHECK_OPTIONS)
}

// Adds a subcommand with these options.
fn with_leaf<'a>(
    alloc: Global,
    command: Command<'a>,
    name: &'a str,
    options: &'a [&'a str],
) -> Result<Command<'a>, AllocError>
    ensures { IfOk result (λ c. app_of c ≡ with_subcommand (app_of command.entry)
        (leaf_app name.entry.now (map (λ s. s.now) options.entry.now)).top) }
{
    command.subcommand(leaf(alloc, name, options)?)
}

// The program's command, without its subcommands.
fn top_command<'a>(alloc: Global) -> Command<'a>
    ensures { app_of result ≡ top_app }
{
    Command::new(alloc, "pcm")
        .disable_help_flag(true)
        .disable_help_subcommand(true)
}

// The program's command with its six subcommands.
#[tactic(auto, unfolding(crate::specs::Table::pcm_app))]
pub(crate) fn pcm_command<'a>(alloc: Global) -> Result<Command<'a>, AllocError>
    ensures { IfOk result (λ c. app_of c ≡ pcm_app) }
{
    let command = top_command(alloc);
    let command = with_leaf(alloc, command, "run", &RUN_OPTIONS)?;
    let command = with_leaf(alloc, command, "gen", &GEN_OPTIONS)?;
    let command = with_leaf(alloc, command, "map", &MAP_OPTIONS)?;
    let command = with_leaf(alloc, command, "moves", &MOVES_OPTIONS)?;
    let command = with_leaf(alloc, command, "show", &SHOW_OPTIONS)?;
    with_leaf(alloc, command, "check", &CHECK_OPTIONS)
}
