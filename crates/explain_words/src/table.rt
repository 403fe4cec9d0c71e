// The options, as clap is told them.
ghost use Rattle.std.specs.Prelude.{◌≡◌, IfOk, false};
ghost use Rattle.clap.specs.Words.{app_of, with_rule};
ghost use Rattle.clap.specs.declared.builder.command.Command.TheViews.{out-Command};
ghost use Rattle.explain_words.specs.Table.{explain_app, flag_rule};

use clap::{Arg, ArgAction, Command};
use command_line::table::check_command;
use std::alloc::{AllocError, Global};

// Adds an option without a value.
fn add_flag<'a>(
    alloc: Global,
    command: Command<'a>,
    name: &'a str,
) -> Result<Command<'a>, AllocError>
    requires { (out-Command command).has_globals ≡ false }
    ensures { IfOk result (λ c. app_of c
        ≡ with_rule (app_of command.entry) (flag_rule name.entry.now)) }
{
    command.arg(Arg::new(alloc, name).long(name).action(ArgAction::SetTrue))
}

// The program's command: it has no help, and its words come without the program's name.
#[tactic(auto, unfolding(crate::specs::Table::explain_app))]
pub(crate) fn explain_command<'a>(alloc: Global) -> Result<Command<'a>, AllocError>
    ensures { IfOk result (λ c. app_of c ≡ explain_app) }
{
    let command = add_flag(alloc, check_command(alloc, "pcm_explain")?, "strict")?;
    Ok(command.disable_help_flag(true).no_binary_name(true))
}
