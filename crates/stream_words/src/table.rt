// The options, as clap is told them.
ghost use Rattle.std.specs.Prelude.{◌≡◌, IfOk};
ghost use Rattle.clap.specs.Words.{app_of};
ghost use Rattle.stream_words.specs.Table.{stream_app};

use clap::Command;
use command_line::table::{add_option, run_command};
use std::alloc::{AllocError, Global};

// The program's command: it has no help, and its words come without the program's name.
#[tactic(auto, unfolding(crate::specs::Table::stream_app))]
pub(crate) fn stream_command<'a>(alloc: Global) -> Result<Command<'a>, AllocError>
    ensures { IfOk result (λ c. app_of c ≡ stream_app) }
{
    let run = run_command(alloc, "pcm_stream")?;
    let ends = add_option(alloc, add_option(alloc, run, "end")?, "every")?;
    let bounded = add_option(alloc, ends, "until")?;
    let telling = add_option(alloc, bounded, "tell")?;
    let skipping = add_option(alloc, telling, "skip")?;
    let command = add_option(
        alloc,
        add_option(alloc, skipping, "first-bank")?,
        "last-bank",
    )?;
    Ok(command.disable_help_flag(true).no_binary_name(true))
}
