//! Plays rows that stand as data: whole runs and streams, each by its program's one call, over arrays whose cells do as a script says and
//! over seeded arrays. It reads cases from standard input and prints what became of each. What a run prints as results is printed by a
//! stream of the same rows, too.
#![tactic(auto)]

mod case;
mod digits;
mod play;
mod sink;
mod source;
mod stream;
mod tally;

use case::Case;
use play::played;
use std::io;

fn main(rt: HostRuntime) -> anyhow::Result<()> {
    let text = io::read_to_string(rt.alloc(), rt.stdin())?;
    let mut case = Case::new(rt.alloc());
    for line in text.as_str().lines() {
        case.take(line)?;
        if case.is_whole {
            println!(rt; "{}", played(rt.alloc(), &case)?)?;
            case = Case::new(rt.alloc());
        }
    }
    Ok(())
}
