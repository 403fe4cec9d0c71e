// What a bank holds that holds more than it may.
ghost use Rattle.std.specs.Prelude.{◌≡◌, ◌≤◌, ◌++◌, IfOk, length};
ghost use Rattle.verdict_text.specs.RoomFacts as spec;

use crate::rows::{say_row_line, say_stand, say_waits};
use crate::say::{say, say_number};
use check_telling::facts::RowAt;
use clause_telling::room::Crowd;
use result_rows::Results;
use row_rules::Rules;
use std::alloc::AllocError;
use trace_reader::Event;

// The first write that finds others of its line there with which it may not stand.
fn say_newer<const B: usize>(
    text: &mut Vec<u8>,
    events: &[Event<B>],
    results: &Results<B>,
    newer: Option<RowAt>,
) -> Result<(), AllocError>
    requires one_each { length results.now ≡ length events.now }
    ensures { IfOk result (λ _. text.new.items
        ≡ spec.newer_on events.now results.now text.old.items newer) }
{
    match newer {
        None => Ok(()),
        Some(newer) => {
            say_row_line(text, b"         newer  ", events, results, Some(newer.row))?;
            say(
                text,
                b"         why    beside it only one write of its line may stand, in flight as it came\n",
            )
        }
    }
}

/// The bank, the writes that stand there, and the reads that wait.
pub fn say_crowd<const B: usize>(
    text: &mut Vec<u8>,
    events: &[Event<B>],
    results: &Results<B>,
    rules: &Rules,
    crowd: &Crowd<B>,
) -> Result<(), AllocError>
    requires size { B ≤ 128 }
    requires one_each { length results.now ≡ length events.now }
    ensures { IfOk result (λ _. text.new.items
        ≡ spec.crowd_on events.now results.now text.old.items rules.now crowd.now) }
{
    say_number(text, b"         bank   ", u64::from(crowd.bank))?;
    say(text, b"\n")?;
    say_stand(text, rules.writes, &crowd.standing)?;
    say_waits(text, rules.reads, &crowd.waiting)?;
    say_newer(text, events, results, crowd.newer)
}
