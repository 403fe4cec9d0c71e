//! What the rows behind each row bring, by one pass from the last row to the first.

ghost use Rattle.std.specs.Prelude.{◌≡◌, ◌<◌, ◌≤◌, ◌++◌, [], ◌∷◌, length, replicate, List, None, Some, IfOk};
ghost use Rattle.row_rules.specs.declared.Asks.{Asks};
ghost use Rattle.row_rules.specs.declared.Row.{Row};
ghost use Rattle.trace_rows.specs.Rows.{rows_with, asks_of, row_of};
ghost use Rattle.result_check.specs.Finding.{line_asked, line_written};
ghost use Rattle.row_rules.specs.Lines.{IsOfLines};
ghost use Rattle.result_check.specs.Coming as spec;
ghost use Rattle.check_verdict.specs.Judged.{a_row};
ghost use Rattle.result_check.specs.Coming.{coming_at, coming_of, IsOutlook};
ghost use Rattle.result_check.specs.Tables.{IsTable};

use crate::found::bank_of;
use check_verdict::known::Coming;
use result_rows::{Outcome, Results};
use std::alloc::{AllocError, Global};
use trace_reader::{Event, EventOp};

/// What the rows behind a row bring to each line (`next`, `soonest`) and to each bank (`worn`).
#[derive(Drop)]
struct Outlook {
    next: Vec<Option<u64>>,
    soonest: Vec<Option<u64>>,
    worn: Vec<Option<u64>>,
}

/// The lesser of a tick and another, if there is one.
fn sooner_of(tick: u64, found: Option<u64>) -> Option<u64>
    ensures { result ≡ spec.sooner_of tick found }
{
    match found {
        Some(other) => Some(tick.min(other)),
        None => Some(tick),
    }
}

/// The line of a read or a write.
pub fn line_of<const B: usize>(op: &EventOp<B>) -> Option<u32>
    ensures { result ≡ line_asked (asks_of op.now) }
{
    match *op {
        EventOp::Read(line) => Some(line),
        EventOp::Write(line, _) => Some(line),
        EventOp::Mask(line, _, _) => Some(line),
        EventOp::Cut => None,
    }
}

/// The line of a write.
pub fn line_written<const B: usize>(op: &EventOp<B>) -> Option<u32>
    ensures { result ≡ line_written (asks_of op.now) }
{
    match *op {
        EventOp::Write(line, _) => Some(line),
        EventOp::Mask(line, _, _) => Some(line),
        _ => None,
    }
}

impl Outlook {
    /// What comes to a row.
    fn at<const B: usize>(&self, banks: &[u8], op: &EventOp<B>) -> Coming
        requires line { IsOfLines (length banks.now) (asks_of op.now) }
        requires next { length self.now.next.items ≡ length banks.now }
        requires soonest { length self.now.soonest.items ≡ length banks.now }
        requires worn { length self.now.worn.items ≡ 256 }
        ensures { (rows : List (Row B)) → IsOutlook banks.now rows self.now.next.items
            self.now.soonest.items self.now.worn.items
            → result ≡ coming_at banks.now (asks_of op.now) rows }
    {
        match line_of(op) {
            Some(line) => Coming {
                next: self.next[line as usize],
                soonest: self.soonest[line as usize],
                worn: self.worn[bank_of(banks, line) as usize],
            },
            None => Coming {
                next: None,
                soonest: None,
                worn: None,
            },
        }
    }

    /// Adds a write of a line in front of the rows that were looked at.
    fn add_write<const B: usize>(
        &mut self,
        banks: &[u8],
        tick: u64,
        line: u32,
        outcome: &Outcome<B>,
    )
        requires line { line < length banks.now }
        requires next { length self.old.next.items ≡ length banks.now }
        requires soonest { length self.old.soonest.items ≡ length banks.now }
        requires worn { length self.old.worn.items ≡ 256 }
        ensures { (rows : List (Row B)) (asks : Asks B) → line_written asks ≡ Some line
            → IsOutlook banks.now rows self.old.next.items self.old.soonest.items
            self.old.worn.items
            → IsOutlook banks.now (a_row tick asks outcome.now ∷ rows) self.new.next.items
            self.new.soonest.items self.new.worn.items }
    {
        match outcome {
            Outcome::Stored { tick: at, .. } => {
                let soonest = sooner_of(*at, self.soonest[line as usize]);
                self.next[line as usize] = Some(tick);
                self.soonest[line as usize] = soonest;
            }
            Outcome::Merged { .. } => self.next[line as usize] = Some(tick),
            Outcome::Queued { .. } => self.next[line as usize] = Some(tick),
            Outcome::Worn { .. } => self.worn[bank_of(banks, line) as usize] = Some(tick),
            _ => {}
        }
    }

    /// Adds a row in front of them.
    fn add<const B: usize>(&mut self, banks: &[u8], event: &Event<B>, outcome: &Outcome<B>)
        requires line { IsOfLines (length banks.now) (asks_of event.now.op) }
        requires next { length self.old.next.items ≡ length banks.now }
        requires soonest { length self.old.soonest.items ≡ length banks.now }
        requires worn { length self.old.worn.items ≡ 256 }
        ensures { (rows : List (Row B)) → IsOutlook banks.now rows self.old.next.items
            self.old.soonest.items self.old.worn.items
            → IsOutlook banks.now (row_of event.now outcome.now ∷ rows) self.new.next.items
            self.new.soonest.items self.new.worn.items }
    {
        if let Some(line) = line_written(&event.op) {
            self.add_write(banks, event.tick, line, outcome);
        }
    }
}

/// No tick yet, so many times.
fn none_yet(alloc: Global, number: usize) -> Result<Vec<Option<u64>>, AllocError>
    ensures { IfOk result (λ ticks. ticks.items ≡ replicate number None) }
{
    vec![in alloc; None; number]
}

/// What the rows behind each row bring, the last row's first.
pub fn look_ahead<const B: usize>(
    alloc: Global,
    events: &[Event<B>],
    results: &Results<B>,
    banks: &[u8],
) -> Result<Vec<Coming>, AllocError>
    requires small { B ≤ 128 }
    requires table { IsTable (length banks.now) (rows_with events.now results.now) }
    requires few { length events.now ≤ 400_000 }
    requires rows { length results.now ≡ length events.now }
    ensures { IfOk result (λ coming. coming.items
        ≡ coming_of banks.now (rows_with events.now results.now)) }
{
    let mut outlook = Outlook {
        next: none_yet(alloc, banks.len())?,
        soonest: none_yet(alloc, banks.len())?,
        worn: none_yet(alloc, 256)?,
    };
    let mut coming = Vec::new(alloc);
    let mut row = events.len();
    while row > 0 {
        let event = &events[row - 1];
        let outcome = results.get(row as u32);
        coming.push(outlook.at(banks, &event.op))?;
        outlook.add(banks, event, outcome);
        row -= 1;
    }
    Ok(coming)
}
