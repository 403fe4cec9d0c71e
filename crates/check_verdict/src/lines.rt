//! What is kept of a line: its newest bytes, and which of them the queue gives.

ghost use Rattle.std.specs.Prelude.{◌≡◌, [], reverse, replicate, IfOk};
ghost use Rattle.masked_bytes.specs.Masked.{gives_all, joined, laid, none_given};
ghost use Rattle.check_verdict.specs.Covering.{held_by, cover_kept, closed, unclosed_behind, runs_behind};
ghost use Rattle.check_verdict.specs.Covering.{CoverKeptLaw, LineStaysLaw, LineJoinsLaw};

use masked_bytes::layers::{has_all, join_given, lay_over};
use std::alloc::{AllocError, Global};

/// The bytes that a stored write of a line gives, and those before it down to the last stored one.
#[derive(Clone, Copy)]
pub struct Run<const B: usize> {
    /// When that write is stored.
    pub end: u64,
    /// Which bytes they give.
    pub given: [bool; B],
}

/// What is kept of a line tells which bytes the queue gives of it, and stays so from row to row.
pub fn kept_tells_cover()
    ensures cover { CoverKeptLaw }
    ensures stays { LineStaysLaw }
    ensures joins { LineJoinsLaw }
{}

/// What these runs, the oldest first, give down to the newest that is stored by a tick.
fn held<const B: usize>(runs: &[Run<B>], tick: u64) -> [bool; B]
    ensures { result ≡ held_by B tick (reverse runs.now) }
{
    match runs.last() {
        Some(newest) if newest.end > tick => {
            let mut given = held(&runs[..runs.len() - 1], tick);
            join_given(&newest.given, &mut given);
            given
        }
        _ => [false; B],
    }
}

/// Whether the queue gives every byte of a line, where the first of its later stores comes at this tick.
pub fn is_covered<const B: usize>(
    tick: u64,
    next: Option<u64>,
    unclosed: &[bool; B],
    runs: &[Run<B>],
) -> bool
    ensures { result ≡ gives_all (cover_kept B tick next unclosed.now runs.now) }
{
    let mut given = [false; B];
    if next.is_none_or(|at| at > tick) {
        given = held(runs, tick);
        join_given(unclosed, &mut given);
    }
    has_all(&given)
}

/// What is kept of a line: its newest bytes, which bytes its writes give since its last stored one, and the runs before.
#[derive(Drop)]
pub struct CheckedLine<const B: usize> {
    pub newest: [u8; B],
    pub unclosed: [bool; B],
    pub runs: Vec<Run<B>>,
}

/// Lets the runs go once the newest of them is over.
fn let_close<const B: usize>(runs: &mut Vec<Run<B>>, now: u64)
    ensures { runs.new.items ≡ reverse (closed now (reverse runs.old.items)) }
{
    let over = match runs.last() {
        Some(newest) => newest.end <= now,
        None => false,
    };
    if over {
        runs.clear();
    }
}

impl<const B: usize> CheckedLine<B> {
    /// A line of which no write has passed.
    pub fn new(alloc: Global) -> CheckedLine<B>
        ensures newest { result.newest ≡ replicate B 0 }
        ensures unclosed { result.unclosed ≡ none_given B }
        ensures runs { result.runs.items ≡ [] }
    {
        CheckedLine {
            newest: [0; B],
            unclosed: [false; B],
            runs: Vec::new(alloc),
        }
    }

    /// Lets an accepted write pass that arrived at a tick, and is stored at another or not.
    pub fn pass(
        &mut self,
        now: u64,
        stored: Option<u64>,
        bytes: &[u8; B],
        given: &[bool; B],
    ) -> Result<(), AllocError>
        ensures newest { IfOk result (λ _. self.new.newest
            ≡ laid bytes.now given.now self.old.newest) }
        ensures unclosed { IfOk result (λ _. self.new.unclosed
            ≡ unclosed_behind B stored given.now self.old.unclosed) }
        ensures runs { IfOk result (λ _. self.new.runs.items
            ≡ runs_behind now stored (joined given.now self.old.unclosed) self.old.runs.items) }
    {
        lay_over(bytes, given, &mut self.newest);
        join_given(given, &mut self.unclosed);
        if let Some(end) = stored {
            let_close(&mut self.runs, now);
            self.runs.push(Run {
                end,
                given: self.unclosed,
            })?;
            let none = [false; B];
            self.unclosed = none;
        }
        Ok(())
    }
}
