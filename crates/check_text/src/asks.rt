//! What the rows of results are of.
ghost use Rattle.std.specs.Prelude.{◌≡◌, IfOk};
ghost use Rattle.check_text.specs.Checked.{ask_of, asks_in};

use result_rows::Op;
use std::alloc::{AllocError, Global};
use trace_reader::{Event, EventOp};

// The operation and the line of an event, as results have them; a cut names none, and 0 stands for that.
fn ask<const B: usize>(op: &EventOp<B>) -> (Op, u32)
    ensures { result ≡ ask_of op.now }
{
    match op {
        EventOp::Read(line) => (Op::Read, *line),
        EventOp::Write(line, _) | EventOp::Mask(line, _, _) => (Op::Write, *line),
        EventOp::Cut => (Op::Cut, 0),
    }
}

/// The operations and lines of events.
pub fn asks<const B: usize>(
    alloc: Global,
    events: &[Event<B>],
) -> Result<Vec<(Op, u32)>, AllocError>
    ensures { IfOk result (λ asks. asks.items ≡ asks_in events.now) }
{
    let mut asks = Vec::with_capacity(alloc, events.len())?;
    for event in events {
        asks.push(ask(&event.op))?;
    }
    Ok(asks)
}
