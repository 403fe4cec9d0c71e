//! Whether a row has an outcome that it may have.

ghost use Rattle.std.specs.Prelude.{◌≡◌};
ghost use Rattle.row_rules.specs.Serving as serving;
ghost use Rattle.trace_rows.specs.Rows.{asks_of};

use result_rows::Outcome;
use trace_reader::EventOp;

/// Whether two lines have the same bytes.
fn same_bytes<const B: usize>(bytes: &[u8; B], other: &[u8; B]) -> bool
    ensures { result ≡ serving.same_bytes bytes.now other.now }
{
    *bytes == *other
}

/// Whether a row that arrived at this tick may have this outcome, these being the newest bytes of its line.
pub fn may_have<const B: usize>(
    tick: u64,
    op: &EventOp<B>,
    newest: &[u8; B],
    outcome: &Outcome<B>,
) -> bool
    ensures { result ≡ serving.may_have tick (asks_of op.now) newest.now outcome.now }
{
    match (op, outcome) {
        (EventOp::Write(..) | EventOp::Mask(..), Outcome::Stored { .. } | Outcome::Merged { .. }) =>
            true,
        (
            EventOp::Write(..) | EventOp::Mask(..),
            Outcome::Queued { tick: at } | Outcome::Full { tick: at } | Outcome::Worn { tick: at },
        ) => *at == tick,
        (EventOp::Read(_), Outcome::Read { bytes, .. }) => same_bytes(bytes, newest),
        (EventOp::Read(_), Outcome::Forwarded { tick: at, bytes }) => {
            *at == tick && same_bytes(bytes, newest)
        }
        (EventOp::Read(_), Outcome::Busy { tick: at }) => *at == tick,
        (EventOp::Read(_), Outcome::Lost { .. }) => true,
        (EventOp::Cut, Outcome::Cut { tick: at }) => *at == tick,
        _ => false,
    }
}
