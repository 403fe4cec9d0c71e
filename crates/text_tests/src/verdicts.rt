// The verdict on a write and a read of it.
ghost use Rattle.std.specs.Prelude.{◌≡◌, true};
ghost use Rattle.text_tests.specs.Timely.{is_timed};

use crate::expected::compare;
use bank_shape::Policy;
use result_check::{Rule, Rules, Verdict, check};
use result_rows::{Outcome, Results};
use std::alloc::{AllocError, Global};
use trace_reader::{Event, EventOp};

// The verdict on a write of line 0 at tick 0 and a read of it at tick 100, in the small bank.
fn verdict_on(alloc: Global, written: Outcome<64>, read: Outcome<64>) -> Result<Verdict, AllocError>
    requires written { is_timed written ≡ true }
    requires read { is_timed read ≡ true }
{
    let events = [
        Event {
            tick: 0,
            op: EventOp::Write(0, [0xff; 64]),
        },
        Event {
            tick: 100,
            op: EventOp::Read(0),
        },
    ];
    let mut results = Results::new(alloc, 2)?;
    results.set(1, written);
    results.set(2, read);
    let banks = [0; 4];
    let rules = Rules {
        writes: 4,
        reads: 4,
        spares: 2,
        read_ticks: 5,
        iter_ticks: 10,
        steps: 160,
        policy: Policy::Pause,
        twice: false,
    };
    check(alloc, &events, &results, &banks, &rules)
}

const STORED: Outcome<64> = Outcome::Stored { tick: 15, place: 3 };

const READ: Outcome<64> = Outcome::Read {
    tick: 105,
    place: 3,
    bytes: [0xff; 64],
};

// Read a tick too early.
const EARLY: Outcome<64> = Outcome::Read {
    tick: 104,
    place: 3,
    bytes: [0xff; 64],
};

// Other bytes than those that were written.
const OTHER: Outcome<64> = Outcome::Read {
    tick: 105,
    place: 3,
    bytes: [0xfe; 64],
};

#[test]
fn a_table_gets_its_verdict(rt: HostRuntime) {
    let verdicts = [
        verdict_on(rt.alloc(), STORED, READ),
        verdict_on(rt.alloc(), STORED, EARLY),
        verdict_on(rt.alloc(), STORED, OTHER),
    ];
    let early = Verdict::No {
        row: 2,
        rule: Rule::Tick,
    };
    let other = Verdict::No {
        row: 2,
        rule: Rule::Serves,
    };
    compare(&rt, verdicts, [Ok(Verdict::Yes), Ok(early), Ok(other)]);
}

#[test]
fn a_write_that_was_not_taken_serves_no_read(rt: HostRuntime) {
    let verdicts = [
        verdict_on(rt.alloc(), Outcome::Worn { tick: 0 }, READ),
        verdict_on(rt.alloc(), Outcome::Cut { tick: 0 }, READ),
    ];
    let worn = Verdict::No {
        row: 2,
        rule: Rule::Serves,
    };
    let cut = Verdict::No {
        row: 1,
        rule: Rule::Serves,
    };
    compare(&rt, verdicts, [Ok(worn), Ok(cut)]);
}
