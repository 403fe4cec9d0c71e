// Rows that another program asks by one call each.
ghost use Rattle.std.specs.Prelude.{◌≡◌, ◌≢◌, ◌≤◌, replicate};
ghost use Rattle.masked_bytes.specs.Masked.{laid};
ghost use Rattle.trace_reader.specs.declared.event.EventOp.TheVariants.{Cut, Mask, Read, Write};
ghost use Rattle.module_shape.specs.Limits.{total_of};
ghost use Rattle.pcm_library.specs.Answers.{Answers, refusal_of_bytes, refusal_of_line, refusal_of_row};
ghost use Rattle.pcm_library.specs.Serving.{Takes};

use crate::masking::masked;
use crate::session::{Answer, Session};
use cell_rows::CellArray;
use trace_reader::{Event, EventOp};

impl<const B: usize, const M: usize, const E: usize, A: CellArray<B, M> + Drop> Session<
    B,
    M,
    E,
    A,
> {
    // Lines are short: a field that is read makes it known.
    fn has_short_lines(&self)
        ensures { B ≤ 128 }
    {
        let _ = &self.module;
    }

    /// A read of a line comes.
    pub fn read(&mut self, tick: u64, line: u32) -> Answer
        ensures answer { Answers self.old (refusal_of_line (total_of self.old.module_.shape) line
            (refusal_of_row self.old tick)) result }
        ensures takes { result ≡ Answer.Done → Takes A.state
            (record { tick = tick; op = Read line }) self.old self.new }
        ensures rest { result ≢ Answer.Done → self.new ≡ self.old }
    {
        if line >= self.lines() {
            return Answer::NoLine;
        }
        self.has_short_lines();
        let event = Event {
            tick,
            op: EventOp::Read(line),
        };
        self.event(&event)
    }

    /// A write of all bytes of a line comes.
    pub fn write(&mut self, tick: u64, line: u32, bytes: &[u8; B]) -> Answer
        ensures answer { Answers self.old (refusal_of_line (total_of self.old.module_.shape) line
            (refusal_of_row self.old tick)) result }
        ensures takes { result ≡ Answer.Done → Takes A.state
            (record { tick = tick; op = Write line bytes.now }) self.old self.new }
        ensures rest { result ≢ Answer.Done → self.new ≡ self.old }
    {
        if line >= self.lines() {
            return Answer::NoLine;
        }
        self.has_short_lines();
        let event = Event {
            tick,
            op: EventOp::Write(line, *bytes),
        };
        self.event(&event)
    }

    /// A write of those bytes of a line comes that are given.
    pub fn write_masked(
        &mut self,
        tick: u64,
        line: u32,
        bytes: &[u8; B],
        given: &[bool; B],
    ) -> Answer
        ensures answer { Answers self.old (refusal_of_line (total_of self.old.module_.shape) line
            (refusal_of_bytes given.now (refusal_of_row self.old tick))) result }
        ensures takes { result ≡ Answer.Done → Takes A.state (record {
          tick = tick;
          op = Mask line (laid bytes.now given.now (replicate B 0)) given.now;
        }) self.old self.new }
        ensures rest { result ≢ Answer.Done → self.new ≡ self.old }
    {
        if line >= self.lines() {
            return Answer::NoLine;
        }
        self.has_short_lines();
        let Some(op) = masked(line, bytes, given) else {
            return Answer::NoBytes;
        };
        let event = Event { tick, op };
        self.event(&event)
    }

    /// The power is cut.
    pub fn cut(&mut self, tick: u64) -> Answer
        ensures answer { Answers self.old (refusal_of_row self.old tick) result }
        ensures takes { result ≡ Answer.Done → Takes A.state
            (record { tick = tick; op = Cut }) self.old self.new }
        ensures rest { result ≢ Answer.Done → self.new ≡ self.old }
    {
        self.has_short_lines();
        let event = Event {
            tick,
            op: EventOp::Cut,
        };
        self.event(&event)
    }
}
