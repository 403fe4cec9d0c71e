//! The events that a seed draws for some banks of a module: those of other banks are drawn, too, and go to none.
#![tactic(auto)]

ghost use Rattle.std.specs.Prelude.{◌≡◌, ◌<◌, ◌≤◌, ◌^◌, ℕ, [], ◌∷◌, length, IfSome, MatchOption};
ghost use Rattle.module_shape.specs.Limits.{total_of};
ghost use Rattle.feistel_map.specs.Log2.{log2};
ghost use Rattle.feistel_map.specs.Network.{network_of};
ghost use Rattle.trace_reader.specs.Events.{AreEventsFor, IsOpFor};
ghost use Rattle.drawn_parts.specs.Parts.{drawn_for, has_bank, home_by, is_for};

use feistel_map::Feistel;
use module_shape::Shape;
use trace_gen::Generator;
use trace_reader::{Event, EventOp};

/// Banks from one to another: the rows of their lines, and power cuts, are served.
#[derive(Clone, Copy, PartialEq, Eq)]
pub struct Banks {
    /// The first, from 0.
    pub first: u32,
    /// The last.
    pub last: u32,
}

impl Banks {
    // Whether an operation is served: on a line of one of the banks, or a power cut.
    fn has<const B: usize>(&self, feistel: &Feistel, shape: &Shape, op: &EventOp<B>) -> bool
        requires network { 2 ^ feistel.now.bits ≡ total_of shape.now }
        requires op { IsOpFor (total_of shape.now) op.now }
        ensures { result ≡ is_for (home_by feistel.now shape.now) self.now op.now }
    {
        match op {
            EventOp::Read(line) => self.has_line(feistel, shape, *line),
            EventOp::Write(line, _) => self.has_line(feistel, shape, *line),
            EventOp::Mask(line, _, _) => self.has_line(feistel, shape, *line),
            EventOp::Cut => true,
        }
    }

    // Whether a line is one of theirs.
    fn has_line(&self, feistel: &Feistel, shape: &Shape, line: u32) -> bool
        requires network { 2 ^ feistel.now.bits ≡ total_of shape.now }
        requires line { line < total_of shape.now }
        ensures { result ≡ has_bank self.now (home_by feistel.now shape.now line) }
    {
        let bank = shape.locate(feistel.forward(line)).bank;
        self.first <= bank && bank <= self.last
    }
}

/// The next event that is drawn for these banks: those before it of lines of other banks are drawn, too, and go to none.
pub fn next_for<const B: usize>(
    generator: &mut Generator<B>,
    feistel: &Feistel,
    shape: &Shape,
    banks: Banks,
) -> Option<Event<B>>
    requires network { 2 ^ feistel.now.bits ≡ total_of shape.now }
    requires small { B ≤ 128 }
    requires lawful { (before : ℕ) × AreEventsFor (total_of shape.now) before generator.old }
    ensures next { (seed : ℕ) → feistel.now ≡ network_of (log2 (total_of shape.now)) seed
        → MatchOption result (drawn_for shape.now seed banks generator.old ≡ [])
        (λ event. drawn_for shape.now seed banks generator.old
        ≡ event ∷ drawn_for shape.now seed banks generator.new) }
    ensures fewer { IfSome result (λ event. length generator.new < length generator.old) }
    ensures lawful { (before : ℕ) → AreEventsFor (total_of shape.now) before generator.old
        → AreEventsFor (total_of shape.now) before generator.new }
{
    'events: while let Some(event) = generator.next_event() {
        if banks.has(feistel, shape, &event.op) {
            return Some(event);
        }
    }
    None
}
