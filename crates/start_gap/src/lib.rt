//! The Start-Gap rotation of a region's lines, by two registers (Qureshi et al., MICRO 2009).
//! A region of n lines has n+1 places; each gap move copies one line into the gap, so that over a full turn every
//! line wears every place alike.
#![tactic(auto)]

ghost use Rattle.std.specs.Prelude.{◌≡◌, ◌≢◌, ℕ, ◌+◌, ◌-◌, ◌*◌, ◌<◌, ◌≤◌, ◌==◌, ◌↔◌, if◌then◌else◌, IsNone, IfSome, MatchOption};
ghost use Rattle.start_gap.specs.Rotation.{Rotation, IsRotation, StandsFor, most_lines, first_rotation, turn, place_after, gap_after, below_gap, move_after, place_by, move_by, advanced};

mod turn;

use std::marker::Model;
pub use turn::{each_pair_once, find_move};

/// One gap move: the line (its number in the region) is copied from one place of the region into another, the gap.
#[derive(Clone, Copy, PartialEq, Eq)]
pub struct Move {
    pub line: u32,
    pub from: u32,
    pub to: u32,
}

/// The registers Start and Gap of a region of 1 to 67,108,864 lines.
#[derive(Clone, Copy, PartialEq, Eq)]
pub struct Registers {
    lines: u32,
    start: u32,
    gap: u32,
}

impl Model for Registers {
    ghost use Rattle.start_gap.specs.Rotation.{Rotation, IsRotation};

    ghost Value = { Rotation };

    ghost view = { λ r. record { lines = r.lines; start = r.start; gap = r.gap } };

    ghost invariant = { λ r. IsRotation (record {
      lines = r.lines;
      start = r.start;
      gap = r.gap;
    }) };

    ghost inverse = { λ r. record { lines = r.lines; start = r.start; gap = r.gap } };
}

impl Registers {
    /// Every line in the place of its own number, and the gap behind them.
    pub fn new(n: u32) -> Registers
        requires some_lines { 1 ≤ n }
        requires few_lines { n ≤ most_lines }
        ensures fresh { result ≡ first_rotation n }
        ensures in_range { IsRotation result }
        ensures stands { StandsFor result 0 }
    {
        Registers {
            lines: n,
            start: 0,
            gap: n,
        }
    }

    /// Registers that were kept elsewhere: the state of a region is these two numbers alone.
    pub fn at(n: u32, start: u32, gap: u32) -> Registers
        requires in_range { IsRotation (record { lines = n; start = start; gap = gap }) }
        ensures given { result ≡ record { lines = n; start = start; gap = gap } }
    {
        Registers {
            lines: n,
            start,
            gap,
        }
    }

    /// How far the lines have been turned, from 0 to n-1.
    pub fn start(&self) -> u32
        ensures register { result ≡ self.now.start }
        ensures in_range { IsRotation self.now }
    {
        self.start
    }

    /// The place that holds no line, from 0 to n.
    pub fn gap(&self) -> u32
        ensures register { result ≡ self.now.gap }
        ensures after { (t : ℕ) → StandsFor self.now t → result ≡ gap_after self.now.lines t }
        ensures in_range { IsRotation self.now }
    {
        self.gap
    }

    /// The place of a line, from 0 to n.
    pub fn place(&self, line: u32) -> u32
        requires { line < self.now.lines }
        ensures by_registers { result ≡ place_by self.now line }
        ensures after { (t : ℕ) → StandsFor self.now t
            → result ≡ place_after self.now.lines line t }
        ensures within { result ≤ self.now.lines }

        // No line has the gap, and no other line has this place.
        ensures off_gap { result ≢ self.now.gap }
        ensures apart { (other : ℕ) → other < self.now.lines → place_by self.now other ≡ result
            → other ≡ line }
    {
        let turned = (line + self.start) % self.lines;
        if turned < self.gap {
            turned
        } else {
            turned + 1
        }
    }

    /// The line that has a place; none has the gap.
    pub fn line_at(&self, place: u32) -> Option<u32>
        requires { place ≤ self.now.lines }
        ensures none { IsNone result ↔ (place ≡ self.now.gap) }
        ensures some { IfSome result (λ line. (line < self.now.lines)
            × (place_by self.now line ≡ place)) }
        ensures after { (t : ℕ) → StandsFor self.now t
            → MatchOption result (place ≡ gap_after self.now.lines t)
            (λ line. place_after self.now.lines line t ≡ place) }
    {
        if place == self.gap {
            None
        } else if place < self.gap {
            Some((place + self.lines - self.start) % self.lines)
        } else {
            Some((place - 1 + self.lines - self.start) % self.lines)
        }
    }

    /// What the next gap move copies: the line in the place below the gap, or in place n where the gap is at 0.
    pub fn next_move(&self) -> Move
        ensures by_registers { result ≡ move_by self.now }
        ensures after { (t : ℕ) → StandsFor self.now t → result ≡ move_after self.now.lines t }

        // The copied line stands there, so the gap and the line change their places.
        ensures exists { result.line < self.now.lines }
        ensures stands { place_by self.now result.line ≡ result.from }
    {
        let moves = (self.start + self.lines - self.gap) % self.lines;
        Move {
            line: self.lines - 1 - moves,
            from: place_below(self.lines, self.gap),
            to: self.gap,
        }
    }

    /// Makes the next move: the gap falls by one, and at 0 it goes round the end and Start rises.
    pub fn advance(&mut self)
        ensures advanced { self.new ≡ advanced self.old }
        ensures counted { (t : ℕ) → StandsFor self.old t → StandsFor self.new (t + 1) }

        // The line of that move goes into the gap, and every other line stays.
        ensures places { (line : ℕ) → line < self.old.lines → place_by self.new line
            ≡ (if line == (move_by self.old).line then self.old.gap else place_by self.old line) }
        ensures in_range { IsRotation self.new }
    {
        if self.gap == 0 {
            self.gap = self.lines;
            self.start = (self.start + 1) % self.lines;
        } else {
            self.gap -= 1;
        }
    }
}

// The place below a gap, round the end.
fn place_below(lines: u32, gap: u32) -> u32
    ensures { result ≡ below_gap lines gap }
{
    if gap == 0 { lines } else { gap - 1 }
}
