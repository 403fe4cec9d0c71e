//! The sizes of one bank of the memory, what a bank writes next, and what its array lines are used for.
//!
//! A bank rotates the lines of its regions by Start-Gap (Qureshi et al., MICRO 2009): a region of `lines` lines has
//! `lines + 1` places, one of them the gap. The places of all regions, one region after the other, are the bank's slots.
#![tactic(auto)]

ghost use Rattle.std.specs.Prelude.{◌≡◌, ◌<◌, ◌≤◌, ◌^◌};
ghost use Rattle.bank_shape.specs.Shape.{IsBankShape, slots_of, controls_of, controls_from, lines_in, slot_at};

pub mod answer;
pub mod clock;
mod pace;
pub mod waiting;

pub use pace::{Pace, Policy};
use start_gap::Move;

/// Where a bank keeps its registers, its remap table and the mark of a bank that found no spare.
#[derive(Clone, Copy, PartialEq, Eq)]
pub enum Home {
    /// In memory that survives a power cut.
    Guarded,
    /// In control lines of its array, behind the spares; only the queue and one change survive a cut by themselves.
    Array,
}

/// The sizes of a bank.
#[derive(Clone, Copy, PartialEq, Eq)]
pub struct BankShape {
    /// The first of the bank's array lines.
    pub base: u32,
    /// How many regions the bank has, 1 to 64.
    pub regions: u32,
    /// How many lines each region has, 1 to 67,108,864.
    pub lines: u32,
    /// How many spare lines stand behind the slots, 0 to 1,024.
    pub spares: u32,
    /// How many writes the protected queue holds, 1 to 256.
    pub writes: u32,
    /// How many reads may wait, 1 to 256.
    pub reads: u32,
    /// How many stores of a region make one gap move due, 1 to 65,535.
    pub psi: u32,
    /// Where the registers are kept.
    pub home: Home,
}

/// What a bank writes next.
#[derive(Clone, Copy, PartialEq, Eq)]
pub enum Work {
    /// No move is due and no write is queued, or the bank is exhausted.
    Nothing,
    /// The oldest queued write is due: its bank line, and the slot where that line stands.
    Store { line: u32, slot: u32 },
    /// A gap move of a region is due.
    Copy { region: u32, step: Move },
}

/// What an array line is used for.
#[derive(Clone, Copy, PartialEq, Eq)]
pub enum Role {
    /// It holds this line of the module.
    Line(u32),
    /// It is the gap of a region, which holds no line (Start-Gap, Qureshi et al., MICRO 2009).
    Gap,
    /// It is a spare that isn't used.
    Free,
    /// It wore out, and its slot was given another array line.
    Retired,
    /// It keeps registers of the bank.
    Control,
}

impl BankShape {
    /// How many slots the bank has: the places of all its regions.
    pub fn slots(&self) -> u32
        requires { IsBankShape self.now }
        ensures { result ≡ slots_of self.now }
    {
        self.regions * (self.lines + 1)
    }

    /// How many control lines the bank has.
    pub fn controls(&self) -> u32
        requires { IsBankShape self.now }
        ensures { result ≡ controls_of self.now }
    {
        match self.home {
            Home::Guarded => 0,
            Home::Array => self.regions + self.spares + 1,
        }
    }

    /// The first of its control lines, which stand behind its spares.
    pub fn first_control(&self) -> u32
        requires { IsBankShape self.now }
        ensures { result ≡ controls_from self.now }
    {
        self.base + self.slots() + self.spares
    }

    /// How many array lines the bank owns, from `base` on: those of its slots, its spares, and its control lines.
    pub fn array_lines(&self) -> u32
        requires { IsBankShape self.now }
        ensures { result ≡ lines_in self.now }
    {
        self.slots() + self.spares + self.controls()
    }

    /// The slot of a place of a region.
    pub fn slot(&self, region: u32, place: u32) -> u32
        requires shape { IsBankShape self.now }
        requires region_exists { region < self.now.regions }
        requires place_exists { place ≤ self.now.lines }
        ensures exact { result ≡ slot_at self.now region place }
        ensures within { result < slots_of self.now }
    {
        region * (self.lines + 1) + place
    }
}
