//! A region of a bank as it rotates: its Start-Gap registers, and the count of writes that says when the gap moves.
//! One gap move comes due every psi stored writes (Qureshi et al., MICRO 2009).
#![tactic(auto)]

ghost use Rattle.std.specs.Prelude.{◌≡◌, ◌≢◌, ℕ, ◌+◌, ◌≤◌, ◌↔◌, IsTrue};
ghost use Rattle.start_gap.specs.Rotation.{IsRotation, StandsFor, most_lines};
ghost use Rattle.region_regs.specs.Region.{IsRegion, first_region, after_store, after_move};

use start_gap::Registers;
use std::marker::Model;

/// A region of 1 to 67,108,864 lines, whose gap moves every `psi` (1 to 65,535) stored writes.
#[derive(Drop)]
pub struct Region {
    registers: Registers,
    psi: u32,
    counter: u32,
}

impl Model for Region {
    ghost use Rattle.region_regs.specs.Region.{RegionState, IsRegion};

    ghost Value = { RegionState };

    ghost view = { λ r. record { rotation = r.registers; psi = r.psi; counter = r.counter } };

    ghost invariant = { λ r. IsRegion (record {
      rotation = r.registers;
      psi = r.psi;
      counter = r.counter;
    }) };
}

impl Region {
    /// A region that made no gap move and stored no write.
    pub fn new(n: u32, psi: u32) -> Region
        requires some_lines { 1 ≤ n }
        requires few_lines { n ≤ most_lines }
        requires some_writes { 1 ≤ psi }
        requires few_writes { psi ≤ 65535 }
        ensures fresh { result ≡ first_region n psi }
        ensures in_range { IsRegion result }
        ensures stands { StandsFor result.rotation 0 }
    {
        Region {
            registers: Registers::new(n),
            psi,
            counter: 0,
        }
    }

    /// A region whose registers and counter were kept elsewhere.
    pub fn at(n: u32, psi: u32, counter: u32, start: u32, gap: u32) -> Region
        requires in_range { IsRegion (record {
          rotation = record {
            lines = n;
            start = start;
            gap = gap;
          };
          psi = psi;
          counter = counter;
        }) }
        ensures given { result ≡ record {
          rotation = record { lines = n; start = start; gap = gap };
          psi = psi;
          counter = counter;
        } }
    {
        Region {
            registers: Registers::at(n, start, gap),
            psi,
            counter,
        }
    }

    /// Counts one write that was stored in this region.
    pub fn stored(&mut self)
        requires not_due { self.old.counter ≢ self.old.psi }
        ensures counted { self.new ≡ after_store self.old }
        ensures in_range { IsRegion self.new }
    {
        self.counter += 1;
    }

    /// Whether a gap move comes before the next write.
    pub fn due(&self) -> bool
        ensures at_psi { IsTrue result ↔ (self.now.counter ≡ self.now.psi) }
        ensures in_range { IsRegion self.now }
    {
        self.counter == self.psi
    }

    /// Makes the gap move that is due, and counts from 0 again.
    pub fn moved(&mut self)
        requires due { self.old.counter ≡ self.old.psi }
        ensures moved { self.new ≡ after_move self.old }
        ensures stands { (t : ℕ) → StandsFor self.old.rotation t
            → StandsFor self.new.rotation (t + 1) }
        ensures in_range { IsRegion self.new }
    {
        self.registers.advance();
        self.counter = 0;
    }

    /// The registers Start and Gap.
    pub fn registers(&self) -> &Registers
        ensures rotation { result.now ≡ self.now.rotation }
        ensures in_range { IsRegion self.now }
    {
        &self.registers
    }

    /// How many writes were stored since the last gap move, from 0 to psi.
    pub fn counter(&self) -> u32
        ensures value { result ≡ self.now.counter }
        ensures in_range { IsRegion self.now }
    {
        self.counter
    }
}
