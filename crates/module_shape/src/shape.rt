// The sizes of a module that it can have.
ghost use Rattle.std.specs.Prelude.{◌≡◌, ◌+◌, ◌*◌, ◌^◌, ◌<◌, ◌≤◌, IfOk, IsTrue};
ghost use Rattle.feistel_map.specs.Log2.{log2};
ghost use Rattle.bank_shape.specs.Shape.{IsBankShape, controls_of, lines_in};
ghost use Rattle.bank_shape.specs.Pausing.{IsPace};
ghost use Rattle.module_shape.specs.Limits.{IsShape, IsSmall, accepted, is_small, large_limits, most_array_lines, small_limits, total_of};
ghost use Rattle.module_shape.specs.Addresses.{module_of, pace_of, lines_of, array_lines_of, bank_shape, bank_of, bank_line_of};

use crate::raw::{BadShape, RawShape, fault, large_limits, small_limits};
use bank_shape::{BankShape, Home, Pace};
use feistel_map::Address;
use std::marker::Model;

/// The sizes of a module, all in range.
#[derive(Clone, Copy, PartialEq, Eq)]
pub struct Shape {
    raw: RawShape,
}

impl Model for Shape {
    ghost use Rattle.module_shape.specs.Limits.{IsShape};
    ghost use Rattle.module_shape.specs.declared.raw.RawShape.{RawShape};

    ghost Value = { RawShape };

    ghost view = { λ s. s.raw };

    ghost invariant = { λ s. IsShape s.raw };

    ghost inverse = { λ raw. record { raw = raw } };
}

/// A line of a bank: which bank, and the number of the line there, each from 0.
#[derive(Clone, Copy, PartialEq, Eq)]
pub struct BankLine {
    pub bank: u32,
    pub line: u32,
}

impl Shape {
    /// The shape of a small module of these sizes, or the first one out of range.
    pub fn new(raw: RawShape) -> Result<Shape, BadShape>
        ensures exact { result ≡ accepted small_limits raw }
        ensures in_range { IfOk result IsShape }
        ensures small { IfOk result IsSmall }
    {
        match fault(&raw, &small_limits()) {
            Some(field) => Err(BadShape { field }),
            None => Ok(Shape { raw }),
        }
    }

    /// The same, of a large module.
    pub fn large(raw: RawShape) -> Result<Shape, BadShape>
        ensures exact { result ≡ accepted large_limits raw }
        ensures in_range { IfOk result IsShape }
    {
        match fault(&raw, &large_limits()) {
            Some(field) => Err(BadShape { field }),
            None => Ok(Shape { raw }),
        }
    }

    /// The sizes.
    pub fn raw(&self) -> &RawShape
        ensures same { result.now ≡ self.now }
        ensures in_range { IsShape self.now }
    {
        &self.raw
    }

    /// Whether the sizes are those of a small module, on which a whole trace is replayed.
    pub fn is_small(&self) -> bool
        ensures exact { result ≡ is_small self.now }
        ensures small { IsTrue result → IsSmall self.now }
    {
        let most = small_limits();
        self.raw.banks <= most.banks
            && self.raw.regions <= most.regions
            && self.raw.lines <= most.lines
            && self.total() <= most.total
    }

    /// How many banks the module has.
    pub fn banks(&self) -> u32
        ensures number { result ≡ self.now.banks }
        ensures in_range { IsShape self.now }
    {
        self.raw.banks
    }

    /// How many lines the module has.
    pub fn total(&self) -> u32
        ensures number { result ≡ total_of self.now }
        ensures in_range { IsShape self.now }
    {
        self.raw.banks * self.raw.regions * self.raw.lines
    }

    /// How many array lines the module has: those of all its banks.
    pub fn array_lines(&self) -> u32
        ensures number { result ≡ self.now.banks * array_lines_of (module_of self.now) }
        ensures few { result ≤ most_array_lines }
        ensures in_range { IsShape self.now }
    {
        self.raw.banks * self.bank_lines()
    }

    // How many array lines a bank has.
    fn bank_lines(&self) -> u32
        ensures number { result ≡ array_lines_of (module_of self.now) }
        ensures few { self.now.banks * result ≤ most_array_lines }
        ensures in_range { IsShape self.now }
    {
        self.raw.regions * (self.raw.lines + 1) + self.raw.spares + self.control_lines()
    }

    // How many of them are control lines, which keep the bank's registers.
    fn control_lines(&self) -> u32
        ensures number { result ≡ controls_of (module_of self.now).bank }
        ensures few { result ≤ self.now.regions + self.now.spares + 1 }
        ensures in_range { IsShape self.now }
    {
        match self.raw.home {
            Home::Guarded => 0,
            Home::Array => self.raw.regions + self.raw.spares + 1,
        }
    }

    /// How many bits the number of a line has: the module has a power of two of lines.
    pub fn address_bits(&self) -> u32
        ensures power { 2 ^ result ≡ total_of self.now }
        ensures exact { result ≡ log2 (total_of self.now) }
        ensures some { 2 ≤ result }
        ensures few { result ≤ 26 }
        ensures in_range { IsShape self.now }
    {
        self.total().ilog2()
    }

    /// The shape of a bank; the array lines of the banks follow one another.
    pub fn bank_shape(&self, bank: u32) -> BankShape
        requires { bank < self.now.banks }
        ensures exact { result ≡ bank_shape (module_of self.now) bank }
        ensures shape { IsBankShape result }
        ensures within { result.base + lines_in result
            ≤ self.now.banks * array_lines_of (module_of self.now) }
        ensures in_range { IsShape self.now }
    {
        BankShape {
            base: bank * self.bank_lines(),
            regions: self.raw.regions,
            lines: self.raw.lines,
            spares: self.raw.spares,
            writes: self.raw.writes,
            reads: self.raw.reads,
            psi: self.raw.psi,
            home: self.raw.home,
        }
    }

    /// How fast the banks work.
    pub fn pace(&self) -> Pace
        ensures exact { result ≡ pace_of self.now }
        ensures pace { IsPace result }
        ensures in_range { IsShape self.now }
    {
        Pace {
            read: self.raw.read_ticks,
            iter: self.raw.iter_ticks,
            policy: self.raw.policy,
        }
    }

    /// The bank of a mixed line and its number there, which is its region's first and its offset.
    pub fn locate(&self, mixed: u32) -> BankLine
        requires { mixed < total_of self.now }
        ensures bank { result.bank ≡ bank_of (module_of self.now) mixed }
        ensures line { result.line ≡ bank_line_of (module_of self.now) mixed }
        ensures bank_exists { result.bank < self.now.banks }
        ensures line_exists { result.line < lines_of (module_of self.now) }
        ensures determined { result.bank * lines_of (module_of self.now) + result.line ≡ mixed }
        ensures in_range { IsShape self.now }
    {
        let address = Address::of(mixed, self.raw.regions, self.raw.lines);
        BankLine {
            bank: address.bank,
            line: address.region * self.raw.lines + address.offset,
        }
    }
}
