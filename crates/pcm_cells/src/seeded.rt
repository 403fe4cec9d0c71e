// The array whose cells wear out as a seed says.
ghost use Rattle.std.specs.Prelude.{◌≡◌, ℕ, ◌+◌, ◌-◌, ◌*◌, ◌<◌, ◌≤◌, true, false, length, OnOk, OnErr, ◌/◌, [], Some, None, is_some, slice_set};
ghost use Rattle.cell_rows.specs.Device.{IsWear, EnergyChanges, counted};
ghost use Rattle.cell_rows.specs.Rows.{cell};
ghost use Rattle.cell_rows.specs.Shape.{IsShape, IsWhole};
ghost use Rattle.seeded_lines.specs.Seeded.{IsDrawn};
ghost use Rattle.std.specs.Option.{option_map};
ghost use Rattle.cell_rows.specs.Energy.{with_pulse, with_sense};
ghost use Rattle.line_pages.specs.Counting.{energy_at};
ghost use Rattle.pcm_cells.specs.Seeded.{bounds_of, seeded_line, seeded_state, Wears};

use crate::tally::Tally;
use cell_rows::{CellArray, CellWear, Cells, LineEnergy, TellsCells, Wear};
use line_pages::Pages;
use seeded_lines::has_end;
use std::alloc::{AllocError, Global};
use std::marker::Model;

/// An array whose cells miss and wear out as the words of the generator xoshiro256++ say, which `Wear::seed`
/// and the line's number seed. A tear reaches the masked cells of even number alone. It tells no log.
/// Contracts see it as a `SeededArray`.
///
/// `power_up` takes room for all lines and draws no word: those of a line are drawn at the first pulse or tear
/// at which one of its cells may be near its end, or at its first one, where cells miss.
#[derive(Drop)]
pub struct MemArray<const B: usize, const M: usize> {
    lines: Option<Pages<B, M>>,
    energies: Tally,
    tears: u64,
}

impl<const B: usize, const M: usize> Model for MemArray<B, M> {
    ghost use Rattle.pcm_cells.specs.Endurance.{AreBounded, IsInRange};
    ghost use Rattle.line_pages.specs.Paging.{seeded_lines, seeded_wear};
    ghost use Rattle.pcm_cells.specs.Seeded.{SeededArray, bounds_of};
    ghost use Rattle.std.specs.Prelude.{◌≡◌, length, IfSome};
    ghost use Rattle.cell_rows.specs.Shape.{IsShape, IsWhole};

    ghost Value = { SeededArray B M };

    ghost view = { λ a. record {
      lines = seeded_lines a.lines;
      tears = a.tears;
      wear = seeded_wear a.lines;
      energies = a.energies;
    } };

    ghost invariant = { λ a. IsShape B M × IsWhole B M × IsInRange (bounds_of (seeded_wear a.lines))
        × AreBounded (bounds_of (seeded_wear a.lines)) (seeded_lines a.lines)
        × IfSome a.energies (λ energies. length energies ≡ length (seeded_lines a.lines)) };
}

impl<const B: usize, const M: usize> MemArray<B, M> {
    ghost use Rattle.pcm_cells.specs.Endurance.{AreBounded, IsInRange};

    /// An array without lines, whose rows are to be whole blocks of 64 cells.
    pub fn new() -> MemArray<B, M>
        requires shape { IsShape B M }
        requires whole { IsWhole B M }
        ensures { result ≡ record { lines = []; tears = 0; wear = None; energies = Some [] } }
    {
        MemArray {
            lines: None,
            energies: Tally::counting(),
            tears: 0,
        }
    }

    /// Such an array that counts neither senses nor the cells that pulses drive, and tells nothing of energy. It is quicker.
    pub fn without_energy() -> MemArray<B, M>
        requires shape { IsShape B M }
        requires whole { IsWhole B M }
        ensures { result ≡ record { lines = []; tears = 0; wear = None; energies = None } }
    {
        MemArray {
            lines: None,
            energies: Tally::nothing(),
            tears: 0,
        }
    }

    // A pulse or a tear of a line.
    fn wear(&mut self, line: u32, tearing: bool, mask: &Cells<B, M>, want: &Cells<B, M>)
        requires exists { line < length self.old.lines }
        requires shape { IsShape B M }
        ensures wears { Wears line tearing mask.now want.now self.old self.new }
        ensures energy { EnergyChanges line
            (with_pulse mask.now want.now ((seeded_state self.old).energy line))
            (seeded_state self.old) (seeded_state self.new) }
        ensures tears { self.new.tears ≡ self.old.tears }
        ensures wear { self.new.wear ≡ self.old.wear }
        ensures range { IsInRange (bounds_of self.old.wear) }
        ensures bounded { AreBounded (bounds_of self.old.wear) self.new.lines }
        ensures end { (n : ℕ) → 8 * (B + M) ≤ n → cell mask.now n ≡ false }
    {
        has_end(mask);
        self.energies.drive(line, mask, want);
        let Some(lines) = &mut self.lines else {
            unreachable!()
        };
        lines.wear(line, tearing, mask, want);
    }
}

impl<const B: usize, const M: usize> CellArray<B, M> for MemArray<B, M> {
    ghost use Rattle.cell_rows.specs.Device.{DeviceStep, TornStep, ChangesOnly, Senses, IsFresh, sense_of};
    ghost use Rattle.cell_rows.specs.Pulse.{IsPulse};

    ghost state = { seeded_state };

    fn power_up(&mut self, alloc: Global, lines: u32, wear: Wear) -> Result<(), AllocError>
        requires wear { IsWear wear }
        requires shape { IsShape B M }
        ensures ok { OnOk result (IsFresh lines wear (seeded_state self.new)) }
        ensures err { OnErr result (length self.new.lines ≡ 0) }
        ensures drawn { OnOk result ((l : ℕ) → l < lines
            → IsDrawn wear l (seeded_line self.new l)) }
        ensures counts { is_some self.new.energies ≡ is_some self.old.energies }
    {
        self.lines = None;
        self.energies.clear();
        self.tears = 0;
        let energies = self.energies.renewed(alloc, lines)?;
        self.lines = Some(Pages::blank(alloc, lines, wear)?);
        self.energies = energies;
        Ok(())
    }

    fn lines(&self) -> u32 {
        match &self.lines {
            Some(lines) => lines.len(),
            None => 0,
        }
    }

    fn sense(&mut self, line: u32, tick: u64) -> Cells<B, M>
        requires exists { line < length self.old.lines }
        requires shape { IsShape B M }
        ensures cells { result ≡ (seeded_line self.old line).line.held }
        ensures step { Senses (sense_of line tick ((seeded_state self.old).line line))
            (seeded_state self.old) (seeded_state self.new) }
        ensures counted { self.new ≡ record self.old {
          energies = option_map (λ energies. slice_set energies line
              (with_sense (Some (energy_at energies line)))) self.old.energies;
        } }
    {
        self.energies.sense(line);
        let Some(lines) = &self.lines else {
            unreachable!()
        };
        lines.held(line)
    }

    fn pulse(&mut self, line: u32, mask: &Cells<B, M>, want: &Cells<B, M>, tick: u64)
        requires exists { line < length self.old.lines }
        requires lawful { IsPulse mask.now want.now (seeded_line self.old line).line.held }
        requires shape { IsShape B M }
        ensures step { DeviceStep (seeded_state self.old).bounds mask.now want.now
            ((seeded_state self.old).line line) ((seeded_state self.new).line line) }
        ensures others { ChangesOnly line (seeded_state self.old) (seeded_state self.new) }
        ensures tears { self.new.tears ≡ self.old.tears }
        ensures energy { EnergyChanges line
            (with_pulse mask.now want.now ((seeded_state self.old).energy line))
            (seeded_state self.old) (seeded_state self.new) }
        ensures wears { Wears line false mask.now want.now self.old self.new }
    {
        self.wear(line, false, mask, want);
    }

    fn tear(&mut self, line: u32, mask: &Cells<B, M>, want: &Cells<B, M>, tick: u64)
        requires exists { line < length self.old.lines }
        requires lawful { IsPulse mask.now want.now (seeded_line self.old line).line.held }
        requires shape { IsShape B M }
        ensures step { TornStep (seeded_state self.old).bounds mask.now
            ((seeded_state self.old).line line)
            ((seeded_state self.new).line line) }
        ensures others { ChangesOnly line (seeded_state self.old) (seeded_state self.new) }
        ensures tears { self.new.tears ≡ counted self.old.tears }
        ensures energy { EnergyChanges line
            (with_pulse mask.now want.now ((seeded_state self.old).energy line))
            (seeded_state self.old) (seeded_state self.new) }
        ensures wears { Wears line true mask.now want.now self.old self.new }
    {
        self.wear(line, true, mask, want);
        self.tears = self.tears.saturating_add(1);
    }

    fn pulses(&self, line: u32) -> u64 {
        let Some(lines) = &self.lines else {
            unreachable!()
        };
        lines.pulses(line)
    }
}

impl<const B: usize, const M: usize> TellsCells<B, M> for MemArray<B, M> {
    ghost use Rattle.pcm_cells.specs.Seeded.{seeded_changes};

    ghost changes = { seeded_changes };

    fn held(&self, line: u32) -> Cells<B, M> {
        let Some(lines) = &self.lines else {
            unreachable!()
        };
        lines.held(line)
    }

    // The words of the line are drawn again, which say how many changes each cell had at first.
    fn cell_wear(&self, line: u32) -> Option<CellWear> {
        let Some(lines) = &self.lines else {
            unreachable!()
        };
        Some(lines.cell_wear(line))
    }

    fn energy(&self, line: u32) -> Option<LineEnergy> {
        self.energies.at(line)
    }
}
