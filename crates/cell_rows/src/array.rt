// What a controller may know of an array of cells.
ghost use Rattle.std.specs.Prelude.{◌≡◌, ◌<◌, OnOk, OnErr};

use crate::Cells;
use std::alloc::{AllocError, Global};

/// How the cells of an array wear out. An array may ignore it.
#[derive(Clone, Copy, Drop)]
pub struct Wear {
    /// Picks the cells' endurances, misses and stuck values.
    pub seed: u64,
    /// The least number of changes after which a cell sticks, from 1.
    pub lo: u32,
    /// The greatest number of changes after which a cell sticks, from `lo` to 4,000,000,000.
    pub hi: u32,
    /// The greatest number of misses before a change, from 0 to 7.
    pub misses: u8,
}

/// One sense of a line, as a log keeps it.
#[derive(Clone, Copy, Drop)]
pub struct Sense<const B: usize, const M: usize> {
    pub line: u32,
    /// When the line was sensed, in ticks.
    pub tick: u64,
    /// What the sense answered.
    pub cells: Cells<B, M>,
    /// How often the line had been pulsed or torn.
    pub pulses: u64,
}

/// What the energy of a line is reckoned from, since its array was powered up. Each count stays at the greatest u64.
#[derive(Clone, Copy, Drop, PartialEq, Eq)]
pub struct LineEnergy {
    /// How often a pulse or a tear drove one of its cells to 1.
    pub set: u64,
    /// How often a pulse or a tear drove one of its cells to 0.
    pub reset: u64,
    /// How often the line was sensed.
    pub senses: u64,
}

/// Lines of cells that are sensed, pulsed, and torn by a power cut in a pulse.
/// `state` is all that a contract knows of an array; a sense is counted, may be logged, and changes nothing else.
pub trait CellArray<const B: usize, const M: usize> {
    ghost use Rattle.cell_rows.specs.Device.{ArrayState, DeviceStep, TornStep, ChangesOnly, EnergyChanges, Senses, IsFresh, IsWear, counted, sense_of};
    ghost use Rattle.cell_rows.specs.Energy.{with_pulse};
    ghost use Rattle.cell_rows.specs.Shape.{IsShape};
    ghost use Rattle.cell_rows.specs.Pulse.{IsPulse};

    ghost state: { Self → ArrayState B M };

    /// Makes `lines` new lines in place of those that were there, which wear out so. `state` tells
    /// the wear until the next power-up.
    fn power_up(&mut self, alloc: Global, lines: u32, wear: Wear) -> Result<(), AllocError>
        requires wear { IsWear wear }
        requires shape { IsShape B M }
        ensures ok { OnOk result (IsFresh lines wear (state self.new)) }
        ensures err { OnErr result ((state self.new).lines ≡ 0) };

    /// The number of lines.
    fn lines(&self) -> u32
        ensures { result ≡ (state self.now).lines };

    /// What the cells of the line hold at this tick.
    fn sense(&mut self, line: u32, tick: u64) -> Cells<B, M>
        requires exists { line < (state self.old).lines }
        requires shape { IsShape B M }
        ensures cells { result ≡ ((state self.old).line line).held }
        ensures step { Senses (sense_of line tick ((state self.old).line line)) (state self.old)
            (state self.new) };

    /// Tries to give each masked cell of the line its wanted value.
    fn pulse(&mut self, line: u32, mask: &Cells<B, M>, want: &Cells<B, M>, tick: u64)
        requires exists { line < (state self.old).lines }
        requires lawful { IsPulse mask.now want.now ((state self.old).line line).held }
        requires shape { IsShape B M }
        ensures step { DeviceStep (state self.old).bounds mask.now want.now
            ((state self.old).line line)
            ((state self.new).line line) }
        ensures others { ChangesOnly line (state self.old) (state self.new) }
        ensures tears { (state self.new).tears ≡ (state self.old).tears }
        ensures energy { EnergyChanges line
            (with_pulse mask.now want.now ((state self.old).energy line))
            (state self.old) (state self.new) };

    /// A pulse that a power cut breaks off: no masked live cell is sure of its value.
    fn tear(&mut self, line: u32, mask: &Cells<B, M>, want: &Cells<B, M>, tick: u64)
        requires exists { line < (state self.old).lines }
        requires lawful { IsPulse mask.now want.now ((state self.old).line line).held }
        requires shape { IsShape B M }
        ensures step { TornStep (state self.old).bounds mask.now ((state self.old).line line)
            ((state self.new).line line) }
        ensures others { ChangesOnly line (state self.old) (state self.new) }
        ensures tears { (state self.new).tears ≡ counted (state self.old).tears }
        ensures energy { EnergyChanges line
            (with_pulse mask.now want.now ((state self.old).energy line))
            (state self.old) (state self.new) };

    /// How often the line was pulsed or torn since `power_up`, up to the greatest u64.
    fn pulses(&self, line: u32) -> u64
        requires { line < (state self.now).lines }
        ensures { result ≡ ((state self.now).line line).pulses };
}
