// The counts of an array that may keep none.
ghost use Rattle.std.specs.Prelude.{◌≡◌, ◌<◌, length, slice_set, replicate, Some, None, [], IfOk, IfSome};
ghost use Rattle.std.specs.Option.{option_map};
ghost use Rattle.cell_rows.specs.Energy.{with_pulse, with_sense};
ghost use Rattle.cell_rows.specs.Shape.{IsShape};
ghost use Rattle.line_pages.specs.Counting.{energy_at};
ghost use Rattle.pcm_cells.specs.Energies.{energy_told};

use crate::energies::Energies;
use cell_rows::{Cells, LineEnergy};
use std::alloc::{AllocError, Global};
use std::marker::Model;

/// The counts of the lines of an array, or nothing where it counts nothing. Contracts see it as this.
#[derive(Drop)]
pub(crate) struct Tally {
    energies: Option<Energies>,
}

impl Model for Tally {
    ghost use Rattle.std.specs.Prelude.{List, Option};
    ghost use Rattle.cell_rows.specs.declared.array.LineEnergy.{LineEnergy};

    ghost Value = { Option (List (Option LineEnergy)) };

    ghost view = { λ t. t.energies };
}

impl Tally {
    /// That of an array without lines, which counts.
    pub(crate) fn counting() -> Tally
        ensures { result ≡ Some [] }
    {
        Tally {
            energies: Some(Energies::none()),
        }
    }

    /// That of an array that counts nothing.
    pub(crate) fn nothing() -> Tally
        ensures { result ≡ None }
    {
        Tally { energies: None }
    }

    /// Lets go of the counts of all lines.
    pub(crate) fn clear(&mut self)
        ensures { self.new ≡ option_map (λ energies. []) self.old }
    {
        if let Some(energies) = &mut self.energies {
            *energies = Energies::none();
        }
    }

    /// That of so many new lines, which counts where this one does.
    pub(crate) fn renewed(&self, alloc: Global, lines: u32) -> Result<Tally, AllocError>
        ensures { IfOk result (λ new. new ≡ option_map (λ energies. replicate lines None) self.now) }
    {
        match &self.energies {
            Some(_) => Ok(Tally {
                energies: Some(Energies::blank(alloc, lines)?),
            }),
            None => Ok(Tally::nothing()),
        }
    }

    /// The counts of a line.
    pub(crate) fn at(&self, line: u32) -> Option<LineEnergy>
        requires { IfSome self.now (λ energies. line < length energies) }
        ensures { result ≡ energy_told self.now line }
    {
        match &self.energies {
            Some(energies) => Some(energies.at(line)),
            None => None,
        }
    }

    /// A pulse or a tear of a line.
    pub(crate) fn drive<const B: usize, const M: usize>(
        &mut self,
        line: u32,
        mask: &Cells<B, M>,
        want: &Cells<B, M>,
    )
        requires exists { IfSome self.old (λ energies. line < length energies) }
        requires shape { IsShape B M }
        ensures { self.new ≡ option_map (λ energies. slice_set energies line
            (with_pulse mask.now want.now (Some (energy_at energies line)))) self.old }
    {
        if let Some(energies) = &mut self.energies {
            energies.drive(line, mask, want);
        }
    }

    /// A sense of a line.
    pub(crate) fn sense(&mut self, line: u32)
        requires { IfSome self.old (λ energies. line < length energies) }
        ensures { self.new ≡ option_map (λ energies. slice_set energies line
            (with_sense (Some (energy_at energies line)))) self.old }
    {
        if let Some(energies) = &mut self.energies {
            energies.sense(line);
        }
    }
}
