// The bytes of each line of a large module, by its image alone.
ghost use Rattle.std.specs.Prelude.{◌≡◌, ◌*◌, ◌<◌, ◌≤◌, slice_index_or};
ghost use Rattle.module_shape.specs.Limits.{large_limits};
ghost use Rattle.cell_rows.specs.Rows.{zero_row};
ghost use Rattle.ecp_line.specs.Layout.{IsLayout};
ghost use Rattle.pcm_image.specs.Saved.{IsSavedIn, IsSavedBank, total_in, array_lines_in};
ghost use Rattle.pcm_image.specs.Giving.{head_view};
ghost use Rattle.pcm_image.specs.Standing.{stands_for, no_bank};

use crate::image::LargeImage;
use crate::rows::cells_of;
use cell_rows::Cells;
use ecp_line::Ecp;
use pcm_image::standing::{lines_of, locate, row_number};
use pcm_image::{BankImage, HeadImage};

impl<const B: usize, const M: usize> LargeImage<B, M> {
    // The numbers at its beginning.
    fn numbers(&self) -> HeadImage
        ensures { head_view result ≡ self.now.head }
    {
        self.head
    }

    /// How many lines the module has: 4 to 67,108,864.
    pub fn total(&self) -> u32
        requires { IsSavedIn large_limits self.now }
        ensures is { result ≡ total_in self.now.head }
        ensures some { 4 ≤ result }
        ensures few { result ≤ large_limits.total }
    {
        lines_of(self.numbers())
    }

    // A bank of the module.
    fn part(&self, bank: u32) -> &BankImage<B>
        requires saved { IsSavedIn large_limits self.now }
        requires exists { bank < self.now.head.banks }
        ensures is { result.now ≡ slice_index_or self.now.parts bank (no_bank B) }
        ensures saved { IsSavedBank self.now.head result.now }
    {
        &self.parts[bank as usize]
    }

    // The cells of an array line.
    fn row(&self, line: u32) -> Cells<B, M>
        requires few { B ≤ 128 }
        requires checks { M ≤ 16 }
        requires saved { IsSavedIn large_limits self.now }
        requires exists { line < self.now.head.banks * array_lines_in self.now.head }
        ensures { result ≡ slice_index_or self.now.cells line (zero_row B M) }
    {
        cells_of(&self.rows, line)
    }

    /// The bytes of a line: those that its bank's queue gives, over what its array line is read as.
    #[tactic(auto, unfolding(pcm_image::specs::Standing::stands_for))]
    pub fn stands<const E: usize>(&self, line: u32) -> [u8; B]
        requires layout { IsLayout B M E }
        requires saved { IsSavedIn large_limits self.now }
        requires exists { line < total_in self.now.head }
        ensures { result ≡ stands_for E self.now line }
    {
        let head = self.numbers();
        let (bank, own) = locate(head, line);
        let part = self.part(bank);
        let row = self.row(row_number(head, bank, part.array_line(head, own)));
        let mut bytes = Ecp::<B, M, E>::decode(&row);
        part.lay(head, own, &mut bytes);
        bytes
    }
}
