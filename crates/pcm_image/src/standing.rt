// The bytes of each line of a module, by its image alone.
ghost use Rattle.std.specs.Prelude.{◌≡◌, ℕ, ◌+◌, ◌*◌, ◌/◌, ◌%◌, ◌^◌, ◌<◌, ◌≤◌, length, map, slice_index_or};
ghost use Rattle.masked_bytes.specs.Masked.{laid};
ghost use Rattle.masked_bytes.specs.Entries.{layer_of, AllMasked};
ghost use Rattle.spare_pool.specs.Table.{line_by, line_from};
ghost use Rattle.module_shape.specs.Limits.{large_limits, most_array_lines, small_limits};
ghost use Rattle.cell_rows.specs.Rows.{zero_row};
ghost use Rattle.ecp_line.specs.Layout.{IsLayout};
ghost use Rattle.pcm_image.specs.Saved.{IsHeadIn, IsSaved, IsSavedBank, total_in, lines_in, slots_in, array_lines_in};
ghost use Rattle.pcm_image.specs.Giving.{head_view};
ghost use Rattle.pcm_image.specs.Standing.{stands_for, mixed_in, entry_of, rotation_of, slot_of, table_of, no_bank, no_region};

use crate::fields::HeadImage;
use crate::{BankImage, EntryImage, Image};
use cell_rows::Cells;
use ecp_line::Ecp;
use feistel_map::Feistel;
use masked_bytes::layers::lay_over;
use start_gap::Registers;

// The line of a slot, behind these spares: the last that was given to it, or its own.
fn line_of(slots: u32, replaced: &[u32], slot: u32) -> u32
    requires { slots + length replaced.now < 2 ^ 32 }
    ensures is { result ≡ line_from slots slot replaced.now slot }
    ensures within { slot < slots → result < slots + length replaced.now }
{
    let mut line = slot;
    for i in 0..replaced.len() {
        if replaced[i] == slot {
            line = slots + i as u32;
        }
    }
    line
}

// Lays what the entries of a line give over its bytes, the last one on top.
fn lay_entries<const B: usize>(entries: &[EntryImage<B>], line: u32, bytes: &mut [u8; B])
    requires { AllMasked (map entry_of entries.now) }
    ensures { bytes.new ≡ laid (layer_of (map entry_of entries.now) line).bytes
        (layer_of (map entry_of entries.now) line).given bytes.old }
{
    for entry in entries {
        if entry.line == line {
            lay_over(&entry.bytes, &entry.given, bytes);
        }
    }
}

/// How many slots a bank has.
pub(crate) fn bank_slots(head: HeadImage) -> u32
    requires { IsHeadIn large_limits (head_view head) }
    ensures { result ≡ slots_in (head_view head) }
{
    head.regions as u32 * (head.lines + 1)
}

// How many array lines a bank has.
fn bank_lines(head: HeadImage) -> u32
    requires { IsHeadIn large_limits (head_view head) }
    ensures { result ≡ array_lines_in (head_view head) }
{
    let controls = if head.home == 0 {
        0
    } else {
        head.regions as u32 + head.spares as u32 + 1
    };
    bank_slots(head) + head.spares as u32 + controls
}

/// How many array lines a module has.
pub fn array_lines(head: HeadImage) -> u32
    requires { IsHeadIn large_limits (head_view head) }
    ensures is { result ≡ head.banks * array_lines_in (head_view head) }
    ensures few { result ≤ most_array_lines }
{
    head.banks as u32 * bank_lines(head)
}

/// How many lines a module has.
pub fn lines_of(head: HeadImage) -> u32
    requires { IsHeadIn large_limits (head_view head) }
    ensures is { result ≡ total_in (head_view head) }
    ensures some { 4 ≤ result }
    ensures few { result ≤ large_limits.total }
{
    head.banks as u32 * head.regions as u32 * head.lines
}

// The number that the randomiser gives a line.
fn mixed(head: HeadImage, line: u32) -> u32
    requires head { IsHeadIn large_limits (head_view head) }
    requires exists { line < total_in (head_view head) }
    ensures is { result ≡ mixed_in (head_view head) line }
    ensures within { result < total_in (head_view head) }
{
    Feistel::new(lines_of(head).ilog2(), head.seed).forward(line)
}

/// The bank of a line, and the number of the line there.
pub fn locate(head: HeadImage, line: u32) -> (u32, u32)
    requires head { IsHeadIn large_limits (head_view head) }
    requires exists { line < total_in (head_view head) }
    ensures is { result ≡ (
      mixed_in (head_view head) line / lines_in (head_view head),
      mixed_in (head_view head) line % lines_in (head_view head),
    ) }
    ensures bank { result.0 < head.banks }
    ensures own { result.1 < lines_in (head_view head) }
{
    let number = mixed(head, line);
    let lines = head.regions as u32 * head.lines;
    (number / lines, number % lines)
}

/// The array line of a bank's line.
pub fn row_number(head: HeadImage, bank: u32, line: u32) -> u32
    requires head { IsHeadIn large_limits (head_view head) }
    requires exists { bank < head.banks }
    requires within { line < array_lines_in (head_view head) }
    ensures is { result ≡ bank * array_lines_in (head_view head) + line }
    ensures within { result < head.banks * array_lines_in (head_view head) }
{
    bank * bank_lines(head) + line
}

impl<const B: usize> BankImage<B> {
    // The registers of a region.
    fn registers_of(&self, head: HeadImage, region: u32) -> Registers
        requires head { IsHeadIn large_limits (head_view head) }
        requires saved { IsSavedBank (head_view head) self.now }
        requires exists { region < head.regions }
        ensures { result ≡ rotation_of (head_view head)
            (slice_index_or self.now.regions region no_region) }
    {
        let saved = &self.registers[region as usize];
        Registers::at(head.lines, saved.start, saved.gap)
    }

    /// Lays what the queue gives over the bytes of a line.
    pub fn lay(&self, head: HeadImage, own: u32, bytes: &mut [u8; B])
        requires few { B ≤ 128 }
        requires saved { IsSavedBank (head_view head) self.now }
        ensures { bytes.new ≡ laid (layer_of (map entry_of self.now.entries) own).bytes
            (layer_of (map entry_of self.now.entries) own).given bytes.old }
    {
        lay_entries(&self.entries, own, bytes);
    }

    // The slot of a line.
    fn slot(&self, head: HeadImage, own: u32) -> u32
        requires head { IsHeadIn large_limits (head_view head) }
        requires saved { IsSavedBank (head_view head) self.now }
        requires within { own < lines_in (head_view head) }
        ensures is { result ≡ slot_of (head_view head) self.now own }
        ensures within { result < slots_in (head_view head) }
    {
        let lines = head.lines;
        let region = own / lines;
        region * (lines + 1) + self.registers_of(head, region).place(own % lines)
    }

    /// The array line of a line, behind the bank's first.
    pub fn array_line(&self, head: HeadImage, own: u32) -> u32
        requires head { IsHeadIn large_limits (head_view head) }
        requires saved { IsSavedBank (head_view head) self.now }
        requires within { own < lines_in (head_view head) }
        ensures is { result ≡ line_by (table_of (head_view head) self.now)
            (slot_of (head_view head) self.now own) }
        ensures within { result < slots_in (head_view head) + head.spares }
    {
        line_of(bank_slots(head), &self.replaced, self.slot(head, own))
    }
}

impl<const B: usize, const M: usize> Image<B, M> {
    // The numbers at its beginning.
    fn numbers(&self) -> HeadImage
        requires { IsSaved self.now }
        ensures is { head_view result ≡ self.now.head }
        ensures within { IsHeadIn large_limits (head_view result) }
    {
        self.head
    }

    /// How many lines the module has.
    pub fn total(&self) -> u32
        requires { IsSaved self.now }
        ensures is { result ≡ total_in self.now.head }
        ensures some { 4 ≤ result }
        ensures few { result ≤ small_limits.total }
    {
        lines_of(self.numbers())
    }

    // A bank of the module.
    fn part(&self, bank: u32) -> &BankImage<B>
        requires saved { IsSaved self.now }
        requires exists { bank < self.now.head.banks }
        ensures is { result.now ≡ slice_index_or self.now.parts bank (no_bank B) }
        ensures saved { IsSavedBank self.now.head result.now }
    {
        &self.parts[bank as usize]
    }

    // The cells of an array line.
    fn row(&self, line: u32) -> &Cells<B, M>
        requires saved { IsSaved self.now }
        requires exists { line < self.now.head.banks * array_lines_in self.now.head }
        ensures { result.now ≡ slice_index_or self.now.cells line (zero_row B M) }
    {
        &self.cells[line as usize]
    }

    /// The bytes of a line: those that its bank's queue gives, over what its array line is read as.
    #[tactic(auto, unfolding(crate::specs::Standing::stands_for))]
    pub fn stands<const E: usize>(&self, line: u32) -> [u8; B]
        requires layout { IsLayout B M E }
        requires saved { IsSaved self.now }
        requires exists { line < total_in self.now.head }
        ensures { result ≡ stands_for E self.now line }
    {
        let head = self.numbers();
        let (bank, own) = locate(head, line);
        let part = self.part(bank);
        let row = self.row(row_number(head, bank, part.array_line(head, own)));
        let mut bytes = Ecp::<B, M, E>::decode(row);
        part.lay(head, own, &mut bytes);
        bytes
    }
}
