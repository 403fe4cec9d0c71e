// Sectors that are written whole or not at all.
ghost use Rattle.std.specs.Prelude.{◌≡◌, ℕ, ◌+◌, ◌*◌, ◌^◌, ◌<◌, ◌≤◌, List, length, IfOk, OnOk, OnErr, slice_index_or, [], ◌∷◌};
ghost use Rattle.pcm_io.specs.Faults.{Rose};
ghost use Rattle.atomic_sectors.specs.Lines.{stand};
ghost use Rattle.atomic_sectors.specs.Moments.{AtEachMoment, IsMadeOrNot};
ghost use Rattle.atomic_sectors.specs.Sectors.{Fits, IsMapped, IsWhole, Have, IsBeforeOrAfter, KeepsOthers, StandFrom, block_of, sector_line, with_sector, word_at, word_line, word_write};

use crate::layout::Layout;
use crate::lines::{Lines, Stopped};
use crate::numbers::{number_at, number_bytes, number_given};

/// What is known of sectors between two calls, and lost at a cut: which block is free.
#[derive(Clone, Copy, Debug)]
pub struct Sectors {
    pub layout: Layout,
    pub free: u32,
}

// The block that the word of a sector means, in the bytes of the word's line.
fn block_in<const B: usize>(layout: &Layout, bytes: &[u8; B], sector: u32, count: u32) -> u32
    requires fits { Fits B layout.now count }
    requires exists { sector < layout.now.sectors }
    ensures { (lines : ℕ → List ℕ) → lines (word_line B layout.now sector) ≡ bytes.now
        → result ≡ block_of B layout.now lines sector }
{
    let word = number_at(bytes, layout.word_at::<B>(sector, count));
    if word == 0 { sector } else { word - 1 }
}

// The block in which a sector stands.
fn find_block<const B: usize, L: Lines<B>>(
    layout: &Layout,
    lines: &mut L,
    sector: u32,
) -> Result<u32, Stopped>
    requires fits { Fits B layout.now (L.count (L.kind lines.old)) }
    requires exists { sector < layout.now.sectors }
    ensures block { IfOk result (λ block. block
        ≡ block_of B layout.now (stand B (L.made lines.old)) sector) }
    ensures made { L.made lines.new ≡ L.made lines.old }
    ensures cause { OnErr result (Rose (L.stops lines.old) (L.stops lines.new)) }
    ensures never_falls { L.stops lines.old ≤ L.stops lines.new }
    ensures kind { L.kind lines.new ≡ L.kind lines.old }
{
    let count = lines.count();
    let bytes = lines.get(layout.word_line::<B>(sector, count))?;
    Ok(block_in(layout, &bytes, sector, count))
}

// Goes on to the word of a sector: its line is read where the word is the first there, and is
// held from the word before on.
fn next_word<const B: usize, L: Lines<B>>(
    layout: &Layout,
    lines: &mut L,
    sector: u32,
    held: &mut [u8; B],
) -> Result<(), Stopped>
    requires fits { Fits B layout.now (L.count (L.kind lines.old)) }
    requires exists { sector < layout.now.sectors }
    requires held { 0 < word_at B layout.now sector
        → stand B (L.made lines.old) (word_line B layout.now sector) ≡ held.old }
    ensures held { OnOk result
        (stand B (L.made lines.old) (word_line B layout.now sector) ≡ held.new) }
    ensures made { L.made lines.new ≡ L.made lines.old }
    ensures cause { OnErr result (Rose (L.stops lines.old) (L.stops lines.new)) }
    ensures never_falls { L.stops lines.old ≤ L.stops lines.new }
    ensures kind { L.kind lines.new ≡ L.kind lines.old }
{
    let count = lines.count();
    if layout.word_at::<B>(sector, count) == 0 {
        *held = lines.get(layout.word_line::<B>(sector, count))?;
    }
    Ok(())
}

// The bytes of a line, of which there are `B`.
fn of_line<const B: usize>(bytes: &[u8; B]) -> &[u8; B]
    ensures same { result.now ≡ bytes.now }
    ensures whole { length result.now ≡ B }
{
    bytes
}

// Writes lines one behind the other, from the first on.
fn fill<const B: usize, L: Lines<B>>(
    lines: &mut L,
    first: u32,
    from: &[[u8; B]],
) -> Result<(), Stopped>
    requires within { first + length from.now ≤ L.count (L.kind lines.old) }
    requires few { L.count (L.kind lines.old) ≤ 2 ^ 26 }
    ensures stand { OnOk result (StandFrom B first from.now (L.made lines.new)) }
    ensures moments { AtEachMoment (KeepsOthers B first (length from.now) (L.made lines.old))
        (L.made lines.old) (L.made lines.new) }
    ensures cause { OnErr result (Rose (L.stops lines.old) (L.stops lines.new)) }
    ensures never_falls { L.stops lines.old ≤ L.stops lines.new }
    ensures kind { L.kind lines.new ≡ L.kind lines.old }
{
    for i in 0..from.len() {
        lines.put_all(first + i as u32, of_line(&from[i]))?;
    }
    Ok(())
}

// Reads lines one behind the other, from the first on.
fn read_lines<const B: usize, L: Lines<B>>(
    lines: &mut L,
    first: u32,
    to: &mut [[u8; B]],
) -> Result<(), Stopped>
    requires within { first + length to.old ≤ L.count (L.kind lines.old) }
    requires few { L.count (L.kind lines.old) ≤ 2 ^ 26 }
    ensures stand { OnOk result (StandFrom B first to.new (L.made lines.old)) }
    ensures made { L.made lines.new ≡ L.made lines.old }
    ensures cause { OnErr result (Rose (L.stops lines.old) (L.stops lines.new)) }
    ensures never_falls { L.stops lines.old ≤ L.stops lines.new }
    ensures kind { L.kind lines.new ≡ L.kind lines.old }
{
    for i in 0..to.len() {
        to[i] = lines.get(first + i as u32)?;
    }
    Ok(())
}

// Writes the word of a sector.
fn put_word<const B: usize, L: Lines<B>>(
    layout: &Layout,
    lines: &mut L,
    sector: u32,
    word: u32,
) -> Result<(), Stopped>
    requires fits { Fits B layout.now (L.count (L.kind lines.old)) }
    requires exists { sector < layout.now.sectors }
    ensures made { OnOk result (L.made lines.new
        ≡ word_write B layout.now sector word ∷ L.made lines.old) }
    ensures stopped { OnErr result (IsMadeOrNot (word_write B layout.now sector word)
        (L.made lines.old) (L.made lines.new)) }
    ensures cause { OnErr result (Rose (L.stops lines.old) (L.stops lines.new)) }
    ensures never_falls { L.stops lines.old ≤ L.stops lines.new }
    ensures kind { L.kind lines.new ≡ L.kind lines.old }
{
    let count = lines.count();
    let at = layout.word_at::<B>(sector, count);
    let bytes = number_bytes::<B>(at, word);
    let given = number_given::<B>(at);
    lines.put(layout.word_line::<B>(sector, count), &bytes, &given)
}

impl Sectors {
    /// Finds the free block: its number is what is missing in the sum of those of all blocks.
    pub fn open<const B: usize, L: Lines<B>>(
        layout: Layout,
        lines: &mut L,
    ) -> Result<Sectors, Stopped>
        requires fits { Fits B layout (L.count (L.kind lines.old)) }
        requires whole { IsWhole B layout (stand B (L.made lines.old)) }
        ensures free { IfOk result (λ s. IsMapped B layout (stand B (L.made lines.old)) s.free) }
        ensures layout { IfOk result (λ s. s.layout ≡ layout) }
        ensures made { L.made lines.new ≡ L.made lines.old }
        ensures cause { OnErr result (Rose (L.stops lines.old) (L.stops lines.new)) }
        ensures never_falls { L.stops lines.old ≤ L.stops lines.new }
        ensures kind { L.kind lines.new ≡ L.kind lines.old }
    {
        let mut all = 0u64;
        let mut used = 0u64;
        let count = lines.count();
        let mut held = [0; B];
        for sector in 0..layout.sectors {
            next_word(&layout, lines, sector, &mut held)?;
            all += u64::from(sector);
            used += u64::from(block_in(&layout, &held, sector, count));
        }
        Ok(Sectors {
            layout,
            free: (all + u64::from(layout.sectors) - used) as u32,
        })
    }

    /// Reads a sector's lines.
    pub fn read<const B: usize, L: Lines<B>>(
        &self,
        lines: &mut L,
        sector: u32,
        to: &mut [[u8; B]],
    ) -> Result<(), Stopped>
        requires fits { Fits B self.now.layout (L.count (L.kind lines.old)) }
        requires mapped { IsMapped B self.now.layout (stand B (L.made lines.old)) self.now.free }
        requires exists { sector < self.now.layout.sectors }
        requires whole { length to.old ≡ self.now.layout.block }
        ensures read { OnOk result ((i : ℕ) → i < self.now.layout.block
            → slice_index_or to.new i []
            ≡ sector_line B self.now.layout (stand B (L.made lines.old)) sector i) }
        ensures made { L.made lines.new ≡ L.made lines.old }
        ensures cause { OnErr result (Rose (L.stops lines.old) (L.stops lines.new)) }
        ensures never_falls { L.stops lines.old ≤ L.stops lines.new }
        ensures kind { L.kind lines.new ≡ L.kind lines.old }
    {
        let block = find_block(&self.layout, lines, sector)?;
        read_lines(lines, block * self.layout.block, to)
    }

    /// Writes a sector's lines: all of them, or none, whatever stops it. It may be used again where
    /// it answers `Ok`; else the sectors are to be opened again.
    pub fn write<const B: usize, L: Lines<B>>(
        &mut self,
        lines: &mut L,
        sector: u32,
        from: &[[u8; B]],
    ) -> Result<(), Stopped>
        requires fits { Fits B self.old.layout (L.count (L.kind lines.old)) }
        requires mapped { IsMapped B self.old.layout (stand B (L.made lines.old)) self.old.free }
        requires exists { sector < self.old.layout.sectors }
        requires whole { length from.now ≡ self.old.layout.block }
        ensures written { OnOk result (Have B self.old.layout (stand B (L.made lines.new))
            (with_sector sector from.now
            (sector_line B self.old.layout (stand B (L.made lines.old))))) }
        ensures mapped { OnOk result
            (IsMapped B self.old.layout (stand B (L.made lines.new)) self.new.free) }

        // at each moment the sectors are as before, or as behind it
        ensures moments { AtEachMoment
            (IsBeforeOrAfter B self.old.layout sector from.now (L.made lines.old))
            (L.made lines.old) (L.made lines.new) }
        ensures layout { self.new.layout ≡ self.old.layout }
        ensures cause { OnErr result (Rose (L.stops lines.old) (L.stops lines.new)) }
        ensures never_falls { L.stops lines.old ≤ L.stops lines.new }
        ensures kind { L.kind lines.new ≡ L.kind lines.old }
    {
        let block = find_block(&self.layout, lines, sector)?;
        fill(lines, self.free * self.layout.block, from)?;
        put_word(&self.layout, lines, sector, self.free + 1)?;
        self.free = block;
        Ok(())
    }
}
