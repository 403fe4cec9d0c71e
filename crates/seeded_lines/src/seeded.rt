// Lines whose cells wear out as a seed says.
ghost use Rattle.std.specs.Prelude.{◌≡◌, ◌≢◌, ℕ, ◌+◌, ◌-◌, ◌*◌, ◌%◌, ◌<◌, ◌≤◌, true, false, slice_index};

use crate::blocks::{are_many, byte_at, chosen, life, reached, spend, with_life, without};
use crate::calm::{Moving, Settled, has_room, is_calm, wear_calm};
use crate::cell::{CellState, has_end};
use crate::counts::Counts;
use crate::digits::Digits;
use crate::young::Young;
use cell_rows::{CellWear, Cells, Wear};
use rand_core::{Rng, SeedableRng};
use rand_xoshiro::Xoshiro256PlusPlus;
use std::marker::Model;

/// One cell, and what its word makes of its life.
#[derive(Clone, Copy, Drop)]
pub struct SeededCell {
    pub state: CellState,
    /// The changes that are left; the last one sticks the cell.
    pub left: u32,
    /// The misses before each change, 0 to 7.
    pub limit: u8,
    /// The value that the cell sticks at.
    pub end: bool,
}

ghost use Rattle.seeded_lines.specs.Seeded.{endurance, miss_limit, seeded};
ghost use Rattle.cell_rows.specs.Device.{IsWear};

fn endurance(wear: Wear, word: u64) -> u32
    requires { IsWear wear }
    ensures { result ≡ endurance wear word }
{
    if wear.lo == wear.hi {
        return wear.lo;
    }
    let span = (wear.hi - wear.lo) as u64 + 1;
    wear.lo + (word % span) as u32
}

fn miss_limit(wear: Wear, word: u64) -> u8
    ensures is { result ≡ miss_limit wear word }
    ensures few { result ≤ 7 }
{
    ((word >> 32) % 8).min(wear.misses as u64) as u8
}

/// The cells of one line, and the life of each. Contracts see it as a `LifeLine`.
#[derive(Drop)]
pub struct SeededLine<const B: usize, const M: usize> {
    moving: Moving<B, M>,
    settled: Settled<B, M>,
    pulses: u64,
    // Of each block, whether each live cell's count in `left` is at least eight.
    calm: [bool; B],
}

impl<const B: usize, const M: usize> Model for SeededLine<B, M> {
    ghost use Rattle.seeded_lines.specs.Counts.{count};
    ghost use Rattle.seeded_lines.specs.Seeded.{LifeLine, left_of, IsCalm};
    ghost use Rattle.cell_rows.specs.Shape.{IsShape};

    ghost Value = { LifeLine B M };

    ghost view = { λ l. record {
      line = record {
        held = l.moving.held;
        stuck = l.settled.stuck;
        misses = l.moving.misses;
        pulses = l.pulses;
      };
      left = left_of l.moving.spent l.settled.left;
      limits = l.settled.limits;
      ends = l.settled.ends;
    } };

    ghost invariant = { λ l. IsShape B M × IsCalm l.calm l.settled.stuck (count l.settled.left) };
}

ghost use Rattle.cell_rows.specs.Rows.{cell, members};
ghost use Rattle.cell_rows.specs.Told.{most};
ghost use Rattle.cell_rows.specs.Shape.{IsShape, IsWhole};
ghost use Rattle.cell_rows.specs.Device.{counted};
ghost use Rattle.seeded_lines.specs.Follows.{Follows, FollowsIn};
ghost use Rattle.seeded_lines.specs.Seeded.{seeded_cell, left_of};
ghost use Rattle.seeded_lines.specs.Counts.{count};
ghost use Rattle.seeded_lines.specs.Drawn.{drawn_line, HaveSameLife};
ghost use Rattle.seeded_lines.specs.Planes.{bit_in, digit, blank_planes, zero_digits};
ghost use Rattle.seeded_lines.specs.Young.{grown_line};
ghost use Rattle.std.specs.Prelude.{◌/◌, ◌&&◌, nat_le, IsTrue, if◌then◌else◌};

impl<const B: usize, const M: usize> SeededLine<B, M> {
    // A line with these lives that was never pulsed. It may be told that each count is at least eight.
    fn new(
        left: Counts<B, M>,
        limits: Digits<B, M>,
        ends: Cells<B, M>,
        calm: bool,
    ) -> SeededLine<B, M>
        requires shape { IsShape B M }
        requires many { IsTrue calm → (n : ℕ) → n < 8 * (B + M) → 8 ≤ count left n }
        ensures is { result ≡ record {
          line = blank_planes B M;
          left = left_of (zero_digits B M) left.entry;
          limits = limits.entry;
          ends = ends.entry;
        } }
        ensures no_limits { (n : ℕ) → 8 * (B + M) ≤ n → digit limits.entry n ≡ 0 }
        ensures no_ends { (n : ℕ) → 8 * (B + M) ≤ n → cell ends.entry n ≡ false }
    {
        SeededLine {
            moving: Moving {
                held: Cells::zero(),
                misses: Digits::zero(),
                spent: Digits::zero(),
            },
            settled: Settled {
                stuck: Cells::zero(),
                left,
                limits,
                ends,
            },
            pulses: 0,
            calm: [calm; B],
        }
    }

    /// The line with this number before any pulse. Word n of the generator belongs to cell n.
    pub fn drawn(wear: Wear, number: u32) -> SeededLine<B, M>
        requires wear { IsWear wear }
        requires shape { IsShape B M }
        ensures { HaveSameLife (drawn_line B M wear number) result }
    {
        let mut words = Xoshiro256PlusPlus::seed_from_u64(wear.seed ^ number as u64);
        let mut left = Counts::zero();
        let mut limits = Digits::zero();
        let mut ends = Cells::zero();
        for group in 0..B + M {
            let mut counts = [0; 8];
            let mut planes = 0;
            for index in 0..8 {
                let word = words.next_u64();
                counts[index] = endurance(wear, word);
                planes = with_life(planes, index, life(miss_limit(wear, word), word));
            }
            left.set_group(group, &counts);
            limits.set_group(group, planes);
            ends.set_group(group, byte_at(planes, 3));
        }
        SeededLine::new(left, limits, ends, wear.lo >= 8)
    }

    /// What stands for a young line, whose words are drawn now.
    pub fn aged(wear: Wear, number: u32, young: &Young<B, M>) -> SeededLine<B, M>
        requires wear { IsWear wear }
        requires shape { IsShape B M }
        requires whole { IsWhole B M }
        ensures { HaveSameLife (grown_line wear number young.now) result }
    {
        let mut line = SeededLine::drawn(wear, number);
        young.take_from(&mut line.settled.left);
        line.moving.held = young.held;
        line.moving.misses = young.misses;
        line.pulses = young.pulses;
        let calm = [false; B];
        line.calm = calm;
        line.level();
        line
    }

    // Takes one from each count of a block that is in the mask, and answers those of them that were at most
    // one. The counts themselves are brought up to date only where a digit is full, or a count low.
    fn spend(&mut self, block: usize, changing: u64) -> u64
        requires exists { 8 * block < B + M }
        requires shape { IsShape B M }
        requires whole { IsWhole B M }
        requires live { (i : ℕ) → i < 64 → bit_in changing i ≡ true
            → cell self.old.line.stuck (64 * block + i) ≡ false }
        ensures last { (i : ℕ) → i < 64 → bit_in result i ≡ bit_in changing i
            && nat_le (slice_index self.old.left (64 * block + i)) 1 }
        ensures here { (i : ℕ) → i < 64 → slice_index self.new.left (64 * block + i)
            ≡ (if bit_in changing i then slice_index self.old.left (64 * block + i) - 1
            else slice_index self.old.left (64 * block + i)) }
        ensures others { (n : ℕ) → n / 64 ≢ block → slice_index self.new.left n
            ≡ slice_index self.old.left n }
        ensures line { self.new.line ≡ self.old.line }
        ensures limits { self.new.limits ≡ self.old.limits }
        ensures ends { self.new.ends ≡ self.old.ends }
    {
        if self.calm[block] && self.moving.spent.full(block) & changing == 0 {
            self.moving.spent.advance(block, changing, 0);
            return 0;
        }
        let stuck = self.settled.stuck.block(block);
        let (low, middle, high) = self.moving.spent.planes(block);
        self.settled.left.level(block, low, middle, high);
        self.moving.spent.clear(block);
        let calm = are_many(self.settled.left.block(block), stuck);
        self.calm[block] = calm;
        if calm {
            self.moving.spent.advance(block, changing, 0);
            return 0;
        }
        let mut counts = *self.settled.left.block(block);
        let last = spend(&mut counts, changing);
        self.settled.left.set_block(block, &counts);
        last
    }

    // The masked cells of one block in a pulse or in a tear.
    fn wear_block(&mut self, tearing: bool, block: usize, mask: &Cells<B, M>, want: &Cells<B, M>)
        requires exists { 8 * block < B + M }
        requires shape { IsShape B M }
        requires whole { IsWhole B M }
        ensures cells { FollowsIn (64 * block) (64 * block + 64) (cell mask.now)
            (seeded tearing (cell want.now)) (seeded_cell self.old) (seeded_cell self.new) }
        ensures pulses { self.new.line.pulses ≡ self.old.line.pulses }
    {
        let stuck = self.settled.stuck.block(block);
        let live = without(reached(tearing, mask.block(block)), stuck);
        let missing = live & self.moving.misses.below(&self.settled.limits, block);
        let changing = without(live, missing);
        let last = self.spend(block, changing);
        let value = chosen(want.block(block), last, self.settled.ends.block(block));
        let held = chosen(self.moving.held.block(block), changing, value);
        self.moving.held.set_block(block, held);
        self.settled.stuck.set_block(block, last | stuck);
        self.moving.misses.advance(block, missing, changing);
    }

    // Brings the counts of a block up to date.
    fn level_block(&mut self, block: usize)
        requires exists { 8 * block < B + M }
        requires shape { IsShape B M }
        requires whole { IsWhole B M }
        ensures { self.new ≡ self.old }
    {
        let stuck = self.settled.stuck.block(block);
        let (low, middle, high) = self.moving.spent.planes(block);
        self.settled.left.level(block, low, middle, high);
        self.moving.spent.clear(block);
        self.calm[block] = are_many(self.settled.left.block(block), stuck);
    }

    // Brings the counts up to date.
    fn level(&mut self)
        requires shape { IsShape B M }
        requires whole { IsWhole B M }
        ensures { self.new ≡ self.old }
    {
        for block in 0..(B + M) / 8 {
            let (low, middle, high) = self.moving.spent.planes(block);
            if low | middle | high != 0 || !self.calm[block] {
                self.level_block(block);
            }
        }
    }

    // The masked cells in a pulse or in a tear, block by block.
    fn wear_blocks(&mut self, tearing: bool, mask: &Cells<B, M>, want: &Cells<B, M>)
        requires shape { IsShape B M }
        requires whole { IsWhole B M }
        ensures cells { FollowsIn 0 (8 * (B + M)) (cell mask.now) (seeded tearing (cell want.now))
            (seeded_cell self.old) (seeded_cell self.new) }
        ensures pulses { self.new.line.pulses ≡ self.old.line.pulses }
    {
        for block in 0..(B + M) / 8 {
            if mask.block(block) != 0 {
                self.wear_block(tearing, block, mask, want);
            }
        }
    }

    // The masked cells in a pulse or in a tear. The counts are brought up to date first where a line is new, and
    // where no cell of it is near its end.
    #[inline(never)]
    fn wear_levelled(&mut self, tearing: bool, mask: &Cells<B, M>, want: &Cells<B, M>)
        requires shape { IsShape B M }
        requires whole { IsWhole B M }
        ensures cells { FollowsIn 0 (8 * (B + M)) (cell mask.now) (seeded tearing (cell want.now))
            (seeded_cell self.old) (seeded_cell self.new) }
        ensures pulses { self.new.line.pulses ≡ self.old.line.pulses }
    {
        if self.pulses == 0 || is_calm::<B, M>(&self.calm) {
            self.level();
        }
        self.wear_blocks(tearing, mask, want);
    }

    // The same, by all blocks at once where no cell is near its end.
    fn wear_cells(&mut self, tearing: bool, mask: &Cells<B, M>, want: &Cells<B, M>)
        requires shape { IsShape B M }
        requires whole { IsWhole B M }
        ensures cells { FollowsIn 0 (8 * (B + M)) (cell mask.now) (seeded tearing (cell want.now))
            (seeded_cell self.old) (seeded_cell self.new) }
        ensures pulses { self.new.line.pulses ≡ self.old.line.pulses }
    {
        if is_calm::<B, M>(&self.calm) && has_room(&self.moving.spent, mask) {
            // Copies, so that LLVM sees that no write to the line changes them.
            let (mask, want) = (*mask, *want);
            wear_calm(&mut self.moving, &self.settled, tearing, &mask, &want);
        } else {
            self.wear_levelled(tearing, mask, want);
        }
    }

    /// A pulse or a tear of the line.
    pub fn wear(&mut self, tearing: bool, mask: &Cells<B, M>, want: &Cells<B, M>)
        requires shape { IsShape B M }
        requires whole { IsWhole B M }
        ensures cells { Follows (cell mask.now) (seeded tearing (cell want.now))
            (seeded_cell self.old)
            (seeded_cell self.new) }
        ensures pulses { self.new.line.pulses ≡ counted self.old.line.pulses }
    {
        has_end(mask);
        self.wear_cells(tearing, mask, want);
        self.pulses = self.pulses.saturating_add(1);
    }

    // How often each cell misses before a change.
    pub(crate) fn limits(&self) -> Digits<B, M>
        ensures { result ≡ self.now.limits }
    {
        self.settled.limits
    }

    /// What the cells hold.
    pub fn held(&self) -> Cells<B, M>
        ensures { result ≡ self.now.line.held }
    {
        self.moving.held
    }

    /// How often the line was pulsed or torn.
    pub fn pulses(&self) -> u64
        ensures { result ≡ self.now.line.pulses }
    {
        self.pulses
    }

    // The changes that a cell has left.
    fn left_at(&self, number: u16) -> u32
        requires { number < 8 * (B + M) }
        ensures { result ≡ slice_index self.now.left number }
    {
        self.settled
            .left
            .get(number)
            .saturating_sub(self.moving.spent.get(number))
    }

    /// How its cells are worn, by the same line before its first pulse.
    pub fn cell_wear(&self, drawn: &SeededLine<B, M>) -> CellWear
        requires { IsShape B M }
        ensures stuck { result.stuck ≡ members (cell self.now.line.stuck) (8 * (B + M)) }
        ensures changes { result.changes
            ≡ most (λ n. slice_index drawn.now.left n - slice_index self.now.left n) (8 * (B + M)) }
    {
        let mut changes = 0;
        for number in 0..8 * (B + M) as u16 {
            let left = self.left_at(number);
            changes = changes.max(drawn.left_at(number).saturating_sub(left));
        }
        CellWear {
            stuck: self.settled.stuck.count(),
            changes,
        }
    }
}
