// Pulses of lines of which no live cell is near its end.
ghost use Rattle.std.specs.Prelude.{◌≡◌, ◌≢◌, ℕ, ◌+◌, ◌*◌, ◌/◌, ◌%◌, ◌<◌, ◌≤◌, ◌&&◌, true, false, not, nat_eq, IsTrue, slice_index_or};
ghost use Rattle.cell_rows.specs.Rows.{cell};
ghost use Rattle.seeded_lines.specs.Counts.{count};
ghost use Rattle.seeded_lines.specs.Planes.{bit_in, digit};
ghost use Rattle.cell_rows.specs.Shape.{IsShape, IsWhole};
ghost use Rattle.seeded_lines.specs.Follows.{FollowsIn};
ghost use Rattle.seeded_lines.specs.Seeded.{seeded, seeded_cell, life_of};

use crate::blocks::{chosen, without};
use crate::counts::Counts;
use crate::digits::Digits;
use cell_rows::Cells;

/// What a calm pulse may change of a line's cells, which is one in which none of them is near its end.
#[derive(Drop)]
pub(crate) struct Moving<const B: usize, const M: usize> {
    pub(crate) held: Cells<B, M>,
    pub(crate) misses: Digits<B, M>,
    // How often each cell changed since its count in `left` was last brought up to date.
    pub(crate) spent: Digits<B, M>,
}

/// What a calm pulse leaves of them as it is.
#[derive(Drop)]
pub(crate) struct Settled<const B: usize, const M: usize> {
    pub(crate) stuck: Cells<B, M>,
    pub(crate) left: Counts<B, M>,
    pub(crate) limits: Digits<B, M>,
    pub(crate) ends: Cells<B, M>,
}

// Whether each block is calm.
pub(crate) fn is_calm<const B: usize, const M: usize>(calm: &[bool; B]) -> bool
    requires whole { IsWhole B M }
    requires shape { IsShape B M }
    ensures { IsTrue result → (n : ℕ) → n < 8 * (B + M)
        → slice_index_or calm.now (n / 64) false ≡ true }
{
    let mut all = true;
    for block in 0..(B + M) / 8 {
        all &= calm[block];
    }
    all
}

// Of some blocks, whether no masked cell has the number 7.
#[inline(always)]
fn has_room_in<const B: usize, const M: usize>(
    spent: &Digits<B, M>,
    mask: &Cells<B, M>,
    from: usize,
    to: usize,
) -> bool
    requires whole { IsWhole B M }
    requires shape { IsShape B M }
    requires exists { 8 * to ≤ B + M }
    ensures { IsTrue result → (n : ℕ) → 64 * from ≤ n → n < 64 * to → cell mask.now n ≡ true
        → digit spent.now n < 7 }
{
    let mut full = 0;
    for block in from..to {
        full |= spent.full(block) & mask.block(block);
    }
    full == 0
}

// Whether no masked cell has the number 7.
pub(crate) fn has_room<const B: usize, const M: usize>(
    spent: &Digits<B, M>,
    mask: &Cells<B, M>,
) -> bool
    requires whole { IsWhole B M }
    requires shape { IsShape B M }
    ensures { IsTrue result → (n : ℕ) → n < 8 * (B + M) → cell mask.now n ≡ true
        → digit spent.now n < 7 }
{
    has_room_in(spent, mask, 0, B / 8) & has_room_in(spent, mask, B / 8, (B + M) / 8)
}

// The cells that a pulse reaches, or a tear, which reaches those of even number alone.
pub(crate) fn reach(tearing: bool) -> u64
    ensures { (i : ℕ) → i < 64 → bit_in result i ≡ not (tearing && nat_eq (i % 2) 1) }
{
    if tearing {
        0x5555_5555_5555_5555
    } else {
        0xffff_ffff_ffff_ffff
    }
}

// The masked cells of one block, of which none is near its end.
#[inline(always)]
fn wear_calm_block<const B: usize, const M: usize>(
    moving: &mut Moving<B, M>,
    settled: &Settled<B, M>,
    tearing: bool,
    reach: u64,
    block: usize,
    mask: &Cells<B, M>,
    want: &Cells<B, M>,
)
    requires exists { 8 * block < B + M }
    requires shape { IsShape B M }
    requires whole { IsWhole B M }
    requires reach { (i : ℕ) → i < 64 → bit_in reach i ≡ not (tearing && nat_eq (i % 2) 1) }
    requires many { (i : ℕ) → i < 64 → cell settled.now.stuck (64 * block + i) ≡ false
        → 8 ≤ count settled.now.left (64 * block + i) }
    requires few { (i : ℕ) → i < 64 → cell mask.now (64 * block + i) ≡ true
        → digit moving.old.spent (64 * block + i) < 7 }
    ensures cells { FollowsIn (64 * block) (64 * block + 64) (cell mask.now)
        (seeded tearing (cell want.now)) (seeded_cell (life_of moving.old settled.now))
        (seeded_cell (life_of moving.new settled.now)) }
    ensures others { (n : ℕ) → n / 64 ≢ block
        → digit moving.new.spent n ≡ digit moving.old.spent n }
{
    let live = without(mask.block(block) & reach, settled.stuck.block(block));
    let missing = live & moving.misses.below(&settled.limits, block);
    let changing = without(live, missing);
    moving.spent.advance(block, changing, 0);
    let now = chosen(moving.held.block(block), changing, want.block(block));
    moving.held.set_block(block, now);
    moving.misses.advance(block, missing, changing);
}

// The masked cells of some blocks.
#[inline(always)]
fn wear_calm_in<const B: usize, const M: usize>(
    moving: &mut Moving<B, M>,
    settled: &Settled<B, M>,
    tearing: bool,
    from: usize,
    to: usize,
    mask: &Cells<B, M>,
    want: &Cells<B, M>,
)
    requires order { from ≤ to }
    requires exists { 8 * to ≤ B + M }
    requires shape { IsShape B M }
    requires whole { IsWhole B M }
    requires many { (n : ℕ) → n < 8 * (B + M) → cell settled.now.stuck n ≡ false
        → 8 ≤ count settled.now.left n }
    requires few { (n : ℕ) → 64 * from ≤ n → n < 8 * (B + M) → cell mask.now n ≡ true
        → digit moving.old.spent n < 7 }
    ensures cells { FollowsIn (64 * from) (64 * to) (cell mask.now) (seeded tearing (cell want.now))
        (seeded_cell (life_of moving.old settled.now))
        (seeded_cell (life_of moving.new settled.now)) }
    ensures others { (n : ℕ) → 64 * to ≤ n → digit moving.new.spent n ≡ digit moving.old.spent n }
{
    let reach = reach(tearing);
    for block in from..to {
        wear_calm_block(moving, settled, tearing, reach, block, mask, want);
    }
}

// A pulse or a tear of a line of which no live masked cell is near its end. The data blocks and the check blocks
// have a loop each, so that neither asks which a block is.
#[inline(always)]
pub(crate) fn wear_calm<const B: usize, const M: usize>(
    moving: &mut Moving<B, M>,
    settled: &Settled<B, M>,
    tearing: bool,
    mask: &Cells<B, M>,
    want: &Cells<B, M>,
)
    requires shape { IsShape B M }
    requires whole { IsWhole B M }
    requires many { (n : ℕ) → n < 8 * (B + M) → cell settled.now.stuck n ≡ false
        → 8 ≤ count settled.now.left n }
    requires few { (n : ℕ) → n < 8 * (B + M) → cell mask.now n ≡ true
        → digit moving.old.spent n < 7 }
    ensures { FollowsIn 0 (8 * (B + M)) (cell mask.now) (seeded tearing (cell want.now))
        (seeded_cell (life_of moving.old settled.now))
        (seeded_cell (life_of moving.new settled.now)) }
{
    wear_calm_in(moving, settled, tearing, 0, B / 8, mask, want);
    wear_calm_in(moving, settled, tearing, B / 8, (B + M) / 8, mask, want);
}
