// Pages of young lines, each of which keeps no more than its line needs.
ghost use Rattle.std.specs.Prelude.{◌≡◌, ℕ, ◌+◌, ◌*◌, ◌/◌, ◌%◌, ◌<◌, ◌≤◌, ◌&&◌, false, not, nat_eq, IsFalse};
ghost use Rattle.cell_rows.specs.Rows.{cell};
ghost use Rattle.cell_rows.specs.Shape.{IsShape, IsWhole};
ghost use Rattle.seeded_lines.specs.Follows.{Follows, FollowsIn};
ghost use Rattle.seeded_lines.specs.Planes.{bit_in};
ghost use Rattle.seeded_lines.specs.Young.{aging, changes_in, young_cell, MayAge};

use crate::calm::reach;
use crate::cell::has_end;
use cell_rows::Cells;

/// A page of a young line. `young` is the line that it stands for, of which a cell may have changed less than `room` times before a
/// pulse.
pub trait YoungPage<const B: usize, const M: usize> {
    ghost use Rattle.seeded_lines.specs.declared.young.Young.{Young};

    ghost young: { Self → Young B M };

    ghost room: { ℕ };

    /// The masked cells of one block. `many` may be false where none of its cells has changed 63 times, and then less is read and written.
    fn wear_block(
        &mut self,
        tearing: bool,
        reach: u64,
        many: bool,
        block: usize,
        mask: &Cells<B, M>,
        want: &Cells<B, M>,
    )
        requires exists { 8 * block < B + M }
        requires shape { IsShape B M }
        requires whole { IsWhole B M }
        requires reach { (i : ℕ) → i < 64 → bit_in reach i
            ≡ not (tearing && nat_eq (i % 2) 1) }
        requires few { (n : ℕ) → n / 64 ≡ block → changes_in (young self.old) n < room }
        requires fewer { IsFalse many → (n : ℕ) → n / 64 ≡ block → changes_in (young self.old) n < 63 }
        ensures cells { FollowsIn (64 * block) (64 * block + 64) (cell mask.now)
            (aging tearing (cell want.now)) (young_cell (young self.old))
            (young_cell (young self.new)) }
        ensures pulses { (young self.new).pulses ≡ (young self.old).pulses };

    /// How often the line was pulsed or torn.
    fn pulses(&self) -> u64
        ensures { result ≡ (young self.now).pulses };

    /// Whether a cell may have changed 63 times.
    fn may_have_many(&self) -> bool
        ensures { IsFalse result → (young self.now).pulses < 63 };

    /// Counts a pulse.
    fn count_pulse(&mut self)
        requires { (young self.old).pulses < room }
        ensures cells { (n : ℕ) → young_cell (young self.new) n ≡ young_cell (young self.old) n }
        ensures pulses { (young self.new).pulses ≡ (young self.old).pulses + 1 };
}

// The masked cells of some blocks.
#[inline(always)]
fn wear_in<P: YoungPage<B, M>, const B: usize, const M: usize>(
    page: &mut P,
    tearing: bool,
    many: bool,
    from: usize,
    to: usize,
    mask: &Cells<B, M>,
    want: &Cells<B, M>,
)
    requires order { from ≤ to }
    requires exists { 8 * to ≤ B + M }
    requires shape { IsShape B M }
    requires whole { IsWhole B M }
    requires few { (n : ℕ) → 64 * from ≤ n → changes_in (P.young page.old) n < P.room }
    requires fewer { IsFalse many → (n : ℕ) → 64 * from ≤ n → changes_in (P.young page.old) n < 63 }
    ensures cells { FollowsIn (64 * from) (64 * to) (cell mask.now) (aging tearing (cell want.now))
        (young_cell (P.young page.old)) (young_cell (P.young page.new)) }
    ensures pulses { (P.young page.new).pulses ≡ (P.young page.old).pulses }
{
    let reach = reach(tearing);
    for block in from..to {
        page.wear_block(tearing, reach, many, block, mask, want);
    }
}

// The masked cells. The data blocks and the check blocks have a loop each, so that neither asks which a block is.
#[inline(always)]
fn wear_all<P: YoungPage<B, M>, const B: usize, const M: usize>(
    page: &mut P,
    tearing: bool,
    many: bool,
    mask: &Cells<B, M>,
    want: &Cells<B, M>,
)
    requires shape { IsShape B M }
    requires whole { IsWhole B M }
    requires few { (n : ℕ) → changes_in (P.young page.old) n < P.room }
    requires fewer { IsFalse many → (n : ℕ) → changes_in (P.young page.old) n < 63 }
    ensures cells { FollowsIn 0 (8 * (B + M)) (cell mask.now) (aging tearing (cell want.now))
        (young_cell (P.young page.old)) (young_cell (P.young page.new)) }
    ensures pulses { (P.young page.new).pulses ≡ (P.young page.old).pulses }
{
    wear_in(page, tearing, many, 0, B / 8, mask, want);
    wear_in(page, tearing, many, B / 8, (B + M) / 8, mask, want);
}

// The masked cells. Each call knows whether there may be cells of many changes, and so asks for no block whether there are.
#[inline(always)]
fn wear_cells<P: YoungPage<B, M>, const B: usize, const M: usize>(
    page: &mut P,
    tearing: bool,
    mask: &Cells<B, M>,
    want: &Cells<B, M>,
)
    requires shape { IsShape B M }
    requires whole { IsWhole B M }
    requires young { MayAge P.room (P.young page.old) }
    ensures cells { FollowsIn 0 (8 * (B + M)) (cell mask.now) (aging tearing (cell want.now))
        (young_cell (P.young page.old)) (young_cell (P.young page.new)) }
    ensures pulses { (P.young page.new).pulses ≡ (P.young page.old).pulses }
{
    if page.may_have_many() {
        wear_all(page, tearing, true, mask, want);
    } else {
        wear_all(page, tearing, false, mask, want);
    }
}

/// A pulse or a tear of a young line. Neither it nor its parts are methods of the trait, since such a method has no hint that it be inlined.
#[inline(never)]
pub fn wear_page<P: YoungPage<B, M>, const B: usize, const M: usize>(
    page: &mut P,
    tearing: bool,
    mask: &Cells<B, M>,
    want: &Cells<B, M>,
)
    requires shape { IsShape B M }
    requires whole { IsWhole B M }
    requires young { MayAge P.room (P.young page.old) }
    ensures cells { Follows (cell mask.now) (aging tearing (cell want.now))
        (young_cell (P.young page.old)) (young_cell (P.young page.new)) }
    ensures pulses { (P.young page.new).pulses ≡ (P.young page.old).pulses + 1 }
    ensures end { (n : ℕ) → 8 * (B + M) ≤ n → cell mask.now n ≡ false }
{
    has_end(mask);
    // Copies, so that LLVM sees that no write to the line changes them.
    let (mask, want) = (*mask, *want);
    wear_cells(page, tearing, &mask, &want);
    page.count_pulse();
}
