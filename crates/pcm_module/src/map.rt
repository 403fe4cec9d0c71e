// Where the lines of a module stand.
ghost use Rattle.std.specs.Prelude.{◌≡◌, ◌<◌, ℕ};
ghost use Rattle.module_shape.specs.Limits.{total_of};
ghost use Rattle.right_runs.specs.Ends.{BankEnd};
ghost use Rattle.pcm_module.specs.State.{AreEndsOf};
ghost use Rattle.pcm_module.specs.Standings.{standing_of};

use crate::side_by_side::Module;
use feistel_map::Address;

/// Where a line of a module stands.
#[derive(Clone, Copy, PartialEq, Eq)]
pub struct LinePlace {
    /// Its bank, its region there, and its offset in the region.
    pub address: Address,
    /// Its place in the region.
    pub place: u32,
    /// The array line of the place's slot: its own, or a spare.
    pub array: u32,
}

impl<const B: usize, const M: usize, const E: usize> Module<B, M, E> {
    /// Where a line stands now, by the registers and the remap table of its bank.
    pub fn standing(&self, line: u32) -> LinePlace
        requires { line < total_of self.now.shape }

        // By every number of moves that the registers stand for.
        ensures stands { (ends : ℕ → BankEnd) → AreEndsOf self.now ends
            → result ≡ standing_of self.now.shape self.now.seed ends line }
        ensures bank_exists { result.address.bank < self.now.shape.banks }
    {
        let lines = self.shape.raw().lines;
        let at = self.place(line);
        let kept = self.kept(at.bank);
        let region = at.line / lines;
        let offset = at.line % lines;
        LinePlace {
            address: Address {
                bank: at.bank,
                region,
                offset,
            },
            place: kept.region(region).registers().place(offset),
            array: kept.array_line(kept.slot_of(at.line)),
        }
    }
}
