// Reads back what a bank kept, from the control lines of its array and from the change that stands.
ghost use Rattle.std.specs.Prelude.{◌≡◌, ◌+◌, [], ◌∷◌, None, false};
ghost use Rattle.ecp_line.specs.Layout.{IsLayout};
ghost use Rattle.bank_model.specs.Touching.{Touches};
ghost use Rattle.bank_model.specs.Changes.{numbers_from, all_controls};
ghost use Rattle.power_recovery.specs.Kept.{KeptState};
ghost use Rattle.register_laws.specs.Recovering.{IsReadable, IsOnLines};
ghost use Rattle.bank_invariant.specs.Tied.{IsTied};
ghost use Rattle.bank_core.specs.Stepping.{with_kept};
ghost use Rattle.bank_timing.specs.Reading.{spares_back, mark_back};

use bank_core::bank::Bank;
use cell_rows::CellArray;
use reg_lines::regs::RegLines;

/// Restores a stripped bank from its control lines: the regions first, then the spares in their order, then the mark. Whatever wrote
/// the lines, the bank then keeps what they and the change hold. Takes no memory.
pub fn recover<A: CellArray<B, M>, const B: usize, const M: usize, const E: usize>(
    bank: &mut Bank<B, M, E>,
    regs: &RegLines<B, M, E>,
    array: &mut A,
    tick: u64,
)
    requires layout { IsLayout B M E }
    requires idle { bank.old.running ≡ None }
    requires served { bank.old.waiting ≡ [] }
    requires taken { bank.old.lost ≡ [] }
    requires readable { (kept : KeptState B) × IsReadable kept bank.old.kept regs.now
        (A.state array.old) }
    ensures kept { (kept : KeptState B) → IsReadable kept bank.old.kept regs.now (A.state array.old)
        → bank.new ≡ with_kept bank.old kept }
    ensures touches { Touches tick (all_controls bank.old.kept.shape) None false
        (A.state array.old) (A.state array.new) }
    ensures tied { (kept : KeptState B) → IsReadable kept bank.old.kept regs.now (A.state array.old)
        → IsTied (with_kept bank.old kept) (A.state array.old)
        → IsTied bank.new (A.state array.new) }
{
    recover_regions(bank, regs, array, tick);
    recover_spares(bank, regs, array, tick);
    recover_mark(bank, regs, array, tick);
}

// Restores the registers and the counter of each region.
fn recover_regions<A: CellArray<B, M>, const B: usize, const M: usize, const E: usize>(
    bank: &mut Bank<B, M, E>,
    regs: &RegLines<B, M, E>,
    array: &mut A,
    tick: u64,
)
    requires layout { IsLayout B M E }
    requires readable { (kept : KeptState B) × IsReadable kept bank.old.kept regs.now
        (A.state array.old) }
    ensures kept { (kept : KeptState B) → IsReadable kept bank.old.kept regs.now (A.state array.old)
        → bank.new ≡ with_kept bank.old (spares_back 0 kept) }
    ensures touches { Touches tick (numbers_from regs.now.base bank.old.kept.shape.regions)
        None false (A.state array.old) (A.state array.new) }
{
    let shape = *bank.kept().shape();
    for i in 0..shape.regions {
        let values = regs.read_item(array, i, tick);
        bank.restore_region(i, values[0], shape.lines - values[1], values[2]);
    }
}

// Gives the spares to the slots that had them.
fn recover_spares<A: CellArray<B, M>, const B: usize, const M: usize, const E: usize>(
    bank: &mut Bank<B, M, E>,
    regs: &RegLines<B, M, E>,
    array: &mut A,
    tick: u64,
)
    requires layout { IsLayout B M E }
    requires readable { (kept : KeptState B) × (bank.old.kept ≡ spares_back 0 kept)
        × IsOnLines kept regs.now (A.state array.old) }
    ensures kept { (kept : KeptState B) → bank.old.kept ≡ spares_back 0 kept
        → IsOnLines kept regs.now (A.state array.old)
        → bank.new ≡ with_kept bank.old (mark_back kept) }
    ensures touches { Touches tick (numbers_from (regs.now.base + bank.old.kept.shape.regions)
        bank.old.kept.shape.spares) None false (A.state array.old) (A.state array.new) }
{
    let shape = *bank.kept().shape();
    for j in 0..shape.spares {
        let values = regs.read_item(array, shape.regions + j, tick);
        if values[0] != 0 {
            bank.restore_spare(values[0] - 1);
        }
    }
}

// Sets the mark where it stood.
fn recover_mark<A: CellArray<B, M>, const B: usize, const M: usize, const E: usize>(
    bank: &mut Bank<B, M, E>,
    regs: &RegLines<B, M, E>,
    array: &mut A,
    tick: u64,
)
    requires layout { IsLayout B M E }
    requires readable { (kept : KeptState B) × (bank.old.kept ≡ mark_back kept)
        × IsOnLines kept regs.now (A.state array.old) }
    ensures kept { (kept : KeptState B) → bank.old.kept ≡ mark_back kept
        → IsOnLines kept regs.now (A.state array.old) → bank.new ≡ with_kept bank.old kept }
    ensures touches { Touches tick
        ((regs.now.base + (bank.old.kept.shape.regions + bank.old.kept.shape.spares))
        ∷ []) None false
        (A.state array.old) (A.state array.new) }
{
    let shape = *bank.kept().shape();
    let values = regs.read_item(array, shape.regions + shape.spares, tick);
    if values[0] != 0 {
        bank.restore_mark();
    }
}
