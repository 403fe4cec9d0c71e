// What each array line of a bank is used for, and how many of its spares are used, by what the bank keeps: its registers and its
// remap table alone.
ghost use Rattle.std.specs.Prelude.{◌≡◌, ◌+◌, ◌<◌, ◌≤◌};
ghost use Rattle.spare_pool.specs.Table.{used_by};
ghost use Rattle.bank_shape.specs.Shape.{lines_in, slots_of};
ghost use Rattle.power_recovery.specs.Kept.{array_line};
ghost use Rattle.right_runs.specs.Ends.{BankEnd};
ghost use Rattle.end_laws.specs.EndLaws.{IsEndOf};
ghost use Rattle.right_runs.specs.Roles.{IsRole, used_spares};

use bank_shape::Role;
use power_recovery::kept::Kept;
use spare_pool::Owner;

/// What one of the bank's array lines is used for. A line goes by its number in the bank: its region times the lines of a
/// region, and its number there.
pub fn role_in<const B: usize>(kept: &Kept<B>, array_line: u32) -> Role
    requires begun { kept.now.shape.base ≤ array_line }
    requires exists { array_line < kept.now.shape.base + lines_in kept.now.shape }

    // By every number of moves that the registers stand for.
    ensures { (end : BankEnd) → IsEndOf kept.now end
        → IsRole kept.now.shape (λ own. own) end array_line result }
{
    let shape = kept.shape();
    if array_line >= shape.first_control() {
        return Role::Control;
    }
    match kept.remap().owner(array_line - shape.base) {
        Owner::Slot(slot) => role_of_slot(kept, slot),
        Owner::Free => Role::Free,
        Owner::Retired => Role::Retired,
    }
}

// What the array line of a slot is used for: the slot is a line's, or the gap of its region.
fn role_of_slot<const B: usize>(kept: &Kept<B>, slot: u32) -> Role
    requires { slot < slots_of kept.now.shape }
    ensures { (end : BankEnd) → IsEndOf kept.now end
        → IsRole kept.now.shape (λ own. own) end (array_line kept.now slot) result }
{
    let shape = kept.shape();
    let region = slot / (shape.lines + 1);
    let place = slot % (shape.lines + 1);
    match kept.region(region).registers().line_at(place) {
        Some(offset) => Role::Line(region * shape.lines + offset),
        None => Role::Gap,
    }
}

/// How many of the bank's spares are used: those that were given to slots, though some are retired since.
pub fn used_in<const B: usize>(kept: &Kept<B>) -> u32
    ensures given { result ≡ used_by kept.now.table }
    ensures used { (end : BankEnd) → IsEndOf kept.now end
        → result ≡ used_spares kept.now.shape end.table }
    ensures within { result ≤ kept.now.shape.spares }
{
    kept.remap().used()
}
