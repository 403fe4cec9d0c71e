// The roles of all array lines of a small bank.
use crate::comparing::compare;
use bank_shape::{BankShape, Home, Role};
use masked_bytes::entry::Entry;
use pcm_module::{role_in, used_in};
use power_recovery::kept::Kept;
use std::alloc::{AllocError, Global};

// Two regions of two lines, so that slots 0 to 2 and 3 to 5 are theirs, and three spares.
const SHAPE: BankShape = BankShape {
    base: 20,
    regions: 2,
    lines: 2,
    spares: 3,
    writes: 1,
    reads: 4,
    psi: 1,
    home: Home::Guarded,
};

// The role of an array line, where it is one of the bank's.
fn role(kept: &Kept<8>, array_line: u32) -> Option<Role> {
    let shape = kept.shape();
    if array_line < shape.base || array_line - shape.base >= shape.array_lines() {
        return None;
    }
    Some(role_in(kept, array_line))
}

// The first array line whose role is another.
fn other_role(kept: &Kept<8>, roles: &[(u32, Role)]) -> Option<u32> {
    for (array_line, wanted) in roles {
        if role(kept, *array_line) != Some(*wanted) {
            return Some(*array_line);
        }
    }
    None
}

// Array lines and their roles.
static ROLES: [(u32, Role); 9] = [
    (20, Role::Retired),
    (21, Role::Line(1)),
    (22, Role::Gap),
    (23, Role::Line(2)),
    (24, Role::Gap),
    (25, Role::Line(3)),
    (26, Role::Retired),
    (27, Role::Line(0)),
    (28, Role::Free),
];

// The role of line 24 of a new bank and what it used of its spares. Then a write of line 2 is stored, the gap of its region moves, and
// slot 0 is retired twice: the row that was stored, the spares, what is used then, and the first array line whose role is another.
fn used(
    alloc: Global,
) -> Result<
    (
        (Option<Role>, u32),
        (u32, [Option<u32>; 2]),
        (u32, Option<u32>),
    ),
    AllocError,
> {
    let mut kept = Kept::new(alloc, SHAPE)?;
    let new = (role(&kept, 24), used_in(&kept));
    let _accepted = kept.accept(Entry::whole(1, 2, &[7; 8]), false);
    let row = kept.stored();
    kept.moved();
    let spares = [kept.retire(0).ok(), kept.retire(0).ok()];
    Ok((
        new,
        (row, spares),
        (used_in(&kept), other_role(&kept, &ROLES)),
    ))
}

#[test]
fn each_array_line_has_its_role(rt: HostRuntime) {
    let new = (Some(Role::Line(3)), 0);
    let expected = (new, (1, [Some(6), Some(7)]), (2, None));
    compare(&rt, used(rt.alloc()), Ok(expected));
}

// Behind the six slots and three spares come the control lines of two regions, three spares and the mark.
static CONTROLS: [(u32, Role); 3] = [(28, Role::Free), (29, Role::Control), (34, Role::Control)];

// The first array line of a bank with control lines whose role is another.
fn other_control(alloc: Global) -> Result<Option<u32>, AllocError> {
    let shape = BankShape {
        home: Home::Array,
        ..SHAPE
    };
    let kept = Kept::new(alloc, shape)?;
    Ok(other_role(&kept, &CONTROLS))
}

#[test]
fn control_lines_are_behind_the_spares(rt: HostRuntime) {
    compare(&rt, other_control(rt.alloc()), Ok(None));
}
