use crate::comparing::compare;
use spare_pool::{NoSpare, Owner, Remap};
use std::alloc::{AllocError, Global};

// Of five slots and two spares, one slot is retired twice, and then another: what each retirement answers, where the slots were and are,
// whose lines are whose, and how many spares are used.
fn retired(
    alloc: Global,
) -> Result<([Result<u32, NoSpare>; 3], [u32; 3], [Owner; 4], [u32; 2]), AllocError> {
    let mut remap = Remap::new(alloc, 5, 2)?;
    let (new, unused) = (remap.line_of(3), remap.owner(5));
    let first = remap.retire(3);
    let (once, old, spare) = (remap.line_of(3), remap.owner(3), remap.owner(5));
    let second = remap.retire(3);
    let spent = remap.owner(5);
    let third = remap.retire(0);
    let places = [new, once, remap.line_of(0)];
    let counts = [remap.used(), remap.spares()];
    Ok((
        [first, second, third],
        places,
        [unused, old, spare, spent],
        counts,
    ))
}

#[test]
fn a_slot_is_retired_twice_and_then_no_spare_is_left(rt: HostRuntime) {
    let spares = [Ok(5), Ok(6), Err(NoSpare)];
    let owners = [Owner::Free, Owner::Retired, Owner::Slot(3), Owner::Retired];
    compare(
        &rt,
        retired(rt.alloc()),
        Ok((spares, [3, 5, 0], owners, [2, 2])),
    );
}

// The slots that two spares were given to, and the line of that slot behind a reset.
fn reset(alloc: Global) -> Result<[u32; 3], AllocError> {
    let mut remap = Remap::new(alloc, 5, 2)?;
    let _ = remap.retire(3);
    let _ = remap.retire(3);
    let (first, second) = (remap.replaced(0), remap.replaced(1));
    remap.reset();
    Ok([first, second, remap.line_of(3)])
}

#[test]
fn a_spare_tells_its_slot_and_a_reset_takes_it_back(rt: HostRuntime) {
    compare(&rt, reset(rt.alloc()), Ok([3, 3, 3]));
}
