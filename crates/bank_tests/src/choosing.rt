// What a bank turns to, and for how long.
use crate::comparing::compare;
use bank_shape::clock::{Action, Doing, choose};

#[test]
fn a_read_goes_first_only_where_the_write_gives_way(rt: HostRuntime) {
    let chosen = [
        choose(true, true, true, false),
        choose(false, true, true, false),
        choose(false, true, false, true),
        choose(true, false, false, true),
        choose(true, false, false, false),
    ];
    let expected = [
        Some(Doing::Serving),
        Some(Doing::Iterating),
        Some(Doing::Serving),
        Some(Doing::Beginning),
        None,
    ];
    compare(&rt, chosen, expected);
}

// The end of what a bank does from tick 15 on.
fn end(doing: Doing) -> u64 {
    Action { doing, first: 15 }.ends(5, 10)
}

#[test]
fn a_begin_lasts_as_long_as_a_serve(rt: HostRuntime) {
    let ends = [
        end(Doing::Beginning),
        end(Doing::Serving),
        end(Doing::Iterating),
    ];
    compare(&rt, ends, [20, 20, 25]);
}
