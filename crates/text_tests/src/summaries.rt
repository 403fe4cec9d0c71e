use crate::expected::{assert_made, compare};
use pcm_io::Text;
use result_rows::{Outcome, Results};
use run_text::{OutcomeCounts, add_pulses, any_short, is_short, print_summary};
use std::alloc::{AllocError, Global};

// A write, and a read that was forwarded from the queue.
fn two(alloc: Global) -> Result<Results<64>, AllocError> {
    let mut results = Results::<64>::new(alloc, 2)?;
    results.set(1, Outcome::Stored { tick: 15, place: 3 });
    let bytes = [0xff; 64];
    results.set(2, Outcome::Forwarded { tick: 0, bytes });
    Ok(results)
}

// Their summary.
fn summary(alloc: Global) -> Result<Text, AllocError> {
    let results = two(alloc)?;
    let mut text = Text::new(alloc, 512)?;
    print_summary(
        results.rows(),
        &OutcomeCounts::of(&results),
        0,
        1,
        &mut text,
    );
    Ok(text)
}

// Whether a row of them falls short.
fn is_either_short(alloc: Global) -> Result<bool, AllocError> {
    Ok(any_short(&two(alloc)?))
}

#[test]
fn a_write_and_a_read_forwarded_from_the_queue(rt: HostRuntime) {
    assert_made(
        &rt,
        summary(rt.alloc()),
        b"rows 2\nstored 1\nmerged 0\nqueued 0\nfull 0\nworn 0\nread 0\nforwarded 1\nbusy 0\nlost 0\ncut 0\nretired 0\npulses 1\n",
    );
    compare(&rt, is_either_short(rt.alloc()), Ok(false));
}

const COUNTS: OutcomeCounts = OutcomeCounts {
    stored: 1,
    merged: 2,
    queued: 3,
    full: 4,
    worn: 5,
    read: 6,
    forwarded: 7,
    busy: 8,
    lost: 9,
    cut: u32::MAX,
};

fn counted(alloc: Global) -> Result<Text, AllocError> {
    let mut text = Text::new(alloc, 512)?;
    print_summary(400_000, &COUNTS, 16_384, u64::MAX, &mut text);
    Ok(text)
}

#[test]
fn each_outcome_has_its_own_line(rt: HostRuntime) {
    assert_made(
        &rt,
        counted(rt.alloc()),
        b"rows 400000\nstored 1\nmerged 2\nqueued 3\nfull 4\nworn 5\nread 6\nforwarded 7\nbusy 8\nlost 9\ncut 4294967295\nretired 16384\npulses 18446744073709551615\n",
    );
}

// Of three rows what is counted, and whether one falls short before the second is set and behind that.
fn refused(alloc: Global) -> Result<([u32; 4], [bool; 2]), AllocError> {
    let mut results = Results::<128>::new(alloc, 3)?;
    results.set(1, Outcome::Merged { tick: 0 });
    results.set(3, Outcome::Cut { tick: 9 });
    let unset = any_short(&results);
    results.set(2, Outcome::Full { tick: 0 });
    let counts = OutcomeCounts::of(&results);
    let counted = [counts.merged, counts.full, counts.cut, counts.lost];
    Ok((counted, [unset, any_short(&results)]))
}

#[test]
fn a_refused_write_and_a_queued_one_fall_short(rt: HostRuntime) {
    compare(&rt, refused(rt.alloc()), Ok(([1, 1, 1, 0], [false, true])));
    let short = [
        is_short(&Outcome::<64>::Queued { tick: 7 }),
        is_short(&Outcome::<64>::Merged { tick: 7 }),
    ];
    compare(&rt, short, [true, false]);
}

#[test]
fn a_sum_of_pulses_stays_at_the_greatest_number(rt: HostRuntime) {
    let sums = [
        add_pulses(66, 1),
        add_pulses(u64::MAX, 1),
        add_pulses(1, u64::MAX),
    ];
    compare(&rt, sums, [67, u64::MAX, u64::MAX]);
}
