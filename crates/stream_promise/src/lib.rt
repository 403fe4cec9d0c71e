//! The promise of streams, by their rows alone: what was told row by row and in time, that the rows are right, and what was written. It follows
//! from the contract of `stream_run`, which tells of the histories of the module's banks, by laws of streams.
#![tactic(auto)]

ghost use Rattle.std.specs.Prelude.{map, string_bytes};
ghost use Rattle.stream_words.specs.Jobs.{stream_job_of};
ghost use Rattle.program_calls.specs.Calls.{lent_sink};
ghost use Rattle.stream_top.specs.Calls.{lent_telling, source_between};
ghost use Rattle.stream_top.specs.Waiting.{WaitsFor};
ghost use Rattle.stream_promise.specs.Promise.{LastSnapshotLaw, PromisesByRows};
ghost use Rattle.stream_promise.specs.Rows.{IsTextByRows};

use moment_laws::no_moment_loses_bytes;
use pcm_io::{Sink, Source};
use settle_laws::{
    marked_banks_store_nothing, outcomes_are_told_in_turn, outcomes_are_told_in_turn_so_far,
    streams_settle_for_good,
};
use snapshot_laws::{snapshots_never_fall, snapshots_never_fall_so_far};
use std::alloc::Global;
use stream_top::stream_run;
use wear_totals::TellsWear;

/// Runs the program of streams on the words behind its name, and answers its status and the output, as `stream_run` does: each promise is a
/// field of `PromisesByRows`.
pub fn run_stream<
    A: TellsWear<64, 8, 6>,
    V: TellsWear<128, 16, 8>,
    S: Source,
    K: Sink + Drop,
    F: Sink,
>(
    alloc: Global,
    words: &[String],
    array: &mut A,
    wide: &mut V,
    source: &mut S,
    out: Box<K>,
    err: &mut F,
) -> (u8, Box<K>)
    // Each time that the source is asked for a row, all that is known by then was told, and written.
    ensures waits { WaitsFor IsTextByRows
        (source_between S.left S.taken S.faults source.old source.new)
        K.written (K.written out.value) (stream_job_of (map string_bytes words.now)) }
    ensures promises { PromisesByRows (record {
      asked = stream_job_of (map string_bytes words.now);
      array = lent_telling A.state A.changes array.old array.new;
      wide = lent_telling V.state V.changes wide.old wide.new;
      source = source_between S.left S.taken S.faults source.old source.new;
      out = lent_sink K.written K.faults out.value result.1.value;
    }) (lent_sink F.written F.faults err.old err.new) result.0 }
{
    no_moment_loses_bytes();
    streams_settle_for_good::<S>();
    outcomes_are_told_in_turn();
    outcomes_are_told_in_turn_so_far();
    marked_banks_store_nothing();
    snapshots_never_fall();
    snapshots_never_fall_so_far();
    stream_run(alloc, words, array, wide, source, out, err)
}

/// Of a stream of snapshots that was served to its end, the last one has the numbers of the summary of what it left. (A law: the function does
/// nothing when it runs.)
pub fn the_last_snapshot_is_the_summary<S: Source>()
    ensures { LastSnapshotLaw S }
{}
