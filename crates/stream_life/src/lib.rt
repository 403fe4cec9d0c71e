//! The life of a module that serves a stream, of however many rows: what a stream that was served to its end says of the cells of its
//! array, whether the banks drained or the power stays off. A law is what a function here ensures; the functions do nothing when they run.
#![tactic(auto)]

ghost use Rattle.stream_life.specs.CutOff.{CutOffLaw};
ghost use Rattle.stream_life.specs.Lasting.{StreamLastingLaw, AskedStreamLaw, SeededStreamLaw, SeededAskedLaw};

use lifetime_laws::{
    asked_writes_bound_stores, hot_lines_are_spread, spared_controls_are_unworn,
    spared_lines_are_unworn, unworn_banks_take_all,
};
use pcm_io::Source;
use run_laws::runs_live_on;

/// Where the power stays off behind the last row: over cells that endure more changes than any slot's own line of a bank may take line
/// writes by the hot lines of its region, no such line is worn, no write was refused for want of a spare, and no spare is used. Writes may
/// stand in the bank's queue.
pub fn cut_off_banks_live_on()
    ensures { CutOffLaw }
{
    hot_lines_are_spread();
    spared_lines_are_unworn();
    spared_controls_are_unworn();
    unworn_banks_take_all();
}

/// A stream of any length that was served to its end leaves such a bank so, by its stores and cuts, or by the writes that its rows ask for,
/// whatever became of them. Where the banks drained no write is left in the queue either, if the bank has no control lines or cells endure
/// what the changes of items bring these.
pub fn streams_last<S: Source>()
    ensures stored { StreamLastingLaw S }
    ensures asked { AskedStreamLaw S }
{
    runs_live_on();
    cut_off_banks_live_on();
    asked_writes_bound_stores();
}

/// So does every stream over the seeded array, as the program makes it, whose cells endure `--lo` changes: no other premise is on the array.
pub fn seeded_streams_last<S: Source>()
    ensures stored { SeededStreamLaw S }
    ensures asked { SeededAskedLaw S }
{
    streams_last::<S>();
}
