//! The laws of the program, over the contract of `pcm_run`: what every run that was made is. A law is what a
//! function here ensures; the functions do nothing when they run.
#![tactic(auto)]

ghost use Rattle.program_laws.specs.CheckedRuns.{CheckedLaw};
ghost use Rattle.program_laws.specs.Lasting.{LastingLaw, LastingTraceLaw, SeededLastingLaw, SeededTraceLaw};
ghost use Rattle.program_laws.specs.Laws.{CompletenessLaw, DrawnLaw};
ghost use Rattle.program_laws.specs.ShownRuns.{ShownLaw};

mod whole;

use image_laws::images_are_short;
use judged_runs::{printed_results_are_short, right_runs_are_judged_ok};
use run_laws::{
    lasting_traces_live_on, no_row_falls_short, reads_are_not_lost_without_cuts, room_is_taken,
    runs_live_on,
};
use trace_gen::laws::{gen_text_is_short, gen_text_reads_back, generated_events_are_lawful};
pub use whole::is_whole;

/// Of whichever trace: without a power cut no read is lost; a write that finds room in a bank that isn't worn
/// out and has no worn control line is accepted and leaves the queue; and where no power cut comes and each
/// row finds what it needs, the run is done wholly.
pub fn runs_are_complete()
    ensures { CompletenessLaw }
{
    generated_events_are_lawful();
    reads_are_not_lost_without_cuts();
    room_is_taken();
    no_row_falls_short();
}

/// What a run of drawn events does is what a run does over a source that holds the text of `gen` with the
/// same options.
pub fn drawn_runs_are_runs_of_their_text()
    ensures { DrawnLaw }
{
    gen_text_reads_back();
    gen_text_is_short();
}

/// Of whichever trace: over cells that endure more changes than any slot's own line of a bank may take line
/// writes by the hot lines of its region, however often cells miss, the bank wears out nowhere: no write is
/// refused for want of a spare, each slot has its own line and no spare is used; and none is left in the
/// queue, where the bank has no control lines or cells endure what the changes of items bring these.
/// Start-Gap divides what one hot line brings by the lines of its region.
pub fn runs_last()
    ensures { LastingLaw }
{
    runs_live_on();
}

/// So it is by the writes that the trace asks for, whatever becomes of them.
pub fn traces_last()
    ensures { LastingTraceLaw }
{
    lasting_traces_live_on();
}

/// So it is of every run over the seeded array, as the program makes it, whose cells endure `--lo` changes: no
/// other premise is on the array.
pub fn seeded_runs_last()
    ensures stored { SeededLastingLaw }
    ensures asked { SeededTraceLaw }
{
    runs_last();
    traces_last();
}

/// What `show` writes of the bytes that a run wrote as its image is each line's newest bytes: they are never too
/// many, and no field of them fails.
pub fn images_show_the_newest()
    ensures { ShownLaw }
{
    images_are_short();
}

/// What a run wrote as its results, given to `check` behind its trace with the same options, is ok.
pub fn printed_results_are_ok()
    ensures { CheckedLaw }
{
    gen_text_reads_back();
    gen_text_is_short();
    printed_results_are_short();
    right_runs_are_judged_ok();
}
