//! What a run prints of its results is judged ok behind its trace. A law is what a function here ensures; the functions do nothing
//! when they run.
#![tactic(auto)]

ghost use Rattle.judged_runs.specs.JudgedRuns.{JudgedRunsLaw, MayStandLaw, ShortLaw};

use check_laws::{outcomes_come_soon, right_runs_get_yes, right_runs_keep_the_rules};
use check_reader::results_are_read_once;
use check_text::{printed_results_are_read, results_begin_behind_their_trace};
use run_laws::{array_lines_are_few, places_are_array_lines, rows_have_their_own_outcomes};

/// The outcomes of a right run of a trace may stand in results.
pub fn outcomes_of_runs_may_stand()
    ensures { MayStandLaw }
{
    rows_have_their_own_outcomes();
    places_are_array_lines();
    array_lines_are_few();
    outcomes_come_soon();
    right_runs_keep_the_rules();
}

/// The results that are printed of a right run take few bytes.
pub fn printed_results_are_short()
    ensures { ShortLaw }
{
    outcomes_of_runs_may_stand();
}

/// A trace whose last line is ended, with the results of a right run of it behind it, is judged ok.
pub fn right_runs_are_judged_ok()
    ensures { JudgedRunsLaw }
{
    right_runs_get_yes();
    outcomes_of_runs_may_stand();
    results_begin_behind_their_trace();
    printed_results_are_read();
    results_are_read_once();
}
