//! The image of a finished run: what is saved of its banks and its array, and what that says of the run. A law is what a
//! function here ensures; the functions do nothing when they run.
#![tactic(auto)]

ghost use Rattle.image_laws.specs.SavedRuns.{SavedLaw, StaysRightLaw, StoppedSavedLaw, StaysStoppedLaw};
ghost use Rattle.image_laws.specs.Sizes.{ShortImageLaw};

use bank_invariant::bridge::kept_state_is_that_of_the_history;
use clock_laws::events::histories_leave_the_array;
use module_laws::bank_tables_are_those_of_histories;
use run_laws::lines_have_their_banks;
use table_laws::logs_keep_their_laws;

/// What a finished run leaves is saved as that of the run: by its rows it says which writes its queues hold and what these give,
/// how many stores each region had since its last move, and which banks are marked; and it says each line's newest bytes.
pub fn images_are_of_their_runs()
    ensures { SavedLaw }
{
    bank_tables_are_those_of_histories();
    lines_have_their_banks();
    kept_state_is_that_of_the_history();
    histories_leave_the_array();
}

/// A right run stays right where its array is only sensed.
pub fn sensed_runs_stay_right()
    ensures { StaysRightLaw }
{
    logs_keep_their_laws();
    histories_leave_the_array();
    bank_tables_are_those_of_histories();
}

/// So is what a run leaves behind whose last row the power stays off: with no line excepted, it says each line's newest bytes.
pub fn stopped_images_are_of_their_runs()
    ensures { StoppedSavedLaw }
{
    bank_tables_are_those_of_histories();
    lines_have_their_banks();
    kept_state_is_that_of_the_history();
    histories_leave_the_array();
}

/// And such a run stays right where its array is only sensed.
pub fn sensed_stops_stay_right()
    ensures { StaysStoppedLaw }
{
    logs_keep_their_laws();
    histories_leave_the_array();
    bank_tables_are_those_of_histories();
}

/// An image takes at most 14,905,192 bytes, whatever the sizes of its module.
pub fn images_are_short()
    ensures { ShortImageLaw }
{}
