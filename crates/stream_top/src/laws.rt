//! What every stream leaves that was served to its end. The law is what the function here ensures; the function does nothing when it runs.
ghost use Rattle.stream_top.specs.Leaving.{LeavesLaw};

use end_laws::lines_have_one_role;
use image_laws::{
    images_are_of_their_runs, sensed_runs_stay_right, sensed_stops_stay_right,
    stopped_images_are_of_their_runs,
};

/// What a stream leaves that has ended, drained or with the power off, stays right where its array is only sensed, is saved with each
/// line's newest bytes, and has one role for each array line.
pub fn ended_streams_are_kept()
    ensures { LeavesLaw }
{
    sensed_runs_stay_right();
    sensed_stops_stay_right();
    images_are_of_their_runs();
    stopped_images_are_of_their_runs();
    lines_have_one_role();
}
