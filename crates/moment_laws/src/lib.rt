//! What stands between any two rows of a stream, of however many, with nothing drained and no cut added: each line's newest bytes, in the
//! array or in a queue. A law is what a function here ensures; the functions do nothing when they run.
#![tactic(auto)]

ghost use Rattle.moment_laws.specs.Banks.{MeanwhileLaw};
ghost use Rattle.moment_laws.specs.Moments.{MomentLaw, AlongLaw};
ghost use Rattle.moment_laws.specs.Streams.{WholeStreamLaw, BegunStreamLaw};

use clock_laws::events::histories_leave_the_array;
use end_laws::{lines_are_kept, slots_have_their_lines, stored_rows_are_still_there};
use pcm_io::Source;
use read_moments::no_answer_is_wrong_meanwhile;
use run_laws::lines_have_their_banks;

/// At any moment a bank stands as one does behind whose last row the power stays off: by its own registers, remap table and queue each line's
/// newest bytes are there.
pub fn banks_stand_meanwhile()
    ensures { MeanwhileLaw }
{
    slots_have_their_lines();
    lines_are_kept();
    stored_rows_are_still_there();
}

/// Whatever events were handed to a module, nothing is lost at that very moment: of each bank as far as it has come, over the array as it is,
/// with no pulse torn; and each row that has an outcome by then is served.
pub fn no_moment_loses_bytes()
    ensures { MomentLaw }
{
    lines_have_their_banks();
    histories_leave_the_array();
    no_answer_is_wrong_meanwhile();
    banks_stand_meanwhile();
}

/// So it was behind each row of a stream, an event or a settle.
pub fn no_row_loses_bytes()
    ensures { AlongLaw }
{
    no_moment_loses_bytes();
}

/// So it was of each stream that a program's call served: to its end, a cut that was added behind it among its rows, or up to a row.
pub fn streams_lose_nothing<S: Source>()
    ensures whole { WholeStreamLaw S }
    ensures begun { BegunStreamLaw S }
{
    no_row_loses_bytes();
}
