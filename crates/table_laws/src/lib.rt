//! All laws of a bank in one place: of the table of rows that a lawful history leaves, of its places and wear, and of its
//! log. A law is what a function here ensures; the functions do nothing when they run.
#![tactic(auto)]

ghost use Rattle.bank_laws.specs.Whole.{WholeTableLaw, WholePlaceLaw, WholeLogLaw, WholeRoomLaw};
ghost use Rattle.tick_laws.specs.TickLaws.{FewCancelsLaw};

use bank_laws::rows::{reads_are_served, wearing_out_is_final};
use log_laws::logs_are_fair;
use place_laws::places_keep_their_law;
use queue_laws::{banks_have_room, rows_are_fair_to_the_queue};
use tick_laws::{reads_that_may_cancel_wait_little, rows_are_in_time};

/// Every row of a bank with nothing left to do keeps the laws of the rows: it is served, fair to the queue, and in time, and
/// wearing out is final and earned.
pub fn tables_keep_their_laws()
    ensures { WholeTableLaw }
{
    reads_are_served();
    rows_are_fair_to_the_queue();
    wearing_out_is_final();
    rows_are_in_time();
}

/// A read that begins to wait where the present line write may still be cancelled waits for the reads before it alone.
pub fn reads_keep_their_law()
    ensures { FewCancelsLaw }
{
    reads_that_may_cancel_wait_little();
}

/// The rows' places are those of the rotation and of worn lines, and the array's pulses are no more than the rows bring.
pub fn places_keep_their_laws()
    ensures { WholePlaceLaw }
{
    places_keep_their_law();
}

/// Each stored and each read row has its sense, and each line's pulses are seen one by one.
pub fn logs_keep_their_laws()
    ensures { WholeLogLaw }
{
    logs_are_fair();
}

/// At any tick a bank holds no more writes and reads than it may.
pub fn banks_keep_their_room()
    ensures { WholeRoomLaw }
{
    banks_have_room();
}
