//! What a finished run of a module leaves: the laws of its rows, over its array in the end. A law is what a function here
//! ensures; the functions do nothing when they run.
#![tactic(auto)]

ghost use Rattle.run_laws.specs.FinishedLaws.{FinishedLaw, StoppedLaw, LinesLaw, NamedLaw, RolesLaw};
ghost use Rattle.run_laws.specs.Lasting.{AliveLaw, AskedAliveLaw};
ghost use Rattle.run_laws.specs.RowsOfRuns.{OwnOutcomesLaw, PlacesExistLaw, FewArrayLinesLaw, NoneLostLaw, RoomIsTakenLaw, NoneShortLaw};

use clock_laws::events::{histories_leave_the_array, unused_cells_stay_untouched};
use end_laws::{
    lines_are_kept, lines_have_one_role, queues_follow_rows, registers_follow_stores,
    slots_have_their_lines, stored_rows_are_still_there,
};
use lifetime_laws::{
    asked_writes_bound_stores, hot_lines_leave_banks_alive, lines_keep_their_law, unworn_lines_stay,
};
use module_laws::{
    bank_tables_are_those_of_histories, every_row_finds_room, modules_serve_as_their_banks,
};
use table_laws::{
    banks_keep_their_room, logs_keep_their_laws, places_keep_their_laws, tables_keep_their_laws,
};

/// Each line of a module is of one of its banks, and no two lines have one number there.
pub fn lines_have_their_banks()
    ensures { LinesLaw }
{}

/// The name of a line, by its bank and its number there, is the line's number in the module.
pub fn lines_have_their_names()
    ensures { NamedLaw }
{}

/// A run whose banks have nothing left to do leaves rows that keep every law, over its array in the end.
pub fn finished_runs_are_right()
    ensures { FinishedLaw }
{
    tables_keep_their_laws();
    places_keep_their_laws();
    lines_keep_their_law();
    logs_keep_their_laws();
    banks_keep_their_room();
    bank_tables_are_those_of_histories();
    modules_serve_as_their_banks();
    every_row_finds_room();
    histories_leave_the_array();
    unused_cells_stay_untouched();
    slots_have_their_lines();
    registers_follow_stores();
    lines_are_kept();
    queues_follow_rows();
    stored_rows_are_still_there();
}

/// A run behind whose last row, a power cut, the power stays off leaves rows that keep these laws, but for what says that work is finished.
pub fn stopped_runs_are_right()
    ensures { StoppedLaw }
{
    tables_keep_their_laws();
    places_keep_their_laws();
    lines_keep_their_law();
    logs_keep_their_laws();
    banks_keep_their_room();
    bank_tables_are_those_of_histories();
    modules_serve_as_their_banks();
    every_row_finds_room();
    histories_leave_the_array();
    unused_cells_stay_untouched();
    slots_have_their_lines();
    registers_follow_stores();
    lines_are_kept();
    queues_follow_rows();
    stored_rows_are_still_there();
}

/// After a right run each array line has one role: it holds one line of the module, or is a gap, a free spare, retired or
/// a control line.
pub fn array_lines_have_one_role()
    ensures { RolesLaw }
{
    lines_have_one_role();
}

/// Each row of a right run has an outcome of the operation that it asks for.
pub fn rows_have_their_own_outcomes()
    ensures { OwnOutcomesLaw }
{}

/// The place of each stored or read row is an array line of the module.
pub fn places_are_array_lines()
    ensures { PlacesExistLaw }
{}

/// A module on which a whole trace is replayed has at most 98,832 array lines.
pub fn array_lines_are_few()
    ensures { FewArrayLinesLaw }
{}

/// Without power cuts no read is lost.
pub fn reads_are_not_lost_without_cuts()
    ensures { NoneLostLaw }
{}

/// A write that finds room in a bank that isn't worn out and has no worn control line is accepted, and leaves the queue again.
pub fn room_is_taken()
    ensures { RoomIsTakenLaw }
{}

/// Where the power is never cut and each row finds what it needs, no row is refused, lost or left in a queue.
pub fn no_row_falls_short()
    ensures { NoneShortLaw }
{}

/// Over cells that endure more changes than any slot's own line of a bank may take line writes by the hot lines of its region, however
/// often cells miss, the bank wears out nowhere: no row is refused for want of a spare, each slot has its own line and no spare is used;
/// and none is left in the queue, where the bank has no control lines or cells endure what the changes of items bring these.
pub fn runs_live_on()
    ensures { AliveLaw }
{
    hot_lines_leave_banks_alive();
    unworn_lines_stay();
}

/// So it is where the trace asks for no more writes than that, whatever becomes of them.
pub fn lasting_traces_live_on()
    ensures { AskedAliveLaw }
{
    asked_writes_bound_stores();
    hot_lines_leave_banks_alive();
    unworn_lines_stay();
}
