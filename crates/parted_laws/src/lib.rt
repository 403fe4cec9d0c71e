//! A run that is served in parts: each part is a run of its own, over an array of its own, of the
//! rows of its banks' lines and of all power cuts. Joined, they are one right run. A law is what a
//! function here ensures; the functions do nothing when they run.
#![tactic(auto)]

ghost use Rattle.parted_laws.specs.Parted.{OnePartLaw, PartedLaw};

use clock_laws::events::{
    histories_leave_the_array, other_lines_do_not_matter, unused_cells_stay_untouched,
};
use end_laws::{
    lines_are_kept, queues_follow_rows, registers_follow_stores, slots_have_their_lines,
    stored_rows_are_still_there,
};
use lifetime_laws::lines_keep_their_law;
use module_laws::{
    bank_tables_are_those_of_histories, every_row_finds_room, modules_serve_as_their_banks,
};
use table_laws::{
    banks_keep_their_room, logs_keep_their_laws, places_keep_their_laws, tables_keep_their_laws,
};

/// Parts that were served to their end, each bank in one of them, are one right run: of the rows
/// of all banks, over an array that has the lines of each bank as its part left them; whether the
/// banks drained, or the power stays off.
pub fn parts_are_one_run()
    ensures { PartedLaw }
{
    tables_keep_their_laws();
    places_keep_their_laws();
    lines_keep_their_law();
    logs_keep_their_laws();
    banks_keep_their_room();
    bank_tables_are_those_of_histories();
    modules_serve_as_their_banks();
    every_row_finds_room();
    histories_leave_the_array();
    other_lines_do_not_matter();
    unused_cells_stay_untouched();
    slots_have_their_lines();
    registers_follow_stores();
    lines_are_kept();
    queues_follow_rows();
    stored_rows_are_still_there();
}

/// A run that was served to its end is a run in parts of which there is one, where its array tells
/// no log: of parts no more is asked than a run gives.
pub fn a_run_is_its_only_part()
    ensures { OnePartLaw }
{}
