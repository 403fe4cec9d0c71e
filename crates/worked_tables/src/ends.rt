//! Worked ends of a small bank, and altered ones that are refused. Each clause is computed from the definitions; there is
//! nothing to run.

ghost use Rattle.std.specs.Prelude.{◌≡◌, ◌∷◌, [], true, false};
ghost use Rattle.row_rules.specs.Rows.{each_row};
ghost use Rattle.worked_tables.specs.TableExamples.{whole};
ghost use Rattle.worked_tables.specs.HistoryTables.{none_worn};
ghost use Rattle.worked_tables.specs.HistoryExamples.{small};
ghost use Rattle.right_runs.specs.Ends.{is_kept_line, is_still_there};
ghost use Rattle.right_runs.specs.Roles.{used_spares};
ghost use Rattle.worked_tables.specs.Ends.{half_queue, half_stored_rows, slot_3_has, stored_rows, worn_3};

/// Of a line of a finished bank every byte is the newest one, once the queue's are laid over; of others it isn't.
pub fn worked_lines_are_kept()
    ensures kept { is_kept_line stored_rows [] 3 (whole 0x11) ≡ true }
    ensures other { is_kept_line stored_rows [] 3 (0x11 ∷ 0x22 ∷ []) ≡ false }
    ensures unwritten { is_kept_line stored_rows [] 2 (whole 0x11) ≡ false }
    ensures queued_byte { is_kept_line half_stored_rows (half_queue false) 3 (0x77 ∷ 0x11 ∷ [])
        ≡ true }
    ensures stored_byte { is_kept_line half_stored_rows (half_queue false) 3 (0xee ∷ 0x22 ∷ [])
        ≡ false }
    ensures begun { is_kept_line half_stored_rows (half_queue true) 3 (0x77 ∷ 0x22 ∷ []) ≡ true }
    ensures lost { is_kept_line half_stored_rows [] 3 (whole 0x11) ≡ false }
    ensures another { is_kept_line half_stored_rows (half_queue false) 2 (whole 0x11) ≡ false }
{}

/// The slot of a stored row has the row's place in the end, or a later spare where that place is worn.
pub fn worked_rows_are_still_there()
    ensures same { each_row (is_still_there small none_worn (slot_3_has 3)) stored_rows [] ≡ true }
    ensures spare { each_row (is_still_there small worn_3 (slot_3_has 6)) stored_rows [] ≡ true }
    ensures unworn { each_row (is_still_there small none_worn (slot_3_has 6)) stored_rows []
        ≡ false }
    ensures no_spare { each_row (is_still_there small worn_3 (slot_3_has 4)) stored_rows []
        ≡ false }
    ensures none_used { used_spares small (slot_3_has 3) ≡ 0 }
    ensures two_used { used_spares small (slot_3_has 6) ≡ 2 }
{}
