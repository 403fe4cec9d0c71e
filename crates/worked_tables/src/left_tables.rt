//! The worked histories leave the worked tables, and these keep every law. Each clause is computed from the definitions;
//! there is nothing to run.

ghost use Rattle.std.specs.Prelude.{◌≡◌, None, [], true, false};
ghost use Rattle.bank_shape.specs.declared.pace.Policy.TheVariants.{Pause, Plain, Cancel};
ghost use Rattle.row_rules.specs.Rows.{each_row};
ghost use Rattle.worked_tables.specs.Faults.{first_fault};
ghost use Rattle.bank_model.specs.Adding.{senses_of};
ghost use Rattle.worked_tables.specs.HistoryExamples.{small, pace, paused, not_paused, cancelled, two_entries, dropped_begin};
ghost use Rattle.right_runs.specs.Banks.{rules_of};
ghost use Rattle.right_runs.specs.Logs.{has_sense, is_line_fair};
ghost use Rattle.bank_laws.specs.Outcomes.{table_of};
ghost use Rattle.right_runs.specs.Places.{is_placed};
ghost use Rattle.right_runs.specs.WornLines.{is_taken};
ghost use Rattle.worked_tables.specs.HistoryTables.{table, paused_rows, not_paused_rows, cancelled_rows, two_entries_rows, dropped_begin_rows, plain_bytes, none_worn, read_elsewhere, left_undone};

/// Each worked history leaves the table that was worked out by hand.
pub fn worked_histories_leave_worked_tables()
    ensures paused { table paused ≡ paused_rows }
    ensures not_paused { table not_paused ≡ not_paused_rows }
    ensures cancelled { table cancelled ≡ cancelled_rows }
    ensures two_entries { table two_entries ≡ two_entries_rows }
    ensures dropped_begin { table dropped_begin ≡ dropped_begin_rows }
{}

/// No row of these breaks a law.
pub fn worked_tables_keep_the_laws_of_their_bank()
    ensures paused { first_fault (rules_of 1 small (pace Pause)) paused_rows ≡ None }
    ensures not_paused { first_fault (rules_of 1 small (pace Plain)) not_paused_rows ≡ None }
    ensures cancelled { first_fault (rules_of 1 small (pace Cancel)) cancelled_rows ≡ None }
    ensures two_entries { first_fault (rules_of 1 small (pace Pause)) two_entries_rows ≡ None }
    ensures dropped_begin { first_fault (rules_of 1 small (pace Plain)) dropped_begin_rows ≡ None }
{}

/// Places are those of the rotation; a row elsewhere, or left undone, is found.
pub fn worked_rows_are_placed()
    ensures paused { each_row (is_placed small none_worn) (table_of small paused) [] ≡ true }
    ensures two_entries { each_row (is_placed small none_worn) (table_of small two_entries) []
        ≡ true }
    ensures elsewhere { each_row (is_placed small none_worn) read_elsewhere [] ≡ false }
    ensures taken { each_row (is_taken (rules_of 1 small (pace Pause)) small none_worn)
        (table_of small paused) [] ≡ true }
    ensures not_taken { each_row (is_taken (rules_of 1 small (pace Pause)) small none_worn)
        left_undone [] ≡ false }
{}

/// Each answered row has its sense, and each pulse of a line is seen.
pub fn worked_rows_have_their_senses()
    ensures paused { each_row (has_sense plain_bytes (senses_of paused)) (table_of small paused) []
        ≡ true }
    ensures dropped_begin { each_row (has_sense plain_bytes (senses_of dropped_begin))
        (table_of small dropped_begin) [] ≡ true }
    ensures unsensed { each_row (has_sense plain_bytes []) (table_of small paused) [] ≡ false }
    ensures fair { is_line_fair (rules_of 1 small (pace Pause)) (table_of small paused)
        (senses_of paused) true 3 2 ≡ true }
    ensures unseen_pulse { is_line_fair (rules_of 1 small (pace Pause)) (table_of small paused)
        (senses_of paused) true 3 3 ≡ false }
{}
