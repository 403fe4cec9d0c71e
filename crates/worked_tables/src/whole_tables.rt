//! What worked tables show of the laws. Each clause is computed from the definitions; there is nothing to run.
ghost use Rattle.std.specs.Prelude.{◌≡◌, [], true, false};
ghost use Rattle.bank_shape.specs.declared.pace.Policy.TheVariants.{Pause};
ghost use Rattle.row_rules.specs.Rows.{each_row};
ghost use Rattle.worked_tables.specs.HistoryExamples.{pace};
ghost use Rattle.right_runs.specs.Banks.{rules_of};
ghost use Rattle.right_runs.specs.WornLines.{is_wear_true, is_taken, worn_among};
ghost use Rattle.right_runs.specs.KeepsPlaces.{most_pulses};
ghost use Rattle.worked_tables.specs.HistoryTables.{none_worn};
ghost use Rattle.worked_tables.specs.Ends.{worn_3};
ghost use Rattle.worked_tables.specs.WholeTables.{found, without_spares, worn_out};

/// The second and the fourth row each find one write in the queue.
pub fn a_queue_of_one_write_is_full()
    ensures second { found 0 1 ≡ 1 }
    ensures fourth { found 6 3 ≡ 1 }
{}

/// One worn line and no spare are what a worn and a queued row tell of; over lines of which none is worn they are refused.
pub fn a_worn_row_tells_of_a_worn_line()
    ensures one { worn_among worn_3 0 5 ≡ 1 }
    ensures fair { each_row (is_wear_true without_spares worn_3) worn_out [] ≡ true }
    ensures untrue { each_row (is_wear_true without_spares none_worn) worn_out [] ≡ false }
    ensures left { each_row (is_taken (rules_of 1 without_spares (pace Pause)) without_spares
        worn_3) worn_out [] ≡ true }
    ensures refused { each_row (is_taken (rules_of 1 without_spares (pace Pause)) without_spares
        none_worn) worn_out [] ≡ false }
    ensures pulses { most_pulses (rules_of 1 without_spares (pace Pause)) worn_out ≡ 40 }
{}
