//! Worked bounds, and wrong statements that a table refutes. Each clause is computed from the definitions; there is nothing to
//! run.

ghost use Rattle.std.specs.Prelude.{◌≡◌, ◌+◌, ◌*◌, ◌/◌, true, []};
ghost use Rattle.row_rules.specs.Rows.{each_row};
ghost use Rattle.row_rules.specs.Answers.{is_stored};
ghost use Rattle.row_rules.specs.Ticking.{is_in_time};
ghost use Rattle.worked_tables.specs.TableExamples.{small};
ghost use Rattle.bank_shape.specs.declared.pace.Policy.TheVariants.{Pause, Cancel};
ghost use Rattle.right_runs.specs.Places.{is_placed, region_stores};
ghost use Rattle.worked_tables.specs.HistoryTables.{none_worn};
ghost use Rattle.lifetime_laws.specs.Spread.{most_at, stores_on};
ghost use Rattle.right_runs.specs.LineWrites.{most_moves, stores_at, most_each, most_kept};
ghost use Rattle.lifetime_laws.specs.Lifetime.{most_hot_works, most_asked_works, BearsControls, BearsWorks};
ghost use Rattle.worked_tables.specs.Lifetimes.{two_in_array, two_lines, storing, always, waiting_for_slot_0, stores_of, sixteen_regions, one_hot_line_each, its_first, all_first, enduring, most_promised, most_promised_in_array};

/// Sixteen lines, a gap move for each ten stores: of 20,000 and of 50,000 stores of one line at most 1,280 and 3,040 are on one
/// array line, and 118 and 295 moves go into one place. Without moves all 50,000 are.
pub fn worked_bounds_are_computed()
    ensures twenty { most_at 16 10 20000 ≡ 1280 }
    ensures fifty { most_at 16 10 50000 ≡ 3040 }
    ensures moves { most_moves 16 2000 ≡ 118 }
    ensures more_moves { most_moves 16 5000 ≡ 295 }
    ensures unmoved { most_at 16 65535 50000 ≡ 50000 }
    ensures slower { most_at 16 100 50000 ≡ 3200 }
{}

/// A table of 24 stores of line 0 alone meets the bound.
pub fn worked_table_meets_the_bound()
    ensures in_time { each_row (is_in_time (small Pause)) (storing always 24) [] ≡ true }
    ensures placed { each_row (is_placed two_lines none_worn) (storing always 24) [] ≡ true }
    ensures most { most_at 2 1 24 ≡ 8 }
    ensures on { stores_on 0 0 (storing always 24) ≡ 8 }
{}

/// Line 0 is stored while it is at slot 0, and else line 1: the table is placed and in time, and all 8 stores of line 0 are on one
/// array line, and 16 of all 24. So the bound is by the region's stores, and not by those of the line; and it is a bound for each
/// line, and not for all lines together.
pub fn worked_table_refutes_stronger_bounds()
    ensures in_time { each_row (is_in_time (small Pause)) (storing waiting_for_slot_0 24) []
        ≡ true }
    ensures placed { each_row (is_placed two_lines none_worn) (storing waiting_for_slot_0 24) []
        ≡ true }
    ensures own { stores_of 0 (storing waiting_for_slot_0 24) ≡ 8 }
    ensures own_on { stores_on 0 0 (storing waiting_for_slot_0 24) ≡ 8 }
    ensures by_the_line { most_at 2 1 8 ≡ 4 }
    ensures even_by_the_line { 8 / (2 + 1) + 2 * 1 ≡ 4 }
    ensures all { region_stores is_stored two_lines 0 (storing waiting_for_slot_0 24) ≡ 24 }
    ensures all_on { stores_at 0 (storing waiting_for_slot_0 24) ≡ 16 }
{}

/// Sixteen regions of four lines, a gap move after each store, 1,000 stores of one line of each region: by each region's own hot line its
/// bound is 401, so cells that endure 402 changes bear them. By the hot lines of all regions in each it would be 3,401, and by none 1,201.
pub fn hot_lines_count_in_their_own_region()
    ensures in_time { each_row (is_in_time (small Pause)) (one_hot_line_each 48) [] ≡ true }
    ensures placed { each_row (is_placed sixteen_regions none_worn) (one_hot_line_each 48) []
        ≡ true }
    ensures own { most_hot_works sixteen_regions 0 (its_first 0) (one_hot_line_each 16000) ≡ 401 }
    ensures asked { most_asked_works sixteen_regions 0 (its_first 0) (one_hot_line_each 16000)
        ≡ 401 }
    ensures all { most_hot_works sixteen_regions 0 (all_first 16) (one_hot_line_each 16000) ≡ 3401 }
    ensures none { most_hot_works sixteen_regions 0 [] (one_hot_line_each 16000) ≡ 1201 }
    ensures bears { BearsWorks (enduring 402) sixteen_regions (small Pause)
        (one_hot_line_each 16000) its_first }
{}

/// How many stores of hot lines are promised, as `examples/studies/promise` prints it: of one line of a region of 64 over cells of
/// 100,000,000 changes, with a gap move for each hundred stores, for each one, and so seldom that none comes, and under the policy
/// cancel; of one line of 16 beside 8 stores of others, as in the study of lifetimes; of three lines of 16 through ten power cuts; and
/// with registers in the array.
pub fn promises_are_computed()
    ensures default { most_promised Pause 64 100 1 100000000 0 0 6435521917 ≡ true }
    ensures often { most_promised Pause 64 1 1 100000000 0 0 3249999870 ≡ true }
    ensures never { most_promised Pause 64 4000000000 1 100000000 0 0 99999998 ≡ true }
    ensures cancelled { most_promised Cancel 64 100 1 100000000 0 0 1287104381 ≡ true }
    ensures study { most_promised Pause 16 1 1 20000 8 0 169822 ≡ true }
    ensures study_4 { most_promised Pause 16 4 1 20000 8 0 271315 ≡ true }
    ensures cuts { most_promised Pause 16 4 3 20000 8 10 104443 ≡ true }
    ensures in_array { most_promised_in_array Pause 64 64 1 1000000 0 0 984615 ≡ true }
    ensures in_array_cancelled { most_promised_in_array Cancel 4 4 1 1000 0 3 157 ≡ true }
{}

/// Two lines with registers in the array, a gap move after each of 24 stores: the region's control line takes at most 48 line writes,
/// and the mark's one, so cells that endure 49 changes bear them. Of pulses they might take 7,680.
pub fn control_lines_count_by_changes()
    ensures region { most_kept two_in_array (storing always 24) 0 ≡ 48 }
    ensures mark { most_kept two_in_array (storing always 24) 1 ≡ 1 }
    ensures pulses { most_each (small Pause) * most_kept two_in_array (storing always 24) 0 ≡ 7680 }
    ensures bears { BearsControls (enduring 49) two_in_array (small Pause) (storing always 24) }
{}
