//! Worked histories are lawful, and altered ones are not. Each clause is computed from the definitions; there is nothing to
//! run.

ghost use Rattle.std.specs.Prelude.{◌≡◌, [], ◌∷◌, map, reverse};
ghost use Rattle.bank_shape.specs.declared.pace.Policy.TheVariants.{Pause, Plain, Cancel};
ghost use Rattle.bank_model.specs.Lawful.{Lawful, IsIdle};
ghost use Rattle.worked_tables.specs.HistoryExamples.{small, moving, pace, whole, paused, not_paused, cancelled, two_entries, dropped_begin, copied_as, in_array, kept_done, kept_torn, kept_halted, bank_torn, kept_cancelled};
ghost use Rattle.worked_tables.specs.AlteredHistories as altered;

/// Histories of stores, reads, cuts and moves are lawful, under each policy.
pub fn worked_histories_are_lawful()
    ensures paused { Lawful small (pace Pause) 1 paused }
    ensures not_paused { Lawful small (pace Plain) 1 not_paused }
    ensures cancelled { Lawful small (pace Cancel) 1 cancelled }
    ensures two_entries { Lawful small (pace Pause) 1 two_entries }
    ensures dropped_begin { Lawful small (pace Plain) 1 dropped_begin }
    ensures copied { Lawful (moving 1) (pace Pause) 1 (copied_as (whole 0x11)) }
{}

/// So are those of changes that are written, torn, halted and cancelled.
pub fn histories_with_registers_in_the_array_are_lawful()
    ensures done { Lawful in_array (pace Pause) 1 kept_done }
    ensures torn { Lawful in_array (pace Pause) 1 kept_torn }
    ensures halted { Lawful in_array (pace Plain) 1 kept_halted }
    ensures bank_torn { Lawful in_array (pace Pause) 1 bank_torn }
    ensures cancelled { Lawful in_array (pace Cancel) 1 kept_cancelled }
{}

/// The banks of these have nothing left to do.
pub fn histories_with_registers_in_the_array_leave_no_work()
    ensures done { IsIdle in_array (pace Pause) kept_done }
    ensures halted { IsIdle in_array (pace Plain) kept_halted }
    ensures cancelled { IsIdle in_array (pace Cancel) kept_cancelled }
{}

/// What control lines may not do: each history breaks one rule.
pub fn other_histories_of_control_lines_are_not_lawful()
    ensures begins { Lawful in_array (pace Pause) 1 altered.begins_with_a_change → ⊥ }
    ensures unread { Lawful in_array (pace Pause) 1 altered.cuts_unread → ⊥ }
    ensures unpulsed { Lawful in_array (pace Pause) 1 altered.cuts_unpulsed → ⊥ }
    ensures on_halted { Lawful in_array (pace Pause) 1 altered.keeps_on_halted → ⊥ }
    ensures another { Lawful in_array (pace Pause) 1 altered.keeps_another → ⊥ }
{}

/// The banks of the worked histories have nothing left to do.
pub fn worked_histories_leave_no_work()
    ensures paused { IsIdle small (pace Pause) paused }
    ensures not_paused { IsIdle small (pace Plain) not_paused }
    ensures cancelled { IsIdle small (pace Cancel) cancelled }
    ensures two_entries { IsIdle small (pace Pause) two_entries }
    ensures dropped_begin { IsIdle small (pace Plain) dropped_begin }
    ensures copied { IsIdle (moving 1) (pace Pause) (copied_as (whole 0x11)) }
{}

/// Actions at other ticks, or in another order.
pub fn other_times_are_not_lawful()
    ensures iterates_too_long { Lawful small (pace Pause) 1 altered.iterates_too_long → ⊥ }
    ensures iterates_again { Lawful small (pace Pause) 1 altered.iterates_again → ⊥ }
    ensures serves_between { Lawful small (pace Plain) 1 altered.serves_between → ⊥ }
    ensures begins_though_dropped { Lawful small (pace Pause) 1 altered.begins_though_dropped → ⊥ }
    ensures arrives_before_the_last { Lawful small (pace Pause) 1 altered.arrives_before_the_last
        → ⊥ }
{}

/// Cuts that tear what doesn't run, or nothing, and cancels without a read.
pub fn other_cuts_are_not_lawful()
    ensures cuts_without_a_tear { Lawful small (pace Pause) 1 altered.cuts_without_a_tear → ⊥ }
    ensures tears_a_begin { Lawful small (pace Pause) 1 altered.tears_a_begin → ⊥ }
    ensures read_without_its_cancel { Lawful small (pace Cancel) 1 (paused) → ⊥ }
    ensures cancels_without_its_read { Lawful small (pace Cancel) 1 altered.cancels_without_its_read
        → ⊥ }
{}

/// Answers that the queue and the spares don't allow.
pub fn other_answers_are_not_lawful()
    ensures merges_into_the_busy_head { Lawful small (pace Pause) 1
        altered.merges_into_the_busy_head → ⊥ }
    ensures refuses_with_room { Lawful small (pace Pause) 1 altered.refuses_with_room → ⊥ }
    ensures waits_though_queued { Lawful small (pace Pause) 1 altered.waits_though_queued → ⊥ }
    ensures forwards_other_bytes { Lawful small (pace Pause) 1 altered.forwards_other_bytes → ⊥ }
    ensures repeats_a_row { Lawful small (pace Pause) 1 altered.repeats_a_row → ⊥ }
    ensures stores_another_row { Lawful small (pace Pause) 1 altered.stores_another_row → ⊥ }
    ensures exhausts_with_spares { Lawful small (pace Pause) 1 altered.exhausts_with_spares → ⊥ }
{}

/// Senses and pulses of other lines, or of other bytes.
pub fn other_senses_are_not_lawful()
    ensures stores_other_bytes { Lawful small (pace Pause) 1 altered.stores_other_bytes → ⊥ }
    ensures serves_what_was_not_sensed { Lawful small (pace Pause) 1
        altered.serves_what_was_not_sensed → ⊥ }
    ensures senses_another_line { Lawful small (pace Pause) 1 altered.senses_another_line → ⊥ }
    ensures pulses_twice { Lawful small (pace Pause) 1 altered.pulses_twice → ⊥ }
    ensures pulses_another_line { Lawful small (pace Pause) 1 altered.pulses_another_line → ⊥ }
    ensures copies_other_bytes { Lawful (moving 1) (pace Pause) 1 (copied_as (0x10 ∷ 0x11 ∷ []))
        → ⊥ }
{}
