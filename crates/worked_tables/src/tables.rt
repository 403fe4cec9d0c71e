//! Worked tables keep every law, and altered ones break the law that they should, at the row that they should. Each clause
//! is computed from the definitions; there is nothing to run.

ghost use Rattle.std.specs.Prelude.{◌≡◌, ◌+◌, ◌*◌, None, true, false, reverse, [], ◌∷◌, nat_lt};
ghost use Rattle.bank_shape.specs.declared.pace.Policy.TheVariants.{Pause, Plain, Cancel};
ghost use Rattle.row_rules.specs.Rows.{each_row, line_of};
ghost use Rattle.worked_tables.specs.Faults.{finds_room};
ghost use Rattle.worked_tables.specs.Faults.{first_fault, Serves, Queues, Wears, Earns, Ticks};
ghost use Rattle.worked_tables.specs.TableExamples.{holding, small, narrow, one_entry, no_spare, paused, not_paused, lost_read, saved_read, two_entries, half_queued, completed_entry, cut_begin, dropped_begin, cancelled, cancelled_begin, cancelled_often};
ghost use Rattle.worked_tables.specs.AlteredTables as altered;
ghost use Rattle.worked_tables.specs.AlteredTables.{breaks};

/// Tables of whole writes.
pub fn whole_writes_keep_all_laws()
    ensures one_entry { first_fault narrow one_entry ≡ None }
    ensures no_spare { first_fault (small Pause) no_spare ≡ None }
    ensures paused { first_fault (small Pause) paused ≡ None }
    ensures not_paused { first_fault (small Plain) not_paused ≡ None }
    ensures lost_read { first_fault (small Pause) lost_read ≡ None }
    ensures saved_read { first_fault (small Pause) saved_read ≡ None }
    ensures two_entries { first_fault (small Pause) two_entries ≡ None }
{}

/// Tables of masked writes.
pub fn masked_writes_keep_all_laws()
    ensures half_queued { first_fault (small Pause) half_queued ≡ None }
    ensures completed_entry { first_fault (small Pause) completed_entry ≡ None }
    ensures cut_begin { first_fault (small Pause) cut_begin ≡ None }
    ensures dropped_begin { first_fault (small Pause) dropped_begin ≡ None }
{}

/// Tables of cancelled writes.
pub fn cancelled_writes_keep_all_laws()
    ensures cancelled { first_fault (small Cancel) cancelled ≡ None }
    ensures cancelled_begin { first_fault (small Cancel) cancelled_begin ≡ None }
    ensures cancelled_often { first_fault (small Cancel) cancelled_often ≡ None }
{}

/// Rows with an outcome, bytes or a tick that isn't theirs.
pub fn serving_is_broken()
    ensures read_of_old_bytes { first_fault (small Pause) altered.read_of_old_bytes
        ≡ breaks 3 Serves }
    ensures read_of_bytes_not_given { first_fault (small Pause) altered.read_of_bytes_not_given
        ≡ breaks 3 Serves }
    ensures read_of_refused_bytes { first_fault narrow altered.read_of_refused_bytes
        ≡ breaks 3 Serves }
    ensures forwarded_old_bytes { first_fault (small Pause) altered.forwarded_old_bytes
        ≡ breaks 3 Serves }
    ensures forwarded_later { first_fault (small Pause) altered.forwarded_later ≡ breaks 2 Serves }
    ensures write_that_is_read { first_fault (small Pause) altered.write_that_is_read
        ≡ breaks 1 Serves }
{}

/// Writes that the queue had no room for, or had.
pub fn queueing_of_writes_is_broken()
    ensures merged_into_nothing { first_fault (small Pause) altered.merged_into_nothing
        ≡ breaks 1 Queues }
    ensures merged_at_another_tick { first_fault (small Pause) altered.merged_at_another_tick
        ≡ breaks 1 Queues }
    ensures full_with_room { first_fault (small Pause) altered.full_with_room ≡ breaks 2 Queues }
    ensures refused_where_it_merges { first_fault narrow altered.refused_where_it_merges
        ≡ breaks 2 Queues }
    ensures two_in_a_queue_of_one { first_fault narrow altered.two_in_a_queue_of_one
        ≡ breaks 3 Queues }
    ensures never_merged { first_fault (small Pause) altered.never_merged ≡ breaks 3 Queues }
    ensures three_of_one_line { first_fault (small Pause) altered.three_of_one_line
        ≡ breaks 4 Queues }
    ensures in_flight_behind_another { first_fault (small Pause) altered.in_flight_behind_another
        ≡ breaks 4 Queues }
{}

/// Reads that pass by the queue, or are busy with room.
pub fn queueing_of_reads_is_broken()
    ensures read_past_the_queue { first_fault (small Pause) altered.read_past_the_queue
        ≡ breaks 2 Queues }
    ensures forwarded_in_part { first_fault (small Pause) altered.forwarded_in_part
        ≡ breaks 4 Queues }
    ensures busy_with_room { first_fault (small Pause) altered.busy_with_room ≡ breaks 1 Queues }
    ensures two_where_one_waits { first_fault (holding 4 1 Pause) altered.two_where_one_waits
        ≡ breaks 2 Queues }
{}

/// Writes of a bank that is worn out, or of one that isn't.
pub fn wearing_is_broken()
    ensures accepted_after_worn { first_fault (small Pause) altered.accepted_after_worn
        ≡ breaks 3 Wears }
    ensures stored_after_worn { first_fault (small Pause) altered.stored_after_worn
        ≡ breaks 1 Wears }
    ensures worn_without_a_write { first_fault (small Pause) altered.worn_without_a_write
        ≡ breaks 1 Earns }
{}

/// Reads that are too early or too late, and those just in time.
pub fn ticking_of_reads_is_broken()
    ensures read_too_early { first_fault (small Pause) altered.read_too_early ≡ breaks 1 Ticks }
    ensures paused_bound_is_met { first_fault (small Pause) (altered.read_at 22) ≡ None }
    ensures read_too_late { first_fault (small Pause) (altered.read_at 23) ≡ breaks 2 Ticks }
    ensures cancelling_bound_is_met { first_fault (small Cancel) (altered.read_at 12) ≡ None }
    ensures read_that_does_not_cancel { first_fault (small Cancel) (altered.read_at 13)
        ≡ breaks 2 Ticks }
    ensures read_behind_a_cut { first_fault (small Pause) altered.read_behind_a_cut
        ≡ breaks 1 Ticks }
    ensures lost_without_a_cut { first_fault (small Pause) altered.lost_without_a_cut
        ≡ breaks 1 Ticks }
    ensures lost_at_another_tick { first_fault (small Pause) altered.lost_at_another_tick
        ≡ breaks 1 Ticks }
    ensures reads_out_of_order { first_fault (small Pause) altered.reads_out_of_order
        ≡ breaks 2 Ticks }
{}

/// Stores that are too early, too late or too near, and those just in time.
pub fn ticking_of_writes_is_broken()
    ensures stored_as_it_arrives { first_fault (small Pause) (altered.stored_at 5)
        ≡ breaks 1 Ticks }
    ensures longest_time_is_met { first_fault (small Pause) (altered.stored_at (5 + 4 * 1605))
        ≡ None }
    ensures stored_too_late { first_fault (small Pause) (altered.stored_at (6 + 4 * 1605))
        ≡ breaks 1 Ticks }
    ensures stores_too_near { first_fault (small Pause) altered.stores_too_near ≡ breaks 2 Ticks }
    ensures read_as_one_is_stored { first_fault (small Pause) altered.read_as_one_is_stored
        ≡ breaks 2 Ticks }
{}

/// A bank that holds one write has lines 0 and 1. Its own rows show nothing of two writes in its queue; a row of another
/// bank does.
pub fn room_is_broken()
    ensures own_rows { first_fault narrow altered.two_writes ≡ None }
    ensures another_banks_row { each_row (finds_room (λ asks. nat_lt (line_of asks) 2) narrow)
        (reverse (altered.two_writes_and_another)) [] ≡ false }
{}
