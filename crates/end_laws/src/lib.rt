//! The law of the end: a bank with nothing left to do has kept each line's newest bytes, in the array and in its queue. A law
//! is what a function here ensures; the functions do nothing when they run.
#![tactic(auto)]

ghost use Rattle.end_laws.specs.EndLaws.{EndLaw, GapsLaw, KeptLaw, QueueLaw, RemappedLaw, StandsLaw, StillThereLaw, StoredBytesLaw};
ghost use Rattle.end_laws.specs.Roles.{RoleLaw, UsedLaw};

/// Each slot of a bank has an array line of its own: the one of its number, or a spare where that one is worn.
pub fn slots_have_their_lines()
    ensures { RemappedLaw }
{}

/// By its own registers each region has moved once for so many of its stores; or once less, where one more move is due and
/// the bank was worn out before it.
pub fn registers_follow_stores()
    ensures { GapsLaw }
{}

/// What the table's array line of a line is read as, with what the queue gives of the line laid over, are its newest bytes.
pub fn lines_are_kept()
    ensures { KeptLaw }
{}

/// A byte of a line that no write gives that was not stored stands in the array, but where the head of the queue gives every byte
/// of that line: a store of it may have been broken off.
pub fn stored_bytes_are_in_the_array()
    ensures { StoredBytesLaw }
{}

/// The bytes of a line that the queue's entries give, as one layer over what the table's array line of it is read as, are its newest.
pub fn queue_and_array_give_the_newest()
    ensures { StandsLaw }
{}

/// By the rows the queue has an entry for each write that is queued, in their order, and what each gives.
pub fn queues_follow_rows()
    ensures { QueueLaw }
{}

/// Where a stored row says that its line was stored, the line's slot of then is still; or it has a later spare since, and
/// that place is worn.
pub fn stored_rows_are_still_there()
    ensures { StillThereLaw }
{}

/// Each line's newest accepted bytes stand where the bank's own registers and remap table say, with those of its queue laid over.
pub fn newest_bytes_are_kept()
    ensures { EndLaw }
{}

/// By the end of a bank each of its array lines is used for one thing: a line, a gap, a spare that isn't used, one that was
/// retired, or a control line.
pub fn lines_have_one_role()
    ensures { RoleLaw }
{}

/// The used spares are those that were given to slots, though some are retired since.
pub fn used_spares_were_given()
    ensures { UsedLaw }
{}
