//! The laws of a bank's write queue and of its waiting reads: what the rows of a lawful history's table show of them. A law
//! is what a function here ensures; the functions do nothing when they run.
#![tactic(auto)]

ghost use Rattle.std.specs.Prelude.{ℕ};
ghost use Rattle.bank_laws.specs.Room.{RoomLaw};
ghost use Rattle.queue_laws.specs.EntryLaws.{EntryBytesLaw, EntryLineLaw, LastWriteLaw};
ghost use Rattle.queue_laws.specs.QueueLaws.{ForwardLaw, PairsFewLaw, QueueFairLaw, RefusalLaw};

/// At each row at most two writes of one line stand in the queue, and two only where the older one came at an earlier tick, is
/// never merged, and no other is stored before it.
pub fn few_writes_share_a_line()
    ensures { PairsFewLaw }
{}

/// A write that is refused as full finds no write of its own line in the queue, or exactly one, which came at an earlier tick;
/// no other is stored before that one leaves the queue.
pub fn refused_writes_find_at_most_one()
    ensures { RefusalLaw }
{}

/// At any tick between two of its events a bank holds no more writes and waiting reads than it may, and at most two writes of
/// one line.
pub fn banks_have_room()
    ensures { (n m : ℕ) → RoomLaw n m }
{}

/// A read is forwarded where the accepted writes of its line that are not stored give all its bytes, and otherwise only where
/// an entry of its line is at the head of the queue. A read that isn't forwarded is busy exactly where as many reads wait as
/// may, and else it is read or lost.
pub fn reads_are_forwarded_exactly()
    ensures { ForwardLaw }
{}

/// Each row finds a bank that holds no more than it may, and its own answer is the one that follows from what it finds.
pub fn rows_are_fair_to_the_queue()
    ensures { QueueFairLaw }
{}

/// An entry of the queue has the line of its own write, which was accepted or merged.
pub fn entries_have_the_lines_of_their_writes()
    ensures { EntryLineLaw }
{}

/// An entry gives exactly the bytes that its own write and those before it in its entry give, the later laid over the earlier. The
/// head alone gives every byte once a store of it was begun, and still theirs where they give one.
pub fn entries_give_what_their_writes_give()
    ensures { EntryBytesLaw }
{}

/// The newest entry of a line has as its own write the line's last one that was accepted or merged.
pub fn newest_entries_are_of_last_writes()
    ensures { LastWriteLaw }
{}
