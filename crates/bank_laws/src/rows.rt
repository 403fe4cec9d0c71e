//! What holds of the table of rows that a lawful history leaves, once the bank has no work.

ghost use Rattle.bank_laws.specs.RowLaws.{MergeLaw, QueueLaw, ServedLaw, WaitLaw, WearLaw};

/// Each row has an outcome of its own operation, and each read that is answered has the newest bytes of its line.
pub fn reads_are_served()
    ensures { ServedLaw }
{}

/// Behind a write that was refused since a worn line found no spare every write of the bank is, and none is stored at its
/// tick or later; and before it some write was accepted.
pub fn wearing_out_is_final()
    ensures { WearLaw }
{}

/// A write that is merged has an accepted write of its line behind it, and carries the tick of the next such one.
pub fn merges_are_with_the_next()
    ensures { MergeLaw }
{}

/// At each row no more reads wait than may. A read that isn't forwarded is busy exactly where as many wait, and else it is
/// read or lost.
pub fn few_reads_wait()
    ensures { WaitLaw }
{}

/// At each row the queue holds no more writes than it may, and a write that is refused as full finds exactly as many.
pub fn few_writes_stand()
    ensures { QueueLaw }
{}
