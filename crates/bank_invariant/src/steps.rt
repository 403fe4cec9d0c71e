//! The law of each event that leaves the queue, the registers and the array as they are.

ghost use Rattle.bank_invariant.specs.Steps.{ForwardedLaw, BusyLaw, CutLaw};

/// A read that is forwarded from the queue keeps the invariant.
pub fn forwarded_reads_keep_it()
    ensures { ForwardedLaw }
{}

/// A read that is refused, since as many wait as may, keeps the invariant.
pub fn busy_reads_keep_it()
    ensures { BusyLaw }
{}

/// A cut that comes in no pulse keeps the invariant, for the bank that it leaves.
pub fn cuts_between_pulses_keep_it()
    ensures { CutLaw }
{}
