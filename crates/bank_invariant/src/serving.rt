//! The laws of reads that wait: one begins to, or the first is served.

ghost use Rattle.bank_invariant.specs.Serving.{MayReadLaw, WaitingLaw, SensedLaw, MayServeLaw, ServedLaw};

/// What a read is answered from the queue and the number of waiting reads is what it may be answered.
pub fn reads_may_be_answered_so()
    ensures { MayReadLaw }
{}

/// A read that begins to wait keeps the invariant.
pub fn waiting_reads_keep_it()
    ensures { WaitingLaw }
{}

/// An array of which each line is as it was keeps the invariant.
pub fn senses_keep_it()
    ensures { SensedLaw }
{}

/// What the first waiting read is answered from queue and array is what it may be answered.
pub fn serves_may_answer_so()
    ensures { MayServeLaw }
{}

/// A serve keeps the invariant.
pub fn serves_keep_it()
    ensures { ServedLaw }
{}
