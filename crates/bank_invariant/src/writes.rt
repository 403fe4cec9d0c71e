//! The law of each answer to a write.

ghost use Rattle.bank_invariant.specs.Writes.{FullLaw, ExhaustedWriteLaw, AcceptedWriteLaw, MergedWriteLaw};
ghost use Rattle.bank_invariant.specs.WriteAnswers.{WriteAnswerLaw, RefusalLaw};

/// A write that is refused, since the queue is full, keeps the invariant.
pub fn full_writes_keep_it()
    ensures { FullLaw }
{}

/// A write that is refused, since a worn line had found no spare, keeps the invariant.
pub fn exhausted_writes_keep_it()
    ensures { ExhaustedWriteLaw }
{}

/// A write that is accepted keeps the invariant: its entry stands behind the others.
pub fn accepted_writes_keep_it()
    ensures { AcceptedWriteLaw }
{}

/// A write that is merged keeps the invariant: it lies over the queue's newest entry of its line.
pub fn merged_writes_keep_it()
    ensures { MergedWriteLaw }
{}

/// A bank that takes writes answers one as its history says.
pub fn writes_are_answered_by_the_queue()
    ensures { WriteAnswerLaw }
{}

/// A bank that takes no more writes says so.
pub fn exhausted_banks_refuse_writes()
    ensures { RefusalLaw }
{}
