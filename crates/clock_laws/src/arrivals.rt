//! The laws of a write or a read that arrives, and of a power cut.

ghost use Rattle.clock_laws.specs.Arriving.{WriteLaw, ReadLaw};
ghost use Rattle.clock_laws.specs.Cutting.{PowerCutLaw, CancelLaw, KeepCancelLaw, CancelledReadLaw};
ghost use Rattle.clock_laws.specs.Fitting.{FitWriteLaw, FitReadLaw};
ghost use Rattle.clock_laws.specs.Newest.{EntryLaw};

/// A write that arrives extends the history by its event.
pub fn writes_arrive()
    ensures { WriteLaw }
{}

/// A read that arrives and doesn't cancel extends the history by its event.
pub fn reads_arrive()
    ensures { ReadLaw }
{}

/// A power cut, which tears exactly where an iteration runs, extends the history by its event.
pub fn power_is_cut()
    ensures { PowerCutLaw }
{}

/// An action still has what it needs after a write that the queue takes.
pub fn actions_fit_after_writes()
    ensures { FitWriteLaw }
{}

/// An action that a read doesn't drop still has what it needs.
pub fn actions_fit_after_reads()
    ensures { FitReadLaw }
{}

/// Each entry of a queue gives the newest bytes of its line as of its own write.
pub fn entries_give_the_newest()
    ensures { EntryLaw }
{}

/// A cancel extends the history by its event; its read is still to come.
pub fn reads_cancel()
    ensures { CancelLaw }
{}

/// So does a cancel of the writing of the change that stands.
pub fn reads_cancel_the_writing_of_changes()
    ensures { KeepCancelLaw }
{}

/// The read behind its cancel makes the history whole.
pub fn cancelled_reads_arrive()
    ensures { CancelledReadLaw }
{}
