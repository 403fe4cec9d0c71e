//! What is told of a row that breaks a rule: which clauses of the rule it breaks, what would have been right, and by which rows.
//! Its definitions are those of the rules (row_rules) and of the verdict (check_verdict); nothing that a checker keeps is needed.
#![tactic(auto)]

ghost use Rattle.check_telling.specs.Clauses.{ClauseLaw};
ghost use Rattle.check_telling.specs.Givers.{GiverLaw};
ghost use Rattle.check_telling.specs.Right.{RightReadLaw};
ghost use Rattle.check_telling.specs.RightWrites.{RightWriteLaw, RightCutLaw};

pub mod facts;
pub mod grounds;
pub mod mates;
pub mod newest;
pub mod reads;
pub mod standing;
pub mod times;
pub mod writes;

/// A clause of a rule: what a row may break by itself.
#[derive(Clone, Copy, PartialEq)]
pub enum Clause {
    /// A row has an outcome of its own operation.
    OfItsOperation,
    /// What is decided at a row's arrival, or never, carries the row's own tick.
    AtItsTick,
    /// A read that is answered has its line's newest bytes, of writes accepted before it.
    NewestBytes,
    /// As a row comes no bank holds more writes, or has more reads waiting, than it may, and two writes of a line stand in a queue
    /// only where the older one is in flight.
    Room,
    /// A write is refused as full only where its bank's queue is full.
    FullWhereFull,
    /// It is so only where it finds no write of its line to merge with.
    FullWhereAlone,
    /// A merged write carries the tick of the next accepted write of its line.
    MergedIntoNext,
    /// A read is forwarded where the queue gives every byte of its line.
    Forwarded,
    /// It is so only there, or where its line is at the head of the queue.
    ForwardedOnly,
    /// Another read is busy where as many wait as may.
    Busy,
    /// It is so only there.
    BusyOnly,
    /// Behind a worn row each write of its bank is worn.
    WornBehindWorn,
    /// No write is stored at the tick of a worn row or later.
    StoredBeforeWorn,
    /// No row is read or stored before it can be.
    NotTooEarly,
    /// Nor behind its bound.
    NotTooLate,
    /// A read that still waits at a cut isn't read.
    ReadBeforeCut,
    /// A read is lost at the first cut behind it.
    LostAtCut,
    /// A read is lost only before its time is up.
    LostInTime,
    /// A bank does one action at a time, and serves its reads in their order.
    Apart,
}

/// A rule is kept exactly where each of its clauses holds.
pub fn clauses_tell()
    ensures { ClauseLaw }
{}

/// The answers that are right for a read are told by what it finds, and no other is.
pub fn right_reads_are_told()
    ensures { RightReadLaw }
{}

/// Each of a line's newest bytes comes from the row that is told for it.
pub fn givers_are_told()
    ensures { GiverLaw }
{}

/// So are those for a write, and for a cut.
pub fn right_writes_are_told()
    ensures write { RightWriteLaw }
    ensures cut { RightCutLaw }
{}
