//! Which clause of a rule a row breaks, and by which rows.
#![tactic(auto)]

ghost use Rattle.clause_telling.specs.ByFinds.{ReadClauseLaw, WriteClauseLaw, CutClauseLaw};
ghost use Rattle.clause_telling.specs.Rooms.{RoomLaw};

pub mod clause;
pub mod counts;
pub mod others;
pub mod room;

/// Where a read, a write or a cut breaks a rule, what it finds tells the first clause of the rule that it breaks.
pub fn first_clauses_are_told()
    ensures read { ReadClauseLaw }
    ensures write { WriteClauseLaw }
    ensures cut { CutClauseLaw }
{}

/// Where each row before a row found room, the bank of the last of them tells whether it finds room in all.
pub fn room_is_told()
    ensures { RoomLaw }
{}
