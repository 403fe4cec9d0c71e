//! The laws of the places of a bank and of its wear: what the rows of a lawful history say of where its lines stood, of how
//! many are worn, and of how often they were pulsed. A law is what a function here ensures; the functions do nothing when
//! they run.
#![tactic(auto)]

ghost use Rattle.std.specs.Prelude.{ℕ};
ghost use Rattle.bank_laws.specs.Laws.{PlaceLaw};
ghost use Rattle.place_laws.specs.GapMoves.{FullTurnLaw, GapMovesLaw};
ghost use Rattle.place_laws.specs.PlaceLaws.{MovedLaw, PlacedLaw, PulsesLaw, TakenLaw, WornLaw};

/// Each row carries the array line where its line stood at its tick, by the closed form of the rotation at the moves that
/// the stores so far give; or a spare, where that line is worn in the end.
pub fn rows_are_placed()
    ensures { PlacedLaw }
{}

/// Where a write was refused since a worn line found no spare, or stands in the queue in the end, more lines of the bank are
/// worn than it has spares.
pub fn worn_rows_tell_of_worn_lines()
    ensures { WornLaw }
{}

/// In a bank that is not worn out a write that finds room in the queue is accepted, and leaves the queue again.
pub fn room_is_taken()
    ensures { TakenLaw }
{}

/// All pulses of a bank's lines together are at most those that a line write may take, for each of two line writes a store,
/// each spare, one more, and each cut; and five times as many where reads cancel line writes.
pub fn pulses_are_few()
    ensures { PulsesLaw }
{}

/// In the end each region's gap has moved once for each so many of its stores; or once less, where one more move is due and
/// the bank was worn out before it.
pub fn gaps_move_with_stores()
    ensures { MovedLaw }
{}

/// Each gap move of a region is the one that the closed form of the rotation gives for the number of the region's moves before
/// it: the same line, from the same place into the same place.
pub fn gap_moves_are_those_of_the_rotation()
    ensures { GapMovesLaw }
{}

/// Any n*(n+1) successive gap moves of a region of n lines copy each of its lines into each of its n+1 places exactly once, with
/// cuts, retirements and other regions' moves between them or not.
pub fn full_turns_copy_each_line_into_each_place_once()
    ensures { FullTurnLaw }
{}

/// The law of the places and of wear: the first four of these together.
pub fn places_keep_their_law()
    ensures { (n : ℕ) (m : ℕ) → PlaceLaw n m }
{}
