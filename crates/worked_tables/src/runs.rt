//! A worked run of a small module, and altered ones that are refused. Each clause is computed from the definitions; there is
//! nothing to run.

ghost use Rattle.std.specs.Prelude.{◌≡◌, ◌∷◌, [], ℕ, List, true};
ghost use Rattle.right_runs.specs.Ends.{BankEnd};
ghost use Rattle.right_runs.specs.Runs.{EndsTo, RunsRight, StopsRight};
ghost use Rattle.right_runs.specs.Queued.{QueueEntry};
ghost use Rattle.row_rules.specs.Rows.{newest};
ghost use Rattle.right_runs.specs.Banks.{bank_of_line, line_in_bank, line_named};
ghost use Rattle.right_runs.specs.Tables.{table_in};
ghost use Rattle.worked_tables.specs.Runs.{small, reading, misplaced, first_bank, second_bank, ended, touched, forgotten, hammered, strained, unmoved, cut_short, emptied, queueing, first_byte, both_bytes, stored_so_far, unpulsed, NeverRight};

/// Which bank has line 8, under which number, and which rows each bank gets.
pub fn worked_lines_are_mixed()
    ensures bank { bank_of_line small 0 8 ≡ 1 }
    ensures own { line_in_bank small 0 8 ≡ 5 }
    ensures named { line_named small 0 1 5 ≡ 8 }
    ensures first { table_in small 0 0 (reading 0x11 0) ≡ first_bank 0 }
    ensures second { table_in small 0 1 (reading 0x11 0) ≡ second_bank 0x11 }
{}

/// A run is right; stale bytes, another place, a touched unused cell, a forgotten line, needless pulses and needless changes aren't.
pub fn worked_runs_are_judged()
    ensures right { RunsRight 1 small 0 (reading 0x11 0) ended unmoved }
    ensures stale { NeverRight (reading 0 0) }
    ensures misplaced { (ends : ℕ → BankEnd) → RunsRight 1 small 0 misplaced ended ends → ⊥ }
    ensures touched { RunsRight 1 small 0 (reading 0x11 0) touched unmoved → ⊥ }
    ensures forgotten { RunsRight 1 small 0 (reading 0x11 0) forgotten unmoved → ⊥ }
    ensures hammered { RunsRight 1 small 0 (reading 0x11 0) hammered unmoved → ⊥ }
    ensures strained { RunsRight 1 small 0 (reading 0x11 0) strained unmoved → ⊥ }
{}

/// No right run leaves a byte neither in the array nor in the queue: over an array that has lost both bytes of line 8 the queue gives
/// both, as it does once a store of its write was begun; a queue that gives the newer byte alone is refused.
pub fn lost_bytes_are_refused()
    ensures newest { newest cut_short 8 ≡ 0xee ∷ 0x11 ∷ [] }
    ensures lost { StopsRight 1 small 0 cut_short emptied (queueing first_byte) → ⊥ }
    ensures queued { (queue : List QueueEntry)
        → StopsRight 1 small 0 cut_short emptied (queueing queue) → queue ≡ both_bytes }
{}

/// Nor are they lost while more rows may come: an array of which no line was ever pulsed has the bytes of no stored line, wherever its bank says that
/// the line stands.
pub fn lost_bytes_are_refused_meanwhile()
    ensures newest { newest stored_so_far 8 ≡ 0x11 ∷ 0x11 ∷ [] }
    ensures lost { (ends : ℕ → BankEnd) → EndsTo 1 small 0 true stored_so_far unpulsed ends → ⊥ }
{}
