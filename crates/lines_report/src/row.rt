// The rows of the report on array lines.
ghost use Rattle.std.specs.Prelude.{◌≡◌, ℕ, ◌+◌, ◌≤◌, List, [], ◌∷◌, ◌++◌, codes, length, Option, OnOk, OnErr};
ghost use Rattle.pcm_io.specs.Faults.{Rose};
ghost use Rattle.pcm_io.specs.Giving.{AppendsPrefix};
ghost use Rattle.pcm_io.specs.Reserved.{reserved, appended, room_in};
ghost use Rattle.bank_shape.specs.declared.Role.{Role as RoleOf};
ghost use Rattle.run_text.specs.Gathering.{Printed};
ghost use Rattle.lines_report.specs.declared.row.LineCells.{LineCells as CellsOf};
ghost use Rattle.lines_report.specs.LinesText.{changes_text, lines_header_text, lines_row_text, lines_text, stuck_text};

use bank_shape::Role;
use cell_rows::{CellWear, LineEnergy};
use energy_report::push_energy;
use pcm_io::{Sink, Text, WriteFault};
use run_text::{make_room, push_role};
use text_printer::{ROW_ROOM, TEXT_ROOM};

/// What the cells of an array line say of it.
#[derive(Clone, Copy, Drop, PartialEq, Eq)]
pub struct LineCells {
    /// The error-correcting pointers that are active.
    pub pointers: u8,
    /// How the cells are worn, where the array tells it.
    pub wear: Option<CellWear>,
    /// How often they were driven and the line was sensed, where the array tells it.
    pub energy: Option<LineEnergy>,
}

/// Begins the report in an empty text.
pub fn print_lines_header(text: &mut Text)
    requires { text.old ≡ reserved TEXT_ROOM }
    ensures after { text.new ≡ appended text.old lines_header_text }
    ensures printed { (before : Option (List ℕ)) (cells : ℕ → CellsOf)
        → Printed before before text.new (lines_text cells []) }
{
    text.push(b"array,bank,pulses,role,pointers,stuck,changes,senses,set,reset\n");
}

// Two fields, which are both empty where the array doesn't tell them.
#[tactic(auto, using(pcm_io::proofs::DigitLemmas::ten_digits))]
fn push_wear(wear: Option<CellWear>, text: &mut Text)
    requires { 21 ≤ room_in text.old }
    ensures after { text.new ≡ appended text.old (stuck_text wear ++ codes ","
        ++ changes_text wear) }
    ensures room { room_in text.old ≤ room_in text.new + 21 }
{
    match wear {
        Some(wear) => {
            text.push_number_then(wear.stuck as u64, b",");
            text.push_number(wear.changes as u64);
        }
        None => text.push(b","),
    }
}

/// Appends the row of an array line. Pulses count those that were torn, too.
#[tactic(auto, using(pcm_io::proofs::DigitLemmas::ten_digits, pcm_io::proofs::DigitLemmas::twenty_digits))]
pub fn push_row(
    array_line: u32,
    bank: u32,
    pulses: u64,
    role: Role,
    cells: LineCells,
    text: &mut Text,
)
    requires { 160 ≤ room_in text.old }
    ensures { text.new ≡ appended text.old (lines_row_text array_line bank pulses role cells) }
{
    text.push_number_then(array_line as u64, b",");
    text.push_number_then(bank as u64, b",");
    text.push_number_then(pulses, b",");
    push_role(role, text);
    text.push(b",");
    text.push_number_then(cells.pointers as u64, b",");
    push_wear(cells.wear, text);
    text.push(b",");
    push_energy(cells.energy, text);
    text.push(b"\n");
}

/// Adds the row of the next array line, and writes the text before where the row might not fit. Pulses count those that
/// were torn, too.
pub fn print_lines_row<K: Sink>(
    array_line: u32,
    bank: u32,
    pulses: u64,
    role: Role,
    cells: LineCells,
    text: &mut Text,
    out: &mut K,
) -> Result<(), WriteFault>
    requires { ROW_ROOM ≤ text.old.limit }

    // Behind the rows of all array lines below; after a fault first bytes were written, whatever rows would still come.
    ensures ok { OnOk result ((before : Option (List ℕ)) (told : ℕ
        → CellsOf) (rows : List (ℕ × ℕ × RoleOf))
        → length rows ≡ array_line → told array_line ≡ cells
        → Printed before (K.written out.old) text.old (lines_text told rows)
        → Printed before (K.written out.new) text.new (lines_text told (rows ++ (bank, pulses, role)
        ∷ []))) }
    ensures prefix { OnErr result ((before : Option (List ℕ)) (told : ℕ
        → CellsOf) (rows later : List (ℕ × ℕ × RoleOf))
        → Printed before (K.written out.old) text.old (lines_text told rows)
        → AppendsPrefix before (K.written out.new) (lines_text told (rows ++ later))) }
    ensures limit { text.new.limit ≡ text.old.limit }
    ensures fault { OnErr result (Rose (K.faults out.old) (K.faults out.new)) }
    ensures never_falls { K.faults out.old ≤ K.faults out.new }
{
    make_room(text, out)?;
    push_row(array_line, bank, pulses, role, cells, text);
    Ok(())
}
