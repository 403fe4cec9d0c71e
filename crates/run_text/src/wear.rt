// The wear report of a run, row by row: who prints it asks for the role and the pulses of each array line in turn.
ghost use Rattle.std.specs.Prelude.{◌≡◌, ℕ, ◌≤◌, List, [], ◌∷◌, ◌++◌, length, Option, OnOk, OnErr};
ghost use Rattle.pcm_io.specs.Faults.{Rose};
ghost use Rattle.pcm_io.specs.Giving.{AppendsPrefix};
ghost use Rattle.pcm_io.specs.Reserved.{reserved, appended};
ghost use Rattle.bank_shape.specs.declared.Role.{Role as RoleOf};
ghost use Rattle.run_text.specs.WearText.{wear_header_text, wear_text};
ghost use Rattle.run_text.specs.Gathering.{Printed};

use crate::roles::{print_role, wear_header};
use crate::room::make_room;
use bank_shape::Role;
use pcm_io::{Sink, Text, WriteFault};
use text_printer::{ROW_ROOM, TEXT_ROOM};

/// Begins a wear report in an empty text.
pub fn print_wear_header(text: &mut Text)
    requires { text.old ≡ reserved TEXT_ROOM }
    ensures after { text.new ≡ appended text.old wear_header_text }
    ensures printed { (before : Option (List ℕ)) → Printed before before text.new (wear_text []) }
{
    text.push(wear_header());
}

/// Adds the row of the next array line, and writes the text before where the row might not fit. Pulses count those that
/// were torn, too.
pub fn print_wear_row<K: Sink>(
    array_line: u32,
    bank: u32,
    pulses: u64,
    role: Role,
    text: &mut Text,
    out: &mut K,
) -> Result<(), WriteFault>
    requires { ROW_ROOM ≤ text.old.limit }

    // Behind the rows of all array lines below; after a fault first bytes were written, whatever rows would still come.
    ensures ok { OnOk result ((before : Option (List ℕ)) (rows : List (ℕ × ℕ × RoleOf))
        → length rows ≡ array_line
        → Printed before (K.written out.old) text.old (wear_text rows)
        → Printed before (K.written out.new) text.new (wear_text (rows ++ (bank, pulses, role)
        ∷ []))) }
    ensures prefix { OnErr result ((before : Option (List ℕ)) (rows later : List (ℕ × ℕ × RoleOf))
        → Printed before (K.written out.old) text.old (wear_text rows)
        → AppendsPrefix before (K.written out.new) (wear_text (rows ++ later))) }
    ensures limit { text.new.limit ≡ text.old.limit }
    ensures fault { OnErr result (Rose (K.faults out.old) (K.faults out.new)) }
    ensures never_falls { K.faults out.old ≤ K.faults out.new }
{
    make_room(text, out)?;
    print_role(array_line, bank, pulses, role, text);
    Ok(())
}
