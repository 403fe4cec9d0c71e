// A text that is gathered in memory and written piece after piece.
ghost use Rattle.std.specs.Prelude.{◌≡◌, ℕ, ◌≤◌, List, Option, OnOk, OnErr};
ghost use Rattle.std.specs.Io.KnownBytes.{Appends};
ghost use Rattle.pcm_io.specs.Faults.{Rose};
ghost use Rattle.pcm_io.specs.Giving.{AppendsPrefix};
ghost use Rattle.run_text.specs.Gathering.{Flushes, Printed};

use pcm_io::{Sink, Text, WriteFault, write_all};
use text_printer::ROW_ROOM;

/// Writes the text if the next row might not fit.
pub fn make_room<K: Sink>(text: &mut Text, out: &mut K) -> Result<(), WriteFault>
    requires { ROW_ROOM ≤ text.old.limit }
    ensures ok { OnOk result (Flushes ROW_ROOM text.old text.new (K.written out.old)
        (K.written out.new)) }
    ensures prefix { OnErr result (AppendsPrefix (K.written out.old) (K.written out.new)
        text.old.bytes) }

    // What was printed so far stays printed, and after a fault first bytes of it were written.
    ensures printed { OnOk result ((before : Option (List ℕ)) (whole : List ℕ)
        → Printed before (K.written out.old) text.old whole
        → Printed before (K.written out.new) text.new whole) }
    ensures part { OnErr result ((before : Option (List ℕ)) (whole : List ℕ)
        → Printed before (K.written out.old) text.old whole
        → AppendsPrefix before (K.written out.new) whole) }
    ensures limit { text.new.limit ≡ text.old.limit }
    ensures fault { OnErr result (Rose (K.faults out.old) (K.faults out.new)) }
    ensures never_falls { K.faults out.old ≤ K.faults out.new }
{
    if text.room() < ROW_ROOM {
        write_all(out, text.bytes())?;
        text.clear();
    }
    Ok(())
}

/// Writes what is left in the text, at the end.
pub fn print_rest<K: Sink>(text: &Text, out: &mut K) -> Result<(), WriteFault>
    ensures ok { OnOk result (Appends (K.written out.old) (K.written out.new) text.now.bytes) }
    ensures prefix { OnErr result (AppendsPrefix (K.written out.old) (K.written out.new)
        text.now.bytes) }

    // All that was printed is written then, and after a fault first bytes of it are.
    ensures printed { OnOk result ((before : Option (List ℕ)) (whole : List ℕ)
        → Printed before (K.written out.old) text.now whole
        → Appends before (K.written out.new) whole) }
    ensures part { OnErr result ((before : Option (List ℕ)) (whole : List ℕ)
        → Printed before (K.written out.old) text.now whole
        → AppendsPrefix before (K.written out.new) whole) }
    ensures fault { OnErr result (Rose (K.faults out.old) (K.faults out.new)) }
    ensures never_falls { K.faults out.old ≤ K.faults out.new }
{
    let rest = text.bytes();
    write_all(out, rest)
}
