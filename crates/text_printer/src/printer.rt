// A text and the sink that it goes to.
ghost use Rattle.std.specs.Prelude.{◌≡◌, ◌≤◌, [], length};
ghost use Rattle.pcm_io.specs.Reserved.{reserved, room_in};
ghost use Rattle.text_printer.specs.Printing.{Ends, Holds, Prints, Sends};

use crate::room::{ROW_ROOM, TEXT_ROOM};
use pcm_io::{Sink, Text, WriteFault, write_all};

/// A text and the sink that it goes to, piece after piece. The text is there to have pieces put behind it, once there is room.
pub struct Printer<'t, 'o, K: Sink> {
    pub text: &'t mut Text,
    out: &'o mut K,
    failed: bool,
}

impl<'t, 'o, K: Sink> Printer<'t, 'o, K> {
    /// Nothing was printed yet.
    pub fn new(text: &'t mut Text, out: &'o mut K) -> Printer<'t, 'o, K>
        requires { text.old ≡ reserved TEXT_ROOM }
        ensures text { result.text.ghost_name ≡ text.entry.ghost_name }
        ensures out { result.out.ghost_name ≡ out.entry.ghost_name }
        ensures limit { result.text.now.limit ≡ TEXT_ROOM }
        ensures printed { Holds K.written K.faults (K.written out.old) (K.faults out.old)
            result [] }
    {
        Printer {
            text,
            out,
            failed: false,
        }
    }

    /// Whether there was a fault.
    pub fn failed(&self) -> bool
        ensures { result ≡ self.now.failed }
    {
        self.failed
    }

    // Writes the text, where there was no fault yet, and forgets it.
    fn flush(&mut self)
        ensures printed { Prints K.written K.faults self.old self.new [] }
        ensures text { self.new.text.now ≡ reserved self.old.text.now.limit }
    {
        self.failed = send(self.failed, self.text.bytes(), self.out);
        self.text.clear();
    }

    /// Makes room for a row.
    pub fn make_room(&mut self)
        requires { ROW_ROOM ≤ self.old.text.now.limit }
        ensures printed { Prints K.written K.faults self.old self.new [] }
        ensures room { ROW_ROOM ≤ room_in self.new.text.now }
    {
        if self.text.room() < ROW_ROOM {
            self.flush();
        }
    }

    /// Adds these bytes.
    pub fn push(&mut self, bytes: &[u8])
        requires limit { ROW_ROOM ≤ self.old.text.now.limit }
        requires short { length bytes.now ≤ ROW_ROOM }
        ensures { Prints K.written K.faults self.old self.new bytes.now }
    {
        self.make_room();
        self.text.push(bytes);
    }

    /// Writes what is left in the text, at the end, and tells whether all that was printed is written.
    pub fn finish(self) -> Result<(), WriteFault>
        ensures { Ends K.written K.faults self.entry self.exit.1.0.now result }
    {
        let Printer { text, out, failed } = self;
        if send(failed, text.bytes(), out) {
            return Err(WriteFault);
        }
        Ok(())
    }
}

// Writes the bytes, where there was no fault yet, and tells whether there is one now.
fn send<K: Sink>(failed: bool, bytes: &[u8], out: &mut K) -> bool
    ensures { Sends K.written K.faults failed out.old bytes.now result out.new }
{
    if failed {
        return true;
    }
    write_all(out, bytes).is_err()
}
