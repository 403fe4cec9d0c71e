//! The records of a text, one after the other, as far as they are kept.
ghost use Rattle.std.specs.Prelude.{◌≡◌, ◌≢◌, ◌⊎◌, ◌-◌, ◌^◌, ◌<◌, ◌≤◌, ◌++◌, ℕ, List, [], length, true, false, Some, None, Err, IfOk, IfErr, IfSome, OnOk};
ghost use Rattle.std.specs.Io.KnownBytes.{IsAtEnd};
ghost use Rattle.csv.specs.declared.parser.State.TheVariants.{StartField, StartRecord};
ghost use Rattle.pcm_io.specs.Faults.{Rose};
ghost use Rattle.pcm_io.specs.Taking.{Takes};
ghost use Rattle.trace_reader.specs.Plain.{IsPlainRow};
ghost use Rattle.trace_stream.specs.Arrived.{StaysEnded};
ghost use Rattle.trace_stream.specs.Machine.{state_of};
ghost use Rattle.trace_stream.specs.Kept.{Decided, FindsKept, GoesOn, decides, next_kept};
ghost use Rattle.trace_stream.specs.Requests.{AsksWhere, LacksRow};

use crate::fault::StreamFault;
use crate::incoming::Incoming;
use crate::kept::Gathered;
use crate::machine::{ByteMove, Place, ends_at_end, step, takes_plain};
use pcm_io::Source;
use trace_reader::{PlainRow, plain_end, plain_row};

/// A reader of records: the bytes that arrived, what is kept of the record at hand, and where in it the next byte stands.
#[derive(Drop)]
pub struct Records {
    pub incoming: Incoming,
    pub kept: Gathered,
    pub place: Place,
}

impl Records {
    // The plain bytes that come first join the field at hand.
    fn take_run(&mut self)
        requires few { length self.old.kept.fields < 5 }
        ensures goes_on { GoesOn (state_of self.old.place) self.old.kept.fields self.old.kept.field
            self.old.incoming.bytes
            (state_of self.new.place) self.new.kept.fields self.new.kept.field
            self.new.incoming.bytes }
        ensures fields { self.new.kept.fields ≡ self.old.kept.fields }
        ensures less { length self.new.incoming.bytes ≤ length self.old.incoming.bytes }
        ensures same { self.new.incoming.ended ≡ self.old.incoming.ended }
    {
        if takes_plain(self.place) {
            let bytes = self.incoming.bytes();
            let run = plain_end(bytes, 0);
            if run > 0 {
                self.kept.keep(&bytes[..run]);
                self.incoming.pass(run);
                self.place = Place::InField;
            }
        }
    }

    // The next byte does what it does, and may end the record.
    fn take_byte(&mut self) -> bool
        requires some { 0 < length self.old.incoming.bytes }
        requires few { length self.old.kept.fields < 5 }
        ensures ended { result ≡ true → Decided (state_of self.old.place) self.old.kept.fields
            self.old.kept.field
            self.old.incoming.bytes self.new.kept.fields (state_of self.new.place)
            self.new.incoming.bytes }
        ensures goes_on { result ≡ false →
            GoesOn (state_of self.old.place) self.old.kept.fields self.old.kept.field
            self.old.incoming.bytes
            (state_of self.new.place) self.new.kept.fields self.new.kept.field
            self.new.incoming.bytes }

        // Behind its fifth field a record has begun another one.
        ensures fifth { result ≡ false → length self.new.kept.fields ≡ 5
            → state_of self.new.place ≡ StartField }
        ensures most { length self.new.kept.fields ≤ 5 }
        ensures less { length self.new.incoming.bytes < length self.old.incoming.bytes }
        ensures same { self.new.incoming.ended ≡ self.old.incoming.ended }
    {
        let byte = self.incoming.bytes()[0];
        let (place, what) = step(self.place, byte);
        self.incoming.pass(1);
        self.place = place;
        match what {
            ByteMove::Skip => false,
            ByteMove::Keep => {
                self.kept.keep(&[byte]);
                false
            }
            ByteMove::EndField => {
                self.kept.end_field();
                false
            }
            ByteMove::EndRecord => {
                self.kept.end_field();
                true
            }
        }
    }

    // Goes on with the bytes that arrived, until they decide of the record: up to its end, or to that of its fifth field. Says whether
    // they do.
    fn advance(&mut self) -> bool
        requires few { length self.old.kept.fields < 5 }
        ensures decided { result ≡ true → Decided (state_of self.old.place) self.old.kept.fields
            self.old.kept.field
            self.old.incoming.bytes self.new.kept.fields (state_of self.new.place)
            self.new.incoming.bytes }
        ensures goes_on { result ≡ false →
            GoesOn (state_of self.old.place) self.old.kept.fields self.old.kept.field
            self.old.incoming.bytes
            (state_of self.new.place) self.new.kept.fields self.new.kept.field
            self.new.incoming.bytes }
        ensures few { result ≡ false → length self.new.kept.fields < 5 }
        ensures spent { result ≡ false → self.new.incoming.bytes ≡ [] }
        ensures same { self.new.incoming.ended ≡ self.old.incoming.ended }
    {
        'bytes: loop {
            self.take_run();
            if self.incoming.bytes().is_empty() {
                return false;
            }
            if self.take_byte() {
                return true;
            }
            if self.kept.is_full() {
                return true;
            }
        }
    }

    // The end of the text may end a record, and says whether it did.
    fn finish(&mut self) -> bool
        requires few { length self.old.kept.fields < 5 }
        ensures found { result ≡ true →
            next_kept (state_of self.old.place) self.old.kept.fields self.old.kept.field []
            ≡ Some (self.new.kept.fields, state_of self.new.place, []) }
        ensures none { result ≡ false →
            next_kept (state_of self.old.place) self.old.kept.fields self.old.kept.field [] ≡ None }
        ensures same { self.new.incoming ≡ self.old.incoming }
    {
        if !ends_at_end(self.place) {
            return false;
        }
        self.place = Place::StartRecord;
        self.kept.end_field();
        true
    }

    /// The next record, where all of it has come as a plain row.
    pub fn plain_row(&self) -> Option<PlainRow>
        ensures { IfSome result (λ row. (state_of self.now.place ≡ StartRecord)
            × IsPlainRow self.now.incoming.bytes 0 row) }
    {
        match self.place {
            Place::StartRecord => plain_row(self.incoming.bytes(), 0),
            _ => None,
        }
    }

    /// Reads the next record, as far as it decides, and says whether there was one. The source is read only where the bytes that
    /// arrived before don't decide.
    pub fn next<S: Source>(&mut self, source: &mut S) -> Result<bool, StreamFault>
        ensures found { IfOk result (λ found. (bytes : List ℕ)
            × Takes (S.left source.old) (S.left source.new)
            (S.taken source.old) (S.taken source.new) bytes
            × StaysEnded self.old.incoming.ended bytes self.new.incoming.ended
            × FindsKept found (state_of self.old.place) (self.old.incoming.bytes ++ bytes)
            self.new.kept.fields (state_of self.new.place) self.new.incoming) }
        ensures prompt { decides (state_of self.old.place) 0 self.old.incoming.bytes ≡ true
            → source.new ≡ source.old }
        ensures asks { (times : ℕ) × (bytes : List ℕ) × AsksWhere S.left S.taken
            (LacksRow (state_of self.old.place) self.old.incoming)
            source.old times bytes source.new }
        ensures end { OnOk result ((self.old.incoming.ended ≡ true → IsAtEnd (S.left source.old))
            → self.new.incoming.ended ≡ true → IsAtEnd (S.left source.new)) }
        ensures sparing { result ≡ Err StreamFault.Read → (bytes : List ℕ)
            × Takes (S.left source.old) (S.left source.new)
            (S.taken source.old) (S.taken source.new) bytes
            × (self.old.incoming.ended ≡ false)
            × (decides (state_of self.old.place) 0 (self.old.incoming.bytes ++ bytes) ≡ false) }
        ensures err { IfErr result (λ e. (e ≡ StreamFault.Read) ⊎ (e ≡ StreamFault.Endless)) }
        ensures read { result ≡ Err StreamFault.Read
            → Rose (S.faults source.old) (S.faults source.new) }
        ensures endless { result ≡ Err StreamFault.Endless
            → (bytes : List ℕ) × Takes (S.left source.old) (S.left source.new)
            (S.taken source.old) (S.taken source.new) bytes × (2 ^ 64 - 1 ≤ length bytes) }
        ensures no_fault { result ≢ Err StreamFault.Read
            → S.faults source.new ≡ S.faults source.old }
        ensures never_falls { S.faults source.old ≤ S.faults source.new }
    {
        self.kept.begin();
        'pieces: for _piece in 0..u64::MAX {
            if self.advance() {
                return Ok(true);
            }
            let Ok(some) = self.incoming.fill(source) else {
                return Err(StreamFault::Read);
            };
            if !some {
                return Ok(self.finish());
            }
        }
        Err(StreamFault::Endless)
    }
}
