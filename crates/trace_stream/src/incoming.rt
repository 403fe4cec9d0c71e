//! The bytes that came from a source and aren't read yet.
ghost use Rattle.std.specs.Prelude.{◌≡◌, ◌≤◌, ◌<◌, ℕ, List, [], ◌++◌, length, drop, true, false, None, IfOk, OnOk, OnErr};
ghost use Rattle.std.specs.Io.KnownBytes.{IsAtEnd};
ghost use Rattle.std.specs.Option.{option_to_list};
ghost use Rattle.csv.specs.Reading.{strip_bom};
ghost use Rattle.pcm_io.specs.Faults.{Rose};
ghost use Rattle.pcm_io.specs.Taking.{Takes};
ghost use Rattle.trace_stream.specs.Arrived.{Comes, StaysEnded};
ghost use Rattle.trace_stream.specs.Kept.{LacksHeader};
ghost use Rattle.trace_stream.specs.Requests.{AsksWhere, most_asked};

use pcm_io::{Failed, Source};
use std::marker::Model;

// Bytes that one call of a source is asked for.
const PIECE: usize = 8_192;

/// A piece of the text, of which the bytes from `at` on aren't read yet.
#[derive(Drop)]
pub struct Incoming {
    buffer: [u8; PIECE],
    at: usize,
    filled: usize,
    ended: bool,
}

impl Model for Incoming {
    ghost use Rattle.std.specs.Prelude.{◌≤◌, drop, take};
    ghost use Rattle.trace_stream.specs.Arrived.{Arrived};

    ghost Value = { Arrived };

    ghost view = { λ i. record { bytes = drop i.at (take i.filled i.buffer); ended = i.ended } };

    ghost invariant = { λ i. (i.at ≤ i.filled) × (i.filled ≤ 8192) };
}

// One byte of a source, if there is one.
fn read_byte<S: Source>(source: &mut S) -> Result<Option<u8>, Failed>
    ensures takes { IfOk result (λ byte. Takes (S.left source.old) (S.left source.new)
        (S.taken source.old) (S.taken source.new) (option_to_list byte)) }
    ensures end { IfOk result (λ byte. byte ≡ None → IsAtEnd (S.left source.new)) }
    ensures untaken { OnErr result (Takes (S.left source.old) (S.left source.new)
        (S.taken source.old) (S.taken source.new) []) }
    ensures fault { OnErr result (Rose (S.faults source.old) (S.faults source.new)) }
    ensures no_fault { OnOk result (S.faults source.new ≡ S.faults source.old) }
    ensures never_falls { S.faults source.old ≤ S.faults source.new }
{
    let mut one = [0; 1];
    if source.read(&mut one)? == 0 {
        Ok(None)
    } else {
        Ok(Some(one[0]))
    }
}

impl Incoming {
    // These first bytes of a text.
    fn of(bytes: &[u8], ended: bool) -> Incoming
        requires { length bytes.now ≤ 3 }
        ensures { result ≡ record { bytes = bytes.now; ended = ended } }
    {
        let mut buffer = [0; PIECE];
        buffer[..bytes.len()].copy_from_slice(bytes);
        Incoming {
            buffer,
            at: 0,
            filled: bytes.len(),
            ended,
        }
    }

    /// The first bytes of a text, without a byte order mark; it is read no further than they may be one.
    pub fn begin<S: Source>(source: &mut S) -> Result<Incoming, Failed>
        ensures ok { IfOk result (λ begun. (bytes : List ℕ)
            × Takes (S.left source.old) (S.left source.new)
            (S.taken source.old) (S.taken source.new) bytes
            × ((more : List ℕ) → Comes begun.ended more
            → strip_bom (bytes ++ more) ≡ begun.bytes ++ more)
            × (times : ℕ) × AsksWhere S.left S.taken LacksHeader source.old times bytes source.new) }
        ensures end { IfOk result (λ begun. begun.ended ≡ true → IsAtEnd (S.left source.new)) }
        ensures asks { OnErr result ((times : ℕ) × (bytes : List ℕ)
            × AsksWhere S.left S.taken LacksHeader source.old times bytes source.new) }
        ensures sparing { OnErr result ((bytes : List ℕ)
            × Takes (S.left source.old) (S.left source.new)
            (S.taken source.old) (S.taken source.new) bytes × LacksHeader bytes) }
        ensures fault { OnErr result (Rose (S.faults source.old) (S.faults source.new)) }
        ensures no_fault { OnOk result (S.faults source.new ≡ S.faults source.old) }
        ensures never_falls { S.faults source.old ≤ S.faults source.new }
    {
        let Some(first) = read_byte(source)? else {
            return Ok(Incoming::of(&[], true));
        };
        if first != 0xEF {
            return Ok(Incoming::of(&[first], false));
        }
        let Some(second) = read_byte(source)? else {
            return Ok(Incoming::of(&[first], true));
        };
        if second != 0xBB {
            return Ok(Incoming::of(&[first, second], false));
        }
        let Some(third) = read_byte(source)? else {
            return Ok(Incoming::of(&[first, second], true));
        };
        if third == 0xBF {
            Ok(Incoming::of(&[], false))
        } else {
            Ok(Incoming::of(&[first, second, third], false))
        }
    }

    /// The bytes that aren't read yet.
    pub fn bytes(&self) -> &[u8]
        ensures { result.now ≡ self.now.bytes }
    {
        &self.buffer[self.at..self.filled]
    }

    /// Passes so many of them.
    pub fn pass(&mut self, count: usize)
        requires { count ≤ length self.old.bytes }
        ensures bytes { self.new.bytes ≡ drop count self.old.bytes }
        ensures ended { self.new.ended ≡ self.old.ended }
    {
        self.at += count;
    }

    /// Waits for the next bytes, where none is left, and says whether some came. Behind the end of the source it isn't read.
    pub fn fill<S: Source>(&mut self, source: &mut S) -> Result<bool, Failed>
        requires { self.old.bytes ≡ [] }
        ensures takes { OnOk result (Takes (S.left source.old) (S.left source.new)
            (S.taken source.old) (S.taken source.new) self.new.bytes) }
        ensures few { OnOk result (length self.new.bytes ≤ most_asked) }
        ensures rests { self.old.ended ≡ true → source.new ≡ source.old }
        ensures some { IfOk result (λ some. some ≡ true
            → (1 ≤ length self.new.bytes) × (self.new.ended ≡ false)) }
        ensures none { IfOk result (λ some. some ≡ false
            → (self.new.bytes ≡ []) × (self.new.ended ≡ true)) }
        ensures still { OnOk result (StaysEnded self.old.ended self.new.bytes self.new.ended) }
        ensures end { OnOk result ((self.old.ended ≡ true → IsAtEnd (S.left source.old))
            → self.new.ended ≡ true → IsAtEnd (S.left source.new)) }
        ensures untaken { OnErr result ((self.old.ended ≡ false) × Takes (S.left source.old)
            (S.left source.new) (S.taken source.old) (S.taken source.new) []) }
        ensures fault { OnErr result (Rose (S.faults source.old) (S.faults source.new)) }
        ensures no_fault { OnOk result (S.faults source.new ≡ S.faults source.old) }
        ensures never_falls { S.faults source.old ≤ S.faults source.new }
    {
        if self.ended {
            return Ok(false);
        }
        let count = source.read(&mut self.buffer)?;
        self.at = 0;
        self.filled = count;
        self.ended = count == 0;
        Ok(count > 0)
    }
}
