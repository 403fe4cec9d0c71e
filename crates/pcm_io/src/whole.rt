// Whole contents, read to the end and written to the last byte.
ghost use Rattle.std.specs.Prelude.{◌≡◌, ◌≢◌, ◌↔◌, ℕ, ◌+◌, ◌<◌, ◌≤◌, ◌^◌, ◌-◌, List, length, vec_len, Ok, Err, IfOk, IfErr, OnOk, OnErr};
ghost use Rattle.std.specs.Io.KnownBytes.{Appends, IsAtEnd};
ghost use Rattle.pcm_io.specs.Faults.{Rose};
ghost use Rattle.pcm_io.specs.Taking.{Takes};
ghost use Rattle.pcm_io.specs.Giving.{AppendsPrefix};

use crate::fault::{ReadAllFault, WriteFault};
use crate::sink::Sink;
use crate::source::Source;
use std::alloc::Global;

// Bytes that one call of a source is asked for.
const PIECE: usize = 65_536;

/// Reads a source to its end. Reading stops at the first byte past the limit, and at the first fault.
pub fn read_all<S: Source>(
    alloc: Global,
    source: &mut S,
    limit: usize,
) -> Result<Vec<u8>, ReadAllFault>
    ensures ok { IfOk result (λ bytes. Takes (S.left source.old) (S.left source.new)
        (S.taken source.old) (S.taken source.new) bytes.items) }
    ensures end { OnOk result (IsAtEnd (S.left source.new)) }
    ensures within { IfOk result (λ bytes. vec_len bytes ≤ limit) }

    // What was taken before a fault is lost; it is more than the limit exactly at `TooLong`.
    ensures err { IfErr result (λ fault. (bytes : List ℕ)
        × Takes (S.left source.old) (S.left source.new)
        (S.taken source.old) (S.taken source.new) bytes
        × ((fault ≡ ReadAllFault.TooLong) ↔ (limit < length bytes))) }

    // `TooLong` by the count of taken bytes alone, where that is not near its end.
    ensures too_long { S.taken source.old + limit < 2 ^ 64 - 1 →
        ((result ≡ Err ReadAllFault.TooLong) ↔ (S.taken source.old + limit < S.taken source.new)) }
    ensures read { result ≡ Err ReadAllFault.Read
        → Rose (S.faults source.old) (S.faults source.new) }
    ensures no_fault { result ≢ Err ReadAllFault.Read → S.faults source.new ≡ S.faults source.old }
    ensures never_falls { S.faults source.old ≤ S.faults source.new }
{
    let mut bytes = Vec::new(alloc);
    let mut piece = [0; PIECE];
    loop {
        let Ok(n) = source.read(&mut piece) else {
            return Err(ReadAllFault::Read);
        };
        if n == 0 {
            return Ok(bytes);
        }
        if limit - bytes.len() < n {
            return Err(ReadAllFault::TooLong);
        }
        bytes.extend_from_slice(&piece[..n])?;
    }
}

/// Writes all the bytes, in as many calls as the sink wants.
pub fn write_all<K: Sink>(sink: &mut K, bytes: &[u8]) -> Result<(), WriteFault>
    ensures ok { OnOk result (Appends (K.written sink.old) (K.written sink.new) bytes.now) }
    ensures prefix { OnErr result
        (AppendsPrefix (K.written sink.old) (K.written sink.new) bytes.now) }
    ensures fault { OnErr result (Rose (K.faults sink.old) (K.faults sink.new)) }
    ensures never_falls { K.faults sink.old ≤ K.faults sink.new }
{
    let mut done = 0;
    while done < bytes.len() {
        let Ok(n) = sink.write(&bytes[done..]) else {
            return Err(WriteFault);
        };
        done += n;
    }
    Ok(())
}
