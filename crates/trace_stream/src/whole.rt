//! A whole streamed trace.
ghost use Rattle.std.specs.Prelude.{◌≡◌, ◌≢◌, ◌-◌, ◌^◌, ◌≤◌, ℕ, List, Bool, true, length, Ok, Err, IfOk, IfErr, OnOk};
ghost use Rattle.std.specs.Io.KnownBytes.{IsAtEnd};
ghost use Rattle.pcm_io.specs.Faults.{Rose};
ghost use Rattle.pcm_io.specs.Taking.{Takes};
ghost use Rattle.trace_stream.specs.Stream.{HasFault, IsOfText, stream_of};

use crate::asked::Asked;
use crate::fault::StreamFault;
use crate::stream::TraceStream;
use pcm_io::Source;
use std::alloc::Global;

/// Reads a whole trace row by row, and keeps what its rows ask: what a caller of `TraceStream` may go by.
pub fn read_stream<const B: usize, S: Source>(
    alloc: Global,
    source: &mut S,
    lines: u32,
) -> Result<Vec<Asked<B>>, StreamFault>
    requires lines { 1 ≤ lines }
    requires small { B ≤ 128 }
    ensures ok { IfOk result (λ all. (bytes : List ℕ)
        × Takes (S.left source.old) (S.left source.new)
        (S.taken source.old) (S.taken source.new) bytes
        × (stream_of B lines bytes ≡ Ok all.items)) }
    ensures end { OnOk result (IsAtEnd (S.left source.new)) }
    ensures fault { IfErr result (λ e. IsOfText e
        → (bytes : List ℕ) × (ended : Bool) × Takes (S.left source.old)
        (S.left source.new) (S.taken source.old) (S.taken source.new) bytes
        × (ended ≡ true → IsAtEnd (S.left source.new))
        × HasFault (stream_of B lines) bytes e ended) }
    ensures read { result ≡ Err StreamFault.Read
        → Rose (S.faults source.old) (S.faults source.new) }
    ensures endless { result ≡ Err StreamFault.Endless
        → (bytes : List ℕ) × Takes (S.left source.old) (S.left source.new)
        (S.taken source.old) (S.taken source.new) bytes × (2 ^ 64 - 1 ≤ length bytes) }
    ensures no_fault { result ≢ Err StreamFault.Read → S.faults source.new ≡ S.faults source.old }
    ensures never_falls { S.faults source.old ≤ S.faults source.new }
{
    let mut stream = TraceStream::open(alloc, source, lines)?;
    let mut all = Vec::new(alloc);
    'rows: while let Some(asked) = stream.next::<B, S>(source)? {
        if all.push(asked).is_err() {
            return Err(StreamFault::NoMemory);
        }
    }
    Ok(all)
}
