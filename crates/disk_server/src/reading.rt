// Bytes that are read whole.
ghost use Rattle.std.specs.Prelude.{◌≡◌, ◌<◌, ◌≤◌, ℕ, List, length, IfOk, IfErr, IfSome, OnOk};
ghost use Rattle.pcm_io.specs.Taking.{Takes};
ghost use Rattle.disk_server.specs.Reading.{StopsShort, StopsAmid};

use crate::phase::Ended;
use pcm_io::Source;
use std::alloc::Global;

// Bytes that one call reads away.
const PIECE: usize = 4_096;

// Reads until the buffer is full.
pub(crate) fn fill<S: Source>(source: &mut S, buffer: &mut [u8]) -> Result<(), Ended>
    ensures full { OnOk result (Takes (S.left source.old) (S.left source.new) (S.taken source.old)
        (S.taken source.new) buffer.new) }
    ensures short { IfErr result (λ ended. (bytes : List ℕ) × (length bytes < length buffer.old)
        × Takes (S.left source.old) (S.left source.new) (S.taken source.old) (S.taken source.new)
        bytes
        × StopsShort ended bytes (S.left source.new) (S.faults source.old) (S.faults source.new)) }
    ensures never_falls { S.faults source.old ≤ S.faults source.new }
{
    let mut done = 0;
    while done < buffer.len() {
        let Ok(count) = source.read(&mut buffer[done..]) else {
            return Err(Ended::Unread);
        };
        if count == 0 {
            return Err(if done == 0 {
                Ended::Closed
            } else {
                Ended::Broken
            });
        }
        done += count;
    }
    Ok(())
}

// Reads until the buffer is full, behind bytes of the same message.
pub(crate) fn fill_on<S: Source>(source: &mut S, buffer: &mut [u8]) -> Result<(), Ended>
    ensures full { OnOk result (Takes (S.left source.old) (S.left source.new) (S.taken source.old)
        (S.taken source.new) buffer.new) }
    ensures short { IfErr result (λ ended. (bytes : List ℕ) × (length bytes < length buffer.old)
        × Takes (S.left source.old) (S.left source.new) (S.taken source.old) (S.taken source.new)
        bytes × StopsAmid ended (S.left source.new) (S.faults source.old) (S.faults source.new)) }
    ensures never_falls { S.faults source.old ≤ S.faults source.new }
{
    match fill(source, buffer) {
        Ok(()) => Ok(()),
        Err(Ended::Unread) => Err(Ended::Unread),
        Err(_) => Err(Ended::Broken),
    }
}

// Reads so many bytes away, behind others of the same message.
pub(crate) fn skip<S: Source>(source: &mut S, count: u32) -> Result<(), Ended>
    ensures whole { OnOk result ((bytes : List ℕ) × (length bytes ≡ count)
        × Takes (S.left source.old) (S.left source.new) (S.taken source.old) (S.taken source.new)
        bytes) }
    ensures short { IfErr result (λ ended. (bytes : List ℕ) × (length bytes < count)
        × Takes (S.left source.old) (S.left source.new) (S.taken source.old) (S.taken source.new)
        bytes × StopsAmid ended (S.left source.new) (S.faults source.old) (S.faults source.new)) }
    ensures never_falls { S.faults source.old ≤ S.faults source.new }
{
    let mut piece = [0; PIECE];
    let mut done = 0;
    while done < count as usize {
        let next = (count as usize - done).min(PIECE);
        fill_on(source, &mut piece[..next])?;
        done += next;
    }
    Ok(())
}

// Reads so many bytes, behind others of the same message; where memory lacks, they are read away.
pub(crate) fn read_on<S: Source>(
    alloc: Global,
    source: &mut S,
    count: u32,
) -> Result<Option<Vec<u8>>, Ended>
    ensures whole { IfOk result (λ kept. (bytes : List ℕ) × (length bytes ≡ count)
        × Takes (S.left source.old) (S.left source.new) (S.taken source.old) (S.taken source.new)
        bytes × IfSome kept (λ it. it.items ≡ bytes)) }
    ensures short { IfErr result (λ ended. (bytes : List ℕ) × (length bytes < count)
        × Takes (S.left source.old) (S.left source.new) (S.taken source.old) (S.taken source.new)
        bytes × StopsAmid ended (S.left source.new) (S.faults source.old) (S.faults source.new)) }
    ensures never_falls { S.faults source.old ≤ S.faults source.new }
{
    match vec![in alloc; 0; count as usize] {
        Ok(mut bytes) => {
            fill_on(source, bytes.as_mut_slice())?;
            Ok(Some(bytes))
        }
        Err(_) => {
            skip(source, count)?;
            Ok(None)
        }
    }
}
