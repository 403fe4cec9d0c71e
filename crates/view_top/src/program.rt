// The program's one call.
ghost use Rattle.std.specs.Prelude.{◌≡◌, ◌≢◌, map, string_bytes, IfOk, IfErr, []};
ghost use Rattle.program_calls.specs.Calls.{lent_sink, lent_source, sink_change};
ghost use Rattle.view_top.specs.Promises.{EndsCall, IsToldOf, KeepsPromises};

use crate::fault::tell;
use crate::show::show;
use pcm_io::{Sink, Source};
use pcm_top::{Done, Fault};
use std::alloc::Global;

// The status of a fault, after its line was written; that of a fault of writing where the line couldn't be.
fn give_up<F: Sink>(fault: Fault, err: &mut F) -> u8
    ensures { IsToldOf fault (sink_change F.written F.faults err.old err.new) result }
{
    match tell(fault, err) {
        Ok(()) => fault.status(),
        Err(_) => Fault::Write.status(),
    }
}

// Shows the image, where there are no words.
fn work<S: Source, K: Sink>(
    alloc: Global,
    words: &[String],
    source: &mut S,
    out: &mut K,
) -> Result<(), Fault>
    ensures { EndsCall (record {
      words = map string_bytes words.now;
      source = lent_source S.left S.taken S.faults source.old source.new;
      out = lent_sink K.written K.faults out.old out.new;
    }) result }
{
    match words {
        [] => show(alloc, source, out),
        _ => Err(Fault::Usage),
    }
}

/// Runs the program on the words behind its name, of which there must be none, and answers its status: 0 the image is shown, 2 there are
/// words, 3 the bytes are no image of a large module, 4 reading failed, 5 writing failed, 6 there are too many bytes, 7 memory ran out. The
/// source is read to its end before the first byte is written.
pub fn view_run<S: Source, K: Sink, F: Sink>(
    alloc: Global,
    words: &[String],
    source: &mut S,
    out: &mut K,
    err: &mut F,
) -> u8
    // What was lent, and what became of it: each promise is a field of `KeepsPromises`.
    ensures { KeepsPromises (record {
      words = map string_bytes words.now;
      source = lent_source S.left S.taken S.faults source.old source.new;
      out = lent_sink K.written K.faults out.old out.new;
    }) (lent_sink F.written F.faults err.old err.new) result }
{
    match work(alloc, words, source, out) {
        Ok(()) => Done::Whole.status(),
        Err(fault) => give_up(fault, err),
    }
}
