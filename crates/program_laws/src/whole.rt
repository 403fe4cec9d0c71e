// A caller of the program, in which its contract is at work.
ghost use Rattle.std.specs.Prelude.{◌≡◌, ◌==◌, ℕ, true, map, string_bytes};
ghost use Rattle.command_line.specs.Jobs.{job_of};
ghost use Rattle.program_calls.specs.Calls.{lent_array, lent_sink, lent_source, sink_change, source_change};
ghost use Rattle.pcm_top.specs.Promises.{KeepsPromises};
ghost use Rattle.pcm_top.specs.Running.{Does};
ghost use Rattle.pcm_top.specs.declared.run.Done.TheVariants.{Whole};

use cell_rows::CellArray;
use pcm_io::{Sink, Source};
use pcm_top::pcm_run;
use std::alloc::Global;

/// Whether these words were done, and no row was refused, lost or left.
pub fn is_whole<A: CellArray<64, 8>, V: CellArray<128, 16>, S: Source, K: Sink, F: Sink>(
    alloc: Global,
    words: &[String],
    array: &mut A,
    wide: &mut V,
    source: &mut S,
    out: &mut K,
    err: &mut F,
) -> bool
    ensures whole { result ≡ true → Does (record {
      source = source_change S.left S.taken S.faults source.old source.new;
      array = A.state array.new;
      wide = V.state wide.new;
      out = sink_change K.written K.faults out.old out.new;
    }) (job_of (map string_bytes words.now)) Whole }
    ensures kept { (status : ℕ) × (result ≡ (status == 0)) × KeepsPromises (record {
      asked = job_of (map string_bytes words.now);
      array = lent_array A.state array.old array.new;
      wide = lent_array V.state wide.old wide.new;
      source = lent_source S.left S.taken S.faults source.old source.new;
      out = lent_sink K.written K.faults out.old out.new;
    }) (lent_sink F.written F.faults err.old err.new) status }
{
    pcm_run(alloc, words, array, wide, source, out, err) == 0
}
