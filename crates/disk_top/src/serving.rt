// A client of a disk on a new module.
ghost use Rattle.std.specs.Prelude.{◌≡◌, ℕ, ◌≤◌, List, IfOk, OnErr};
ghost use Rattle.pcm_cells.specs.Seeded.{seeded_state};
ghost use Rattle.disk_words.specs.Jobs.{IsDiskPlan, asked_by};
ghost use Rattle.disk_words.specs.Layouts.{line_bytes};
ghost use Rattle.disk_top.specs.Serving.{HasServed, IsNewOn, shown};

use atomic_sectors::laws::new_lines_are_whole_sectors;
use cell_rows::CellArray;
use disk_bytes::Disk;
use disk_lines::PcmLines;
use disk_promise::serve_client;
use disk_server::Ended;
use disk_words::{DiskJob, DiskPlan};
use pcm_cells::MemArray;
use pcm_io::{Sink, Source};
use std::alloc::{AllocError, Global};

/// The lines of a disk whose module has lines of 64 bytes.
pub type NarrowLines = PcmLines<64, 8, 6, MemArray<64, 8>>;

/// The same of 128 bytes.
pub type WideLines = PcmLines<128, 16, 8, MemArray<128, 16>>;

/// A new module with lines of 64 bytes, whose power is cut when the words say so.
pub(crate) fn narrow(alloc: Global, job: DiskJob) -> Result<NarrowLines, AllocError>
    requires plan { IsDiskPlan job.plan }
    ensures new { IfOk result (λ lines. IsNewOn seeded_state (asked_by job) lines) }
{
    let plan = job.plan;
    let array = MemArray::without_energy();
    PcmLines::new(alloc, plan.shape, plan.seed, plan.wear, array, job.cuts)
}

/// The same with lines of 128 bytes.
pub(crate) fn wide(alloc: Global, job: DiskJob) -> Result<WideLines, AllocError>
    requires plan { IsDiskPlan job.plan }
    ensures new { IfOk result (λ lines. IsNewOn seeded_state (asked_by job) lines) }
{
    let plan = job.plan;
    let array = MemArray::without_energy();
    PcmLines::new(alloc, plan.shape, plan.seed, plan.wear, array, job.cuts)
}

/// Serves a client by a disk on a new module. How the session ended; where memory runs out first,
/// the client was neither read from nor written to.
pub(crate) fn serve<
    const B: usize,
    const M: usize,
    const E: usize,
    A: CellArray<B, M> + Drop,
    S: Source,
    K: Sink,
>(
    alloc: Global,
    plan: DiskPlan,
    lines: &mut PcmLines<B, M, E, A>,
    source: &mut S,
    sink: &mut K,
) -> Result<Ended, AllocError>
    requires short { B ≤ 128 }
    requires plan { IsDiskPlan plan }
    requires line { line_bytes plan.line ≡ B }
    requires new { (cuts : List ℕ) × IsNewOn A.state (record {
      plan = plan;
      cuts = cuts;
    }) lines.old }
    ensures served { IfOk result (λ ended. (cuts : List ℕ) → IsNewOn A.state (record {
      plan = plan;
      cuts = cuts;
    }) lines.old → HasServed A.state (record {
      plan = plan;
      cuts = cuts;
    })
        (shown S.left S.taken S.faults K.written K.faults source.old sink.old)
        (shown S.left S.taken S.faults K.written K.faults source.new sink.new)
        lines.new ended) }
    ensures asleep { OnErr result ((source.new ≡ source.old) × (sink.new ≡ sink.old)) }
{
    new_lines_are_whole_sectors();
    let mut disk = Disk::new(alloc, plan.layout)?;
    Ok(serve_client(alloc, &mut disk, lines, plan.on_cut, source, sink))
}
