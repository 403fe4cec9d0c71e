//! A disk of bytes on a module of phase-change memory: what was asked of it, what it answered, and
//! that each byte that was acknowledged is kept, in the array or in a protected queue.
#![tactic(auto)]

ghost use Rattle.std.specs.Prelude.{◌≡◌, [], List, IfOk, length};
ghost use Rattle.atomic_sectors.specs.Sectors.{Fits};
ghost use Rattle.atomic_sectors.specs.Stops.{RoseBy};
ghost use Rattle.module_shape.specs.Limits.{total_of};
ghost use Rattle.disk_rules.specs.Disk.{told};
ghost use Rattle.disk_rules.specs.declared.{DiskRequest.DiskRequest, DiskAnswer.DiskAnswer};
ghost use Rattle.disk_bytes.specs.Parts.{IsReady};
ghost use Rattle.disk_bytes.specs.Serving.{IsServed, stops_in};
ghost use Rattle.disk_lines.specs.Asking.{HasHeard, stops_at};
ghost use Rattle.disk_lines.specs.Cutting.{CutsCome};
ghost use Rattle.disk_lines.specs.Lines.{kind_on, writes_of};
ghost use Rattle.disk_promise.specs.Keeping.{DiskLaw, IsDiskKept};

mod clients;

use cell_rows::CellArray;
pub use clients::serve_client;
use disk_bytes::Disk;
use disk_lines::PcmLines;
use disk_rules::{
    DiskAnswer, DiskRequest, lines_that_agree_are_one_disk, new_lines_are_a_new_disk,
};
use moment_laws::no_moment_loses_bytes;
use std::alloc::{AllocError, Global};

/// At any moment what is a disk by the rows of its module is kept, with nothing drained: in the
/// array as it is, and in the queues. (A law: the function does nothing when it runs.)
pub fn no_moment_loses_a_disk()
    ensures { DiskLaw }
{
    lines_that_agree_are_one_disk();
    no_moment_loses_bytes();
}

/// Serves requests by a module, whatever power cuts come, and however cells miss, tear or stick:
/// the answers are those of a disk. Each read that is answered has, byte for byte, what the newest
/// writes gave; a write that is acknowledged is made whole; and of one that is stopped some first
/// bytes are made, up to the end of a sector, once and for all. Behind the last request each byte
/// of these is decoded from the array or stands in a protected queue. No more requests are stopped,
/// but for want of memory, than power cuts came and writes were refused, as long as the clock and
/// the rows last. Where no memory is left for the list of answers, nothing is said of which were
/// served.
pub fn serve_disk<const B: usize, const M: usize, const E: usize, A: CellArray<B, M> + Drop>(
    alloc: Global,
    disk: &mut Disk<B>,
    lines: &mut PcmLines<B, M, E, A>,
    requests: &[DiskRequest],
) -> Result<Vec<DiskAnswer>, AllocError>
    requires fits { Fits B disk.old.layout (total_of lines.old.module_.shape) }
    requires ready { IsReady B (writes_of lines.old.puts) disk.old }
    ensures goes_on { IfOk result (λ answers. (asked : List (DiskRequest × DiskAnswer))
        → IsServed B disk.old.layout asked (writes_of lines.old.puts)
        → IsServed B disk.old.layout (told asked requests.now answers.items)
        (writes_of lines.new.puts)) }
    ensures kept { IfOk result (λ answers. (asked : List (DiskRequest × DiskAnswer))
        → IsServed B disk.old.layout asked (writes_of lines.old.puts)
        → IsDiskKept lines.new.module_ (A.state lines.new.array) lines.new.heard disk.old.layout
        (told asked requests.now answers.items)) }
    // from a new module on
    ensures new { lines.old.puts ≡ [] → IfOk result (λ answers.
        IsDiskKept lines.new.module_ (A.state lines.new.array) lines.new.heard disk.old.layout
        (told [] requests.now answers.items)) }
    ensures all { IfOk result (λ answers. length answers.items ≡ length requests.now) }
    ensures has { HasHeard lines.new.module_ (A.state lines.new.array) lines.new.heard }
    ensures ready { IsReady B (writes_of lines.new.puts) disk.new }
    ensures layout { disk.new.layout ≡ disk.old.layout }
    ensures cause { IfOk result (λ answers. RoseBy (stops_in answers.items)
        (stops_at lines.old.module_.tick lines.old.heard)
        (stops_at lines.new.module_.tick lines.new.heard)) }
    ensures kind { kind_on A.state lines.new ≡ kind_on A.state lines.old }
    ensures cuts { CutsCome lines.new.cuts lines.new.heard lines.new.module_.tick }
{
    new_lines_are_a_new_disk();
    no_moment_loses_a_disk();
    let served = disk_lines::serve_disk(alloc, disk, lines, requests);
    lines.stands();
    served
}
