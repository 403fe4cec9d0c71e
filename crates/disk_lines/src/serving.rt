// A disk of bytes on a module.
ghost use Rattle.std.specs.Prelude.{◌≡◌, List, IfOk, length};
ghost use Rattle.atomic_sectors.specs.Sectors.{Fits};
ghost use Rattle.atomic_sectors.specs.Stops.{RoseBy};
ghost use Rattle.module_shape.specs.Limits.{total_of};
ghost use Rattle.disk_rules.specs.Disk.{told};
ghost use Rattle.disk_rules.specs.declared.{DiskRequest.DiskRequest, DiskAnswer.DiskAnswer};
ghost use Rattle.disk_bytes.specs.Parts.{IsReady};
ghost use Rattle.disk_bytes.specs.Serving.{IsServed, stops_in};
ghost use Rattle.disk_lines.specs.Asking.{HasHeard, stops_at};
ghost use Rattle.disk_lines.specs.Cutting.{CutsCome};
ghost use Rattle.disk_lines.specs.Lines.{kind_on, writes_of};
ghost use Rattle.disk_lines.specs.Serving.{IsDiskByRows};

use crate::lines::PcmLines;
use cell_rows::CellArray;
use disk_bytes::{Disk, serve_all};
use disk_rules::{DiskAnswer, DiskRequest, lines_that_agree_are_one_disk};
use std::alloc::{AllocError, Global};

/// Serves requests by a module, whatever power cuts come, and however cells miss, tear or stick: the answers are those of a disk, and all writes are in the
/// module, by its rows. No more requests are stopped, but for want of memory, than power cuts came and writes were refused, as long as the clock and the rows
/// last. Where no memory is left for the list of answers, nothing is said of which were served.
pub fn serve_disk<const B: usize, const M: usize, const E: usize, A: CellArray<B, M> + Drop>(
    alloc: Global,
    disk: &mut Disk<B>,
    lines: &mut PcmLines<B, M, E, A>,
    requests: &[DiskRequest],
) -> Result<Vec<DiskAnswer>, AllocError>
    requires fits { Fits B disk.old.layout (total_of lines.old.module_.shape) }
    requires ready { IsReady B (writes_of lines.old.puts) disk.old }
    ensures goes_on { IfOk result (λ answers. (asked : List (DiskRequest × DiskAnswer))
        → IsServed B disk.old.layout asked (writes_of lines.old.puts)
        → IsServed B disk.old.layout (told asked requests.now answers.items)
        (writes_of lines.new.puts)) }
    ensures served { IfOk result (λ answers. (asked : List (DiskRequest × DiskAnswer))
        → IsServed B disk.old.layout asked (writes_of lines.old.puts)
        → IsDiskByRows lines.new.module_ lines.new.heard disk.old.layout
        (told asked requests.now answers.items)) }
    ensures all { IfOk result (λ answers. length answers.items ≡ length requests.now) }
    ensures has { HasHeard lines.new.module_ (A.state lines.new.array) lines.new.heard }
    ensures ready { IsReady B (writes_of lines.new.puts) disk.new }
    ensures layout { disk.new.layout ≡ disk.old.layout }
    ensures cause { IfOk result (λ answers. RoseBy (stops_in answers.items)
        (stops_at lines.old.module_.tick lines.old.heard)
        (stops_at lines.new.module_.tick lines.new.heard)) }
    ensures kind { kind_on A.state lines.new ≡ kind_on A.state lines.old }
    ensures cuts { CutsCome lines.new.cuts lines.new.heard lines.new.module_.tick }
{
    lines_that_agree_are_one_disk();
    let served = serve_all(alloc, disk, lines, requests);
    lines.stands();
    served
}
