//! A disk on a module, served to its clients.
ghost use Rattle.std.specs.Prelude.{◌≡◌, [], List};
ghost use Rattle.atomic_sectors.specs.Sectors.{Fits};
ghost use Rattle.module_shape.specs.Limits.{total_of};
ghost use Rattle.disk_rules.specs.declared.{DiskRequest.DiskRequest, DiskAnswer.DiskAnswer};
ghost use Rattle.disk_bytes.specs.Parts.{IsReady};
ghost use Rattle.disk_bytes.specs.Serving.{IsServed};
ghost use Rattle.disk_lines.specs.Asking.{HasHeard};
ghost use Rattle.disk_lines.specs.Cutting.{CutsCome};
ghost use Rattle.disk_lines.specs.Lines.{kind_on, writes_of};
ghost use Rattle.disk_server.specs.Messages.{asked};
ghost use Rattle.disk_server.specs.Sessions.{IsSession, seen};
ghost use Rattle.disk_promise.specs.Clients.{made_on, stops_on};
ghost use Rattle.disk_promise.specs.Keeping.{IsDiskKept};

use crate::no_moment_loses_a_disk;
use cell_rows::CellArray;
use disk_bytes::Disk;
use disk_lines::PcmLines;
use disk_rules::{lines_that_agree_are_one_disk, new_lines_are_a_new_disk};
use disk_server::{Ended, OnCut, serve};
use pcm_io::{Sink, Source};
use std::alloc::Global;

/// Serves a disk on a module to one client, over NBD, whatever power cuts come, and however cells
/// miss, tear or stick: what comes and goes is a session, byte for byte, and what the disk answered
/// in it is kept with all that it answered before: each byte that was acknowledged is decoded from
/// the array or stands in a protected queue. The next client goes on from there, whatever ended the
/// session.
pub fn serve_client<
    const B: usize,
    const M: usize,
    const E: usize,
    A: CellArray<B, M> + Drop,
    S: Source,
    K: Sink,
>(
    alloc: Global,
    disk: &mut Disk<B>,
    lines: &mut PcmLines<B, M, E, A>,
    on_cut: OnCut,
    source: &mut S,
    sink: &mut K,
) -> Ended
    requires fits { Fits B disk.old.layout (total_of lines.old.module_.shape) }
    requires ready { IsReady B (writes_of lines.old.puts) disk.old }
    ensures session { (session : IsSession B disk.old.layout on_cut
        (seen S.left S.taken S.faults K.written K.faults made_on stops_on source.old sink.old
        lines.old)
        (seen S.left S.taken S.faults K.written K.faults made_on stops_on source.new sink.new
        lines.new) result)
        × ((earlier : List (DiskRequest × DiskAnswer))
        → IsServed B disk.old.layout earlier (writes_of lines.old.puts)
        → IsDiskKept lines.new.module_ (A.state lines.new.array) lines.new.heard disk.old.layout
        (asked session.messages earlier))
        × (lines.old.puts ≡ []
        → IsDiskKept lines.new.module_ (A.state lines.new.array) lines.new.heard disk.old.layout
        (asked session.messages [])) }
    ensures has { HasHeard lines.new.module_ (A.state lines.new.array) lines.new.heard }
    ensures ready { IsReady B (writes_of lines.new.puts) disk.new }
    ensures layout { disk.new.layout ≡ disk.old.layout }
    ensures kind { kind_on A.state lines.new ≡ kind_on A.state lines.old }
    ensures cuts { CutsCome lines.new.cuts lines.new.heard lines.new.module_.tick }
{
    new_lines_are_a_new_disk();
    lines_that_agree_are_one_disk();
    no_moment_loses_a_disk();
    let ended = serve(alloc, disk, lines, on_cut, source, sink);
    lines.stands();
    ended
}
