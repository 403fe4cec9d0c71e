// The session of a client.
ghost use Rattle.std.specs.Prelude.{◌≡◌, ◌≤◌, IfOk, IfErr};
ghost use Rattle.atomic_sectors.specs.Sectors.{Fits};
ghost use Rattle.disk_bytes.specs.Parts.{IsReady};
ghost use Rattle.disk_server.specs.Sessions.{Answers, IsSession, StopsBy, seen};

use crate::answering::OnCut;
use crate::choosing::{answer_option, receive_flags, receive_option};
use crate::phase::{Ended, SessionPhase};
use crate::requests::{answer_request, receive_request};
use atomic_sectors::Lines;
use disk_bytes::Disk;
use nbd_frames::greet;
use pcm_io::{Sink, Source, write_all};
use std::alloc::Global;

// Reads the next message and answers it; then the client and the server stand so.
fn step<const B: usize, L: Lines<B>, S: Source, K: Sink>(
    alloc: Global,
    disk: &mut Disk<B>,
    lines: &mut L,
    on_cut: OnCut,
    phase: SessionPhase,
    source: &mut S,
    sink: &mut K,
) -> Result<SessionPhase, Ended>
    requires fits { Fits B disk.old.layout (L.count (L.kind lines.old)) }
    requires ready { IsReady B (L.made lines.old) disk.old }
    ensures answers { IfOk result (λ next. Answers B disk.old.layout on_cut phase
        (seen S.left S.taken S.faults K.written K.faults L.made L.stops source.old sink.old
        lines.old)
        (seen S.left S.taken S.faults K.written K.faults L.made L.stops source.new sink.new
        lines.new) next) }
    ensures stops { IfErr result (λ ended. StopsBy B disk.old.layout on_cut phase
        (seen S.left S.taken S.faults K.written K.faults L.made L.stops source.old sink.old
        lines.old)
        (seen S.left S.taken S.faults K.written K.faults L.made L.stops source.new sink.new
        lines.new) ended) }
    ensures read_faults { S.faults source.old ≤ S.faults source.new }
    ensures write_faults { K.faults sink.old ≤ K.faults sink.new }
    ensures ready { IsReady B (L.made lines.new) disk.new }
    ensures layout { disk.new.layout ≡ disk.old.layout }
    ensures kind { L.kind lines.new ≡ L.kind lines.old }
{
    match phase {
        SessionPhase::Opening => {
            let flags = receive_flags(source)?;
            Ok(SessionPhase::Choosing(flags < 2))
        }
        SessionPhase::Choosing(zeros) => {
            let chosen = receive_option(source, zeros)?;
            let size = disk.size(lines);
            match answer_option(sink, size, zeros, &chosen) {
                Ok(()) => Ok(chosen.next(phase)),
                Err(_) => Err(Ended::Unwritten),
            }
        }
        SessionPhase::Serving => {
            let received = receive_request(alloc, source)?;
            match answer_request(alloc, disk, lines, on_cut, sink, &received) {
                Ok(()) => Ok(phase),
                Err(_) => Err(Ended::Unwritten),
            }
        }
        SessionPhase::Over => Err(Ended::Left),
    }
}

/// Serves a disk to one client: its handshake, and then its requests, one after the other, each
/// answered before the next is read. Behind it the disk can be served to the next client, whatever
/// ended the session.
pub fn serve<const B: usize, L: Lines<B>, S: Source, K: Sink>(
    alloc: Global,
    disk: &mut Disk<B>,
    lines: &mut L,
    on_cut: OnCut,
    source: &mut S,
    sink: &mut K,
) -> Ended
    requires fits { Fits B disk.old.layout (L.count (L.kind lines.old)) }
    requires ready { IsReady B (L.made lines.old) disk.old }
    ensures session { IsSession B disk.old.layout on_cut
        (seen S.left S.taken S.faults K.written K.faults L.made L.stops source.old sink.old
        lines.old)
        (seen S.left S.taken S.faults K.written K.faults L.made L.stops source.new sink.new
        lines.new) result }
    ensures ready { IsReady B (L.made lines.new) disk.new }
    ensures layout { disk.new.layout ≡ disk.old.layout }
    ensures kind { L.kind lines.new ≡ L.kind lines.old }
{
    let Ok(()) = write_all(sink, &greet()) else {
        return Ended::Unwritten;
    };
    let mut phase = SessionPhase::Opening;
    for _message in 0..u64::MAX {
        match step(alloc, disk, lines, on_cut, phase, source, sink) {
            Ok(next) => phase = next,
            Err(ended) => return ended,
        }
    }
    Ended::Endless
}
