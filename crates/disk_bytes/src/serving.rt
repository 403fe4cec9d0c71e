// Requests of a disk, one after the other, whatever stops them.
ghost use Rattle.std.specs.Prelude.{◌≡◌, ℕ, ◌∷◌, [], List, IfOk, length};
ghost use Rattle.atomic_sectors.specs.Lines.{stand};
ghost use Rattle.atomic_sectors.specs.Sectors.{Fits};
ghost use Rattle.atomic_sectors.specs.Stops.{RoseBy};
ghost use Rattle.disk_rules.specs.Disk.{Written, told};
ghost use Rattle.disk_rules.specs.Standing.{HoldsDisk};
ghost use Rattle.disk_rules.specs.declared.{DiskRequest.DiskRequest, DiskAnswer.DiskAnswer};
ghost use Rattle.disk_bytes.specs.Parts.{IsReady};
ghost use Rattle.disk_bytes.specs.Serving.{IsServed, Reads, Writes, stops_of, stops_in};

use crate::disk::Disk;
use atomic_sectors::{Lines, Stopped};
use disk_rules::{DiskAnswer, DiskRequest};
use std::alloc::{AllocError, Global};

/// Serves one request.
pub fn serve<const B: usize, L: Lines<B>>(
    alloc: Global,
    disk: &mut Disk<B>,
    lines: &mut L,
    request: &DiskRequest,
) -> DiskAnswer
    requires fits { Fits B disk.old.layout (L.count (L.kind lines.old)) }
    requires ready { IsReady B (L.made lines.old) disk.old }
    ensures served { (asked : List (DiskRequest × DiskAnswer))
        → IsServed B disk.old.layout asked (L.made lines.old)
        → IsServed B disk.old.layout ((request.now, result) ∷ asked) (L.made lines.new) }
    ensures ready { IsReady B (L.made lines.new) disk.new }
    ensures layout { disk.new.layout ≡ disk.old.layout }
    ensures cause { RoseBy (stops_of result) (L.stops lines.old) (L.stops lines.new) }
    ensures kind { L.kind lines.new ≡ L.kind lines.old }
{
    match request {
        DiskRequest::Read { at, size } => read(alloc, disk, lines, *at, *size),
        DiskRequest::Write { at, bytes } => write(disk, lines, *at, bytes.as_slice()),
        DiskRequest::Flush => DiskAnswer::Done,
    }
}

// So many zeros.
fn zeros(alloc: Global, count: u32) -> Result<Vec<u8>, AllocError>
    ensures count { IfOk result (λ bytes. length bytes.items ≡ count) }
{
    vec![in alloc; 0; count as usize]
}

// Serves a read.
fn read<const B: usize, L: Lines<B>>(
    alloc: Global,
    disk: &mut Disk<B>,
    lines: &mut L,
    at: u64,
    size: u32,
) -> DiskAnswer
    requires fits { Fits B disk.old.layout (L.count (L.kind lines.old)) }
    requires ready { IsReady B (L.made lines.old) disk.old }
    ensures reads { Reads B disk.old.layout (stand B (L.made lines.old)) at size result }
    ensures made { L.made lines.new ≡ L.made lines.old }
    ensures ready { IsReady B (L.made lines.old) disk.new }
    ensures layout { disk.new.layout ≡ disk.old.layout }
    ensures cause { RoseBy (stops_of result) (L.stops lines.old) (L.stops lines.new) }
    ensures kind { L.kind lines.new ≡ L.kind lines.old }
{
    if let Some(refusal) = disk.refusal(lines, at, u64::from(size)) {
        return DiskAnswer::Refused(refusal);
    }
    let Ok(mut to) = zeros(alloc, size) else {
        return DiskAnswer::Stopped(Stopped::Memory);
    };
    match disk.read(lines, at, to.as_mut_slice()) {
        Ok(()) => DiskAnswer::Bytes(to),
        Err(why) => DiskAnswer::Stopped(why),
    }
}

// Serves a write.
fn write<const B: usize, L: Lines<B>>(
    disk: &mut Disk<B>,
    lines: &mut L,
    at: u64,
    bytes: &[u8],
) -> DiskAnswer
    requires fits { Fits B disk.old.layout (L.count (L.kind lines.old)) }
    requires ready { IsReady B (L.made lines.old) disk.old }
    ensures writes { (before : List Written)
        → HoldsDisk B disk.old.layout (stand B (L.made lines.old)) before
        → Writes B disk.old.layout (stand B (L.made lines.new)) at bytes.now before result }
    ensures ready { IsReady B (L.made lines.new) disk.new }
    ensures layout { disk.new.layout ≡ disk.old.layout }
    ensures cause { RoseBy (stops_of result) (L.stops lines.old) (L.stops lines.new) }
    ensures kind { L.kind lines.new ≡ L.kind lines.old }
{
    if let Some(refusal) = disk.refusal(lines, at, bytes.len() as u64) {
        return DiskAnswer::Refused(refusal);
    }
    match disk.write(lines, at, bytes) {
        Ok(()) => DiskAnswer::Done,
        Err(why) => DiskAnswer::Stopped(why),
    }
}

/// Serves requests, whatever stops some of them: the answers are those of a disk. Each read that is
/// answered has, byte for byte, what the newest writes gave; a write that is acknowledged is made
/// whole; and of one that is stopped some first bytes are made, up to the end of a sector, once and
/// for all. No more requests are stopped, but for want of memory, than calls of the lines were.
/// Where no memory is left for the list of answers, nothing is said of which were served.
pub fn serve_all<const B: usize, L: Lines<B>>(
    alloc: Global,
    disk: &mut Disk<B>,
    lines: &mut L,
    requests: &[DiskRequest],
) -> Result<Vec<DiskAnswer>, AllocError>
    requires fits { Fits B disk.old.layout (L.count (L.kind lines.old)) }
    requires ready { IsReady B (L.made lines.old) disk.old }
    ensures served { IfOk result (λ answers. (asked : List (DiskRequest × DiskAnswer))
        → IsServed B disk.old.layout asked (L.made lines.old)
        → IsServed B disk.old.layout (told asked requests.now answers.items) (L.made lines.new)) }
    ensures all { IfOk result (λ answers. length answers.items ≡ length requests.now) }
    ensures ready { IsReady B (L.made lines.new) disk.new }
    ensures layout { disk.new.layout ≡ disk.old.layout }
    ensures cause { IfOk result (λ answers. RoseBy (stops_in answers.items) (L.stops lines.old)
        (L.stops lines.new)) }
    ensures kind { L.kind lines.new ≡ L.kind lines.old }
{
    let mut answers = Vec::new(alloc);
    for request in requests {
        let answer = serve(alloc, disk, lines, request);
        answers.push(answer)?;
    }
    Ok(answers)
}
