// A disk is asked, and what a client is told of its answer.
ghost use Rattle.std.specs.Prelude.{◌≡◌};
ghost use Rattle.atomic_sectors.specs.Sectors.{Fits};
ghost use Rattle.disk_bytes.specs.Parts.{IsReady};
ghost use Rattle.disk_server.specs.Answering.{IsAsked};
ghost use Rattle.disk_server.specs.Exchanges.{bytes_of, failure_of, is_cut};
ghost use Rattle.disk_server.specs.declared.answering.OnCut.TheVariants.{Ride};

use atomic_sectors::{Lines, Stopped};
use disk_bytes::{Disk, serve};
use disk_rules::{DiskAnswer, DiskRefusal, DiskRequest};
use nbd_frames::Failure;
use std::alloc::Global;

/// What becomes of a request that a power cut stops.
#[derive(Clone, Copy, Debug, PartialEq, Eq)]
pub enum OnCut {
    /// It is asked for again, and the client notices nothing.
    Ride,
    /// The client is told that the disk has lost its power.
    Drop,
}

// The most cuts through which a request is asked for again.
const MOST_CUTS: u32 = 4_294_967_295;

// Whether a power cut stopped it.
fn is_cut(answer: &DiskAnswer) -> bool
    ensures { result ≡ is_cut answer.now }
{
    match answer {
        DiskAnswer::Stopped(Stopped::Cut) => true,
        _ => false,
    }
}

// Asks the disk, and again behind each power cut that stops it.
fn ride<const B: usize, L: Lines<B>>(
    alloc: Global,
    disk: &mut Disk<B>,
    lines: &mut L,
    request: &DiskRequest,
) -> DiskAnswer
    requires fits { Fits B disk.old.layout (L.count (L.kind lines.old)) }
    requires ready { IsReady B (L.made lines.old) disk.old }
    ensures asked { IsAsked B disk.old.layout Ride request.now (L.made lines.old)
        (L.made lines.new) (L.stops lines.old) (L.stops lines.new) result }
    ensures ready { IsReady B (L.made lines.new) disk.new }
    ensures layout { disk.new.layout ≡ disk.old.layout }
    ensures kind { L.kind lines.new ≡ L.kind lines.old }
{
    let mut answer = serve(alloc, disk, lines, request);
    for _cut in 0..MOST_CUTS {
        if !is_cut(&answer) {
            return answer;
        }
        answer = serve(alloc, disk, lines, request);
    }
    answer
}

// Asks the disk, and again behind power cuts where it is to ride through them.
pub(crate) fn ask<const B: usize, L: Lines<B>>(
    alloc: Global,
    disk: &mut Disk<B>,
    lines: &mut L,
    on_cut: OnCut,
    request: &DiskRequest,
) -> DiskAnswer
    requires fits { Fits B disk.old.layout (L.count (L.kind lines.old)) }
    requires ready { IsReady B (L.made lines.old) disk.old }
    ensures asked { IsAsked B disk.old.layout on_cut request.now (L.made lines.old)
        (L.made lines.new) (L.stops lines.old) (L.stops lines.new) result }
    ensures ready { IsReady B (L.made lines.new) disk.new }
    ensures layout { disk.new.layout ≡ disk.old.layout }
    ensures kind { L.kind lines.new ≡ L.kind lines.old }
{
    match on_cut {
        OnCut::Ride => ride(alloc, disk, lines, request),
        OnCut::Drop => serve(alloc, disk, lines, request),
    }
}

// Why the request failed, as the client is told, if it did.
pub(crate) fn failure_of(request: &DiskRequest, answer: &DiskAnswer) -> Option<Failure>
    ensures { result ≡ failure_of request.now answer.now }
{
    match (request, answer) {
        (_, DiskAnswer::Done | DiskAnswer::Bytes(_)) => None,
        (DiskRequest::Write { .. }, DiskAnswer::Refused(DiskRefusal::Outside)) => Some(
            Failure::NoSpace,
        ),
        (_, DiskAnswer::Refused(_)) => Some(Failure::Invalid),
        (_, DiskAnswer::Stopped(Stopped::Cut)) => Some(Failure::Shutdown),
        (_, DiskAnswer::Stopped(Stopped::Worn | Stopped::Ended)) => Some(Failure::Io),
        (_, DiskAnswer::Stopped(Stopped::Memory)) => Some(Failure::NoMemory),
    }
}

// The bytes that an answer has.
pub(crate) fn bytes_of(answer: &DiskAnswer) -> &[u8]
    ensures { result.now ≡ bytes_of answer.now }
{
    match answer {
        DiskAnswer::Bytes(bytes) => bytes.as_slice(),
        _ => &[],
    }
}
