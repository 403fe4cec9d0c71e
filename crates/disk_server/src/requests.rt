// The requests of a client.
ghost use Rattle.std.specs.Prelude.{◌≡◌, ◌≢◌, ℕ, ◌≤◌, ◌<◌, ◌++◌, List, length, IfOk, IfErr, OnErr};
ghost use Rattle.pcm_io.specs.Faults.{Rose};
ghost use Rattle.pcm_io.specs.Taking.{Takes};
ghost use Rattle.atomic_sectors.specs.Sectors.{Fits};
ghost use Rattle.disk_bytes.specs.Parts.{IsReady};
ghost use Rattle.nbd_frames.specs.Requests.{IsHeader, reply_bytes, request_bytes};
ghost use Rattle.nbd_frames.specs.declared.request.Command.TheVariants.{Disconnect};
ghost use Rattle.disk_server.specs.Exchanges.{Brings, failure_of, bytes_of, is_known, is_request, payload_of};
ghost use Rattle.disk_server.specs.Reading.{StopsAmid};
ghost use Rattle.disk_server.specs.Endings.{NoneFollows};
ghost use Rattle.disk_server.specs.Answering.{IsAnswered, WritesOr};
ghost use Rattle.disk_server.specs.declared.phase.SessionPhase.TheVariants.{Serving};

use crate::answering::{OnCut, ask, bytes_of, failure_of};
use crate::phase::Ended;
use crate::reading::{fill, read_on, skip};
use crate::writing::write_both;
use atomic_sectors::Lines;
use disk_bytes::Disk;
use disk_rules::{DiskAnswer, DiskRequest};
use nbd_frames::{Command, Failure, RequestHeader, read_request, reply};
use pcm_io::{Sink, Source, WriteFault, write_all};
use std::alloc::Global;

// The most bytes that one request reads or writes: 32 MiB.
const MOST_BYTES: u32 = 33_554_432;

// Whether there is such a request, of so many bytes.
fn is_known(command: Command, size: u32) -> bool
    ensures { result ≡ is_known command size }
{
    match command {
        Command::Read | Command::Write => size <= MOST_BYTES,
        Command::Flush => true,
        Command::Disconnect | Command::Other(_) => false,
    }
}

// Whether there is one that begins so.
fn is_request(header: &RequestHeader) -> bool
    ensures { result ≡ is_request header.now }
{
    header.flags < 2 && is_known(header.command, header.size)
}

// A request that came: what the disk is asked for, or why it isn't asked.
#[derive(Drop)]
pub(crate) struct Received {
    pub(crate) header: RequestHeader,
    pub(crate) request: Result<DiskRequest, Failure>,
}

// Reads the bytes of a write.
fn receive_write<S: Source>(
    alloc: Global,
    source: &mut S,
    header: &RequestHeader,
) -> Result<Result<DiskRequest, Failure>, Ended>
    requires write { header.now.command ≡ Command.Write }
    ensures came { IfOk result (λ request. (bytes : List ℕ) × (length bytes ≡ header.now.size)
        × Takes (S.left source.old) (S.left source.new) (S.taken source.old) (S.taken source.new)
        bytes × Brings header.now bytes request) }
    ensures short { IfErr result (λ ended. (bytes : List ℕ) × (length bytes < header.now.size)
        × Takes (S.left source.old) (S.left source.new) (S.taken source.old) (S.taken source.new)
        bytes × StopsAmid ended (S.left source.new) (S.faults source.old) (S.faults source.new)) }
    ensures never_falls { S.faults source.old ≤ S.faults source.new }
{
    if !is_request(header) {
        skip(source, header.size)?;
        return Ok(Err(Failure::Invalid));
    }
    let at = header.at;
    match read_on(alloc, source, header.size)? {
        Some(bytes) => Ok(Ok(DiskRequest::Write { at, bytes })),
        None => Ok(Err(Failure::NoMemory)),
    }
}

// Reads what comes with a request.
fn receive_rest<S: Source>(
    alloc: Global,
    source: &mut S,
    header: &RequestHeader,
) -> Result<Result<DiskRequest, Failure>, Ended>
    ensures came { IfOk result (λ request. (bytes : List ℕ)
        × (length bytes ≡ payload_of header.now.command header.now.size)
        × Takes (S.left source.old) (S.left source.new) (S.taken source.old) (S.taken source.new)
        bytes × Brings header.now bytes request) }
    ensures short { IfErr result (λ ended. (bytes : List ℕ)
        × (length bytes < payload_of header.now.command header.now.size)
        × Takes (S.left source.old) (S.left source.new) (S.taken source.old) (S.taken source.new)
        bytes × StopsAmid ended (S.left source.new) (S.faults source.old) (S.faults source.new)) }
    ensures never_falls { S.faults source.old ≤ S.faults source.new }
{
    match header.command {
        Command::Write => receive_write(alloc, source, header),
        Command::Read if is_request(header) => Ok(Ok(DiskRequest::Read {
            at: header.at,
            size: header.size,
        })),
        Command::Flush if is_request(header) => Ok(Ok(DiskRequest::Flush)),
        _ => Ok(Err(Failure::Invalid)),
    }
}

// Reads a request.
pub(crate) fn receive_request<S: Source>(alloc: Global, source: &mut S) -> Result<Received, Ended>
    ensures came { IfOk result (λ it. (bytes : List ℕ) × IsHeader it.header
        × (it.header.command ≢ Disconnect)
        × (length bytes ≡ payload_of it.header.command it.header.size)
        × Takes (S.left source.old) (S.left source.new) (S.taken source.old) (S.taken source.new)
        (request_bytes it.header ++ bytes) × Brings it.header bytes it.request) }
    ensures none { IfErr result (λ ended. (bytes : List ℕ) × Takes (S.left source.old)
        (S.left source.new) (S.taken source.old) (S.taken source.new) bytes
        × NoneFollows ended Serving bytes (S.left source.new) (S.faults source.old)
        (S.faults source.new)) }
    ensures never_falls { S.faults source.old ≤ S.faults source.new }
{
    let mut bytes = [0; 28];
    fill(source, &mut bytes)?;
    let Some(header) = read_request(&bytes) else {
        return Err(Ended::Strange);
    };
    if header.command == Command::Disconnect {
        return Err(Ended::Left);
    }
    let request = receive_rest(alloc, source, &header)?;
    Ok(Received { header, request })
}

// Writes what the disk answered.
fn write_answer<K: Sink>(
    sink: &mut K,
    cookie: u64,
    request: &DiskRequest,
    answer: &DiskAnswer,
) -> Result<(), WriteFault>
    ensures written { WritesOr result (K.written sink.old) (K.written sink.new)
        (reply_bytes (failure_of request.now answer.now) cookie ++ bytes_of answer.now) }
    ensures fault { OnErr result (Rose (K.faults sink.old) (K.faults sink.new)) }
    ensures never_falls { K.faults sink.old ≤ K.faults sink.new }
{
    let front = reply(failure_of(request, answer), cookie);
    write_both(sink, &front, bytes_of(answer))
}

// Answers a request: the disk is asked for it, where there is such a one.
pub(crate) fn answer_request<const B: usize, L: Lines<B>, K: Sink>(
    alloc: Global,
    disk: &mut Disk<B>,
    lines: &mut L,
    on_cut: OnCut,
    sink: &mut K,
    received: &Received,
) -> Result<(), WriteFault>
    requires fits { Fits B disk.old.layout (L.count (L.kind lines.old)) }
    requires ready { IsReady B (L.made lines.old) disk.old }
    ensures answered { IsAnswered B disk.old.layout on_cut received.now.header received.now.request
        (L.made lines.old) (L.made lines.new) (L.stops lines.old) (L.stops lines.new)
        (K.written sink.old) (K.written sink.new) result }
    ensures fault { OnErr result (Rose (K.faults sink.old) (K.faults sink.new)) }
    ensures never_falls { K.faults sink.old ≤ K.faults sink.new }
    ensures ready { IsReady B (L.made lines.new) disk.new }
    ensures layout { disk.new.layout ≡ disk.old.layout }
    ensures kind { L.kind lines.new ≡ L.kind lines.old }
{
    let cookie = received.header.cookie;
    match &received.request {
        Ok(request) => {
            let answer = ask(alloc, disk, lines, on_cut, request);
            write_answer(sink, cookie, request, &answer)
        }
        Err(failure) => write_all(sink, &reply(Some(*failure), cookie)),
    }
}
