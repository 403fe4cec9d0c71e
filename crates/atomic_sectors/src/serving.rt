// Requests, one after the other, whatever stops them.
ghost use Rattle.std.specs.Prelude.{◌≡◌, ◌<◌, ◌≤◌, List, All, IfOk, OnErr, length};
ghost use Rattle.pcm_io.specs.Faults.{Rose};
ghost use Rattle.atomic_sectors.specs.Lines.{stand};
ghost use Rattle.atomic_sectors.specs.Sectors.{Fits, Have, IsMapped, IsWhole};
ghost use Rattle.atomic_sectors.specs.Serving.{Made, content, Serves, ServesRead, ServesWrite, ServeAll, IsAsked, IsKnown};
ghost use Rattle.atomic_sectors.specs.Stops.{RoseBy, stops_of, stops_in};

use crate::layout::Layout;
use crate::lines::{Lines, Stopped};
use crate::sectors::Sectors;
use std::alloc::{AllocError, Global};

/// What sectors are asked for.
#[derive(Drop)]
pub enum SectorRequest<const B: usize> {
    Read(u32),
    Write(u32, Vec<[u8; B]>),
}

/// What they answer.
#[derive(Drop)]
pub enum SectorAnswer<const B: usize> {
    Lines(Vec<[u8; B]>),
    Done,
    Stopped(Stopped),
}

/// The sectors as they are known; where nothing is known, as behind a stop, they are opened again.
pub fn opened<const B: usize, L: Lines<B>>(
    layout: Layout,
    lines: &mut L,
    known: Option<Sectors>,
) -> Result<Sectors, Stopped>
    requires fits { Fits B layout (L.count (L.kind lines.old)) }
    requires known { IsKnown B layout (L.made lines.old) known }
    ensures layout { IfOk result (λ s. s.layout ≡ layout) }
    ensures mapped { IfOk result (λ s. IsMapped B layout (stand B (L.made lines.old)) s.free) }
    ensures made { L.made lines.new ≡ L.made lines.old }
    ensures cause { OnErr result (Rose (L.stops lines.old) (L.stops lines.new)) }
    ensures never_falls { L.stops lines.old ≤ L.stops lines.new }
    ensures kind { L.kind lines.new ≡ L.kind lines.old }
{
    match known {
        Some(sectors) => Ok(sectors),
        None => Sectors::open(layout, lines),
    }
}

/// Serves one request. What is known of the sectors behind it is handed back.
pub fn serve<const B: usize, L: Lines<B>>(
    alloc: Global,
    layout: Layout,
    lines: &mut L,
    known: Option<Sectors>,
    request: &SectorRequest<B>,
) -> (SectorAnswer<B>, Option<Sectors>)
    requires fits { Fits B layout (L.count (L.kind lines.old)) }
    requires known { IsKnown B layout (L.made lines.old) known }
    requires asked { IsAsked B layout request.now }
    ensures serves { (before : List Made)
        → Have B layout (stand B (L.made lines.old)) (content B before)
        → (behind : List Made) × Serves B layout.block request.now result.0 before behind
        × Have B layout (stand B (L.made lines.new)) (content B behind) }
    ensures known { IsKnown B layout (L.made lines.new) result.1 }
    ensures cause { RoseBy (stops_of result.0) (L.stops lines.old) (L.stops lines.new) }
    ensures kind { L.kind lines.new ≡ L.kind lines.old }
{
    let sectors = match opened(layout, lines, known) {
        Ok(sectors) => sectors,
        Err(why) => return (SectorAnswer::Stopped(why), None),
    };
    match request {
        SectorRequest::Read(sector) => read(alloc, sectors, lines, *sector),
        SectorRequest::Write(sector, from) => write(sectors, lines, *sector, from.as_slice()),
    }
}

// So many lines of zeros.
fn zeros<const B: usize>(alloc: Global, count: u32) -> Result<Vec<[u8; B]>, AllocError>
    ensures count { IfOk result (λ lines. length lines.items ≡ count) }
{
    vec![in alloc; [0; B]; count as usize]
}

// Serves a read.
fn read<const B: usize, L: Lines<B>>(
    alloc: Global,
    sectors: Sectors,
    lines: &mut L,
    sector: u32,
) -> (SectorAnswer<B>, Option<Sectors>)
    requires fits { Fits B sectors.layout (L.count (L.kind lines.old)) }
    requires mapped { IsMapped B sectors.layout (stand B (L.made lines.old)) sectors.free }
    requires exists { sector < sectors.layout.sectors }
    ensures serves { (before : List Made)
        → Have B sectors.layout (stand B (L.made lines.old)) (content B before)
        → ServesRead B sectors.layout.block sector result.0 before }
    ensures made { L.made lines.new ≡ L.made lines.old }
    ensures known { IsKnown B sectors.layout (L.made lines.old) result.1 }
    ensures cause { RoseBy (stops_of result.0) (L.stops lines.old) (L.stops lines.new) }
    ensures kind { L.kind lines.new ≡ L.kind lines.old }
{
    let Ok(mut to) = zeros::<B>(alloc, sectors.layout.block) else {
        return (SectorAnswer::Stopped(Stopped::Memory), Some(sectors));
    };
    match sectors.read(lines, sector, to.as_mut_slice()) {
        Ok(()) => (SectorAnswer::Lines(to), Some(sectors)),
        Err(why) => (SectorAnswer::Stopped(why), Some(sectors)),
    }
}

// Serves a write.
fn write<const B: usize, L: Lines<B>>(
    sectors: Sectors,
    lines: &mut L,
    sector: u32,
    from: &[[u8; B]],
) -> (SectorAnswer<B>, Option<Sectors>)
    requires fits { Fits B sectors.layout (L.count (L.kind lines.old)) }
    requires mapped { IsMapped B sectors.layout (stand B (L.made lines.old)) sectors.free }
    requires exists { sector < sectors.layout.sectors }
    requires whole { length from.now ≡ sectors.layout.block }
    ensures serves { (before : List Made)
        → Have B sectors.layout (stand B (L.made lines.old)) (content B before)
        → (behind : List Made) × ServesWrite B (record {
          sector = sector;
          lines = from.now;
        }) result.0 before behind
        × Have B sectors.layout (stand B (L.made lines.new)) (content B behind) }
    ensures known { IsKnown B sectors.layout (L.made lines.new) result.1 }
    ensures cause { RoseBy (stops_of result.0) (L.stops lines.old) (L.stops lines.new) }
    ensures kind { L.kind lines.new ≡ L.kind lines.old }
{
    let mut sectors = sectors;
    match sectors.write(lines, sector, from) {
        Ok(()) => (SectorAnswer::Done, Some(sectors)),
        Err(why) => (SectorAnswer::Stopped(why), None),
    }
}

/// Serves requests, whatever stops some of them: each read that is answered has the newest writes
/// of its sector, of which each that was acknowledged was made, and one that was stopped was made
/// or wasn't, once and for all. No more requests are stopped, but for want of memory, than calls of
/// the lines were.
pub fn serve_all<const B: usize, L: Lines<B>>(
    alloc: Global,
    layout: Layout,
    lines: &mut L,
    requests: &[SectorRequest<B>],
) -> Result<Vec<SectorAnswer<B>>, AllocError>
    requires fits { Fits B layout (L.count (L.kind lines.old)) }
    requires whole { IsWhole B layout (stand B (L.made lines.old)) }
    requires asked { All (IsAsked B layout) requests.now }
    ensures served { IfOk result (λ answers. (before : List Made)
        → Have B layout (stand B (L.made lines.old)) (content B before)
        → (behind : List Made) × ServeAll B layout.block requests.now answers.items before behind
        × Have B layout (stand B (L.made lines.new)) (content B behind)) }
    ensures whole { IsWhole B layout (stand B (L.made lines.new)) }
    ensures cause { IfOk result (λ answers. RoseBy (stops_in answers.items) (L.stops lines.old)
        (L.stops lines.new)) }
    ensures kind { L.kind lines.new ≡ L.kind lines.old }
{
    let mut known = None;
    let mut answers = Vec::new(alloc);
    for request in requests {
        let (answer, sectors) = serve(alloc, layout, lines, known, request);
        known = sectors;
        answers.push(answer)?;
    }
    Ok(answers)
}
