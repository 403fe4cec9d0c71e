// How many sectors there is room for.
ghost use Rattle.std.specs.Prelude.{◌≡◌, ℕ, ◌+◌, ◌*◌, ◌/◌, ◌<◌, ◌≤◌, ◌^◌, IfSome};
ghost use Rattle.atomic_sectors.specs.Sectors.{Fits};
ghost use Rattle.disk_words.specs.Layouts.{fitting, layout_of, line_bytes};

use atomic_sectors::Layout;
use command_line::LineSize;

// How many bytes a line has.
fn line_bytes(line: LineSize) -> u32
    ensures bytes { result ≡ line_bytes line }
    ensures least { 64 ≤ result }
    ensures most { result ≤ 128 }
{
    match line {
        LineSize::Bytes64 => 64,
        LineSize::Bytes128 => 128,
    }
}

// How many sectors of so many lines fit into this room, beside a block and a line of the map, of
// which each has so many words.
fn fitting(words: u32, block: u32, room: u32) -> u32
    requires words { (16 ≤ words) × (words ≤ 32) }
    requires block { (1 ≤ block) × (block ≤ 256) }
    requires room { room ≤ 2 ^ 26 }
    ensures exact { result ≡ fitting words block room }
{
    let each = words * block + 1;
    room / each * words + (room % each / block).min(words - 1)
}

/// As many sectors of so many bytes as a module of so many lines has room for; None where it has
/// none for one of them, or there are no such sectors.
pub(crate) fn layout(line: LineSize, lines: u32, sector: u32) -> Option<Layout>
    requires sector { (1 ≤ sector) × (sector ≤ 16384) }
    requires lines { lines ≤ 2 ^ 26 }
    ensures exact { result ≡ layout_of (line_bytes line) lines sector }
    ensures fits { IfSome result (λ layout. Fits (line_bytes line) layout lines) }
    ensures some { IfSome result (λ layout. 1 ≤ layout.sectors) }
    ensures most { IfSome result (λ layout. (sectors : ℕ)
        → Fits (line_bytes line) (record layout { sectors = sectors }) lines
        → sectors ≤ layout.sectors) }
{
    let bytes = line_bytes(line);
    let block = sector / bytes;
    if !sector.is_power_of_two() || block == 0 || lines <= 2 * block {
        return None;
    }
    Some(Layout {
        block,
        sectors: fitting(bytes / 4, block, lines - block - 1),
    })
}
