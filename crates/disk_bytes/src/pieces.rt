// The sectors that some bytes lie in.
ghost use Rattle.std.specs.Prelude.{◌≡◌, ◌+◌, ◌-◌, ◌*◌, ◌/◌, ◌%◌, ◌<◌, ◌≤◌, min};
ghost use Rattle.disk_rules.specs.Standing.{sector_size, disk_size};

use atomic_sectors::Layout;

// The part of some bytes that lies in one sector: where it begins there, and how many bytes it has.
#[derive(Clone, Copy)]
pub(crate) struct Piece {
    pub(crate) sector: u32,
    pub(crate) begin: usize,
    pub(crate) size: usize,
}

// The first piece of so many bytes from an offset on.
pub(crate) fn first_piece<const B: usize>(layout: Layout, at: u64, left: usize) -> Piece
    requires words { 4 ≤ B }
    requires short { B ≤ 128 }
    requires some { 0 < layout.block }
    requires left { 0 < left }
    requires within { at + left ≤ disk_size B layout }
    ensures sector { result.sector ≡ at / sector_size B layout }
    ensures begin { result.begin ≡ at % sector_size B layout }
    ensures size { result.size ≡ min (sector_size B layout - at % sector_size B layout) left }
    ensures exists { result.sector < layout.sectors }
{
    let size = u64::from(layout.block) * B as u64;
    let begin = at % size;
    Piece {
        sector: (at / size) as u32,
        begin: begin as usize,
        size: (size - begin).min(left as u64) as usize,
    }
}
