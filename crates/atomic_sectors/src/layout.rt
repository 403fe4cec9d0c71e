// How sectors lie on lines.
ghost use Rattle.std.specs.Prelude.{◌≡◌, ◌+◌, ◌*◌, ◌<◌, ◌≤◌};
ghost use Rattle.atomic_sectors.specs.Sectors.{Fits, word_line, word_at};

/// How many lines a sector has, and how many sectors there are. Behind one block more than there
/// are sectors stands the map, with a word of four bytes for each sector.
#[derive(Clone, Copy, Debug, PartialEq, Eq)]
pub struct Layout {
    pub block: u32,
    pub sectors: u32,
}

impl Layout {
    // The line that has a sector's word.
    pub(crate) fn word_line<const B: usize>(&self, sector: u32, lines: u32) -> u32
        requires fits { Fits B self.now lines }
        requires exists { sector < self.now.sectors }
        ensures line { result ≡ word_line B self.now sector }
        ensures within { result < lines }
    {
        (self.sectors + 1) * self.block + sector / (B as u32 / 4)
    }

    // Where the word begins there.
    pub(crate) fn word_at<const B: usize>(&self, sector: u32, lines: u32) -> usize
        requires fits { Fits B self.now lines }
        ensures at { result ≡ word_at B self.now sector }
        ensures within { result + 4 ≤ B }
    {
        4 * (sector as usize % (B / 4))
    }
}
