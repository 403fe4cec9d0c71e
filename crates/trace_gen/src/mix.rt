//! What a generated trace is made of.
ghost use Rattle.std.specs.Prelude.{◌≡◌, ◌+◌, ◌≤◌, ◌<◌};
ghost use Rattle.trace_gen.specs.Generated.{IsLongMix, cut_distance, is_cut_row, line_drawn, draws_write};

/// The number of rows and what they are. Nine words in ten draw a line among the hot ones, where there are any, and the
/// others draw one among all.
#[derive(Clone, Copy, PartialEq, Eq)]
pub struct Mix {
    /// How many rows, 1 to 400,000; of a long trace up to 4,000,000,000.
    pub rows: u32,
    /// How many of a hundred reads and writes are writes.
    pub write_percent: u32,
    /// How many rows are power cuts, up to all.
    pub cuts: u32,
    /// By how much the tick rises at most from row to row, 0 to 65,535.
    pub step: u32,
    /// How many of the first lines are hot, 0 to 65,536; of a long trace up to 67,108,864. 0: none are.
    pub hot: u32,
}

impl Mix {
    // How far apart the cuts are.
    pub(crate) fn cut_distance(&self) -> u32
        requires { IsLongMix self.now }
        ensures distance { result ≡ cut_distance self.now }
        ensures some { 1 ≤ result }
    {
        (self.rows / (self.cuts + 1)).max(1)
    }

    // Whether the row of this number is a cut.
    #[tactic(auto, unfolding(crate::specs::Generated::is_cut_row))]
    pub(crate) fn is_cut(&self, row: u32, distance: u32) -> bool
        requires distance { distance ≡ cut_distance self.now }
        requires some { 1 ≤ distance }
        ensures { result ≡ is_cut_row self.now row }
    {
        row % distance == 0 && row / distance <= self.cuts
    }

    // The line that a word draws.
    #[tactic(auto, unfolding(crate::specs::Generated::line_drawn))]
    pub(crate) fn line(&self, lines: u32, word: u64) -> u32
        requires { 1 ≤ lines }
        ensures { result ≡ line_drawn lines self.now word }
    {
        if self.hot > 0 && (word >> 40) % 10 < 9 {
            (word % u64::from(self.hot.min(lines))) as u32
        } else {
            (word % u64::from(lines)) as u32
        }
    }

    // Whether a word draws a write.
    #[tactic(auto, unfolding(crate::specs::Generated::draws_write))]
    pub(crate) fn is_write(&self, word: u64) -> bool
        ensures { result ≡ draws_write self.now word }
    {
        (word >> 32) % 100 < u64::from(self.write_percent)
    }
}
