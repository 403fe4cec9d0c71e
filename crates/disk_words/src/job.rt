// What the words ask for.
use atomic_sectors::Layout;
use cell_rows::Wear;
use command_line::LineSize;
use disk_server::OnCut;
use module_shape::Shape;

/// A disk on a new module, and when the power is cut.
#[derive(Drop)]
pub struct DiskJob {
    /// The disk.
    pub plan: DiskPlan,
    /// The ticks at which the power is cut, in order.
    pub cuts: Vec<u64>,
}

/// A disk on a new module.
#[derive(Clone, Copy, Drop)]
pub struct DiskPlan {
    /// The size of a line.
    pub line: LineSize,
    /// The sizes and the pace of the module.
    pub shape: Shape,
    /// Picks the keys that mix the lines.
    pub seed: u64,
    /// How the cells wear out; its seed is the same.
    pub wear: Wear,
    /// How many lines a sector has, and how many sectors there are.
    pub layout: Layout,
    /// What becomes of a request that a power cut ends.
    pub on_cut: OnCut,
}
