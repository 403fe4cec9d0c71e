// What the words ask for.
use cell_rows::Wear;
use module_shape::Shape;
use trace_gen::Mix;

/// What the program is to do.
#[derive(Clone, Copy, Drop)]
pub enum Job {
    /// Replay a trace on a module.
    Run(RunJob),
    /// Write a generated trace.
    Gen(GenJob),
    /// Tell where every line of a module stands.
    Map(MapJob),
    /// Tell the gap moves of a full turn of a region.
    Moves(MovesJob),
    /// Tell the newest bytes of every line of a saved module.
    Show,
    /// Tell whether results are ones that a module may give.
    Check(CheckJob),
}

/// A run of a trace.
#[derive(Clone, Copy, Drop)]
pub struct RunJob {
    /// The size of a line.
    pub line: LineSize,
    /// The sizes and the pace of the module.
    pub shape: Shape,
    /// Picks the keys that mix the lines.
    pub seed: u64,
    /// How the cells wear out; its seed is the same.
    pub wear: Wear,
    /// What is written.
    pub print: Print,
    /// Where the trace comes from.
    pub input: Input,
}

/// A generated trace.
#[derive(Clone, Copy, Drop)]
pub struct GenJob {
    /// The size of a line.
    pub line: LineSize,
    /// The sizes of the module; a trace only knows how many lines it has.
    pub shape: Shape,
    /// Picks the rows.
    pub seed: u64,
    /// What the rows are.
    pub mix: Mix,
}

/// Where every line of a module stands.
#[derive(Clone, Copy, Drop)]
pub struct MapJob {
    /// The sizes of the module; no slot has a spare line.
    pub shape: Shape,
    /// Picks the keys that mix the lines.
    pub seed: u64,
    /// How many gap moves every region made.
    pub from: u64,
}

/// The gap moves of a full turn of a region.
#[derive(Clone, Copy, Drop, PartialEq, Eq)]
pub struct MovesJob {
    /// How many lines the region has: a power of two, 4 to 256.
    pub lines: u32,
    /// How many gap moves the region made before the first one that is told.
    pub from: u64,
}

/// A check of a trace's results.
#[derive(Clone, Copy, Drop)]
pub struct CheckJob {
    /// The size of a line.
    pub line: LineSize,
    /// The sizes and the pace of the module.
    pub shape: Shape,
    /// Picks the keys that mix the lines.
    pub seed: u64,
}

/// How many bytes a line has.
#[derive(Clone, Copy, Drop, PartialEq, Eq)]
pub enum LineSize {
    Bytes64,
    Bytes128,
}

/// What a run writes.
#[derive(Clone, Copy, Drop, PartialEq, Eq)]
pub enum Print {
    /// A row for each row of the trace.
    Results,
    /// How many rows had each outcome.
    Summary,
    /// A row for each array line.
    Wear,
    /// The module as it stands in the end, as bytes.
    Image,
}

/// Where a run takes its trace from.
#[derive(Clone, Copy, Drop, PartialEq, Eq)]
pub enum Input {
    /// The program's input.
    Source,
    /// The rows that `gen` writes for the same options.
    Drawn(Mix),
}

/// Why words give no job.
#[derive(Clone, Copy, Drop, PartialEq, Eq)]
pub enum Refusal {
    /// The words name no command, an option isn't one of the command's, or a value is out of its range.
    Usage,
    /// Memory ran out.
    NoMemory,
}
