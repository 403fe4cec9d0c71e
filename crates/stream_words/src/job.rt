// What the words ask for.
ghost use Rattle.std.specs.Prelude.{◌≡◌};
ghost use Rattle.stream_words.specs.Options.{is_read, tells_energy};

use cell_rows::Wear;
use command_line::{Input, LineSize};
use drawn_parts::Banks;
use module_shape::Shape;

/// A run of a stream: each outcome is written as soon as it is known.
#[derive(Clone, Copy, Drop)]
pub struct StreamJob {
    /// The size of a line.
    pub line: LineSize,
    /// The sizes and the pace of the module.
    pub shape: Shape,
    /// Picks the keys that mix the lines.
    pub seed: u64,
    /// How the cells wear out; its seed is the same.
    pub wear: Wear,
    /// What is written.
    pub print: StreamPrint,
    /// Where the rows come from; drawn ones are up to 4,000,000,000, with ticks up to 2^40.
    pub input: Input,
    /// What becomes of the module behind the last row.
    pub end: End,
    /// Up to where the rows are served.
    pub until: StreamUntil,
    /// The banks whose rows are served, where they are drawn.
    pub banks: Banks,
}

/// What a stream writes.
#[derive(Clone, Copy, Drop, PartialEq, Eq)]
pub enum StreamPrint {
    /// A row for each outcome, and in front of them what is told of the module.
    Rows(Tell),
    /// How many rows had each outcome.
    Summary,
    /// A row for each array line, but for those that are left out.
    Wear(Skip),
    /// The same, and what the cells of the line say.
    Lines(Skip),
    /// A row for each line: where it stands.
    Map,
    /// A row for each bank, and one for the module: how often lines were sensed and cells driven.
    Energy,
    /// The module as it stands in the end, as bytes.
    Image,
    /// What stands behind each row whose number is a multiple of this, and in the end.
    Snapshots(u32),
}

/// What is told of the module between the header of rows and the first of them.
#[derive(Clone, Copy, Drop, PartialEq, Eq)]
pub enum Tell {
    /// Nothing.
    Nothing,
    /// Its shape.
    Shape,
    /// All that the words say of it, but for how its cells wear.
    Module,
}

/// Which array lines a report leaves out.
#[derive(Clone, Copy, Drop, PartialEq, Eq)]
pub enum Skip {
    /// None.
    Nothing,
    /// Those that were never pulsed.
    Unpulsed,
}

impl StreamJob {
    /// Whether it may tell how often lines were sensed and cells driven: where it doesn't, an array needn't count that.
    pub fn tells_energy(&self) -> bool
        ensures { result ≡ tells_energy self.now.print self.now.input }
    {
        match self.print {
            StreamPrint::Lines(_) | StreamPrint::Energy | StreamPrint::Snapshots(_) => true,
            // One of the rows may be a look.
            StreamPrint::Rows(_) => is_read(&self.input),
            StreamPrint::Summary | StreamPrint::Wear(_) | StreamPrint::Map | StreamPrint::Image =>
                false,
        }
    }
}

// Whether the rows are read.
fn is_read(input: &Input) -> bool
    ensures { result ≡ is_read input.now }
{
    match input {
        Input::Source => true,
        Input::Drawn(_) => false,
    }
}

/// What becomes of the module behind the last row.
#[derive(Clone, Copy, Drop, PartialEq, Eq)]
pub enum End {
    /// Its banks go on until they have nothing left to do.
    Drain,
    /// The power goes, and stays off.
    Off,
}

/// Up to where the rows of a stream are served.
#[derive(Clone, Copy, Drop, PartialEq, Eq)]
pub enum StreamUntil {
    /// To their end.
    End,
    /// Up to the first row that is refused, which is then the last; to their end where none is.
    Refused,
}
