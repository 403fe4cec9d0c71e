// What a stream tells.

use bank_shape::{Home, Policy};
use cell_rows::LineEnergy;
use result_rows::Outcome;

/// What one line of a stream tells.
#[derive(Clone, Copy, PartialEq)]
pub enum Told<const B: usize> {
    /// What became of the row of this number.
    Became(u32, Outcome<B>),
    /// What waits in a bank, which has come to this tick.
    Bank(u64, Backlog),
    /// How worn the array is, where every bank has come to this tick.
    Looked(u64, ArrayWear),
    /// What a line's newest bytes are, where every bank has come to this tick.
    Peeked(u64, PeekedLine<B>),
    /// Every bank has come to this tick.
    Settled(u64),
}

/// What waits in a bank, and whether it goes on.
#[derive(Clone, Copy, PartialEq, Eq)]
pub struct Backlog {
    /// The bank's number, from 0.
    pub bank: u32,
    /// The entries of its write queue, up to 256: each has one write of which no outcome is known, and one that is in flight counts.
    pub writes: u16,
    /// Its waiting reads, up to 256; one that is served counts.
    pub reads: u16,
    /// Whether it goes on.
    pub mark: Mark,
}

/// Whether a bank goes on.
#[derive(Clone, Copy, PartialEq, Eq)]
pub enum Mark {
    /// It goes on.
    Going,
    /// A worn line of it found no spare: each write is refused as worn from then on.
    Exhausted,
    /// One of its control lines is worn: no line write is begun any more.
    Halted,
}

/// The newest bytes of a line.
#[derive(Clone, Copy, PartialEq)]
pub struct PeekedLine<const B: usize> {
    /// The line, from 0.
    pub line: u32,
    /// Its bytes: those that its bank accepted last, 0 where it accepted none.
    pub bytes: [u8; B],
}

/// How worn the array of a module is.
#[derive(Clone, Copy, PartialEq, Eq)]
pub struct ArrayWear {
    /// The pulses of all array lines.
    pub pulses: u64,
    /// The pulses of the array line that has most.
    pub most: u64,
    /// The pulses of all array lines, divided by the number of lines.
    pub mean: u64,
    /// The pointers that are active by the check cells of their lines.
    pub pointers: u64,
    /// How often all array lines were sensed and their cells driven, where the array tells it.
    pub energy: Option<LineEnergy>,
}

/// The shape of a module, as a stream may tell it.
#[derive(Clone, Copy, Drop, PartialEq, Eq)]
pub struct ToldShape {
    /// How many banks the module has.
    pub banks: u32,
    /// How many regions each bank has.
    pub regions: u32,
    /// How many lines each region has.
    pub lines: u32,
    /// How many spare lines each bank has.
    pub spares: u32,
    /// How many writes the queue of a bank holds.
    pub writes: u32,
    /// How many reads may wait at a bank.
    pub reads: u32,
    /// What the words of the module say besides, where all of it is told.
    pub rest: Option<ToldRest>,
}

/// What the words of a module say besides its shape: by both it is one that serves rows just so, but for how its cells wear.
#[derive(Clone, Copy, Drop, PartialEq, Eq)]
pub struct ToldRest {
    /// Picks the keys of the randomiser, and of each cell how it wears.
    pub seed: u64,
    /// After how many stores in a region its gap moves.
    pub psi: u32,
    /// Ticks of a sense.
    pub read_ticks: u32,
    /// Ticks of one iteration of a line write.
    pub iter_ticks: u32,
    /// What becomes of a line write where a read comes.
    pub policy: Policy,
    /// Where the registers of a bank are kept.
    pub home: Home,
}

/// What is printed of a stream as its rows are served.
#[derive(Clone, Copy, Drop, PartialEq, Eq)]
pub enum Shown {
    /// Nothing.
    Nothing,
    /// A line for each outcome, for each settle, and for each bank where that is a query; in front of them one of the module's shape, where it
    /// is given.
    Rows(Option<ToldShape>),
    /// A snapshot each time that so many more rows came, at least one.
    Snapshots(u32),
}
