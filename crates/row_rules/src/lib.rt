//! What a row of a finished table is, and the rules that its rows keep: what each asked for, what it was answered, and when.
//! The rules are definitions (in specs/) that know no queue and no array, each a test of one row between those before it and
//! those after it, so that any table can be judged by them.
#![tactic(auto)]

use bank_shape::Policy;
use result_rows::Outcome;

/// What a row of a trace asks for.
#[derive(Clone, Copy)]
pub enum Asks<const B: usize> {
    /// A read of a line.
    Reads {
        line: u32,
    },
    /// A write of those bytes of a line that are given. A byte that is not given is 0.
    Writes {
        line: u32,
        bytes: [u8; B],
        given: [bool; B],
    },
    /// A loss of power.
    Cuts,
}

/// A row of a finished table. Its number is its place in the table, from 1.
#[derive(Clone, Copy)]
pub struct Row<const B: usize> {
    /// The tick at which it arrived.
    pub tick: u64,
    /// What it asks for.
    pub asks: Asks<B>,
    /// What it was answered.
    pub outcome: Outcome<B>,
}

/// How much a bank holds, and its times.
#[derive(Clone, Copy)]
pub struct Rules {
    /// How many writes the queue holds.
    pub writes: u32,
    /// How many reads may wait.
    pub reads: u32,
    /// How many spare lines there are.
    pub spares: u32,
    /// How many ticks a serve or a begin lasts.
    pub read_ticks: u32,
    /// How many ticks an iteration of a line write lasts.
    pub iter_ticks: u32,
    /// How many iterations a line write takes at most.
    pub steps: u32,
    /// When a line write gives way to a read.
    pub policy: Policy,
    /// Whether each event of a bank brings a second line write, that of its registers.
    pub twice: bool,
}
