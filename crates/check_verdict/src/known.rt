//! What is known of a row as it is judged.

use row_rules::Rules;

/// The sorted keys of a whole table: of each bank's stores and reads, and of each line's stores.
#[derive(Drop)]
pub struct Keys {
    pub stores: Vec<u64>,
    pub reads: Vec<u64>,
    pub lines: Vec<u128>,
}

/// What the rows behind a row of a line bring: when the next accepted write of the line comes, when the first of the line's
/// stores does, and when the first worn row of its bank does.
#[derive(Clone, Copy)]
pub struct Coming {
    pub next: Option<u64>,
    pub soonest: Option<u64>,
    pub worn: Option<u64>,
}

/// What a row is judged by beside what is kept: the rules, the bank of each line, the keys of the table, and what the rows
/// behind it bring, with the ticks of the cuts among them.
#[derive(Clone, Copy)]
pub struct JudgingGrounds<'a> {
    pub rules: &'a Rules,
    pub banks: &'a [u8],
    pub keys: &'a Keys,
    pub coming: Coming,
    pub cuts: &'a [u64],
}

/// When a row comes, of which line, and whether each bank has room then.
#[derive(Clone, Copy)]
pub struct Arrival {
    pub tick: u64,
    pub line: u32,
    pub room: bool,
}
