//! What is told of the lowest row that breaks a rule.

ghost use Rattle.std.specs.Prelude.{◌≡◌, ◌≤◌, reverse, IfOk};
ghost use Rattle.row_rules.specs.declared.Asks.TheVariants.{Reads, Writes, Cuts};
ghost use Rattle.clause_telling.specs.Rooms as rooms;
ghost use Rattle.verdict_telling.specs.Explained as spec;

use check_telling::facts::{RowAt, StoreCounts};
use check_telling::grounds::{Grounds, find_grounds};
use check_telling::writes::{WriteGrounds, find_write};
use check_telling::{Clause, right_reads_are_told, right_writes_are_told};
use clause_telling::clause::{cut_clause, read_clause, write_clause};
use clause_telling::counts::find_counts;
use clause_telling::others::{find_near, find_stale};
use clause_telling::room::{Crowd, find_room};
use result_check::Rule;
use result_rows::Outcome;
use row_rules::{Asks, Row, Rules};
use std::alloc::{AllocError, Global};

/// What a row finds as it comes.
#[derive(Drop)]
pub enum Finds<const B: usize> {
    /// A read.
    Read(Grounds<B>),
    /// A write.
    Write(WriteGrounds<B>),
    /// A cut.
    Cut,
}

/// The lowest row that breaks a rule, the first rule that it breaks and the first clause of it, and what the row finds as it comes.
#[derive(Drop)]
pub struct Explanation<const B: usize> {
    pub row: u32,
    pub rule: Rule,
    pub clause: Clause,
    /// Where a bank holds more than it may as the row comes, that bank: then no answer of the row would be right.
    pub crowd: Option<Crowd<B>>,
    pub finds: Finds<B>,
    /// Of a read or a write: the first row of its bank before it from which its action doesn't lie apart.
    pub near: Option<RowAt>,
    /// Of a write that is told to be stored behind its arrival: how much its bank did by then.
    pub counts: Option<StoreCounts>,
    /// Of a read that is answered: the last row before it before which the bytes that are told were its line's newest.
    pub stale: Option<RowAt>,
}

/// Whether the banks have room.
fn is_room<const B: usize>(crowd: &Option<Crowd<B>>) -> bool
    ensures { result ≡ rooms.is_room crowd.now }
{
    match crowd {
        Some(_) => false,
        None => true,
    }
}

/// The last row before which the bytes that a read is answered were its line's newest.
fn stale_of<const B: usize>(before: &[Row<B>], line: u32, outcome: &Outcome<B>) -> Option<RowAt>
    requires { spec.IsFew before.now }
    ensures { result ≡ spec.stale_of line outcome.now (reverse before.now) }
{
    match outcome {
        Outcome::Read { bytes, .. } => find_stale(before, line, bytes),
        Outcome::Forwarded { bytes, .. } => find_stale(before, line, bytes),
        _ => None,
    }
}

/// The latest tick at which a write could be stored, or 0 where nothing was counted.
fn late_of(counts: &Option<StoreCounts>) -> u64
    ensures { result ≡ spec.late_of counts.now }
{
    match counts {
        Some(counts) => counts.latest,
        None => 0,
    }
}

/// Whether a row is told.
fn is_told(row: &Option<RowAt>) -> bool
    ensures { result ≡ spec.is_some_row row.now }
{
    match row {
        Some(_) => true,
        None => false,
    }
}

/// Of a read.
fn explain_read<const B: usize>(
    alloc: Global,
    before: &[Row<B>],
    one: &Row<B>,
    after: &[Row<B>],
    banks: &[u8],
    rules: &Rules,
    line: u32,
    row: u32,
    rule: Rule,
    crowd: Option<Crowd<B>>,
) -> Result<Explanation<B>, AllocError>
    requires small { B ≤ 128 }
    requires may { spec.MayTell rules.now banks.now before.now one.now after.now rule }
    requires asks { one.now.asks ≡ Reads line }
    requires crowd { rooms.TellsRoom rules.now banks.now one.now.tick (reverse before.now) crowd }
    ensures { IfOk result (λ told. spec.TellsOne rules.now banks.now before.now one.now after.now row rule told) }
{
    right_reads_are_told();
    let found = find_grounds(alloc, before, after, banks, rules, one.tick, line)?;
    let clause = read_clause(rules, one.tick, &found, is_room(&crowd), &one.outcome, rule);
    let near = find_near(alloc, before, banks, rules.read_ticks, line, &one.outcome)?;
    let stale = stale_of(before, line, &one.outcome);
    Ok(Explanation {
        row,
        rule,
        clause,
        crowd,
        finds: Finds::Read(found),
        near,
        counts: None,
        stale,
    })
}

/// Of a write.
fn explain_write<const B: usize>(
    alloc: Global,
    before: &[Row<B>],
    one: &Row<B>,
    after: &[Row<B>],
    banks: &[u8],
    rules: &Rules,
    line: u32,
    row: u32,
    rule: Rule,
    crowd: Option<Crowd<B>>,
) -> Result<Explanation<B>, AllocError>
    requires small { B ≤ 128 }
    requires may { spec.MayTell rules.now banks.now before.now one.now after.now rule }
    requires asks { spec.IsWriteOf line one.now.asks }
    requires crowd { rooms.TellsRoom rules.now banks.now one.now.tick (reverse before.now) crowd }
    ensures { IfOk result (λ told. spec.TellsOne rules.now banks.now before.now one.now after.now row rule told) }
{
    right_writes_are_told();
    let found = find_write(alloc, before, after, banks, rules, one.tick, line)?;
    let counts = find_counts(
        alloc,
        before,
        after,
        banks,
        rules,
        one.tick,
        line,
        &one.outcome,
    )?;
    let near = find_near(alloc, before, banks, rules.read_ticks, line, &one.outcome)?;
    let late = late_of(&counts);
    let worn = is_told(&found.worn_before);
    let room = is_room(&crowd);
    let clause = write_clause(
        one.tick,
        room,
        found.full,
        found.alone,
        worn,
        late,
        &one.outcome,
        rule,
    );
    Ok(Explanation {
        row,
        rule,
        clause,
        crowd,
        finds: Finds::Write(found),
        near,
        counts,
        stale: None,
    })
}

/// Of a cut.
fn explain_cut<const B: usize>(
    one: &Row<B>,
    row: u32,
    rule: Rule,
    crowd: Option<Crowd<B>>,
) -> Explanation<B>
    ensures { spec.IsOfCut one.now row rule crowd.entry result }
{
    Explanation {
        row,
        rule,
        clause: cut_clause(one.tick, &one.outcome, rule),
        crowd,
        finds: Finds::Cut,
        near: None,
        counts: None,
        stale: None,
    }
}

/// Of a row between those before it and those behind it, the oldest first.
pub fn explain_one<const B: usize>(
    alloc: Global,
    before: &[Row<B>],
    one: &Row<B>,
    after: &[Row<B>],
    banks: &[u8],
    rules: &Rules,
    row: u32,
    rule: Rule,
) -> Result<Explanation<B>, AllocError>
    requires small { B ≤ 128 }
    requires may { spec.MayTell rules.now banks.now before.now one.now after.now rule }
    ensures { IfOk result (λ told. spec.TellsOne rules.now banks.now before.now one.now after.now row rule told) }
{
    let crowd = find_room(alloc, before, banks, rules, one.tick)?;
    match &one.asks {
        Asks::Reads { line } => {
            explain_read(
                alloc, before, one, after, banks, rules, *line, row, rule, crowd,
            )
        }
        Asks::Writes { line, .. } => {
            explain_write(
                alloc, before, one, after, banks, rules, *line, row, rule, crowd,
            )
        }
        Asks::Cuts => {
            right_writes_are_told();
            Ok(explain_cut(one, row, rule, crowd))
        }
    }
}
