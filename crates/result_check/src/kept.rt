//! What is kept of the rows that have passed, and how the next row passes.

ghost use Rattle.std.specs.Prelude.{◌≡◌, ◌<◌, ◌≤◌, ◌+◌, ℕ, List, [], None, Some, true, length};
ghost use Rattle.std.specs.Prelude.{slice_get, slice_set, All, IsTrue, IfOk, IfSome};
ghost use Rattle.std.specs.List.Sorted.{IsNonDecreasing};
ghost use Rattle.row_rules.specs.Answers as answers;
ghost use Rattle.row_rules.specs.Serving.{may_have};
ghost use Rattle.row_rules.specs.declared.Asks.TheVariants.{Reads, Writes, Cuts};
ghost use Rattle.row_rules.specs.declared.Row.{Row};
ghost use Rattle.row_rules.specs.declared.Rules as laws;
ghost use Rattle.check_verdict.specs.declared.known.Coming.{Coming};
ghost use Rattle.check_verdict.specs.declared.known.Keys.{Keys};
ghost use Rattle.check_judging.specs.Keys.{reach};
ghost use Rattle.check_verdict.specs.Judged as judged;
ghost use Rattle.check_verdict.specs.Kept.{sight, sight_of};
ghost use Rattle.check_verdict.specs.Passing.{joined_room};
ghost use Rattle.check_verdict.specs.Fitting.{room_kept};
ghost use Rattle.check_verdict.specs.Members.{never};
ghost use Rattle.check_verdict.specs.States.{no_facts, settled, cut_off, after_write, after_read};
ghost use Rattle.check_verdict.specs.Verdicts.{bank_in};
ghost use Rattle.trace_rows.specs.Rows.{asks_of, row_of};
ghost use Rattle.check_verdict.specs.Within.{AreWithin};
ghost use Rattle.check_verdict.specs.Judged.{a_row, a_cut};
ghost use Rattle.check_verdict.specs.RowVerdicts.{AreUsable};
ghost use Rattle.result_check.specs.Lines.{AreFresh, IsLineBehind, LinePasses};
ghost use Rattle.result_check.specs.Keeping.{banks_from, facts_in, Knows, MayTake, IsNext, HasPassed, Meets};
ghost use Rattle.row_rules.specs.Lines.{IsOfLines};
ghost use Rattle.result_check.specs.Outcomes as spec;
ghost use Rattle.check_verdict.specs.declared.members.Member.{Member};
ghost use Rattle.check_verdict.specs.declared.lines.CheckedLine.{CheckedLine};

use crate::found::bank_of;
use crate::watched::Watched;
use check_verdict::Rule;
use check_verdict::judge::{judge_read, judge_write};
use check_verdict::known::{Arrival, JudgingGrounds};
use check_verdict::lines::CheckedLine;
use check_verdict::members::{Member, NEVER};
use result_rows::Outcome;
use row_rules::Rules;
use std::alloc::{AllocError, Global};
use trace_reader::{Event, EventOp};

/// When a write is stored, if it is.
fn stored_at<const B: usize>(outcome: &Outcome<B>) -> Option<u64>
    ensures { result ≡ spec.stored_at outcome.now }
{
    match outcome {
        Outcome::Stored { tick, .. } => Some(*tick),
        _ => None,
    }
}

/// Whether a write was accepted.
fn accepts<const B: usize>(outcome: &Outcome<B>) -> bool
    ensures { result ≡ answers.accepts outcome.now }
{
    match outcome {
        Outcome::Stored { .. } | Outcome::Merged { .. } | Outcome::Queued { .. } => true,
        _ => false,
    }
}

/// The member that a write of a line would be.
fn member_of<const B: usize>(line: u32, tick: u64, outcome: &Outcome<B>) -> Member
    ensures sight { sight result ≡ sight_of (a_row tick (Writes line [] []) outcome.now) }
    ensures line { result.line ≡ line }
{
    let (end, leave, merged) = match outcome {
        Outcome::Stored { tick: at, .. } => (*at, *at, false),
        Outcome::Merged { tick: at } => (NEVER, *at, true),
        _ => (NEVER, NEVER, false),
    };
    Member {
        line,
        merged,
        arrived: tick,
        end,
        leave,
    }
}

/// Lets a write of a line pass: it changes what is kept of the line where it is accepted.
fn pass_line<const B: usize>(
    line: &mut CheckedLine<B>,
    tick: u64,
    bytes: &[u8; B],
    given: &[bool; B],
    outcome: &Outcome<B>,
) -> Result<(), AllocError>
    ensures { IfOk result
        (λ _. IsLineBehind B tick bytes.now given.now outcome.now line.old line.new) }
{
    if accepts(outcome) {
        return line.pass(tick, stored_at(outcome), bytes, given);
    }
    Ok(())
}

/// The verdict on a cut, where each bank has room or not as it comes.
fn judge_cut<const B: usize>(tick: u64, room: bool, outcome: &Outcome<B>) -> Option<Rule>
    ensures { result ≡ judged.first_broken (may_have tick Cuts [] outcome.now) room true true true }
{
    match outcome {
        Outcome::Cut { tick: at } if *at == tick => { if room { None } else { Some(Rule::Queue) } }
        _ => Some(Rule::Serves),
    }
}

/// Lets time pass in all banks up to a cut, and the cut come.
fn cut_all(banks: &mut Vec<Watched>, tick: u64)
    ensures facts { (bank : ℕ) → facts_in banks.new.items bank
        ≡ cut_off (settled tick (facts_in banks.old.items bank)) }
    ensures number { length banks.new.items ≡ length banks.old.items }
{
    for bank in 0..banks.len() {
        banks[bank].settle(tick);
        banks[bank].pass_cut();
    }
}

/// What is kept of the rows that have passed: of each bank and of each line, and the line of the last row, if it has one. Only
/// that line's bank may hold more than it may.
#[derive(Drop)]
pub struct KeptRows<const B: usize> {
    pub banks: Vec<Watched>,
    pub lines: Vec<CheckedLine<B>>,
    pub joined: Option<u32>,
}

/// How many banks there are, where each is below this number or one of these.
fn number_of_banks(banks: &[u8]) -> usize
    ensures { result ≡ banks_from 0 banks.now }
{
    let mut number = 0;
    for bank in banks {
        number = number.max(*bank as usize + 1);
    }
    number
}

/// So many banks of which no row has passed.
fn new_banks(alloc: Global, number: usize) -> Result<Vec<Watched>, AllocError>
    ensures number { IfOk result (λ banks. length banks.items ≡ number) }
    ensures facts { IfOk result (λ banks. (bank : ℕ) → facts_in banks.items bank ≡ no_facts) }
{
    let mut banks = Vec::new(alloc);
    for _ in 0..number {
        banks.push(Watched::new(alloc))?;
    }
    Ok(banks)
}

/// So many lines of which no write has passed.
fn new_lines<const B: usize>(
    alloc: Global,
    number: usize,
) -> Result<Vec<CheckedLine<B>>, AllocError>
    requires small { B ≤ 128 }
    ensures number { IfOk result (λ lines. length lines.items ≡ number) }
    ensures fresh { IfOk result (λ lines. AreFresh B lines.items) }
{
    let mut lines = Vec::new(alloc);
    for _ in 0..number {
        lines.push(CheckedLine::new(alloc))?;
    }
    Ok(lines)
}

impl<const B: usize> KeptRows<B> {
    /// What is kept of no row.
    pub fn new(alloc: Global, banks: &[u8]) -> Result<KeptRows<B>, AllocError>
        requires small { B ≤ 128 }
        ensures number { IfOk result (λ kept. length kept.banks.items ≡ banks_from 0 banks.now) }
        ensures facts { IfOk result (λ kept. (bank : ℕ)
            → facts_in kept.banks.items bank ≡ no_facts) }
        ensures lines { IfOk result (λ kept. length kept.lines.items ≡ length banks.now) }
        ensures fresh { IfOk result (λ kept. AreFresh B kept.lines.items) }
        ensures joined { IfOk result (λ kept. kept.joined ≡ None) }
    {
        Ok(KeptRows {
            banks: new_banks(alloc, number_of_banks(banks))?,
            lines: new_lines(alloc, banks.len())?,
            joined: None,
        })
    }

    /// Settles the bank of a line.
    fn settle(&mut self, banks: &[u8], tick: u64, line: u32)
        requires line { line < length banks.now }
        requires exist { bank_in banks.now line < length self.old.banks.items }
        ensures banks { let bank = bank_in banks.now line in
            self.new.banks.items ≡ slice_set self.old.banks.items bank
            (settled tick (facts_in self.old.banks.items bank)) }
        ensures lines { self.new.lines.items ≡ self.old.lines.items }
        ensures joined { self.new.joined ≡ self.old.joined }
    {
        self.banks[bank_of(banks, line) as usize].settle(tick);
    }

    /// Whether the bank of a line holds no more than it may.
    fn holds_few(&self, rules: &Rules, banks: &[u8], line: u32) -> bool
        requires line { line < length banks.now }
        requires exist { bank_in banks.now line < length self.now.banks.items }
        ensures { let f = facts_in self.now.banks.items (bank_in banks.now line) in
            result ≡ room_kept rules.now.writes rules.now.reads f.members f.waits f.lost }
    {
        self.banks[bank_of(banks, line) as usize].has_room(rules.writes, rules.reads)
    }

    /// Lets time pass in the bank of the last row, and tells whether each bank has room.
    fn find_room(&mut self, rules: &Rules, banks: &[u8], tick: u64) -> bool
        requires line { IfSome self.old.joined (λ line. line < length banks.now) }
        requires exist { All (λ bank. bank < length self.old.banks.items) banks.now }
        ensures room { result
            ≡ joined_room rules.now banks.now tick (facts_in self.old.banks.items) self.old.joined }
        ensures knows { (from : ℕ) (before : List (Row B)) → from ≤ tick → tick < never
            → Knows rules.now banks.now from self.old.banks.items self.old.joined before
            → Knows rules.now banks.now tick self.new.banks.items self.old.joined before }
        ensures seen { (from : ℕ) (before : List (Row B)) → from ≤ tick → tick < never
            → Knows rules.now banks.now from self.old.banks.items self.old.joined before
            → result ≡ true
            → Knows rules.now banks.now tick self.new.banks.items None before }
        ensures number { length self.new.banks.items ≡ length self.old.banks.items }
        ensures lines { self.new.lines.items ≡ self.old.lines.items }
        ensures joined { self.new.joined ≡ self.old.joined }
    {
        match self.joined {
            Some(line) => {
                self.settle(banks, tick, line);
                self.holds_few(rules, banks, line)
            }
            None => true,
        }
    }

    /// Lets a write of a line pass.
    fn pass_write(
        &mut self,
        bank: u8,
        tick: u64,
        line: u32,
        bytes: &[u8; B],
        given: &[bool; B],
        outcome: &Outcome<B>,
    ) -> Result<(), AllocError>
        requires small { B ≤ 128 }
        requires exist { bank < length self.old.banks.items }
        requires line { line < length self.old.lines.items }
        ensures banks { IfOk result (λ _. (m : Member)
            × (sight m ≡ sight_of (a_row tick (Writes line [] []) outcome.now))
            × (self.new.banks.items
            ≡ slice_set self.old.banks.items bank (after_write line m outcome.now
            (facts_in self.old.banks.items bank)))) }
        ensures number { IfOk result (λ _. length self.new.lines.items
            ≡ length self.old.lines.items) }
        ensures lines { IfOk result (λ _. (old : CheckedLine B)
            → slice_get self.old.lines.items line ≡ Some old
            → LinePasses B tick bytes.now given.now outcome.now line self.old.lines.items old
            self.new.lines.items) }
        ensures joined { IfOk result (λ _. self.new.joined ≡ Some line) }
    {
        let member = member_of(line, tick, outcome);
        self.banks[bank as usize].pass_write(member, outcome)?;
        pass_line(&mut self.lines[line as usize], tick, bytes, given, outcome)?;
        self.joined = Some(line);
        Ok(())
    }

    /// Lets a read of a line pass.
    fn pass_read(
        &mut self,
        bank: u8,
        tick: u64,
        line: u32,
        outcome: &Outcome<B>,
    ) -> Result<(), AllocError>
        requires exist { bank < length self.old.banks.items }
        requires few { (facts_in self.old.banks.items bank).lost ≤ 400_000 }
        ensures banks { IfOk result (λ _. self.new.banks.items
            ≡ slice_set self.old.banks.items bank (after_read tick outcome.now
            (facts_in self.old.banks.items bank))) }
        ensures lines { IfOk result (λ _. self.new.lines.items ≡ self.old.lines.items) }
        ensures joined { IfOk result (λ _. self.new.joined ≡ Some line) }
    {
        self.banks[bank as usize].pass_read(tick, outcome)?;
        self.joined = Some(line);
        Ok(())
    }

    /// Judges a write of a line, and lets it pass where it breaks no rule.
    fn take_write(
        &mut self,
        grounds: JudgingGrounds,
        row: Arrival,
        op: &EventOp<B>,
        bytes: &[u8; B],
        given: &[bool; B],
        outcome: &Outcome<B>,
    ) -> Result<Option<Rule>, AllocError>
        requires small { B ≤ 128 }
        requires asked { asks_of op.now ≡ Writes row.line bytes.now given.now }
        requires may { MayTake grounds.rules.now grounds.banks.now grounds.keys.now
            row.tick row.line outcome.now self.old.banks.items self.old.lines.items }
        requires cuts { IsNonDecreasing grounds.cuts.now }
        requires few { length grounds.cuts.now ≤ 400_000 }
        ensures number { IfOk result (λ _. length self.new.banks.items
            ≡ length self.old.banks.items) }
        ensures lines { IfOk result (λ _. length self.new.lines.items
            ≡ length self.old.lines.items) }
        ensures passes { (before after : List (Row B))
            → let r = a_row row.tick (asks_of op.now) outcome.now in
            IsNext grounds.entry.rules.now grounds.entry.banks.now grounds.entry.keys.now
            before r after self.old.banks.items self.old.joined self.old.lines.items
            row.room grounds.entry.coming grounds.entry.cuts.now
            → IfOk result (λ broken. HasPassed grounds.entry.rules.now grounds.entry.banks.now
            before r after broken self.new.banks.items self.new.joined self.new.lines.items) }
    {
        let number = bank_of(grounds.banks, row.line);
        self.settle(grounds.banks, row.tick, row.line);
        let broken = judge_write(
            grounds,
            number,
            self.banks[number as usize].bank(),
            &self.lines[row.line as usize].newest,
            row,
            op,
            outcome,
        );
        match broken {
            Some(rule) => Ok(Some(rule)),
            None => {
                self.pass_write(number, row.tick, row.line, bytes, given, outcome)?;
                Ok(None)
            }
        }
    }

    /// Judges a read of a line, and lets it pass where it breaks no rule.
    fn take_read(
        &mut self,
        grounds: JudgingGrounds,
        row: Arrival,
        op: &EventOp<B>,
        outcome: &Outcome<B>,
    ) -> Result<Option<Rule>, AllocError>
        requires small { B ≤ 128 }
        requires asked { asks_of op.now ≡ Reads row.line }
        requires may { MayTake grounds.rules.now grounds.banks.now grounds.keys.now
            row.tick row.line outcome.now self.old.banks.items self.old.lines.items }
        requires fourth { let f = facts_in self.old.banks.items (bank_in grounds.banks.now row.line)
            in IfSome f.fourth (λ came. came < reach) }
        requires few { let f = facts_in self.old.banks.items (bank_in grounds.banks.now row.line) in
            length (settled row.tick f).waits + (settled row.tick f).lost ≤ 400_000 }
        ensures number { IfOk result (λ _. length self.new.banks.items
            ≡ length self.old.banks.items) }
        ensures lines { IfOk result (λ _. length self.new.lines.items
            ≡ length self.old.lines.items) }
        ensures passes { (before after : List (Row B))
            → let r = a_row row.tick (asks_of op.now) outcome.now in
            IsNext grounds.entry.rules.now grounds.entry.banks.now grounds.entry.keys.now
            before r after self.old.banks.items self.old.joined self.old.lines.items
            row.room grounds.entry.coming grounds.entry.cuts.now
            → IfOk result (λ broken. HasPassed grounds.entry.rules.now grounds.entry.banks.now
            before r after broken self.new.banks.items self.new.joined self.new.lines.items) }
    {
        let number = bank_of(grounds.banks, row.line);
        self.settle(grounds.banks, row.tick, row.line);
        let broken = judge_read(
            grounds,
            number,
            self.banks[number as usize].bank(),
            &self.lines[row.line as usize],
            row,
            op,
            outcome,
        );
        match broken {
            Some(rule) => Ok(Some(rule)),
            None => {
                self.pass_read(number, row.tick, row.line, outcome)?;
                Ok(None)
            }
        }
    }

    /// Judges a cut, and lets it pass where it breaks no rule.
    fn take_cut(&mut self, room: bool, tick: u64, outcome: &Outcome<B>) -> Option<Rule>
        requires arrived { tick < reach }
        ensures number { length self.new.banks.items ≡ length self.old.banks.items }
        ensures lines { length self.new.lines.items ≡ length self.old.lines.items }
        ensures passes { (rules : laws.Rules) (banks : List ℕ) (keys : Keys)
            (before after : List (Row B))
            (coming : Coming) (cuts : List ℕ)
            → let r = a_cut tick outcome.now in
            IsNext rules banks keys before r after self.old.banks.items self.old.joined
            self.old.lines.items room coming cuts
            → HasPassed rules banks before r after result self.new.banks.items self.new.joined
            self.new.lines.items }
    {
        let broken = judge_cut(tick, room, outcome);
        match broken {
            Some(rule) => Some(rule),
            None => {
                cut_all(&mut self.banks, tick);
                self.joined = None;
                None
            }
        }
    }

    /// Judges the next row, and lets it pass where it breaks no rule.
    pub fn take(
        &mut self,
        grounds: JudgingGrounds,
        event: &Event<B>,
        outcome: &Outcome<B>,
    ) -> Result<Option<Rule>, AllocError>
        requires small { B ≤ 128 }
        requires within { AreWithin grounds.rules.now }
        requires line { IsOfLines (length grounds.banks.now) (asks_of event.now.op) }
        requires exist { All (λ bank. bank < length self.old.banks.items) grounds.banks.now }
        requires lines { length self.old.lines.items ≡ length grounds.banks.now }
        requires usable { AreUsable grounds.keys.now }
        requires cuts { IsNonDecreasing grounds.cuts.now }
        requires few { length grounds.cuts.now ≤ 400_000 }
        requires met { (before : List (Row B)) × (after : List (Row B))
            × Meets grounds.rules.now grounds.banks.now grounds.keys.now
            before (row_of event.now outcome.now) after self.old.banks.items self.old.joined
            self.old.lines.items grounds.coming grounds.cuts.now }
        ensures number { IfOk result (λ _. length self.new.banks.items
            ≡ length self.old.banks.items) }
        ensures lines { IfOk result (λ _. length self.new.lines.items
            ≡ length self.old.lines.items) }
        ensures passes { (before after : List (Row B))
            → let r = row_of event.now outcome.now in
            Meets grounds.entry.rules.now grounds.entry.banks.now grounds.entry.keys.now
            before r after self.old.banks.items self.old.joined self.old.lines.items
            grounds.entry.coming grounds.entry.cuts.now
            → IfOk result (λ broken. HasPassed grounds.entry.rules.now grounds.entry.banks.now
            before r after broken self.new.banks.items self.new.joined self.new.lines.items) }
    {
        let tick = event.tick;
        let room = self.find_room(grounds.rules, grounds.banks, tick);
        match &event.op {
            EventOp::Read(line) => {
                let row = Arrival {
                    tick,
                    line: *line,
                    room,
                };
                self.take_read(grounds, row, &event.op, outcome)
            }
            EventOp::Write(line, bytes) => {
                let row = Arrival {
                    tick,
                    line: *line,
                    room,
                };
                let given = [true; B];
                self.take_write(grounds, row, &event.op, bytes, &given, outcome)
            }
            EventOp::Mask(line, bytes, given) => {
                let row = Arrival {
                    tick,
                    line: *line,
                    room,
                };
                self.take_write(grounds, row, &event.op, bytes, given, outcome)
            }
            EventOp::Cut => Ok(self.take_cut(room, tick, outcome)),
        }
    }
}
