//! A first look at a table: the keys of what is stored and read, and the ticks of the cuts.

ghost use Rattle.std.specs.Prelude.{◌≡◌, ◌<◌, ◌≤◌, ◌++◌, [], ◌∷◌, length, IfOk, IsTrue};
ghost use Rattle.check_judging.specs.Keys as keys;
ghost use Rattle.check_judging.specs.Cutting.{cut_ticks};
ghost use Rattle.check_verdict.specs.Verdicts.{bank_in};
ghost use Rattle.trace_rows.specs.Rows.{rows_with, asks_of, row_of};
ghost use Rattle.row_rules.specs.Lines.{IsOfLines};
ghost use Rattle.result_check.specs.Tables.{IsTable, IsFound};

use check_verdict::keys::{key, line_key};
use check_verdict::known::Keys;
use result_rows::{Outcome, Results};
use std::alloc::{AllocError, Global};
use trace_reader::{Event, EventOp};

/// The bank of a line.
pub fn bank_of(banks: &[u8], line: u32) -> u8
    requires { line < length banks.now }
    ensures { result ≡ bank_in banks.now line }
{
    banks[line as usize]
}

/// The keys of a table, and the ticks of its cuts.
#[derive(Drop)]
pub struct Found {
    pub keys: Keys,
    pub cuts: Vec<u64>,
}

impl Found {
    /// Adds those of a row.
    fn add<const B: usize>(
        &mut self,
        banks: &[u8],
        event: &Event<B>,
        outcome: &Outcome<B>,
    ) -> Result<(), AllocError>
        requires line { IsOfLines (length banks.now) (asks_of event.now.op) }
        requires short { IsTrue (keys.is_short outcome.now) }
        ensures stores { IfOk result (λ _. self.new.keys.stores.items
            ≡ self.old.keys.stores.items ++ keys.store_keys (bank_in banks.now)
            (row_of event.now outcome.now ∷ [])) }
        ensures lines { IfOk result (λ _. self.new.keys.lines.items
            ≡ self.old.keys.lines.items ++ keys.store_keys (λ line. line)
            (row_of event.now outcome.now ∷ [])) }
        ensures reads { IfOk result (λ _. self.new.keys.reads.items
            ≡ self.old.keys.reads.items ++ keys.read_keys (bank_in banks.now)
            (row_of event.now outcome.now ∷ [])) }
        ensures cuts { IfOk result (λ _. self.new.cuts.items
            ≡ self.old.cuts.items ++ cut_ticks (row_of event.now outcome.now ∷ [])) }
    {
        match event.op {
            EventOp::Write(line, _) | EventOp::Mask(line, _, _) => {
                if let Outcome::Stored { tick, .. } = outcome {
                    self.keys.stores.push(key(bank_of(banks, line), *tick))?;
                    self.keys.lines.push(line_key(line, *tick))?;
                }
            }
            EventOp::Read(line) => {
                if let Outcome::Read { tick, .. } = outcome {
                    self.keys.reads.push(key(bank_of(banks, line), *tick))?;
                }
            }
            EventOp::Cut => self.cuts.push(event.tick)?,
        }
        Ok(())
    }

    /// Those of a whole table, the keys sorted.
    pub fn of<const B: usize>(
        alloc: Global,
        events: &[Event<B>],
        results: &Results<B>,
        banks: &[u8],
    ) -> Result<Found, AllocError>
        requires small { B ≤ 128 }
        requires table { IsTable (length banks.now) (rows_with events.now results.now) }
        requires few { length events.now ≤ 400_000 }
        requires rows { length results.now ≡ length events.now }
        ensures { let rows = rows_with events.now results.now in
            IfOk result (λ found. IsFound banks.now rows found) }
    {
        let mut found = Found {
            keys: Keys {
                stores: Vec::new(alloc),
                reads: Vec::new(alloc),
                lines: Vec::new(alloc),
            },
            cuts: Vec::new(alloc),
        };
        for (i, event) in events.iter().enumerate() {
            found.add(banks, event, results.get(i as u32 + 1))?;
        }
        found.keys.stores.sort_unstable();
        found.keys.lines.sort_unstable();
        found.keys.reads.sort_unstable();
        Ok(found)
    }
}
