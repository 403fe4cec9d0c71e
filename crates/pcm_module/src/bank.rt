// What a module asks of one of its banks.
ghost use Rattle.std.specs.Prelude.{◌+◌, ℕ, List, false};
ghost use Rattle.masked_bytes.specs.Masked.{IsMasked};
ghost use Rattle.row_rules.specs.declared.Asks.TheVariants.{Reads, Writes, Cuts};
ghost use Rattle.bank_model.specs.Timing.{TimedEvent};
ghost use Rattle.clock_laws.specs.Leads.{Leads};
ghost use Rattle.bank_timing.specs.Telling.{TellsInTurn};
ghost use Rattle.pcm_module.specs.Stepping.{MayCome, MayArrive, IsAt, IsStep};

use bank_timing::clocked::Timed;
use cell_rows::CellArray;
use masked_bytes::entry::Entry;
use result_rows::Outcomes;

/// A read of a bank line arrives at a tick.
pub fn read_at<const B: usize, const M: usize, const E: usize, A: CellArray<B, M>, R: Outcomes<B>>(
    timed: &mut Timed<B, M, E>,
    array: &mut A,
    tick: u64,
    row: u32,
    line: u32,
    results: &mut R,
)
    requires may { MayArrive row tick line timed.old (A.state array.old) (R.table results.old) }
    ensures at { IsAt tick (row + 1) timed.new (R.table results.new) }
    ensures step { (xs : List (TimedEvent B M)) → Leads xs timed.old (A.state array.old)
        → (added : List (TimedEvent B M))
        × IsStep xs added (record { row = row; tick = tick; asks = Reads line }) timed.old timed.new
        (A.state array.old) (A.state array.new) (R.table results.old) (R.table results.new) }
    ensures goes_on { R.goes_on results.old results.new }
    ensures in_turn { TellsInTurn R.goes_on R.table false results.old results.new }
{
    timed.advance(array, tick, results);
    timed.arrive_read(array, row, line, results);
}

/// A write of a bank line arrives at a tick.
pub fn write_at<const B: usize, const M: usize, const E: usize, A: CellArray<B, M>, R: Outcomes<B>>(
    timed: &mut Timed<B, M, E>,
    array: &mut A,
    tick: u64,
    entry: Entry<B>,
    results: &mut R,
)
    requires may { MayArrive entry.row tick entry.line timed.old (A.state array.old)
        (R.table results.old) }
    requires masked { IsMasked B entry.bytes entry.given }
    ensures at { IsAt tick (entry.entry.row + 1) timed.new (R.table results.new) }
    ensures step { (xs : List (TimedEvent B M)) → Leads xs timed.old (A.state array.old)
        → (added : List (TimedEvent B M))
        × IsStep xs added
        (record {
          row = entry.entry.row;
          tick = tick;
          asks = Writes entry.entry.line entry.entry.bytes entry.entry.given;
        })
        timed.old timed.new (A.state array.old) (A.state array.new)
        (R.table results.old) (R.table results.new) }
    ensures goes_on { R.goes_on results.old results.new }
    ensures in_turn { TellsInTurn R.goes_on R.table false results.old results.new }
{
    timed.advance(array, tick, results);
    timed.arrive_write(entry, results);
}

/// The power is cut at a tick; the cut's row has a number of which no bank hears.
pub fn cut_at<const B: usize, const M: usize, const E: usize, A: CellArray<B, M>, R: Outcomes<B>>(
    timed: &mut Timed<B, M, E>,
    array: &mut A,
    tick: u64,
    results: &mut R,
)
    requires may { MayCome tick timed.old (A.state array.old) (R.table results.old) }
    ensures at { IsAt tick timed.old.bank.rows_below timed.new (R.table results.new) }
    ensures step { (row : ℕ) (xs : List (TimedEvent B M)) → Leads xs timed.old (A.state array.old)
        → (added : List (TimedEvent B M))
        × IsStep xs added (record { row = row; tick = tick; asks = Cuts }) timed.old timed.new
        (A.state array.old) (A.state array.new) (R.table results.old) (R.table results.new) }
    ensures goes_on { R.goes_on results.old results.new }
    ensures in_turn { TellsInTurn R.goes_on R.table false results.old results.new }
{
    timed.advance(array, tick, results);
    timed.power_cut(array, results);
}
