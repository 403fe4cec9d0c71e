// The rows of a trace, one after the other.
ghost use Rattle.masked_bytes.specs.Masked.{IsMasked};
ghost use Rattle.row_rules.specs.declared.Asks.TheVariants.{Reads, Writes, Cuts};
ghost use Rattle.pcm_module.specs.Asking.{asked_by};
ghost use Rattle.pcm_module.specs.Taking.{MayTake, MayTakeRow, Takes};
ghost use Rattle.pcm_module.specs.Telling.{TellsFor};
ghost use Rattle.trace_rows.specs.Rows.{asks_of};

use crate::bank::{cut_at, read_at, write_at};
use crate::side_by_side::Module;
use cell_rows::CellArray;
use masked_bytes::entry::Entry;
use result_rows::{Outcome, Outcomes};
use trace_reader::{Event, EventOp};

impl<const B: usize, const M: usize, const E: usize> Module<B, M, E> {
    /// A row of the trace, with its number, above those of all rows before it. A read or a write brings its own bank alone
    /// to its tick; a power cut reaches each bank.
    pub fn event<A: CellArray<B, M>, R: Outcomes<B>>(
        &mut self,
        array: &mut A,
        row: u32,
        event: &Event<B>,
        results: &mut R,
    )
        requires may_take { MayTakeRow row event.now self.old (A.state array.old)
            (R.table results.old) }
        ensures takes { Takes (asked_by row event.now) self.old self.new
            (A.state array.old) (A.state array.new) (R.table results.old) (R.table results.new) }
        ensures goes_on { R.goes_on results.old results.new }

        // of a line's row its own bank alone tells; of a cut one bank after the other, and the cut's row behind them
        ensures order { TellsFor R.goes_on R.table self.old row (asks_of event.now.op)
            results.old results.new }
    {
        // A field that is read makes known what is true of every module.
        let _ = &self.shape;
        match event.op {
            EventOp::Read(line) => self.read(array, event.tick, row, line, results),
            EventOp::Write(line, bytes) => {
                let entry = Entry::whole(row, line, &bytes);
                self.write(array, event.tick, entry, results);
            }
            EventOp::Mask(line, bytes, given) => {
                let entry = Entry {
                    row,
                    line,
                    bytes,
                    given,
                };
                self.write(array, event.tick, entry, results);
            }
            EventOp::Cut => self.cut(array, event.tick, row, results),
        }
    }

    // A read of a line arrives at its bank.
    fn read<A: CellArray<B, M>, R: Outcomes<B>>(
        &mut self,
        array: &mut A,
        tick: u64,
        row: u32,
        line: u32,
        results: &mut R,
    )
        requires may_take { MayTake (record { row = row; tick = tick; asks = Reads line })
            self.old (A.state array.old) (R.table results.old) }
        ensures takes { Takes (record { row = row; tick = tick; asks = Reads line })
            self.old self.new (A.state array.old) (A.state array.new)
            (R.table results.old) (R.table results.new) }
        ensures goes_on { R.goes_on results.old results.new }
        ensures order { TellsFor R.goes_on R.table self.old row (Reads line)
            results.old results.new }
    {
        let place = self.place(line);
        let timed = &mut self.banks[place.bank as usize];
        read_at(timed, array, tick, row, place.line, results);
        self.tick = tick;
        self.rows_below = row as u64 + 1;
    }

    // A write of a line of the module arrives at its bank, where the line has another number.
    fn write<A: CellArray<B, M>, R: Outcomes<B>>(
        &mut self,
        array: &mut A,
        tick: u64,
        entry: Entry<B>,
        results: &mut R,
    )
        requires may_take { MayTake (record {
          row = entry.row;
          tick = tick;
          asks = Writes entry.line entry.bytes entry.given;
        }) self.old (A.state array.old)
            (R.table results.old) }
        requires masked { IsMasked B entry.bytes entry.given }
        ensures takes { Takes
            (record {
              row = entry.entry.row;
              tick = tick;
              asks = Writes entry.entry.line entry.entry.bytes entry.entry.given;
            })
            self.old self.new (A.state array.old) (A.state array.new) (R.table results.old)
            (R.table results.new) }
        ensures goes_on { R.goes_on results.old results.new }
        ensures order { TellsFor R.goes_on R.table self.old entry.entry.row
            (Writes entry.entry.line entry.entry.bytes entry.entry.given)
            results.old results.new }
    {
        let place = self.place(entry.line);
        let mut here = entry;
        here.line = place.line;
        let timed = &mut self.banks[place.bank as usize];
        write_at(timed, array, tick, here, results);
        self.tick = tick;
        self.rows_below = entry.row as u64 + 1;
    }

    // The power is cut: each bank is brought to the tick and cut, in order. Behind them the cut's own row is told.
    fn cut<A: CellArray<B, M>, R: Outcomes<B>>(
        &mut self,
        array: &mut A,
        tick: u64,
        row: u32,
        results: &mut R,
    )
        requires may_take { MayTake (record { row = row; tick = tick; asks = Cuts })
            self.old (A.state array.old) (R.table results.old) }
        ensures takes { Takes (record { row = row; tick = tick; asks = Cuts }) self.old self.new
            (A.state array.old) (A.state array.new) (R.table results.old) (R.table results.new) }
        ensures goes_on { R.goes_on results.old results.new }
        ensures order { TellsFor R.goes_on R.table self.old row Cuts results.old results.new }
    {
        let banks = self.shape.banks();
        for bank in 0..banks {
            cut_at(&mut self.banks[bank as usize], array, tick, results);
        }
        results.set(row, Outcome::Cut { tick });
        self.tick = tick;
        self.rows_below = row as u64 + 1;
    }
}
