//! A streamed trace, row by row.
ghost use Rattle.std.specs.Prelude.{◌≡◌, ◌≢◌, ◌+◌, ◌-◌, ◌^◌, ◌≤◌, ◌++◌, ℕ, List, [], Bool, true, false, length, Some, Ok, Err, IfOk, IfErr, IfSome, IfNone, OnOk};
ghost use Rattle.std.specs.Io.KnownBytes.{IsAtEnd};
ghost use Rattle.pcm_io.specs.Faults.{Rose};
ghost use Rattle.pcm_io.specs.Taking.{Takes};
ghost use Rattle.trace_reader.specs.Events.{IsEventFor};
ghost use Rattle.trace_stream.specs.Arrived.{StaysEnded};
ghost use Rattle.trace_stream.specs.Asked.{IsAskedFor, IsUnreached, NamesRow, rows_after, tick_asked};
ghost use Rattle.trace_stream.specs.Kept.{LacksHeader, decides};
ghost use Rattle.trace_stream.specs.Requests.{AsksWhere, LacksRow};
ghost use Rattle.trace_stream.specs.declared.asked.Asked.TheVariants.{Happens};
ghost use Rattle.trace_stream.specs.Stream.{AsksNext, HasFault, HasFront, IsOfText, IsPlainNext, Opens, asked_from, front_from, front_of, is_past, stream_of};

use crate::asked::{Asked, is_event_word, is_header_row, is_settle_row, read_asked};
use crate::fault::StreamFault;
use crate::incoming::Incoming;
use crate::kept::Gathered;
use crate::machine::Place;
use crate::records::Records;
use pcm_io::Source;
use std::alloc::Global;
use std::marker::Model;
use trace_reader::{Event, Kind, PlainRow, TraceFault, read_plain_row};

/// The greatest number of rows that have a number: all behind the header but those that settle.
pub const MOST_STREAMED: u32 = 4_294_967_294;

/// A reader of a trace that a source gives: what arrived, the row at hand as far as it decides, how many rows had a number, and the
/// tick of the row before. Behind `open` it takes no memory.
#[derive(Drop)]
pub struct TraceStream {
    records: Records,
    lines: u32,
    rows: u32,
    tick: u64,
}

impl Model for TraceStream {
    ghost use Rattle.std.specs.Prelude.{◌≤◌};
    ghost use Rattle.trace_stream.specs.Machine.{state_of};
    ghost use Rattle.trace_stream.specs.Stream.{Standing};

    ghost Value = { Standing };

    ghost view = { λ s. record {
      arrived = s.records.incoming;
      state = state_of s.records.place;
      rows = s.rows;
      tick = s.tick;
      lines = s.lines;
    } };

    ghost invariant = { λ s. (1 ≤ s.lines) × (s.rows ≤ 4294967294) };
}

impl TraceStream {
    /// Reads the header of a trace for so many lines.
    pub fn open<S: Source>(
        alloc: Global,
        source: &mut S,
        lines: u32,
    ) -> Result<TraceStream, StreamFault>
        requires { 1 ≤ lines }
        ensures ok { IfOk result (λ stream. (bytes : List ℕ)
            × Takes (S.left source.old) (S.left source.new)
            (S.taken source.old) (S.taken source.new) bytes × Opens lines bytes stream) }
        ensures begun { IfOk result (λ stream. (stream.rows ≡ 0) × (stream.tick ≡ 0)
            × (stream.lines ≡ lines)) }
        ensures end { IfOk result (λ stream. stream.arrived.ended ≡ true
            → IsAtEnd (S.left source.new)) }
        ensures fault { IfErr result (λ e. IsOfText e
            → (bytes : List ℕ) × (ended : Bool) × Takes (S.left source.old)
            (S.left source.new) (S.taken source.old) (S.taken source.new) bytes
            × (ended ≡ true → IsAtEnd (S.left source.new))
            × ((n : ℕ) → HasFault (stream_of n lines) bytes e ended
            × HasFront (front_of n lines) bytes [] ended)) }
        ensures sparing { result ≡ Err StreamFault.Read → (bytes : List ℕ)
            × Takes (S.left source.old) (S.left source.new)
            (S.taken source.old) (S.taken source.new) bytes × LacksHeader bytes }

        // The source is asked only where no header has come whole.
        ensures asks { (times : ℕ) × (bytes : List ℕ)
            × AsksWhere S.left S.taken LacksHeader source.old times bytes source.new }
        ensures read { result ≡ Err StreamFault.Read
            → Rose (S.faults source.old) (S.faults source.new) }
        ensures endless { result ≡ Err StreamFault.Endless
            → (bytes : List ℕ) × Takes (S.left source.old) (S.left source.new)
            (S.taken source.old) (S.taken source.new) bytes × (2 ^ 64 - 1 ≤ length bytes) }
        ensures no_fault { result ≢ Err StreamFault.Read
            → S.faults source.new ≡ S.faults source.old }
        ensures never_falls { S.faults source.old ≤ S.faults source.new }
    {
        let kept = Gathered::new(alloc)?;
        let Ok(incoming) = Incoming::begin(source) else {
            return Err(StreamFault::Read);
        };
        let mut records = Records {
            incoming,
            kept,
            place: Place::StartRecord,
        };
        let found = records.next(source)?;
        if !found || !is_header_row(&records.kept) {
            return Err(StreamFault::Trace(TraceFault {
                row: 0,
                kind: Kind::Header,
            }));
        }
        Ok(TraceStream {
            records,
            lines,
            rows: 0,
            tick: 0,
        })
    }

    /// Reads the event of the next row, where all of it has come as a plain row of a read, a write or a cut without a fault; else it reads
    /// nothing. No source is asked.
    pub fn arrived<const B: usize>(&mut self) -> Option<Event<B>>
        requires { B ≤ 128 }
        ensures next { IfSome result (λ event. AsksNext self.old [] (Some (Happens event))
            self.new) }
        ensures lawful { IfSome result (λ event. IsEventFor self.old.lines self.old.tick event) }
        ensures row { IfSome result (λ event. (self.new.rows ≡ self.old.rows + 1)
            × (self.new.rows ≤ MOST_STREAMED) × (self.new.tick ≡ event.tick)) }
        ensures lines { self.new.lines ≡ self.old.lines }
        ensures ended { self.new.arrived.ended ≡ self.old.arrived.ended }
        ensures none { IfNone result (self.new ≡ self.old) }
    {
        let Some(row) = self.plain_next() else {
            return None;
        };
        let bytes = self.records.incoming.bytes();
        let Ok(event) = read_plain_row(bytes, 0, row, self.lines, self.tick) else {
            return None;
        };
        self.records.incoming.pass(row.payload + 1);
        self.rows += 1;
        self.tick = event.tick;
        Some(event)
    }

    /// Reads the next row, as soon as its line has come, or finds that there is none. A row of more than four fields is found to be faulty
    /// as soon as five of them have come.
    pub fn next<const B: usize, S: Source>(
        &mut self,
        source: &mut S,
    ) -> Result<Option<Asked<B>>, StreamFault>
        requires { B ≤ 128 }
        ensures ok { IfOk result (λ next. (bytes : List ℕ)
            × Takes (S.left source.old) (S.left source.new)
            (S.taken source.old) (S.taken source.new) bytes
            × StaysEnded self.old.arrived.ended bytes self.new.arrived.ended
            × AsksNext self.old bytes next self.new) }
        ensures prompt { decides self.old.state 0 self.old.arrived.bytes ≡ true
            → source.new ≡ source.old }
        ensures sparing { result ≡ Err StreamFault.Read → (bytes : List ℕ)
            × Takes (S.left source.old) (S.left source.new)
            (S.taken source.old) (S.taken source.new) bytes
            × (self.old.arrived.ended ≡ false)
            × (decides self.old.state 0 (self.old.arrived.bytes ++ bytes) ≡ false) }

        // The source is asked only where what has come decides of no row, once more each time that the next piece doesn't either.
        ensures asks { (times : ℕ) × (bytes : List ℕ) × AsksWhere S.left S.taken
            (LacksRow self.old.state self.old.arrived) source.old times bytes source.new }
        ensures lawful { IfOk result (λ next. IfSome next
            (λ asked. IsAskedFor self.old.lines self.old.tick asked)) }
        ensures waits { IfOk result (λ next. IfSome next
            (λ asked. NamesRow self.old.rows asked × IsUnreached self.old.tick asked)) }
        ensures row { IfOk result (λ next. IfSome next (λ asked. (self.new.rows
            ≡ rows_after self.old.rows asked)
            × (self.new.rows ≤ MOST_STREAMED) × (self.new.tick ≡ tick_asked asked))) }
        ensures lines { OnOk result (self.new.lines ≡ self.old.lines) }
        ensures end { OnOk result ((self.old.arrived.ended ≡ true → IsAtEnd (S.left source.old))
            → self.new.arrived.ended ≡ true → IsAtEnd (S.left source.new)) }
        ensures fault { IfErr result (λ e. IsOfText e
            → (bytes : List ℕ) × Takes (S.left source.old) (S.left source.new)
            (S.taken source.old) (S.taken source.new) bytes
            × StaysEnded self.old.arrived.ended bytes self.new.arrived.ended
            × ((self.old.arrived.ended ≡ true → IsAtEnd (S.left source.old))
            → self.new.arrived.ended ≡ true → IsAtEnd (S.left source.new))
            × HasFault (asked_from B self.old) bytes e self.new.arrived.ended
            × HasFront (front_from B self.old) bytes [] self.new.arrived.ended) }
        ensures read { result ≡ Err StreamFault.Read
            → Rose (S.faults source.old) (S.faults source.new) }
        ensures endless { result ≡ Err StreamFault.Endless
            → (bytes : List ℕ) × Takes (S.left source.old) (S.left source.new)
            (S.taken source.old) (S.taken source.new) bytes × (2 ^ 64 - 1 ≤ length bytes) }
        ensures memory { result ≢ Err StreamFault.NoMemory }
        ensures no_fault { result ≢ Err StreamFault.Read
            → S.faults source.new ≡ S.faults source.old }
        ensures never_falls { S.faults source.old ≤ S.faults source.new }
    {
        if let Some(row) = self.plain_next() {
            return self.take_plain(row);
        }
        if !self.records.next(source)? {
            return Ok(None);
        }
        let row = &self.records.kept;
        if is_past(self.rows, row) {
            return Err(StreamFault::TooMany);
        }
        match read_asked(row, self.lines, self.rows, self.tick) {
            Ok(asked) => {
                self.rows = asked.rows_after(self.rows);
                self.tick = asked.tick();
                Ok(Some(asked))
            }
            Err(kind) => Err(StreamFault::Trace(TraceFault {
                row: self.rows + 1,
                kind,
            })),
        }
    }
}

impl TraceStream {
    // The next row, where all of it has come as a plain row of an event that has a number.
    fn plain_next(&self) -> Option<PlainRow>
        ensures { IfSome result (λ row. IsPlainNext self.now row) }
    {
        if self.rows == MOST_STREAMED {
            return None;
        }
        let row = self.records.plain_row()?;
        if is_event_word(&self.records.incoming.bytes()[row.tick + 1..row.op]) {
            Some(row)
        } else {
            None
        }
    }

    // Reads this row, without what is kept of others.
    fn take_plain<const B: usize>(&mut self, row: PlainRow) -> Result<Option<Asked<B>>, StreamFault>
        requires small { B ≤ 128 }
        requires next { IsPlainNext self.old row }
        ensures ok { IfOk result (λ next. AsksNext self.old [] next self.new) }
        ensures lawful { IfOk result (λ next. IfSome next
            (λ asked. IsAskedFor self.old.lines self.old.tick asked)) }
        ensures waits { IfOk result (λ next. IfSome next
            (λ asked. NamesRow self.old.rows asked × IsUnreached self.old.tick asked)) }
        ensures row { IfOk result (λ next. IfSome next (λ asked. (self.new.rows
            ≡ rows_after self.old.rows asked)
            × (self.new.rows ≤ MOST_STREAMED) × (self.new.tick ≡ tick_asked asked))) }
        ensures lines { self.new.lines ≡ self.old.lines }
        ensures ended { self.new.arrived.ended ≡ self.old.arrived.ended }
        ensures fault { IfErr result (λ e. IsOfText e
            × HasFault (asked_from B self.old) [] e self.new.arrived.ended
            × HasFront (front_from B self.old) [] [] self.new.arrived.ended) }
    {
        let read = read_plain_row(self.records.incoming.bytes(), 0, row, self.lines, self.tick);
        self.records.incoming.pass(row.payload + 1);
        match read {
            Ok(event) => {
                self.rows += 1;
                self.tick = event.tick;
                Ok(Some(Asked::Happens(event)))
            }
            Err(kind) => Err(StreamFault::Trace(TraceFault {
                kind,
                row: self.rows + 1,
            })),
        }
    }
}

// Whether a record is one row too many, where so many rows before it have a number.
fn is_past(rows: u32, row: &Gathered) -> bool
    ensures { result ≡ is_past rows row.now.fields }
{
    rows == MOST_STREAMED && !is_settle_row(row)
}
