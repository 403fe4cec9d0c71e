// A module over its array as rows come.
ghost use Rattle.std.specs.Prelude.{◌≡◌, ◌∷◌, ◌<◌, ◌≤◌, length, IfOk, IfErr, OnOk, OnErr, IfSome, IsSomeAnd, slice_get, false};
ghost use Rattle.ecp_line.specs.Layout.{IsLayout};
ghost use Rattle.masked_bytes.specs.Masked.{all_given};
ghost use Rattle.trace_reader.specs.Events.{IsEventFor, IsOpFor};
ghost use Rattle.trace_reader.specs.Rows.{latest_tick};
ghost use Rattle.row_rules.specs.Rows.{newest};
ghost use Rattle.module_shape.specs.Limits.{total_of};
ghost use Rattle.disk_lines.specs.Asking.{HasCause, HasHeard, IsLater, IsWriteOf, LaysOver, Passes, SameLines, TakesRow, is_full, rows_heard, most_rows};
ghost use Rattle.pcm_module.specs.Settling.{IsAtTick};
ghost use Rattle.pcm_module.specs.State.{bank_at};
ghost use Rattle.disk_lines.specs.Cutting.{come_from, left_of, left_behind};
ghost use Rattle.disk_lines.specs.Hearing.{events_in};
ghost use Rattle.disk_lines.specs.Lines.{kind_at};

use crate::cuts::Cuts;
use crate::masks::{answer, is_accepted, is_open, whole_op, write_op};
use crate::watch::Watch;
use atomic_sectors::Stopped;
use bank_timing::clocked::Timed;
use cell_rows::CellArray;
use masked_bytes::layers::has_some;
use pcm_module::Module;
use read_moments::{
    no_answer_is_wrong_meanwhile, no_row_takes_back_bytes, no_settle_takes_back_bytes,
};
use trace_reader::{Event, EventOp};

/// The last tick at which a row may come.
const LAST_TICK: u64 = 1_099_511_627_776;

/// The number of the last row.
const LAST_ROW: u32 = 4_294_967_294;

/// A module over its array, what was heard of its rows, and when the power is to be cut.
#[derive(Drop)]
pub(crate) struct RunningModule<
    const B: usize,
    const M: usize,
    const E: usize,
    A: CellArray<B, M> + Drop,
> {
    pub(crate) module: Module<B, M, E>,
    pub(crate) array: A,
    pub(crate) watch: Watch<B>,
    pub(crate) cuts: Cuts,
}

impl<const B: usize, const M: usize, const E: usize, A: CellArray<B, M> + Drop> RunningModule<
    B,
    M,
    E,
    A,
> {
    // A row comes.
    fn hand_in(&mut self, event: &Event<B>)
        requires layout { IsLayout B M E }
        requires event { IsEventFor (total_of self.old.module.shape) self.old.module.tick event.now }
        requires few { length (events_in self.old.watch.heard) < most_rows }
        requires has { HasHeard self.old.module (A.state self.old.array) self.old.watch.heard }
        ensures has { HasHeard self.new.module (A.state self.new.array) self.new.watch.heard }
        ensures takes { TakesRow self.old.module self.new.module event.now self.old.watch self.new.watch }
        ensures wear { (A.state self.new.array).wear ≡ (A.state self.old.array).wear }
        ensures cuts { self.new.cuts ≡ self.old.cuts }
    {
        no_row_takes_back_bytes();
        let _ = self.watch.rows();
        self.watch.add(event);
        let row = self.watch.rows();
        // Its sizes make known that each line's bank is one of the module's.
        let _ = self.module.shape();
        self.module
            .event(&mut self.array, row, event, &mut self.watch);
        let _ = self.watch.rows();
        let _ = self.watch.last();
    }

    // Time passes to a tick, a bank comes to it, and no row comes.
    fn pass_to(&mut self, bank: u32, tick: u64)
        requires layout { IsLayout B M E }
        requires exists { bank < self.old.module.shape.banks }
        requires rises { self.old.module.tick ≤ tick }
        requires in_time { tick ≤ latest_tick }
        requires has { HasHeard self.old.module (A.state self.old.array) self.old.watch.heard }
        ensures has { HasHeard self.new.module (A.state self.new.array) self.new.watch.heard }
        ensures passes { Passes self.old.module self.new.module tick self.old.watch.heard
            self.new.watch.heard }
        ensures settled { IsSomeAnd (slice_get self.new.module.banks bank)
            (IsAtTick self.new.module.tick) }
        ensures wear { (A.state self.new.array).wear ≡ (A.state self.old.array).wear }
        ensures cuts { self.new.cuts ≡ self.old.cuts }
    {
        no_settle_takes_back_bytes();
        let _ = self.module.shape();
        self.module
            .settle_bank(&mut self.array, bank, tick, &mut self.watch);
        let _ = self.watch.rows();
    }

    // The power is cut at the tick of the next cut, where one row more may come.
    fn cut(&mut self, tick: u64) -> Stopped
        requires layout { IsLayout B M E }
        requires rises { self.old.module.tick ≤ tick }
        requires in_time { tick ≤ latest_tick }
        requires some { self.old.cuts.came < length self.old.cuts.ticks.items }
        requires next { come_from self.old.module.tick (left_of self.old.cuts)
            ≡ tick ∷ come_from tick (left_behind self.old.cuts) }
        requires has { HasHeard self.old.module (A.state self.old.array) self.old.watch.heard }
        ensures has { HasHeard self.new.module (A.state self.new.array) self.new.watch.heard }
        ensures later { IsLater self.old.module self.new.module self.old.watch.heard self.new.watch.heard }
        ensures kind { kind_at self.new.module (A.state self.new.array) self.new.watch.heard self.new.cuts
            ≡ kind_at self.old.module (A.state self.old.array) self.old.watch.heard self.old.cuts }
        ensures same { SameLines self.old.module self.new.module self.old.watch.heard
            self.new.watch.heard }
        ensures cause { HasCause result self.new.module.tick self.old.watch.heard self.new.watch.heard }
    {
        if self.watch.rows() >= LAST_ROW {
            return Stopped::Ended;
        }
        let event = Event {
            tick,
            op: EventOp::Cut,
        };
        self.hand_in(&event);
        self.cuts.came += 1;
        Stopped::Cut
    }

    // Time passes to a tick, to which a bank comes, or to a cut that comes by then.
    fn go_on(&mut self, bank: u32, tick: u64) -> Result<(), Stopped>
        requires layout { IsLayout B M E }
        requires exists { bank < self.old.module.shape.banks }
        requires rises { self.old.module.tick ≤ tick }
        requires in_time { tick ≤ latest_tick }
        requires has { HasHeard self.old.module (A.state self.old.array) self.old.watch.heard }
        ensures has { HasHeard self.new.module (A.state self.new.array) self.new.watch.heard }
        ensures later { IsLater self.old.module self.new.module self.old.watch.heard self.new.watch.heard }
        ensures kind { kind_at self.new.module (A.state self.new.array) self.new.watch.heard self.new.cuts
            ≡ kind_at self.old.module (A.state self.old.array) self.old.watch.heard self.old.cuts }
        ensures same { SameLines self.old.module self.new.module self.old.watch.heard
            self.new.watch.heard }
        ensures cause { IfErr result (λ why. HasCause why self.new.module.tick self.old.watch.heard
            self.new.watch.heard) }
        ensures tick { OnOk result (self.new.module.tick ≡ tick) }
        ensures settled { OnOk result (IsSomeAnd (slice_get self.new.module.banks bank)
            (IsAtTick self.new.module.tick)) }
        ensures events { OnOk result (events_in self.new.watch.heard ≡ events_in self.old.watch.heard) }
    {
        match self.cuts.due_by(self.module.tick(), tick) {
            Some(at) => Err(self.cut(at)),
            None => {
                self.pass_to(bank, tick);
                Ok(())
            }
        }
    }

    // The tick at which what a bank does next ends, a later one than now.
    fn next_end(&self, bank: u32) -> Result<u64, Stopped>
        requires layout { IsLayout B M E }
        requires exists { bank < self.now.module.shape.banks }
        requires has { HasHeard self.now.module (A.state self.now.array) self.now.watch.heard }
        ensures later { IfOk result (λ tick. (self.now.module.tick < tick) × (tick ≤ latest_tick)) }
        ensures cause { IfErr result (λ why. HasCause why self.now.module.tick self.now.watch.heard
            self.now.watch.heard) }
    {
        let now = self.module.tick();
        if now >= LAST_TICK {
            return Err(Stopped::Ended);
        }
        let next = self.module.timed(bank).next_end(LAST_TICK);
        Ok(next.min(LAST_TICK).max(now + 1))
    }

    // Time passes until what a bank does next ends; the other banks go on later, each when it is asked for something.
    fn step(&mut self, bank: u32) -> Result<(), Stopped>
        requires layout { IsLayout B M E }
        requires exists { bank < self.old.module.shape.banks }
        requires has { HasHeard self.old.module (A.state self.old.array) self.old.watch.heard }
        ensures has { HasHeard self.new.module (A.state self.new.array) self.new.watch.heard }
        ensures later { IsLater self.old.module self.new.module self.old.watch.heard self.new.watch.heard }
        ensures kind { kind_at self.new.module (A.state self.new.array) self.new.watch.heard self.new.cuts
            ≡ kind_at self.old.module (A.state self.old.array) self.old.watch.heard self.old.cuts }
        ensures same { SameLines self.old.module self.new.module self.old.watch.heard
            self.new.watch.heard }
        ensures cause { IfErr result (λ why. HasCause why self.new.module.tick self.old.watch.heard
            self.new.watch.heard) }
        ensures further { OnOk result ((self.old.module.tick < self.new.module.tick)
            × (self.new.module.tick ≤ latest_tick)) }
        ensures settled { OnOk result (IsSomeAnd (slice_get self.new.module.banks bank)
            (IsAtTick self.new.module.tick)) }
        ensures events { OnOk result (events_in self.new.watch.heard ≡ events_in self.old.watch.heard) }
    {
        let tick = self.next_end(bank)?;
        self.go_on(bank, tick)
    }

    // Time passes until the last row has its outcome; its bank is this one.
    fn wait(&mut self, bank: u32) -> Result<(), Stopped>
        requires layout { IsLayout B M E }
        requires exists { bank < self.old.module.shape.banks }
        requires has { HasHeard self.old.module (A.state self.old.array) self.old.watch.heard }
        ensures has { HasHeard self.new.module (A.state self.new.array) self.new.watch.heard }
        ensures later { IsLater self.old.module self.new.module self.old.watch.heard self.new.watch.heard }
        ensures kind { kind_at self.new.module (A.state self.new.array) self.new.watch.heard self.new.cuts
            ≡ kind_at self.old.module (A.state self.old.array) self.old.watch.heard self.old.cuts }
        ensures same { SameLines self.old.module self.new.module self.old.watch.heard
            self.new.watch.heard }
        ensures cause { IfErr result (λ why. HasCause why self.new.module.tick self.old.watch.heard
            self.new.watch.heard) }
        ensures events { OnOk result (events_in self.new.watch.heard ≡ events_in self.old.watch.heard) }
    {
        'waits: while is_open(self.watch.last()) {
            self.step(bank)?;
        }
        Ok(())
    }

    // Whether a bank holds as many writes as it may, and still stores them: one that found no spare, or has halted, does not.
    fn is_full(&self, bank: u32) -> bool
        requires layout { IsLayout B M E }
        requires exists { bank < self.now.module.shape.banks }
        ensures { result ≡ is_full (bank_at self.now.module bank) }
    {
        holds_all(self.module.timed(bank))
    }

    // Time passes until a bank takes one more write, or takes none any more.
    fn make_room(&mut self, bank: u32) -> Result<(), Stopped>
        requires layout { IsLayout B M E }
        requires exists { bank < self.old.module.shape.banks }
        requires has { HasHeard self.old.module (A.state self.old.array) self.old.watch.heard }
        ensures has { HasHeard self.new.module (A.state self.new.array) self.new.watch.heard }
        ensures later { IsLater self.old.module self.new.module self.old.watch.heard self.new.watch.heard }
        ensures kind { kind_at self.new.module (A.state self.new.array) self.new.watch.heard self.new.cuts
            ≡ kind_at self.old.module (A.state self.old.array) self.old.watch.heard self.old.cuts }
        ensures same { SameLines self.old.module self.new.module self.old.watch.heard
            self.new.watch.heard }
        ensures cause { IfErr result (λ why. HasCause why self.new.module.tick self.old.watch.heard
            self.new.watch.heard) }
        ensures room { OnOk result (is_full (bank_at self.new.module bank) ≡ false) }
    {
        'rooms: while self.is_full(bank) {
            self.step(bank)?;
        }
        Ok(())
    }

    // The tick of the next row, which may come; a cut that comes by then comes first.
    fn next_tick(&mut self) -> Result<u64, Stopped>
        requires layout { IsLayout B M E }
        requires has { HasHeard self.old.module (A.state self.old.array) self.old.watch.heard }
        ensures has { HasHeard self.new.module (A.state self.new.array) self.new.watch.heard }
        ensures later { IsLater self.old.module self.new.module self.old.watch.heard self.new.watch.heard }
        ensures kind { kind_at self.new.module (A.state self.new.array) self.new.watch.heard self.new.cuts
            ≡ kind_at self.old.module (A.state self.old.array) self.old.watch.heard self.old.cuts }
        ensures same { SameLines self.old.module self.new.module self.old.watch.heard
            self.new.watch.heard }
        ensures cause { IfErr result (λ why. HasCause why self.new.module.tick self.old.watch.heard
            self.new.watch.heard) }
        ensures next { IfOk result (λ tick. (self.new.module.tick ≤ tick) × (tick ≤ latest_tick)
            × (length (events_in self.new.watch.heard) < most_rows)) }
        ensures quiet { IfOk result (λ tick. come_from tick (left_of self.new.cuts)
            ≡ come_from self.new.module.tick (left_of self.new.cuts)) }
    {
        let now = self.module.tick();
        if now >= LAST_TICK || self.watch.rows() >= LAST_ROW {
            return Err(Stopped::Ended);
        }
        match self.cuts.due_by(now, now + 1) {
            Some(at) => Err(self.cut(at)),
            None => Ok(now + 1),
        }
    }

    // Asks for a line once, and waits for its answer. There is none where its bank has no room for a read.
    fn ask(&mut self, place: u32, bank: u32) -> Result<Option<[u8; B]>, Stopped>
        requires layout { IsLayout B M E }
        requires within { place < total_of self.old.module.shape }
        requires exists { bank < self.old.module.shape.banks }
        requires has { HasHeard self.old.module (A.state self.old.array) self.old.watch.heard }
        ensures has { HasHeard self.new.module (A.state self.new.array) self.new.watch.heard }
        ensures later { IsLater self.old.module self.new.module self.old.watch.heard self.new.watch.heard }
        ensures kind { kind_at self.new.module (A.state self.new.array) self.new.watch.heard self.new.cuts
            ≡ kind_at self.old.module (A.state self.old.array) self.old.watch.heard self.old.cuts }
        ensures same { SameLines self.old.module self.new.module self.old.watch.heard
            self.new.watch.heard }
        ensures cause { IfErr result (λ why. HasCause why self.new.module.tick self.old.watch.heard
            self.new.watch.heard) }
        ensures more { OnOk result ((length (events_in self.old.watch.heard)
            < length (events_in self.new.watch.heard))
            × (length (events_in self.new.watch.heard) ≤ most_rows)) }
        ensures bytes { IfOk result (λ answer. IfSome answer (λ bytes. bytes
            ≡ newest (rows_heard self.old.watch.heard) place)) }
    {
        no_answer_is_wrong_meanwhile();
        let tick = self.next_tick()?;
        let event = Event {
            tick,
            op: EventOp::Read(place),
        };
        self.hand_in(&event);
        self.wait(bank)?;
        let _ = self.module.shape();
        Ok(answer(self.watch.last()))
    }

    /// Reads a line of the module, whose bank is this one.
    pub(crate) fn read(&mut self, place: u32, bank: u32) -> Result<[u8; B], Stopped>
        requires layout { IsLayout B M E }
        requires within { place < total_of self.old.module.shape }
        requires exists { bank < self.old.module.shape.banks }
        requires has { HasHeard self.old.module (A.state self.old.array) self.old.watch.heard }
        ensures has { HasHeard self.new.module (A.state self.new.array) self.new.watch.heard }
        ensures later { IsLater self.old.module self.new.module self.old.watch.heard self.new.watch.heard }
        ensures kind { kind_at self.new.module (A.state self.new.array) self.new.watch.heard self.new.cuts
            ≡ kind_at self.old.module (A.state self.old.array) self.old.watch.heard self.old.cuts }
        ensures same { SameLines self.old.module self.new.module self.old.watch.heard
            self.new.watch.heard }
        ensures cause { IfErr result (λ why. HasCause why self.new.module.tick self.old.watch.heard
            self.new.watch.heard) }
        ensures bytes { IfOk result (λ bytes. bytes
            ≡ newest (rows_heard self.old.watch.heard) place) }
    {
        'asks: loop {
            if let Some(bytes) = self.ask(place, bank)? {
                return Ok(bytes);
            }
        }
    }

    /// Writes those bytes of a line of the module that are given; its bank is this one. Where none is given no row comes.
    pub(crate) fn write(
        &mut self,
        place: u32,
        bank: u32,
        bytes: &[u8; B],
        given: &[bool; B],
    ) -> Result<(), Stopped>
        requires layout { IsLayout B M E }
        requires within { place < total_of self.old.module.shape }
        requires exists { bank < self.old.module.shape.banks }
        requires has { HasHeard self.old.module (A.state self.old.array) self.old.watch.heard }
        ensures has { HasHeard self.new.module (A.state self.new.array) self.new.watch.heard }
        ensures later { IsLater self.old.module self.new.module self.old.watch.heard self.new.watch.heard }
        ensures kind { kind_at self.new.module (A.state self.new.array) self.new.watch.heard self.new.cuts
            ≡ kind_at self.old.module (A.state self.old.array) self.old.watch.heard self.old.cuts }
        ensures lays { OnOk result (LaysOver self.old.module self.new.module place bytes.now given.now
            self.old.watch.heard self.new.watch.heard) }
        ensures same { OnErr result (SameLines self.old.module self.new.module self.old.watch.heard
            self.new.watch.heard) }
        ensures cause { IfErr result (λ why. HasCause why self.new.module.tick self.old.watch.heard
            self.new.watch.heard) }
    {
        if !has_some(given) {
            return Ok(());
        }
        let op = write_op(place, bytes, given);
        self.write_by(place, bank, bytes, given, op)
    }

    /// Writes a whole line of the module; its bank is this one.
    pub(crate) fn write_all(
        &mut self,
        place: u32,
        bank: u32,
        bytes: &[u8; B],
    ) -> Result<(), Stopped>
        requires layout { IsLayout B M E }
        requires within { place < total_of self.old.module.shape }
        requires exists { bank < self.old.module.shape.banks }
        requires has { HasHeard self.old.module (A.state self.old.array) self.old.watch.heard }
        ensures has { HasHeard self.new.module (A.state self.new.array) self.new.watch.heard }
        ensures later { IsLater self.old.module self.new.module self.old.watch.heard self.new.watch.heard }
        ensures kind { kind_at self.new.module (A.state self.new.array) self.new.watch.heard self.new.cuts
            ≡ kind_at self.old.module (A.state self.old.array) self.old.watch.heard self.old.cuts }
        ensures lays { OnOk result (LaysOver self.old.module self.new.module place bytes.now (all_given B)
            self.old.watch.heard self.new.watch.heard) }
        ensures same { OnErr result (SameLines self.old.module self.new.module self.old.watch.heard
            self.new.watch.heard) }
        ensures cause { IfErr result (λ why. HasCause why self.new.module.tick self.old.watch.heard
            self.new.watch.heard) }
    {
        let all = [true; B];
        let op = whole_op(place, bytes);
        self.write_by(place, bank, bytes, &all, op)
    }

    // Writes those bytes of a line of the module that are given, by an operation that does.
    fn write_by(
        &mut self,
        place: u32,
        bank: u32,
        bytes: &[u8; B],
        given: &[bool; B],
        op: EventOp<B>,
    ) -> Result<(), Stopped>
        requires layout { IsLayout B M E }
        requires exists { bank < self.old.module.shape.banks }
        requires has { HasHeard self.old.module (A.state self.old.array) self.old.watch.heard }
        requires lawful { IsOpFor (total_of self.old.module.shape) op }
        requires writes { IsWriteOf place bytes.now given.now op }
        ensures has { HasHeard self.new.module (A.state self.new.array) self.new.watch.heard }
        ensures later { IsLater self.old.module self.new.module self.old.watch.heard self.new.watch.heard }
        ensures kind { kind_at self.new.module (A.state self.new.array) self.new.watch.heard self.new.cuts
            ≡ kind_at self.old.module (A.state self.old.array) self.old.watch.heard self.old.cuts }
        ensures lays { OnOk result (LaysOver self.old.module self.new.module place bytes.now given.now
            self.old.watch.heard self.new.watch.heard) }
        ensures same { OnErr result (SameLines self.old.module self.new.module self.old.watch.heard
            self.new.watch.heard) }
        ensures cause { IfErr result (λ why. HasCause why self.new.module.tick self.old.watch.heard
            self.new.watch.heard) }
    {
        no_answer_is_wrong_meanwhile();
        self.make_room(bank)?;
        let tick = self.next_tick()?;
        let event = Event { tick, op };
        self.hand_in(&event);
        let _ = self.module.shape();
        if is_accepted(self.watch.last()) {
            Ok(())
        } else {
            Err(Stopped::Worn)
        }
    }
}

// Whether a bank holds as many writes as it may, and still stores them.
fn holds_all<const B: usize, const M: usize, const E: usize>(timed: &Timed<B, M, E>) -> bool
    requires layout { IsLayout B M E }
    ensures { result ≡ is_full timed.now }
{
    let kept = timed.bank().kept();
    let all = kept.shape().writes as usize;
    kept.len() >= all && !kept.exhausted() && !timed.regs().halted()
}
