//! A bank with its clock.
ghost use Rattle.std.specs.Prelude.{◌≡◌, ◌+◌, ◌*◌, ◌^◌, ◌<◌, ◌≤◌, ◌&&◌, not, List, [], ◌++◌, IfOk, IfSome, false};
ghost use Rattle.cell_rows.specs.Device.{ArrayState};
ghost use Rattle.ecp_line.specs.Layout.{IsLayout};
ghost use Rattle.bank_shape.specs.Shape.{IsBankShape};
ghost use Rattle.bank_model.specs.Timing.{TimedEvent, ends};
ghost use Rattle.bank_core.specs.Steps.{IsFreshFor};
ghost use Rattle.bank_shape.specs.Pausing.{IsPace};
ghost use Rattle.bank_shape.specs.declared.Home.TheVariants.{Array};
ghost use Rattle.clock_laws.specs.State.{next_action, is_busy, may_start};
ghost use Rattle.clock_laws.specs.Leads.{Leads};
ghost use Rattle.clock_laws.specs.Passing.{at_tick};
ghost use Rattle.bank_timing.specs.Extending.{Extends, GoesOn, IsGoing, IsQuiet, first_clock, last_tick};
ghost use Rattle.bank_timing.specs.Telling.{TellsUpTo};

use bank_core::bank::Bank;
use bank_shape::clock::{Action, Doing, choose};
use bank_shape::{BankShape, Pace};
use cell_rows::CellArray;
use circular_buffer::HeapCircularBuffer;
use reg_lines::regs::RegLines;
use result_rows::Outcomes;
use std::alloc::{AllocError, Global};
use std::marker::Model;

/// A bank with its clock, of lines of `B` bytes with `M` check bytes and `E` error-correcting pointers. Ticks are numbers of
/// the simulation.
#[derive(Drop)]
pub struct Timed<const B: usize, const M: usize, const E: usize> {
    pub(crate) bank: Bank<B, M, E>,
    // Its control lines: none, where the bank's registers are guarded.
    pub(crate) regs: RegLines<B, M, E>,
    pub(crate) pace: Pace,
    pub(crate) tick: u64,
    pub(crate) action: Option<Action>,
    // The arrival tick of each entry of the queue.
    pub(crate) arrivals: HeapCircularBuffer<u64>,
    // How often the present line write was cancelled.
    pub(crate) cancels: u32,
    pub(crate) drained: bool,
}

impl<const B: usize, const M: usize, const E: usize> Model for Timed<B, M, E> {
    ghost use Rattle.clock_laws.specs.State.{ClockState};

    ghost Value = { ClockState B M E };

    ghost use Rattle.bank_timing.specs.Clock.{IsClock};

    ghost view = { λ t. record {
      bank = t.bank;
      regs = t.regs;
      pace = t.pace;
      tick = t.tick;
      action = t.action;
      arrivals = t.arrivals.items;
      cancels = t.cancels;
      drained = t.drained;
    } };

    ghost invariant = { λ t. IsClock t.bank t.regs t.pace t.tick t.action t.arrivals.capacity };
}

impl<const B: usize, const M: usize, const E: usize> Timed<B, M, E> {
    /// A bank with its clock at tick 0, for array lines that were just powered up.
    pub fn new(alloc: Global, shape: BankShape, pace: Pace) -> Result<Timed<B, M, E>, AllocError>
        requires layout { IsLayout B M E }
        requires limits { IsBankShape shape }
        requires paced { IsPace pace }
        requires wide { shape.home ≡ Array → 16 ≤ B }
        ensures first { IfOk result (λ timed. timed ≡ first_clock shape pace) }
        ensures leads { IfOk result (λ timed. (array : ArrayState B M) → IsFreshFor shape array
            → Leads [] timed array) }
    {
        let bank = Bank::new(alloc, shape)?;
        let arrivals = HeapCircularBuffer::with_capacity(alloc, shape.writes as usize)?;
        let regs = RegLines::new(shape.first_control(), shape.controls());
        Ok(Timed {
            bank,
            regs,
            pace,
            tick: 0,
            action: None,
            arrivals,
            cancels: 0,
            drained: false,
        })
    }

    /// The present tick.
    pub fn now(&self) -> u64
        ensures { result ≡ self.now.tick }
    {
        self.tick
    }

    /// The bank.
    pub fn bank(&self) -> &Bank<B, M, E>
        ensures { result.now ≡ self.now.bank }
    {
        &self.bank
    }

    /// Its control lines, with the change that stands.
    pub fn regs(&self) -> &RegLines<B, M, E>
        ensures { result.now ≡ self.now.regs }
    {
        &self.regs
    }

    /// How often the present line write was cancelled.
    pub fn cancels(&self) -> u32
        ensures { result ≡ self.now.cancels }
    {
        self.cancels
    }

    /// The clock goes on to a tick: each action that ends by then is completed, and of the rows of that tick none is taken yet. What
    /// becomes known is told in the order of its ticks.
    pub fn advance<A: CellArray<B, M>, R: Outcomes<B>>(
        &mut self,
        array: &mut A,
        to: u64,
        results: &mut R,
    )
        requires going { IsGoing self.old (A.state array.old) (R.table results.old) }
        requires forward { self.old.tick ≤ to }
        requires within { to ≤ last_tick }
        ensures ran { GoesOn to self.old self.new (R.table results.old) (R.table results.new) }
        ensures extends { (xs : List (TimedEvent B M)) → Leads xs self.old (A.state array.old)
            → (added : List (TimedEvent B M))
            × Extends xs added self.old self.new (A.state array.old) (A.state array.new)
            (R.table results.old) (R.table results.new) × IsQuiet added }
        ensures goes_on { R.goes_on results.old results.new }
        ensures in_turn { TellsUpTo R.goes_on R.table to results.old results.new }
    {
        while self.tick < to {
            match self.next_action() {
                None => self.pass(None, to),
                Some(action) => {
                    let end = action.ends(self.pace.read, self.pace.iter);
                    if end <= to {
                        self.complete(array, action, results);
                    } else {
                        self.pass(Some(action), to);
                    }
                }
            }
        }
    }

    // The action that runs from now on: that which runs, or the one that is chosen now.
    pub(crate) fn next_action(&self) -> Option<Action>
        ensures { result ≡ next_action self.now }
    {
        if let Some(action) = self.action {
            return Some(action);
        }
        let read_waits = self.bank.waiting() > 0;
        let in_progress = self.is_busy();
        let may_start = self.starts_next(read_waits || in_progress);
        let chosen = choose(
            self.pace.policy.gives_way(),
            read_waits,
            in_progress,
            may_start,
        );
        match chosen {
            None => None,
            Some(doing) => Some(Action {
                doing,
                first: self.tick,
            }),
        }
    }

    // Whether a line write may begin, which is asked only where nothing goes before it.
    fn starts_next(&self, goes_before: bool) -> bool
        ensures { result ≡ not goes_before && may_start self.now.bank self.now.regs }
    {
        !goes_before && self.may_start()
    }

    // Whether a line write is in progress: that of the change that stands, or else the bank's.
    fn is_busy(&self) -> bool
        ensures { result ≡ is_busy self.now.bank self.now.regs }
    {
        match self.regs.change() {
            Some(_) => self.regs.running(),
            None => self.bank.running(),
        }
    }

    // Whether one may be begun.
    fn may_start(&self) -> bool
        ensures { result ≡ may_start self.now.bank self.now.regs }
    {
        match self.regs.change() {
            Some(_) => !(self.regs.running() || self.regs.halted()),
            None => self.bank.may_begin(),
        }
    }

    // Time passes to a tick at which the action that runs from now on hasn't ended.
    fn pass(&mut self, action: Option<Action>, to: u64)
        requires next { action ≡ next_action self.old }
        requires later { self.old.tick < to }
        requires runs { IfSome action (λ a. to < ends self.old.pace a) }
        ensures clock { self.new ≡ at_tick to (next_action self.old) self.old }
        ensures leads { (xs : List (TimedEvent B M)) (array : ArrayState B M)
            → Leads xs self.old array
            → Leads xs self.new array }
    {
        self.action = action;
        self.tick = to;
    }
}
