// An array that keeps a log of its senses.
ghost use Rattle.std.specs.Prelude.{◌≡◌, ℕ, ◌<◌, ◌≤◌, vec_len, vec_capacity};

use cell_rows::{CellArray, Cells, Sense, Wear};
use std::alloc::{AllocError, Global};

/// Passes each call on to another array, and keeps a log of the senses since `power_up`.
/// The log is told while there are at most `cap` of them.
#[derive(Drop)]
pub struct LoggedArray<A, const B: usize, const M: usize> {
    inner: A,
    log: Vec<Sense<B, M>>,
    cap: usize,
    told: bool,
    ghost room: { vec_len log ≤ cap },
    ghost reserved: { cap ≤ vec_capacity log },
}

impl<A: CellArray<B, M> + Drop, const B: usize, const M: usize> LoggedArray<A, B, M> {
    ghost use Rattle.std.specs.Prelude.{IfOk, IfSome, IfNone, [], Some, None};
    ghost use Rattle.cell_rows.specs.Shape.{IsShape};
    ghost use Rattle.pcm_cells.specs.Logging.{logged};
    ghost use Rattle.pcm_cells.specs.Logged.{told_log};

    /// Takes the memory of the whole log; `cap` is in senses.
    pub fn new(alloc: Global, inner: A, cap: usize) -> Result<LoggedArray<A, B, M>, AllocError>
        requires { IsShape B M }
        ensures inner { IfOk result (λ array. array.inner ≡ inner) }
        ensures cap { IfOk result (λ array. array.cap ≡ cap) }
        ensures log { IfOk result (λ array. told_log array ≡ Some []) }
    {
        Ok(LoggedArray {
            inner,
            log: Vec::with_capacity(alloc, cap)?,
            cap,
            told: true,
        })
    }

    fn keep(&mut self, sense: &Sense<B, M>)
        requires { IsShape B M }
        ensures log { told_log self.new ≡ logged self.old.cap sense.now (told_log self.old) }
        ensures inner { self.new.inner ≡ self.old.inner }
        ensures cap { self.new.cap ≡ self.old.cap }
    {
        if !self.told {
            return;
        }
        if self.log.len() < self.cap {
            let Ok(()) = self.log.push(*sense) else {
                unreachable!()
            };
        } else {
            self.told = false;
        }
    }

    /// The senses since `power_up` in their order, unless there were more than `cap`.
    pub fn log(&self) -> Option<&[Sense<B, M>]>
        ensures some { IfSome result (λ senses. told_log self.now ≡ Some senses.now) }
        ensures none { IfNone result (told_log self.now ≡ None) }
    {
        if self.told {
            Some(self.log.as_slice())
        } else {
            None
        }
    }
}

impl<A: CellArray<B, M> + Drop, const B: usize, const M: usize> CellArray<B, M>
    for LoggedArray<A, B, M> {
    ghost use Rattle.std.specs.Prelude.{◌+◌, OnOk, OnErr, [], Some};
    ghost use Rattle.cell_rows.specs.Device.{DeviceStep, TornStep, ChangesOnly, EnergyChanges, Senses, IsFresh, IsWear, counted, sense_of};
    ghost use Rattle.cell_rows.specs.Energy.{with_pulse};
    ghost use Rattle.cell_rows.specs.Shape.{IsShape};
    ghost use Rattle.cell_rows.specs.Pulse.{IsPulse};
    ghost use Rattle.pcm_cells.specs.Logging.{logged};
    ghost use Rattle.pcm_cells.specs.Logged.{told_log, logged_state};

    ghost state = { λ array. logged_state (A.state array.inner) array };

    fn power_up(&mut self, alloc: Global, lines: u32, wear: Wear) -> Result<(), AllocError>
        requires wear { IsWear wear }
        requires shape { IsShape B M }
        ensures ok { OnOk result (IsFresh lines wear
            (logged_state (A.state self.new.inner) self.new)) }
        ensures err { OnErr result ((A.state self.new.inner).lines ≡ 0) }
        ensures log { told_log self.new ≡ Some [] }

        // the inner array is powered up with the same lines and wear
        ensures passed { OnOk result (IsFresh lines wear (A.state self.new.inner)) }
        ensures cap { self.new.cap ≡ self.old.cap }
    {
        self.log.clear();
        self.told = true;
        self.inner.power_up(alloc, lines, wear)
    }

    fn lines(&self) -> u32 {
        self.inner.lines()
    }

    fn sense(&mut self, line: u32, tick: u64) -> Cells<B, M>
        requires exists { line < (A.state self.old.inner).lines }
        requires shape { IsShape B M }
        ensures cells { result ≡ ((A.state self.old.inner).line line).held }
        ensures step { Senses (sense_of line tick ((A.state self.old.inner).line line))
            (logged_state (A.state self.old.inner) self.old)
            (logged_state (A.state self.new.inner) self.new) }
        ensures log { told_log self.new
            ≡ logged self.old.cap (sense_of line tick ((A.state self.old.inner).line line))
            (told_log self.old) }

        // the inner array senses the same line at the same tick
        ensures passed { Senses (sense_of line tick ((A.state self.old.inner).line line))
            (A.state self.old.inner) (A.state self.new.inner) }
        ensures cap { self.new.cap ≡ self.old.cap }
    {
        let sense = Sense {
            line,
            tick,
            cells: self.inner.sense(line, tick),
            pulses: self.inner.pulses(line),
        };
        self.keep(&sense);
        sense.cells
    }

    fn pulse(&mut self, line: u32, mask: &Cells<B, M>, want: &Cells<B, M>, tick: u64)
        requires exists { line < (A.state self.old.inner).lines }
        requires lawful { IsPulse mask.now want.now ((A.state self.old.inner).line line).held }
        requires shape { IsShape B M }
        ensures step { DeviceStep (A.state self.old.inner).bounds mask.now want.now
            ((A.state self.old.inner).line line) ((A.state self.new.inner).line line) }
        ensures others { ChangesOnly line (logged_state (A.state self.old.inner) self.old)
            (logged_state (A.state self.new.inner) self.new) }
        ensures tears { (A.state self.new.inner).tears ≡ (A.state self.old.inner).tears }
        ensures energy { EnergyChanges line
            (with_pulse mask.now want.now ((A.state self.old.inner).energy line))
            (logged_state (A.state self.old.inner) self.old)
            (logged_state (A.state self.new.inner) self.new) }
        ensures passed { ChangesOnly line (A.state self.old.inner) (A.state self.new.inner) }
        ensures cap { self.new.cap ≡ self.old.cap }
    {
        self.inner.pulse(line, mask, want, tick);
    }

    fn tear(&mut self, line: u32, mask: &Cells<B, M>, want: &Cells<B, M>, tick: u64)
        requires exists { line < (A.state self.old.inner).lines }
        requires lawful { IsPulse mask.now want.now ((A.state self.old.inner).line line).held }
        requires shape { IsShape B M }
        ensures step { TornStep (A.state self.old.inner).bounds mask.now
            ((A.state self.old.inner).line line)
            ((A.state self.new.inner).line line) }
        ensures others { ChangesOnly line (logged_state (A.state self.old.inner) self.old)
            (logged_state (A.state self.new.inner) self.new) }
        ensures tears { (A.state self.new.inner).tears ≡ counted (A.state self.old.inner).tears }
        ensures energy { EnergyChanges line
            (with_pulse mask.now want.now ((A.state self.old.inner).energy line))
            (logged_state (A.state self.old.inner) self.old)
            (logged_state (A.state self.new.inner) self.new) }
        ensures passed { ChangesOnly line (A.state self.old.inner) (A.state self.new.inner) }
        ensures cap { self.new.cap ≡ self.old.cap }
    {
        self.inner.tear(line, mask, want, tick);
    }

    fn pulses(&self, line: u32) -> u64 {
        self.inner.pulses(line)
    }
}
