//! The events of one bank.
ghost use Rattle.std.specs.Prelude.{◌≡◌, ◌<◌, ◌≤◌, List, [], ◌∷◌, length, slice_get, IfOk, is_some};
ghost use Rattle.cell_rows.specs.Device.{ArrayState};
ghost use Rattle.ecp_line.specs.Layout.{IsLayout};
ghost use Rattle.bank_shape.specs.Shape.{IsBankShape};
ghost use Rattle.power_recovery.specs.Kept.{IsKept};
ghost use Rattle.power_recovery.specs.Slots.{bank_lines};
ghost use Rattle.bank_model.specs.Events.{BankEvent, Read};
ghost use Rattle.bank_invariant.specs.State.{first_bank};
ghost use Rattle.bank_invariant.specs.Tied.{IsTied};
ghost use Rattle.bank_invariant.specs.Holds.{Holds};
ghost use Rattle.bank_invariant.specs.Serving.{read_from};
ghost use Rattle.bank_core.specs.Steps.{IsFreshFor, has_work, after_read, lost_taken};

use bank_shape::answer::{ReadAnswer, Step};
use bank_shape::waiting::Waiting;
use bank_shape::{BankShape, Work};
use circular_buffer::HeapCircularBuffer;
use line_writer::LineWriter;
use masked_bytes::layers::has_all;
use power_recovery::kept::Kept;
use std::alloc::{AllocError, Global};
use std::marker::Model;

// A line write in progress: what it is for, and the array line that it writes.
#[derive(Drop)]
pub(crate) struct Running<const B: usize, const M: usize, const E: usize> {
    pub(crate) work: Work,
    pub(crate) target: u32,
    pub(crate) writer: LineWriter<B, M, E>,
}

/// What the begin of a line write or an iteration of one answers.
#[derive(Clone, Copy)]
pub struct Stepped {
    /// What the line write is for.
    pub work: Work,
    /// How far it has come.
    pub step: Step,
}

/// A bank of lines of `B` bytes with `M` check bytes and `E` error-correcting pointers. Each call is one event.
#[derive(Drop)]
pub struct Bank<const B: usize, const M: usize, const E: usize> {
    pub(crate) kept: Kept<B>,
    pub(crate) running: Option<Running<B, M, E>>,
    pub(crate) waiting: HeapCircularBuffer<Waiting<B>>,
    // The rows of reads that a cut took away, until they are taken.
    pub(crate) lost: HeapCircularBuffer<u32>,
    // A bound above the rows that were handed in.
    pub(crate) rows_below: u64,
}

impl<const B: usize, const M: usize, const E: usize> Model for Bank<B, M, E> {
    ghost use Rattle.bank_invariant.specs.State.{BankState};

    ghost Value = { BankState B M E };

    ghost use Rattle.bank_core.specs.Running.{operation_of};
    ghost use Rattle.bank_core.specs.Bank.{IsBank};

    ghost view = { λ b. record {
      kept = b.kept;
      running = operation_of b.running;
      waiting = b.waiting.items;
      lost = b.lost.items;
      rows_below = b.rows_below;
    } };

    ghost invariant = { λ b. IsBank M E b.kept b.waiting.items b.waiting.capacity b.lost.capacity };
}

impl<const B: usize, const M: usize, const E: usize> Bank<B, M, E> {
    /// A bank with an empty queue, no gap moved and no spare used, for array lines that were just powered up.
    pub fn new(alloc: Global, shape: BankShape) -> Result<Bank<B, M, E>, AllocError>
        requires layout { IsLayout B M E }
        requires limits { IsBankShape shape }
        ensures first { IfOk result (λ bank. bank ≡ first_bank shape) }
        ensures holds { IfOk result (λ bank. (array : ArrayState B M) → IsFreshFor shape array
            → Holds [] bank array) }
    {
        let kept = Kept::new(alloc, shape)?;
        let waiting = HeapCircularBuffer::with_capacity(alloc, shape.reads as usize)?;
        let lost = HeapCircularBuffer::with_capacity(alloc, shape.reads as usize)?;
        Ok(Bank {
            kept,
            running: None,
            waiting,
            lost,
            rows_below: 0,
        })
    }

    /// What survives a power cut.
    pub fn kept(&self) -> &Kept<B>
        ensures kept { result.now ≡ self.now.kept }
        ensures in_range { IsKept self.now.kept }
    {
        &self.kept
    }

    /// Whether a line write is in progress.
    pub fn running(&self) -> bool
        ensures { result ≡ is_some self.now.running }
    {
        self.running.is_some()
    }

    /// How many reads wait.
    pub fn waiting(&self) -> u32
        ensures count { result ≡ length self.now.waiting }
        ensures within { result ≤ self.now.kept.shape.reads }
    {
        self.waiting.len() as u32
    }

    /// Whether anything is left to do without a new write or read.
    pub fn has_work(&self) -> bool
        ensures { result ≡ has_work self.now }
    {
        self.running.is_some()
            || self.waiting.len() > 0
            || match self.kept.next_work() {
                Work::Nothing => false,
                _ => true,
            }
    }

    /// A read of a bank line arrives, with the number of its row, above those of all before it.
    pub fn read(&mut self, row: u32, line: u32) -> ReadAnswer<B>
        requires exists { line < bank_lines self.old.kept.shape }
        requires rises { self.old.rows_below ≤ row }
        ensures answer { result ≡ read_from self.old line }
        ensures bank { self.new ≡ after_read self.old row line result }
        ensures tied { (array : ArrayState B M) → IsTied self.old array → IsTied self.new array }
        ensures holds { (h : List (BankEvent B)) (array : ArrayState B M) → Holds h self.old array
            → Holds (Read row line result ∷ h) self.new array }
    {
        let (kept, given) = self.kept.newest(line);
        self.rows_below = row as u64 + 1;
        if has_all(&given) {
            return ReadAnswer::Forwarded(kept);
        }
        let read = Waiting {
            row,
            line,
            kept,
            given,
        };
        match self.waiting.try_push_back(read) {
            Ok(()) => ReadAnswer::Waiting,
            Err(_) => ReadAnswer::Busy,
        }
    }

    /// The oldest row whose read a cut took away, once.
    pub fn take_lost(&mut self) -> Option<u32>
        ensures row { result ≡ slice_get self.old.lost 0 }
        ensures bank { self.new ≡ lost_taken self.old }
        ensures tied { (array : ArrayState B M) → IsTied self.old array → IsTied self.new array }
        ensures holds { (h : List (BankEvent B)) (array : ArrayState B M) → Holds h self.old array
            → Holds h self.new array }
    {
        self.lost.pop_front()
    }
}
