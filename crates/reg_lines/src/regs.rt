// The control lines of a bank.
ghost use Rattle.std.specs.Prelude.{◌≡◌, ◌≢◌, ◌+◌, ◌^◌, ◌<◌, ◌≤◌, [], ◌∷◌, None, Some, IfSome, IsTrue, IsFalse, is_some, false};
ghost use Rattle.cell_rows.specs.Device.{ArrayState};
ghost use Rattle.ecp_line.specs.Layout.{IsLayout};
ghost use Rattle.ecp_line.specs.Reading.{decode};
ghost use Rattle.bank_model.specs.Touching.{Touches};
ghost use Rattle.reg_lines.specs.Values.{encoded};
ghost use Rattle.reg_lines.specs.Regs.{RegsState, AreHeld, values_held};
ghost use Rattle.reg_lines.specs.Keeping.{with_change, broken_off, line_of, target_of, torn_line, keep_from, kept_on, IsBegin, IsIteration, IsTorn};
ghost use Rattle.bank_shape.specs.declared.answer.Keep.TheVariants as keep;

use crate::{Change, encode, values_of};
use bank_shape::answer::Keep;
use cell_rows::CellArray;
use ecp_line::Ecp;
use line_writer::{LineWriter, Progress};
use std::marker::Model;

/// Control lines, one for each item, and the change that stands.
#[derive(Drop)]
pub struct RegLines<const B: usize, const M: usize, const E: usize> {
    base: u32,
    items: u32,
    change: Option<Change>,
    halted: bool,
    writer: Option<LineWriter<B, M, E>>,
}

impl<const B: usize, const M: usize, const E: usize> Model for RegLines<B, M, E> {
    ghost use Rattle.reg_lines.specs.Regs.{RegsState, AreRegs};

    ghost Value = { RegsState B M E };

    ghost view = { λ r. record {
      base = r.base;
      items = r.items;
      change = r.change;
      halted = r.halted;
      writer = r.writer;
    } };

    ghost invariant = { λ r. AreRegs (record {
      base = r.base;
      items = r.items;
      change = r.change;
      halted = r.halted;
      writer = r.writer;
    }) };
}

impl<const B: usize, const M: usize, const E: usize> RegLines<B, M, E> {
    /// Control lines from `base` on, with no change.
    pub fn new(base: u32, items: u32) -> RegLines<B, M, E>
        requires layout { IsLayout B M E }
        requires room { 0 < items → 16 ≤ B }
        requires fits { base + items ≤ 2 ^ 32 }
        ensures { result ≡ record {
          base = base;
          items = items;
          change = None;
          halted = false;
          writer = None;
        } }
    {
        RegLines {
            base,
            items,
            change: None,
            halted: false,
            writer: None,
        }
    }

    /// Takes a change of an item, which is to be written.
    pub fn put(&mut self, change: Change)
        requires free { self.old.change ≡ None }
        requires item { change.item < self.old.items }
        ensures { self.new ≡ with_change change self.old }
    {
        self.change = Some(change);
    }

    /// The change that stands.
    pub fn change(&self) -> Option<Change>
        ensures { result ≡ self.now.change }
    {
        self.change
    }

    /// Whether it is being written.
    pub fn running(&self) -> bool
        ensures { result ≡ is_some self.now.writer }
    {
        self.writer.is_some()
    }

    /// Whether its writing has ended at a worn control line. It is never written then.
    pub fn halted(&self) -> bool
        ensures { result ≡ self.now.halted }
    {
        self.halted
    }

    /// Begins the writing of the change: senses its control line, and pulses nothing.
    pub fn begin<A: CellArray<B, M>>(&mut self, array: &mut A, tick: u64) -> Keep
        requires stands { IsTrue (is_some self.old.change) }
        requires idle { self.old.writer ≡ None }
        requires going { self.old.halted ≡ false }
        requires held { AreHeld self.old (A.state array.old) }
        ensures begins { IsBegin self.old self.new result (A.state array.new) }
        ensures goes { result ≢ keep.Halted }
        ensures touches { Touches tick (line_of self.old self.old.change) None false
            (A.state array.old) (A.state array.new) }
        ensures done { result ≡ keep.Done
            → IfSome self.old.change
            (λ change. decode E ((A.state array.new).line (self.old.base + change.item)).held
            ≡ encoded B change.values) }
        ensures held { AreHeld self.new (A.state array.new) }
    {
        let Some(change) = self.change else {
            unreachable!()
        };
        let seen = array.sense(self.base + change.item, tick);
        let writer = LineWriter::begin(seen, encode(&change.values));
        self.keep(writer)
    }

    /// One pulse and one sense of its control line.
    pub fn iterate<A: CellArray<B, M>>(&mut self, array: &mut A, tick: u64) -> Keep
        requires runs { IsTrue (is_some self.old.writer) }
        requires held { AreHeld self.old (A.state array.old) }
        ensures step { IsIteration tick self.old self.new result (A.state array.old)
            (A.state array.new) }
        ensures touches { Touches tick (line_of self.old self.old.change)
            (target_of self.old self.old.change)
            false (A.state array.old) (A.state array.new) }
        ensures done { result ≡ keep.Done
            → IfSome self.old.change
            (λ change. decode E ((A.state array.new).line (self.old.base + change.item)).held
            ≡ encoded B change.values) }
        ensures held { AreHeld self.new (A.state array.new) }
    {
        let Some(change) = self.change else {
            unreachable!()
        };
        match self.writer.take() {
            Some(mut writer) => {
                writer.step(array, self.base + change.item, tick);
                self.keep(writer)
            }
            None => unreachable!(),
        }
    }

    /// A power cut or a cancel, in the middle of the next pulse if it is `tearing`. The change stays.
    pub fn cut<A: CellArray<B, M>>(&mut self, array: &mut A, tearing: bool, tick: u64)
        requires runs { IsTrue tearing → IsTrue (is_some self.old.writer) }
        requires held { AreHeld self.old (A.state array.old) }
        ensures regs { self.new ≡ broken_off self.old }
        ensures quiet { IsFalse tearing → A.state array.new ≡ A.state array.old }
        ensures torn { IsTrue tearing → IsTorn self.old (A.state array.old) (A.state array.new) }
        ensures touches { Touches tick [] (torn_line tearing self.old) tearing
            (A.state array.old) (A.state array.new) }
        ensures held { AreHeld self.new (A.state array.new) }
    {
        if let Some(writer) = self.writer.take() {
            if let Some(change) = self.change {
                if tearing {
                    writer.tear(array, self.base + change.item, tick);
                }
            }
        }
    }

    /// The values of an item: the change's, if it is of this item, and else those of its control line, which is sensed in any case.
    pub fn read_item<A: CellArray<B, M>>(&self, array: &mut A, item: u32, tick: u64) -> [u32; 3]
        requires exists { item < self.now.items }
        requires held { self.now.base + self.now.items ≤ (A.state array.old).lines }
        ensures values { result ≡ values_held self.now (A.state array.old) item }
        ensures touches { Touches tick ((self.now.base + item) ∷ []) None false
            (A.state array.old) (A.state array.new) }
    {
        let cells = array.sense(self.base + item, tick);
        match self.change {
            Some(change) if change.item == item => change.values,
            _ => values_of(&Ecp::<B, M, E>::decode(&cells)),
        }
    }

    // Goes on with a line write, or ends it where it is done or its line is worn.
    fn keep(&mut self, writer: LineWriter<B, M, E>) -> Keep
        requires idle { self.old.writer ≡ None }
        requires stands { IsTrue (is_some self.old.change) }
        requires going { self.old.halted ≡ false }
        ensures answer { result ≡ keep_from writer.entry.progress }
        ensures regs { self.new ≡ kept_on result writer.entry self.old }
    {
        match writer.status() {
            Progress::More => {
                self.writer = Some(writer);
                Keep::More
            }
            Progress::Stored => {
                self.change = None;
                Keep::Done
            }
            Progress::Worn(_) => {
                self.halted = true;
                Keep::Halted
            }
        }
    }
}
