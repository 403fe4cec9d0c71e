//! The bundle that survives a power cut.
ghost use Rattle.std.specs.Prelude.{◌≡◌, ℕ, ◌+◌, ◌/◌, ◌%◌, ◌<◌, ◌≤◌, ◌↔◌, [], false, length, replicate, slice_get, option_copied, IfOk, IsOk, OnOk, OnErr, IsTrue};
ghost use Rattle.masked_bytes.specs.Masked.{none_given, IsMasked};
ghost use Rattle.masked_bytes.specs.Entries.{layer_of, newest_index, head_row};
ghost use Rattle.protected_queue.specs.Queue.{accept_answer};
ghost use Rattle.start_gap.specs.Rotation.{StandsFor, most_lines, place_after};
ghost use Rattle.spare_pool.specs.Table.{used_by, line_by};
ghost use Rattle.bank_shape.specs.Shape.{IsBankShape, slots_of, lines_in, slot_at};
ghost use Rattle.power_recovery.specs.Slots.{bank_lines};
ghost use Rattle.power_recovery.specs.Kept.{IsKept, region_at, slot_of, array_line, next_work, due_region};
ghost use Rattle.bank_shape.specs.Kinds.{is_store, is_copy};
ghost use Rattle.power_recovery.specs.Events.{first_kept, accepted_kept, completed_kept, stored_kept, moved_kept, retired_kept, exhausted_kept};
ghost use Rattle.power_recovery.specs.Restoring.{IsOneDue, stripped_kept, region_restored};
ghost use Rattle.region_regs.specs.Region.{first_region};

use bank_shape::{BankShape, Work};
use masked_bytes::entry::Entry;
use protected_queue::accept::Accept;
use protected_queue::queue::Queue;
use region_regs::Region;
use spare_pool::{NoSpare, Remap};
use std::alloc::{AllocError, Global};
use std::marker::Model;

/// What a bank of lines of `B` bytes keeps over a power cut. Each call is one event: it happens whole or not at all.
#[derive(Drop)]
pub struct Kept<const B: usize> {
    shape: BankShape,
    queue: Queue<B>,
    remap: Remap,
    regions: Vec<Region>,
    exhausted: bool,
}

impl<const B: usize> Model for Kept<B> {
    ghost use Rattle.power_recovery.specs.Kept.{KeptState};

    ghost Value = { KeptState B };

    ghost use Rattle.std.specs.Prelude.{◌≡◌, ◌<◌, ◌≤◌};
    ghost use Rattle.power_recovery.specs.Kept.{IsKept};

    ghost view = { λ k. record {
      shape = k.shape;
      entries = k.queue.entries;
      table = k.remap;
      regions = k.regions.items;
      exhausted = k.exhausted;
    } };

    ghost invariant = { λ k. (k.queue.cap ≡ k.shape.writes) × IsKept (record {
      shape = k.shape;
      entries = k.queue.entries;
      table = k.remap;
      regions = k.regions.items;
      exhausted = k.exhausted;
    }) };
}

impl<const B: usize> Kept<B> {
    /// What a bank keeps at first: no write waits, no gap has moved, no spare is used.
    pub fn new(alloc: Global, shape: BankShape) -> Result<Kept<B>, AllocError>
        requires some_bytes { 0 < B }
        requires few_bytes { B ≤ 128 }
        requires limits { IsBankShape shape }
        ensures first { IfOk result (λ kept. kept ≡ first_kept shape) }
        ensures in_range { IfOk result IsKept }
    {
        let queue = Queue::new(alloc, shape.writes as usize)?;
        let remap = Remap::new(alloc, shape.regions * (shape.lines + 1), shape.spares)?;
        let mut regions = Vec::with_capacity(alloc, shape.regions as usize)?;
        for _ in 0..shape.regions {
            regions.push(Region::new(shape.lines, shape.psi))?;
        }
        Ok(Kept {
            shape,
            queue,
            remap,
            regions,
            exhausted: false,
        })
    }

    /// The bank's shape.
    pub fn shape(&self) -> &BankShape
        ensures shape { result.now ≡ self.now.shape }
        ensures in_range { IsKept self.now }
    {
        &self.shape
    }

    /// Takes a write in, as the queue does. `head_busy` says that the head is being written.
    pub fn accept(&mut self, entry: Entry<B>, head_busy: bool) -> Accept
        requires masked { IsMasked B entry.bytes entry.given }
        requires exists { entry.line < bank_lines self.old.shape }
        requires going { self.old.exhausted ≡ false }
        ensures answer { result
            ≡ accept_answer self.old.shape.writes head_busy self.old.entries entry.entry.line }
        ensures kept { self.new ≡ accepted_kept head_busy entry.entry self.old }
        ensures in_range { IsKept self.new }
    {
        self.queue.accept(entry, head_busy)
    }

    /// The bytes that the line's writes give together, the newest on top, and which these are. A byte that none gives is 0.
    pub fn newest(&self, line: u32) -> ([u8; B], [bool; B])
        ensures bytes { result.0 ≡ (layer_of self.now.entries line).bytes }
        ensures given { result.1 ≡ (layer_of self.now.entries line).given }
        ensures none { (result.1 ≡ none_given B) ↔ (newest_index self.now.entries line ≡ None) }
    {
        self.queue.newest(line)
    }

    /// The oldest write that waits.
    pub fn head(&self) -> Option<&Entry<B>>
        ensures { option_copied result ≡ slice_get self.now.entries 0 }
    {
        self.queue.head()
    }

    /// The write at an index of the queue, the oldest one at 0.
    pub fn at(&self, i: usize) -> Option<&Entry<B>>
        ensures { option_copied result ≡ slice_get self.now.entries i }
    {
        self.queue.at(i)
    }

    /// How many writes wait.
    pub fn len(&self) -> usize
        ensures len { result ≡ length self.now.entries }
        ensures within { result ≤ self.now.shape.writes }
    {
        self.queue.len()
    }

    /// Whether no write waits.
    pub fn is_empty(&self) -> bool
        ensures { IsTrue result ↔ (self.now.entries ≡ []) }
    {
        self.queue.is_empty()
    }

    /// Takes each byte that the head lacks from the bytes below, so that it gives all.
    pub fn complete(&mut self, under: &[u8; B])
        requires { 0 < length self.old.entries }
        ensures kept { self.new ≡ completed_kept under.now self.old }
        ensures in_range { IsKept self.new }
    {
        self.queue.complete(under);
    }

    /// The slot of a bank line.
    pub fn slot_of(&self, line: u32) -> u32
        requires { line < bank_lines self.now.shape }
        ensures slot { result ≡ slot_of self.now line }
        ensures exists { result < slots_of self.now.shape }

        // by how often the gap of its region moved, and no other line has it
        ensures after { (t : ℕ) → StandsFor (region_at self.now
            (line / self.now.shape.lines)).rotation t
            → result ≡ slot_at self.now.shape (line / self.now.shape.lines)
            (place_after self.now.shape.lines (line % self.now.shape.lines) t) }
        ensures apart { (other : ℕ) → other < bank_lines self.now.shape
            → slot_of self.now other ≡ result
            → other ≡ line }
    {
        let region = line / self.shape.lines;
        let place = self
            .region(region)
            .registers()
            .place(line % self.shape.lines);
        region * (self.shape.lines + 1) + place
    }

    /// The array line of a slot.
    pub fn array_line(&self, slot: u32) -> u32
        requires { slot < slots_of self.now.shape }
        ensures line { result ≡ array_line self.now slot }
        ensures exists { (self.now.shape.base ≤ result)
            × (result < self.now.shape.base + lines_in self.now.shape) }
        ensures apart { (other : ℕ) → other < slots_of self.now.shape
            → array_line self.now other ≡ result
            → other ≡ slot }
    {
        self.shape.base + self.remap.line_of(slot)
    }

    // The region whose gap is due to move.
    fn due(&self) -> Option<usize>
        ensures { result ≡ due_region self.now }
    {
        self.regions.iter().position(|region| region.due())
    }

    /// What the bank does next: nothing once it is exhausted, else the gap move that is due, else the store of the oldest write.
    #[inline(always)]
    pub fn next_work(&self) -> Work
        ensures { result ≡ next_work self.now }
    {
        if self.exhausted {
            return Work::Nothing;
        }
        if let Some(region) = self.due() {
            let region = region as u32;
            let step = self.region(region).registers().next_move();
            return Work::Copy { region, step };
        }
        match self.queue.head() {
            None => Work::Nothing,
            Some(head) => Work::Store {
                line: head.line,
                slot: self.slot_of(head.line),
            },
        }
    }

    /// Takes the head away, which was stored, and counts it in its region. The answer is its row.
    pub fn stored(&mut self) -> u32
        requires { IsTrue (is_store (next_work self.old)) }
        ensures row { result ≡ head_row self.old.entries }
        ensures kept { self.new ≡ stored_kept self.old }
        ensures in_range { IsKept self.new }
    {
        let Some(head) = self.queue.pop() else {
            unreachable!()
        };
        self.regions[(head.line / self.shape.lines) as usize].stored();
        head.row
    }

    /// Steps the registers of the region whose gap was due to move, which has been copied.
    pub fn moved(&mut self)
        requires { IsTrue (is_copy (next_work self.old)) }
        ensures kept { self.new ≡ moved_kept self.old }
        ensures in_range { IsKept self.new }
    {
        let Some(region) = self.due() else {
            unreachable!()
        };
        self.regions[region].moved();
    }

    /// Gives a slot whose line is worn the next spare line, which is the answer. Where none is left, the bank is exhausted from now on.
    pub fn retire(&mut self, slot: u32) -> Result<u32, NoSpare>
        requires { slot < slots_of self.old.shape }
        ensures some_left { IsOk result ↔ (used_by self.old.table < self.old.shape.spares) }
        ensures spare { IfOk result (λ line. line
            ≡ slots_of self.old.shape + used_by self.old.table) }
        ensures retired { OnOk result (self.new ≡ retired_kept slot self.old) }
        ensures exhausted { OnErr result (self.new ≡ exhausted_kept self.old) }
        ensures in_range { IsKept self.new }
    {
        let retired = self.remap.retire(slot);
        if retired.is_err() {
            self.exhausted = true;
        }
        retired
    }

    /// Whether a worn line found no spare. Nothing is written any more then.
    pub fn exhausted(&self) -> bool
        ensures mark { result ≡ self.now.exhausted }
        ensures all_used { IsTrue result → used_by self.now.table ≡ self.now.shape.spares }
    {
        self.exhausted
    }

    /// The remap table.
    pub fn remap(&self) -> &Remap
        ensures table { result.now ≡ self.now.table }
        ensures in_range { IsKept self.now }
    {
        &self.remap
    }

    /// A region's registers and counter.
    pub fn region(&self, i: u32) -> &Region
        requires { i < self.now.shape.regions }
        ensures region { result.now ≡ region_at self.now i }
        ensures in_range { IsKept self.now }
    {
        &self.regions[i as usize]
    }

    /// Leaves the queue, and makes all else as it was at first. Takes no memory.
    pub fn strip(&mut self)
        ensures kept { self.new ≡ stripped_kept self.old }
        ensures in_range { IsKept self.new }
    {
        self.remap.reset();
        start_over(&mut self.regions, self.shape.lines, self.shape.psi);
        self.exhausted = false;
    }

    /// Puts the registers and the counter of a region back.
    pub fn restore_region(&mut self, i: u32, start: u32, gap: u32, counter: u32)
        requires exists { i < self.old.shape.regions }
        requires start { start < self.old.shape.lines }
        requires gap { gap ≤ self.old.shape.lines }
        requires counter { counter ≤ self.old.shape.psi }
        requires one_due { IsOneDue (region_restored i start gap counter self.old) }
        ensures kept { self.new ≡ region_restored i start gap counter self.old }
        ensures in_range { IsKept self.new }
    {
        self.regions[i as usize] = Region::at(
            self.shape.lines,
            self.shape.psi,
            counter,
            start,
            gap,
        );
    }

    /// Gives a slot the next free spare.
    pub fn restore_spare(&mut self, slot: u32)
        requires exists { slot < slots_of self.old.shape }
        requires free { used_by self.old.table < self.old.shape.spares }
        ensures kept { self.new ≡ retired_kept slot self.old }
        ensures in_range { IsKept self.new }
    {
        match self.remap.retire(slot) {
            Ok(_) => {}
            Err(_) => unreachable!(),
        }
    }

    /// Sets the mark of a bank that found no spare.
    pub fn restore_mark(&mut self)
        requires all_used { used_by self.old.table ≡ self.old.shape.spares }
        ensures kept { self.new ≡ exhausted_kept self.old }
        ensures in_range { IsKept self.new }
    {
        self.exhausted = true;
    }
}

// Makes each region as it was at first.
fn start_over(regions: &mut [Region], lines: u32, psi: u32)
    requires some_lines { 1 ≤ lines }
    requires few_lines { lines ≤ most_lines }
    requires some_writes { 1 ≤ psi }
    requires few_writes { psi ≤ 65535 }
    ensures { regions.new ≡ replicate (length regions.old) (first_region lines psi) }
{
    for i in 0..regions.len() {
        regions[i] = Region::new(lines, psi);
    }
}
