// A bank whose registers, remap table and mark are read back from elsewhere.
ghost use Rattle.std.specs.Prelude.{◌≡◌, ◌<◌, ◌≤◌, [], None};
ghost use Rattle.spare_pool.specs.Table.{used_by};
ghost use Rattle.bank_shape.specs.Shape.{slots_of};
ghost use Rattle.power_recovery.specs.Kept.{IsKept};
ghost use Rattle.power_recovery.specs.Events.{retired_kept, exhausted_kept};
ghost use Rattle.power_recovery.specs.Restoring.{IsOneDue, stripped_kept, region_restored};
ghost use Rattle.bank_core.specs.Stepping.{with_kept};

use crate::bank::Bank;

impl<const B: usize, const M: usize, const E: usize> Bank<B, M, E> {
    /// Leaves the queue, and makes all else that is kept as it was at first. Takes no memory.
    pub fn strip(&mut self)
        requires idle { self.old.running ≡ None }
        requires served { self.old.waiting ≡ [] }
        requires taken { self.old.lost ≡ [] }
        ensures bank { self.new ≡ with_kept self.old (stripped_kept self.old.kept) }
        ensures in_range { IsKept self.new.kept }
    {
        self.kept.strip();
    }

    /// Puts the registers and the counter of a region back.
    pub fn restore_region(&mut self, i: u32, start: u32, gap: u32, counter: u32)
        requires exists { i < self.old.kept.shape.regions }
        requires start { start < self.old.kept.shape.lines }
        requires gap { gap ≤ self.old.kept.shape.lines }
        requires counter { counter ≤ self.old.kept.shape.psi }
        requires one_due { IsOneDue (region_restored i start gap counter self.old.kept) }
        ensures bank { self.new ≡ with_kept self.old
            (region_restored i start gap counter self.old.kept) }
        ensures in_range { IsKept self.new.kept }
    {
        self.kept.restore_region(i, start, gap, counter);
    }

    /// Gives a slot the next free spare.
    pub fn restore_spare(&mut self, slot: u32)
        requires exists { slot < slots_of self.old.kept.shape }
        requires free { used_by self.old.kept.table < self.old.kept.shape.spares }
        ensures bank { self.new ≡ with_kept self.old (retired_kept slot self.old.kept) }
        ensures in_range { IsKept self.new.kept }
    {
        self.kept.restore_spare(slot);
    }

    /// Sets the mark of a bank that found no spare.
    pub fn restore_mark(&mut self)
        requires all_used { used_by self.old.kept.table ≡ self.old.kept.shape.spares }
        ensures bank { self.new ≡ with_kept self.old (exhausted_kept self.old.kept) }
        ensures in_range { IsKept self.new.kept }
    {
        self.kept.restore_mark();
    }
}
