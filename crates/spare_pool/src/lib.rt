//! The remap table of a bank: which array line each slot has, once worn lines were given spare ones.
//! A worn line is retired for good, and its slot goes to the next unused spare line of the bank.
#![tactic(auto)]

ghost use Rattle.std.specs.Prelude.{◌≡◌, ◌≢◌, ℕ, ◌+◌, ◌^◌, ◌<◌, ◌≤◌, ◌==◌, ◌↔◌, if◌then◌else◌, IsOk, IfOk, IfSome, IfNone, OnOk, OnErr, slice_index};
ghost use Rattle.spare_pool.specs.Table.{Table, IsTable, IsOwner, first_table, line_by, used_by, retired_table};

use std::alloc::{AllocError, Global};
use std::marker::Model;

/// Who has an array line of a bank: a slot, nobody yet, or nobody any more.
#[derive(Clone, Copy, PartialEq, Eq)]
pub enum Owner {
    /// The slot of this number.
    Slot(u32),
    /// A spare that was given to no slot.
    Free,
    /// A line whose slot was given another one.
    Retired,
}

/// All spares are used.
#[derive(Clone, Copy, PartialEq, Eq)]
pub struct NoSpare;

// How many chains of spares there are; the slots of a chain are equal but for a multiple of this.
const CHAINS: u32 = 256;

/// The lines of a bank's slots. Lines are counted from the first line of the bank: those of the slots come first, in
/// order, and then the spares. Its memory goes by the spares, not by the slots.
#[derive(Drop)]
pub struct Remap {
    slots: u32,
    // Of each used spare, the slot that it was given to.
    replaced: Vec<u32>,
    used: u32,
    // Of each chain, the newest used spare whose slot is of it, counted from 1, or 0 for none.
    heads: Vec<u32>,
    // Of each used spare, the newest one before it whose slot is of the same chain, so counted too.
    links: Vec<u32>,
}

impl Model for Remap {
    ghost use Rattle.spare_pool.specs.Table.{Table, Stores, stored_table};

    ghost Value = { Table };

    ghost view = { λ r. stored_table r.slots r.replaced.items r.used };

    ghost invariant = { λ r. Stores r.slots r.replaced.items r.used r.heads.items r.links.items };
}

impl Remap {
    /// Each slot has the line of its own number, and all spares are free. No later call takes memory.
    pub fn new(alloc: Global, slots: u32, spares: u32) -> Result<Remap, AllocError>
        requires { slots + spares < 2 ^ 32 }
        ensures fresh { IfOk result (λ remap. remap ≡ first_table slots spares) }
        ensures in_range { IfOk result IsTable }
    {
        let replaced = vec![in alloc; 0; spares as usize]?;
        let heads = vec![in alloc; 0; CHAINS as usize]?;
        let links = vec![in alloc; 0; spares as usize]?;
        Ok(Remap {
            slots,
            replaced,
            used: 0,
            heads,
            links,
        })
    }

    /// The line of a slot. Two slots never have one line.
    pub fn line_of(&self, slot: u32) -> u32
        requires { slot < self.now.slots }
        ensures line { result ≡ line_by self.now slot }
        ensures within { result < self.now.slots + used_by self.now }
        ensures apart { (other : ℕ) → other < self.now.slots → line_by self.now other ≡ result
            → other ≡ slot }
        ensures in_range { IsTable self.now }
    {
        if self.used == 0 {
            return slot;
        }
        self.find_line(slot)
    }

    // The line of a slot where spares are used: those of its chain are looked through, the newest first.
    fn find_line(&self, slot: u32) -> u32
        ensures { result ≡ line_by self.now slot }
    {
        let mut number = self.heads[(slot % CHAINS) as usize];
        while number > 0 {
            let spare = number - 1;
            if self.replaced[spare as usize] == slot {
                return self.slots + spare;
            }
            number = self.links[spare as usize];
        }
        slot
    }

    /// Gives a slot the next spare line, which is the answer.
    pub fn retire(&mut self, slot: u32) -> Result<u32, NoSpare>
        requires { slot < self.old.slots }
        ensures some_left { IsOk result ↔ (used_by self.old < self.old.spares) }
        ensures spare { IfOk result (λ line. line ≡ self.old.slots + used_by self.old) }
        ensures retired { OnOk result (self.new ≡ retired_table self.old slot) }

        // The slot has that line now, and all other slots have what they had.
        ensures lines { OnOk result ((other : ℕ) → line_by self.new other
            ≡ (if slot == other then self.old.slots
            + used_by self.old else line_by self.old other)) }
        ensures none_left { OnErr result (used_by self.old ≡ self.old.spares) }
        ensures same { OnErr result (self.new ≡ self.old) }
        ensures in_range { IsTable self.new }
    {
        if self.used as usize == self.replaced.len() {
            return Err(NoSpare);
        }
        let spare = self.used;
        let chain = (slot % CHAINS) as usize;
        self.replaced[spare as usize] = slot;
        self.links[spare as usize] = self.heads[chain];
        self.heads[chain] = spare + 1;
        self.used = spare + 1;
        Ok(self.slots + spare)
    }

    /// Forgets all retirements: each slot has the line of its own number again. Takes no memory.
    pub fn reset(&mut self)
        ensures first { self.new ≡ first_table self.old.slots self.old.spares }
        ensures in_range { IsTable self.new }
    {
        self.heads.fill(0);
        self.used = 0;
    }

    /// How many spares were given to slots.
    pub fn used(&self) -> u32
        ensures value { result ≡ used_by self.now }
        ensures in_range { IsTable self.now }
    {
        self.used
    }

    /// How many spares there are, used or not.
    pub fn spares(&self) -> u32
        ensures value { result ≡ self.now.spares }
        ensures in_range { IsTable self.now }
    {
        self.replaced.len() as u32
    }

    /// The slot that a used spare was given to, also where that spare was retired later.
    pub fn replaced(&self, spare: u32) -> u32
        requires { spare < used_by self.now }
        ensures slot { result ≡ slice_index self.now.replaced spare }
        ensures exists { result < self.now.slots }
        ensures in_range { IsTable self.now }
    {
        self.replaced[spare as usize]
    }

    /// Who has a line.
    pub fn owner(&self, line: u32) -> Owner
        requires { line < self.now.slots + self.now.spares }
        ensures owner { IsOwner self.now line result }
        ensures in_range { IsTable self.now }
    {
        // A field that is read makes known what is true of every table.
        let _ = &self.replaced;
        match self.only_taker(line) {
            None => Owner::Free,
            Some(slot) if self.line_of(slot) == line => Owner::Slot(slot),
            Some(_) => Owner::Retired,
        }
    }

    // The only slot that a line was ever given to, or None for a free spare.
    fn only_taker(&self, line: u32) -> Option<u32>
        requires { line < self.now.slots + self.now.spares }
        ensures free { IfNone result (self.now.slots + used_by self.now ≤ line) }
        ensures given { IfSome result (λ slot. (slot < self.now.slots)
            × (line < self.now.slots + used_by self.now)) }
        ensures only { IfSome result (λ slot. (other : ℕ) → other < self.now.slots
            → line_by self.now other ≡ line → other ≡ slot) }
    {
        if line < self.slots {
            Some(line)
        } else if line - self.slots < self.used {
            Some(self.replaced[(line - self.slots) as usize])
        } else {
            None
        }
    }
}
