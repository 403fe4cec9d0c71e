//! The write queue.
ghost use Rattle.std.specs.Prelude.{◌≡◌, ◌<◌, ◌≤◌, ◌↔◌, [], length, drop, slice_get, option_copied, IfOk, IsTrue};
ghost use Rattle.masked_bytes.specs.Masked.{none_given, IsMasked};
ghost use Rattle.masked_bytes.specs.Entries.{layer_of, newest_index, candidate_index, completed, merged_at, row_at};
ghost use Rattle.protected_queue.specs.Queue.{accept_answer, accepted};

use crate::accept::Accept;
use circular_buffer::HeapCircularBuffer;
use masked_bytes::entry::Entry;
use masked_bytes::layers::{fill_under, join_given};
use std::alloc::{AllocError, Global};
use std::marker::Model;

/// Writes of lines of `B` bytes that wait, the oldest first. The oldest one, the head, is the next to be written.
#[derive(Drop)]
pub struct Queue<const B: usize> {
    ring: HeapCircularBuffer<Entry<B>>,
}

impl<const B: usize> Model for Queue<B> {
    ghost use Rattle.protected_queue.specs.Queue.{QueueState, IsQueue};

    ghost Value = { QueueState B };

    ghost view = { λ q. record { entries = q.ring.items; cap = q.ring.capacity } };

    ghost invariant = { λ q. IsQueue B q.ring.items q.ring.capacity };
}

impl<const B: usize> Queue<B> {
    /// Makes a queue with room for `cap` writes.
    pub fn new(alloc: Global, cap: usize) -> Result<Queue<B>, AllocError>
        requires some_bytes { 0 < B }
        requires few_bytes { B ≤ 128 }
        requires some_room { 1 ≤ cap }
        requires small { cap ≤ 256 }
        ensures { IfOk result (λ q. q ≡ record { entries = []; cap = cap }) }
    {
        let ring = HeapCircularBuffer::with_capacity(alloc, cap)?;
        Ok(Queue { ring })
    }

    /// Takes a write in. Its candidate is the newest write of its line, unless that is the head and is being written (`head_busy`).
    /// The given bytes are laid over the candidate, which then counts as the new write's row; without one the write goes last.
    pub fn accept(&mut self, entry: Entry<B>, head_busy: bool) -> Accept
        requires { IsMasked B entry.bytes entry.given }
        ensures answer { result ≡ accept_answer self.old.cap head_busy self.old.entries
            entry.entry.line }
        ensures entries { self.new
            ≡ record self.old {
              entries = accepted self.old.cap head_busy entry.entry
                  self.old.entries;
            } }
    {
        match self.candidate(entry.line, head_busy) {
            Some(index) => Accept::Merged {
                row: self.merge(index, &entry),
                index,
            },
            None => match self.ring.try_push_back(entry) {
                Ok(()) => Accept::Pushed,
                Err(_) => Accept::Full,
            },
        }
    }

    /// Lays a write over that at an index, and answers the row that this one counted as.
    fn merge(&mut self, index: usize, newer: &Entry<B>) -> u32
        requires masked { IsMasked B newer.now.bytes newer.now.given }
        requires within { index < length self.old.entries }
        ensures row { result ≡ row_at self.old.entries index }
        ensures entries { self.new ≡ record self.old {
          entries = merged_at index newer.now.row newer.now.bytes newer.now.given self.old.entries;
        } }
    {
        let Some(slot) = self.ring.get_mut(index) else {
            unreachable!()
        };
        let old = slot.row;
        slot.lay_on(newer);
        old
    }

    /// The index of the entry that a write of the line is merged into.
    fn candidate(&self, line: u32, head_busy: bool) -> Option<usize>
        ensures { result ≡ candidate_index head_busy self.now.entries line }
    {
        self.index_of(line).filter(|index| *index > 0 || !head_busy)
    }

    /// The index of the newest entry of a line.
    fn index_of(&self, line: u32) -> Option<usize>
        ensures { result ≡ newest_index self.now.entries line }
    {
        for index in (0..self.ring.len()).rev() {
            let Some(entry) = self.ring.get(index) else {
                unreachable!()
            };
            if entry.line == line {
                return Some(index);
            }
        }
        None
    }

    /// The bytes that the line's writes give together, the newest on top, and which these are. A byte that none gives is 0.
    pub fn newest(&self, line: u32) -> ([u8; B], [bool; B])
        ensures bytes { result.0 ≡ (layer_of self.now.entries line).bytes }
        ensures given { result.1 ≡ (layer_of self.now.entries line).given }
        ensures none { (result.1 ≡ none_given B) ↔ (newest_index self.now.entries line ≡ None) }
    {
        let mut bytes = [0; B];
        let mut given = [false; B];
        for index in (0..self.ring.len()).rev() {
            let Some(entry) = self.ring.get(index) else {
                unreachable!()
            };
            if entry.line == line {
                fill_under(&mut bytes, &given, &entry.bytes);
                let mut also = entry.given;
                join_given(&given, &mut also);
                given = also;
            }
        }
        (bytes, given)
    }

    /// The oldest write.
    pub fn head(&self) -> Option<&Entry<B>>
        ensures { option_copied result ≡ slice_get self.now.entries 0 }
    {
        self.ring.front()
    }

    /// Takes the oldest write away.
    pub fn pop(&mut self) -> Option<Entry<B>>
        ensures head { result ≡ slice_get self.old.entries 0 }
        ensures rest { self.new ≡ record self.old { entries = drop 1 self.old.entries } }
    {
        self.ring.pop_front()
    }

    /// The write at an index, the oldest one at 0.
    pub fn at(&self, i: usize) -> Option<&Entry<B>>
        ensures { option_copied result ≡ slice_get self.now.entries i }
    {
        self.ring.get(i)
    }

    /// How many writes wait.
    pub fn len(&self) -> usize
        ensures len { result ≡ length self.now.entries }
        ensures within { result ≤ self.now.cap }
    {
        self.ring.len()
    }

    /// Whether none waits.
    pub fn is_empty(&self) -> bool
        ensures { IsTrue result ↔ (self.now.entries ≡ []) }
    {
        self.ring.is_empty()
    }

    /// Takes each byte that the head lacks from the bytes below, so that it gives all.
    pub fn complete(&mut self, under: &[u8; B])
        requires { 0 < length self.old.entries }
        ensures { self.new ≡ record self.old { entries = completed under.now self.old.entries } }
    {
        let Some(head) = self.ring.get_mut(0) else {
            unreachable!()
        };
        head.complete(under);
    }
}
