//! The entry of a write queue.

use crate::layers::{fill_under, join_given, lay_over};

/// A write that waits: the number of the trace row that it came from, the line that it writes, and those of the line's `B` bytes that it gives.
/// A byte that is not given is 0.
#[derive(Clone, Copy)]
pub struct Entry<const B: usize> {
    pub row: u32,
    pub line: u32,
    pub bytes: [u8; B],
    pub given: [bool; B],
}

impl<const B: usize> Entry<B> {
    ghost use Rattle.std.specs.Prelude.{◌≡◌, ◌<◌};
    ghost use Rattle.masked_bytes.specs.Masked.{all_given, IsMasked};
    ghost use Rattle.masked_bytes.specs.Entries.{laid_on, completed_by};

    /// A write that gives every byte of its line.
    pub fn whole(row: u32, line: u32, bytes: &[u8; B]) -> Entry<B>
        ensures entry { result ≡ record {
          row = row;
          line = line;
          bytes = bytes.now;
          given = all_given B;
        } }
        ensures masked { 0 < B → IsMasked B result.bytes result.given }
    {
        Entry {
            row,
            line,
            bytes: *bytes,
            given: [true; B],
        }
    }

    /// Lays a newer write of the same line over this one, which then counts as that of the newer row.
    pub fn lay_on(&mut self, newer: &Entry<B>)
        ensures { self.new ≡ laid_on newer.now.row newer.now.bytes newer.now.given self.old }
    {
        lay_over(&newer.bytes, &newer.given, &mut self.bytes);
        join_given(&newer.given, &mut self.given);
        self.row = newer.row;
    }

    /// Takes each byte that this write does not give from the bytes below, so that it gives all.
    pub fn complete(&mut self, under: &[u8; B])
        ensures { self.new ≡ completed_by under.now self.old }
    {
        fill_under(&mut self.bytes, &self.given, under);
        let all = [true; B];
        self.given = all;
    }
}
