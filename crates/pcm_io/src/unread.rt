// Bytes in memory that are read from the front.
ghost use Rattle.std.specs.Prelude.{◌≡◌, ◌+◌, ◌≤◌, ◌^◌, ◌<◌, ◌++◌, length, take};
ghost use Rattle.pcm_io.specs.Stock.{stock_of, given_count, after_giving, filled};

use std::marker::Model;

#[derive(Drop)]
pub(crate) struct Unread {
    bytes: Vec<u8>,
    taken: usize,
}

impl Model for Unread {
    ghost use Rattle.std.specs.Prelude.{◌≤◌, vec_len, drop};
    ghost use Rattle.pcm_io.specs.Stock.{Stock};

    ghost Value = { Stock };

    ghost view = { λ u. record { left = drop u.taken u.bytes.items; taken = u.taken } };

    ghost invariant = { λ u. u.taken ≤ vec_len u.bytes };
}

impl Unread {
    pub(crate) fn new(bytes: Vec<u8>) -> Unread
        ensures { result ≡ stock_of bytes.items }
    {
        Unread { bytes, taken: 0 }
    }

    // Fills the beginning of the buffer, and answers how many bytes it got.
    pub(crate) fn give(&mut self, buf: &mut [u8]) -> usize
        ensures count { result ≡ given_count self.old (length buf.old) }
        ensures bound { result ≤ length buf.new }
        ensures after { self.new ≡ after_giving self.old (length buf.old) }
        ensures buffer { buf.new ≡ filled self.old buf.old }
        ensures next { self.old.left ≡ take result buf.new ++ self.new.left }
        ensures fits { self.old.taken + result < 2 ^ 63 }
    {
        let left = &self.bytes[self.taken..];
        let n = buf.len().min(left.len());
        buf[..n].copy_from_slice(&left[..n]);
        self.taken += n;
        n
    }
}
