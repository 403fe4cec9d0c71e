// Where bytes come from.
ghost use Rattle.std.specs.Prelude.{◌≡◌, ℕ, ◌<◌, ◌≤◌, List, length, Some, Option, IsErr, OnOk, OnErr, MatchResult, MatchBool};
ghost use Rattle.std.specs.Io.{ReadsAtMost};
ghost use Rattle.std.specs.Io.KnownBytes.{ReadConsumes};
ghost use Rattle.pcm_io.specs.Faults.{Rose, raised_by};
ghost use Rattle.pcm_io.specs.Schedule.{planned, next_fails};
ghost use Rattle.pcm_io.specs.Stock.{stock_of, given_count, after_giving, filled};
ghost use Rattle.pcm_io.specs.Supply.{after_read, buffer_after};

use crate::calls::Calls;
use crate::fault::Failed;
use crate::unread::Unread;
use std::io::Read;
use std::marker::Model;

/// Where bytes are read from, call by call. Each call may fail.
pub trait Source {
    // The bytes that are left, where they are told.
    ghost left: { Self → Option (List ℕ) };

    // How many bytes were taken so far; it stays at the greatest u64.
    ghost taken: { Self → ℕ };

    // How many calls failed so far; it stays at the greatest u64.
    ghost faults: { Self → ℕ };

    /// Fills the beginning of the buffer with the next bytes, and answers how many; 0 comes only at the end.
    fn read(&mut self, buf: &mut [u8]) -> Result<usize, Failed>
        requires { 0 < length buf.old }
        ensures bound { ReadsAtMost result buf.new }
        ensures next { ReadConsumes (left self.old) (left self.new) result buf.new }
        ensures counted { MatchResult result (λ n. taken self.new ≡ raised_by (taken self.old) n)
            (λ _. taken self.new ≡ taken self.old) }
        ensures fault { OnErr result (Rose (faults self.old) (faults self.new)) }
        ensures no_fault { OnOk result (faults self.new ≡ faults self.old) }
        ensures never_falls { faults self.old ≤ faults self.new };
}

/// A source over bytes in memory, which it tells. Chosen calls of `read` fail, for tests of what a caller does then.
#[derive(Drop)]
pub struct MemSource {
    stock: Unread,
    calls: Calls,
}

impl Model for MemSource {
    ghost use Rattle.pcm_io.specs.Supply.{Supply};

    ghost Value = { Supply };

    ghost view = { λ s. record { stock = s.stock; calls = s.calls } };
}

impl MemSource {
    /// Calls of `read` are numbered from 1; those whose numbers are in `fails` take nothing and fail.
    pub fn new(bytes: Vec<u8>, fails: Vec<u32>) -> MemSource
        ensures { result ≡ record { stock = stock_of bytes.items; calls = planned fails.items } }
    {
        MemSource {
            stock: Unread::new(bytes),
            calls: Calls::new(fails),
        }
    }
}

impl Source for MemSource {
    ghost left = { λ s. Some s.stock.left };

    ghost taken = { λ s. s.stock.taken };

    ghost faults = { λ s. s.calls.faults };

    fn read(&mut self, buf: &mut [u8]) -> Result<usize, Failed>
        requires { 0 < length buf.old }
        ensures bound { ReadsAtMost result buf.new }
        ensures next { ReadConsumes (Some self.old.stock.left) (Some self.new.stock.left)
            result buf.new }
        ensures counted { MatchResult result
            (λ n. self.new.stock.taken ≡ raised_by self.old.stock.taken n)
            (λ _. self.new.stock.taken ≡ self.old.stock.taken) }
        ensures fault { OnErr result (Rose self.old.calls.faults self.new.calls.faults) }
        ensures no_fault { OnOk result (self.new.calls.faults ≡ self.old.calls.faults) }
        ensures never_falls { self.old.calls.faults ≤ self.new.calls.faults }

        // Which call fails, what it answers otherwise, and what is there afterwards, exactly.
        ensures answer { MatchBool (next_fails self.old.calls) (IsErr result)
            (result ≡ Ok (given_count self.old.stock (length buf.old))) }
        ensures after { self.new ≡ after_read self.old (length buf.old) }
        ensures buffer { buf.new ≡ buffer_after self.old buf.old }
    {
        if self.calls.next_fails() {
            return Err(self.calls.fail());
        }
        Ok(self.stock.give(buf))
    }
}

/// A source over bytes in memory, which it tells, none of whose calls fails.
#[derive(Drop)]
pub struct NeverFailSource {
    stock: Unread,
}

impl Model for NeverFailSource {
    ghost use Rattle.pcm_io.specs.Stock.{Stock};

    ghost Value = { Stock };

    ghost view = { λ s. s.stock };
}

impl NeverFailSource {
    /// A source of these bytes.
    pub fn new(bytes: Vec<u8>) -> NeverFailSource
        ensures { result ≡ stock_of bytes.items }
    {
        NeverFailSource {
            stock: Unread::new(bytes),
        }
    }
}

impl Source for NeverFailSource {
    ghost left = { λ s. Some s.left };

    ghost taken = { λ s. s.taken };

    ghost faults = { λ _. 0 };

    fn read(&mut self, buf: &mut [u8]) -> Result<usize, Failed>
        requires { 0 < length buf.old }
        ensures bound { ReadsAtMost result buf.new }
        ensures next { ReadConsumes (Some self.old.left) (Some self.new.left) result buf.new }
        ensures counted { MatchResult result
            (λ n. self.new.taken ≡ raised_by self.old.taken n)
            (λ _. self.new.taken ≡ self.old.taken) }
        ensures fault { OnErr result (Rose 0 0) }

        ensures answer { result ≡ Ok (given_count self.old (length buf.old)) }
        ensures after { self.new ≡ after_giving self.old (length buf.old) }
        ensures buffer { buf.new ≡ filled self.old buf.old }
    {
        Ok(self.stock.give(buf))
    }
}

/// A source over a reader of std, as standard input. It tells what the reader tells.
#[derive(Drop)]
pub struct StdSource<R: Read> {
    inner: R,
    taken: u64,
    faults: u64,
}

impl<R: Read> StdSource<R> {
    /// Adapts the reader; both counts begin at 0.
    pub fn new(inner: R) -> StdSource<R>
        ensures left { ⟦<StdSource<R> as Source>⟧.left result ≡ R.remaining inner }
        ensures taken { ⟦<StdSource<R> as Source>⟧.taken result ≡ 0 }
        ensures faults { ⟦<StdSource<R> as Source>⟧.faults result ≡ 0 }
    {
        StdSource {
            inner,
            taken: 0,
            faults: 0,
        }
    }
}

impl<R: Read> Source for StdSource<R> {
    ghost left = { λ s. R.remaining s.inner };

    ghost taken = { λ s. s.taken };

    ghost faults = { λ s. s.faults };

    fn read(&mut self, buf: &mut [u8]) -> Result<usize, Failed> {
        match self.inner.read(buf) {
            Ok(n) => {
                self.taken = self.taken.saturating_add(n as u64);
                Ok(n)
            }
            Err(_) => {
                self.faults = self.faults.saturating_add(1);
                Err(Failed)
            }
        }
    }
}
