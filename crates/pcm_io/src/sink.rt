// Where bytes go to.
ghost use Rattle.std.specs.Prelude.{◌≡◌, ℕ, ◌<◌, ◌≤◌, List, length, take, None, Some, Option, IfOk, IsErr, OnErr, MatchResult, MatchBool};
ghost use Rattle.std.specs.Io.KnownBytes.{Appends};
ghost use Rattle.pcm_io.specs.Faults.{Rose, raised_by};
ghost use Rattle.pcm_io.specs.Giving.{AppendsPrefix};
ghost use Rattle.pcm_io.specs.Schedule.{planned};
ghost use Rattle.pcm_io.specs.Reserved.{reserved};
ghost use Rattle.pcm_io.specs.Receipt.{refuses, after_write};

use crate::calls::Calls;
use crate::fault::Failed;
use crate::text::Text;
use std::alloc::{AllocError, Global};
use std::io::Write;
use std::marker::Model;

/// Where bytes are written to, call by call. Each call may fail.
pub trait Sink {
    // The bytes that were written, where they are told.
    ghost written: { Self → Option (List ℕ) };

    // How many calls failed so far; it stays at the greatest u64.
    ghost faults: { Self → ℕ };

    /// Appends some first bytes of the piece, and answers how many.
    fn write(&mut self, piece: &[u8]) -> Result<usize, Failed>
        requires { 0 < length piece.now }
        ensures progress { IfOk result (λ n. 0 < n) }
        ensures bound { IfOk result (λ n. n ≤ length piece.now) }
        ensures bytes { MatchResult result
            (λ n. Appends (written self.old) (written self.new) (take n piece.now))
            (λ _. AppendsPrefix (written self.old) (written self.new) piece.now) }
        ensures fault { OnErr result (Rose (faults self.old) (faults self.new)) }
        ensures never_falls { faults self.old ≤ faults self.new };
}

/// A sink that keeps what is written in memory, and tells it. Chosen calls of `write` fail, for tests of what a
/// caller does then.
#[derive(Drop)]
pub struct MemSink {
    text: Text,
    calls: Calls,
}

impl Model for MemSink {
    ghost use Rattle.pcm_io.specs.Receipt.{Receipt};

    ghost Value = { Receipt };

    ghost view = { λ s. record { text = s.text; calls = s.calls } };
}

impl MemSink {
    /// Calls of `write` are numbered from 1; those whose numbers are in `fails`, or whose piece would pass `room`
    /// bytes in all, append nothing and fail.
    pub fn new(alloc: Global, room: usize, fails: Vec<u32>) -> Result<MemSink, AllocError>
        ensures { IfOk result (λ sink. sink ≡ record {
          text = reserved room;
          calls = planned fails.items;
        }) }
    {
        Ok(MemSink {
            text: Text::new(alloc, room)?,
            calls: Calls::new(fails),
        })
    }

    /// The bytes that were written, in order.
    pub fn written(&self) -> &[u8]
        ensures { result.now ≡ self.now.text.bytes }
    {
        self.text.bytes()
    }
}

impl Sink for MemSink {
    ghost written = { λ s. Some s.text.bytes };

    ghost faults = { λ s. s.calls.faults };

    fn write(&mut self, piece: &[u8]) -> Result<usize, Failed>
        requires { 0 < length piece.now }
        ensures progress { IfOk result (λ n. 0 < n) }
        ensures bound { IfOk result (λ n. n ≤ length piece.now) }
        ensures bytes { MatchResult result
            (λ n. Appends (Some self.old.text.bytes) (Some self.new.text.bytes) (take n piece.now))
            (λ _. AppendsPrefix (Some self.old.text.bytes) (Some self.new.text.bytes) piece.now) }
        ensures fault { OnErr result (Rose self.old.calls.faults self.new.calls.faults) }
        ensures never_falls { self.old.calls.faults ≤ self.new.calls.faults }

        // Which call fails, and what is there afterwards, is told exactly.
        ensures answer { MatchBool (refuses self.old (length piece.now)) (IsErr result)
            (result ≡ Ok (length piece.now)) }
        ensures after { self.new ≡ after_write self.old piece.now }
    {
        if self.calls.next_fails() || self.text.room() < piece.len() {
            return Err(self.calls.fail());
        }
        self.text.push(piece);
        Ok(piece.len())
    }
}

/// A sink none of whose calls fails. It forgets the bytes and tells how many it took.
#[derive(Drop)]
pub struct NeverFailSink {
    taken: u64,
}

impl Model for NeverFailSink {
    ghost use Rattle.std.specs.Prelude.{ℕ};

    ghost Value = { ℕ };

    ghost view = { λ s. s.taken };
}

impl NeverFailSink {
    /// A sink that took nothing yet.
    pub fn new() -> NeverFailSink
        ensures { result ≡ 0 }
    {
        NeverFailSink { taken: 0 }
    }

    /// The number of bytes taken, which stays at the greatest u64.
    pub fn taken(&self) -> u64
        ensures { result ≡ self.now }
    {
        self.taken
    }
}

impl Sink for NeverFailSink {
    ghost written = { λ _. None };

    ghost faults = { λ _. 0 };

    fn write(&mut self, piece: &[u8]) -> Result<usize, Failed>
        requires { 0 < length piece.now }
        ensures answer { result ≡ Ok (length piece.now) }
        ensures counted { self.new ≡ raised_by self.old (length piece.now) }
    {
        self.taken = self.taken.saturating_add(piece.len() as u64);
        Ok(piece.len())
    }
}

/// A sink over a writer of std, as standard output. It tells what the writer tells.
#[derive(Drop)]
pub struct StdSink<W: Write> {
    inner: W,
    faults: u64,
}

impl<W: Write> StdSink<W> {
    /// Adapts the writer; the count of faults begins at 0.
    pub fn new(inner: W) -> StdSink<W>
        ensures written { ⟦<StdSink<W> as Sink>⟧.written result ≡ W.contents inner }
        ensures faults { ⟦<StdSink<W> as Sink>⟧.faults result ≡ 0 }
    {
        StdSink { inner, faults: 0 }
    }
}

impl<W: Write> Sink for StdSink<W> {
    ghost written = { λ s. W.contents s.inner };

    ghost faults = { λ s. s.faults };

    // Each call flushes. Taking no byte counts as a fault.
    fn write(&mut self, piece: &[u8]) -> Result<usize, Failed> {
        if let Ok(n) = self.inner.write(piece) {
            let flushed = self.inner.flush().is_ok();
            if n > 0 && flushed {
                return Ok(n);
            }
        }
        self.faults = self.faults.saturating_add(1);
        Err(Failed)
    }
}
