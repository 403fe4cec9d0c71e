// Sinks of a case.
ghost use Rattle.std.specs.Prelude.{Some};

use pcm_io::{Failed, MemSink, Sink};
use std::alloc::{AllocError, Global};

// Bytes that a sink has room for.
const ROOM: usize = 4_194_304;

/// A sink in memory. Chosen calls fail, and it may take a single byte a call.
#[derive(Drop)]
pub struct CaseSink {
    inner: MemSink,
    one_byte: bool,
}

impl CaseSink {
    /// The calls that fail are named by their numbers from 1.
    pub fn new(alloc: Global, fails: &Vec<u32>, one_byte: bool) -> Result<CaseSink, AllocError> {
        let fails = Vec::from_slice(alloc, fails.as_slice())?;
        let inner = MemSink::new(alloc, ROOM, fails)?;
        Ok(CaseSink { inner, one_byte })
    }

    /// The bytes that were written, in order.
    pub fn written(&self) -> &[u8] {
        self.inner.written()
    }
}

impl Sink for CaseSink {
    ghost written = { λ s. Some s.inner.text.bytes };

    ghost faults = { λ s. s.inner.calls.faults };

    fn write(&mut self, piece: &[u8]) -> Result<usize, Failed> {
        if self.one_byte {
            self.inner.write(&piece[..1])
        } else {
            self.inner.write(piece)
        }
    }
}
