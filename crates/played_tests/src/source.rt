// Sources of a case.
ghost use Rattle.std.specs.Prelude.{Some};

use pcm_io::{Failed, MemSource, Source};

/// A source in memory. Chosen calls fail, and it may give a single byte a call.
#[derive(Drop)]
pub struct CaseSource {
    inner: MemSource,
    one_byte: bool,
}

impl CaseSource {
    /// The calls that fail are named by their numbers from 1.
    pub fn new(bytes: Vec<u8>, fails: Vec<u32>, one_byte: bool) -> CaseSource {
        CaseSource {
            inner: MemSource::new(bytes, fails),
            one_byte,
        }
    }
}

impl Source for CaseSource {
    ghost left = { λ s. Some s.inner.stock.left };

    ghost taken = { λ s. s.inner.stock.taken };

    ghost faults = { λ s. s.inner.calls.faults };

    fn read(&mut self, buf: &mut [u8]) -> Result<usize, Failed> {
        if self.one_byte {
            self.inner.read(&mut buf[..1])
        } else {
            self.inner.read(buf)
        }
    }
}
