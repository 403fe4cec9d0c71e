// Lines that keep every write, and whose power ends behind some.
ghost use Rattle.std.specs.Prelude.{◌≡◌, ◌<◌, ◌≤◌, ◌∷◌, List, [], IfOk, OnOk, OnErr};
ghost use Rattle.pcm_io.specs.Faults.{Rose, raised_by};

use crate::lines::{Lines, Stopped};
use masked_bytes::layers::lay_over;

/// A write of some bytes of a line.
#[derive(Clone, Copy, Debug)]
pub struct Put<const B: usize> {
    pub line: u32,
    pub bytes: [u8; B],
    pub given: [bool; B],
}

/// So many lines, the writes that were made, the oldest first, for how many more the power lasts,
/// and how many calls were stopped, up to the greatest number.
#[derive(Drop)]
pub struct Recorded<const B: usize> {
    pub lines: u32,
    pub puts: Vec<Put<B>>,
    pub power: u32,
    pub stops: u64,
}

impl<const B: usize> Recorded<B> {
    // Counts a call that is stopped.
    fn stop(&mut self, why: Stopped) -> Stopped
        ensures why { result ≡ why }
        ensures counted { self.new ≡ record self.old { stops = raised_by self.old.stops 1 } }
    {
        self.stops = self.stops.saturating_add(1);
        why
    }
}

impl<const B: usize> Lines<B> for Recorded<B> {
    ghost use Rattle.std.specs.Prelude.{ℕ};
    ghost use Rattle.atomic_sectors.specs.Recorded.{behind};

    ghost Kind = { ℕ };

    ghost kind = { λ r. r.lines };

    ghost count = { λ lines. lines };

    ghost made = { λ r. behind [] r.puts.items };

    ghost stops = { λ r. r.stops };

    fn count(&self) -> u32 {
        self.lines
    }

    fn put(&mut self, line: u32, bytes: &[u8; B], given: &[bool; B]) -> Result<(), Stopped> {
        if self.power == 0 {
            return Err(self.stop(Stopped::Cut));
        }
        let put = Put {
            line,
            bytes: *bytes,
            given: *given,
        };
        if self.puts.push(put).is_err() {
            return Err(self.stop(Stopped::Memory));
        }
        self.power -= 1;
        Ok(())
    }

    fn put_all(&mut self, line: u32, bytes: &[u8; B]) -> Result<(), Stopped> {
        self.put(line, bytes, &[true; B])
    }

    fn get(&mut self, line: u32) -> Result<[u8; B], Stopped> {
        let mut bytes = [0; B];
        for put in &self.puts {
            if put.line == line {
                lay_over(&put.bytes, &put.given, &mut bytes);
            }
        }
        Ok(bytes)
    }
}
