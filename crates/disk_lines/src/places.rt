// Where the lines of a disk lie in a module.
ghost use Rattle.std.specs.Prelude.{◌≡◌, ◌%◌, ◌<◌};
ghost use Rattle.module_shape.specs.Limits.{IsShape, total_of};
ghost use Rattle.right_runs.specs.Banks.{bank_of_line};
ghost use Rattle.disk_lines.specs.Places.{place_of};

use feistel_map::Feistel;
use module_shape::Shape;
use std::marker::Model;

/// Where the lines of a disk lie in a module of some sizes, with the randomiser of some seed.
#[derive(Drop)]
pub struct Places {
    shape: Shape,
    seed: u64,
    feistel: Feistel,
}

impl Model for Places {
    ghost use Rattle.disk_lines.specs.Placing.{Placing, IsPlacing};

    ghost Value = { Placing };

    ghost view = { λ p. record {
      shape = p.shape;
      seed = p.seed;
    } };

    ghost invariant = { λ p. IsPlacing p.shape p.seed p.feistel };
}

impl Places {
    /// Those of a module of these sizes and this seed.
    pub fn new(shape: Shape, seed: u64) -> Places
        ensures shape { result.shape ≡ shape }
        ensures seed { result.seed ≡ seed }
    {
        Places {
            shape,
            seed,
            feistel: Feistel::new(shape.address_bits(), seed),
        }
    }

    /// The line of the module that is a line of the disk.
    pub fn place(&self, line: u32) -> u32
        requires { line < total_of self.now.shape }
        ensures place { result ≡ place_of self.now.shape self.now.seed line }
        ensures exists { result < total_of self.now.shape }
    {
        let raw = self.shape.raw();
        let round = line / raw.banks;
        let own = round % raw.regions * raw.lines + round / raw.regions;
        self.feistel
            .back(line % raw.banks * (raw.regions * raw.lines) + own)
    }

    /// The bank of a line of the disk.
    pub fn bank(&self, line: u32) -> u32
        requires { line < total_of self.now.shape }
        ensures bank { result ≡ bank_of_line self.now.shape self.now.seed
            (place_of self.now.shape self.now.seed line) }
        ensures round { result ≡ line % self.now.shape.banks }
        ensures exists { result < self.now.shape.banks }
    {
        line % self.shape.raw().banks
    }
}
