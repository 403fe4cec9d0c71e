//! The bank of each line of a module.
ghost use Rattle.std.specs.Prelude.{◌≡◌, IfOk};
ghost use Rattle.right_runs.specs.Banks.{banks_of};

use feistel_map::Feistel;
use module_shape::Shape;
use std::alloc::{AllocError, Global};

/// The banks of the lines of a module of this shape, whose randomiser has this seed.
pub fn banks(alloc: Global, shape: &Shape, seed: u64) -> Result<Vec<u8>, AllocError>
    ensures { IfOk result (λ banks. banks.items ≡ banks_of shape.now seed) }
{
    let network = Feistel::new(shape.address_bits(), seed);
    let lines = shape.total();
    let mut banks = Vec::with_capacity(alloc, lines as usize)?;
    for line in 0..lines {
        let mixed = network.forward(line);
        banks.push(shape.locate(mixed).bank as u8)?;
    }
    Ok(banks)
}
