//! The image of a large module, whose numbers have more room than those of [pcm_image](../pcm_image), and which of the array lines has only
//! those of which a cell is 1: a module of 4 GiB that was written a thousand times has an image of 100 KB. It saves the same: what its
//! banks keep, and what the cells of its array hold. Here is how it is spelled, and its parts that aren't spelled as those of the image of
//! a small module.
#![tactic(auto)]

ghost use Rattle.std.specs.Prelude.{◌≡◌};
ghost use Rattle.large_image.specs.Spelling.{are_zero};

mod writing;

pub use writing::{write_head, write_line, write_region};

/// Stands where the number of a further array line would.
pub const END_MARK: u32 = 4_294_967_295;

/// Whether no byte is other than 0.
pub fn are_zero(bytes: &[u8]) -> bool
    ensures { result ≡ are_zero bytes.now }
{
    bytes.iter().all(|byte| *byte == 0)
}
