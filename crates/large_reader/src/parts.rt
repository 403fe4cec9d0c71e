// The whole of the image of a large module.
ghost use Rattle.std.specs.Prelude.{◌≡◌, ◌^◌, ◌<◌, length, Ok, Err, IfOk, OnOk, IsTrue, MatchResult};
ghost use Rattle.module_shape.specs.Limits.{large_limits};
ghost use Rattle.pcm_image.specs.Saved.{Saved, IsSavedIn, IsSize};
ghost use Rattle.pcm_image.specs.Reading.{is_size};
ghost use Rattle.pcm_image.specs.Giving.{Gives};
ghost use Rattle.large_image.specs.Spelling.{large_bytes};
ghost use Rattle.large_reader.specs.Reading.{large_of, size_of};

use crate::image::LargeImage;
use crate::rows::rows_of;
use pcm_image::fields::{Fields, bad, head};
use pcm_image::standing::array_lines;
use pcm_image::{Format, ImageFault, ImageKind, ReadImage, banks_of, size_behind};
use std::alloc::Global;

// The whole of an image.
#[tactic(auto, unfolding(crate::specs::Reading::large_of))]
fn whole<const B: usize, const M: usize>(
    alloc: Global,
    bytes: &[u8],
) -> Result<LargeImage<B, M>, ReadImage>
    requires size { IsSize B M }
    requires few { length bytes.now < 2 ^ 31 }
    ensures { Gives (λ image. image) result (large_of B M bytes.now) }
{
    let (head, rest) = head(Fields { at: 0, left: bytes }, Format::Large, B)?;
    let (parts, rest) = banks_of(alloc, rest, Format::Large, head)?;
    let (rows, rest) = rows_of(alloc, rest, array_lines(head))?;
    if !rest.left.is_empty() {
        return Err(bad(&rest, ImageKind::Extra));
    }
    Ok(LargeImage { head, parts, rows })
}

/// The large module that the bytes spell, all of the bytes; or the first field that fails.
pub fn read_large<const B: usize, const M: usize>(
    alloc: Global,
    bytes: &[u8],
) -> Result<LargeImage<B, M>, ReadImage>
    requires size { IsSize B M }
    requires few { length bytes.now < 2 ^ 31 }
    // Only lines of 64 or 128 bytes are read.
    ensures size { OnOk result (IsTrue (is_size B)) }
    // What is read is saved so, each byte of it.
    ensures found { IfOk result (λ image. IsSavedIn large_limits image
        × (bytes.now ≡ large_bytes image)) }
    // What is saved so of such lines is read, unless memory runs out.
    ensures only { IsTrue (is_size B) → (s : Saved B M) → IsSavedIn large_limits s
        → bytes.now ≡ large_bytes s → Gives (λ image. image) result (Ok s) }
    // Which field fails, and where it begins.
    ensures exact { Gives (λ image. image) result (large_of B M bytes.now) }
{
    whole(alloc, bytes)
}

/// The size of a line, 64 or 128, by the first nine bytes.
pub fn size_of_large(bytes: &[u8]) -> Result<u8, ImageFault>
    ensures { MatchResult result (λ n. size_of bytes.now ≡ Ok n) (λ f. size_of bytes.now ≡ Err f) }
{
    size_behind(b"PCMIMG02", bytes)
}
