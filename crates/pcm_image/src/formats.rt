// What the formats differ in.
ghost use Rattle.std.specs.Prelude.{◌≡◌, ◌≤◌};
ghost use Rattle.pcm_image.specs.Formats.{magic_of, sizes_of};

use crate::Format;
use module_shape::SizeLimits;

/// The eight bytes with which images begin.
pub(crate) fn magic_of(format: Format) -> [u8; 8]
    ensures { result ≡ magic_of format }
{
    match format {
        Format::Small => *b"PCMIMG01",
        Format::Large => *b"PCMIMG02",
    }
}

/// The greatest sizes of a module.
pub(crate) fn sizes_of(format: Format) -> SizeLimits
    ensures is { result ≡ sizes_of format }
    ensures few { (result.banks ≤ 64) × (result.regions ≤ 64) }
{
    match format {
        Format::Small => SizeLimits {
            banks: 16,
            regions: 16,
            lines: 4096,
            total: 65_536,
        },
        Format::Large => SizeLimits {
            banks: 64,
            regions: 64,
            lines: 67_108_864,
            total: 67_108_864,
        },
    }
}
