// The fields of an image, taken from the front of the bytes.
ghost use Rattle.std.specs.Prelude.{◌≡◌, ◌+◌, ◌-◌, ◌*◌, ◌^◌, ◌<◌, ◌≤◌, ◌==◌, ℕ, IfOk, IsTrue, nat_le, nat_lt};
ghost use Rattle.std.specs.Int.{w16, w32, w64};
ghost use Rattle.pcm_image.specs.declared.fields.ReadImage.TheVariants.{NoMemory};
ghost use Rattle.pcm_image.specs.declared.ImageKind.TheVariants as kind;
ghost use Rattle.module_shape.specs.Limits.{is_power_between};
ghost use Rattle.pcm_image.specs.Formats.{magic_of, sizes_of, width_of};
ghost use Rattle.pcm_image.specs.Saved.{IsHeadIn, is_lines_in};
ghost use Rattle.pcm_image.specs.Reading.{any, field, byte_at, number_at, is_size_of, size_at, head_at};
ghost use Rattle.pcm_image.specs.Giving.{Gives, cursor, head_view};

use crate::formats::{magic_of, sizes_of};
use crate::{Format, ImageFault, ImageKind};
use module_shape::SizeLimits;
use std::alloc::{AllocError, AllocFailed};

/// Why an image gives no module.
#[derive(Clone, Copy, PartialEq, Eq)]
pub enum ReadImage {
    /// A field fails.
    Bad(ImageFault),
    /// Memory ran out.
    NoMemory,
}

impl From<AllocError> for ReadImage {
    ghost from_gives = { λ _ e. e ≡ NoMemory };

    fn from(_e: AllocError) -> ReadImage {
        ReadImage::NoMemory
    }
}

impl<T: Drop> From<AllocFailed<T>> for ReadImage {
    ghost from_gives = { λ _ e. e ≡ NoMemory };

    fn from(_e: AllocFailed<T>) -> ReadImage {
        ReadImage::NoMemory
    }
}

/// What is left to read of an image.
#[derive(Clone, Copy)]
pub struct Fields<'a> {
    /// How many bytes are before it.
    pub at: u32,
    /// The bytes that are left.
    pub left: &'a [u8],
}

/// The numbers at the beginning of an image, but for the size of its lines.
#[derive(Clone, Copy, PartialEq, Eq)]
pub struct HeadImage {
    pub banks: u8,
    pub regions: u8,
    /// Lines of a region.
    pub lines: u32,
    /// Spares of a bank.
    pub spares: u16,
    /// The seed of the randomiser.
    pub seed: u64,
    /// 1 where the registers have array lines of their own, else 0.
    pub home: u8,
}

/// That the next field fails so.
pub fn bad(fields: &Fields<'_>, kind: ImageKind) -> ReadImage
    ensures { result ≡ ReadImage.Bad (record { at = fields.now.at; kind = kind }) }
{
    ReadImage::Bad(ImageFault {
        at: fields.at,
        kind,
    })
}

/// The next byte.
pub fn u8_at<'a>(fields: Fields<'a>) -> Result<(u8, Fields<'a>), ReadImage>
    requires { fields.at < 2 ^ 31 }
    ensures gives { Gives (λ x. (x.0, cursor x.1)) result
        (byte_at kind.Short any (cursor fields.entry)) }
    ensures at { IfOk result (λ x. x.1.at ≡ fields.entry.at + 1) }
{
    match fields.left {
        [] => Err(bad(&fields, ImageKind::Short)),
        [first, left @ ..] => Ok((
            *first,
            Fields {
                at: fields.at + 1,
                left,
            },
        )),
    }
}

// The next so many bytes.
fn bytes_at<'a, const N: usize>(fields: Fields<'a>) -> Result<([u8; N], Fields<'a>), ReadImage>
    requires at { fields.at < 2 ^ 31 }
    requires few { N ≤ 8 }
    ensures gives { Gives (λ x. (x.0, cursor x.1)) result
        (field N kind.Short any (λ bytes. bytes) (cursor fields.entry)) }
    ensures at { IfOk result (λ x. x.1.at ≡ fields.entry.at + N) }
{
    let Some((bytes, left)) = fields.left.split_first_chunk() else {
        return Err(bad(&fields, ImageKind::Short));
    };
    let at = fields.at + N as u32;
    Ok((*bytes, Fields { at, left }))
}

/// The next number of two bytes, the lowest byte first, as every number of an image.
pub fn u16_at<'a>(fields: Fields<'a>) -> Result<(u16, Fields<'a>), ReadImage>
    requires { fields.at < 2 ^ 31 }
    ensures gives { Gives (λ x. (x.0, cursor x.1)) result
        (number_at w16 kind.Short any (cursor fields.entry)) }
    ensures at { IfOk result (λ x. x.1.at ≡ fields.entry.at + 2) }
{
    let (bytes, rest) = bytes_at(fields)?;
    Ok((u16::from_le_bytes(bytes), rest))
}

// Whether a number is a power of two between two others.
fn is_power_in(number: u32, least: u32, most: u32) -> bool
    ensures is { result ≡ is_power_between least most number }
    ensures most { IsTrue result → number ≤ most }
{
    number.is_power_of_two() && least <= number && number <= most
}

// A number that is a power of two up to another.
fn few_at<'a>(fields: Fields<'a>, most: u32) -> Result<(u8, Fields<'a>), ReadImage>
    requires at { fields.at < 2 ^ 31 }
    requires most { most ≤ 64 }
    ensures gives { Gives (λ x. (x.0, cursor x.1)) result
        (byte_at kind.Shape (is_power_between 1 most) (cursor fields.entry)) }
    ensures at { IfOk result (λ x. x.1.at ≡ fields.entry.at + 1) }
    ensures within { IfOk result (λ x. IsTrue (is_power_between 1 most x.0)) }
    ensures few { IfOk result (λ x. x.0 ≤ 64) }
{
    let (number, rest) = u8_at(fields)?;
    if !is_power_in(number as u32, 1, most) {
        return Err(bad(&fields, ImageKind::Shape));
    }
    Ok((number, rest))
}

// The number of banks.
fn banks_at<'a>(fields: Fields<'a>, format: Format) -> Result<(u8, Fields<'a>), ReadImage>
    requires { fields.at < 2 ^ 31 }
    ensures gives { Gives (λ x. (x.0, cursor x.1)) result
        (byte_at kind.Shape (is_power_between 1 (sizes_of format).banks) (cursor fields.entry)) }
    ensures at { IfOk result (λ x. x.1.at ≡ fields.entry.at + 1) }
    ensures within { IfOk result (λ x. IsTrue (is_power_between 1 (sizes_of format).banks x.0)) }
    ensures few { IfOk result (λ x. x.0 ≤ 64) }
{
    few_at(fields, sizes_of(format).banks)
}

// The number of regions of a bank.
fn regions_at<'a>(fields: Fields<'a>, format: Format) -> Result<(u8, Fields<'a>), ReadImage>
    requires { fields.at < 2 ^ 31 }
    ensures gives { Gives (λ x. (x.0, cursor x.1)) result
        (byte_at kind.Shape (is_power_between 1 (sizes_of format).regions) (cursor fields.entry)) }
    ensures at { IfOk result (λ x. x.1.at ≡ fields.entry.at + 1) }
    ensures within { IfOk result (λ x. IsTrue (is_power_between 1 (sizes_of format).regions x.0)) }
    ensures few { IfOk result (λ x. x.0 ≤ 64) }
{
    few_at(fields, sizes_of(format).regions)
}

// The number of spares of a bank.
fn spares_at<'a>(fields: Fields<'a>) -> Result<(u16, Fields<'a>), ReadImage>
    requires { fields.at < 2 ^ 31 }
    ensures gives { Gives (λ x. (x.0, cursor x.1)) result
        (number_at w16 kind.Shape (λ n. nat_le n 1024) (cursor fields.entry)) }
    ensures at { IfOk result (λ x. x.1.at ≡ fields.entry.at + 2) }
    ensures few { IfOk result (λ x. x.0 ≤ 1024) }
{
    let (number, rest) = u16_at(fields)?;
    if number > 1024 {
        return Err(bad(&fields, ImageKind::Shape));
    }
    Ok((number, rest))
}

/// The next number of four bytes.
pub fn u32_at<'a>(fields: Fields<'a>) -> Result<(u32, Fields<'a>), ReadImage>
    requires { fields.at < 2 ^ 31 }
    ensures gives { Gives (λ x. (x.0, cursor x.1)) result
        (number_at w32 kind.Short any (cursor fields.entry)) }
    ensures at { IfOk result (λ x. x.1.at ≡ fields.entry.at + 4) }
{
    let (bytes, rest) = bytes_at(fields)?;
    Ok((u32::from_le_bytes(bytes), rest))
}

/// The next number of eight bytes.
pub fn u64_at<'a>(fields: Fields<'a>) -> Result<(u64, Fields<'a>), ReadImage>
    requires { fields.at < 2 ^ 31 }
    ensures gives { Gives (λ x. (x.0, cursor x.1)) result
        (number_at w64 kind.Shape any (cursor fields.entry)) }
    ensures at { IfOk result (λ x. x.1.at ≡ fields.entry.at + 8) }
{
    let (bytes, rest) = bytes_at(fields)?;
    Ok((u64::from_le_bytes(bytes), rest))
}

/// The next number of lines, as wide as its format has it.
pub(crate) fn wide_at<'a>(
    fields: Fields<'a>,
    format: Format,
) -> Result<(u32, Fields<'a>), ReadImage>
    requires { fields.at < 2 ^ 31 }
    ensures gives { Gives (λ x. (x.0, cursor x.1)) result
        (number_at (width_of format) kind.Short any (cursor fields.entry)) }
    ensures at { IfOk result (λ x. x.1.at ≤ fields.entry.at + 4) }
{
    match format {
        Format::Small => {
            let (number, rest) = u16_at(fields)?;
            Ok((number as u32, rest))
        }
        Format::Large => u32_at(fields),
    }
}

// Whether a region may have so many lines, in a module of so many banks of so many regions.
fn is_lines_of(most: SizeLimits, banks: u8, regions: u8, lines: u32) -> bool
    requires { (banks ≤ 64) × (regions ≤ 64) }
    ensures { result ≡ is_lines_in most banks regions lines }
{
    is_power_in(lines, 4, most.lines)
        && banks as u64 * regions as u64 * lines as u64 <= most.total as u64
}

// The number of lines of a region.
fn lines_at<'a>(
    fields: Fields<'a>,
    format: Format,
    banks: u8,
    regions: u8,
) -> Result<(u32, Fields<'a>), ReadImage>
    requires at { fields.at < 2 ^ 31 }
    requires few { (banks ≤ 64) × (regions ≤ 64) }
    ensures gives { Gives (λ x. (x.0, cursor x.1)) result (number_at (width_of format) kind.Shape
        (is_lines_in (sizes_of format) banks regions) (cursor fields.entry)) }
    ensures at { IfOk result (λ x. x.1.at ≤ fields.entry.at + 4) }
    ensures within { IfOk result
        (λ x. IsTrue (is_lines_in (sizes_of format) banks regions x.0)) }
{
    let (number, rest) = wide_at(fields, format)?;
    if !is_lines_of(sizes_of(format), banks, regions, number) {
        return Err(bad(&fields, ImageKind::Shape));
    }
    Ok((number, rest))
}

/// Where the registers are kept.
pub fn home_at<'a>(fields: Fields<'a>) -> Result<(u8, Fields<'a>), ReadImage>
    requires { fields.at < 2 ^ 31 }
    ensures gives { Gives (λ x. (x.0, cursor x.1)) result
        (byte_at kind.Shape (λ n. nat_lt n 2) (cursor fields.entry)) }
    ensures at { IfOk result (λ x. x.1.at ≡ fields.entry.at + 1) }
    ensures few { IfOk result (λ x. x.0 < 2) }
{
    let (number, rest) = u8_at(fields)?;
    if number > 1 {
        return Err(bad(&fields, ImageKind::Shape));
    }
    Ok((number, rest))
}

// The first two fields: the eight bytes with which images of a format begin, and the size of their lines, which is 64 or 128 and the one
// that is asked for.
#[tactic(auto, unfolding(crate::specs::Reading::size_at))]
fn size_is<'a>(fields: Fields<'a>, front: &[u8], size: usize) -> Result<(u8, Fields<'a>), ReadImage>
    requires { fields.at < 2 ^ 31 - 8 }
    ensures gives { Gives (λ x. (x.0, cursor x.1)) result
        (size_at front.now (is_size_of size) (cursor fields.entry)) }
    ensures at { IfOk result (λ x. x.1.at ≡ fields.entry.at + 9) }
{
    if fields.left.len() < 8 {
        return Err(bad(&fields, ImageKind::Short));
    }
    let (first, left) = fields.left.split_at(8);
    if first != front {
        return Err(bad(&fields, ImageKind::Magic));
    }
    let behind = Fields {
        at: fields.at + 8,
        left,
    };
    let (number, rest) = u8_at(behind)?;
    if !matches!(number, 64 | 128) || number as usize != size {
        return Err(bad(&behind, ImageKind::Size));
    }
    Ok((number, rest))
}

// The first two fields of a format.
fn front_at<'a>(
    fields: Fields<'a>,
    format: Format,
    size: usize,
) -> Result<(u8, Fields<'a>), ReadImage>
    requires { fields.at < 2 ^ 31 - 8 }
    ensures gives { Gives (λ x. (x.0, cursor x.1)) result
        (size_at (magic_of format) (is_size_of size) (cursor fields.entry)) }
    ensures at { IfOk result (λ x. x.1.at ≡ fields.entry.at + 9) }
{
    size_is(fields, &magic_of(format), size)
}

/// The numbers at the beginning of an image, over lines of so many bytes.
#[tactic(auto, unfolding(crate::specs::Reading::head_at))]
pub fn head<'a>(
    fields: Fields<'a>,
    format: Format,
    size: usize,
) -> Result<(HeadImage, Fields<'a>), ReadImage>
    requires { fields.at ≡ 0 }
    ensures gives { Gives (λ x. (head_view x.0, cursor x.1)) result
        (head_at format size (cursor fields.entry)) }
    ensures at { IfOk result (λ x. x.1.at ≤ 26) }
    ensures within { IfOk result (λ x. IsHeadIn (sizes_of format) (head_view x.0)) }
{
    let (_, rest) = front_at(fields, format, size)?;
    let (banks, rest) = banks_at(rest, format)?;
    let (regions, rest) = regions_at(rest, format)?;
    let (lines, rest) = lines_at(rest, format, banks, regions)?;
    let (spares, rest) = spares_at(rest)?;
    let (seed, rest) = u64_at(rest)?;
    let (home, rest) = home_at(rest)?;
    Ok((
        HeadImage {
            banks,
            regions,
            lines,
            spares,
            seed,
            home,
        },
        rest,
    ))
}
