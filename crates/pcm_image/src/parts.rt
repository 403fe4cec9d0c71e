// The parts of an image: its banks, field by field, and its rows of cells.
ghost use Rattle.std.specs.Prelude.{◌≡◌, ◌+◌, ◌*◌, ◌/◌, ◌%◌, ◌^◌, ◌<◌, ◌≤◌, ◌&&◌, ◌||◌, ◌==◌, ℕ, length, Ok, Err, IfOk, OnOk, IsTrue, MatchResult, nat_le, nat_lt};
ghost use Rattle.std.specs.Int.{w16, w32};
ghost use Rattle.masked_bytes.specs.Masked.{gives_some, zero_elsewhere};
ghost use Rattle.cell_rows.specs.Rows.{bit_of};
ghost use Rattle.pcm_image.specs.declared.ImageKind.TheVariants as kind;
ghost use Rattle.module_shape.specs.Limits.{large_limits};
ghost use Rattle.pcm_image.specs.Formats.{width_of};
ghost use Rattle.pcm_image.specs.Saved.{Saved, IsHeadIn, IsSaved, IsSize, slots_in, lines_in, array_lines_in};
ghost use Rattle.pcm_image.specs.Spelling.{image_bytes};
ghost use Rattle.pcm_image.specs.Reading.{any, byte_at, number_at, field, times, region_at, given_from, is_given, entry_at, bank_at, cells_at, image_of, is_size, size_behind, size_of};
ghost use Rattle.pcm_image.specs.Giving.{Gives, cursor, head_view};

use crate::fields::{Fields, HeadImage, ReadImage, bad, head, u8_at, u16_at, u32_at, wide_at};
use crate::standing::{array_lines, bank_slots};
use crate::{BankImage, EntryImage, Format, Image, ImageFault, ImageKind, RegionImage};
use cell_rows::Cells;
use std::alloc::Global;

// The mark of a bank.
fn mark_at<'a>(fields: Fields<'a>) -> Result<(u8, Fields<'a>), ReadImage>
    requires { fields.at < 2 ^ 31 }
    ensures gives { Gives (λ x. (x.0, cursor x.1)) result
        (byte_at kind.Bank (λ n. nat_lt n 2) (cursor fields.entry)) }
    ensures at { IfOk result (λ x. x.1.at ≡ fields.entry.at + 1) }
{
    let (number, rest) = u8_at(fields)?;
    if number > 1 {
        return Err(bad(&fields, ImageKind::Bank));
    }
    Ok((number, rest))
}

// A number of a bank that is at most another.
fn up_to<'a>(fields: Fields<'a>, most: u16) -> Result<(u16, Fields<'a>), ReadImage>
    requires { fields.at < 2 ^ 31 }
    ensures gives { Gives (λ x. (x.0, cursor x.1)) result
        (number_at w16 kind.Bank (λ n. nat_le n most) (cursor fields.entry)) }
    ensures at { IfOk result (λ x. x.1.at ≡ fields.entry.at + 2) }
    ensures within { IfOk result (λ x. x.0 ≤ most) }
{
    let (number, rest) = u16_at(fields)?;
    if number > most {
        return Err(bad(&fields, ImageKind::Bank));
    }
    Ok((number, rest))
}

// The register Start of a region of so many lines.
fn start_at<'a>(
    fields: Fields<'a>,
    format: Format,
    lines: u32,
) -> Result<(u32, Fields<'a>), ReadImage>
    requires { fields.at < 2 ^ 31 }
    ensures gives { Gives (λ x. (x.0, cursor x.1)) result
        (number_at (width_of format) kind.Bank (λ n. nat_lt n lines) (cursor fields.entry)) }
    ensures at { IfOk result (λ x. x.1.at ≤ fields.entry.at + 4) }
{
    let (number, rest) = wide_at(fields, format)?;
    if number >= lines {
        return Err(bad(&fields, ImageKind::Bank));
    }
    Ok((number, rest))
}

// The register Gap of a region of so many lines.
fn gap_at<'a>(
    fields: Fields<'a>,
    format: Format,
    lines: u32,
) -> Result<(u32, Fields<'a>), ReadImage>
    requires { fields.at < 2 ^ 31 }
    ensures gives { Gives (λ x. (x.0, cursor x.1)) result
        (number_at (width_of format) kind.Bank (λ n. nat_le n lines) (cursor fields.entry)) }
    ensures at { IfOk result (λ x. x.1.at ≤ fields.entry.at + 4) }
{
    let (number, rest) = wide_at(fields, format)?;
    if number > lines {
        return Err(bad(&fields, ImageKind::Bank));
    }
    Ok((number, rest))
}

// The stores of a region since its last move.
fn counter_at<'a>(fields: Fields<'a>) -> Result<(u16, Fields<'a>), ReadImage>
    requires { fields.at < 2 ^ 31 }
    ensures gives { Gives (λ x. (x.0, cursor x.1)) result
        (number_at w16 kind.Bank any (cursor fields.entry)) }
    ensures at { IfOk result (λ x. x.1.at ≡ fields.entry.at + 2) }
{
    u16_at(fields)
}

// The slot of a used spare.
fn slot_at<'a>(fields: Fields<'a>, slots: u32) -> Result<(u32, Fields<'a>), ReadImage>
    requires { fields.at < 2 ^ 31 }
    ensures gives { Gives (λ x. (x.0, cursor x.1)) result
        (number_at w32 kind.Bank (λ n. nat_lt n slots) (cursor fields.entry)) }
    ensures at { IfOk result (λ x. x.1.at ≡ fields.entry.at + 4) }
{
    let (number, rest) = u32_at(fields)?;
    if number >= slots {
        return Err(bad(&fields, ImageKind::Bank));
    }
    Ok((number, rest))
}

// The registers of a region.
#[tactic(auto, unfolding(crate::specs::Reading::region_at))]
fn region_of<'a>(
    fields: Fields<'a>,
    format: Format,
    head: HeadImage,
) -> Result<(RegionImage, Fields<'a>), ReadImage>
    requires { fields.at < 2 ^ 30 }
    ensures gives { Gives (λ x. (x.0, cursor x.1)) result
        (region_at format (head_view head) (cursor fields.entry)) }
    ensures at { IfOk result (λ x. x.1.at ≤ fields.entry.at + 10) }
{
    let (start, rest) = start_at(fields, format, head.lines)?;
    let (gap, rest) = gap_at(rest, format, head.lines)?;
    let (counter, rest) = counter_at(rest)?;
    Ok((
        RegionImage {
            start,
            gap,
            counter,
        },
        rest,
    ))
}

// The line of a write, in a bank of so many lines.
fn entry_line<'a>(fields: Fields<'a>, lines: u32) -> Result<(u32, Fields<'a>), ReadImage>
    requires { fields.at < 2 ^ 31 }
    ensures gives { Gives (λ x. (x.0, cursor x.1)) result
        (number_at w32 kind.Entry (λ n. nat_lt n lines) (cursor fields.entry)) }
    ensures at { IfOk result (λ x. x.1.at ≡ fields.entry.at + 4) }
{
    let (number, rest) = u32_at(fields)?;
    if number >= lines {
        return Err(bad(&fields, ImageKind::Entry));
    }
    Ok((number, rest))
}

// The bytes of a write.
fn bytes_at<'a, const B: usize>(fields: Fields<'a>) -> Result<([u8; B], Fields<'a>), ReadImage>
    requires at { fields.at < 2 ^ 31 }
    requires few { B ≤ 128 }
    ensures gives { Gives (λ x. (x.0, cursor x.1)) result
        (field B kind.Entry any (λ bytes. bytes) (cursor fields.entry)) }
    ensures at { IfOk result (λ x. x.1.at ≡ fields.entry.at + B) }
{
    if fields.left.len() < B {
        return Err(bad(&fields, ImageKind::Short));
    }
    let (front, left) = fields.left.split_at(B);
    let mut bytes = [0; B];
    bytes.copy_from_slice(front);
    Ok((
        bytes,
        Fields {
            at: fields.at + B as u32,
            left,
        },
    ))
}

// A bit of some bytes, the lowest of a byte first.
fn bit(bytes: &[u8], number: usize) -> bool
    requires { number < 8 * length bytes.now }
    ensures { result ≡ bit_of bytes.now number }
{
    bytes[number / 8] >> (number % 8) & 1 == 1
}

// Which bytes are given, by their bits.
fn given_of<const B: usize>(bits: &[u8]) -> [bool; B]
    requires { B ≤ 8 * length bits.now }
    ensures { result ≡ given_from bits.now 0 B }
{
    let mut given = [false; B];
    for i in 0..B {
        given[i] = bit(bits, i);
    }
    given
}

// Whether some byte is given.
fn some_given(given: &[bool]) -> bool
    ensures { result ≡ gives_some given.now }
{
    given.iter().any(|g| *g)
}

// Whether a byte is given or 0.
fn is_free(given: bool, byte: u8) -> bool
    ensures { result ≡ (given || byte == 0) }
{
    given || byte == 0
}

// Whether each byte that isn't given is 0.
#[tactic(auto, using(crate::proofs::Steps::zeros_step, crate::proofs::Steps::zeros_fail))]
fn zeros(bytes: &[u8], given: &[bool]) -> bool
    requires { length given.now ≡ length bytes.now }
    ensures { result ≡ zero_elsewhere bytes.now given.now }
{
    for i in 0..bytes.len() {
        if !is_free(given[i], bytes[i]) {
            return false;
        }
    }
    true
}

// Which bytes of a write are given.
fn given_at<'a, const B: usize>(
    fields: Fields<'a>,
    bytes: &[u8; B],
) -> Result<([bool; B], Fields<'a>), ReadImage>
    requires at { fields.at < 2 ^ 31 }
    requires few { B ≤ 128 }
    requires whole { B % 8 ≡ 0 }
    ensures gives { Gives (λ x. (x.0, cursor x.1)) result
        (field (B / 8) kind.Entry (is_given B bytes.now) (λ bits. given_from bits 0 B)
        (cursor fields.entry)) }
    ensures at { IfOk result (λ x. x.1.at ≡ fields.entry.at + B / 8) }
{
    if fields.left.len() < B / 8 {
        return Err(bad(&fields, ImageKind::Short));
    }
    let (front, left) = fields.left.split_at(B / 8);
    let given = given_of(front);
    if !some_given(&given) || !zeros(bytes, &given) {
        return Err(bad(&fields, ImageKind::Entry));
    }
    Ok((
        given,
        Fields {
            at: fields.at + (B / 8) as u32,
            left,
        },
    ))
}

// A write of a queue.
#[tactic(auto, unfolding(crate::specs::Reading::entry_at))]
fn entry_of<'a, const B: usize>(
    fields: Fields<'a>,
    head: HeadImage,
) -> Result<(EntryImage<B>, Fields<'a>), ReadImage>
    requires at { fields.at < 2 ^ 30 }
    requires few { B ≤ 128 }
    requires whole { B % 8 ≡ 0 }
    requires within { IsHeadIn large_limits (head_view head) }
    ensures gives { Gives (λ x. (x.0, cursor x.1)) result
        (entry_at B (head_view head) (cursor fields.entry)) }
    ensures at { IfOk result (λ x. x.1.at ≤ fields.entry.at + 148) }
{
    let (line, rest) = entry_line(fields, head.regions as u32 * head.lines)?;
    let (bytes, rest) = match bytes_at(rest) {
        Ok(read) => read,
        Err(error) => return Err(error),
    };
    let (given, rest) = match given_at(rest, &bytes) {
        Ok(read) => read,
        Err(error) => return Err(error),
    };
    Ok((EntryImage { line, bytes, given }, rest))
}

// The slots of the used spares.
fn slots_of<'a>(
    alloc: Global,
    fields: Fields<'a>,
    used: u16,
    slots: u32,
) -> Result<(Vec<u32>, Fields<'a>), ReadImage>
    requires { fields.at < 2 ^ 29 }
    ensures gives { Gives (λ x. (x.0.items, cursor x.1)) result
        (times used (number_at w32 kind.Bank (λ n. nat_lt n slots)) (cursor fields.entry)) }
    ensures at { IfOk result (λ x. x.1.at ≤ fields.entry.at + 4 * used) }
{
    let mut items = Vec::new(alloc);
    let mut rest = fields;
    for _ in 0..used {
        let (item, after) = slot_at(rest, slots)?;
        items.push(item)?;
        rest = after;
    }
    Ok((items, rest))
}

// The slots of the used spares of a bank.
fn replaced_of<'a>(
    alloc: Global,
    fields: Fields<'a>,
    head: HeadImage,
    used: u16,
) -> Result<(Vec<u32>, Fields<'a>), ReadImage>
    requires at { fields.at < 2 ^ 29 }
    requires within { IsHeadIn large_limits (head_view head) }
    ensures gives { Gives (λ x. (x.0.items, cursor x.1)) result
        (times used (number_at w32 kind.Bank (λ n. nat_lt n (slots_in (head_view head))))
        (cursor fields.entry)) }
    ensures at { IfOk result (λ x. x.1.at ≤ fields.entry.at + 4 * used) }
{
    slots_of(alloc, fields, used, bank_slots(head))
}

// The registers of the regions.
fn regions_of<'a>(
    alloc: Global,
    fields: Fields<'a>,
    format: Format,
    head: HeadImage,
) -> Result<(Vec<RegionImage>, Fields<'a>), ReadImage>
    requires { fields.at < 2 ^ 29 }
    ensures gives { Gives (λ x. (x.0.items, cursor x.1)) result
        (times head.regions (region_at format (head_view head)) (cursor fields.entry)) }
    ensures at { IfOk result (λ x. x.1.at ≤ fields.entry.at + 10 * head.regions) }
{
    let mut items = Vec::new(alloc);
    let mut rest = fields;
    for _ in 0..head.regions {
        let (item, after) = region_of(rest, format, head)?;
        items.push(item)?;
        rest = after;
    }
    Ok((items, rest))
}

// The writes of a queue.
fn entries_of<'a, const B: usize>(
    alloc: Global,
    fields: Fields<'a>,
    head: HeadImage,
    count: u16,
) -> Result<(Vec<EntryImage<B>>, Fields<'a>), ReadImage>
    requires at { fields.at < 2 ^ 29 }
    requires few { B ≤ 128 }
    requires whole { B % 8 ≡ 0 }
    requires within { IsHeadIn large_limits (head_view head) }
    ensures gives { Gives (λ x. (x.0.items, cursor x.1)) result
        (times count (entry_at B (head_view head)) (cursor fields.entry)) }
    ensures at { IfOk result (λ x. x.1.at ≤ fields.entry.at + 148 * count) }
{
    let mut items = Vec::new(alloc);
    let mut rest = fields;
    for _ in 0..count {
        let (item, after) = match entry_of(rest, head) {
            Ok(read) => read,
            Err(error) => return Err(error),
        };
        items.push(item)?;
        rest = after;
    }
    Ok((items, rest))
}

// What a bank keeps: at most 42,629 bytes.
#[tactic(auto, unfolding(crate::specs::Reading::bank_at))]
fn bank_of<'a, const B: usize>(
    alloc: Global,
    fields: Fields<'a>,
    format: Format,
    head: HeadImage,
) -> Result<(BankImage<B>, Fields<'a>), ReadImage>
    requires at { fields.at < 2 ^ 28 }
    requires few { B ≤ 128 }
    requires whole { B % 8 ≡ 0 }
    requires within { IsHeadIn large_limits (head_view head) }
    ensures gives { Gives (λ x. (x.0, cursor x.1)) result
        (bank_at format B (head_view head) (cursor fields.entry)) }
    ensures at { IfOk result (λ x. x.1.at ≤ fields.entry.at + 42629) }
{
    let (mark, rest) = mark_at(fields)?;
    let (used, rest) = up_to(rest, head.spares)?;
    let (replaced, rest) = replaced_of(alloc, rest, head, used)?;
    let (registers, rest) = regions_of(alloc, rest, format, head)?;
    let (count, rest) = up_to(rest, 256)?;
    let (entries, rest) = entries_of(alloc, rest, head, count)?;
    Ok((
        BankImage {
            mark,
            replaced,
            registers,
            entries,
        },
        rest,
    ))
}

/// The banks, the first one behind the module's numbers.
pub fn banks_of<'a, const B: usize>(
    alloc: Global,
    fields: Fields<'a>,
    format: Format,
    head: HeadImage,
) -> Result<(Vec<BankImage<B>>, Fields<'a>), ReadImage>
    requires at { fields.at ≤ 26 }
    requires few { B ≤ 128 }
    requires whole { B % 8 ≡ 0 }
    requires within { IsHeadIn large_limits (head_view head) }
    ensures gives { Gives (λ x. (x.0.items, cursor x.1)) result
        (times head.banks (bank_at format B (head_view head)) (cursor fields.entry)) }
    ensures at { IfOk result (λ x. x.1.at ≤ 26 + 42629 * head.banks) }
{
    let mut items = Vec::new(alloc);
    let mut rest = fields;
    for _ in 0..head.banks {
        let (item, after) = bank_of(alloc, rest, format, head)?;
        items.push(item)?;
        rest = after;
    }
    Ok((items, rest))
}

/// The cells of an array line.
#[tactic(auto, unfolding(crate::specs::Reading::cells_at))]
pub fn row_at<'a, const B: usize, const M: usize>(
    fields: Fields<'a>,
) -> Result<(Cells<B, M>, Fields<'a>), ReadImage>
    requires at { fields.at < 2 ^ 31 }
    requires few { B ≤ 128 }
    requires checks { M ≤ 16 }
    ensures gives { Gives (λ x. (x.0, cursor x.1)) result (cells_at B M (cursor fields.entry)) }
    ensures at { IfOk result (λ x. x.1.at ≤ fields.entry.at + 144) }
{
    if fields.left.len() < B + M {
        return Err(bad(&fields, ImageKind::Short));
    }
    let (front, left) = fields.left.split_at(B + M);
    let (bits, meta) = front.split_at(B);
    let mut row = Cells::zero();
    row.bits.copy_from_slice(bits);
    row.meta.copy_from_slice(meta);
    Ok((
        row,
        Fields {
            at: fields.at + (B + M) as u32,
            left,
        },
    ))
}

// The cells of so many array lines.
fn rows_of<'a, const B: usize, const M: usize>(
    alloc: Global,
    fields: Fields<'a>,
    count: u32,
) -> Result<(Vec<Cells<B, M>>, Fields<'a>), ReadImage>
    requires at { fields.at < 2 ^ 28 }
    requires count { count ≤ 100000 }
    requires few { B ≤ 128 }
    requires checks { M ≤ 16 }
    ensures gives { Gives (λ x. (x.0.items, cursor x.1)) result
        (times count (cells_at B M) (cursor fields.entry)) }
    ensures at { IfOk result (λ x. x.1.at ≤ fields.entry.at + 144 * count) }
{
    let mut items = Vec::new(alloc);
    let mut rest = fields;
    for _ in 0..count {
        let (item, after) = match row_at(rest) {
            Ok(read) => read,
            Err(error) => return Err(error),
        };
        items.push(item)?;
        rest = after;
    }
    Ok((items, rest))
}

// The whole of an image.
#[tactic(auto, unfolding(crate::specs::Reading::image_of))]
fn whole<const B: usize, const M: usize>(
    alloc: Global,
    bytes: &[u8],
) -> Result<Image<B, M>, ReadImage>
    requires { IsSize B M }
    ensures { Gives (λ image. image) result (image_of B M bytes.now) }
{
    let (head, rest) = head(Fields { at: 0, left: bytes }, Format::Small, B)?;
    let (parts, rest) = banks_of(alloc, rest, Format::Small, head)?;
    let (cells, rest) = rows_of(alloc, rest, array_lines(head))?;
    if !rest.left.is_empty() {
        return Err(bad(&rest, ImageKind::Extra));
    }
    Ok(Image { head, parts, cells })
}

/// The module that the bytes spell, all of the bytes; or the first field that fails.
pub fn read_image<const B: usize, const M: usize>(
    alloc: Global,
    bytes: &[u8],
) -> Result<Image<B, M>, ReadImage>
    requires { IsSize B M }
    // Only lines of 64 or 128 bytes are read.
    ensures size { OnOk result (IsTrue (is_size B)) }
    // What is read is saved so, each byte of it.
    ensures found { IfOk result (λ image. IsSaved image × (bytes.now ≡ image_bytes image)) }
    // What is saved so of such lines is read, unless memory runs out.
    ensures only { IsTrue (is_size B) → (s : Saved B M) → IsSaved s → bytes.now ≡ image_bytes s
        → Gives (λ image. image) result (Ok s) }
    // Which field fails, and where it begins.
    ensures exact { Gives (λ image. image) result (image_of B M bytes.now) }
{
    whole(alloc, bytes)
}

/// The size of a line, 64 or 128, by the first nine bytes of an image whose format begins with these eight.
#[tactic(auto, unfolding(crate::specs::Reading::size_behind, crate::specs::Reading::size_at))]
pub fn size_behind(front: &[u8], bytes: &[u8]) -> Result<u8, ImageFault>
    ensures { MatchResult result (λ n. size_behind front.now bytes.now ≡ Ok n)
        (λ f. size_behind front.now bytes.now ≡ Err f) }
{
    if bytes.len() < 8 {
        return Err(ImageFault {
            at: 0,
            kind: ImageKind::Short,
        });
    }
    let (first, left) = bytes.split_at(8);
    if first != front {
        return Err(ImageFault {
            at: 0,
            kind: ImageKind::Magic,
        });
    }
    match left {
        [] => Err(ImageFault {
            at: 8,
            kind: ImageKind::Short,
        }),
        [64, ..] => Ok(64),
        [128, ..] => Ok(128),
        [_, ..] => Err(ImageFault {
            at: 8,
            kind: ImageKind::Size,
        }),
    }
}

/// The size of a line, 64 or 128, by the first nine bytes.
pub fn size_of_line(bytes: &[u8]) -> Result<u8, ImageFault>
    ensures { MatchResult result (λ n. size_of bytes.now ≡ Ok n) (λ f. size_of bytes.now ≡ Err f) }
{
    size_behind(b"PCMIMG01", bytes)
}
