// The array lines that an image lists, up to the mark behind the last of them; and how one of them is found.
ghost use Rattle.std.specs.Prelude.{◌≡◌, ℕ, ◌+◌, ◌^◌, ◌<◌, ◌≤◌, IfOk, IsTrue, IsFalse, length, slice_index_or};
ghost use Rattle.std.specs.Int.{w32};
ghost use Rattle.pcm_image.specs.declared.ImageKind.TheVariants as kind;
ghost use Rattle.pcm_image.specs.Spelling.{cells_bytes};
ghost use Rattle.pcm_image.specs.Reading.{number_at};
ghost use Rattle.pcm_image.specs.Giving.{Gives, cursor};
ghost use Rattle.large_image.specs.Spelling.{are_zero, end_mark};
ghost use Rattle.large_reader.specs.Reading.{row_at, rows_at};
ghost use Rattle.large_reader.specs.Rows.{AreListed, all_rows, listed};
ghost use Rattle.large_reader.specs.Giving.{end_of, is_next, no_row};

use crate::image::LargeRow;
use cell_rows::Cells;
use large_image::{END_MARK, are_zero};
use pcm_image::fields::{Fields, bad, u32_at};
use pcm_image::{ImageKind, ReadImage};
use std::alloc::Global;

// Whether a number is the mark, or a line from this one on and below that one.
fn may_follow(number: u32, least: u32, count: u32) -> bool
    ensures { result ≡ is_next least count number }
{
    number == END_MARK || least <= number && number < count
}

// The number of the next array line, from this one on and below that one; or the mark.
fn line_at<'a>(fields: Fields<'a>, least: u32, count: u32) -> Result<(u32, Fields<'a>), ReadImage>
    requires { fields.at < 2 ^ 31 }
    ensures gives { Gives (λ x. (x.0, cursor x.1)) result
        (number_at w32 kind.Line (is_next least count) (cursor fields.entry)) }
    ensures at { IfOk result (λ x. x.1.at ≡ fields.entry.at + 4) }
    ensures within { IfOk result (λ x. IsTrue (is_next least count x.0)) }
{
    let (number, rest) = u32_at(fields)?;
    if !may_follow(number, least, count) {
        return Err(bad(&fields, ImageKind::Line));
    }
    Ok((number, rest))
}

// Whether no cell is 1.
fn is_blank<const B: usize, const M: usize>(row: &Cells<B, M>) -> bool
    ensures { result ≡ are_zero (cells_bytes row.now) }
{
    are_zero(&row.bits) && are_zero(&row.meta)
}

// The cells of an array line, of which one is 1.
#[tactic(auto, unfolding(pcm_image::specs::Reading::cells_at))]
fn row_of<'a, const B: usize, const M: usize>(
    fields: Fields<'a>,
) -> Result<(Cells<B, M>, Fields<'a>), ReadImage>
    requires at { fields.at < 2 ^ 31 }
    requires few { B ≤ 128 }
    requires checks { M ≤ 16 }
    ensures gives { Gives (λ x. (x.0, cursor x.1)) result (row_at B M (cursor fields.entry)) }
    ensures full { IfOk result (λ x. IsFalse (are_zero (cells_bytes x.0))) }
{
    let (row, rest) = match pcm_image::row_at(fields) {
        Ok(read) => read,
        Err(error) => return Err(error),
    };
    if is_blank(&row) {
        return Err(bad(&fields, ImageKind::Line));
    }
    Ok((row, rest))
}

/// The array lines that are listed, of so many.
pub(crate) fn rows_of<'a, const B: usize, const M: usize>(
    alloc: Global,
    fields: Fields<'a>,
    count: u32,
) -> Result<(Vec<LargeRow<B, M>>, Fields<'a>), ReadImage>
    requires end { end_of (cursor fields) < 2 ^ 31 }
    requires count { count < end_mark }
    requires few { B ≤ 128 }
    requires checks { M ≤ 16 }
    ensures gives { Gives (λ x. (all_rows count x.0.items, cursor x.1)) result
        (rows_at B M 0 count (cursor fields.entry)) }
    ensures listed { IfOk result (λ x. AreListed 0 count x.0.items) }
{
    let mut rows = Vec::new(alloc);
    let mut rest = fields;
    let mut least = 0;
    loop {
        let (line, behind) = line_at(rest, least, count)?;
        if line == END_MARK {
            return Ok((rows, behind));
        }
        let (cells, after) = match row_of(behind) {
            Ok(read) => read,
            Err(error) => return Err(error),
        };
        rows.push(LargeRow { line, cells })?;
        rest = after;
        least = line + 1;
    }
}

// How many of the rows are of lower array lines than this one.
fn place_of<const B: usize, const M: usize>(rows: &[LargeRow<B, M>], line: u32) -> usize
    requires { (count : ℕ) × AreListed 0 count rows.now }
    ensures within { result ≤ length rows.now }
    ensures below { (k : ℕ) → k < result
        → (slice_index_or rows.now k (no_row B M)).line < line }
    ensures above { (k : ℕ) → result ≤ k → k < length rows.now
        → line ≤ (slice_index_or rows.now k (no_row B M)).line }
{
    let mut low = 0;
    let mut high = rows.len();
    while low < high {
        let middle = low + (high - low) / 2;
        if rows[middle].line < line {
            low = middle + 1;
        } else {
            high = middle;
        }
    }
    low
}

/// The cells of an array line: those that are listed, or else all 0.
pub(crate) fn cells_of<const B: usize, const M: usize>(
    rows: &[LargeRow<B, M>],
    line: u32,
) -> Cells<B, M>
    requires { (count : ℕ) × AreListed 0 count rows.now }
    ensures { result ≡ listed rows.now line }
{
    let place = place_of(rows, line);
    if place < rows.len() && rows[place].line == line {
        rows[place].cells
    } else {
        Cells::zero()
    }
}
