//! Numbers as results have them: without leading zeros.
ghost use Rattle.std.specs.Prelude.{◌≡◌, ◌≢◌, ◌^◌, ◌<◌, ◌≤◌, ◌↔◌, ℕ, Option, length, slice_index, IsTrue, IfSome, IfNone, decimal};
ghost use Rattle.std.specs.Option.{ForSome};
ghost use Rattle.result_rows.specs.RowText.{decimal_or_empty};
ghost use Rattle.check_reader.specs.ResultRows.{IsPlace};

use trace_reader::number;

/// The greatest number of an array line.
const LAST_PLACE: u64 = 98_831;

// Whether a text begins with a zero that isn't all of it.
fn has_leading_zero(text: &[u8]) -> bool
    ensures { IsTrue result ↔ ((1 < length text.now) × (slice_index text.now 0 ≡ 48)) }
{
    text.len() > 1 && text[0] == b'0'
}

/// The number up to `most` that a text is, as it is printed.
pub fn read_number(text: &[u8], most: u64) -> Option<u64>
    ensures some { IfSome result (λ n. (n ≤ most) × (text.now ≡ decimal n)) }
    ensures none { IfNone result ((n : ℕ) → n ≤ most → text.now ≢ decimal n) }
{
    if has_leading_zero(text) {
        return None;
    }
    number(text, 20, most)
}

/// Whether a text is this number, as it is printed.
pub fn is_number(text: &[u8], value: u64) -> bool
    ensures { IsTrue result ↔ (text.now ≡ decimal value) }
{
    match read_number(text, u64::MAX) {
        Some(number) => number == value,
        None => false,
    }
}

/// The place that a text is, or none where the text is empty.
pub fn read_place(text: &[u8]) -> Option<Option<u32>>
    ensures some { IfSome result (λ place. ForSome place IsPlace
        × (text.now ≡ decimal_or_empty place)) }
    ensures none { IfNone result ((place : Option ℕ) → ForSome place IsPlace
        → text.now ≢ decimal_or_empty place) }
{
    if text.is_empty() {
        return Some(None);
    }
    let place = read_number(text, LAST_PLACE)?;
    Some(Some(place as u32))
}
