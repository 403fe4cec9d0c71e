//! The fields of a row.
ghost use Rattle.std.specs.Prelude.{◌≡◌, ◌↔◌, IsTrue, option_map};
ghost use Rattle.check_reader.specs.Fields.{cut_at, fields_of, seen};

use memchr::memchr;

/// The seven fields of a row, as bytes, and the bytes behind the row.
#[derive(Clone, Copy)]
pub struct ResultFields<'a> {
    pub number: &'a [u8],
    pub letter: &'a [u8],
    pub line: &'a [u8],
    pub word: &'a [u8],
    pub tick: &'a [u8],
    pub place: &'a [u8],
    pub digits: &'a [u8],
    pub rest: &'a [u8],
}

/// Whether two texts are the same.
pub fn is_same(text: &[u8], other: &[u8]) -> bool
    ensures { IsTrue result ↔ (text.now ≡ other.now) }
{
    text == other
}

// The bytes before the first that is this one, and those behind it.
fn cut(bytes: &[u8], end: u8) -> Option<(&[u8], &[u8])>
    ensures { option_map (λ cut. (cut.0.now, cut.1.now)) result ≡ cut_at end bytes.now }
{
    let at = memchr(end, bytes)?;
    Some((&bytes[..at], &bytes[at + 1..]))
}

/// The fields of the first row, if it has seven.
#[tactic(auto, unfolding(crate::specs::Fields::fields_of))]
pub fn split_row(bytes: &[u8]) -> Option<ResultFields<'_>>
    ensures { option_map seen result ≡ fields_of bytes.now }
{
    let (number, rest) = cut(bytes, b',')?;
    let (letter, rest) = cut(rest, b',')?;
    let (line, rest) = cut(rest, b',')?;
    let (word, rest) = cut(rest, b',')?;
    let (tick, rest) = cut(rest, b',')?;
    let (place, rest) = cut(rest, b',')?;
    let (digits, rest) = cut(rest, b'\n')?;
    Some(ResultFields {
        number,
        letter,
        line,
        word,
        tick,
        place,
        digits,
        rest,
    })
}
