//! Decimal numbers, as traces and options write them.
ghost use Rattle.std.specs.Prelude.{◌≡◌, ◌<◌, ◌≤◌, length};
ghost use Rattle.trace_reader.specs.Number.{number_of};

// The value of so many digits is below 2 to the power 64.
const FEW_DIGITS: usize = 19;

/// The number that a text writes: 1 to `width` digits, leading zeros allowed and nothing else, of a value up to `most`.
pub fn number(text: &[u8], width: usize, most: u64) -> Option<u64>
    ensures { result ≡ number_of width most text.now }
{
    if text.is_empty() || width < text.len() {
        return None;
    }
    if text.len() <= FEW_DIGITS {
        short_number(text, width, most)
    } else {
        long_number(text, width, most)
    }
}

// The same of a text of few characters: no value of its digits is too great to go on.
fn short_number(text: &[u8], width: usize, most: u64) -> Option<u64>
    requires some { 0 < length text.now }
    requires fits { length text.now ≤ width }
    requires few { length text.now ≤ FEW_DIGITS }
    ensures { result ≡ number_of width most text.now }
{
    let mut value: u64 = 0;
    for digit in text {
        if !digit.is_ascii_digit() {
            return None;
        }
        value = value * 10 + u64::from(*digit - b'0');
    }
    if value <= most { Some(value) } else { None }
}

// The same of any other text.
fn long_number(text: &[u8], width: usize, most: u64) -> Option<u64>
    requires some { 0 < length text.now }
    requires fits { length text.now ≤ width }
    ensures { result ≡ number_of width most text.now }
{
    let mut value: u64 = 0;
    for digit in text {
        if !digit.is_ascii_digit() {
            return None;
        }
        value = value
            .checked_mul(10)?
            .checked_add(u64::from(*digit - b'0'))?;
    }
    if value <= most { Some(value) } else { None }
}
