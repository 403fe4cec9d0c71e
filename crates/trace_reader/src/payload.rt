//! The bytes that a write gives, as hexadecimal digits.
ghost use Rattle.std.specs.Prelude.{◌≡◌, ◌*◌, length, true, false, Some, None, option_map};
ghost use Rattle.std.specs.List.{list_any};
ghost use Rattle.std.specs.Result.{result_ok};
ghost use Rattle.trace_reader.specs.Payload.{bytes_of, value_of, pair_of, masked_of, Masked};

use crate::digits::{BYTES, are_digits, bytes_of_values, values_at};
use hex::FromHexError;

/// Bytes of which some are given; the others are 0.
#[derive(Clone, Copy)]
pub struct MaskedBytes<const B: usize> {
    pub bytes: [u8; B],
    pub given: [bool; B],
}

// The value of a digit, 255 of any other character.
#[tactic(auto, using(crate::proofs::Table::value_of_digit))]
fn value(character: u8) -> u8
    ensures { result ≡ value_of character }
{
    match character {
        b'A'..=b'F' => character - 55,
        b'a'..=b'f' => character - 87,
        b'0'..=b'9' => character - 48,
        _ => 255,
    }
}

// Reads two digits for each byte, by lanes as long as enough are left, and says whether all were digits.
#[inline(always)]
fn read_digits(text: &[u8], bytes: &mut [u8]) -> bool
    requires { length text.now ≡ 2 * length bytes.old }
    ensures length { length bytes.new ≡ length bytes.old }
    ensures read { result ≡ true → bytes_of (length bytes.old) text.now ≡ Some bytes.new }
    ensures bad { result ≡ false → bytes_of (length bytes.old) text.now ≡ None }
{
    let mut done = 0;
    'by_lanes: while bytes.len() - done >= BYTES {
        let values = values_at(text, 2 * done);
        if !are_digits(values) {
            return false;
        }
        bytes_of_values(values).copy_to_slice(&mut bytes[done..]);
        done += BYTES;
    }
    'by_pairs: for i in done..bytes.len() {
        let high = value(text[2 * i]);
        let low = value(text[2 * i + 1]);
        if high > 15 || low > 15 {
            return false;
        }
        bytes[i] = high * 16 + low;
    }
    true
}

/// The `B` bytes that a text of `2 * B` hexadecimal digits of either case writes.
#[inline(always)]
pub fn bytes_from_digits<const B: usize>(text: &[u8]) -> Option<[u8; B]>
    ensures { result ≡ bytes_of B text.now }
{
    if text.len() % 2 != 0 || text.len() / 2 != B {
        return None;
    }
    let mut bytes = [0; B];
    if read_digits(text, &mut bytes) {
        Some(bytes)
    } else {
        None
    }
}

// What two characters say of a byte: `..` that it isn't given, two hexadecimal digits what it is.
#[tactic(auto, unfolding(crate::specs::Payload::pair_of, hex::specs::Hex::decode_pairs))]
fn read_pair(high: u8, low: u8) -> Result<Option<u8>, FromHexError>
    ensures { result_ok result ≡ pair_of high low }
{
    if high == b'.' && low == b'.' {
        return Ok(None);
    }
    let mut byte = [0; 1];
    hex::decode_to_slice([high, low], &mut byte)?;
    Ok(Some(byte[0]))
}

fn gives_some(given: &[bool]) -> bool
    ensures { result ≡ list_any (λ g. g) given.now }
{
    given.iter().any(|g| *g)
}

/// The `B` bytes of which a text of `B` pairs gives at least one: two hexadecimal digits, or `..` for a byte that isn't given.
pub fn bytes_from_pairs<const B: usize>(text: &[u8]) -> Option<MaskedBytes<B>>
    ensures { option_map (λ m. record { bytes = m.bytes; given = m.given }) result
        ≡ masked_of B text.now }
{
    if text.len() % 2 != 0 || text.len() / 2 != B {
        return None;
    }
    let mut bytes = [0; B];
    let mut given = [false; B];
    'pairs: for i in 0..B {
        let byte = read_pair(text[2 * i], text[2 * i + 1]).ok()?;
        bytes[i] = byte.unwrap_or(0);
        given[i] = byte.is_some();
    }
    if gives_some(&given) {
        Some(MaskedBytes { bytes, given })
    } else {
        None
    }
}
