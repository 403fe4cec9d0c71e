//! The bytes that a read answered, in lower-case hexadecimal digits.
ghost use Rattle.std.specs.Prelude.{◌≡◌, ◌≢◌, ◌*◌, ◌≤◌, ◌↔◌, ℕ, List, Option, length, IsTrue, IfSome, IfNone};
ghost use Rattle.std.specs.Option.{ForSome};
ghost use Rattle.hex.specs.Hex.{IsBytes, encode_lower};
ghost use Rattle.result_rows.specs.RowText.{hex_or_empty};
ghost use Rattle.check_reader.specs.ResultRows.{AreBytes};

use crate::fields::is_same;

// The bytes that these digits are, as they are printed.
fn read_bytes<const B: usize>(digits: &[u8]) -> Option<[u8; B]>
    requires size { B ≤ 128 }
    ensures some { IfSome result (λ bytes. AreBytes B bytes × (digits.now ≡ encode_lower bytes)) }
    ensures none { IfNone result ((bytes : List ℕ) → AreBytes B bytes
        → digits.now ≢ encode_lower bytes) }
{
    let mut bytes = [0; B];
    hex::decode_to_slice(digits, &mut bytes).ok()?;
    if is_printed(bytes.as_slice(), digits) {
        Some(bytes)
    } else {
        None
    }
}

// Whether these digits are what is printed for the bytes: their letters are lower case.
fn is_printed(bytes: &[u8], digits: &[u8]) -> bool
    requires size { length bytes.now ≤ 128 }
    ensures are { IsBytes bytes.now }
    ensures printed { IsTrue result ↔ (digits.now ≡ encode_lower bytes.now) }
{
    let mut printed = [0; 256];
    let length = 2 * bytes.len();
    let Ok(()) = hex::encode_to_slice(bytes, &mut printed[..length]) else {
        unreachable!()
    };
    is_same(digits, &printed[..length])
}

/// The bytes that a row has, or none where it has no digits.
pub fn read_digits<const B: usize>(digits: &[u8]) -> Option<Option<[u8; B]>>
    requires some_size { 1 ≤ B }
    requires size { B ≤ 128 }
    ensures some { IfSome result (λ bytes. ForSome bytes (AreBytes B)
        × (digits.now ≡ hex_or_empty bytes)) }
    ensures none { IfNone result ((bytes : Option (List ℕ)) → ForSome bytes (AreBytes B)
        → digits.now ≢ hex_or_empty bytes) }
{
    if digits.is_empty() {
        return Some(None);
    }
    let bytes = read_bytes(digits)?;
    Some(Some(bytes))
}
