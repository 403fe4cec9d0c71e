ghost use Rattle.std.specs.Prelude.{◌≤◌};

use crate::expected::{assert_made, assert_text};
use pcm_io::Text;
use std::alloc::{AllocError, Global};
use std::process::Abort;
use std::test::Fail;

// What the bytes from 0 to 255 are written as: all pairs of digits, in order.
fn all_pairs(alloc: Global) -> Result<Vec<u8>, AllocError> {
    let mut pairs = Vec::new(alloc);
    for high in b"0123456789abcdef" {
        for low in b"0123456789abcdef" {
            pairs.extend_from_slice(&[*high, *low])?;
        }
    }
    Ok(pairs)
}

// The digits of the `B` bytes from this one on.
fn digits<const B: usize>(alloc: Global, first: usize) -> Result<Text, AllocError>
    requires size { B ≤ 128 }
    requires byte { first ≤ 255 }
{
    let mut bytes = [0; B];
    for i in 0..B {
        bytes[i] = ((first + i) % 256) as u8;
    }
    let mut text = Text::new(alloc, 2 * B)?;
    text.push_hex(&bytes);
    Ok(text)
}

// Compares them with the pairs of these bytes.
fn assert_digits<const B: usize>(rt: &impl Abort, alloc: Global, pairs: &[u8], first: usize)
    requires size { B ≤ 128 }
    requires byte { first ≤ 255 }
{
    let wanted = pairs.get(2 * first..2 * (first + B)).unwrap_or(b"");
    assert_made(rt, digits::<B>(alloc, first), wanted);
}

// Some bytes behind a text.
fn some(alloc: Global) -> Result<Text, AllocError> {
    let mut text = Text::new(alloc, 16)?;
    text.push(b"3,");
    text.push_hex(&[0, 9, 10, 15, 16, 154, 255]);
    Ok(text)
}

#[test]
fn bytes_have_two_digits_each(rt: HostRuntime) -> Result<(), Fail> {
    assert_made(&rt, some(rt.alloc()), b"3,00090a0f109aff");
    let pairs = all_pairs(rt.alloc())?;
    let pairs = pairs.as_slice();
    assert_digits::<1>(&rt, rt.alloc(), pairs, 159);
    assert_digits::<7>(&rt, rt.alloc(), pairs, 249);
    assert_digits::<8>(&rt, rt.alloc(), pairs, 7);
    assert_digits::<9>(&rt, rt.alloc(), pairs, 25);
    assert_digits::<64>(&rt, rt.alloc(), pairs, 96);
    Ok(())
}

#[test]
fn each_byte_is_written_as_its_pair(rt: HostRuntime) -> Result<(), Fail> {
    let pairs = all_pairs(rt.alloc())?;
    assert_digits::<128>(&rt, rt.alloc(), pairs.as_slice(), 0);
    assert_digits::<128>(&rt, rt.alloc(), pairs.as_slice(), 128);
    Ok(())
}
