// Texts that grow.
ghost use Rattle.std.specs.Prelude.{◌≡◌, ◌*◌, ◌≤◌, ◌++◌, decimal, IfOk};
ghost use Rattle.hex.specs.Hex.{encode_lower};

use itoa::Buffer;
use std::alloc::AllocError;

/// Puts bytes behind a text.
pub fn say(text: &mut Vec<u8>, words: &[u8]) -> Result<(), AllocError>
    ensures { IfOk result (λ _. text.new.items ≡ text.old.items ++ words.now) }
{
    text.extend_from_slice(words)?;
    Ok(())
}

/// Puts words behind a text, and a number in decimal digits behind them.
pub fn say_number(text: &mut Vec<u8>, words: &[u8], number: u64) -> Result<(), AllocError>
    ensures { IfOk result (λ _. text.new.items ≡ text.old.items ++ words.now ++ decimal number) }
{
    say(text, words)?;
    say(text, Buffer::new().format(number).as_bytes())
}

/// Puts words behind a text, and bytes in lower-case hexadecimal digits behind them.
pub fn say_hex<const B: usize>(
    text: &mut Vec<u8>,
    words: &[u8],
    bytes: &[u8; B],
) -> Result<(), AllocError>
    requires size { B ≤ 128 }
    ensures { IfOk result (λ _. text.new.items
        ≡ text.old.items ++ words.now ++ encode_lower bytes.now) }
{
    say(text, words)?;
    let mut digits = [0; 256];
    let Ok(()) = hex::encode_to_slice(bytes.as_slice(), &mut digits[..2 * B]) else {
        unreachable!()
    };
    say(text, &digits[..2 * B])
}
