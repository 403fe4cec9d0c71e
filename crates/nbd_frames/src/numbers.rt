// Numbers in bytes, the highest byte first.
ghost use Rattle.std.specs.Prelude.{◌≡◌, ◌+◌, ◌≤◌, length};
ghost use Rattle.nbd_frames.specs.Numbers.{two_at, four_at, eight_at};

// The number that two bytes are, from a place on.
pub(crate) fn two_at(bytes: &[u8], at: usize) -> u16
    requires { at + 2 ≤ length bytes.now }
    ensures { result ≡ two_at bytes.now at }
{
    let piece = &bytes[at..at + 2];
    u16::from_be_bytes([piece[0], piece[1]])
}

// The number that four are.
pub(crate) fn four_at(bytes: &[u8], at: usize) -> u32
    requires { at + 4 ≤ length bytes.now }
    ensures { result ≡ four_at bytes.now at }
{
    let piece = &bytes[at..at + 4];
    u32::from_be_bytes([piece[0], piece[1], piece[2], piece[3]])
}

// The number that eight are.
pub(crate) fn eight_at(bytes: &[u8], at: usize) -> u64
    requires { at + 8 ≤ length bytes.now }
    ensures { result ≡ eight_at bytes.now at }
{
    let piece = &bytes[at..at + 8];
    u64::from_be_bytes([
        piece[0], piece[1], piece[2], piece[3], piece[4], piece[5], piece[6], piece[7],
    ])
}
