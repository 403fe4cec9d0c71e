//! A bank's registers kept in lines of its array: one line for each item, and one change that is being written.
#![tactic(auto)]

ghost use Rattle.std.specs.Prelude.{◌≡◌, ◌+◌, ◌≤◌};
ghost use Rattle.reg_lines.specs.Values.{encoded, values_in, value_at};

pub mod regs;

/// An item with its new values.
#[derive(Clone, Copy)]
pub struct Change {
    pub item: u32,
    pub values: [u32; 3],
}

/// The bytes of a line that holds these values.
pub fn encode<const B: usize>(values: &[u32; 3]) -> [u8; B]
    requires room { 16 ≤ B }
    requires few { B ≤ 128 }
    ensures { result ≡ encoded B values.now }
{
    let mut bytes = [0; B];
    let line = &mut bytes[..];
    line[..4].copy_from_slice(&values[0].to_le_bytes());
    line[4..8].copy_from_slice(&values[1].to_le_bytes());
    line[8..12].copy_from_slice(&values[2].to_le_bytes());
    bytes
}

/// The values that a line holds.
pub fn values_of<const B: usize>(bytes: &[u8; B]) -> [u32; 3]
    requires { 16 ≤ B }
    ensures { result ≡ values_in bytes.now }
{
    [value_at(bytes, 0), value_at(bytes, 4), value_at(bytes, 8)]
}

// The number whose lowest byte stands at an index.
fn value_at<const B: usize>(bytes: &[u8; B], index: usize) -> u32
    requires { index + 4 ≤ B }
    ensures { result ≡ value_at bytes.now index }
{
    u32::from_le_bytes([
        bytes[index],
        bytes[index + 1],
        bytes[index + 2],
        bytes[index + 3],
    ])
}
