// Blocks of 64 cells, each as the bits of a number, the lowest bit first.
ghost use Rattle.std.specs.Prelude.{◌≡◌, ◌≢◌, ℕ, ◌+◌, ◌-◌, ◌*◌, ◌%◌, ◌^◌, ◌<◌, ◌≤◌, ◌&&◌, true, false, not, bit_and, bit_xor, nat_eq, nat_le, IsTrue, if◌then◌else◌, slice_index};
ghost use Rattle.seeded_lines.specs.Planes.{bit_in, number_of};

/// Of each cell that is in the mask the wanted bit, and of each other one the bit as it is: of a block of 64 cells, the lowest bit first.
pub fn chosen(bits: u64, mask: u64, want: u64) -> u64
    ensures is { result ≡ bit_xor bits (bit_and (bit_xor bits want) mask) }
    ensures bits { (i : ℕ) → bit_in result i ≡ (if bit_in mask i then bit_in want i
        else bit_in bits i) }
{
    bits ^ (bits ^ want) & mask
}

// The bits that the other number lacks.
pub(crate) fn without(bits: u64, other: u64) -> u64
    ensures { (i : ℕ) → bit_in result i ≡ not (bit_in other i) && bit_in bits i }
{
    bits ^ bits & other
}

// The cells that a pulse reaches, or a tear, which reaches those of even number alone.
pub(crate) fn reached(tearing: bool, bits: u64) -> u64
    ensures { (i : ℕ) → i < 64 → bit_in result i ≡ not (tearing && nat_eq (i % 2) 1)
        && bit_in bits i }
{
    if tearing {
        bits & 0x5555_5555_5555_5555
    } else {
        bits
    }
}

// The number with this bit too, if the value is true.
fn joined(bits: u64, index: u32, value: bool) -> u64
    requires { index < 64 }
    ensures is { bit_in bits index ≡ false → bit_in result index ≡ value }
    ensures kept { (i : ℕ) → i ≢ index → bit_in result i ≡ bit_in bits i }
{
    if value { bits | 1 << index } else { bits }
}

// The number without this bit, which it has.
fn cleared(bits: u64, index: u32) -> u64
    requires fits { index < 64 }
    requires has { bit_in bits index ≡ true }
    ensures is { bit_in result index ≡ false }
    ensures kept { (i : ℕ) → i < 64 → i ≢ index → bit_in result i ≡ bit_in bits i }
    ensures less { result < bits }
{
    bits & !(1 << index)
}

// Takes one from each count that is in the mask, and answers those of them that were at most one.
pub(crate) fn spend(left: &mut [u32; 64], mask: u64) -> u64
    ensures last { (i : ℕ) → i < 64 → bit_in result i ≡ bit_in mask i
        && nat_le (slice_index left.old i) 1 }
    ensures here { (i : ℕ) → i < 64 → slice_index left.new i
        ≡ (if bit_in mask i then slice_index left.old i - 1 else slice_index left.old i) }
{
    let mut last = 0;
    let mut rest = mask;
    while rest != 0 {
        let index = rest.trailing_zeros();
        let count = &mut left[index as usize];
        last = joined(last, index, *count <= 1);
        *count = count.saturating_sub(1);
        rest = cleared(rest, index);
    }
    last
}

// Whether the number has the digit 0 at an index.
fn lacks(bits: u64, index: u32) -> bool
    requires { index < 64 }
    ensures { result ≡ not (bit_in bits index) }
{
    bits >> index & 1 == 0
}

// Whether each count is at least eight.
fn are_all_many(left: &[u32; 64]) -> bool
    ensures { IsTrue result → (i : ℕ) → i < 64 → 8 ≤ slice_index left.now i }
{
    let mut few = false;
    for index in 0..64 {
        few |= left[index] < 8;
    }
    !few
}

// Whether each count is at least eight that isn't in the mask.
pub(crate) fn are_many(left: &[u32; 64], mask: u64) -> bool
    ensures { IsTrue result → (i : ℕ) → i < 64 → bit_in mask i ≡ false
        → 8 ≤ slice_index left.now i }
{
    if are_all_many(left) {
        return true;
    }
    let mut few = false;
    for index in 0..64 {
        few |= (left[index as usize] < 8) & lacks(mask, index);
    }
    !few
}

// At each number up to 7 its binary digits, the lowest in bit 0, the next in bit 8, the last in bit 16.
const SPREAD: [u32; 8] = [0, 1, 0x100, 0x101, 0x10000, 0x10001, 0x10100, 0x10101];

// What a word makes of its cell, at bits 0, 8 and 16 the digits of its limit, and at bit 24 the value that it sticks at.
pub(crate) fn life(limit: u8, word: u64) -> u32
    requires { limit ≤ 7 }
    ensures limit { number_of (bit_in result 0) (bit_in result 8) (bit_in result 16) ≡ limit }
    ensures end { bit_in result 24 ≡ bit_in word 63 }
    ensures apart { (i : ℕ) → i % 8 ≢ 0 → bit_in result i ≡ false }
    ensures small { result < 2 ^ 25 }
{
    SPREAD[limit as usize] | ((word >> 63) as u32) << 24
}

// The planes of a group of eight with the life of one cell more.
pub(crate) fn with_life(planes: u32, index: usize, life: u32) -> u32
    requires fits { index < 8 }
    requires small { life < 2 ^ 25 }
    requires apart { (i : ℕ) → i % 8 ≢ 0 → bit_in life i ≡ false }
    ensures here { (p : ℕ) → bit_in planes (8 * p + index) ≡ false
        → bit_in result (8 * p + index) ≡ bit_in life (8 * p) }
    ensures kept { (i : ℕ) → i % 8 ≢ index → bit_in result i ≡ bit_in planes i }
{
    planes | life << index
}

// A byte of a number, the lowest being byte 0.
pub(crate) fn byte_at(planes: u32, index: u32) -> u8
    requires { index < 4 }
    ensures { (i : ℕ) → i < 8 → bit_in result i ≡ bit_in planes (8 * index + i) }
{
    (planes >> (8 * index) & 0xff) as u8
}
