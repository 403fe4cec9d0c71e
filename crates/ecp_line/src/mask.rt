// The lowest cell of a mask.
ghost use Rattle.std.specs.Prelude.{◌≡◌, ℕ, ◌+◌, ◌*◌, ◌<◌, ◌≤◌, true, false, length, IfSome, IfNone, slice_index};
ghost use Rattle.cell_rows.specs.Rows.{bit_of, cell};
ghost use Rattle.cell_rows.specs.Shape.{IsShape};
ghost use Rattle.ecp_line.specs.Layout.{IsLowest};

use cell_rows::Cells;

// Says of a slice what its type says of each byte, for the contracts of values that are made of it.
pub(crate) fn are_bytes(bytes: &[u8])
    ensures { (k : ℕ) → slice_index bytes.now k < 256 }
{}

fn lowest_bit(bytes: &[u8]) -> Option<u16>
    requires { length bytes.now ≤ 128 }
    ensures found { IfSome result (λ n. (n < 8 * length bytes.now)
        × IsLowest (bit_of bytes.now) n) }
    ensures none { IfNone result ((n : ℕ) → bit_of bytes.now n ≡ false) }
{
    for (index, byte) in bytes.iter().enumerate() {
        if *byte != 0 {
            return Some(8 * index as u16 + byte.trailing_zeros() as u16);
        }
    }
    None
}

/// The lowest cell that is 1, looked for byte by byte.
pub fn lowest<const B: usize, const M: usize>(row: &Cells<B, M>) -> Option<u16>
    requires { IsShape B M }
    ensures found { IfSome result (λ n. (n < 8 * (B + M)) × IsLowest (cell row.now) n) }
    ensures none { IfNone result ((n : ℕ) → cell row.now n ≡ false) }
{
    if row.is_none() {
        return None;
    }
    let Some(index) = lowest_bit(&row.bits) else {
        return match lowest_bit(&row.meta) {
            Some(index) => Some(8 * B as u16 + index),
            None => None,
        };
    };
    Some(index)
}

// The row with these data bytes.
pub(crate) fn with_data<const B: usize, const M: usize>(
    row: &Cells<B, M>,
    bytes: &[u8; B],
) -> Cells<B, M>
    ensures data { (n : ℕ) → n < 8 * B → cell result n ≡ bit_of bytes.now n }
    ensures check { (n : ℕ) → 8 * B ≤ n → cell result n ≡ cell row.now n }
    ensures bytes { result.bits ≡ bytes.now }
{
    let mut result = *row;
    result.bits.copy_from_slice(bytes);
    result
}
