// The layout of a line's entries, and the reading of a line.
ghost use Rattle.std.specs.Prelude.{◌≡◌, ℕ, ◌+◌, ◌-◌, ◌*◌, ◌<◌, ◌≤◌, true, false, IfSome, IfNone, nat_lt};
ghost use Rattle.cell_rows.specs.Rows.{bit_of, cell, xor};
ghost use Rattle.ecp_line.specs.Layout.{IsLayout, IsWanted, WantsZeros, IsLowest, width, pointer_cell, replacement_cell, full_cell, activity_cell, pointer, active, source, source_below, decoded, is_later, is_pointer_cell, is_entry_cell, switch_cell};
ghost use Rattle.ecp_line.specs.Reading.{decode};

use crate::lowest;
use crate::mask::{are_bytes, with_data};
use cell_rows::Cells;

/// A line of `B` data bytes and `M` check bytes with `E` entries, each of a pointer and a replacement cell.
/// Error-Correcting Pointers, Schechter et al., ISCA 2010.
pub struct Ecp<const B: usize, const M: usize, const E: usize>;

impl<const B: usize, const M: usize, const E: usize> Ecp<B, M, E> {
    // The number of pointer cells of an entry.
    fn width() -> u16
        requires { IsLayout B M E }
        ensures { result ≡ width B }
    {
        (8 * B).trailing_zeros() as u16
    }

    fn pointer_cell(entry: u8) -> u16
        requires layout { IsLayout B M E }
        requires exists { entry ≤ E }
        ensures { result ≡ pointer_cell B entry }
    {
        8 * B as u16 + entry as u16 * (Self::width() + 1)
    }

    fn replacement_cell(entry: u8) -> u16
        requires layout { IsLayout B M E }
        requires exists { entry < E }
        ensures { result ≡ replacement_cell B entry }
    {
        Self::pointer_cell(entry) + Self::width()
    }

    // The bit to which the entry points.
    fn pointer_of(cells: &Cells<B, M>, entry: u8) -> u16
        requires layout { IsLayout B M E }
        requires exists { entry < E }
        ensures points { result ≡ pointer B (cell cells.now) entry }
        ensures within { result < 8 * B }
    {
        let first = Self::pointer_cell(entry);
        let mut bit = 0;
        for digit in 0..Self::width() {
            if cells.get(first + digit) {
                bit += 1u16 << digit;
            }
        }
        bit
    }

    /// The number of entries that count, from 0 to `E`.
    pub fn active(cells: &Cells<B, M>) -> u8
        requires { IsLayout B M E }
        ensures count { result ≡ active B E (cell cells.now) }
        ensures within { result ≤ E }
    {
        if cells.get(Self::pointer_cell(E as u8)) {
            return E as u8;
        }
        let first = Self::pointer_cell(E as u8 - 1);
        for entry in 0..E as u8 - 1 {
            if !cells.get(first + entry as u16) {
                return entry;
            }
        }
        E as u8 - 1
    }

    // The source of the bit if the first `entries` entries count.
    fn source_below(cells: &Cells<B, M>, bit: u16, entries: u8) -> u16
        requires layout { IsLayout B M E }
        requires exist { entries ≤ E }
        ensures is { result ≡ source_below B (cell cells.now) bit entries }
        ensures within { bit < 8 * B → result < 8 * (B + M) }
    {
        let mut source = bit;
        for entry in 0..entries {
            if Self::pointer_of(cells, entry) == bit {
                source = Self::replacement_cell(entry);
            }
        }
        source
    }

    /// The cell from which the bit is read: the replacement cell of the last active entry that points to it, else its data cell.
    pub fn source_of(cells: &Cells<B, M>, bit: u16) -> u16
        requires { IsLayout B M E }
        ensures { result ≡ source B E (cell cells.now) bit }
    {
        Self::source_below(cells, bit, Self::active(cells))
    }

    // The row with each data cell as its bit is read.
    fn corrected(cells: &Cells<B, M>) -> Cells<B, M>
        requires { IsLayout B M E }
        ensures cells { (x : ℕ) → x < 8 * B → cell result x ≡ decoded B E (cell cells.now) x }
        ensures bits { (x : ℕ) → x < 8 * B → bit_of result.bits x ≡ decoded B E (cell cells.now) x }
        ensures bytes { result.bits ≡ decode E cells.now }
    {
        let mut row = *cells;
        for entry in 0..Self::active(cells) {
            let bit = Self::pointer_of(cells, entry);
            row.set(bit, cells.get(Self::replacement_cell(entry)));
        }
        are_bytes(&row.bits);
        row
    }

    /// What the line is read as: the data bytes, corrected at the bits to which active entries point.
    pub fn decode(cells: &Cells<B, M>) -> [u8; B]
        requires { IsLayout B M E }
        ensures bits { (x : ℕ) → x < 8 * B → bit_of result x ≡ decoded B E (cell cells.now) x }
        ensures bytes { result ≡ decode E cells.now }
    {
        Self::corrected(cells).bits
    }

    /// The cells as they have to be for the line to be read as the bytes, and the mask of the sources of all bits.
    pub fn wanted(cells: &Cells<B, M>, bytes: &[u8; B]) -> (Cells<B, M>, Cells<B, M>)
        requires { IsLayout B M E }
        ensures { let f = cell cells.now in
            IsWanted B (active B E f) f bytes.now (cell result.0) (cell result.1) }
    {
        let given = with_data(cells, bytes);
        let mut want = given;
        let mut mask = Cells {
            bits: [0xff; B],
            meta: [0; M],
        };
        for entry in 0..Self::active(cells) {
            let bit = Self::pointer_of(cells, entry);
            let passed = Self::source_below(cells, bit, entry);
            let source = Self::replacement_cell(entry);
            want.set(passed, cells.get(passed));
            mask.set(passed, false);
            want.set(source, given.get(bit));
            mask.set(source, true);
        }
        (want, mask)
    }

    /// The lowest bit that is not read as in the bytes. Whole bytes are compared first.
    pub fn wrong(cells: &Cells<B, M>, bytes: &[u8; B]) -> Option<u16>
        requires { IsLayout B M E }
        ensures some { IfSome result (λ x. (x < 8 * B)
            × IsLowest (λ y. xor (decoded B E (cell cells.now) y) (bit_of bytes.now y)) x) }
        ensures none { IfNone result (decode E cells.now ≡ bytes.now) }
        ensures right { IfNone result ((x : ℕ) → x < 8 * B
            → decoded B E (cell cells.now) x ≡ bit_of bytes.now x) }
    {
        let read = Self::corrected(cells);
        let given = with_data(&read, bytes);
        lowest(&read.differ(&given))
    }

    /// The activity cells behind the first that is 0, wanted at 0: none where every entry is active.
    pub fn later(cells: &Cells<B, M>) -> (Cells<B, M>, Cells<B, M>)
        requires { IsLayout B M E }
        ensures { let f = cell cells.now in WantsZeros f (is_later B E f) (cell result.0)
            (cell result.1) }
    {
        let mut want = *cells;
        let mut mask = Cells::zero();
        let first = Self::pointer_cell(E as u8 - 1);
        for number in Self::active(cells) + 1..E as u8 - 1 {
            want.set(first + number as u16, false);
            mask.set(first + number as u16, true);
        }
        (want, mask)
    }

    /// The pointer cells of the entry, wanted so that it points to the bit; and their mask.
    pub fn pointer(cells: &Cells<B, M>, entry: u8, bit: u16) -> (Cells<B, M>, Cells<B, M>)
        requires layout { IsLayout B M E }
        requires exists { entry < E }
        requires data { bit < 8 * B }
        ensures points { pointer B (cell result.0) entry ≡ bit }
        ensures mask { (n : ℕ) → cell result.1 n ≡ is_pointer_cell B entry n }
        ensures others { (n : ℕ) → cell result.1 n ≡ false → cell result.0 n ≡ cell cells.now n }
    {
        let mut want = *cells;
        let mut mask = Cells::zero();
        let first = Self::pointer_cell(entry);
        for digit in 0..Self::width() {
            want.set(first + digit, bit >> digit & 1 == 1);
            mask.set(first + digit, true);
        }
        (want, mask)
    }

    /// The cell that makes the entry active: an activity cell, or the cell `full` for the last entry.
    pub fn switch(entry: u8) -> u16
        requires layout { IsLayout B M E }
        requires exists { entry < E }
        ensures { result ≡ switch_cell B E entry }
    {
        if entry as usize == E - 1 {
            Self::pointer_cell(E as u8)
        } else {
            Self::pointer_cell(E as u8 - 1) + entry as u16
        }
    }

    /// The mask of the entry's pointer cells and of its replacement cell.
    pub fn entry_cells(entry: u8) -> Cells<B, M>
        requires layout { IsLayout B M E }
        requires exists { entry < E }
        ensures { (n : ℕ) → cell result n ≡ is_entry_cell B entry n }
    {
        let mut mask = Cells::zero();
        let first = Self::pointer_cell(entry);
        for digit in 0..Self::width() + 1 {
            mask.set(first + digit, true);
        }
        mask
    }
}
