// The writers of an image, field by field.
ghost use Rattle.std.specs.Prelude.{◌≡◌, ℕ, ◌+◌, ◌*◌, ◌/◌, ◌^◌, ◌<◌, ◌≤◌, ◌++◌, false, length, slice_index_or};
ghost use Rattle.pcm_io.specs.Reserved.{room_in, appended};
ghost use Rattle.ecp_line.specs.Layout.{number};
ghost use Rattle.pcm_image.specs.Spelling.{u8, u16, u32, u64, packed, head_bytes, region_bytes, entry_bytes, cells_bytes};
ghost use Rattle.pcm_image.specs.Giving.{head_view};

use crate::fields::HeadImage;
use crate::{EntryImage, RegionImage};
use cell_rows::Cells;
use pcm_io::Text;

/// The 24 bytes of a head: the size of its lines, and its other numbers.
pub fn write_head(text: &mut Text, size: u8, head: &HeadImage)
    requires room { 24 ≤ room_in text.old }
    requires lines { head.now.lines < 2 ^ 16 }
    ensures after { text.new ≡ appended text.old (head_bytes size (head_view head.now)) }
    ensures room { room_in text.new + 24 ≡ room_in text.old }
{
    text.push(b"PCMIMG01");
    text.push(&[size, head.banks, head.regions]);
    write_limits(text, head);
}

// The other numbers of a module.
fn write_limits(text: &mut Text, head: &HeadImage)
    requires room { 13 ≤ room_in text.old }
    requires lines { head.now.lines < 2 ^ 16 }
    ensures after { text.new ≡ appended text.old
        (u16 head.now.lines ++ (u16 head.now.spares ++ (u64 head.now.seed ++ u8 head.now.home))) }
    ensures room { room_in text.new + 13 ≡ room_in text.old }
{
    text.push(&(head.lines as u16).to_le_bytes());
    text.push(&head.spares.to_le_bytes());
    text.push(&head.seed.to_le_bytes());
    text.push(&[head.home]);
}

/// The mark of a bank, and how many of its spares are used.
pub fn write_bank(text: &mut Text, mark: u8, used: u16)
    requires { 3 ≤ room_in text.old }
    ensures after { text.new ≡ appended text.old (u8 mark ++ u16 used) }
    ensures room { room_in text.new + 3 ≡ room_in text.old }
{
    text.push(&[mark]);
    text.push(&used.to_le_bytes());
}

/// The slot of a used spare.
pub fn write_slot(text: &mut Text, slot: u32)
    requires { 4 ≤ room_in text.old }
    ensures after { text.new ≡ appended text.old (u32 slot) }
    ensures room { room_in text.new + 4 ≡ room_in text.old }
{
    text.push(&slot.to_le_bytes());
}

/// The registers of a region.
pub fn write_region(text: &mut Text, region: &RegionImage)
    requires room { 6 ≤ room_in text.old }
    requires lines { (region.now.start < 2 ^ 16) × (region.now.gap < 2 ^ 16) }
    ensures after { text.new ≡ appended text.old (region_bytes region.now) }
    ensures room { room_in text.new + 6 ≡ room_in text.old }
{
    text.push(&(region.start as u16).to_le_bytes());
    text.push(&(region.gap as u16).to_le_bytes());
    text.push(&region.counter.to_le_bytes());
}

/// How many writes stand in a bank's queue.
pub fn write_count(text: &mut Text, entries: u16)
    requires { 2 ≤ room_in text.old }
    ensures after { text.new ≡ appended text.old (u16 entries) }
    ensures room { room_in text.new + 2 ≡ room_in text.old }
{
    text.push(&entries.to_le_bytes());
}

// The byte of eight bools, the first of them lowest.
fn packed_byte(given: &[bool], byte: usize) -> u8
    requires { 8 * byte + 8 ≤ length given.now }
    ensures { result ≡ number (λ i. slice_index_or given.now i false) (8 * byte) 8 }
{
    let mut bits = 0;
    for i in 0..8 {
        if given[8 * byte + i] {
            bits += 1 << i;
        }
    }
    bits
}

// Which bytes are given, a bit each.
#[tactic(auto, using(crate::proofs::Steps::bytes_more))]
fn write_given<const B: usize>(text: &mut Text, given: &[bool; B])
    requires { B / 8 ≤ room_in text.old }
    ensures after { text.new ≡ appended text.old (packed B given.now) }
    ensures room { room_in text.new + B / 8 ≡ room_in text.old }
{
    for byte in 0..B / 8 {
        text.push(&[packed_byte(given, byte)]);
    }
}

/// A write of a bank's queue.
pub fn write_entry<const B: usize>(text: &mut Text, entry: &EntryImage<B>)
    requires { 4 + B + B / 8 ≤ room_in text.old }
    ensures after { text.new ≡ appended text.old (entry_bytes entry.now) }
    ensures room { room_in text.new + (4 + B + B / 8) ≡ room_in text.old }
{
    text.push(&entry.line.to_le_bytes());
    text.push(&entry.bytes);
    write_given(text, &entry.given);
}

/// The cells of an array line.
pub fn write_cells<const B: usize, const M: usize>(text: &mut Text, cells: &Cells<B, M>)
    requires { B + M ≤ room_in text.old }
    ensures after { text.new ≡ appended text.old (cells_bytes cells.now) }
    ensures room { room_in text.new + (B + M) ≡ room_in text.old }
{
    text.push(&cells.bits);
    text.push(&cells.meta);
}
