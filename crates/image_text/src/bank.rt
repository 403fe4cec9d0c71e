// What a bank keeps, printed field by field.
ghost use Rattle.std.specs.Prelude.{◌≡◌, ◌^◌, ◌<◌, ◌≤◌, if◌then◌else◌, map};
ghost use Rattle.std.specs.List.{flat_map};
ghost use Rattle.power_recovery.specs.Kept.{IsKept};
ghost use Rattle.module_shape.specs.Limits.{small_limits};
ghost use Rattle.pcm_image.specs.Spelling.{u32, bank_bytes, entry_bytes, region_bytes};
ghost use Rattle.right_images.specs.Saving.{saved_bank, saved_entry, saved_region};
ghost use Rattle.text_printer.specs.Printing.{Prints};

use crate::pieces::{print_count, print_entry, print_mark, print_region, print_slot};
use masked_bytes::entry::Entry;
use pcm_image::{EntryImage, RegionImage};
use pcm_io::Sink;
use power_recovery::kept::Kept;
use region_regs::Region;
use spare_pool::Remap;
use text_printer::{Printer, ROW_ROOM};

// The registers of a region as an image has them.
fn region_image(region: &Region) -> RegionImage
    requires { region.now.rotation.lines ≤ small_limits.lines }
    ensures is { result ≡ saved_region region.now }
    ensures lines { (result.start < 2 ^ 16) × (result.gap < 2 ^ 16) }
{
    let registers = region.registers();
    RegionImage {
        start: registers.start(),
        gap: registers.gap(),
        counter: region.counter() as u16,
    }
}

// A write of a queue as an image has it.
fn entry_image<const B: usize>(entry: &Entry<B>) -> EntryImage<B>
    ensures { result ≡ saved_entry entry.now }
{
    EntryImage {
        line: entry.line,
        bytes: entry.bytes,
        given: entry.given,
    }
}

/// The mark of a bank as an image has it.
pub fn mark_of(exhausted: bool) -> u8
    ensures { result ≡ (if exhausted then 1 else 0) }
{
    if exhausted { 1 } else { 0 }
}

/// Writes the slots of the used spares, in order.
pub fn print_slots<K: Sink>(remap: &Remap, printer: &mut Printer<K>)
    requires { ROW_ROOM ≤ printer.old.text.now.limit }
    ensures { Prints K.written K.faults printer.old printer.new (flat_map u32 remap.now.replaced) }
{
    for spare in 0..remap.used() {
        print_slot(remap.replaced(spare), printer);
    }
}

// The registers of the regions, in order.
fn print_regions<const B: usize, K: Sink>(kept: &Kept<B>, printer: &mut Printer<K>)
    requires limit { ROW_ROOM ≤ printer.old.text.now.limit }
    requires lines { kept.now.shape.lines ≤ small_limits.lines }
    ensures { Prints K.written K.faults printer.old printer.new
        (flat_map region_bytes (map saved_region kept.now.regions)) }
{
    for region in 0..kept.shape().regions {
        print_region(&region_image(kept.region(region)), printer);
    }
}

/// Writes the writes of the queue, the oldest first.
pub fn print_entries<const B: usize, K: Sink>(kept: &Kept<B>, printer: &mut Printer<K>)
    requires limit { ROW_ROOM ≤ printer.old.text.now.limit }
    requires small { B ≤ 128 }
    ensures { Prints K.written K.faults printer.old printer.new
        (flat_map entry_bytes (map saved_entry kept.now.entries)) }
{
    for index in 0..kept.len() {
        let Some(entry) = kept.at(index) else {
            unreachable!()
        };
        print_entry(&entry_image(entry), printer);
    }
}

/// Writes what a bank keeps: its mark, the slots of its used spares, its registers and the writes of its queue.
pub fn print_bank<const B: usize, K: Sink>(kept: &Kept<B>, printer: &mut Printer<K>)
    requires limit { ROW_ROOM ≤ printer.old.text.now.limit }
    requires small { B ≤ 128 }
    requires in_range { IsKept kept.now }
    requires lines { kept.now.shape.lines ≤ small_limits.lines }
    ensures { Prints K.written K.faults printer.old printer.new (bank_bytes (saved_bank kept.now)) }
{
    let remap = kept.remap();
    print_mark(mark_of(kept.exhausted()), remap.used() as u16, printer);
    print_slots(remap, printer);
    print_regions(kept, printer);
    print_count(kept.len() as u16, printer);
    print_entries(kept, printer);
}
