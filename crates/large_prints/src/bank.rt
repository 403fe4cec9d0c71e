// What a bank keeps, printed field by field.
ghost use Rattle.std.specs.Prelude.{◌≡◌, ◌≤◌, map};
ghost use Rattle.std.specs.List.{flat_map};
ghost use Rattle.power_recovery.specs.Kept.{IsKept};
ghost use Rattle.large_image.specs.Spelling.{bank_bytes, region_bytes};
ghost use Rattle.right_images.specs.Saving.{saved_bank, saved_region};
ghost use Rattle.text_printer.specs.Printing.{Prints};

use crate::pieces::print_region;
use image_text::bank::{mark_of, print_entries, print_slots};
use image_text::pieces::{print_count, print_mark};
use pcm_image::RegionImage;
use pcm_io::Sink;
use power_recovery::kept::Kept;
use region_regs::Region;
use text_printer::{Printer, ROW_ROOM};

// The registers of a region as an image has them.
fn region_image(region: &Region) -> RegionImage
    ensures { result ≡ saved_region region.now }
{
    let registers = region.registers();
    RegionImage {
        start: registers.start(),
        gap: registers.gap(),
        counter: region.counter() as u16,
    }
}

// The registers of the regions, in order.
fn print_regions<const B: usize, K: Sink>(kept: &Kept<B>, printer: &mut Printer<K>)
    requires { ROW_ROOM ≤ printer.old.text.now.limit }
    ensures { Prints K.written K.faults printer.old printer.new
        (flat_map region_bytes (map saved_region kept.now.regions)) }
{
    for region in 0..kept.shape().regions {
        print_region(&region_image(kept.region(region)), printer);
    }
}

/// Writes what a bank keeps: its mark, the slots of its used spares, its registers and the writes of its queue.
pub(crate) fn print_large_bank<const B: usize, K: Sink>(kept: &Kept<B>, printer: &mut Printer<K>)
    requires limit { ROW_ROOM ≤ printer.old.text.now.limit }
    requires small { B ≤ 128 }
    requires in_range { IsKept kept.now }
    ensures { Prints K.written K.faults printer.old printer.new (bank_bytes (saved_bank kept.now)) }
{
    let remap = kept.remap();
    print_mark(mark_of(kept.exhausted()), remap.used() as u16, printer);
    print_slots(remap, printer);
    print_regions(kept, printer);
    print_count(kept.len() as u16, printer);
    print_entries(kept, printer);
}
