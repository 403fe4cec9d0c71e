// The pieces of an image, each printed behind what was printed before.
ghost use Rattle.std.specs.Prelude.{◌≡◌, ◌^◌, ◌<◌, ◌≤◌, ◌++◌};
ghost use Rattle.pcm_io.specs.Reserved.{appended, room_in};
ghost use Rattle.module_shape.specs.Limits.{IsSmall};
ghost use Rattle.pcm_image.specs.Spelling.{u8, u16, u32, head_bytes, region_bytes, entry_bytes, cells_bytes};
ghost use Rattle.right_images.specs.Saving.{head_of, home_number};
ghost use Rattle.text_printer.specs.Printing.{Prints};

use cell_rows::Cells;
use module_shape::{Home, Shape};
use pcm_image::{
    EntryImage, HeadImage, RegionImage, write_bank, write_cells, write_count, write_entry,
    write_head, write_region, write_slot,
};
use pcm_io::{Sink, Text};
use text_printer::{Printer, ROW_ROOM};

/// The number by which an image says where registers are kept.
pub fn number_of_home(home: Home) -> u8
    ensures { result ≡ home_number home }
{
    match home {
        Home::Guarded => 0,
        Home::Array => 1,
    }
}

// The numbers of a module of these sizes, with lines of so many bytes, put at the end of a text.
fn push_head(size: u8, shape: &Shape, seed: u64, text: &mut Text)
    requires room { ROW_ROOM ≤ room_in text.old }
    requires small { IsSmall shape.now }
    ensures { text.new ≡ appended text.old (head_bytes size (head_of shape.now seed)) }
{
    let raw = shape.raw();
    let head = HeadImage {
        banks: raw.banks as u8,
        regions: raw.regions as u8,
        lines: raw.lines,
        spares: raw.spares as u16,
        seed,
        home: number_of_home(raw.home),
    };
    write_head(text, size, &head);
}

/// Writes the numbers of a module of these sizes, with lines of so many bytes.
pub fn print_head<K: Sink>(size: u8, shape: &Shape, seed: u64, printer: &mut Printer<K>)
    requires limit { ROW_ROOM ≤ printer.old.text.now.limit }
    requires small { IsSmall shape.now }
    ensures { Prints K.written K.faults printer.old printer.new
        (head_bytes size (head_of shape.now seed)) }
{
    printer.make_room();
    push_head(size, shape, seed, printer.text);
}

/// Writes the mark of a bank, and how many of its spares are used.
pub fn print_mark<K: Sink>(mark: u8, used: u16, printer: &mut Printer<K>)
    requires { ROW_ROOM ≤ printer.old.text.now.limit }
    ensures { Prints K.written K.faults printer.old printer.new (u8 mark ++ u16 used) }
{
    printer.make_room();
    write_bank(printer.text, mark, used);
}

/// Writes the slot of a used spare.
pub fn print_slot<K: Sink>(slot: u32, printer: &mut Printer<K>)
    requires { ROW_ROOM ≤ printer.old.text.now.limit }
    ensures { Prints K.written K.faults printer.old printer.new (u32 slot) }
{
    printer.make_room();
    write_slot(printer.text, slot);
}

/// Writes the registers of a region.
pub fn print_region<K: Sink>(region: &RegionImage, printer: &mut Printer<K>)
    requires limit { ROW_ROOM ≤ printer.old.text.now.limit }
    requires lines { (region.now.start < 2 ^ 16) × (region.now.gap < 2 ^ 16) }
    ensures { Prints K.written K.faults printer.old printer.new (region_bytes region.now) }
{
    printer.make_room();
    write_region(printer.text, region);
}

/// Writes how many writes stand in a queue.
pub fn print_count<K: Sink>(entries: u16, printer: &mut Printer<K>)
    requires { ROW_ROOM ≤ printer.old.text.now.limit }
    ensures { Prints K.written K.faults printer.old printer.new (u16 entries) }
{
    printer.make_room();
    write_count(printer.text, entries);
}

/// Writes a write of a queue.
pub fn print_entry<const B: usize, K: Sink>(entry: &EntryImage<B>, printer: &mut Printer<K>)
    requires limit { ROW_ROOM ≤ printer.old.text.now.limit }
    requires small { B ≤ 128 }
    ensures { Prints K.written K.faults printer.old printer.new (entry_bytes entry.now) }
{
    printer.make_room();
    write_entry(printer.text, entry);
}

/// Writes the cells of an array line.
pub fn print_cells<const B: usize, const M: usize, K: Sink>(
    cells: &Cells<B, M>,
    printer: &mut Printer<K>,
)
    requires limit { ROW_ROOM ≤ printer.old.text.now.limit }
    requires small { B ≤ 128 }
    requires checks { M ≤ 16 }
    ensures { Prints K.written K.faults printer.old printer.new (cells_bytes cells.now) }
{
    printer.make_room();
    write_cells(printer.text, cells);
}
