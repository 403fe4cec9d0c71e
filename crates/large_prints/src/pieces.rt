// The pieces of an image that a large module spells otherwise than a small one, each printed behind what was printed before.
ghost use Rattle.std.specs.Prelude.{◌≡◌, ◌≤◌};
ghost use Rattle.pcm_io.specs.Reserved.{appended, room_in};
ghost use Rattle.pcm_image.specs.Spelling.{u32};
ghost use Rattle.large_image.specs.Spelling.{head_bytes, region_bytes};
ghost use Rattle.right_images.specs.Saving.{head_of};
ghost use Rattle.text_printer.specs.Printing.{Prints};

use image_text::pieces::number_of_home;
use large_image::{write_head, write_line, write_region};
use module_shape::Shape;
use pcm_image::{HeadImage, RegionImage};
use pcm_io::{Sink, Text};
use text_printer::{Printer, ROW_ROOM};

// The numbers of a module of these sizes, with lines of so many bytes, put at the end of a text.
fn push_head(size: u8, shape: &Shape, seed: u64, text: &mut Text)
    requires { ROW_ROOM ≤ room_in text.old }
    ensures { text.new ≡ appended text.old (head_bytes size (head_of shape.now seed)) }
{
    let raw = shape.raw();
    let head = HeadImage {
        banks: raw.banks as u8,
        regions: raw.regions as u8,
        lines: raw.lines,
        spares: raw.spares as u16,
        seed,
        home: number_of_home(raw.home),
    };
    write_head(text, size, &head);
}

/// Writes the numbers of a module of these sizes, with lines of so many bytes.
pub(crate) fn print_head<K: Sink>(size: u8, shape: &Shape, seed: u64, printer: &mut Printer<K>)
    requires { ROW_ROOM ≤ printer.old.text.now.limit }
    ensures { Prints K.written K.faults printer.old printer.new
        (head_bytes size (head_of shape.now seed)) }
{
    printer.make_room();
    push_head(size, shape, seed, printer.text);
}

/// Writes the registers of a region.
pub(crate) fn print_region<K: Sink>(region: &RegionImage, printer: &mut Printer<K>)
    requires { ROW_ROOM ≤ printer.old.text.now.limit }
    ensures { Prints K.written K.faults printer.old printer.new
        (region_bytes region.now) }
{
    printer.make_room();
    write_region(printer.text, region);
}

/// Writes the number of an array line, or the mark behind the last one.
pub(crate) fn print_line<K: Sink>(line: u32, printer: &mut Printer<K>)
    requires { ROW_ROOM ≤ printer.old.text.now.limit }
    ensures { Prints K.written K.faults printer.old printer.new (u32 line) }
{
    printer.make_room();
    write_line(printer.text, line);
}
