// The array lines of a large module, printed one after the other: those of which a cell is 1.
ghost use Rattle.std.specs.Prelude.{◌≡◌, ◌≤◌, ◌++◌};
ghost use Rattle.cell_rows.specs.Shape.{IsShape};
ghost use Rattle.pcm_image.specs.Spelling.{u32, cells_bytes};
ghost use Rattle.large_image.specs.Spelling.{are_zero, row_bytes};
ghost use Rattle.text_printer.specs.Printing.{Prints};
ghost use Rattle.large_prints.specs.Rows.{PrintsLargeRows};

use crate::pieces::print_line;
use cell_rows::{CellArray, Cells};
use image_text::pieces::print_cells;
use large_image::{END_MARK, are_zero};
use pcm_io::Sink;
use text_printer::{Printer, ROW_ROOM};

// Whether no cell of an array line is 1.
fn is_blank<const B: usize, const M: usize>(cells: &Cells<B, M>) -> bool
    ensures { result ≡ are_zero (cells_bytes cells.now) }
{
    are_zero(&cells.bits) && are_zero(&cells.meta)
}

// Writes the number of an array line and its cells.
fn print_numbered<const B: usize, const M: usize, K: Sink>(
    line: u32,
    cells: &Cells<B, M>,
    printer: &mut Printer<K>,
)
    requires limit { ROW_ROOM ≤ printer.old.text.now.limit }
    requires small { B ≤ 128 }
    requires checks { M ≤ 16 }
    ensures { Prints K.written K.faults printer.old printer.new (u32 line ++ cells_bytes cells.now) }
{
    print_line(line, printer);
    print_cells(cells, printer);
}

// Writes the number of an array line and its cells, where one of them is 1; else nothing.
fn print_row<const B: usize, const M: usize, K: Sink>(
    line: u32,
    cells: &Cells<B, M>,
    printer: &mut Printer<K>,
)
    requires limit { ROW_ROOM ≤ printer.old.text.now.limit }
    requires small { B ≤ 128 }
    requires checks { M ≤ 16 }
    ensures { Prints K.written K.faults printer.old printer.new (row_bytes line cells.now) }
{
    if is_blank(cells) {
        return;
    }
    print_numbered(line, cells, printer);
}

/// Writes the array lines of which a cell is 1, in order, each behind its number, and the end mark. Each array line is sensed once for it,
/// in order, at tick 0; after a fault no line is sensed any more.
pub(crate) fn print_large_rows<const B: usize, const M: usize, A: CellArray<B, M>, K: Sink>(
    array: &mut A,
    printer: &mut Printer<K>,
)
    requires limit { ROW_ROOM ≤ printer.old.text.now.limit }
    requires shape { IsShape B M }
    requires small { B ≤ 128 }
    requires checks { M ≤ 16 }
    ensures { PrintsLargeRows K.written K.faults (A.state array.old) (A.state array.new)
        printer.old printer.new }
{
    for line in 0..array.lines() {
        if printer.failed() {
            return;
        }
        let cells = array.sense(line, 0);
        print_row(line, &cells, printer);
    }
    print_line(END_MARK, printer);
}
