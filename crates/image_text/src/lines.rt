// The array lines of a module, printed one after the other.
ghost use Rattle.std.specs.Prelude.{◌≤◌};
ghost use Rattle.cell_rows.specs.Shape.{IsShape};
ghost use Rattle.image_text.specs.Sensing.{PrintsRows};

use crate::pieces::print_cells;
use cell_rows::CellArray;
use pcm_io::Sink;
use text_printer::{Printer, ROW_ROOM};

/// Writes the cells of the array lines, in order. Each line is sensed once for it, in order, at tick 0; after a fault no line is
/// sensed any more.
pub fn print_rows<const B: usize, const M: usize, A: CellArray<B, M>, K: Sink>(
    array: &mut A,
    printer: &mut Printer<K>,
)
    requires limit { ROW_ROOM ≤ printer.old.text.now.limit }
    requires shape { IsShape B M }
    requires small { B ≤ 128 }
    requires checks { M ≤ 16 }
    ensures { PrintsRows K.written K.faults (A.state array.old) (A.state array.new)
        printer.old printer.new }
{
    for line in 0..array.lines() {
        if printer.failed() {
            return;
        }
        let cells = array.sense(line, 0);
        print_cells(&cells, printer);
    }
}
