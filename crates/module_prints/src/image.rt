// The image of a module over its array, printed whole.
ghost use Rattle.std.specs.Prelude.{◌≡◌, ◌≤◌, OnOk, OnErr};
ghost use Rattle.std.specs.List.{flat_map};
ghost use Rattle.std.specs.Io.KnownBytes.{Appends};
ghost use Rattle.pcm_io.specs.Faults.{Rose};
ghost use Rattle.pcm_io.specs.Giving.{AppendsPrefix};
ghost use Rattle.pcm_io.specs.Reserved.{reserved};
ghost use Rattle.ecp_line.specs.Layout.{IsLayout};
ghost use Rattle.pcm_image.specs.Spelling.{bank_bytes, image_bytes};
ghost use Rattle.right_images.specs.Saving.{saved_banks, saved_of};
ghost use Rattle.image_text.specs.Sensing.{SensesRows, SensesSome};
ghost use Rattle.module_prints.specs.Images.{HasImage, WritesRows, kept_in};
ghost use Rattle.text_printer.specs.Printing.{Prints};

use cell_rows::CellArray;
use image_text::{print_bank, print_head, print_rows};
use pcm_io::{Sink, Text, WriteFault};
use pcm_module::Module;
use text_printer::{Printer, ROW_ROOM, TEXT_ROOM};

// What the banks of a module keep, in order.
fn print_banks<const B: usize, const M: usize, const E: usize, K: Sink>(
    pcm: &Module<B, M, E>,
    printer: &mut Printer<K>,
)
    requires layout { IsLayout B M E }
    requires limit { ROW_ROOM ≤ printer.old.text.now.limit }
    requires small { B ≤ 128 }
    requires image { HasImage pcm.now }
    ensures { Prints K.written K.faults printer.old printer.new
        (flat_map bank_bytes (saved_banks (kept_in pcm.now) pcm.now.shape.banks)) }
{
    for bank in 0..pcm.shape().banks() {
        print_bank(pcm.timed(bank).bank().kept(), printer);
    }
}

/// Writes the image of a module with this seed over its array. Each array line is sensed once for it, in order,
/// at tick 0 after the run, and nothing else happens to the array; after a fault no line is sensed any more.
pub fn print_image<const B: usize, const M: usize, const E: usize, A: CellArray<B, M>, K: Sink>(
    pcm: &Module<B, M, E>,
    seed: u64,
    array: &mut A,
    text: &mut Text,
    out: &mut K,
) -> Result<(), WriteFault>
    requires layout { IsLayout B M E }
    requires small { B ≤ 128 }
    requires checks { M ≤ 16 }
    requires room { text.old ≡ reserved TEXT_ROOM }
    requires seed { seed ≡ pcm.now.seed }
    requires image { HasImage pcm.now }
    ensures ok { OnOk result (Appends (K.written out.old) (K.written out.new)
        (image_bytes (saved_of pcm.now.shape seed (kept_in pcm.now) (A.state array.old)))) }
    ensures prefix { OnErr result (AppendsPrefix (K.written out.old) (K.written out.new)
        (image_bytes (saved_of pcm.now.shape seed (kept_in pcm.now) (A.state array.old)))) }
    ensures part { OnErr result (WritesRows (A.state array.new)
        (saved_of pcm.now.shape seed (kept_in pcm.now) (A.state array.old))
        (K.written out.old) (K.written out.new)) }
    ensures sensed { SensesSome (A.state array.old).lines (A.state array.old) (A.state array.new) }
    ensures all { OnOk result (SensesRows (A.state array.old).lines (A.state array.old)
        (A.state array.new)) }
    ensures fault { OnErr result (Rose (K.faults out.old) (K.faults out.new)) }
    ensures never_falls { K.faults out.old ≤ K.faults out.new }
{
    let mut printer = Printer::new(text, out);
    print_head(B as u8, pcm.shape(), seed, &mut printer);
    print_banks(pcm, &mut printer);
    print_rows(array, &mut printer);
    printer.finish()
}
