// The report of energy of a run.
ghost use Rattle.std.specs.Prelude.{◌≡◌, ◌*◌, ◌≤◌, OnOk, OnErr};
ghost use Rattle.std.specs.Io.KnownBytes.{Appends};
ghost use Rattle.pcm_io.specs.Faults.{Rose};
ghost use Rattle.pcm_io.specs.Giving.{AppendsPrefix};
ghost use Rattle.pcm_io.specs.Reserved.{reserved};
ghost use Rattle.energy_report.specs.EnergyText.{energy_report};
ghost use Rattle.module_shape.specs.Addresses.{array_lines_of, module_of};

use cell_rows::TellsCells;
use energy_report::print_energy_report;
use pcm_io::{Sink, Text, WriteFault};
use pcm_module::Module;
use text_printer::TEXT_ROOM;

/// Writes a row for each bank, and one for the module: how often their array lines were sensed, and how many cells were driven to 1 and to 0.
/// No line is sensed for it.
pub fn print_energy<const B: usize, const M: usize, const E: usize, A: TellsCells<B, M>, K: Sink>(
    pcm: &Module<B, M, E>,
    array: &A,
    text: &mut Text,
    out: &mut K,
) -> Result<(), WriteFault>
    requires room { text.old ≡ reserved TEXT_ROOM }
    requires size { (A.state array.now).lines
        ≡ pcm.now.shape.banks * array_lines_of (module_of pcm.now.shape) }
    ensures ok { OnOk result (Appends (K.written out.old) (K.written out.new)
        (energy_report (A.state array.now).energy pcm.now.shape.banks
        (array_lines_of (module_of pcm.now.shape)))) }
    ensures prefix { OnErr result (AppendsPrefix (K.written out.old) (K.written out.new)
        (energy_report (A.state array.now).energy pcm.now.shape.banks
        (array_lines_of (module_of pcm.now.shape)))) }
    ensures fault { OnErr result (Rose (K.faults out.old) (K.faults out.new)) }
    ensures never_falls { K.faults out.old ≤ K.faults out.new }
{
    let shape = pcm.shape();
    let bank_lines = shape.array_lines() / shape.banks();
    print_energy_report(array, shape.banks(), bank_lines, text, out)
}
