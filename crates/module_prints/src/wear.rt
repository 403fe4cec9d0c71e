// The wear report of a run.
ghost use Rattle.std.specs.Prelude.{◌≡◌, ◌*◌, ◌≤◌, ℕ, List, OnOk, OnErr};
ghost use Rattle.std.specs.Io.KnownBytes.{Appends};
ghost use Rattle.pcm_io.specs.Faults.{Rose};
ghost use Rattle.pcm_io.specs.Giving.{AppendsPrefix};
ghost use Rattle.pcm_io.specs.Reserved.{reserved};
ghost use Rattle.bank_shape.specs.declared.Role.{Role};
ghost use Rattle.run_text.specs.WearText.{wear_text};
ghost use Rattle.module_shape.specs.Addresses.{array_lines_of, module_of};
ghost use Rattle.right_runs.specs.Ends.{BankEnd};
ghost use Rattle.pcm_module.specs.State.{AreEndsOf};
ghost use Rattle.module_prints.specs.WearReports.{HaveRoles, IsWearReport};

use cell_rows::CellArray;
use pcm_io::{Sink, Text, WriteFault};
use pcm_module::Module;
use run_text::{print_rest, print_wear_header, print_wear_row};
use text_printer::TEXT_ROOM;

/// Writes a row for each array line: its bank, its pulses and its role.
pub fn print_wear<const B: usize, const M: usize, const E: usize, A: CellArray<B, M>, K: Sink>(
    pcm: &Module<B, M, E>,
    array: &A,
    text: &mut Text,
    out: &mut K,
) -> Result<(), WriteFault>
    requires room { text.old ≡ reserved TEXT_ROOM }
    requires size { (A.state array.now).lines
        ≡ pcm.now.shape.banks * array_lines_of (module_of pcm.now.shape) }
    ensures ok { OnOk result ((ends : ℕ → BankEnd) → AreEndsOf pcm.now ends
        → HaveRoles pcm.now.shape pcm.now.seed ends
        → (rows : List (ℕ × ℕ × Role)) × IsWearReport pcm.now.shape pcm.now.seed ends
        (A.state array.now) rows
        × Appends (K.written out.old) (K.written out.new) (wear_text rows)) }
    ensures prefix { OnErr result ((ends : ℕ → BankEnd) → AreEndsOf pcm.now ends
        → HaveRoles pcm.now.shape pcm.now.seed ends
        → (rows : List (ℕ × ℕ × Role)) × IsWearReport pcm.now.shape pcm.now.seed ends
        (A.state array.now) rows
        × AppendsPrefix (K.written out.old) (K.written out.new) (wear_text rows)) }
    ensures fault { OnErr result (Rose (K.faults out.old) (K.faults out.new)) }
    ensures never_falls { K.faults out.old ≤ K.faults out.new }
{
    let shape = pcm.shape();
    let bank_lines = shape.array_lines() / shape.banks();
    print_wear_header(text);
    for line in 0..array.lines() {
        let role = pcm.role(line);
        print_wear_row(line, line / bank_lines, array.pulses(line), role, text, out)?;
    }
    print_rest(text, out)
}
