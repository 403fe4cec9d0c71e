// The report on array lines of a run.
ghost use Rattle.std.specs.Prelude.{◌≡◌, ◌*◌, ◌<◌, ◌≤◌, ℕ, List, OnOk, OnErr};
ghost use Rattle.std.specs.Io.KnownBytes.{Appends};
ghost use Rattle.pcm_io.specs.Faults.{Rose};
ghost use Rattle.pcm_io.specs.Giving.{AppendsPrefix};
ghost use Rattle.pcm_io.specs.Reserved.{reserved};
ghost use Rattle.ecp_line.specs.Layout.{IsLayout};
ghost use Rattle.bank_shape.specs.declared.Role.{Role};
ghost use Rattle.lines_report.specs.LinesText.{lines_text};
ghost use Rattle.module_shape.specs.Addresses.{array_lines_of, module_of};
ghost use Rattle.right_runs.specs.Ends.{BankEnd};
ghost use Rattle.pcm_module.specs.State.{AreEndsOf};
ghost use Rattle.module_prints.specs.WearReports.{HaveRoles, IsWearReport, cells_at};

use cell_rows::TellsCells;
use ecp_line::Ecp;
use lines_report::{LineCells, print_lines_header, print_lines_row};
use pcm_io::{Sink, Text, WriteFault};
use pcm_module::Module;
use run_text::print_rest;
use text_printer::TEXT_ROOM;

// What the cells of an array line say of it.
pub(crate) fn line_cells<const B: usize, const M: usize, const E: usize, A: TellsCells<B, M>>(
    array: &A,
    line: u32,
) -> LineCells
    requires layout { IsLayout B M E }
    requires exists { line < (A.state array.now).lines }
    ensures { result ≡ cells_at E (A.state array.now) (A.changes array.now) line }
{
    let held = array.held(line);
    LineCells {
        pointers: Ecp::<B, M, E>::active(&held),
        wear: array.cell_wear(line),
        energy: array.energy(line),
    }
}

/// Writes a row for each array line: that of the wear report, and behind it the pointers that are active by the line's own check cells,
/// and what the array tells of its cells. No line is sensed for it.
pub fn print_lines<const B: usize, const M: usize, const E: usize, A: TellsCells<B, M>, K: Sink>(
    pcm: &Module<B, M, E>,
    array: &A,
    text: &mut Text,
    out: &mut K,
) -> Result<(), WriteFault>
    requires layout { IsLayout B M E }
    requires room { text.old ≡ reserved TEXT_ROOM }
    requires size { (A.state array.now).lines
        ≡ pcm.now.shape.banks * array_lines_of (module_of pcm.now.shape) }
    ensures ok { OnOk result ((ends : ℕ → BankEnd) → AreEndsOf pcm.now ends
        → HaveRoles pcm.now.shape pcm.now.seed ends
        → (rows : List (ℕ × ℕ × Role)) × IsWearReport pcm.now.shape pcm.now.seed ends
        (A.state array.now) rows
        × Appends (K.written out.old) (K.written out.new)
        (lines_text (cells_at E (A.state array.now) (A.changes array.now)) rows)) }
    ensures prefix { OnErr result ((ends : ℕ → BankEnd) → AreEndsOf pcm.now ends
        → HaveRoles pcm.now.shape pcm.now.seed ends
        → (rows : List (ℕ × ℕ × Role)) × IsWearReport pcm.now.shape pcm.now.seed ends
        (A.state array.now) rows
        × AppendsPrefix (K.written out.old) (K.written out.new)
        (lines_text (cells_at E (A.state array.now) (A.changes array.now)) rows)) }
    ensures fault { OnErr result (Rose (K.faults out.old) (K.faults out.new)) }
    ensures never_falls { K.faults out.old ≤ K.faults out.new }
{
    let shape = pcm.shape();
    let bank_lines = shape.array_lines() / shape.banks();
    print_lines_header(text);
    for line in 0..array.lines() {
        let role = pcm.role(line);
        let cells = line_cells::<B, M, E, A>(array, line);
        print_lines_row(
            line,
            line / bank_lines,
            array.pulses(line),
            role,
            cells,
            text,
            out,
        )?;
    }
    print_rest(text, out)
}
