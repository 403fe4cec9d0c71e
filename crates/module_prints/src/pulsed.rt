// The reports on array lines of a run, but for the lines that were never pulsed.
ghost use Rattle.std.specs.Prelude.{◌≡◌, ◌*◌, ◌<◌, ◌≤◌, ◌++◌, ℕ, List, Option, OnOk, OnErr};
ghost use Rattle.std.specs.Io.KnownBytes.{Appends};
ghost use Rattle.pcm_io.specs.Faults.{Rose};
ghost use Rattle.pcm_io.specs.Giving.{AppendsPrefix};
ghost use Rattle.pcm_io.specs.Reserved.{appended, reserved, room_in};
ghost use Rattle.ecp_line.specs.Layout.{IsLayout};
ghost use Rattle.bank_shape.specs.declared.Role.{Role as RoleOf};
ghost use Rattle.module_shape.specs.Addresses.{array_lines_of, module_of};
ghost use Rattle.module_shape.specs.Limits.{IsShape};
ghost use Rattle.right_runs.specs.Ends.{BankEnd};
ghost use Rattle.run_text.specs.Gathering.{Printed};
ghost use Rattle.pcm_module.specs.State.{AreEndsOf};
ghost use Rattle.module_prints.specs.WearReports.{HaveRoles, IsWearReport, cells_at};
ghost use Rattle.module_prints.specs.PulsedLines.{PrintsNext, header_of, pulsed_text, row_of};

use crate::lines::line_cells;
use bank_shape::Role;
use cell_rows::TellsCells;
use lines_report::{print_lines_header, push_row};
use pcm_io::{Sink, Text, WriteFault};
use pcm_module::Module;
use run_text::{make_room, print_rest, print_role, print_wear_header};
use text_printer::{ROW_ROOM, TEXT_ROOM};

/// A report with a row for each array line.
#[derive(Clone, Copy, Drop, PartialEq, Eq)]
pub enum Report {
    /// The wear report.
    Wear,
    /// The report on array lines, which has what the cells of each say, too.
    Lines,
}

// Begins a report in an empty text.
fn print_header(report: Report, text: &mut Text)
    requires { text.old ≡ reserved TEXT_ROOM }
    ensures { text.new ≡ appended text.old (header_of report) }
{
    match report {
        Report::Wear => print_wear_header(text),
        Report::Lines => print_lines_header(text),
    }
}

// Appends the row of an array line.
fn push_line<const B: usize, const M: usize, const E: usize, A: TellsCells<B, M>>(
    report: Report,
    array: &A,
    line: u32,
    bank: u32,
    pulses: u64,
    role: Role,
    text: &mut Text,
)
    requires layout { IsLayout B M E }
    requires exists { line < (A.state array.now).lines }
    requires room { ROW_ROOM ≤ room_in text.old }
    ensures { text.new ≡ appended text.old (row_of report (cells_at E (A.state array.now)
        (A.changes array.now)) line (bank, pulses, role)) }
{
    match report {
        Report::Wear => print_role(line, bank, pulses, role, text),
        Report::Lines => {
            let cells = line_cells::<B, M, E, A>(array, line);
            push_row(line, bank, pulses, role, cells, text)
        }
    }
}

// Adds the row of the next array line, and writes the text before where the row might not fit; of one that was never pulsed
// it looks at its pulses alone.
fn print_next<const B: usize, const M: usize, const E: usize, A: TellsCells<B, M>, K: Sink>(
    report: Report,
    pcm: &Module<B, M, E>,
    array: &A,
    line: u32,
    bank_lines: u32,
    text: &mut Text,
    out: &mut K,
) -> Result<(), WriteFault>
    requires layout { IsLayout B M E }
    requires limit { ROW_ROOM ≤ text.old.limit }
    requires size { (A.state array.now).lines
        ≡ pcm.now.shape.banks * array_lines_of (module_of pcm.now.shape) }
    requires in_range { IsShape pcm.now.shape }
    requires bank_lines { bank_lines ≡ array_lines_of (module_of pcm.now.shape) }
    requires exists { line < (A.state array.now).lines }
    ensures ok { OnOk result (PrintsNext report (cells_at E (A.state array.now)
        (A.changes array.now)) pcm.now (A.state array.now) line text.old text.new
        (K.written out.old) (K.written out.new)) }
    ensures prefix { OnErr result ((before : Option (List ℕ)) (rows later : List (ℕ × ℕ × RoleOf))
        → Printed before (K.written out.old) text.old (pulsed_text report
        (cells_at E (A.state array.now) (A.changes array.now)) rows)
        → AppendsPrefix before (K.written out.new) (pulsed_text report
        (cells_at E (A.state array.now) (A.changes array.now)) (rows ++ later))) }
    ensures limit { text.new.limit ≡ text.old.limit }
    ensures fault { OnErr result (Rose (K.faults out.old) (K.faults out.new)) }
    ensures never_falls { K.faults out.old ≤ K.faults out.new }
{
    let pulses = array.pulses(line);
    let left_out = pulses == 0;
    if left_out {
        return Ok(());
    }
    make_room(text, out)?;
    let role = pcm.role(line);
    push_line::<B, M, E, A>(report, array, line, line / bank_lines, pulses, role, text);
    Ok(())
}

/// Writes such a report without the rows of array lines that were never pulsed. No line is sensed for it.
pub fn print_pulsed<const B: usize, const M: usize, const E: usize, A: TellsCells<B, M>, K: Sink>(
    report: Report,
    pcm: &Module<B, M, E>,
    array: &A,
    text: &mut Text,
    out: &mut K,
) -> Result<(), WriteFault>
    requires layout { IsLayout B M E }
    requires room { text.old ≡ reserved TEXT_ROOM }
    requires size { (A.state array.now).lines
        ≡ pcm.now.shape.banks * array_lines_of (module_of pcm.now.shape) }
    ensures ok { OnOk result ((ends : ℕ → BankEnd) → AreEndsOf pcm.now ends
        → HaveRoles pcm.now.shape pcm.now.seed ends
        → (rows : List (ℕ × ℕ × RoleOf)) × IsWearReport pcm.now.shape pcm.now.seed ends
        (A.state array.now) rows
        × Appends (K.written out.old) (K.written out.new) (pulsed_text report
        (cells_at E (A.state array.now) (A.changes array.now)) rows)) }
    ensures prefix { OnErr result ((ends : ℕ → BankEnd) → AreEndsOf pcm.now ends
        → HaveRoles pcm.now.shape pcm.now.seed ends
        → (rows : List (ℕ × ℕ × RoleOf)) × IsWearReport pcm.now.shape pcm.now.seed ends
        (A.state array.now) rows
        × AppendsPrefix (K.written out.old) (K.written out.new) (pulsed_text report
        (cells_at E (A.state array.now) (A.changes array.now)) rows)) }
    ensures fault { OnErr result (Rose (K.faults out.old) (K.faults out.new)) }
    ensures never_falls { K.faults out.old ≤ K.faults out.new }
{
    let shape = pcm.shape();
    let bank_lines = shape.array_lines() / shape.banks();
    print_header(report, text);
    for line in 0..array.lines() {
        print_next::<B, M, E, A, K>(report, pcm, array, line, bank_lines, text, out)?;
    }
    print_rest(text, out)
}
