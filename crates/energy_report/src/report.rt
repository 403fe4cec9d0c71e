// The report of energy.
ghost use Rattle.std.specs.Prelude.{◌≡◌, ◌+◌, ◌*◌, ◌≤◌, length, OnOk, OnErr};
ghost use Rattle.std.specs.Io.KnownBytes.{Appends};
ghost use Rattle.pcm_io.specs.Faults.{Rose};
ghost use Rattle.pcm_io.specs.Giving.{AppendsPrefix};
ghost use Rattle.pcm_io.specs.Reserved.{appended, reserved, room_in};
ghost use Rattle.std.specs.Prelude.{decimal};
ghost use Rattle.text_printer.specs.Printing.{Prints};
ghost use Rattle.energy_report.specs.EnergyText.{all_row, bank_rows, energy_report, energy_row};

use crate::fields::push_energy;
use crate::sums::sum_energy;
use cell_rows::{LineEnergy, TellsCells};
use pcm_io::{Sink, Text, WriteFault};
use text_printer::{Printer, ROW_ROOM, TEXT_ROOM};

#[tactic(auto, using(pcm_io::proofs::DigitLemmas::ten_digits))]
fn push_bank(bank: u32, energy: Option<LineEnergy>, text: &mut Text)
    requires { 74 ≤ room_in text.old }
    ensures { text.new ≡ appended text.old (energy_row (decimal bank) energy) }
{
    text.push_number_then(bank as u64, b",");
    push_energy(energy, text);
    text.push(b"\n");
}

fn push_all(energy: Option<LineEnergy>, text: &mut Text)
    requires { 74 ≤ room_in text.old }
    ensures { text.new ≡ appended text.old (all_row energy) }
{
    text.push(b"all,");
    push_energy(energy, text);
    text.push(b"\n");
}

// Adds the row of a bank.
fn print_bank<K: Sink>(bank: u32, energy: Option<LineEnergy>, printer: &mut Printer<K>)
    requires { ROW_ROOM ≤ printer.old.text.now.limit }
    ensures { Prints K.written K.faults printer.old printer.new (energy_row (decimal bank) energy) }
{
    printer.make_room();
    push_bank(bank, energy, printer.text);
}

// Adds the row of all lines.
fn print_all<K: Sink>(energy: Option<LineEnergy>, printer: &mut Printer<K>)
    requires { ROW_ROOM ≤ printer.old.text.now.limit }
    ensures { Prints K.written K.faults printer.old printer.new (all_row energy) }
{
    printer.make_room();
    push_all(energy, printer.text);
}

// Adds the rows of the banks.
fn print_banks<A: TellsCells<B, M>, const B: usize, const M: usize, K: Sink>(
    array: &A,
    banks: u32,
    lines: u32,
    printer: &mut Printer<K>,
)
    requires limit { ROW_ROOM ≤ printer.old.text.now.limit }
    requires size { (A.state array.now).lines ≡ banks * lines }
    requires fit { banks * lines ≤ 4294967295 }
    ensures { Prints K.written K.faults printer.old printer.new
        (bank_rows (A.state array.now).energy lines banks) }
{
    for bank in 0..banks {
        print_bank(bank, sum_energy(array, bank * lines, lines), printer);
    }
}

/// Writes a row for each of an array's banks, which have so many lines each, and one for all lines.
pub fn print_energy_report<A: TellsCells<B, M>, const B: usize, const M: usize, K: Sink>(
    array: &A,
    banks: u32,
    lines: u32,
    text: &mut Text,
    out: &mut K,
) -> Result<(), WriteFault>
    requires room { text.old ≡ reserved TEXT_ROOM }
    requires size { (A.state array.now).lines ≡ banks * lines }
    ensures ok { OnOk result (Appends (K.written out.old) (K.written out.new)
        (energy_report (A.state array.now).energy banks lines)) }
    ensures prefix { OnErr result (AppendsPrefix (K.written out.old) (K.written out.new)
        (energy_report (A.state array.now).energy banks lines)) }
    ensures fault { OnErr result (Rose (K.faults out.old) (K.faults out.new)) }
    ensures never_falls { K.faults out.old ≤ K.faults out.new }
{
    let all = array.lines();
    let mut printer = Printer::new(text, out);
    printer.push(b"bank,senses,set,reset\n");
    print_banks(array, banks, lines, &mut printer);
    print_all(sum_energy(array, 0, all), &mut printer);
    printer.finish()
}
