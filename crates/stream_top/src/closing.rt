// What a stream writes in the end, of what it left.
ghost use Rattle.std.specs.Prelude.{◌≡◌, ◌≢◌, ◌*◌, ◌≤◌, ℕ, List, OnOk, OnErr};
ghost use Rattle.std.specs.Io.KnownBytes.{Appends};
ghost use Rattle.pcm_io.specs.Faults.{Rose};
ghost use Rattle.pcm_io.specs.Giving.{AppendsPrefix};
ghost use Rattle.pcm_io.specs.Reserved.{reserved};
ghost use Rattle.ecp_line.specs.Layout.{IsLayout};
ghost use Rattle.module_shape.specs.Addresses.{array_lines_of, module_of};
ghost use Rattle.module_shape.specs.Limits.{IsSmall};
ghost use Rattle.right_runs.specs.Ends.{BankEnd};
ghost use Rattle.right_images.specs.Saving.{saved_of};
ghost use Rattle.image_text.specs.Sensing.{SensesRows, SensesSome};
ghost use Rattle.pcm_module.specs.State.{AreEndsOf};
ghost use Rattle.module_prints.specs.Images.{HasImage, kept_in};
ghost use Rattle.module_prints.specs.WearReports.{HaveRoles, cells_at};
ghost use Rattle.stream_top.specs.Leaving.{IsClosing, WritesRowsOf, senses_for, spelled};

use cell_rows::{CellArray, TellsCells};
use large_prints::print_large_image;
use module_prints::{
    Report, print_energy, print_image, print_lines, print_map, print_pulsed, print_wear,
};
use pcm_io::{Sink, Text, WriteFault};
use pcm_module::Module;
use run_text::{OutcomeCounts, print_rest, print_summary, sum_pulses};
use stream_words::{Skip, StreamJob, StreamPrint};
use text_printer::TEXT_ROOM;

// Writes the image of a module with this seed over its array, as one of its sizes is spelled. Each array line is sensed once for it, in order,
// at tick 0, and nothing else happens to the array; after a fault no line is sensed any more.
fn print_spelled<const B: usize, const M: usize, const E: usize, A: CellArray<B, M>, K: Sink>(
    pcm: &Module<B, M, E>,
    seed: u64,
    array: &mut A,
    text: &mut Text,
    out: &mut K,
) -> Result<(), WriteFault>
    requires layout { IsLayout B M E }
    requires room { text.old ≡ reserved TEXT_ROOM }
    requires seed { seed ≡ pcm.now.seed }
    requires image { IsSmall pcm.now.shape → HasImage pcm.now }
    ensures ok { OnOk result (Appends (K.written out.old) (K.written out.new)
        (spelled pcm.now.shape
        (saved_of pcm.now.shape seed (kept_in pcm.now) (A.state array.old)))) }
    ensures prefix { OnErr result (AppendsPrefix (K.written out.old) (K.written out.new)
        (spelled pcm.now.shape
        (saved_of pcm.now.shape seed (kept_in pcm.now) (A.state array.old)))) }
    ensures part { OnErr result (WritesRowsOf pcm.now.shape (A.state array.new)
        (saved_of pcm.now.shape seed (kept_in pcm.now) (A.state array.old))
        (K.written out.old) (K.written out.new)) }
    ensures sensed { SensesSome (A.state array.old).lines (A.state array.old) (A.state array.new) }
    ensures all { OnOk result (SensesRows (A.state array.old).lines (A.state array.old)
        (A.state array.new)) }
    ensures fault { OnErr result (Rose (K.faults out.old) (K.faults out.new)) }
    ensures never_falls { K.faults out.old ≤ K.faults out.new }
{
    if pcm.shape().is_small() {
        print_image(pcm, seed, array, text, out)
    } else {
        print_large_image(pcm, seed, array, text, out)
    }
}

/// Writes what is asked for in the end of a stream that was served: its summary, a report with a row for each array line, the map of its
/// lines, the report of energy, or the image of what it left; behind rows and snapshots nothing. For an image each line of the array is
/// sensed once, in order, at tick 0; otherwise nothing happens to the array.
pub fn print_closing<const B: usize, const M: usize, const E: usize, A: TellsCells<B, M>, K: Sink>(
    job: &StreamJob,
    pcm: &Module<B, M, E>,
    array: &mut A,
    rows: u32,
    counts: &OutcomeCounts,
    text: &mut Text,
    out: &mut K,
) -> Result<(), WriteFault>
    requires layout { IsLayout B M E }
    requires room { text.old ≡ reserved TEXT_ROOM }
    requires seed { job.now.seed ≡ pcm.now.seed }
    requires image { IsSmall pcm.now.shape → HasImage pcm.now }
    requires size { (A.state array.old).lines
        ≡ pcm.now.shape.banks * array_lines_of (module_of pcm.now.shape) }
    ensures ok { OnOk result ((ends : ℕ → BankEnd) → AreEndsOf pcm.now ends
        → HaveRoles pcm.now.shape pcm.now.seed ends
        → (whole : List ℕ) × IsClosing pcm.now.shape pcm.now.seed rows counts.now ends
        (A.state array.old)
        (cells_at E (A.state array.old) (A.changes array.old))
        (saved_of pcm.now.shape pcm.now.seed (kept_in pcm.now) (A.state array.old)) job.now.print
        whole
        × Appends (K.written out.old) (K.written out.new) whole) }
    ensures prefix { OnErr result ((ends : ℕ → BankEnd) → AreEndsOf pcm.now ends
        → HaveRoles pcm.now.shape pcm.now.seed ends
        → (whole : List ℕ) × IsClosing pcm.now.shape pcm.now.seed rows counts.now ends
        (A.state array.old)
        (cells_at E (A.state array.old) (A.changes array.old))
        (saved_of pcm.now.shape pcm.now.seed (kept_in pcm.now) (A.state array.old)) job.now.print
        whole
        × AppendsPrefix (K.written out.old) (K.written out.new) whole) }
    ensures part { OnErr result (job.now.print ≡ StreamPrint.Image → WritesRowsOf pcm.now.shape
        (A.state array.new)
        (saved_of pcm.now.shape pcm.now.seed (kept_in pcm.now) (A.state array.old))
        (K.written out.old) (K.written out.new)) }
    ensures sensed { SensesSome (senses_for job.now.print (A.state array.old).lines)
        (A.state array.old) (A.state array.new) }
    ensures all { OnOk result (SensesRows (senses_for job.now.print (A.state array.old).lines)
        (A.state array.old) (A.state array.new)) }
    ensures untouched { job.now.print ≢ StreamPrint.Image → array.new ≡ array.old }
    ensures fault { OnErr result (Rose (K.faults out.old) (K.faults out.new)) }
    ensures never_falls { K.faults out.old ≤ K.faults out.new }
{
    match job.print {
        StreamPrint::Rows(_) => Ok(()),
        StreamPrint::Snapshots(_) => Ok(()),
        StreamPrint::Summary => {
            print_summary(rows, counts, pcm.retired(), sum_pulses(array), text);
            print_rest(text, out)
        }
        StreamPrint::Wear(Skip::Nothing) => print_wear(pcm, array, text, out),
        StreamPrint::Wear(Skip::Unpulsed) => print_pulsed(Report::Wear, pcm, array, text, out),
        StreamPrint::Lines(Skip::Nothing) => print_lines(pcm, array, text, out),
        StreamPrint::Lines(Skip::Unpulsed) => print_pulsed(Report::Lines, pcm, array, text, out),
        StreamPrint::Map => print_map(pcm, text, out),
        StreamPrint::Energy => print_energy(pcm, array, text, out),
        StreamPrint::Image => print_spelled(pcm, job.seed, array, text, out),
    }
}
