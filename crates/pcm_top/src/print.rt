// What a run writes.
ghost use Rattle.std.specs.Prelude.{◌≡◌, ◌≢◌, ◌*◌, ◌≤◌, ℕ, List, length, OnOk, OnErr};
ghost use Rattle.std.specs.Io.KnownBytes.{Appends};
ghost use Rattle.pcm_io.specs.Faults.{Rose};
ghost use Rattle.pcm_io.specs.Giving.{AppendsPrefix};
ghost use Rattle.pcm_io.specs.Reserved.{reserved};
ghost use Rattle.right_runs.specs.Ends.{BankEnd};
ghost use Rattle.pcm_module.specs.State.{AreEndsOf};
ghost use Rattle.ecp_line.specs.Layout.{IsLayout};
ghost use Rattle.right_images.specs.Saving.{saved_of};
ghost use Rattle.image_text.specs.Sensing.{SensesRows, SensesSome};
ghost use Rattle.right_runs.specs.Runs.{RunsRight};
ghost use Rattle.module_prints.specs.WearReports.{HaveRoles};
ghost use Rattle.module_prints.specs.Images.{WritesRows, kept_in};
ghost use Rattle.pcm_top.specs.Images.{senses_for};
ghost use Rattle.pcm_top.specs.Printing.{MayPrint};
ghost use Rattle.pcm_top.specs.Rows.{rows_of};
ghost use Rattle.pcm_top.specs.RunText.{IsRunText};

use cell_rows::CellArray;
use command_line::{Print, RunJob};
use image_laws::images_are_of_their_runs;
use module_prints::{print_image, print_wear};
use pcm_io::{Sink, Text, WriteFault};
use pcm_module::Module;
use result_rows::Results;
use run_text::{print_counts, print_results, sum_pulses};
use text_printer::TEXT_ROOM;
use trace_reader::{Event, MOST_ROWS};

/// Writes what is asked for of a run that was made: its results, its summary, its wear report or its image.
/// For an image each line of the array is sensed once, in order, at tick 0; otherwise nothing happens to the
/// array.
pub fn print_run<const B: usize, const M: usize, const E: usize, A: CellArray<B, M>, K: Sink>(
    job: &RunJob,
    pcm: &Module<B, M, E>,
    array: &mut A,
    events: &[Event<B>],
    results: &Results<B>,
    text: &mut Text,
    out: &mut K,
) -> Result<(), WriteFault>
    requires layout { IsLayout B M E }
    requires room { text.old ≡ reserved TEXT_ROOM }
    requires rows { length events.now ≤ MOST_ROWS }
    requires may_print { MayPrint job.now pcm.now events.now results.now (A.state array.old) }
    ensures ok { OnOk result ((ends : ℕ → BankEnd) → AreEndsOf pcm.now ends
        → RunsRight E pcm.now.shape pcm.now.seed (rows_of events.now results.now)
        (A.state array.new) ends
        → HaveRoles pcm.now.shape pcm.now.seed ends
        → (whole : List ℕ)
        × IsRunText pcm.now.shape pcm.now.seed E events.now results.now ends (A.state array.new)
        job.now.print whole
        × Appends (K.written out.old) (K.written out.new) whole) }
    ensures prefix { OnErr result ((ends : ℕ → BankEnd) → AreEndsOf pcm.now ends
        → RunsRight E pcm.now.shape pcm.now.seed (rows_of events.now results.now)
        (A.state array.new) ends
        → HaveRoles pcm.now.shape pcm.now.seed ends
        → (whole : List ℕ)
        × IsRunText pcm.now.shape pcm.now.seed E events.now results.now ends (A.state array.new)
        job.now.print whole
        × AppendsPrefix (K.written out.old) (K.written out.new) whole) }
    ensures part { OnErr result (job.now.print ≡ Print.Image → WritesRows (A.state array.new)
        (saved_of pcm.now.shape pcm.now.seed (kept_in pcm.now) (A.state array.old))
        (K.written out.old) (K.written out.new)) }
    ensures sensed { SensesSome (senses_for job.now.print (A.state array.old).lines)
        (A.state array.old) (A.state array.new) }
    ensures all { OnOk result (SensesRows (senses_for job.now.print (A.state array.old).lines)
        (A.state array.old) (A.state array.new)) }
    ensures untouched { job.now.print ≢ Print.Image → array.new ≡ array.old }
    ensures fault { OnErr result (Rose (K.faults out.old) (K.faults out.new)) }
    ensures never_falls { K.faults out.old ≤ K.faults out.new }
{
    images_are_of_their_runs();
    match job.print {
        Print::Results => print_results(events, results, text, out),
        Print::Summary => print_counts(results, pcm.retired(), sum_pulses(array), text, out),
        Print::Wear => print_wear(pcm, array, text, out),
        Print::Image => print_image(pcm, job.seed, array, text, out),
    }
}
