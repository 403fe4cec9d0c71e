// Where the lines of a module stand, as `map` tells it.
ghost use Rattle.std.specs.Prelude.{◌≡◌, ◌≤◌, ℕ, OnOk, OnErr};
ghost use Rattle.std.specs.Io.KnownBytes.{Appends};
ghost use Rattle.pcm_io.specs.Faults.{Rose};
ghost use Rattle.pcm_io.specs.Giving.{AppendsPrefix};
ghost use Rattle.pcm_io.specs.Reserved.{reserved};
ghost use Rattle.right_runs.specs.Ends.{BankEnd};
ghost use Rattle.pcm_module.specs.State.{AreEndsOf};
ghost use Rattle.module_prints.specs.StandingMap.{standing_map};

use pcm_io::{Sink, Text, WriteFault};
use pcm_module::Module;
use rotation_reports::{print_map_header, push_standing};
use run_text::{make_room, print_rest};
use text_printer::TEXT_ROOM;

/// Writes a row for each line of the module: where it stands now, by the registers and the remap tables of the banks.
pub fn print_map<const B: usize, const M: usize, const E: usize, K: Sink>(
    pcm: &Module<B, M, E>,
    text: &mut Text,
    out: &mut K,
) -> Result<(), WriteFault>
    requires room { text.old ≡ reserved TEXT_ROOM }
    ensures ok { OnOk result ((ends : ℕ → BankEnd) → AreEndsOf pcm.now ends
        → Appends (K.written out.old) (K.written out.new)
        (standing_map pcm.now.shape pcm.now.seed ends)) }
    ensures prefix { OnErr result ((ends : ℕ → BankEnd) → AreEndsOf pcm.now ends
        → AppendsPrefix (K.written out.old) (K.written out.new)
        (standing_map pcm.now.shape pcm.now.seed ends)) }
    ensures fault { OnErr result (Rose (K.faults out.old) (K.faults out.new)) }
    ensures never_falls { K.faults out.old ≤ K.faults out.new }
{
    print_map_header(text);
    for line in 0..pcm.shape().total() {
        make_room(text, out)?;
        let standing = pcm.standing(line);
        push_standing(line, standing.address, standing.place, standing.array, text);
    }
    print_rest(text, out)
}
