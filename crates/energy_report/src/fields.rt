// The fields of the counts of energy.
ghost use Rattle.std.specs.Prelude.{◌≡◌, ◌+◌, ◌≤◌};
ghost use Rattle.pcm_io.specs.Reserved.{appended, room_in};
ghost use Rattle.energy_report.specs.EnergyText.{energy_text};

use cell_rows::LineEnergy;
use pcm_io::Text;

/// Appends how often was sensed, and how many cells were driven to 1 and to 0; all three are empty where nothing is told.
#[tactic(auto, using(pcm_io::proofs::DigitLemmas::twenty_digits))]
pub fn push_energy(energy: Option<LineEnergy>, text: &mut Text)
    requires { 62 ≤ room_in text.old }
    ensures after { text.new ≡ appended text.old (energy_text energy) }
    ensures room { room_in text.old ≤ room_in text.new + 62 }
{
    match energy {
        Some(energy) => {
            text.push_number_then(energy.senses, b",");
            text.push_number_then(energy.set, b",");
            text.push_number(energy.reset);
        }
        None => text.push(b",,"),
    }
}
