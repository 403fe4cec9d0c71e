// How worn a module is, as C sees it.
ghost use Rattle.std.specs.Prelude.{◌≡◌, unwrap_or};
ghost use Rattle.cell_rows.specs.Energy.{no_energy};
ghost use Rattle.pcm_c.specs.Telling.{told_wear};

use cell_rows::LineEnergy;
use row_printer::ArrayWear;

/// How worn a module is: numbers over all its array lines, free spares too. Each count stays at the greatest u64.
#[repr(C)]
#[derive(Drop)]
pub struct ModuleWear {
    /// The pulses of all lines.
    pub pulses: u64,
    /// The pulses of the line that has most.
    pub most: u64,
    /// The pulses of a line on average, rounded down.
    pub mean: u64,
    /// The pointers that are active by the check cells of their lines.
    pub pointers: u64,
    /// How often all lines were sensed.
    pub senses: u64,
    /// How often a cell was driven to 1.
    pub set: u64,
    /// How often a cell was driven to 0.
    pub reset: u64,
}

/// What was counted of the energy; where nothing is counted, none.
pub(crate) fn counted(energy: Option<LineEnergy>) -> LineEnergy
    ensures { result ≡ unwrap_or energy no_energy }
{
    match energy {
        Some(energy) => energy,
        None => LineEnergy {
            set: 0,
            reset: 0,
            senses: 0,
        },
    }
}

/// Tells C how worn a module is.
pub(crate) fn tell_wear(wear: &ArrayWear, told: &mut ModuleWear)
    ensures { told.new ≡ told_wear wear.now }
{
    let energy = counted(wear.energy);
    told.pulses = wear.pulses;
    told.most = wear.most;
    told.mean = wear.mean;
    told.pointers = wear.pointers;
    told.senses = energy.senses;
    told.set = energy.set;
    told.reset = energy.reset;
}
