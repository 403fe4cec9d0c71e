// Where a line of a module stands, and how worn it is there, as C sees it.
ghost use Rattle.std.specs.Prelude.{◌≡◌, unwrap_or};
ghost use Rattle.pcm_c.specs.Telling.{no_wear, told_standing};

use crate::wear::counted;
use cell_rows::CellWear;
use pcm_library::Standing;

/// Where a line of a module stands in the array, and how worn that array line is. Each count stays at the greatest of its type.
#[repr(C)]
#[derive(Drop)]
pub struct ModuleStanding {
    /// How often the array line was pulsed or torn.
    pub pulses: u64,
    /// How often it was sensed.
    pub senses: u64,
    /// How often a cell of it was driven to 1.
    pub set: u64,
    /// How often one was driven to 0.
    pub reset: u64,
    /// The array line.
    pub place: u32,
    /// How many of its cells are stuck.
    pub stuck: u32,
    /// The most changes that one of them has spent.
    pub changes: u32,
}

// What was counted of the cells; where nothing is counted, none.
fn worn(cells: Option<CellWear>) -> CellWear
    ensures { result ≡ unwrap_or cells no_wear }
{
    match cells {
        Some(cells) => cells,
        None => CellWear {
            stuck: 0,
            changes: 0,
        },
    }
}

/// Tells C where a line stands, and how worn it is there.
pub(crate) fn tell_standing(standing: &Standing, told: &mut ModuleStanding)
    ensures { told.new ≡ told_standing standing.now }
{
    let energy = counted(standing.wear.energy);
    let cells = worn(standing.wear.cells);
    told.pulses = standing.wear.pulses;
    told.senses = energy.senses;
    told.set = energy.set;
    told.reset = energy.reset;
    told.place = standing.place;
    told.stuck = cells.stuck;
    told.changes = cells.changes;
}
