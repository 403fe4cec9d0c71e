//! What the counts of energy say of the cells of a line: a pulse drives no cell that has its wanted value, so no more cells change than are
//! driven, and where none misses or sticks just as many. A law is what a function here ensures; the functions do nothing when they run.
#![tactic(auto)]

ghost use Rattle.energy_laws.specs.Changes.{ChangedLaw, DrivenLaw, WrongLaw};

/// A lawful pulse drives only cells that don't hold what is wanted.
pub fn only_wrong_cells_are_driven()
    ensures { WrongLaw }
{}

/// Of any lawful pulse or tear: no more cells go to 1 than are set, and no more to 0 than are reset.
pub fn only_driven_cells_change()
    ensures { ChangedLaw }
{}

/// Of a lawful pulse in an array whose cells never miss, behind which no cell is stuck: as many cells go to 1 as are set, and as many to 0 as
/// are reset.
pub fn driven_cells_change()
    ensures { DrivenLaw }
{}
