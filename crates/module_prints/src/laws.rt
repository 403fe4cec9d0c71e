//! Where a map and the command `map` say the same. The law is what the function here ensures; the function does nothing when it runs.
ghost use Rattle.module_prints.specs.StandingMap.{MapLaw};

/// Where every region made as many gap moves and no slot has a spare, the map of a module is the text of the command `map` by its options.
pub fn maps_are_told_alike()
    ensures { MapLaw }
{}
