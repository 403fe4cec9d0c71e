// What holds of every disk on a module. A law is what a function here ensures; the functions do nothing when they run.
ghost use Rattle.disk_lines.specs.Places.{PlacesLaw};

/// The lines of a disk and those of its module are each other's, one to one, and those that follow one another lie in different banks.
pub fn places_are_one_to_one()
    ensures { PlacesLaw }
{}
