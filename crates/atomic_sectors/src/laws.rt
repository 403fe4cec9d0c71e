//! What holds before the first write. A law is what a function here ensures; the functions do
//! nothing when they run.
ghost use Rattle.atomic_sectors.specs.Serving.{NewLaw};

/// Where nothing was written, the sectors are whole, and each line of them is zeros.
pub fn new_lines_are_whole_sectors()
    ensures { NewLaw }
{}
