// The calls of a source or a sink in memory, of which chosen ones fail.
ghost use Rattle.std.specs.Prelude.{◌≡◌, ◌≤◌};
ghost use Rattle.pcm_io.specs.Faults.{raised_by};
ghost use Rattle.pcm_io.specs.Schedule.{planned, next_fails, after_call};

use crate::fault::Failed;
use std::marker::Model;

#[derive(Drop)]
pub(crate) struct Calls {
    made: u64,
    failing: Vec<u32>,
    faults: u64,
}

impl Model for Calls {
    ghost use Rattle.pcm_io.specs.Schedule.{Schedule};

    ghost Value = { Schedule };

    ghost view = { λ c. record { made = c.made; failing = c.failing.items; faults = c.faults } };
}

impl Calls {
    pub(crate) fn new(failing: Vec<u32>) -> Calls
        ensures { result ≡ planned failing.items }
    {
        Calls {
            made: 0,
            failing,
            faults: 0,
        }
    }

    // Counts one more call, and says whether it fails.
    pub(crate) fn next_fails(&mut self) -> bool
        ensures fails { result ≡ next_fails self.old }
        ensures counted { self.new ≡ after_call self.old }
    {
        self.made = self.made.saturating_add(1);
        let number = self.made;
        self.failing.iter().any(|&failing| failing as u64 == number)
    }

    pub(crate) fn fail(&mut self) -> Failed
        ensures counted { self.new ≡ record self.old { faults = raised_by self.old.faults 1 } }
        ensures never_falls { self.old.faults ≤ self.new.faults }
    {
        self.faults = self.faults.saturating_add(1);
        Failed
    }
}
