// When the next action ends.
ghost use Rattle.std.specs.Prelude.{◌≡◌, ◌≤◌};
ghost use Rattle.bank_timing.specs.Extending.{last_tick, next_end};

use crate::clocked::Timed;

impl<const B: usize, const M: usize, const E: usize> Timed<B, M, E> {
    /// The tick at which the action that runs from now on ends, but at most this one, also where nothing is to do.
    pub fn next_end(&self, to: u64) -> u64
        requires within { self.now.tick ≤ last_tick }
        ensures { result ≡ next_end to self.now }
    {
        let pace = self.pace;
        match self.next_action() {
            None => to,
            Some(action) => action.ends(pace.read, pace.iter).min(to),
        }
    }
}
