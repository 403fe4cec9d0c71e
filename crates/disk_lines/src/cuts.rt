// When the power is cut.
ghost use Rattle.std.specs.Prelude.{◌≡◌, ◌∷◌, ◌<◌, ◌≤◌, length, IfSome, None};
ghost use Rattle.disk_lines.specs.Cutting.{come_from, left_of, left_behind};

/// The ticks at which the power is to be cut, in order. Each comes once: at its tick, or at once where that is past.
#[derive(Drop)]
pub(crate) struct Cuts {
    pub(crate) ticks: Vec<u64>,
    // How many of them came.
    pub(crate) came: usize,
}

impl Cuts {
    // The tick of the next cut, where it comes by a tick, from now on.
    pub(crate) fn due_by(&self, now: u64, tick: u64) -> Option<u64>
        requires { now ≤ tick }
        ensures by { IfSome result (λ at. (now ≤ at) × (at ≤ tick)) }
        ensures some { IfSome result (λ at. self.now.came < length self.now.ticks.items) }
        ensures next { IfSome result (λ at. come_from now (left_of self.now)
            ≡ at ∷ come_from at (left_behind self.now)) }
        ensures none { result ≡ None
            → come_from tick (left_of self.now) ≡ come_from now (left_of self.now) }
    {
        let next = *self.ticks.get(self.came)?;
        if next > tick {
            return None;
        }
        Some(next.max(now))
    }
}
