// When the power is cut.
ghost use Rattle.std.specs.Prelude.{◌≡◌, ◌+◌, ◌*◌, ◌≤◌, ◌<◌, IfOk, map, option_map};
ghost use Rattle.disk_words.specs.Cuts.{IsDrawn, drawn, later, listed};

use rand_core::{Rng, SeedableRng};
use rand_xoshiro::SplitMix64;
use std::alloc::{AllocError, Global};
use trace_reader::{LATEST_TICK, number};

/// Cuts at ticks that a seed draws.
#[derive(Clone, Copy, Drop)]
pub struct DrawnCuts {
    /// How many, 0 to 1,000,000.
    pub count: u32,
    /// Each comes 1 to twice so many ticks behind the one before.
    pub every: u64,
    /// Draws the ticks.
    pub seed: u64,
}

/// The ticks of drawn cuts.
pub(crate) fn draw(alloc: Global, cuts: DrawnCuts) -> Result<Vec<u64>, AllocError>
    requires { IsDrawn cuts }
    ensures { IfOk result (λ ticks. ticks.items ≡ drawn cuts) }
{
    let mut words = SplitMix64::seed_from_u64(cuts.seed);
    let mut ticks = Vec::with_capacity(alloc, cuts.count as usize)?;
    let mut tick = 0;
    for _ in 0..cuts.count {
        tick += 1 + words.next_u64() % (2 * cuts.every);
        ticks.push(tick)?;
    }
    Ok(ticks)
}

// The tick that a text writes, a later one than that before.
fn tick(text: &str, before: u64) -> Option<u64>
    ensures { result ≡ later text.now before }
{
    let tick = number(text.as_bytes(), 20, LATEST_TICK)?;
    if before < tick { Some(tick) } else { None }
}

/// The ticks that a list writes, with commas between them.
pub(crate) fn listed(alloc: Global, text: &str) -> Result<Option<Vec<u64>>, AllocError>
    ensures { IfOk result (λ ticks. option_map (λ v. v.items) ticks ≡ listed text.now) }
{
    let pieces: Vec<&str> = text.split(',').collect(alloc)?;
    let mut ticks = Vec::with_capacity(alloc, pieces.len())?;
    let mut before = 0;
    for piece in &pieces {
        let Some(tick) = tick(piece, before) else {
            return Ok(None);
        };
        ticks.push(tick)?;
        before = tick;
    }
    Ok(Some(ticks))
}
