// An outcome, as C sees it.
ghost use Rattle.std.specs.Prelude.{◌≡◌, ◌≤◌, Some, unwrap_or, option_map};
ghost use Rattle.result_rows.specs.Outcomes.{bytes_of, place_of, tick_of};
ghost use Rattle.pcm_c.specs.Telling.{IsTold, kind_of};

use pcm_library::KeptOutcome;
use result_rows::Outcome;

/// What became of a row.
#[repr(C)]
#[derive(Drop)]
pub struct ModuleOutcome {
    pub kind: u32,
    /// The row's number, from 1.
    pub row: u32,
    pub tick: u64,
    /// The array line of a stored write, or of a read.
    pub place: u32,
    /// How many bytes a read answered.
    pub size: u32,
    pub bytes: [u8; 128],
}

// The number of its kind in C.
fn kind<const B: usize>(outcome: &Outcome<B>) -> u32
    ensures { result ≡ kind_of outcome.now }
{
    match outcome {
        Outcome::Stored { .. } => 0,
        Outcome::Merged { .. } => 1,
        Outcome::Queued { .. } => 2,
        Outcome::Full { .. } => 3,
        Outcome::Worn { .. } => 4,
        Outcome::Read { .. } => 5,
        Outcome::Forwarded { .. } => 6,
        Outcome::Busy { .. } => 7,
        Outcome::Lost { .. } => 8,
        Outcome::Cut { .. } => 9,
        Outcome::Unset => 10,
    }
}

// Its tick.
fn tick<const B: usize>(outcome: &Outcome<B>) -> u64
    ensures { result ≡ unwrap_or (tick_of outcome.now) 0 }
{
    match outcome {
        Outcome::Stored { tick, .. }
        | Outcome::Merged { tick }
        | Outcome::Queued { tick }
        | Outcome::Full { tick }
        | Outcome::Worn { tick }
        | Outcome::Read { tick, .. }
        | Outcome::Forwarded { tick, .. }
        | Outcome::Busy { tick }
        | Outcome::Lost { tick }
        | Outcome::Cut { tick } => *tick,
        Outcome::Unset => 0,
    }
}

// Its place, or 0.
fn place<const B: usize>(outcome: &Outcome<B>) -> u32
    ensures { result ≡ unwrap_or (place_of outcome.now) 0 }
{
    match outcome {
        Outcome::Stored { place, .. } | Outcome::Read { place, .. } => *place,
        _ => 0,
    }
}

// Its bytes.
fn bytes<const B: usize>(outcome: &Outcome<B>) -> Option<&[u8; B]>
    ensures { option_map (λ bytes. bytes.now) result ≡ bytes_of outcome.now }
{
    match outcome {
        Outcome::Read { bytes, .. } | Outcome::Forwarded { bytes, .. } => Some(bytes),
        _ => None,
    }
}

/// Tells an outcome to C.
pub(crate) fn tell<const B: usize>(kept: &KeptOutcome<B>, told: &mut ModuleOutcome)
    requires few { B ≤ 128 }
    ensures { IsTold kept.now told.new }
{
    told.kind = kind(&kept.outcome);
    told.row = kept.row;
    told.tick = tick(&kept.outcome);
    told.place = place(&kept.outcome);
    match bytes(&kept.outcome) {
        Some(bytes) => {
            told.size = B as u32;
            told.bytes[..B].copy_from_slice(bytes);
        }
        None => told.size = 0,
    }
}
