// The sizes that a module is asked to have, and the first that it can't have.
ghost use Rattle.std.specs.Prelude.{◌≡◌, ◌≤◌, nat_le};
ghost use Rattle.module_shape.specs.Limits.{is_between, is_power_between, large_limits, small_limits, shape_fault, total_of};

use bank_shape::{Home, Policy};

/// The greatest sizes that a module may have.
#[derive(Clone, Copy, PartialEq, Eq)]
pub struct SizeLimits {
    /// How many banks, a power of two.
    pub banks: u32,
    /// How many regions in a bank, a power of two.
    pub regions: u32,
    /// How many lines in a region, a power of two.
    pub lines: u32,
    /// How many lines in all.
    pub total: u32,
}

/// Those of a small module, on which a whole trace is replayed: 4 MiB by lines of 64 bytes.
pub(crate) fn small_limits() -> SizeLimits
    ensures { result ≡ small_limits }
{
    SizeLimits {
        banks: 16,
        regions: 16,
        lines: 4096,
        total: 65_536,
    }
}

/// Those of a large module, which serves a stream: 4 GiB by lines of 64 bytes.
pub(crate) fn large_limits() -> SizeLimits
    ensures { result ≡ large_limits }
{
    SizeLimits {
        banks: 64,
        regions: 64,
        lines: 67_108_864,
        total: 67_108_864,
    }
}

/// The sizes of a module, in range or not: a small one, on which a whole trace is replayed, or a large one, which serves a
/// stream.
#[derive(Clone, Copy, PartialEq, Eq)]
pub struct RawShape {
    /// How many banks the module has: a power of two, 1 to 16, or to 64 in a large one.
    pub banks: u32,
    /// How many regions each bank has: a power of two, 1 to 16, or to 64 in a large one.
    pub regions: u32,
    /// How many lines each region has: a power of two, 4 to 4,096, and at most 65,536 in all; in a large module, at most
    /// 67,108,864 in all.
    pub lines: u32,
    /// How many spare lines each bank has, 0 to 1,024.
    pub spares: u32,
    /// How many writes the queue of a bank holds, 1 to 256.
    pub writes: u32,
    /// How many reads may wait at a bank, 1 to 256.
    pub reads: u32,
    /// How many stores of a region make one gap move due, 1 to 65,535.
    pub psi: u32,
    /// Ticks of a sense, 1 to 255.
    pub read_ticks: u32,
    /// Ticks of an iteration, 1 to 255.
    pub iter_ticks: u32,
    /// When a line write gives way to a read.
    pub policy: Policy,
    /// Where the banks keep their registers.
    pub home: Home,
}

/// A size of a module; `Total` is the number of its lines.
#[derive(Clone, Copy, PartialEq, Eq)]
pub enum Field {
    Banks,
    Regions,
    Lines,
    Total,
    Spares,
    Writes,
    Reads,
    Psi,
    ReadTicks,
    IterTicks,
}

/// Why a module can't have the sizes that it is asked to have: the first one out of range.
#[derive(Clone, Copy, PartialEq, Eq)]
pub struct BadShape {
    pub field: Field,
}

fn is_in(number: u32, least: u32, most: u32) -> bool
    ensures { result ≡ is_between least most number }
{
    least <= number && number <= most
}

fn is_power_in(number: u32, least: u32, most: u32) -> bool
    ensures { result ≡ is_power_between least most number }
{
    number.is_power_of_two() && is_in(number, least, most)
}

// Whether sizes give at most so many lines in all.
fn has_at_most(raw: &RawShape, most: u32) -> bool
    requires few_banks { raw.now.banks ≤ 64 }
    requires few_regions { raw.now.regions ≤ 64 }
    ensures { result ≡ nat_le (total_of raw.now) most }
{
    u64::from(raw.banks * raw.regions) * u64::from(raw.lines) <= u64::from(most)
}

/// The first size out of range.
#[tactic(auto, unfolding(crate::specs::Limits::shape_fault))]
pub fn fault(raw: &RawShape, most: &SizeLimits) -> Option<Field>
    requires few_banks { most.now.banks ≤ 64 }
    requires few_regions { most.now.regions ≤ 64 }
    ensures { result ≡ shape_fault most.now raw.now }
{
    if !is_power_in(raw.banks, 1, most.banks) {
        Some(Field::Banks)
    } else if !is_power_in(raw.regions, 1, most.regions) {
        Some(Field::Regions)
    } else if !is_power_in(raw.lines, 4, most.lines) {
        Some(Field::Lines)
    } else if !has_at_most(raw, most.total) {
        Some(Field::Total)
    } else if raw.spares > 1024 {
        Some(Field::Spares)
    } else if !is_in(raw.writes, 1, 256) {
        Some(Field::Writes)
    } else if !is_in(raw.reads, 1, 256) {
        Some(Field::Reads)
    } else if !is_in(raw.psi, 1, 65_535) {
        Some(Field::Psi)
    } else if !is_in(raw.read_ticks, 1, 255) {
        Some(Field::ReadTicks)
    } else if !is_in(raw.iter_ticks, 1, 255) {
        Some(Field::IterTicks)
    } else {
        None
    }
}
