//! Bytes laid over others, in place.
ghost use Rattle.std.specs.Prelude.{◌≡◌, if◌then◌else◌};
ghost use Rattle.masked_bytes.specs.Masked.{laid, joined, gives_all, gives_some};

// The byte above where it is given, and else that below. It has no branch: which bytes are given isn't known ahead.
fn picked(given: bool, above: u8, below: u8) -> u8
    ensures { result ≡ (if given then above else below) }
{
    let mask = 0u8.wrapping_sub(u8::from(given));
    below ^ (below ^ above) & mask
}

/// Writes the given ones of these bytes over others.
pub fn lay_over<const B: usize>(bytes: &[u8; B], given: &[bool; B], under: &mut [u8; B])
    ensures { under.new ≡ laid bytes.now given.now under.old }
{
    for i in 0..B {
        under[i] = picked(given[i], bytes[i], under[i]);
    }
}

/// Fills each byte that is not given from the bytes below.
pub fn fill_under<const B: usize>(bytes: &mut [u8; B], given: &[bool; B], under: &[u8; B])
    ensures { bytes.new ≡ laid bytes.old given.now under.now }
{
    let mut filled = *under;
    lay_over(bytes, given, &mut filled);
    *bytes = filled;
}

/// Adds the given set to another.
pub fn join_given<const B: usize>(given: &[bool; B], other: &mut [bool; B])
    ensures { other.new ≡ joined given.now other.old }
{
    for i in 0..B {
        other[i] |= given[i];
    }
}

/// Whether every byte is given.
pub fn has_all<const B: usize>(given: &[bool; B]) -> bool
    ensures { result ≡ gives_all given.now }
{
    given.iter().all(|g| *g)
}

/// Whether some byte is given.
pub fn has_some<const B: usize>(given: &[bool; B]) -> bool
    ensures { result ≡ gives_some given.now }
{
    given.iter().any(|g| *g)
}
