//! Sorted keys of a module's stored and read rows. Each is one number, which is sorted in half the time of a pair.

ghost use Rattle.std.specs.Prelude.{◌≡◌, ◌<◌, ◌≤◌, ◌+◌, ◌^◌, ℕ, nat_lt, slice_get, length};
ghost use Rattle.std.specs.List.Sorted.{IsNonDecreasing};
ghost use Rattle.check_judging.specs.Keys as spec;
ghost use Rattle.check_verdict.specs.Covering.{comes_by};

/// Ticks lie below this.
const REACH: u64 = 1_125_899_906_842_624;

/// The key of a tick of a bank.
pub fn key(bank: u8, tick: u64) -> u64
    requires { tick < spec.reach }
    ensures { result ≡ spec.key bank tick }
{
    bank as u64 * REACH + tick
}

/// The key of a tick of a line.
pub fn line_key(line: u32, tick: u64) -> u128
    ensures { result ≡ spec.key line tick }
{
    line as u128 * REACH as u128 + tick as u128
}

/// How many of these keys, which don't fall, are at most this one.
pub fn up_to(keys: &[u64], key: u64) -> usize
    requires { IsNonDecreasing keys.now }
    ensures number { result ≡ spec.up_to key keys.now }
    ensures bound { result ≤ length keys.now }
{
    keys.partition_point(
        |k: &u64| -> bool
            ensures { result ≡ spec.is_up_to key k.now }
        { *k <= key },
    )
}

/// How many of these keys lie above the first and up to the second.
pub fn between(keys: &[u64], above: u64, key: u64) -> usize
    requires sorted { IsNonDecreasing keys.now }
    requires order { above ≤ key }
    ensures { spec.up_to above keys.now + result ≡ spec.up_to key keys.now }
{
    up_to(keys, key) - up_to(keys, above)
}

/// The key at an index, if there is one.
fn key_at(keys: &[u128], index: usize) -> Option<u128>
    ensures { result ≡ slice_get keys.now index }
{
    keys.get(index).copied()
}

/// The next of these keys, which don't fall, above this one: so it is at most another exactly where keys lie between the two.
pub fn next_key(keys: &[u128], key: u128) -> Option<u128>
    requires { IsNonDecreasing keys.now }
    ensures { (other : ℕ) → nat_lt (spec.up_to key keys.now) (spec.up_to other keys.now)
        ≡ comes_by other result }
{
    let index = keys.partition_point(
        |k: &u128| -> bool
            ensures { result ≡ spec.is_up_to key k.now }
        { *k <= key },
    );
    key_at(keys, index)
}
