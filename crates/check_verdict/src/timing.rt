//! How long a write may take, and a read.

ghost use Rattle.std.specs.Prelude.{◌≡◌, ◌<◌, ◌≤◌, ◌^◌, ◌+◌, ◌*◌};
ghost use Rattle.row_rules.specs.Ticking as ticking;
ghost use Rattle.check_verdict.specs.Within.{AreWithin};
ghost use Rattle.check_verdict.specs.Keeping.{delay_kept};

use bank_shape::Policy;
use row_rules::Rules;

/// The product of two numbers.
fn times(number: u64, other: u64) -> u64
    requires left { number < 2 ^ 31 }
    requires right { other < 2 ^ 31 }
    ensures value { result ≡ number * other }
    ensures bound { result < 2 ^ 62 }
{
    number * other
}

/// The longest time of one attempt to write a line.
fn attempt(rules: &Rules) -> u64
    requires { AreWithin rules.now }
    ensures value { result ≡ ticking.attempt rules.now }
    ensures bound { result ≤ 53_295 }
{
    rules.read_ticks as u64 + rules.steps as u64 * rules.iter_ticks as u64
}

/// How often one line write may be begun.
fn tries(policy: Policy) -> u64
    ensures value { result ≡ ticking.tries policy }
    ensures bound { result ≤ 5 }
{
    match policy {
        Policy::Cancel => 5,
        _ => 1,
    }
}

/// How many line writes come with some stores and cuts at most.
fn line_writes(rules: &Rules, stores: u64, cuts: u64) -> u64
    requires within { AreWithin rules.now }
    requires stores { stores ≤ 400_000 }
    requires cuts { cuts ≤ 400_000 }
    ensures value { result ≡ ticking.writings rules.now.twice * (2 * stores + rules.now.spares)
        + cuts }
    ensures bound { result < 2 ^ 31 }
{
    if rules.twice {
        2 * (2 * stores + rules.spares as u64) + cuts
    } else {
        2 * stores + rules.spares as u64 + cuts
    }
}

/// The longest time until a write is stored, in which some writes are stored, some reads are read and some cuts come.
pub fn longest(rules: &Rules, stores: u64, reads: u64, cuts: u64) -> u64
    requires within { AreWithin rules.now }
    requires stores { stores ≤ 400_000 }
    requires reads { reads ≤ 400_000 }
    requires cuts { cuts ≤ 400_000 }
    ensures value { result ≡ ticking.longest rules.now stores reads cuts }
    ensures bound { result < 2 ^ 63 }
{
    let once = times(tries(rules.policy), attempt(rules));
    times(once, line_writes(rules, stores, cuts)) + times(rules.read_ticks as u64, 2 * reads + cuts)
}

/// How long a read may find its bank busy with something else than reads; under Cancel it may only where four reads came since
/// the last store.
fn delay(rules: &Rules, four_came: bool) -> u64
    requires { AreWithin rules.now }
    ensures value { result ≡ delay_kept rules.now four_came }
    ensures bound { result ≤ 53_295 }
{
    let one = if rules.iter_ticks < rules.read_ticks {
        rules.read_ticks
    } else {
        rules.iter_ticks
    };
    match rules.policy {
        Policy::Pause => one as u64,
        Policy::Plain => attempt(rules),
        Policy::Cancel => { if four_came { one as u64 } else { 0 } }
    }
}

/// The tick by which a read that arrives at this one has ended, behind so many that wait.
pub fn bound(rules: &Rules, arrived: u64, waiting: u64, four_came: bool) -> u64
    requires within { AreWithin rules.now }
    requires arrived { arrived < 2 ^ 50 }
    requires waiting { waiting ≤ 400_000 }
    ensures value { result ≡ arrived + delay_kept rules.now four_came
        + (waiting + 1) * rules.now.read_ticks }
    ensures bound { result < 2 ^ 63 }
{
    arrived + delay(rules, four_came) + times(waiting + 1, rules.read_ticks as u64)
}
