//! The rules that a module's rows keep.
ghost use Rattle.std.specs.Prelude.{◌≡◌, ◌≤◌};
ghost use Rattle.check_verdict.specs.Within.{AreWithin};
ghost use Rattle.right_runs.specs.Banks.{rules_in};

use module_shape::{Home, Shape};
use result_check::Rules;

/// The rules of the banks of a module of this shape, whose lines have E error-correcting pointers.
pub fn rules<const E: usize>(shape: &Shape) -> Rules
    requires few { E ≤ 8 }
    ensures exact { result ≡ rules_in E shape.now 0 }
    ensures within { AreWithin result }
{
    let raw = shape.raw();
    Rules {
        writes: raw.writes,
        reads: raw.reads,
        spares: raw.spares,
        read_ticks: raw.read_ticks,
        iter_ticks: raw.iter_ticks,
        steps: 8 * (3 * E as u32 + 2),
        policy: raw.policy,
        twice: match raw.home {
            Home::Guarded => false,
            Home::Array => true,
        },
    }
}
