//! The worked run gets Yes, and altered ones get the verdict that they should. Each clause is computed from the
//! definitions; there is nothing to run.

ghost use Rattle.std.specs.Prelude.{◌≡◌};
ghost use Rattle.check_verdict.specs.Verdicts.{no};
ghost use Rattle.check_verdict.specs.declared.Rule.TheVariants.{Serves, Tick};
ghost use Rattle.check_verdict.specs.declared.Verdict.TheVariants.{Yes};
ghost use Rattle.worked_tables.specs.Runs.{reading, misplaced};
ghost use Rattle.worked_tables.specs.Verdicts.{verdict_on, read_at};

/// A right run gets Yes; stale bytes and a read out of time don't. No rule speaks of places.
pub fn worked_runs_get_their_verdicts()
    ensures right { verdict_on (reading 0x11 0) ≡ Yes }
    ensures stale { verdict_on (reading 0 0) ≡ no 2 Serves }
    ensures early { verdict_on (read_at 104) ≡ no 2 Tick }
    ensures latest { verdict_on (read_at 115) ≡ Yes }
    ensures late { verdict_on (read_at 116) ≡ no 2 Tick }
    ensures misplaced { verdict_on misplaced ≡ Yes }
{}
