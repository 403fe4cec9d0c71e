//! The verdict on the results of a finished run: its rows keep each rule by which results are judged, so it is Yes. A law is what a
//! function here ensures; the functions do nothing when they run.
#![tactic(auto)]

ghost use Rattle.check_laws.specs.Ticks.{SoonLaw};
ghost use Rattle.check_laws.specs.Verdicts.{RulesKeptLaw, ServedRulesLaw, ServedYesLaw, YesLaw};

use check_verdict::verdicts_are_exact;
use run_laws::lines_have_their_banks;

/// Rows that are served as a run's are keep each rule by which results are judged, whether the power stays off behind them or not.
pub fn served_rows_keep_the_rules()
    ensures { ServedRulesLaw }
{
    lines_have_their_banks();
}

/// So the verdict on such rows and their outcomes is Yes.
pub fn served_rows_get_yes()
    ensures { ServedYesLaw }
{
    served_rows_keep_the_rules();
    verdicts_are_exact();
}

/// Each row of a right run keeps each rule.
pub fn right_runs_keep_the_rules()
    ensures { RulesKeptLaw }
{
    served_rows_keep_the_rules();
}

/// And the verdict on a right run's rows and outcomes is Yes.
pub fn right_runs_get_yes()
    ensures { YesLaw }
{
    served_rows_get_yes();
}

/// Where each row keeps each rule, the outcomes have come soon after the last row.
pub fn outcomes_come_soon()
    ensures { SoonLaw }
{}
