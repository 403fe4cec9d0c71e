//! That every run that was made can be printed. The law is what the function here ensures; the function does
//! nothing when it runs.
ghost use Rattle.pcm_top.specs.Laws.{PrintableLaw};

use run_laws::{array_lines_have_one_role, rows_have_their_own_outcomes};

/// Each row of a right run can be printed, and each array line has one role.
pub fn right_runs_can_be_printed()
    ensures { PrintableLaw }
{
    rows_have_their_own_outcomes();
    array_lines_have_one_role();
}
