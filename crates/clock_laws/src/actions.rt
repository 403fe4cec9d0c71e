//! The laws of an action that ends, of a power cut and of a cancel.

ghost use Rattle.clock_laws.specs.Actions.{ServeEndsLaw, BeginEndsLaw, IterateEndsLaw, KeepBeginEndsLaw, KeepIterateEndsLaw, CutTouchesLaw, CutEndsLaw, CancelEndsLaw, KeepCancelEndsLaw};
ghost use Rattle.clock_laws.specs.Completing.{CompletionLaw, KeepingLaw};
ghost use Rattle.clock_laws.specs.Putting.{PutLaw};

/// The action that runs from now on ends by its event, told by what the history says.
pub fn actions_end()
    ensures { CompletionLaw }
{}

/// A step of the writing of a change ends the action that runs from now on, told by what the history says.
pub fn steps_of_changes_end_actions()
    ensures { KeepingLaw }
{}

/// The change that an action brings is that of the history.
pub fn actions_put_changes()
    ensures { PutLaw }
{}

/// A serve ends.
pub fn serves_end()
    ensures { ServeEndsLaw }
{}

/// A begin ends, by each of its answers.
pub fn begins_end()
    ensures { BeginEndsLaw }
{}

/// An iteration ends, by each of its answers.
pub fn iterations_end()
    ensures { IterateEndsLaw }
{}

/// A begin of the writing of a change ends, by each of its answers.
pub fn begins_of_changes_end()
    ensures { KeepBeginEndsLaw }
{}

/// An iteration of it ends, by each of its answers.
pub fn iterations_of_changes_end()
    ensures { KeepIterateEndsLaw }
{}

/// What the calls of a power cut touch together.
pub fn calls_of_a_cut_touch_one_line()
    ensures { CutTouchesLaw }
{}

/// A power cut ends whatever runs.
pub fn cuts_end_actions()
    ensures { CutEndsLaw }
{}

/// A cancel ends the line write of the bank that runs.
pub fn cancels_end_actions()
    ensures { CancelEndsLaw }
{}

/// While a change stands a cancel ends its writing.
pub fn cancels_end_the_writing_of_changes()
    ensures { KeepCancelEndsLaw }
{}
