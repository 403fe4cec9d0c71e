//! How the events of several calls add up, what a bank does not touch, and what its history leaves.

ghost use Rattle.clock_laws.specs.Extending.{NothingAddedLaw, OneAddedLaw, ArrivalAddedLaw, BothAddedLaw, ElsewhereLaw, BeforeLaw, BehindLaw, ControlsStayLaw, BankStaysLaw};
ghost use Rattle.clock_laws.specs.Ending.{LeavingLaw, UntouchedLaw};

/// No event leaves an array as it was.
pub fn no_event_adds_nothing()
    ensures { NothingAddedLaw }
{}

/// One event adds what it touches.
pub fn an_event_adds_what_it_touches()
    ensures { OneAddedLaw }
{}

/// An arrival adds nothing.
pub fn arrivals_add_nothing()
    ensures { ArrivalAddedLaw }
{}

/// The events of two calls add up.
pub fn events_add_up()
    ensures { BothAddedLaw }
{}

/// A history leads to its bank over any other array in which each line of the bank is the same.
pub fn other_lines_do_not_matter()
    ensures { ElsewhereLaw }
{}

/// A history leaves the array with its pulses, and with its retired lines worn.
pub fn histories_leave_the_array()
    ensures { LeavingLaw }
{}

/// A history leaves every unused check cell of the bank's lines untouched.
pub fn unused_cells_stay_untouched()
    ensures { UntouchedLaw }
{}

/// What touches nothing adds nothing to what comes behind it.
pub fn nothing_goes_before()
    ensures { BeforeLaw }
{}

/// What pulses no line adds what it senses to what came before it.
pub fn senses_come_behind()
    ensures { BehindLaw }
{}

/// The bank's line write leaves the control lines as they were.
pub fn control_lines_stay()
    ensures { ControlsStayLaw }
{}

/// A bank holds over an array in which a control line was pulsed or torn.
pub fn banks_hold_over_control_lines()
    ensures { BankStaysLaw }
{}
