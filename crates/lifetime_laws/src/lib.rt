//! The lifetime that Start-Gap (Qureshi et al., MICRO 2009) gives a module: how the stores of one line are
//! spread over the array lines of its region, how many line writes an array line takes, and that over cells
//! that endure so many changes no line of a slot wears out, however often cells miss. A law is what a
//! function here ensures; the functions do nothing when they run.
#![tactic(auto)]

ghost use Rattle.lifetime_laws.specs.Spread.{AnyLineLaw, CopiesLaw, EvenLaw, FoundLaw, OneStayLaw, SpreadLaw, StayLaw, TightLaw};
ghost use Rattle.lifetime_laws.specs.Endurance.{NoneRetiredLaw, SoundRowsLaw, UnwornLaw};
ghost use Rattle.lifetime_laws.specs.Works.{ControlAgesLaw, ControlPulsesLaw, LineAgesLaw, LinePulsesLaw, PulsesOnLaw, WorksLaw};
ghost use Rattle.lifetime_laws.specs.Lifetime.{AskedLaw, AttackLaw, ControlsLaw, HotLinesLaw, KeptLinesLaw, LifetimeLaw};

/// Whatever the trace: of the first so many stores of a region at most so many find a line at one slot.
pub fn lines_stay_for_a_while()
    ensures { StayLaw }
{}

/// That bound is met: line 0 is at its first place as often.
pub fn stays_are_exact()
    ensures { TightLaw }
{}

/// N + 1 times as many as one place takes are at most all stores and N stays more: so each place
/// takes its share, up to one stay.
pub fn places_share_evenly()
    ensures { EvenLaw }
{}

/// Without a full stay one place may take all stores: so it is where no gap moves.
pub fn unmoved_lines_stay()
    ensures { OneStayLaw }
{}

/// Of so many successive gap moves one in N + 1 copies into a place, up to one.
pub fn copies_are_spread()
    ensures { CopiesLaw }
{}

/// By the rows of a table, as many stores of a line are on a slot's own array line
/// as find the line at that slot.
pub fn stores_find_their_line()
    ensures { FoundLaw }
{}

/// Of the stores of one line, by the rows of a table, those on one slot's own array line are at most so many.
pub fn stores_are_spread()
    ensures { SpreadLaw }
{}

/// By the history of a bank: no array line, a slot's own or a spare, takes more of the stores of one line.
pub fn spares_are_no_exception()
    ensures { AnyLineLaw }
{}

/// The stores on a slot's own array line: of each hot line at most its share, and of other lines at most all.
pub fn hot_lines_are_spread()
    ensures { HotLinesLaw }
{}

/// An attack on one line: N + 1 times its stores on one slot's own array line are at most all its stores,
/// those of other lines of its region, and N stays more.
pub fn attacks_are_spread()
    ensures { AttackLaw }
{}

/// A line whose cells stick only where they endure no more than so isn't worn where they endure more.
pub fn spared_lines_are_unworn()
    ensures { UnwornLaw }
{}

/// Where no slot's own line is worn, no row is refused for want of a spare, and none is left in the queue
/// unless a control line is worn.
pub fn unworn_banks_take_all()
    ensures { SoundRowsLaw }
{}

/// Over cells that endure more changes than each item's control line may take line writes, no control line is worn.
pub fn spared_controls_are_unworn()
    ensures { ControlsLaw }
{}

/// And none was retired.
pub fn unworn_lines_stay()
    ensures { NoneRetiredLaw }
{}

/// Each array line but the control lines has at most so many pulses for each line write that ended on it.
pub fn pulses_are_of_line_writes()
    ensures { PulsesOnLaw }
{}

/// The line writes of a slot's own array line: its stores, the moves into it, one that gives it up, and the
/// cuts; five times as many where reads cancel line writes.
pub fn line_writes_are_few()
    ensures { WorksLaw }
{}

/// So its pulses are few, whichever of its cells are stuck.
pub fn line_pulses_are_few()
    ensures { LinePulsesLaw }
{}

/// And until its first cell stuck each line write changed a cell of it at most once.
pub fn lines_age_slowly()
    ensures { LineAgesLaw }
{}

/// And those of a control line: it is written for each store and move of its region, and again after a cut;
/// that of a spare or of the mark is written once.
pub fn control_pulses_are_few()
    ensures { ControlPulsesLaw }
{}

/// And until its first cell stuck each line write changed a cell of it at most once.
pub fn control_lines_age_slowly()
    ensures { ControlAgesLaw }
{}

/// The bounds on pulses and changes, as a law of a bank's finished table and array.
pub fn lines_keep_their_law()
    ensures { KeptLinesLaw }
{}

/// What a trace asks for bounds what becomes of it: more writes give no smaller bound.
pub fn asked_writes_bound_stores()
    ensures { AskedLaw }
{}

/// Over cells that endure more changes than any slot's own line may take line writes by the hot lines of its
/// region, however often cells miss, no cell of such a line sticks.
pub fn hot_lines_leave_banks_alive()
    ensures { LifetimeLaw }
{}
