//! Laws of streamed traces and printed ones. A law is what a function here ensures; the functions do nothing when they run.
#![tactic(auto)]

ghost use Rattle.stream_laws.specs.Drawing.{EveryBankLaw};
ghost use Rattle.stream_laws.specs.Laws.{DrawnLaw, TextLaw};
ghost use Rattle.stream_laws.specs.Lines.{LineLaw, ResultLaw, SortedLaw};

/// The text of events is a streamed trace of these events, as many as they are.
pub fn texts_are_streams()
    ensures { TextLaw }
{}

/// The text of a drawn trace of any length is a streamed trace of the events that are drawn.
pub fn drawn_traces_are_streams()
    ensures { DrawnLaw }
{}

/// The line that tells an outcome is its row's line of the results without operation and line.
pub fn a_line_is_one_of_results()
    ensures { LineLaw }
{}

/// The rows of a run's results are the lines of their fields.
pub fn results_are_lines()
    ensures { ResultLaw }
{}

/// The lines of a stream that told each row once, sorted by the rows' numbers, are those of the results of a run of the same events with
/// the same outcomes, without operation and line.
pub fn streams_are_results()
    ensures { SortedLaw }
{}

/// What is drawn for every bank of a module is all that is drawn.
pub fn what_is_drawn_for_every_bank_is_all()
    ensures { EveryBankLaw }
{}
