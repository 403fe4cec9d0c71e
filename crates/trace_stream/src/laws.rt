//! What a streamed trace has to do with a whole one. A law is what a function here ensures; the functions do nothing when
//! they run.
ghost use Rattle.trace_stream.specs.Laws.{BareLaw, FaultBackLaw, FaultLaw, FrontFaultLaw, FrontLaw, StreamLaw, TraceLaw};

/// Every trace is a streamed trace of the same events.
pub fn traces_are_streams()
    ensures { TraceLaw }
{}

/// A streamed trace of events alone is a trace of these events, where it has no more rows than a trace may have.
pub fn streams_are_traces()
    ensures { StreamLaw }
{}

/// The first fault of a trace is that of the streamed one, but where it is an operation that a trace doesn't have.
pub fn faults_are_faults()
    ensures { FaultLaw }
{}

/// Where no row settles, the first fault of a streamed trace, at a row that a trace may have, is that of the trace.
pub fn faults_come_back()
    ensures { FaultBackLaw }
{}

/// A text without the rows that settle asks for the same events.
pub fn settling_changes_no_event()
    ensures { BareLaw }
{}

/// Where no row has a fault, all rows stand in front of the first.
pub fn all_rows_stand_in_front()
    ensures { FrontLaw }
{}

/// What stands in front of a fault is asked by the records up to the one that has it, and the fault names the next number.
pub fn a_fault_stands_behind_its_front()
    ensures { FrontFaultLaw }
{}
