//! The rows of a trace: what each event asks for, and the table that the events make with their outcomes. Definitions alone.
#![tactic(auto)]
