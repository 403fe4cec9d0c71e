//! What the snapshots of a stream say of one another: from an earlier one to a later one no number falls of those that count what happened.
//! A law is what a function here ensures; the functions do nothing when they run.
#![tactic(auto)]

ghost use Rattle.snapshot_laws.specs.Rising.{EndedLaw, SoFarLaw};

/// Of two snapshots of a stream the later one tells of at least as many rows, of no earlier tick, of at least as many of each outcome, as
/// many retired spares, as many pulses of all lines, on average, and of the line that has most: the one of what stands in the end, too.
pub fn snapshots_never_fall()
    ensures { EndedLaw }
{}

/// So it is while a stream goes on, of those that were taken by now.
pub fn snapshots_never_fall_so_far()
    ensures { SoFarLaw }
{}
