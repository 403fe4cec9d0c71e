//! What the newest bytes of a line go by. A law is what a function here ensures; the functions do nothing when they run.
#![tactic(auto)]

ghost use Rattle.newest_laws.specs.Newest.{CutsLaw, WritesLaw};

/// Two tables of rows have the same newest bytes of a line where their accepted writes of it are the same, whatever else they have: reads, writes of
/// other lines, refused ones, cuts, and the ticks and outcomes of all.
pub fn newest_bytes_go_by_accepted_writes()
    ensures { WritesLaw }
{}

/// So it is of a table and of the same one without its cuts: one that is cut at each access has the newest bytes of one that is never cut, where the
/// same writes are accepted.
pub fn cuts_change_no_newest_byte()
    ensures { CutsLaw }
{}
