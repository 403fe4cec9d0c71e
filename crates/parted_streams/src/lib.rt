//! Streams of the parts of a trace: each is a stream of the rows of its banks' lines and of all
//! power cuts, with row numbers of its own, served by a module and an array of its own. Joined, the
//! outcomes that they told are those of one right run. A law is what a function here ensures; the
//! functions do nothing when they run.
#![tactic(auto)]

ghost use Rattle.parted_streams.specs.Streamed.{OneStreamLaw, PartedStreamsLaw};

use parted_laws::parts_are_one_run;

/// Streams of the parts of a trace, each served to its end, are one right run of the whole trace:
/// each row of a line has the outcome that the part of the line's bank told of it.
pub fn streams_of_parts_are_one_run()
    ensures { PartedStreamsLaw }
{
    parts_are_one_run();
}

/// A stream that was served to its end is one in parts of which there is one, where its array tells
/// no log: of parts no more is asked than a stream gives.
pub fn a_stream_is_its_only_part()
    ensures { OneStreamLaw }
{}
