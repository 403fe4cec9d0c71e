// Laws of streams. A law is what a function here ensures; the functions do nothing when they run.
ghost use Rattle.row_stream.specs.Laws.{EachToldLaw, FaultyLaw, ReadLaw, SettleLaw};

use pcm_io::Source;

/// An outcome of each row of a stream that has ended was told.
pub fn each_row_is_told()
    ensures { EachToldLaw }
{}

/// A text at whose fault a stream stops isn't read to its end, and the other way round.
pub fn a_text_that_is_read_has_no_fault<S: Source>()
    ensures { ReadLaw S.left S.taken S.faults }
{}

/// The text alone decides at which fault a stream stops, and which rows it has served by then, however its bytes come.
pub fn a_text_has_one_first_fault<S: Source>()
    ensures { FaultyLaw S.left S.taken S.faults }
{}

/// What a stream leaves is a right run of its rows without those that settle or ask.
pub fn settles_are_no_rows()
    ensures { SettleLaw }
{}
