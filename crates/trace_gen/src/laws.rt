//! The laws of printed and of generated traces. A law is what a function here ensures; the functions do nothing when they
//! run.
ghost use Rattle.trace_gen.specs.Laws.{RowLaw, TextLaw, GeneratedLaw, GeneratedTextLaw, GeneratedSizeLaw, LongGeneratedLaw, LongMixLaw, PayloadLaw};

/// A printed row is read as the fields of its event, and these as the event.
pub fn row_reads_back()
    ensures { RowLaw }
{}

/// A printed trace is read as its events, masked writes included.
pub fn text_reads_back()
    ensures { TextLaw }
{}

/// Every generated trace is a trace of its module with the rows, the cuts and the ticks that were asked for.
pub fn generated_events_are_lawful()
    ensures { GeneratedLaw }
{}

/// The same of a trace of as many rows as their ticks allow.
pub fn long_events_are_lawful()
    ensures { LongGeneratedLaw }
{}

/// A mix for a whole trace is one for a long one.
pub fn mixes_are_long()
    ensures { LongMixLaw }
{}

/// The text of a generated trace is read as the events that its seed draws.
pub fn gen_text_reads_back()
    ensures { GeneratedTextLaw }
{}

/// The text of a generated trace is no longer than its rows can be.
pub fn gen_text_is_short()
    ensures { GeneratedSizeLaw }
{}

/// The bytes of a write are eight of each of the next words, lowest byte first.
pub fn payload_is_words()
    ensures { PayloadLaw }
{}
