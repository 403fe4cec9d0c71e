// The clauses of the rules, each by its name and in a sentence.
ghost use Rattle.std.specs.Prelude.{◌≡◌};
ghost use Rattle.verdict_text.specs.ClauseWords as spec;

use check_telling::Clause;

/// The name of a clause, and the clause in a sentence.
pub fn clause_words(clause: Clause) -> &'static [u8]
    ensures { result.now ≡ spec.clause_words clause }
{
    match clause {
        Clause::OfItsOperation => b"OfItsOperation: a row has an outcome of its own operation",
        Clause::AtItsTick =>
            b"AtItsTick: what is decided at a row's arrival, or never, carries the row's own tick",
        Clause::NewestBytes =>
            b"NewestBytes: a read that is answered has its line's newest bytes, of writes accepted before it",
        Clause::Room =>
            b"Room: as a row comes, no bank holds more than it may, and two writes of a line stand only where the older is in flight",
        Clause::FullWhereFull =>
            b"FullWhereFull: a write is refused as full only where its bank's queue is full",
        Clause::FullWhereAlone =>
            b"FullWhereAlone: a write is full only where it finds none of its line to merge with",
        Clause::MergedIntoNext =>
            b"MergedIntoNext: a merged write carries the tick of the next accepted write of its line",
        Clause::Forwarded =>
            b"Forwarded: a read is forwarded where the queue gives every byte of its line",
        Clause::ForwardedOnly =>
            b"ForwardedOnly: a read is forwarded only there, or where its line is at the head of the queue",
        Clause::Busy => b"Busy: another read is busy where as many wait as may",
        Clause::BusyOnly => b"BusyOnly: a read is busy only where as many wait as may",
        Clause::WornBehindWorn =>
            b"WornBehindWorn: behind a worn row every write of its bank is worn",
        Clause::StoredBeforeWorn =>
            b"StoredBeforeWorn: no write is stored at a worn row's tick or later",
        Clause::NotTooEarly => b"NotTooEarly: no read or write ends before it can",
        Clause::NotTooLate => b"NotTooLate: reads and writes end by their bounds",
        Clause::ReadBeforeCut => b"ReadBeforeCut: a read that still waits at a cut is lost",
        Clause::LostAtCut => b"LostAtCut: a read is lost at the first cut behind it",
        Clause::LostInTime => b"LostInTime: a read is lost only before its time is up",
        Clause::Apart =>
            b"Apart: a bank does one action at a time, and serves its reads in their order",
    }
}
