//! `csv`'s machine with its default settings: what a byte does, by where it stands in a record.
ghost use Rattle.std.specs.Prelude.{◌≡◌};
ghost use Rattle.csv.specs.Machine as Spec;
ghost use Rattle.csv.specs.Reading.{default_config};
ghost use Rattle.trace_stream.specs.Machine.{moved, state_of, takes_plain};

/// Where in a record a byte stands.
#[derive(Clone, Copy, PartialEq, Eq)]
pub enum Place {
    StartRecord,
    StartField,
    InField,
    InQuoted,
    AfterQuote,
    AfterCr,
}

/// What a byte does.
#[derive(Clone, Copy, PartialEq, Eq)]
pub enum ByteMove {
    Skip,
    Keep,
    EndField,
    EndRecord,
}

fn in_field(byte: u8) -> (Place, ByteMove)
    ensures { moved result ≡ Spec.in_field default_config byte }
{
    if byte == b',' {
        (Place::StartField, ByteMove::EndField)
    } else if byte == b'\r' {
        (Place::AfterCr, ByteMove::EndRecord)
    } else if byte == b'\n' {
        (Place::StartRecord, ByteMove::EndRecord)
    } else {
        (Place::InField, ByteMove::Keep)
    }
}

fn start_field(byte: u8) -> (Place, ByteMove)
    ensures { moved result ≡ Spec.start_field default_config byte }
{
    if byte == b'"' {
        (Place::InQuoted, ByteMove::Skip)
    } else {
        in_field(byte)
    }
}

fn start_record(byte: u8) -> (Place, ByteMove)
    ensures { moved result ≡ Spec.start_record default_config byte }
{
    if byte == b'\r' || byte == b'\n' {
        (Place::StartRecord, ByteMove::Skip)
    } else {
        start_field(byte)
    }
}

fn in_quoted(byte: u8) -> (Place, ByteMove)
    ensures { moved result ≡ Spec.step default_config (state_of Place.InQuoted) byte }
{
    if byte == b'"' {
        (Place::AfterQuote, ByteMove::Skip)
    } else {
        (Place::InQuoted, ByteMove::Keep)
    }
}

fn after_quote(byte: u8) -> (Place, ByteMove)
    ensures { moved result ≡ Spec.step default_config (state_of Place.AfterQuote) byte }
{
    if byte == b'"' {
        (Place::InQuoted, ByteMove::Keep)
    } else {
        in_field(byte)
    }
}

fn after_cr(byte: u8) -> (Place, ByteMove)
    ensures { moved result ≡ Spec.step default_config (state_of Place.AfterCr) byte }
{
    if byte == b'\n' {
        (Place::StartRecord, ByteMove::Skip)
    } else {
        start_record(byte)
    }
}

/// Where the next byte stands, and what this one does.
pub fn step(place: Place, byte: u8) -> (Place, ByteMove)
    ensures { moved result ≡ Spec.step default_config (state_of place) byte }
{
    match place {
        Place::StartRecord => start_record(byte),
        Place::StartField => start_field(byte),
        Place::InField => in_field(byte),
        Place::InQuoted => in_quoted(byte),
        Place::AfterQuote => after_quote(byte),
        Place::AfterCr => after_cr(byte),
    }
}

/// Whether plain bytes only join the field at hand.
pub fn takes_plain(place: Place) -> bool
    ensures { result ≡ takes_plain (state_of place) }
{
    match place {
        Place::StartRecord | Place::StartField | Place::InField | Place::AfterCr => true,
        Place::InQuoted | Place::AfterQuote => false,
    }
}

/// Whether the end of the text ends a record.
pub fn ends_at_end(place: Place) -> bool
    ensures { result ≡ Spec.ends_at_end (state_of place) }
{
    match place {
        Place::StartRecord | Place::AfterCr => false,
        Place::StartField | Place::InField | Place::InQuoted | Place::AfterQuote => true,
    }
}
