//! The records of a text, one after the other.
ghost use Rattle.std.specs.Prelude.{◌≡◌, List, ℕ, Bool, IfOk, IfErr};
ghost use Rattle.csv.specs.Reading.{default_config, records, strip_bom};
ghost use Rattle.csv.specs.Records.{fields_of};
ghost use Rattle.trace_reader.specs.Records.{HasLeft, IsOpen, FindsNext};

use crate::fault::ParseFault;
use csv::{ByteRecord, ErrorKind, Reader, ReaderBuilder};
use std::alloc::Global;

/// A reader of the records of some bytes, whatever their lengths.
pub fn open<'a>(alloc: Global, bytes: &'a [u8]) -> Reader<&'a [u8]>
    ensures { HasLeft result (records default_config (strip_bom bytes.entry.now)) }
{
    ReaderBuilder::new()
        .has_headers(false)
        .flexible(true)
        .from_reader(alloc, bytes)
}

/// Reads the next record, and says whether there was one.
pub fn next_row(reader: &mut Reader<&[u8]>, row: &mut ByteRecord) -> Result<bool, ParseFault>
    requires open { IsOpen reader.old }
    ensures found { IfOk result (λ found. (rows : List (List (List ℕ))) → HasLeft reader.old rows
        → FindsNext found (fields_of row.new) rows reader.new) }
    ensures memory { IfErr result (λ e. e ≡ ParseFault.NoMemory) }
{
    match reader.read_byte_record(row) {
        Ok(found) => Ok(found),
        // A slice is read without a fault, and records may have any length, so a read fails for memory alone.
        Err(error) => match error.kind() {
            ErrorKind::OutOfMemory | ErrorKind::Io(_) => Err(ParseFault::NoMemory),
            _ => unreachable!(),
        },
    }
}
