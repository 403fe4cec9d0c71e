//! Whole results.
ghost use Rattle.std.specs.Prelude.{◌≡◌, ◌≢◌, ◌≤◌, length, IfOk, IfErr};
ghost use Rattle.trace_reader.specs.Trace.{most_rows};
ghost use Rattle.check_reader.specs.ResultRows.{AreResults, IsFault};

use crate::fault::ResultFault;
use crate::row::read_row;
use result_rows::{Op, Results, header};
use std::alloc::Global;

/// Reads the results of a trace whose rows have these operations and lines; of a cut, the line is not looked at.
pub fn parse_results<const B: usize>(
    alloc: Global,
    bytes: &[u8],
    of: &[(Op, u32)],
) -> Result<Results<B>, ResultFault>
    requires some_size { 1 ≤ B }
    requires size { B ≤ 128 }
    requires rows { length of.now ≤ most_rows }
    ensures ok { IfOk result (λ results. AreResults of.now bytes.now results) }
    ensures rows { IfOk result (λ results. length results ≡ length of.now) }
    ensures fault { IfErr result (λ fault. fault ≢ ResultFault.NoMemory
        → IsFault B of.now bytes.now fault) }
{
    let Some(behind) = bytes.strip_prefix(header()) else {
        return Err(ResultFault::Row(0));
    };
    let Ok(mut results) = Results::new(alloc, of.len() as u32) else {
        return Err(ResultFault::NoMemory);
    };
    let mut rest = behind;
    'rows: for (i, (op, line)) in of.iter().enumerate() {
        let row = i as u32 + 1;
        let Some((outcome, behind)) = read_row(row, *op, *line, rest) else {
            return Err(ResultFault::Row(row));
        };
        results.set(row, outcome);
        rest = behind;
    }
    if rest.is_empty() {
        Ok(results)
    } else {
        Err(ResultFault::Row(of.len() as u32 + 1))
    }
}
