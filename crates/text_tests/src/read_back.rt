use crate::expected::compare;
use check_reader::{ResultFault, find_results, parse_results};
use result_rows::{Op, Outcome, Results};
use std::alloc::Global;

// Results of a write of line 0 and a read of it, over lines of one byte.
fn both(alloc: Global, text: &[u8]) -> Result<Results<1>, ResultFault> {
    parse_results::<1>(alloc, text, &[(Op::Write, 0), (Op::Read, 0)])
}

// How many rows are read, and the first two.
fn first_two(alloc: Global, text: &[u8]) -> Result<(u32, [Outcome<1>; 2]), Option<ResultFault>> {
    match both(alloc, text) {
        Ok(results) if results.rows() >= 2 => {
            Ok((results.rows(), [*results.get(1), *results.get(2)]))
        }
        Ok(_) => Err(None),
        Err(fault) => Err(Some(fault)),
    }
}

#[test]
fn what_a_run_prints_is_read(rt: HostRuntime) {
    let text = b"row,op,line,outcome,tick,place,data\n1,W,0,stored,15,3,\n2,R,0,read,105,3,0f\n";
    let read = Outcome::Read {
        tick: 105,
        place: 3,
        bytes: [15],
    };
    let stored = Outcome::Stored { tick: 15, place: 3 };
    compare(&rt, first_two(rt.alloc(), text), Ok((2, [stored, read])));
}

// Texts, and the first row of each that is none of results.
static FAULTS: [(&[u8], u32); 9] = [
    (b"", 0),
    (b"row,op,line,outcome,tick,place,data", 0),
    (b"row,op,line,outcome,tick,place,data\n", 1),
    (
        b"row,op,line,outcome,tick,place,data\n1,W,0,stored,015,3,\n",
        1,
    ),
    (
        b"row,op,line,outcome,tick,place,data\n1,W,0,stored,15,98832,\n",
        1,
    ),
    (
        b"row,op,line,outcome,tick,place,data\n1,W,1,stored,15,3,\n",
        1,
    ),
    (
        b"row,op,line,outcome,tick,place,data\n1,W,0,stored,15,3,\n2,R,0,read,20,3,0F\n",
        2,
    ),
    (
        b"row,op,line,outcome,tick,place,data\n1,W,0,full,0,,\n2,R,0,busy,1,,",
        2,
    ),
    (
        b"row,op,line,outcome,tick,place,data\n1,W,0,full,0,,\n2,R,0,busy,1,,\n\n",
        3,
    ),
];

#[test]
fn the_first_row_that_is_none_is_told(rt: HostRuntime) {
    for (text, row) in &FAULTS {
        let fault = Err(Some(ResultFault::Row(*row)));
        compare(&rt, first_two(rt.alloc(), text), fault);
    }
}

#[test]
fn results_begin_at_the_first_line_that_is_the_header(rt: HostRuntime) {
    let found = [
        find_results(b"tick,op,arg,data\n"),
        find_results(b"0,C,,\nrow,op,line,outcome,tick,place,data\n1"),
        find_results(b"0,C,,\rrow,op,line,outcome,tick,place,data"),
        find_results(b"0row,op,line,outcome,tick,place,data\n"),
        find_results(b"row,op,line,outcome,tick,place,data\r\n"),
    ];
    compare(&rt, found, [17, 6, 6, 37, 37]);
}
