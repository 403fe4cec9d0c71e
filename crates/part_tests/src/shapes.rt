use crate::comparing::compare;
use bank_shape::BankShape;
use module_shape::{BadShape, BankLine, Field, Home, Policy, RawShape, Shape};

const RAW: RawShape = RawShape {
    banks: 2,
    regions: 4,
    lines: 8,
    spares: 3,
    writes: 32,
    reads: 16,
    psi: 100,
    read_ticks: 5,
    iter_ticks: 10,
    policy: Policy::Pause,
    home: Home::Guarded,
};

const IN_ARRAY: RawShape = RawShape {
    home: Home::Array,
    ..RAW
};

const LARGEST: RawShape = RawShape {
    banks: 16,
    regions: 16,
    lines: 256,
    spares: 1024,
    writes: 256,
    reads: 256,
    psi: 65_535,
    read_ticks: 255,
    iter_ticks: 255,
    policy: Policy::Plain,
    home: Home::Array,
};

// Of a shape whether it keeps what it was made of, the ticks of an iteration, its banks, its lines, the bits of a line's number, and its
// array lines.
fn sizes(shape: &Shape, raw: &RawShape) -> (bool, u32, [u32; 4]) {
    let sizes = [
        shape.banks(),
        shape.total(),
        shape.address_bits(),
        shape.array_lines(),
    ];
    (*shape.raw() == *raw, shape.pace().iter, sizes)
}

// The first array line of bank 1, its slots, and where its registers are.
fn second_bank(shape: &Shape) -> Option<(u32, u32, Home)> {
    if shape.banks() < 2 {
        return None;
    }
    let bank = shape.bank_shape(1);
    Some((bank.base, bank.slots(), bank.home))
}

// What a shape tells, and else the field for which it is refused.
fn told(raw: &RawShape) -> Result<((bool, u32, [u32; 4]), Option<(u32, u32, Home)>), Field> {
    match Shape::new(*raw) {
        Ok(shape) => Ok((sizes(&shape, raw), second_bank(&shape))),
        Err(BadShape { field }) => Err(field),
    }
}

// Shapes with what each tells.
static ACCEPTED: [(RawShape, (bool, u32, [u32; 4]), (u32, u32, Home)); 3] = [
    (RAW, (true, 10, [2, 64, 6, 78]), (39, 36, Home::Guarded)),
    // Each bank has a control line for each of its four regions and three spares, and one for the mark.
    (IN_ARRAY, (true, 10, [2, 64, 6, 94]), (47, 36, Home::Array)),
    (
        LARGEST,
        (true, 255, [16, 65_536, 16, 98_832]),
        (6177, 4112, Home::Array),
    ),
];

#[test]
fn a_shape_has_its_sizes_and_keeps_what_it_was_made_of(rt: HostRuntime) {
    for (raw, sizes, second) in &ACCEPTED {
        compare(&rt, told(raw), Ok((*sizes, Some(*second))));
    }
}

// Shapes with the first of their sizes that is out of range.
static REFUSED: [(RawShape, Field); 3] = [
    (
        RawShape {
            banks: 3,
            iter_ticks: 0,
            ..RAW
        },
        Field::Banks,
    ),
    (
        RawShape {
            banks: 16,
            regions: 2,
            lines: 4096,
            psi: 0,
            ..RAW
        },
        Field::Total,
    ),
    (
        RawShape {
            iter_ticks: 256,
            ..RAW
        },
        Field::IterTicks,
    ),
];

#[test]
fn the_first_size_out_of_range_is_named(rt: HostRuntime) {
    for (raw, field) in &REFUSED {
        compare(&rt, told(raw), Err(*field));
    }
}

// Where a mixed line is, if it is one.
fn located(mixed: u32) -> Option<BankLine> {
    match Shape::new(RAW) {
        Ok(shape) if mixed < shape.total() => Some(shape.locate(mixed)),
        _ => None,
    }
}

#[test]
fn a_line_is_located(rt: HostRuntime) {
    let expected = [
        Some(BankLine { bank: 1, line: 13 }),
        Some(BankLine { bank: 1, line: 31 }),
        None,
    ];
    compare(&rt, [located(45), located(63), located(64)], expected);
}

// Two regions of four lines and one spare: ten slots, eleven array lines.
const BANK: BankShape = BankShape {
    base: 11,
    regions: 2,
    lines: 4,
    spares: 1,
    writes: 4,
    reads: 4,
    psi: 100,
    home: Home::Guarded,
};

const BANK_IN_ARRAY: BankShape = BankShape {
    home: Home::Array,
    ..BANK
};

#[test]
fn counts_slots_and_lines(rt: HostRuntime) {
    let counts = [
        BANK.slots(),
        BANK.array_lines(),
        BANK_IN_ARRAY.array_lines(),
        BANK_IN_ARRAY.first_control(),
        BANK.slot(0, 4),
        BANK.slot(1, 0),
        BANK.slot(1, 4),
    ];
    compare(&rt, counts, [10, 11, 15, 22, 4, 5, 9]);
}
