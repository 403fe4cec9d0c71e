// The values that a control line has.
use crate::comparing::compare;
use reg_lines::{encode, values_of};

#[test]
fn a_line_has_three_numbers_with_their_lowest_bytes_first(rt: HostRuntime) {
    let values = [1, 0x0102_0304, 0xffff_fffe];
    let line = encode::<16>(&values);
    let wide = encode::<128>(&[0, 0, 0]);
    let wanted = [1, 0, 0, 0, 4, 3, 2, 1, 0xfe, 0xff, 0xff, 0xff, 0, 0, 0, 0];
    compare(
        &rt,
        (line, values_of(&line), wide),
        (wanted, values, [0; 128]),
    );
}
