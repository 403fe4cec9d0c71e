use crate::expected::assert_made;
use bank_shape::Role;
use pcm_io::Text;
use run_text::{print_role, wear_header};
use std::alloc::{AllocError, Global};

// A row of each role, behind the header.
fn roles(alloc: Global) -> Result<Text, AllocError> {
    let mut text = Text::new(alloc, 384)?;
    text.push(wear_header());
    print_role(3, 0, 67, Role::Retired, &mut text);
    print_role(4, 0, 0, Role::Gap, &mut text);
    print_role(5, 0, 1, Role::Line(0), &mut text);
    print_role(6, 0, 0, Role::Free, &mut text);
    print_role(7, 0, 1, Role::Control, &mut text);
    Ok(text)
}

#[test]
fn a_row_of_each_role(rt: HostRuntime) {
    let wanted =
        b"array,bank,pulses,role\n3,0,67,retired\n4,0,0,gap\n5,0,1,line 0\n6,0,0,free\n7,0,1,control\n";
    assert_made(&rt, roles(rt.alloc()), wanted);
}

fn longest(alloc: Global) -> Result<Text, AllocError> {
    let mut text = Text::new(alloc, 64)?;
    print_role(98_831, 15, u64::MAX, Role::Line(65_535), &mut text);
    Ok(text)
}

#[test]
fn the_longest_row(rt: HostRuntime) {
    assert_made(
        &rt,
        longest(rt.alloc()),
        b"98831,15,18446744073709551615,line 65535\n",
    );
}
