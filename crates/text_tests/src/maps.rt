use crate::expected::assert_made;
use bank_shape::Home;
use pcm_io::Text;
use rotation_reports::{Map, MapOptions, print_map_header, print_move_row, print_moves_header};
use std::alloc::{AllocError, Global};

// A module of four lines after five moves.
fn small(alloc: Global) -> Result<Text, AllocError> {
    let mut text = Text::new(alloc, 320)?;
    let map = Map::new(MapOptions {
        banks: 1,
        regions: 1,
        lines: 4,
        spares: 2,
        seed: 0,
        moves: 5,
        home: Home::Guarded,
    });
    print_map_header(&mut text);
    map.print_row(0, &mut text);
    map.print_row(1, &mut text);
    map.print_row(2, &mut text);
    map.print_row(3, &mut text);
    Ok(text)
}

#[test]
fn a_small_module_is_mapped_after_five_moves(rt: HostRuntime) {
    assert_made(
        &rt,
        small(rt.alloc()),
        b"line,bank,region,offset,place,array\n0,0,0,3,0,0\n1,0,0,1,2,2\n2,0,0,2,3,3\n3,0,0,0,1,1\n",
    );
}

// The rows of some lines of a module of two banks with two regions each.
fn larger(alloc: Global, home: Home) -> Result<Text, AllocError> {
    let mut text = Text::new(alloc, 192)?;
    let map = Map::new(MapOptions {
        banks: 2,
        regions: 2,
        lines: 4,
        spares: 1,
        seed: 0,
        moves: 0,
        home,
    });
    map.print_row(0, &mut text);
    map.print_row(8, &mut text);
    map.print_row(15, &mut text);
    Ok(text)
}

#[test]
fn a_larger_module_has_two_banks_of_eleven_array_lines(rt: HostRuntime) {
    assert_made(
        &rt,
        larger(rt.alloc(), Home::Guarded),
        b"0,0,1,1,1,6\n8,1,1,1,1,17\n15,1,0,2,2,13\n",
    );
}

#[test]
fn registers_in_the_array_take_four_lines_more_of_each_bank(rt: HostRuntime) {
    assert_made(
        &rt,
        larger(rt.alloc(), Home::Array),
        b"0,0,1,1,1,6\n8,1,1,1,1,21\n15,1,0,2,2,17\n",
    );
}

// The moves 7 to 9 of four lines.
fn moves(alloc: Global) -> Result<Text, AllocError> {
    let mut text = Text::new(alloc, 256)?;
    print_moves_header(&mut text);
    print_move_row(4, 7, &mut text);
    print_move_row(4, 8, &mut text);
    print_move_row(4, 9, &mut text);
    Ok(text)
}

#[test]
fn moves_go_round_the_end(rt: HostRuntime) {
    assert_made(
        &rt,
        moves(rt.alloc()),
        b"move,line,from,to\n7,0,1,2\n8,3,0,1\n9,2,4,0\n",
    );
}
