// The rows of `map`.
ghost use Rattle.std.specs.Prelude.{◌≡◌, ℕ, ◌+◌, ◌*◌, ◌<◌, ◌≤◌, length};
ghost use Rattle.pcm_io.specs.Reserved.{room_in, appended};
ghost use Rattle.feistel_map.specs.Log2.{log2};
ghost use Rattle.start_gap.specs.Slots.{slot_at};
ghost use Rattle.bank_shape.specs.Shape.{if_array};
ghost use Rattle.rotation_reports.specs.MapText.{IsMapOptions, map_header, map_row, map_address, standing_row, lines_of, array_lines_of};

use crate::registers_after;
use bank_shape::Home;
use feistel_map::{Address, Feistel};
use pcm_io::Text;
use start_gap::Registers;
use std::marker::Model;

/// The options of `map`: the sizes of the module, the seed of the network, how many gap moves every region made, and where
/// the banks keep their registers.
#[derive(Clone, Copy, PartialEq, Eq)]
pub struct MapOptions {
    pub banks: u32,
    pub regions: u32,
    pub lines: u32,
    pub spares: u32,
    pub seed: u64,
    pub moves: u64,
    pub home: Home,
}

/// Where every line of a module stands, while no slot has a spare line.
#[derive(Drop)]
pub struct Map {
    options: MapOptions,
    network: Feistel,
    registers: Registers,
}

impl Model for Map {
    ghost use Rattle.rotation_reports.specs.MapText.{IsMap};
    ghost use Rattle.rotation_reports.specs.declared.line_rows.MapOptions.{MapOptions};

    ghost Value = { MapOptions };

    ghost view = { λ m. m.options };

    ghost invariant = { λ m. IsMap m.options m.network m.registers };
}

impl Map {
    /// The map that the options describe.
    pub fn new(options: MapOptions) -> Map
        requires { IsMapOptions options }
        ensures { result ≡ options }
    {
        let bits = bits_of(options.banks * options.regions * options.lines);
        Map {
            network: Feistel::new(bits, options.seed),
            registers: registers_after(options.lines, options.moves),
            options,
        }
    }

    /// Appends the row of a line of the module.
    pub fn print_row(&self, line: u32, text: &mut Text)
        requires exists { line < lines_of self.now }
        requires room { 64 ≤ room_in text.old }
        ensures after { text.new ≡ appended text.old (map_row self.now line) }
        ensures room { room_in text.old ≤ room_in text.new + 64 }
    {
        let address = self.address(line);
        let place = self.registers.place(address.offset);
        let array = array_line(&self.options, address, place);
        push_standing(line, address, place, array, text);
    }

    // The address of a line.
    fn address(&self, line: u32) -> Address
        requires { line < lines_of self.now }
        ensures address { result ≡ map_address self.now line }
        ensures bank_exists { result.bank < self.now.banks }
        ensures region_exists { result.region < self.now.regions }
        ensures offset_exists { result.offset < self.now.lines }
        ensures in_range { IsMapOptions self.now }
    {
        Address::of(
            self.network.forward(line),
            self.options.regions,
            self.options.lines,
        )
    }
}

/// Appends the row of a line of a module: its number, its address, its place in the region, and its array line.
#[tactic(auto, using(pcm_io::proofs::DigitLemmas::five_digits, pcm_io::proofs::DigitLemmas::ten_digits))]
pub fn push_standing(line: u32, address: Address, place: u32, array: u32, text: &mut Text)
    requires few_banks { address.bank < 100000 }
    requires room { 64 ≤ room_in text.old }
    ensures after { text.new ≡ appended text.old (standing_row line address place array) }
    ensures room { room_in text.old ≤ room_in text.new + 64 }
{
    text.push_number_then(line as u64, b",");
    text.push_number_then(address.bank as u64, b",");
    text.push_number_then(address.region as u64, b",");
    text.push_number_then(address.offset as u64, b",");
    text.push_number_then(place as u64, b",");
    text.push_number_then(array as u64, b"\n");
}

/// Appends the first line of `map`, with its LF.
pub fn print_map_header(text: &mut Text)
    requires { 64 ≤ room_in text.old }
    ensures after { text.new ≡ appended text.old map_header }
    ensures room { room_in text.old ≤ room_in text.new + 64 }
{
    text.push(b"line,bank,region,offset,place,array\n");
}

// How many lines of a bank keep its registers.
fn control_lines(options: &MapOptions) -> u32
    requires { IsMapOptions options.now }
    ensures number { result ≡ if_array options.now.home
        (options.now.regions + options.now.spares + 1) }
    ensures few { result ≤ 1041 }
{
    match options.home {
        Home::Guarded => 0,
        Home::Array => options.regions + options.spares + 1,
    }
}

// How many array lines a bank has.
#[tactic(auto, using(crate::proofs::Bounds::slots_few))]
fn array_lines(options: &MapOptions) -> u32
    requires { IsMapOptions options.now }
    ensures number { result ≡ array_lines_of options.now }
    ensures few { result ≤ 67617 }
{
    options.regions * (options.lines + 1) + options.spares + control_lines(options)
}

// The array line of a place of a region of a bank.
#[tactic(auto, using(crate::proofs::Bounds::region_few, crate::proofs::Bounds::bank_few))]
fn array_line(options: &MapOptions, address: Address, place: u32) -> u32
    requires options { IsMapOptions options.now }
    requires bank { address.bank < options.now.banks }
    requires region { address.region < options.now.regions }
    requires place { place ≤ options.now.lines }
    ensures { result ≡ address.bank * array_lines_of options.now
        + slot_at options.now.lines address.region place }
{
    address.bank * array_lines(options) + (address.region * (options.lines + 1) + place)
}

// How many bits the numbers of so many lines have.
fn bits_of(lines: u32) -> u32
    requires some { 4 ≤ lines }
    requires few { lines ≤ 65536 }
    ensures bits { result ≡ log2 lines }
    ensures some { 2 ≤ result }
    ensures few { result ≤ 16 }
{
    lines.ilog2()
}
