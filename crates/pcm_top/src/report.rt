// The reports on rotation: `map` and `moves`.
ghost use Rattle.std.specs.Prelude.{◌≡◌, ◌≤◌};
ghost use Rattle.pcm_io.specs.Reserved.{reserved};
ghost use Rattle.module_shape.specs.Limits.{IsSmall};
ghost use Rattle.rotation_reports.specs.MapText.{IsMapOptions, map_text};
ghost use Rattle.rotation_reports.specs.MovesText.{moves_text};
ghost use Rattle.command_line.specs.Jobs.{IsMoves};
ghost use Rattle.command_line.specs.Options.{full_turn};
ghost use Rattle.pcm_top.specs.Jobs.{map_options};
ghost use Rattle.program_calls.specs.Calls.{Writes, lent_sink, sink_change};
ghost use Rattle.pcm_top.specs.Ends.{EndsText};

use crate::fault::Fault;
use command_line::{MapJob, MovesJob};
use pcm_io::{Sink, Text, WriteFault, write_all};
use rotation_reports::{Map, MapOptions, print_map_header, print_move_row, print_moves_header};
use run_text::make_room;
use std::alloc::Global;
use text_printer::TEXT_ROOM;

// What a map is told of.
fn options_of(job: &MapJob) -> MapOptions
    requires { IsSmall job.now.shape }
    ensures same { result ≡ map_options job.now }
    ensures in_range { IsMapOptions result }
{
    let sizes = job.shape.raw();
    MapOptions {
        banks: sizes.banks,
        regions: sizes.regions,
        lines: sizes.lines,
        spares: sizes.spares,
        seed: job.seed,
        moves: job.from,
        home: sizes.home,
    }
}

// Writes where every line of the module stands.
fn print_map<K: Sink>(options: MapOptions, text: &mut Text, out: &mut K) -> Result<(), WriteFault>
    requires room { text.old ≡ reserved TEXT_ROOM }
    requires in_range { IsMapOptions options }
    ensures { Writes (map_text options) (sink_change K.written K.faults out.old out.new) result }
{
    let map = Map::new(options);
    print_map_header(text);
    for line in 0..options.banks * options.regions * options.lines {
        make_room(text, out)?;
        map.print_row(line, text);
    }
    let last = text.bytes();
    write_all(out, last)
}

// Writes the gap moves of a full turn, from the move after `first` moves on.
fn print_moves<K: Sink>(
    lines: u32,
    first: u64,
    text: &mut Text,
    out: &mut K,
) -> Result<(), WriteFault>
    requires room { text.old ≡ reserved TEXT_ROOM }
    requires lines { (4 ≤ lines) × (lines ≤ 256) }
    requires first { first ≤ full_turn }
    ensures { Writes (moves_text lines first)
        (sink_change K.written K.faults out.old out.new) result }
{
    print_moves_header(text);
    for row in 0..lines * (lines + 1) {
        make_room(text, out)?;
        print_move_row(lines, first + u64::from(row), text);
    }
    let rest = text.bytes();
    write_all(out, rest)
}

/// Writes the report `map`.
pub fn report_map<K: Sink>(alloc: Global, job: MapJob, out: &mut K) -> Result<(), Fault>
    requires { IsSmall job.shape }
    ensures { EndsText (map_text (map_options job))
        (lent_sink K.written K.faults out.old out.new) result }
{
    let mut text = Text::new(alloc, TEXT_ROOM)?;
    print_map(options_of(&job), &mut text, out)?;
    Ok(())
}

/// Writes the report `moves`.
pub fn report_moves<K: Sink>(alloc: Global, job: MovesJob, out: &mut K) -> Result<(), Fault>
    requires { IsMoves job }
    ensures { EndsText (moves_text job.lines job.from)
        (lent_sink K.written K.faults out.old out.new) result }
{
    let mut text = Text::new(alloc, TEXT_ROOM)?;
    print_moves(job.lines, job.from, &mut text, out)?;
    Ok(())
}
