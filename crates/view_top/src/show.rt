// The image of a large module, read and shown.
ghost use Rattle.std.specs.Prelude.{◌≡◌, ◌≢◌, ◌<◌, ◌≤◌, ◌^◌, ◌∷◌, [], ℕ, decimal, if◌then◌else◌, Ok, IfOk, IfErr, length};
ghost use Rattle.hex.specs.Hex.{encode_lower};
ghost use Rattle.pcm_io.specs.Reserved.{appended, reserved, room_in};
ghost use Rattle.ecp_line.specs.Layout.{IsLayout};
ghost use Rattle.module_shape.specs.Limits.{large_limits};
ghost use Rattle.rotation_reports.specs.Rows.{row_of};
ghost use Rattle.pcm_image.specs.Saved.{IsSavedIn, IsSize};
ghost use Rattle.large_image.specs.Spelling.{are_zero};
ghost use Rattle.large_reader.specs.Reading.{large_of};
ghost use Rattle.program_calls.specs.Calls.{Writes, lent_sink, sink_change, source_change};
ghost use Rattle.pcm_top.specs.Reading.{ReadsWhole, trace_room};
ghost use Rattle.pcm_top.specs.Ends.{EndsShown, Gives, Reads};
ghost use Rattle.pcm_top.specs.Showing.{IsImageFault};
ghost use Rattle.view_top.specs.Showing.{EndsShow, IsShowFault, large_text, room_line, shown_as, shown_of};

use large_image::are_zero;
use large_reader::{LargeImage, read_large, size_of_large};
use pcm_io::{Sink, Source, Text, WriteFault, read_all, write_all};
use pcm_top::{Fault, TRACE_ROOM};
use run_text::make_room;
use std::alloc::Global;
use text_printer::TEXT_ROOM;

// Appends the row of a line.
#[tactic(auto, using(pcm_io::proofs::DigitLemmas::ten_digits))]
fn print_row<const B: usize>(line: u32, bytes: &[u8; B], text: &mut Text)
    requires size { B ≤ 128 }
    requires room { 320 ≤ room_in text.old }
    ensures { text.new ≡ appended text.old (row_of (decimal line ∷ encode_lower bytes.now ∷ [])) }
{
    text.push_number_then(line as u64, b",");
    text.push_hex(bytes);
    text.push(b"\n");
}

// Appends the row of a line, where a byte of it isn't 0.
fn print_touched<const B: usize>(line: u32, bytes: &[u8; B], text: &mut Text)
    requires size { B ≤ 128 }
    requires room { 320 ≤ room_in text.old }
    ensures { text.new ≡ appended text.old (if are_zero bytes.now then []
        else row_of (decimal line ∷ encode_lower bytes.now ∷ [])) }
{
    if !are_zero(bytes) {
        print_row(line, bytes, text);
    }
}

// Writes the newest bytes of every line of a saved module of which one isn't 0.
fn print_lines<const B: usize, const M: usize, const E: usize, K: Sink>(
    image: &LargeImage<B, M>,
    text: &mut Text,
    out: &mut K,
) -> Result<(), WriteFault>
    requires room { text.old ≡ reserved TEXT_ROOM }
    requires layout { IsLayout B M E }
    requires size { B ≤ 128 }
    requires saved { IsSavedIn large_limits image.now }
    ensures { Writes (large_text E image.now)
        (sink_change K.written K.faults out.old out.new) result }
{
    text.push(b"line,data\n");
    for line in 0..image.total() {
        make_room(text, out)?;
        print_touched(line, &image.stands::<E>(line), text);
    }
    let rest = text.bytes();
    write_all(out, rest)
}

// The module that the bytes spell.
fn read_saved<const B: usize, const M: usize>(
    alloc: Global,
    bytes: &[u8],
) -> Result<LargeImage<B, M>, Fault>
    requires size { IsSize B M }
    requires few { length bytes.now < 2 ^ 31 }
    ensures saved { IfOk result (λ image. IsSavedIn large_limits image) }
    ensures exact { IfOk result (λ image. large_of B M bytes.now ≡ Ok image) }
    ensures fault { IfErr result (λ fault. fault ≢ Fault.Write) }
    ensures cause { (e : ℕ) → IfErr result
        (λ fault. IsImageFault fault (shown_as B M e bytes.now)) }
{
    let image = read_large(alloc, bytes)?;
    Ok(image)
}

// Shows the module that the bytes spell over lines of `B` bytes.
fn show_lines<const B: usize, const M: usize, const E: usize, K: Sink>(
    alloc: Global,
    bytes: &[u8],
    out: &mut K,
) -> Result<(), Fault>
    requires layout { IsLayout B M E }
    requires size { IsSize B M }
    requires few { length bytes.now < 2 ^ 31 }
    ensures { EndsShown (shown_as B M E bytes.now)
        (lent_sink K.written K.faults out.old out.new) result }
{
    let image = read_saved::<B, M>(alloc, bytes)?;
    let mut text = Text::new(alloc, TEXT_ROOM)?;
    print_lines::<B, M, E, K>(&image, &mut text, out)?;
    Ok(())
}

// Shows the module that the bytes spell, whatever the size of its lines.
#[tactic(auto, unfolding(crate::specs::Showing::shown_of))]
fn show_bytes<K: Sink>(alloc: Global, bytes: &[u8], out: &mut K) -> Result<(), Fault>
    requires { length bytes.now < 2 ^ 31 }
    ensures { EndsShown (shown_of bytes.now) (lent_sink K.written K.faults out.old out.new) result }
{
    match size_of_large(bytes)? {
        64 => show_lines::<64, 8, 6, K>(alloc, bytes, out),
        _ => show_lines::<128, 16, 8, K>(alloc, bytes, out),
    }
}

// The bytes of the source, read to its end.
fn read_whole<S: Source>(alloc: Global, source: &mut S) -> Result<Vec<u8>, Fault>
    ensures gives { let s = source_change S.left S.taken S.faults source.old source.new in
        Gives (λ bytes. ReadsWhole room_line s bytes.items) (λ fault. IsShowFault fault s) s result }
    ensures reads { let s = source_change S.left S.taken S.faults source.old source.new in
        Reads (trace_room room_line) s result }
{
    let bytes = read_all(alloc, source, 2047 * TRACE_ROOM)?;
    Ok(bytes)
}

/// Reads the image of a large module from the source, and writes the newest bytes of each of its lines of which one isn't 0.
pub fn show<S: Source, K: Sink>(alloc: Global, source: &mut S, out: &mut K) -> Result<(), Fault>
    ensures { EndsShow (source_change S.left S.taken S.faults source.old source.new)
        (lent_sink K.written K.faults out.old out.new) result }
{
    let bytes = read_whole(alloc, source)?;
    show_bytes(alloc, bytes.as_slice(), out)
}
