// The writers of those parts of the image of a large module that aren't spelled as those of a small one.
ghost use Rattle.std.specs.Prelude.{◌≡◌, ◌+◌, ◌≤◌, ◌++◌};
ghost use Rattle.pcm_io.specs.Reserved.{room_in, appended};
ghost use Rattle.pcm_image.specs.Spelling.{u8, u16, u32, u64};
ghost use Rattle.large_image.specs.Spelling.{head_bytes, region_bytes};
ghost use Rattle.pcm_image.specs.Giving.{head_view};

use pcm_image::{HeadImage, RegionImage};
use pcm_io::Text;

/// The 26 bytes of a head: the size of its lines, and its other numbers.
pub fn write_head(text: &mut Text, size: u8, head: &HeadImage)
    requires { 26 ≤ room_in text.old }
    ensures after { text.new ≡ appended text.old (head_bytes size (head_view head.now)) }
    ensures room { room_in text.new + 26 ≡ room_in text.old }
{
    text.push(b"PCMIMG02");
    text.push(&[size, head.banks, head.regions]);
    write_limits(text, head);
}

// The other numbers of a module.
fn write_limits(text: &mut Text, head: &HeadImage)
    requires { 15 ≤ room_in text.old }
    ensures after { text.new ≡ appended text.old
        (u32 head.now.lines ++ (u16 head.now.spares ++ (u64 head.now.seed ++ u8 head.now.home))) }
    ensures room { room_in text.new + 15 ≡ room_in text.old }
{
    text.push(&head.lines.to_le_bytes());
    text.push(&head.spares.to_le_bytes());
    text.push(&head.seed.to_le_bytes());
    text.push(&[head.home]);
}

/// The 10 bytes of a region's registers.
pub fn write_region(text: &mut Text, region: &RegionImage)
    requires { 10 ≤ room_in text.old }
    ensures after { text.new ≡ appended text.old (region_bytes region.now) }
    ensures room { room_in text.new + 10 ≡ room_in text.old }
{
    text.push(&region.start.to_le_bytes());
    text.push(&region.gap.to_le_bytes());
    text.push(&region.counter.to_le_bytes());
}

/// The number of an array line, or the mark behind the last one.
pub fn write_line(text: &mut Text, line: u32)
    requires { 4 ≤ room_in text.old }
    ensures after { text.new ≡ appended text.old (u32 line) }
    ensures room { room_in text.new + 4 ≡ room_in text.old }
{
    text.push(&line.to_le_bytes());
}
