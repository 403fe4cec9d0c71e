//! How the events of rows are drawn.
ghost use Rattle.std.specs.Prelude.{◌≡◌, ◌≤◌, ◌+◌, ◌^◌, ◌<◌};
ghost use Rattle.rand_core.specs.Stream.{next_u64};
ghost use Rattle.trace_gen.specs.Generated.{cut_distance, words_left, access_by, op_drawn};

use crate::mix::Mix;
use rand_core::Rng;
use rand_xoshiro::Xoshiro256PlusPlus;
use trace_reader::EventOp;

// The read or write that a word draws.
#[tactic(auto, unfolding(crate::specs::Generated::access_by))]
pub fn access<const B: usize>(
    words: &mut Xoshiro256PlusPlus,
    word: u64,
    lines: u32,
    mix: &Mix,
) -> EventOp<B>
    requires { 1 ≤ lines }
    ensures { (result, words_left words.new) ≡ access_by B lines mix.now word
        (words_left words.old) }
{
    let line = mix.line(lines, word);
    if mix.is_write(word) {
        let mut bytes = [0; B];
        words.fill_bytes(&mut bytes);
        EventOp::Write(line, bytes)
    } else {
        EventOp::Read(line)
    }
}

// What happens in the row of this number.
#[tactic(auto, unfolding(crate::specs::Generated::op_drawn))]
pub fn op<const B: usize>(
    words: &mut Xoshiro256PlusPlus,
    row: u32,
    distance: u32,
    lines: u32,
    mix: &Mix,
) -> EventOp<B>
    requires lines { 1 ≤ lines }
    requires distance { distance ≡ cut_distance mix.now }
    requires some { 1 ≤ distance }
    ensures { (result, words_left words.new) ≡ op_drawn B lines mix.now row (words_left words.old) }
{
    if mix.is_cut(row, distance) {
        EventOp::Cut
    } else {
        let word = words.next_u64();
        access(words, word, lines, mix)
    }
}
