//! The generator of a trace.
ghost use Rattle.std.specs.Prelude.{◌≡◌, ◌+◌, ◌≤◌, [], ◌∷◌, IfOk, MatchOption};
ghost use Rattle.trace_gen.specs.Generated.{IsLongMix, IsMix, generated, stream_lines, whole_lines};
ghost use Rattle.trace_gen.specs.Laws.{IsGenerated};

use crate::draw::op;
use crate::mix::Mix;
use rand_core::{Rng, SeedableRng};
use rand_xoshiro::Xoshiro256PlusPlus;
use std::alloc::{AllocError, Global};
use std::marker::Model;
use trace_reader::Event;

/// The events of a generated trace that are still to come, drawn one by one: no memory is taken.
#[derive(Drop)]
pub struct Generator<const B: usize> {
    words: Xoshiro256PlusPlus,
    lines: u32,
    mix: Mix,
    distance: u32,
    done: u32,
    tick: u64,
}

impl<const B: usize> Model for Generator<B> {
    ghost use Rattle.std.specs.Prelude.{List};
    ghost use Rattle.trace_reader.specs.declared.event.Event.{Event};
    ghost use Rattle.trace_gen.specs.Drawing.{Draws, left_of};

    ghost Value = { List (Event B) };

    ghost view = { λ g. left_of B (record {
      state = g.words;
      lines = g.lines;
      mix = g.mix;
      done = g.done;
      tick = g.tick;
    }) };

    ghost invariant = { λ g. Draws (record {
      state = g.words;
      lines = g.lines;
      mix = g.mix;
      done = g.done;
      tick = g.tick;
    }) g.distance };
}

impl<const B: usize> Generator<B> {
    /// The generator of a seed's trace for so many lines.
    pub fn new(seed: u64, lines: u32, mix: Mix) -> Generator<B>
        requires some_lines { 1 ≤ lines }
        requires few_lines { lines ≤ whole_lines }
        requires mix { IsMix mix }
        ensures { result ≡ generated B seed lines mix }
    {
        Generator::long(seed, lines, mix)
    }

    /// The same, of as many rows as their ticks allow.
    pub fn long(seed: u64, lines: u32, mix: Mix) -> Generator<B>
        requires some_lines { 1 ≤ lines }
        requires few_lines { lines ≤ stream_lines }
        requires mix { IsLongMix mix }
        ensures { result ≡ generated B seed lines mix }
    {
        Generator {
            words: Xoshiro256PlusPlus::seed_from_u64(seed),
            lines,
            mix,
            distance: mix.cut_distance(),
            done: 0,
            tick: 0,
        }
    }

    /// Draws the next event, if one is still to come.
    pub fn next_event(&mut self) -> Option<Event<B>>
        ensures { MatchOption result ((self.old ≡ []) × (self.new ≡ []))
            (λ event. self.old ≡ event ∷ self.new) }
    {
        if self.done == self.mix.rows {
            return None;
        }
        self.done += 1;
        self.tick += self.words.next_u64() % (u64::from(self.mix.step) + 1);
        let op = op(
            &mut self.words,
            self.done,
            self.distance,
            self.lines,
            &self.mix,
        );
        Some(Event {
            tick: self.tick,
            op,
        })
    }
}

/// The events of a seed's trace for so many lines of `B` bytes.
pub fn generate<const B: usize>(
    alloc: Global,
    seed: u64,
    lines: u32,
    mix: Mix,
) -> Result<Vec<Event<B>>, AllocError>
    requires some_lines { 1 ≤ lines }
    requires few_lines { lines ≤ whole_lines }
    requires mix { IsMix mix }
    requires small { B ≤ 128 }
    ensures events { IfOk result (λ v. v.items ≡ generated B seed lines mix) }
    ensures generated { IfOk result (λ v. IsGenerated lines mix v.items) }
{
    let mut events = Vec::with_capacity(alloc, mix.rows as usize)?;
    let mut generator = Generator::<B>::new(seed, lines, mix);
    while let Some(event) = generator.next_event() {
        events.push(event)?;
    }
    Ok(events)
}
