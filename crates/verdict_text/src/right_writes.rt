// What is told to be right for a write, a line each.
ghost use Rattle.std.specs.Prelude.{◌≡◌, ◌++◌, ◌&&◌, [], ◌∷◌, None, IfOk, option_to_list};
ghost use Rattle.check_telling.specs.Standing.{tick_at};
ghost use Rattle.verdict_telling.specs.Offers as right;
ghost use Rattle.verdict_text.specs.RightLines as spec;

use crate::say::{say, say_number};
use check_telling::facts::{RowAt, StoreBound};
use check_telling::writes::WriteGrounds;
use std::alloc::AllocError;

// Ticks, each behind a space.
fn say_ticks(text: &mut Vec<u8>, ticks: &[u64]) -> Result<(), AllocError>
    ensures { IfOk result (λ _. text.new.items ≡ spec.ticks_on text.old.items ticks.now) }
{
    for tick in ticks {
        say_number(text, b" ", *tick)?;
    }
    Ok(())
}

// By when: its tick, how long it takes alone, and how much longer with what its bank does by then.
fn say_bound(text: &mut Vec<u8>, tick: u64, bound: StoreBound) -> Result<(), AllocError>
    ensures { IfOk result (λ _. text.new.items ≡ spec.bound_on text.old.items tick bound) }
{
    say_number(text, b"  right  stored behind ", tick)?;
    say_number(text, b" by ", tick)?;
    say_number(text, b" + ", bound.alone)?;
    say_number(text, b" + ", bound.a_store)?;
    say_number(text, b" for each further store, ", bound.a_read)?;
    say_number(text, b" for each read and ", bound.a_cut)?;
    say(text, b" for each cut behind it")
}

// Before the first worn row.
fn say_below(text: &mut Vec<u8>, worn: Option<RowAt>) -> Result<(), AllocError>
    ensures { IfOk result (λ _. text.new.items ≡ spec.below_on text.old.items (tick_at worn)) }
{
    match worn {
        None => Ok(()),
        Some(worn) => say_number(text, b", below ", worn.tick),
    }
}

// As far from these stores as a read takes.
fn say_stores(text: &mut Vec<u8>, read: u64, ticks: &[u64]) -> Result<(), AllocError>
    ensures { IfOk result (λ _. text.new.items ≡ spec.apart_on text.old.items read ticks.now) }
{
    if ticks.is_empty() {
        return Ok(());
    }
    say_number(text, b", ", read)?;
    say(text, b" apart from")?;
    say_ticks(text, ticks)
}

// The same, with one before them.
fn say_apart(
    text: &mut Vec<u8>,
    read: u64,
    last: Option<u64>,
    ticks: &[u64],
) -> Result<(), AllocError>
    ensures { IfOk result (λ _. text.new.items
        ≡ spec.apart_on text.old.items read (option_to_list last ++ ticks.now)) }
{
    match last {
        None => say_stores(text, read, ticks),
        Some(last) => {
            say_number(text, b", ", read)?;
            say(text, b" apart from")?;
            say_number(text, b" ", last)?;
            say_ticks(text, ticks)
        }
    }
}

// At no tick at which another row is read.
fn say_not(text: &mut Vec<u8>, ticks: &[u64]) -> Result<(), AllocError>
    ensures { IfOk result (λ _. text.new.items ≡ spec.not_on text.old.items ticks.now) }
{
    if ticks.is_empty() {
        return Ok(());
    }
    say(text, b", not at")?;
    say_ticks(text, ticks)
}

// Merged, at the tick of the next accepted write of the line.
fn say_merged(text: &mut Vec<u8>, next: Option<RowAt>) -> Result<(), AllocError>
    ensures { IfOk result (λ _. text.new.items
        ≡ spec.offers_on text.old.items (right.merged_line next [])) }
{
    match next {
        None => Ok(()),
        Some(next) => {
            say_number(text, b"  right  merged ", next.tick)?;
            say(text, b"\n")
        }
    }
}

// Stored, by its bound and as far from other rows as it must be.
fn say_stored<const B: usize>(
    text: &mut Vec<u8>,
    w: &WriteGrounds<B>,
    tick: u64,
    read: u64,
) -> Result<(), AllocError>
    ensures { IfOk result (λ _. text.new.items
        ≡ spec.stored_on text.old.items (right.stored_line w.now tick read)) }
{
    say_bound(text, tick, w.bound)?;
    say_below(text, w.worn_behind)?;
    say_apart(text, read, w.last_store, &w.stores)?;
    say_not(text, &w.reads)?;
    say(text, b"\n")
}

// Full, where the queue is and the write finds none to merge with.
fn say_if_full<const B: usize>(
    text: &mut Vec<u8>,
    w: &WriteGrounds<B>,
    tick: u64,
) -> Result<(), AllocError>
    ensures { IfOk result (λ _. text.new.items ≡ spec.offers_on text.old.items
        (right.line_if (w.now.full && w.now.alone) (right.Full tick) [])) }
{
    if !(w.full && w.alone) {
        return Ok(());
    }
    say_number(text, b"  right  full ", tick)?;
    say(text, b"\n")
}

// What is right where no row of the bank before it is worn.
fn say_taken<const B: usize>(
    text: &mut Vec<u8>,
    w: &WriteGrounds<B>,
    tick: u64,
    read: u64,
) -> Result<(), AllocError>
    ensures { IfOk result (λ _. text.new.items
        ≡ spec.offers_on text.old.items (right.unless_worn w.now tick read None [])) }
{
    say_stored(text, w, tick, read)?;
    say_merged(text, w.next)?;
    say_number(text, b"  right  queued ", tick)?;
    say(text, b"\n")?;
    say_if_full(text, w, tick)
}

// The same, where that is so.
fn say_unless_worn<const B: usize>(
    text: &mut Vec<u8>,
    w: &WriteGrounds<B>,
    tick: u64,
    read: u64,
) -> Result<(), AllocError>
    ensures { IfOk result (λ _. text.new.items
        ≡ spec.offers_on text.old.items (right.unless_worn w.now tick read w.now.worn_before [])) }
{
    match w.worn_before {
        None => say_taken(text, w, tick, read),
        Some(_) => Ok(()),
    }
}

/// The lines of a write that comes at a tick, where a read takes so long.
pub fn say_right_write<const B: usize>(
    text: &mut Vec<u8>,
    w: &WriteGrounds<B>,
    tick: u64,
    read: u64,
) -> Result<(), AllocError>
    ensures { IfOk result (λ _. text.new.items
        ≡ spec.lines_on text.old.items (right.write_lines w.now tick read)) }
{
    say_unless_worn(text, w, tick, read)?;
    say_number(text, b"  right  worn ", tick)?;
    say(text, b"\n")
}
