// What is told to be right for a read, a line each.
ghost use Rattle.std.specs.Prelude.{◌≡◌, ◌≤◌, ◌+◌, ◌++◌, ◌&&◌, [], codes, decimal, nat_le, if◌then◌else◌, IfOk};
ghost use Rattle.verdict_telling.specs.Offers as right;
ghost use Rattle.verdict_text.specs.RightLines as spec;

use crate::say::{say, say_hex, say_number};
use check_telling::facts::RowAt;
use check_telling::grounds::Grounds;
use std::alloc::AllocError;

// The last tick at which a read may be read: its bound, or the first cut.
fn last_tick(by: u64, cut: Option<RowAt>) -> u64
    ensures { result ≡ right.last_tick by cut }
{
    match cut {
        None => by,
        Some(cut) => { if cut.tick < by { cut.tick } else { by } }
    }
}

// Whether a cut comes before a read has to be read.
fn cuts_off(by: u64, cut: Option<RowAt>) -> bool
    ensures { result ≡ spec.cuts_off by cut }
{
    match cut {
        None => false,
        Some(cut) => cut.tick < by,
    }
}

// One of some ticks, where it is within two.
fn say_one_but(text: &mut Vec<u8>, from: u64, to: u64, tick: u64) -> Result<(), AllocError>
    ensures { IfOk result (λ _. text.new.items ≡ (if nat_le from tick && nat_le tick to
        then text.old.items ++ codes ", but " ++ decimal tick else text.old.items)) }
{
    if from <= tick && tick <= to {
        say_number(text, b", but ", tick)
    } else {
        Ok(())
    }
}

// Those of these ticks that are within two.
fn say_but(text: &mut Vec<u8>, from: u64, to: u64, ticks: &[u64]) -> Result<(), AllocError>
    ensures { IfOk result (λ _. text.new.items ≡ spec.but_on text.old.items from to ticks.now) }
{
    for tick in ticks {
        say_one_but(text, from, to, *tick)?;
    }
    Ok(())
}

// Whether a tick is none of these.
fn is_none_of(tick: u64, ticks: &[u64]) -> bool
    ensures { result ≡ right.is_none_of tick ticks.now }
{
    for other in ticks {
        if tick == *other {
            return false;
        }
    }
    true
}

// Whether it is one from a tick to another, and none of these.
fn is_within(from: u64, to: u64, taken: &[u64], tick: u64) -> bool
    ensures { result ≡ right.is_within from to taken.now tick }
{
    from <= tick && tick <= to && is_none_of(tick, taken)
}

// The same of the one behind it.
fn is_next_within(from: u64, to: u64, taken: &[u64], tick: u64) -> bool
    ensures { result ≡ right.is_within from to taken.now (tick + 1) }
{
    tick < to && is_within(from, to, taken, tick + 1)
}

// Whether some tick from one to another is none of these.
fn has_free(from: u64, to: u64, taken: &[u64]) -> bool
    ensures { result ≡ right.has_free from to taken.now }
{
    if is_within(from, to, taken, from) {
        return true;
    }
    for tick in taken {
        if is_next_within(from, to, taken, *tick) {
            return true;
        }
    }
    false
}

// Whether the read has to wait, and may.
fn may_wait<const B: usize>(g: &Grounds<B>) -> bool
    ensures { result ≡ right.may_wait g.now }
{
    !g.covered && !g.full
}

// Whether it is right that it is read, lost, busy or forwarded.
fn can_read<const B: usize>(g: &Grounds<B>) -> bool
    ensures { result ≡ right.can_read g.now }
{
    may_wait(g) && has_free(g.from, last_tick(g.by, g.cut), &g.taken)
}

fn can_lose<const B: usize>(g: &Grounds<B>) -> bool
    ensures { result ≡ spec.can_lose g.now }
{
    may_wait(g) && cuts_off(g.by, g.cut)
}

fn can_refuse<const B: usize>(g: &Grounds<B>) -> bool
    ensures { result ≡ right.can_refuse g.now }
{
    !g.covered && g.full
}

fn can_forward<const B: usize>(g: &Grounds<B>) -> bool
    ensures { result ≡ right.can_forward g.now }
{
    g.covered || g.at_head
}

// The bytes of an answer, at the end of a line.
fn say_data_end<const B: usize>(text: &mut Vec<u8>, bytes: &[u8; B]) -> Result<(), AllocError>
    requires size { B ≤ 128 }
    ensures { IfOk result (λ _. text.new.items ≡ spec.data_end text.old.items bytes.now) }
{
    say_hex(text, b", data ", bytes)?;
    say(text, b"\n")
}

// The ticks from which and to which a read is right.
fn say_span(text: &mut Vec<u8>, from: u64, to: u64) -> Result<(), AllocError>
    ensures { IfOk result (λ _. text.new.items ≡ spec.span_on text.old.items from to) }
{
    say_number(text, b"  right  read ", from)?;
    say_number(text, b" to ", to)
}

// Read, between two ticks but at some.
fn say_read<const B: usize>(text: &mut Vec<u8>, g: &Grounds<B>) -> Result<(), AllocError>
    requires size { B ≤ 128 }
    ensures { IfOk result (λ _. text.new.items
        ≡ spec.offer_on text.old.items (right.read_line g.now)) }
{
    let to = last_tick(g.by, g.cut);
    say_span(text, g.from, to)?;
    say_but(text, g.from, to, &g.taken)?;
    say_data_end(text, &g.newest.bytes)
}

// Forwarded, as it comes.
fn say_forward<const B: usize>(
    text: &mut Vec<u8>,
    bytes: &[u8; B],
    tick: u64,
) -> Result<(), AllocError>
    requires size { B ≤ 128 }
    ensures { IfOk result (λ _. text.new.items
        ≡ spec.offer_on text.old.items (right.Forwarded tick bytes.now)) }
{
    say_number(text, b"  right  forwarded ", tick)?;
    say_data_end(text, bytes)
}

// The line of each that is right, or nothing.
fn say_if_read<const B: usize>(text: &mut Vec<u8>, g: &Grounds<B>) -> Result<(), AllocError>
    requires size { B ≤ 128 }
    ensures { IfOk result (λ _. text.new.items ≡ spec.offers_on text.old.items
        (right.line_if (right.can_read g.now) (right.read_line g.now) [])) }
{
    if can_read(g) {
        say_read(text, g)
    } else {
        Ok(())
    }
}

fn say_if_lost<const B: usize>(text: &mut Vec<u8>, g: &Grounds<B>) -> Result<(), AllocError>
    ensures { IfOk result (λ _. text.new.items ≡ spec.offers_on text.old.items
        (right.lost_line g.now g.now.cut [])) }
{
    match g.cut {
        Some(cut) if may_wait(g) && cut.tick < g.by => {
            say_number(text, b"  right  lost ", cut.tick)?;
            say(text, b"\n")
        }
        _ => Ok(()),
    }
}

fn say_if_busy<const B: usize>(
    text: &mut Vec<u8>,
    g: &Grounds<B>,
    tick: u64,
) -> Result<(), AllocError>
    ensures { IfOk result (λ _. text.new.items ≡ spec.offers_on text.old.items
        (right.line_if (right.can_refuse g.now) (right.Busy tick) [])) }
{
    if !can_refuse(g) {
        return Ok(());
    }
    say_number(text, b"  right  busy ", tick)?;
    say(text, b"\n")
}

fn say_if_forwarded<const B: usize>(
    text: &mut Vec<u8>,
    g: &Grounds<B>,
    tick: u64,
) -> Result<(), AllocError>
    requires size { B ≤ 128 }
    ensures { IfOk result (λ _. text.new.items ≡ spec.offers_on text.old.items
        (right.line_if (right.can_forward g.now) (right.Forwarded tick g.now.newest.bytes) [])) }
{
    if can_forward(g) {
        say_forward(text, &g.newest.bytes, tick)
    } else {
        Ok(())
    }
}

// The lines of those that are right.
fn say_found<const B: usize>(
    text: &mut Vec<u8>,
    g: &Grounds<B>,
    tick: u64,
) -> Result<(), AllocError>
    requires size { B ≤ 128 }
    ensures { IfOk result (λ _. text.new.items
        ≡ spec.offers_on text.old.items (right.read_lines g.now tick)) }
{
    say_if_read(text, g)?;
    say_if_lost(text, g)?;
    say_if_busy(text, g, tick)?;
    say_if_forwarded(text, g, tick)
}

// Whether there is one.
fn has_line<const B: usize>(g: &Grounds<B>) -> bool
    ensures { result ≡ spec.some_line g.now }
{
    can_read(g) || (can_lose(g) || (can_refuse(g) || can_forward(g)))
}

/// The lines of a read that comes at a tick, or that there are none.
pub fn say_right_read<const B: usize>(
    text: &mut Vec<u8>,
    g: &Grounds<B>,
    tick: u64,
) -> Result<(), AllocError>
    requires size { B ≤ 128 }
    ensures { IfOk result (λ _. text.new.items
        ≡ spec.lines_on text.old.items (right.read_lines g.now tick)) }
{
    if has_line(g) {
        say_found(text, g, tick)
    } else {
        say(text, b"  right  none\n")
    }
}
