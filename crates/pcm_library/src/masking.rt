// A masked write, by a mask.
ghost use Rattle.std.specs.Prelude.{◌≡◌, ◌<◌, ℕ, IfSome, is_some, replicate};
ghost use Rattle.masked_bytes.specs.Masked.{gives_some, laid};
ghost use Rattle.trace_reader.specs.Events.{IsOpFor};
ghost use Rattle.trace_reader.specs.declared.event.EventOp.TheVariants.{Mask};

use masked_bytes::layers::{has_some, lay_over};
use trace_reader::EventOp;

/// A write of those bytes of a line that are given, where some are: the others, of which nothing is used, become 0.
pub fn masked<const B: usize>(line: u32, bytes: &[u8; B], given: &[bool; B]) -> Option<EventOp<B>>
    ensures given { is_some result ≡ gives_some given.now }
    ensures masks { IfSome result (λ op.
        op ≡ Mask line (laid bytes.now given.now (replicate B 0)) given.now) }
    ensures lawful { IfSome result (λ op. (lines : ℕ) → line < lines → IsOpFor lines op) }
{
    if !has_some(given) {
        return None;
    }
    let mut only = [0; B];
    lay_over(bytes, given, &mut only);
    Some(EventOp::Mask(line, only, *given))
}
