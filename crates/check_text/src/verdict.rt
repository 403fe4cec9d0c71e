//! The line of a verdict.
ghost use Rattle.std.specs.Prelude.{◌≡◌, ◌+◌, ◌≤◌, length, decimal};
ghost use Rattle.pcm_io.specs.Reserved.{room_in, appended};
ghost use Rattle.check_text.specs.VerdictText.{rule_word, verdict_text};

use pcm_io::Text;
use result_check::{Rule, Verdict};

fn word(rule: Rule) -> &'static [u8]
    ensures word { result.now ≡ rule_word rule }
    ensures short { length result.now ≤ 6 }
{
    match rule {
        Rule::Serves => b"serves",
        Rule::Queue => b"queue",
        Rule::Worn => b"worn",
        Rule::Tick => b"tick",
    }
}

/// Appends the line of a verdict.
#[tactic(auto, using(pcm_io::proofs::DigitLemmas::ten_digits))]
pub fn print_verdict(verdict: Verdict, text: &mut Text)
    requires room { 32 ≤ room_in text.old }
    ensures after { text.new ≡ appended text.old (verdict_text verdict) }
{
    match verdict {
        Verdict::Yes => text.push(b"ok\n"),
        Verdict::No { row, rule } => {
            text.push(b"row ");
            text.push_number_then(u64::from(row), b": ");
            text.push(word(rule));
            text.push(b"\n");
        }
    }
}
