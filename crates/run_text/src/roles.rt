// The rows of the wear report: how often each array line was pulsed, and what it is used for.
ghost use Rattle.std.specs.Prelude.{◌≡◌, ◌+◌, ◌≤◌};
ghost use Rattle.pcm_io.specs.Reserved.{room_in, appended};
ghost use Rattle.run_text.specs.WearText.{wear_header_text, role_text, wear_row_text};

use bank_shape::Role;
use pcm_io::Text;

/// The first line of the report, with its LF.
pub fn wear_header() -> &'static [u8]
    ensures { result.now ≡ wear_header_text }
{
    b"array,bank,pulses,role\n"
}

/// Appends the row of one array line. Pulses count those that were torn, too.
#[tactic(auto, using(pcm_io::proofs::DigitLemmas::ten_digits, pcm_io::proofs::DigitLemmas::twenty_digits))]
pub fn print_role(array_line: u32, bank: u32, pulses: u64, role: Role, text: &mut Text)
    requires { 64 ≤ room_in text.old }
    ensures after { text.new ≡ appended text.old (wear_row_text array_line bank pulses role) }
    ensures room { room_in text.old ≤ room_in text.new + 64 }
{
    text.push_number_then(array_line as u64, b",");
    text.push_number_then(bank as u64, b",");
    text.push_number_then(pulses, b",");
    push_role(role, text);
    text.push(b"\n");
}

/// Appends the word of a role, and of a line of the module its number.
#[tactic(auto, using(pcm_io::proofs::DigitLemmas::ten_digits))]
pub fn push_role(role: Role, text: &mut Text)
    requires { 15 ≤ room_in text.old }
    ensures after { text.new ≡ appended text.old (role_text role) }
    ensures room { room_in text.old ≤ room_in text.new + 15 }
{
    match role {
        Role::Line(line) => {
            text.push(b"line ");
            text.push_number(line as u64);
        }
        Role::Gap => text.push(b"gap"),
        Role::Free => text.push(b"free"),
        Role::Retired => text.push(b"retired"),
        Role::Control => text.push(b"control"),
    }
}
