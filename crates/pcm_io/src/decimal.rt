// How long decimal numbers are.
ghost use Rattle.std.specs.Prelude.{◌≡◌, ◌<◌, length, decimal};

// How many digits a number below 10,000 has.
#[inline(always)]
fn few_digits(number: u64) -> usize
    requires { number < 10000 }
    ensures { result ≡ length (decimal number) }
{
    if number < 10 {
        1
    } else if number < 100 {
        2
    } else if number < 1_000 {
        3
    } else {
        4
    }
}

/// How many decimal digits a number has.
pub fn digits_in(number: u64) -> usize
    ensures { result ≡ length (decimal number) }
{
    let mut left = number;
    let mut behind = 0;
    while left >= 10_000 {
        left /= 10_000;
        behind += 4;
    }
    few_digits(left) + behind
}
