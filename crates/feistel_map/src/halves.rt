// The two halves of a number of 2 to 32 bits, and the rounds that change one by the other.
ghost use Rattle.std.specs.Prelude.{◌≡◌, ℕ, ◌%◌, ◌^◌, ◌<◌, ◌≤◌};
ghost use Rattle.feistel_map.specs.Network.{AreHalves, left_bits, right_bits, halves_of, joined, mixed, left_round, right_round};

#[derive(Clone, Copy)]
pub struct Halves {
    pub left: u32,
    pub right: u32,
}

impl Halves {
    pub fn of(bits: u32, number: u32) -> Halves
        requires few_bits { bits ≤ 32 }
        requires fits { number < 2 ^ bits }
        ensures halves { result ≡ halves_of bits number }
        ensures in_range { AreHalves bits result }
    {
        let right_bits = bits / 2;
        Halves {
            left: number >> right_bits,
            right: number % power(right_bits),
        }
    }

    pub fn join(self, bits: u32) -> u32
        requires few_bits { bits ≤ 32 }
        requires in_range { AreHalves bits self }
        ensures number { result ≡ joined bits self }
        ensures fits { result < 2 ^ bits }
    {
        self.left * power(bits / 2) + self.right
    }

    pub fn change_left(self, bits: u32, key: u16) -> Halves
        requires few_bits { bits ≤ 32 }
        requires in_range { AreHalves bits self }
        ensures round { result ≡ left_round bits key self }
        ensures in_range { AreHalves bits result }
    {
        let left_bits = bits - bits / 2;
        Halves {
            left: self.left ^ overlay(key, self.right, left_bits),
            right: self.right,
        }
    }

    pub fn change_right(self, bits: u32, key: u16) -> Halves
        requires few_bits { bits ≤ 32 }
        requires in_range { AreHalves bits self }
        ensures round { result ≡ right_round bits key self }
        ensures in_range { AreHalves bits result }
    {
        Halves {
            left: self.left,
            right: self.right ^ overlay(key, self.left, bits / 2),
        }
    }
}

// What a round lays over a half of so many bits, made of the key and the other half.
fn overlay(key: u16, other: u32, bits: u32) -> u32
    requires other_fits { other < 2 ^ 16 }
    requires few_bits { bits ≤ 16 }
    ensures value { result ≡ mixed key other % 2 ^ bits }
    ensures below { result < 2 ^ bits }
{
    let mixed = other ^ u32::from(key);
    mixed * mixed % power(bits)
}

fn power(bits: u32) -> u32
    requires { bits ≤ 16 }
    ensures { result ≡ 2 ^ bits }
{
    1 << bits
}
