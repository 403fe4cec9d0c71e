// The address of a line in the module.
ghost use Rattle.std.specs.Prelude.{◌≡◌, ℕ, ◌*◌, ◌^◌, ◌<◌, ◌≤◌};
ghost use Rattle.feistel_map.specs.Addresses.{address_of, number_at};

/// Where a line stands: its bank, its region in the bank, and its offset in the region, each from 0.
#[derive(Clone, Copy, PartialEq, Eq)]
pub struct Address {
    pub bank: u32,
    pub region: u32,
    pub offset: u32,
}

impl Address {
    /// The address of a mixed number, in banks of so many regions of so many lines.
    pub fn of(number: u32, regions: u32, lines: u32) -> Address
        requires some_regions { 1 ≤ regions }
        requires some_lines { 1 ≤ lines }
        requires fits { regions * lines < 2 ^ 32 }
        ensures address { result ≡ address_of regions lines number }
        ensures number { number_at regions lines result ≡ number }
        ensures region_exists { result.region < regions }
        ensures offset_exists { result.offset < lines }
        ensures bank_exists { (banks : ℕ) → number < banks * (regions * lines)
            → result.bank < banks }
    {
        Address {
            bank: number / (regions * lines),
            region: number / lines % regions,
            offset: number % lines,
        }
    }
}
