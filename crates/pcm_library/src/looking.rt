// What another program may look at: nothing changes by it, and no array line is sensed.
ghost use Rattle.std.specs.Prelude.{◌≡◌, ◌*◌, ◌<◌, None, Some, if◌then◌else◌, length, nat_lt};
ghost use Rattle.ecp_line.specs.Layout.{IsLayout};
ghost use Rattle.module_shape.specs.Addresses.{array_lines_of, module_of};
ghost use Rattle.module_shape.specs.Limits.{total_of};
ghost use Rattle.pcm_module.specs.State.{bank_at, stand_now, stands_in};
ghost use Rattle.pcm_library.specs.Looking.{standing_of, wear_of_line};
ghost use Rattle.row_stream.specs.Answering.{backlog_of, mark_of};
ghost use Rattle.wear_totals.specs.Wear.{wear_of};

use crate::session::Session;
use bank_timing::clocked::Timed;
use cell_rows::{CellArray, CellWear, LineEnergy, TellsCells};
use pcm_module::Module;
use row_printer::{ArrayWear, Backlog, Mark};
use wear_totals::TellsWear;

/// How worn one line of the array is.
#[derive(Clone, Copy, PartialEq, Eq)]
pub struct LineWear {
    /// How often it was pulsed or torn.
    pub pulses: u64,
    /// How many of its cells are stuck, and how often one of them changed, where the array counts it.
    pub cells: Option<CellWear>,
    /// How often it was sensed, and how many of its cells were driven, where the array counts it.
    pub energy: Option<LineEnergy>,
}

/// Where a line stands in the array, and how worn that array line is.
#[derive(Clone, Copy, PartialEq, Eq)]
pub struct Standing {
    /// The array line.
    pub place: u32,
    pub wear: LineWear,
}

impl<const B: usize, const M: usize, const E: usize, A: CellArray<B, M> + Drop> Session<
    B,
    M,
    E,
    A,
> {
    /// The tick that was reached.
    pub fn tick(&self) -> u64
        ensures { result ≡ self.now.module_.tick }
    {
        self.module.tick()
    }

    /// How many lines the module has.
    pub fn lines(&self) -> u32
        ensures { result ≡ total_of self.now.module_.shape }
    {
        self.module.shape().total()
    }

    /// How many lines the array has.
    pub fn array_lines(&self) -> u32
        ensures { result ≡ self.now.module_.shape.banks
            * array_lines_of (module_of self.now.module_.shape) }
    {
        self.module.shape().array_lines()
    }

    /// How many rows came.
    pub fn rows(&self) -> u32
        ensures { result ≡ self.now.kept.rows }
    {
        self.kept.rows()
    }

    /// How many outcomes wait.
    pub fn waiting(&self) -> usize
        ensures { result ≡ length self.now.kept.sink.waiting }
    {
        self.kept.waiting()
    }

    /// What waits in a bank, where there is such a bank.
    pub fn waits(&self, bank: u32) -> Option<Backlog>
        ensures { result ≡ (if nat_lt bank self.now.module_.shape.banks
            then Some (backlog_of bank (bank_at self.now.module_ bank)) else None) }
    {
        if bank >= self.module.shape().banks() {
            return None;
        }
        Some(look_at(&self.module, bank))
    }

    /// The array line where a line stands now, where there is such a line.
    pub fn place(&self, line: u32) -> Option<u32>
        ensures { result ≡ (if nat_lt line (total_of self.now.module_.shape)
            then Some (stands_in self.now.module_ line) else None) }
    {
        if line >= self.lines() {
            return None;
        }
        Some(self.module.translate(line))
    }
}

impl<const B: usize, const M: usize, const E: usize, A: TellsCells<B, M> + Drop> Session<
    B,
    M,
    E,
    A,
> {
    /// How worn a line of the array is, where there is such a line.
    pub fn line_wear(&self, line: u32) -> Option<LineWear>
        ensures { result ≡ (if nat_lt line (A.state self.now.array).lines
            then Some (wear_of_line (A.state self.now.array) (A.changes self.now.array) line)
            else None) }
    {
        if line >= self.array.lines() {
            return None;
        }
        Some(self.wear_at(line))
    }

    // How worn a line of the array is.
    fn wear_at(&self, line: u32) -> LineWear
        requires exists { line < (A.state self.now.array).lines }
        ensures { result ≡ wear_of_line (A.state self.now.array) (A.changes self.now.array) line }
    {
        LineWear {
            pulses: self.array.pulses(line),
            cells: self.array.cell_wear(line),
            energy: self.array.energy(line),
        }
    }

    /// Where a line stands now, and how worn its array line is, where there is such a line.
    pub fn standing(&self, line: u32) -> Option<Standing>
        ensures { result ≡ (if nat_lt line (total_of self.now.module_.shape)
            then Some (standing_of self.now.module_ (A.state self.now.array)
            (A.changes self.now.array) line) else None) }
    {
        if line >= self.lines() {
            return None;
        }
        Some(self.standing_at(line))
    }

    // Where a line stands now, and how worn its array line is.
    fn standing_at(&self, line: u32) -> Standing
        requires exists { line < total_of self.now.module_.shape }
        ensures { result ≡ standing_of self.now.module_ (A.state self.now.array)
            (A.changes self.now.array) line }
    {
        // Its sizes make known that each line's bank is one of the module's.
        let _ = self.module.shape();
        let place = self.module.translate(line);
        Standing {
            place,
            wear: self.wear_at(place),
        }
    }

    /// A line's newest bytes, those that the module accepted last, wherever they are, where there is such a line. No bank goes on.
    pub fn newest(&self, line: u32) -> Option<[u8; B]>
        ensures { result ≡ (if nat_lt line (total_of self.now.module_.shape)
            then Some (stand_now self.now.module_ (A.state self.now.array) line) else None) }
    {
        if line >= self.lines() {
            return None;
        }
        Some(self.module.newest(&self.array, line))
    }
}

impl<const B: usize, const M: usize, const E: usize, A: TellsWear<B, M, E> + Drop> Session<
    B,
    M,
    E,
    A,
> {
    /// How worn the array is.
    pub fn wear(&self) -> ArrayWear
        ensures { result ≡ wear_of E (A.state self.now.array) }
    {
        self.array.array_wear()
    }
}

/// What waits in the bank of this number.
pub(crate) fn look_at<const B: usize, const M: usize, const E: usize>(
    pcm: &Module<B, M, E>,
    bank: u32,
) -> Backlog
    requires layout { IsLayout B M E }
    requires exists { bank < pcm.now.shape.banks }
    ensures { result ≡ backlog_of bank (bank_at pcm.now bank) }
{
    backlog(bank, pcm.timed(bank))
}

// What waits in a bank of this number.
fn backlog<const B: usize, const M: usize, const E: usize>(
    bank: u32,
    timed: &Timed<B, M, E>,
) -> Backlog
    requires layout { IsLayout B M E }
    ensures { result ≡ backlog_of bank timed.now }
{
    let inside = timed.bank();
    let kept = inside.kept();
    Backlog {
        bank,
        writes: kept.len() as u16,
        reads: inside.waiting() as u16,
        mark: marked(kept.exhausted(), timed.regs().halted()),
    }
}

// The mark of a bank.
fn marked(exhausted: bool, halted: bool) -> Mark
    ensures { result ≡ mark_of exhausted halted }
{
    if exhausted {
        Mark::Exhausted
    } else if halted {
        Mark::Halted
    } else {
        Mark::Going
    }
}
