//! A module of banks.
ghost use Rattle.std.specs.Prelude.{◌≡◌, ◌*◌, ◌+◌, ◌<◌, ◌≤◌, ℕ, List, [], IfOk, Some, slice_get, false};
ghost use Rattle.cell_rows.specs.declared.array.Wear.{Wear};
ghost use Rattle.cell_rows.specs.Device.{ArrayState, IsFresh};
ghost use Rattle.ecp_line.specs.Layout.{IsLayout};
ghost use Rattle.bank_shape.specs.declared.Home.TheVariants.{Array};
ghost use Rattle.result_rows.specs.declared.Outcome.{Outcome};
ghost use Rattle.power_recovery.specs.Kept.{IsKept};
ghost use Rattle.module_shape.specs.Limits.{IsShape, total_of};
ghost use Rattle.module_shape.specs.Addresses.{module_of, lines_of, array_lines_of, bank_shape};
ghost use Rattle.right_runs.specs.Banks.{bank_of_line, line_in_bank};
ghost use Rattle.pcm_module.specs.State.{banks_from, bank_at, stands_in};
ghost use Rattle.pcm_module.specs.Replaying.{Replays};

use bank_timing::clocked::Timed;
use feistel_map::Feistel;
use module_shape::{BankLine, Shape};
use power_recovery::kept::Kept;
use std::alloc::{AllocError, Global};
use std::marker::Model;

/// Banks side by side behind one static randomiser, over one array of lines of `B` bytes with `M` check bytes and `E`
/// error-correcting pointers. Each bank goes on only when something arrives there.
#[derive(Drop)]
pub struct Module<const B: usize, const M: usize, const E: usize> {
    pub(crate) shape: Shape,
    // The seed of the randomiser.
    pub(crate) seed: u64,
    pub(crate) feistel: Feistel,
    pub(crate) banks: Vec<Timed<B, M, E>>,
    // The tick of the last row.
    pub(crate) tick: u64,
    // Above the numbers of all rows so far.
    pub(crate) rows_below: u64,
    pub(crate) finished: bool,
}

impl<const B: usize, const M: usize, const E: usize> Model for Module<B, M, E> {
    ghost use Rattle.pcm_module.specs.State.{ModuleState};

    ghost Value = { ModuleState B M E };

    ghost use Rattle.pcm_module.specs.Shaped.{IsModule};

    ghost view = { λ m. record {
      shape = m.shape;
      seed = m.seed;
      banks = m.banks.items;
      tick = m.tick;
      rows_below = m.rows_below;
      finished = m.finished;
    } };

    ghost invariant = { λ m. IsModule m.shape m.seed m.feistel m.banks.items m.tick };
}

impl<const B: usize, const M: usize, const E: usize> Module<B, M, E> {
    /// A module at tick 0, for an array that was just powered up, with the randomiser of a seed. A line has room for what a
    /// control line keeps, where registers are kept in the array.
    pub fn new(alloc: Global, shape: Shape, seed: u64) -> Result<Module<B, M, E>, AllocError>
        requires layout { IsLayout B M E }
        requires wide { shape.home ≡ Array → 16 ≤ B }
        ensures shape { IfOk result (λ m. (m.shape ≡ shape) × (m.seed ≡ seed) × (m.tick ≡ 0)
            × (m.rows_below ≡ 0) × (m.finished ≡ false)) }
        ensures banks { IfOk result (λ m. m.banks ≡ banks_from shape shape.banks 0) }
        ensures begins { IfOk result
            (λ m. (array : ArrayState B M) (wear : Wear) (results : List (Outcome B))
            → IsFresh (shape.banks * array_lines_of (module_of shape)) wear array
            → Replays (λ bank. []) [] m array results) }
    {
        let feistel = Feistel::new(shape.address_bits(), seed);
        let mut banks = Vec::new(alloc);
        for bank in 0..shape.banks() {
            banks.push(Timed::new(alloc, shape.bank_shape(bank), shape.pace())?)?;
        }
        Ok(Module {
            shape,
            seed,
            feistel,
            banks,
            tick: 0,
            rows_below: 0,
            finished: false,
        })
    }

    // The bank of a line, and its number there.
    pub(crate) fn place(&self, line: u32) -> BankLine
        requires { line < total_of self.now.shape }
        ensures bank { result.bank ≡ bank_of_line self.now.shape self.now.seed line }
        ensures line { result.line ≡ line_in_bank self.now.shape self.now.seed line }
        ensures bank_exists { result.bank < self.now.shape.banks }
        ensures line_exists { result.line < lines_of (module_of self.now.shape) }
    {
        self.shape.locate(self.feistel.forward(line))
    }

    // What a bank keeps.
    pub(crate) fn kept(&self, bank: u32) -> &Kept<B>
        requires { bank < self.now.shape.banks }
        ensures kept { result.now ≡ (bank_at self.now bank).bank.kept }
        ensures shaped { result.now.shape ≡ bank_shape (module_of self.now.shape) bank }
        ensures in_range { IsKept result.now }
    {
        self.banks[bank as usize].bank().kept()
    }

    /// The array line where a line stands now.
    pub fn translate(&self, line: u32) -> u32
        requires { line < total_of self.now.shape }
        ensures stands { result ≡ stands_in self.now line }
        ensures bank { bank_of_line self.now.shape self.now.seed line * array_lines_of
            (module_of self.now.shape) ≤ result }
        ensures exists { result < bank_of_line self.now.shape self.now.seed line * array_lines_of
            (module_of self.now.shape) + array_lines_of (module_of self.now.shape) }

        // no other line stands there
        ensures apart { (other : ℕ) → other < total_of self.now.shape
            → stands_in self.now other ≡ result
            → other ≡ line }
    {
        // A field that is read makes known what is true of every module.
        let _ = &self.shape;
        let place = self.place(line);
        let kept = self.kept(place.bank);
        kept.array_line(kept.slot_of(place.line))
    }

    /// A bank, by its number from 0.
    pub fn timed(&self, bank: u32) -> &Timed<B, M, E>
        requires { bank < self.now.shape.banks }
        ensures { slice_get self.now.banks bank ≡ Some result.now }
    {
        &self.banks[bank as usize]
    }

    /// The tick of the last row that came, 0 before the first.
    pub fn tick(&self) -> u64
        ensures { result ≡ self.now.tick }
    {
        self.tick
    }

    /// The sizes of the module.
    pub fn shape(&self) -> &Shape
        ensures shape { result.now ≡ self.now.shape }
        ensures in_range { IsShape self.now.shape }
    {
        &self.shape
    }
}
