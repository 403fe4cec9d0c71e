// The lines of a module as the lines of a disk.
ghost use Rattle.std.specs.Prelude.{◌≡◌, ◌*◌, ◌≤◌, [], IfOk};
ghost use Rattle.cell_rows.specs.Device.{IsFresh, IsWear};
ghost use Rattle.ecp_line.specs.Layout.{IsLayout};
ghost use Rattle.bank_shape.specs.declared.Home.TheVariants.{Array};
ghost use Rattle.module_shape.specs.Addresses.{array_lines_of, module_of};
ghost use Rattle.module_shape.specs.Limits.{IsShape};
ghost use Rattle.disk_lines.specs.Asking.{HasHeard};
ghost use Rattle.disk_lines.specs.Cutting.{CutsCome, come_from};
ghost use Rattle.disk_lines.specs.Lines.{StandsByRows};

use crate::cuts::Cuts;
use crate::places::Places;
use crate::rows::RunningModule;
use crate::watch::Watch;
use atomic_sectors::{Lines, Put, Stopped};
use cell_rows::{CellArray, Wear};
use ghost_list::GhostList;
use module_shape::Shape;
use pcm_module::Module;
use std::alloc::{AllocError, Global};
use std::marker::Model;

/// The lines of a module over its array, as those of a disk. Each row comes a tick behind the one before, or behind what it waited for; a read is
/// waited for, and a write waits for room in its bank's queue.
#[derive(Drop)]
pub struct PcmLines<const B: usize, const M: usize, const E: usize, A: CellArray<B, M> + Drop> {
    running: RunningModule<B, M, E, A>,
    places: Places,
    // For contracts alone: one byte.
    puts: GhostList<Put<B>>,
}

impl<const B: usize, const M: usize, const E: usize, A: CellArray<B, M> + Drop> Model
    for PcmLines<B, M, E, A> {
    ghost use Rattle.ghost_list.specs.Items.{newest};
    ghost use Rattle.disk_lines.specs.Cutting.{all_cuts};
    ghost use Rattle.disk_lines.specs.Lines.{OnModule, IsOnModule};

    ghost Value = { OnModule B M E A };

    ghost view = { λ p. record {
      module_ = p.running.module;
      array = p.running.array;
      heard = p.running.watch.heard;
      puts = newest p.puts;
      cuts = all_cuts p.running.module.tick p.running.watch.heard p.running.cuts;
    } };

    ghost invariant = { λ p. IsOnModule p.places p.running.module (A.state p.running.array)
        p.running.watch.heard (newest p.puts) };
}

impl<const B: usize, const M: usize, const E: usize, A: CellArray<B, M> + Drop> PcmLines<
    B,
    M,
    E,
    A,
> {
    /// The lines of a new module of these sizes, with the randomiser of a seed, over an array that is powered up. The power is cut at these ticks,
    /// in order.
    pub fn new(
        alloc: Global,
        shape: Shape,
        seed: u64,
        wear: Wear,
        array: A,
        cuts: Vec<u64>,
    ) -> Result<PcmLines<B, M, E, A>, AllocError>
        requires layout { IsLayout B M E }
        requires wide { shape.home ≡ Array → 16 ≤ B }
        requires wear { IsWear wear }
        ensures shape { IfOk result (λ p. (p.module_.shape ≡ shape) × (p.module_.seed ≡ seed)) }
        ensures new { IfOk result (λ p. (p.heard ≡ []) × (p.puts ≡ [])) }
        ensures cuts { IfOk result (λ p. p.cuts ≡ come_from 0 cuts.items) }
        ensures fresh { IfOk result (λ p. IsFresh (shape.banks * array_lines_of (module_of shape)) wear
            (A.state p.array)) }
    {
        let mut array = array;
        array.power_up(alloc, shape.array_lines(), wear)?;
        let module = Module::new(alloc, shape, seed)?;
        let watch = Watch::new();
        let cuts = Cuts {
            ticks: cuts,
            came: 0,
        };
        Ok(PcmLines {
            running: RunningModule {
                module,
                array,
                watch,
                cuts,
            },
            places: Places::new(shape, seed),
            puts: GhostList::new(),
        })
    }

    /// The module was handed exactly the rows that were heard of, each line stands by them, and the power was cut by them as it was to be.
    pub fn stands(&self)
        ensures has { HasHeard self.now.module_ (A.state self.now.array) self.now.heard }
        ensures stands { StandsByRows self.now.module_ self.now.heard self.now.puts }
        ensures cuts { CutsCome self.now.cuts self.now.heard self.now.module_.tick }
        ensures shape { IsShape self.now.module_.shape }
    {
        // A field that is read makes known what is true of all of them.
        let _ = self.running.module.shape();
    }
}

impl<const B: usize, const M: usize, const E: usize, A: CellArray<B, M> + Drop> Lines<B>
    for PcmLines<B, M, E, A> {
    ghost use Rattle.module_shape.specs.Limits.{total_of};
    ghost use Rattle.disk_lines.specs.Asking.{stops_at};
    ghost use Rattle.disk_lines.specs.Lines.{Kind, kind_on, writes_of};

    ghost Kind = { Kind };

    ghost kind = { λ p. kind_on A.state p };

    ghost count = { λ kind. total_of kind.shape };

    ghost made = { λ p. writes_of p.puts };

    ghost stops = { λ p. stops_at p.module_.tick p.heard };

    fn count(&self) -> u32 {
        self.running.module.shape().total()
    }

    fn put(&mut self, line: u32, bytes: &[u8; B], given: &[bool; B]) -> Result<(), Stopped> {
        let place = self.places.place(line);
        let bank = self.places.bank(line);
        self.running.write(place, bank, bytes, given)?;
        let put = Put {
            line,
            bytes: *bytes,
            given: *given,
        };
        self.puts = self.puts.and(&put);
        Ok(())
    }

    fn put_all(&mut self, line: u32, bytes: &[u8; B]) -> Result<(), Stopped> {
        let place = self.places.place(line);
        let bank = self.places.bank(line);
        self.running.write_all(place, bank, bytes)?;
        let put = Put {
            line,
            bytes: *bytes,
            given: [true; B],
        };
        self.puts = self.puts.and(&put);
        Ok(())
    }

    fn get(&mut self, line: u32) -> Result<[u8; B], Stopped> {
        let place = self.places.place(line);
        let bank = self.places.bank(line);
        self.running.read(place, bank)
    }
}
