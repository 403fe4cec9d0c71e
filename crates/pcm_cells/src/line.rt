// One line of cells that may miss and stick.
ghost use Rattle.std.specs.Prelude.{◌≡◌, ℕ, ◌+◌, ◌*◌, ◌<◌, ◌≤◌, IfOk, slice_index};
ghost use Rattle.cell_rows.specs.Rows.{cell};
ghost use Rattle.pcm_cells.specs.Cell.{cell_state, line_state, blank_line, SetsCell};
ghost use Rattle.cell_rows.specs.Device.{counted};
ghost use Rattle.cell_rows.specs.Shape.{IsShape};

use cell_rows::Cells;
use seeded_lines::CellState;
use std::alloc::{AllocError, Global};
use std::marker::Model;

/// The cells of one line, and how often it was pulsed or torn. Contracts see it as a `CellLine`.
#[derive(Drop)]
pub(crate) struct Line<const B: usize, const M: usize> {
    held: Cells<B, M>,
    stuck: Cells<B, M>,
    misses: Vec<u8>,
    pulses: u64,
}

impl<const B: usize, const M: usize> Model for Line<B, M> {
    ghost use Rattle.std.specs.Prelude.{◌≡◌, ℕ, ◌+◌, ◌*◌, ◌≤◌, slice_index, vec_len};
    ghost use Rattle.pcm_cells.specs.Cell.{CellLine};
    ghost use Rattle.cell_rows.specs.Shape.{IsShape};

    ghost Value = { CellLine B M };

    ghost view = { λ l. record {
      held = l.held;
      stuck = l.stuck;
      misses = l.misses.items;
      pulses = l.pulses;
    } };

    ghost invariant = { λ l. (vec_len l.misses ≡ 8 * (B + M))
        × ((n : ℕ) → slice_index l.misses.items n ≤ 7)
        × IsShape B M };
}

impl<const B: usize, const M: usize> Line<B, M> {
    pub(crate) fn blank(alloc: Global) -> Result<Line<B, M>, AllocError>
        requires { IsShape B M }
        ensures { IfOk result (λ line. line ≡ blank_line B M) }
    {
        Ok(Line {
            held: Cells::zero(),
            stuck: Cells::zero(),
            misses: vec![in alloc; 0u8; 8 * (B + M)]?,
            pulses: 0,
        })
    }

    pub(crate) fn held(&self) -> Cells<B, M>
        ensures { result ≡ self.now.held }
    {
        self.held
    }

    pub(crate) fn pulses(&self) -> u64
        ensures { result ≡ self.now.pulses }
    {
        self.pulses
    }

    pub(crate) fn cell(&self, number: u16) -> CellState
        requires { number < 8 * (B + M) }
        ensures state { result ≡ cell_state (line_state self.now) number }
        ensures few { result.misses ≤ 7 }
    {
        CellState {
            value: self.held.get(number),
            stuck: self.stuck.get(number),
            misses: self.misses[number as usize],
        }
    }

    pub(crate) fn set_cell(&mut self, number: u16, state: CellState)
        requires exists { number < 8 * (B + M) }
        requires few { state.misses ≤ 7 }
        ensures set { SetsCell number state (line_state self.old) (line_state self.new) }
        ensures few { (n : ℕ) → slice_index self.new.misses n ≤ 7 }
    {
        self.held.set(number, state.value);
        self.stuck.set(number, state.stuck);
        self.misses[number as usize] = state.misses;
    }

    pub(crate) fn count_pulse(&mut self)
        ensures { self.new ≡ record self.old { pulses = counted self.old.pulses } }
    {
        self.pulses = self.pulses.saturating_add(1);
    }
}
