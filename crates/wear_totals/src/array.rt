// An array that keeps the totals of its lines.
ghost use Rattle.std.specs.Prelude.{◌≡◌};

use crate::line::{has_check_cells, look};
use crate::tells::TellsWear;
use crate::totals::{Totals, renewed, wear_by, with_sense};
use crate::walk::{powered, totals_of};
use cell_rows::{CellArray, CellWear, Cells, LineEnergy, TellsCells, Wear};
use row_printer::ArrayWear;
use std::alloc::{AllocError, Global};
use std::marker::Model;

/// Passes each call on to another array, as which contracts see it. It may keep the totals of all lines, which it then brings up to date at
/// each pulse, tear and sense by the one line that these may change, so that to tell how worn it is takes no walk over the lines.
#[derive(Drop)]
pub struct TotalledArray<
    A: TellsCells<B, M> + Drop,
    const B: usize,
    const M: usize,
    const E: usize,
> {
    inner: A,
    totals: Option<Totals>,
}

impl<A: TellsCells<B, M> + Drop, const B: usize, const M: usize, const E: usize> Model
    for TotalledArray<A, B, M, E> {
    ghost use Rattle.std.specs.Prelude.{IfSome};
    ghost use Rattle.wear_totals.specs.Totals.{IsTotalled};

    ghost Value = { A };

    ghost coded = { A.code };

    ghost view = { λ a. a.inner };

    ghost invariant = { λ a. IfSome a.totals (IsTotalled E (A.state a.inner)) };
}

impl<A: TellsCells<B, M> + Drop, const B: usize, const M: usize, const E: usize> TotalledArray<
    A,
    B,
    M,
    E,
> {
    ghost use Rattle.ecp_line.specs.Layout.{IsLayout};
    ghost use Rattle.wear_totals.specs.Totals.{totals_of};

    /// Such an array over another one that keeps no totals: to tell how worn it is takes a walk over its lines.
    pub fn new(inner: A) -> TotalledArray<A, B, M, E>
        ensures { result ≡ inner }
    {
        TotalledArray {
            inner,
            totals: None,
        }
    }

    /// Such an array over another one, whose totals are sought once and kept from then on.
    pub fn with_totals(inner: A) -> TotalledArray<A, B, M, E>
        requires layout { IsLayout B M E }
        ensures { result ≡ inner }
    {
        let totals = totals_of::<A, B, M, E>(&inner);
        TotalledArray {
            inner,
            totals: Some(totals),
        }
    }

    // What the lines have together.
    fn totals(&self) -> Totals
        requires layout { IsLayout B M E }
        ensures { result ≡ totals_of E (A.state self.now) }
    {
        match self.totals {
            Some(totals) => totals,
            None => totals_of::<A, B, M, E>(&self.inner),
        }
    }
}

impl<A: TellsCells<B, M> + Drop, const B: usize, const M: usize, const E: usize> CellArray<B, M>
    for TotalledArray<A, B, M, E> {
    ghost state = { A.state };

    fn power_up(&mut self, alloc: Global, lines: u32, wear: Wear) -> Result<(), AllocError> {
        let result = self.inner.power_up(alloc, lines, wear);
        self.totals = powered::<A, B, M, E>(&self.inner, self.totals);
        result
    }

    #[inline(always)]
    fn lines(&self) -> u32 {
        self.inner.lines()
    }

    #[inline(always)]
    fn sense(&mut self, line: u32, tick: u64) -> Cells<B, M> {
        let Some(totals) = self.totals else {
            return self.inner.sense(line, tick);
        };
        let cells = self.inner.sense(line, tick);
        self.totals = Some(with_sense(&totals));
        cells
    }

    fn pulse(&mut self, line: u32, mask: &Cells<B, M>, want: &Cells<B, M>, tick: u64) {
        let Some(totals) = self.totals else {
            self.inner.pulse(line, mask, want, tick);
            return;
        };
        let touched = has_check_cells(mask);
        let before = look::<A, B, M, E>(&self.inner, line, touched);
        self.inner.pulse(line, mask, want, tick);
        let behind = look::<A, B, M, E>(&self.inner, line, touched);
        self.totals = Some(renewed(&totals, &before, &behind));
    }

    fn tear(&mut self, line: u32, mask: &Cells<B, M>, want: &Cells<B, M>, tick: u64) {
        let Some(totals) = self.totals else {
            self.inner.tear(line, mask, want, tick);
            return;
        };
        let touched = has_check_cells(mask);
        let before = look::<A, B, M, E>(&self.inner, line, touched);
        self.inner.tear(line, mask, want, tick);
        let torn = look::<A, B, M, E>(&self.inner, line, touched);
        self.totals = Some(renewed(&totals, &before, &torn));
    }

    #[inline(always)]
    fn pulses(&self, line: u32) -> u64 {
        self.inner.pulses(line)
    }
}

impl<A: TellsCells<B, M> + Drop, const B: usize, const M: usize, const E: usize> TellsCells<B, M>
    for TotalledArray<A, B, M, E> {
    ghost changes = { A.changes };

    fn held(&self, line: u32) -> Cells<B, M> {
        self.inner.held(line)
    }

    fn cell_wear(&self, line: u32) -> Option<CellWear> {
        self.inner.cell_wear(line)
    }

    fn energy(&self, line: u32) -> Option<LineEnergy> {
        self.inner.energy(line)
    }
}

impl<A: TellsCells<B, M> + Drop, const B: usize, const M: usize, const E: usize> TellsWear<B, M, E>
    for TotalledArray<A, B, M, E> {
    fn array_wear(&self) -> ArrayWear {
        let totals = self.totals();
        wear_by(&totals, self.inner.lines())
    }
}
