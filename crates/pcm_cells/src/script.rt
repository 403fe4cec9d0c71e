// The array whose cells miss and stick as a script says.
ghost use Rattle.std.specs.Prelude.{◌≡◌, ◌≢◌, ℕ, ◌+◌, ◌*◌, ◌<◌, ◌≤◌, true, false, [], length, replicate, IfOk, OnOk, OnErr, slice_index};

use crate::energies::Energies;
use crate::line::Line;
use cell_rows::{CellArray, CellWear, Cells, LineEnergy, TellsCells, Wear};
use seeded_lines::{CellState, has_end};
use std::alloc::{AllocError, Global};
use std::marker::Model;

/// What a cell does at a turn in place of taking the wanted value.
#[derive(Clone, Copy, Drop)]
pub enum Act {
    /// It keeps its value; in a pulse that is one miss more.
    Miss,
    /// It sticks at this value.
    Stick(bool),
}

/// One item of a script: what this cell of this line does at this turn.
/// A cell's turn is the number of pulses and tears that had it in their mask, from 1.
#[derive(Clone, Copy, Drop)]
pub struct Script {
    pub line: u32,
    pub cell: u16,
    pub turn: u32,
    pub act: Act,
}

ghost use Rattle.pcm_cells.specs.Scripted.{act_at, acted};

fn act_at(script: &[Script], line: u32, cell: u16, turn: u32) -> Option<Act>
    ensures { result ≡ act_at script.now line cell turn }
{
    for item in script {
        if item.line == line && item.cell == cell && item.turn == turn {
            return Some(item.act);
        }
    }
    None
}

fn acted(tearing: bool, act: Option<Act>, want: bool, old: CellState) -> CellState
    requires { old.misses ≤ 7 }
    ensures state { result ≡ acted tearing act want old }
    ensures few { result.misses ≤ 7 }
{
    let changed = CellState {
        value: want,
        stuck: false,
        misses: 0,
    };
    match act {
        None => changed,
        Some(Act::Miss) if tearing => old,
        Some(Act::Miss) if old.misses < 7 => CellState {
            misses: old.misses + 1,
            ..old
        },
        Some(Act::Miss) => changed,
        Some(Act::Stick(value)) => CellState {
            value,
            stuck: true,
            misses: old.misses,
        },
    }
}

/// The cells of one line, and the turns of each.
#[derive(Drop)]
struct ScriptLine<const B: usize, const M: usize> {
    line: Line<B, M>,
    turns: Vec<u32>,
}

impl<const B: usize, const M: usize> Model for ScriptLine<B, M> {
    ghost use Rattle.std.specs.Prelude.{◌≡◌, ℕ, ◌+◌, ◌*◌, ◌≤◌, slice_index, vec_len};
    ghost use Rattle.pcm_cells.specs.Scripted.{ScriptedLine};
    ghost use Rattle.cell_rows.specs.Shape.{IsShape};

    ghost Value = { ScriptedLine B M };

    ghost view = { λ l. record { line = l.line; turns = l.turns.items } };

    ghost invariant = { λ l. (vec_len l.turns ≡ 8 * (B + M))
        × ((n : ℕ) → slice_index l.line.misses n ≤ 7)
        × IsShape B M };
}

ghost use Rattle.pcm_cells.specs.Cell.{cell_state, line_state, SetsCell};
ghost use Rattle.cell_rows.specs.Rows.{cell};
ghost use Rattle.cell_rows.specs.Shape.{IsShape};
ghost use Rattle.cell_rows.specs.Device.{EnergyChanges, counted};
ghost use Rattle.seeded_lines.specs.Follows.{Follows, FollowsIn};
ghost use Rattle.pcm_cells.specs.Scripted.{scripted, scripted_cell, blank_scripted};

impl<const B: usize, const M: usize> ScriptLine<B, M> {
    fn blank(alloc: Global) -> Result<ScriptLine<B, M>, AllocError>
        requires { IsShape B M }
        ensures { IfOk result (λ row. row ≡ blank_scripted B M) }
    {
        Ok(ScriptLine {
            line: Line::blank(alloc)?,
            turns: vec![in alloc; 0u32; 8 * (B + M)]?,
        })
    }

    // One masked cell takes its next turn.
    fn turn_cell(
        &mut self,
        script: &[Script],
        line: u32,
        tearing: bool,
        number: u16,
        want: &Cells<B, M>,
    )
        requires { number < 8 * (B + M) }
        ensures here { scripted_cell self.new number
            ≡ scripted script.now line tearing (cell want.now) number
            (scripted_cell self.old number) }
        ensures others { (n : ℕ) → n ≢ number
            → scripted_cell self.new n ≡ scripted_cell self.old n }
        ensures pulses { self.new.line.pulses ≡ self.old.line.pulses }
    {
        let turn = self.turns[number as usize].saturating_add(1);
        self.turns[number as usize] = turn;
        let old = self.line.cell(number);
        if !old.stuck {
            let act = act_at(script, line, number, turn);
            let new = acted(tearing, act, want.get(number), old);
            self.line.set_cell(number, new);
        }
    }

    // The masked cells of one group of eight take their next turn.
    fn turn_group(
        &mut self,
        script: &[Script],
        line: u32,
        tearing: bool,
        group: usize,
        mask: &Cells<B, M>,
        want: &Cells<B, M>,
    )
        requires exists { group < B + M }
        requires shape { IsShape B M }
        ensures cells { FollowsIn (8 * group) (8 * group + 8) (cell mask.now)
            (scripted script.now line tearing (cell want.now)) (scripted_cell self.old)
            (scripted_cell self.new) }
        ensures pulses { self.new.line.pulses ≡ self.old.line.pulses }
    {
        for number in 8 * group..8 * group + 8 {
            let number = number as u16;
            if mask.get(number) {
                self.turn_cell(script, line, tearing, number, want);
            }
        }
    }

    // A pulse or a tear of the line.
    fn turn(
        &mut self,
        script: &[Script],
        line: u32,
        tearing: bool,
        mask: &Cells<B, M>,
        want: &Cells<B, M>,
    )
        requires { IsShape B M }
        ensures cells { Follows (cell mask.now) (scripted script.now line tearing (cell want.now))
            (scripted_cell self.old) (scripted_cell self.new) }
        ensures pulses { self.new.line.pulses ≡ counted self.old.line.pulses }
        ensures few { (n : ℕ) → slice_index self.new.line.misses n ≤ 7 }
    {
        has_end(mask);
        for group in 0..B + M {
            if !mask.is_clear(group) {
                self.turn_group(script, line, tearing, group, mask, want);
            }
        }
        self.line.count_pulse();
    }
}

fn blank_lines<const B: usize, const M: usize>(
    alloc: Global,
    lines: u32,
) -> Result<Vec<ScriptLine<B, M>>, AllocError>
    requires { IsShape B M }
    ensures { IfOk result (λ rows. rows.items ≡ replicate lines (blank_scripted B M)) }
{
    let mut rows = Vec::with_capacity(alloc, lines as usize)?;
    for made in 0..lines {
        rows.push(ScriptLine::blank(alloc)?)?;
    }
    Ok(rows)
}

/// An array whose cells miss and stick exactly as its script says. It only keeps its `Wear`, and tells no
/// log. Contracts see it as a `ScriptedArray`.
#[derive(Drop)]
pub struct ScriptArray<const B: usize, const M: usize> {
    lines: Option<Vec<ScriptLine<B, M>>>,
    script: Vec<Script>,
    energies: Energies,
    tears: u64,
    wear: Option<Wear>,
}

impl<const B: usize, const M: usize> Model for ScriptArray<B, M> {
    ghost use Rattle.std.specs.Prelude.{◌≡◌, ◌^◌, ◌<◌, length};
    ghost use Rattle.pcm_cells.specs.Scripted.{ScriptedArray, scripted_lines};
    ghost use Rattle.cell_rows.specs.Shape.{IsShape};

    ghost Value = { ScriptedArray B M };

    ghost view = { λ a. record {
      lines = scripted_lines a.lines;
      script = a.script.items;
      tears = a.tears;
      wear = a.wear;
      energies = a.energies;
    } };

    ghost invariant = { λ a. (length (scripted_lines a.lines) < 2 ^ 32) × IsShape B M
        × (length a.energies ≡ length (scripted_lines a.lines)) };
}

ghost use Rattle.std.specs.Prelude.{slice_set, Some, None};
ghost use Rattle.cell_rows.specs.Energy.{with_pulse, with_sense};
ghost use Rattle.line_pages.specs.Counting.{energy_at};
ghost use Rattle.pcm_cells.specs.Scripted.{scripted_line, scripted_state, Turns};

impl<const B: usize, const M: usize> ScriptArray<B, M> {
    /// An array without lines.
    pub fn new(script: Vec<Script>) -> ScriptArray<B, M>
        requires { IsShape B M }
        ensures { result ≡ record {
          lines = [];
          script = script.items;
          tears = 0;
          wear = None;
          energies = [];
        } }
    {
        ScriptArray {
            lines: None,
            script,
            energies: Energies::none(),
            tears: 0,
            wear: None,
        }
    }

    fn renew(&mut self, alloc: Global, lines: u32, wear: Wear) -> Result<(), AllocError>
        requires { IsShape B M }
        ensures ok { OnOk result (self.new ≡ record self.old {
          lines = replicate lines (blank_scripted B M);
          tears = 0;
          wear = Some wear;
          energies = replicate lines None;
        }) }
        ensures err { OnErr result (self.new ≡ record self.old {
          lines = [];
          tears = 0;
          wear = Some wear;
          energies = [];
        }) }
    {
        self.lines = None;
        self.energies = Energies::none();
        self.tears = 0;
        self.wear = Some(wear);
        let energies = Energies::blank(alloc, lines)?;
        self.lines = Some(blank_lines(alloc, lines)?);
        self.energies = energies;
        Ok(())
    }

    // A pulse or a tear of a line.
    fn turn(&mut self, line: u32, tearing: bool, mask: &Cells<B, M>, want: &Cells<B, M>)
        requires exists { line < length self.old.lines }
        requires shape { IsShape B M }
        ensures turn { Turns line tearing mask.now want.now self.old self.new }
        ensures few { (n : ℕ) → slice_index (scripted_line self.new line).line.misses n ≤ 7 }
        ensures tears { self.new.tears ≡ self.old.tears }
        ensures wear { self.new.wear ≡ self.old.wear }
        ensures energy { EnergyChanges line
            (with_pulse mask.now want.now ((scripted_state self.old).energy line))
            (scripted_state self.old) (scripted_state self.new) }
    {
        self.energies.drive(line, mask, want);
        let Some(lines) = &mut self.lines else {
            unreachable!()
        };
        let row = &mut lines[line as usize];
        row.turn(self.script.as_slice(), line, tearing, mask, want);
    }
}

impl<const B: usize, const M: usize> CellArray<B, M> for ScriptArray<B, M> {
    ghost use Rattle.cell_rows.specs.Device.{DeviceStep, TornStep, ChangesOnly, Senses, IsFresh, IsWear, sense_of};
    ghost use Rattle.cell_rows.specs.Pulse.{IsPulse};

    ghost state = { scripted_state };

    fn power_up(&mut self, alloc: Global, lines: u32, wear: Wear) -> Result<(), AllocError>
        requires { IsShape B M }
        ensures ok { OnOk result (IsFresh lines wear (scripted_state self.new)) }
        ensures err { OnErr result (length self.new.lines ≡ 0) }
        ensures lines { OnOk result (self.new.lines ≡ replicate lines (blank_scripted B M)) }
        ensures script { self.new.script ≡ self.old.script }
    {
        self.renew(alloc, lines, wear)
    }

    fn lines(&self) -> u32 {
        match &self.lines {
            Some(lines) => lines.len() as u32,
            None => 0,
        }
    }

    fn sense(&mut self, line: u32, tick: u64) -> Cells<B, M>
        requires exists { line < length self.old.lines }
        requires shape { IsShape B M }
        ensures cells { result ≡ (scripted_line self.old line).line.held }
        ensures step { Senses (sense_of line tick ((scripted_state self.old).line line))
            (scripted_state self.old) (scripted_state self.new) }
        ensures counted { self.new ≡ record self.old {
          energies = slice_set self.old.energies line
              (with_sense (Some (energy_at self.old.energies line)));
        } }
    {
        self.energies.sense(line);
        let Some(lines) = &self.lines else {
            unreachable!()
        };
        lines[line as usize].line.held()
    }

    fn pulse(&mut self, line: u32, mask: &Cells<B, M>, want: &Cells<B, M>, tick: u64)
        requires exists { line < length self.old.lines }
        requires lawful { IsPulse mask.now want.now (scripted_line self.old line).line.held }
        requires shape { IsShape B M }
        ensures step { DeviceStep (scripted_state self.old).bounds mask.now want.now
            ((scripted_state self.old).line line) ((scripted_state self.new).line line) }
        ensures others { ChangesOnly line (scripted_state self.old) (scripted_state self.new) }
        ensures tears { self.new.tears ≡ self.old.tears }
        ensures energy { EnergyChanges line
            (with_pulse mask.now want.now ((scripted_state self.old).energy line))
            (scripted_state self.old) (scripted_state self.new) }
        ensures turn { Turns line false mask.now want.now self.old self.new }
    {
        self.turn(line, false, mask, want);
    }

    fn tear(&mut self, line: u32, mask: &Cells<B, M>, want: &Cells<B, M>, tick: u64)
        requires exists { line < length self.old.lines }
        requires lawful { IsPulse mask.now want.now (scripted_line self.old line).line.held }
        requires shape { IsShape B M }
        ensures step { TornStep (scripted_state self.old).bounds mask.now
            ((scripted_state self.old).line line) ((scripted_state self.new).line line) }
        ensures others { ChangesOnly line (scripted_state self.old) (scripted_state self.new) }
        ensures tears { self.new.tears ≡ counted self.old.tears }
        ensures energy { EnergyChanges line
            (with_pulse mask.now want.now ((scripted_state self.old).energy line))
            (scripted_state self.old) (scripted_state self.new) }
        ensures turn { Turns line true mask.now want.now self.old self.new }
    {
        self.turn(line, true, mask, want);
        self.tears = self.tears.saturating_add(1);
    }

    fn pulses(&self, line: u32) -> u64 {
        let Some(lines) = &self.lines else {
            unreachable!()
        };
        lines[line as usize].line.pulses()
    }
}

impl<const B: usize, const M: usize> TellsCells<B, M> for ScriptArray<B, M> {
    ghost use Rattle.std.specs.Prelude.{None};

    ghost changes = { λ array line. None };

    fn held(&self, line: u32) -> Cells<B, M> {
        let Some(lines) = &self.lines else {
            unreachable!()
        };
        lines[line as usize].line.held()
    }

    fn cell_wear(&self, line: u32) -> Option<CellWear> {
        None
    }

    fn energy(&self, line: u32) -> Option<LineEnergy> {
        Some(self.energies.at(line))
    }
}
