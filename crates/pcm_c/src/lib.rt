//! A module in the process of a C program: the functions of c/pcm.h. None requires more than valid pointers; what C can break says that header.
#![tactic(auto)]

ghost use Rattle.std.specs.Prelude.{◌≡◌, ◌≢◌, IfErr, IfOk, None, Some, length, replicate};
ghost use Rattle.masked_bytes.specs.Masked.{laid};
ghost use Rattle.cell_rows.specs.Device.{IsWear};
ghost use Rattle.trace_reader.specs.declared.event.EventOp.TheVariants.{Cut, Mask, Read, Write};
ghost use Rattle.trace_stream.specs.declared.asked.Asked.TheVariants.{Happens, Settle, Until as Waits, UntilAny as Awaits};
ghost use Rattle.pcm_c.specs.Answers.{RowToldAt, bank_status, finish_status, line_status, newest_status, next_status, number_at, refusal_of_cut, refusal_of_masked, refusal_of_read, refusal_of_write, settle_status, wait_status};
ghost use Rattle.pcm_c.specs.Calls.{FinishesAt, TakesRowAt, lines_at, number_of, rows_at, tick_at, waiting_at};
ghost use Rattle.pcm_c.specs.Opening.{AreRight, BeginsWith, OpenToldAt, OpensAt, bad_option, number_of_bad, open_refusal};
ghost use Rattle.pcm_c.specs.Telling.{HandsAt, HandsNothingAt, TellsBankAt, TellsLineAt, TellsNewestAt, TellsWearAt};

mod backlog;
mod calls;
mod handle;
mod held;
mod lend;
mod loose;
mod options;
mod outcome;
mod pcm;
mod standing;
mod status;
mod wear;

use crate::options::{Chosen, choose};
use crate::status::Status;
pub use backlog::ModuleBacklog;
pub use handle::Handle;
pub use held::{Held, NarrowSession, WideSession};
pub use options::ModuleOptions;
pub use outcome::ModuleOutcome;
pub use pcm::PcmModule;
pub use standing::ModuleStanding;
use std::alloc::Global;
pub use wear::ModuleWear;

/// The number of an option that is out of range, or 0 where none is.
#[unsafe(no_mangle)]
pub extern "C" fn pcm_module_bad_option(options: &ModuleOptions) -> u32
    ensures number { result ≡ number_of_bad (bad_option options.now) }
    ensures right { result ≡ 0 → AreRight options.now }
{
    match choose(options) {
        Ok(_) => 0,
        Err(bad) => bad.number(),
    }
}

// The module that these options ask for.
fn opened(alloc: Global, options: &ModuleOptions) -> Result<Box<Held>, Status>
    ensures held { IfOk result (λ held. OpensAt options.now (Some held.value)) }
    ensures right { IfOk result (λ held. bad_option options.now ≡ None) }
    ensures refused { IfErr result (λ status. status ≢ Status.Done) }
    ensures why { IfErr result (λ status. status ≡ open_refusal (bad_option options.now)) }
{
    match choose(options) {
        Ok(chosen) => boxed(alloc, &chosen),
        Err(_) => Err(Status::Options),
    }
}

// The same, in a box.
fn boxed(alloc: Global, chosen: &Chosen) -> Result<Box<Held>, Status>
    requires { IsWear chosen.now.wear }
    ensures held { IfOk result (λ held.
        BeginsWith chosen.now.is_wide chosen.now.shape chosen.now.wear held.value) }
    ensures refused { IfErr result (λ status. status ≡ Status.NoMemory) }
{
    match Held::new(alloc, chosen) {
        Ok(held) => match Box::new(alloc, held) {
            Ok(held) => Ok(held),
            Err(_) => Err(Status::NoMemory),
        },
        Err(_) => Err(Status::NoMemory),
    }
}

/// Opens a module.
#[unsafe(no_mangle)]
pub extern "C" fn pcm_module_open(
    alloc: Global,
    pcm: &mut PcmModule,
    options: &ModuleOptions,
) -> u32
    ensures answer { OpenToldAt options.now pcm.old.value result }
    ensures done { result ≡ 0 → OpensAt options.now pcm.new.value }
    ensures rest { result ≢ 0 → pcm.new ≡ pcm.old }
{
    if pcm.is_open {
        return Status::Open.number();
    }
    match opened(alloc, options) {
        Ok(held) => {
            pcm.handle = Handle::of(held);
            pcm.is_open = true;
            Status::Done.number()
        }
        Err(refused) => refused.number(),
    }
}

/// A write of a whole line comes.
#[unsafe(no_mangle)]
pub extern "C" fn pcm_module_write(pcm: &mut PcmModule, tick: u64, line: u32, bytes: &[u8]) -> u32
    ensures answer { RowToldAt (λ n m e s. refusal_of_write s tick line (length bytes.now)) pcm.old.value result }
    ensures done { result ≡ 0 → TakesRowAt (λ n. Happens (record {
      tick = tick;
      op = Write line bytes.now;
    })) pcm.old.value pcm.new.value }
    ensures rest { result ≢ 0 → pcm.new ≡ pcm.old }
{
    if !pcm.is_open {
        return Status::Closed.number();
    }
    pcm.handle.held().write(tick, line, bytes).number()
}

/// A write of the bytes of a line that are given comes.
#[unsafe(no_mangle)]
pub extern "C" fn pcm_module_write_masked(
    pcm: &mut PcmModule,
    tick: u64,
    line: u32,
    bytes: &[u8],
    given: &[bool],
) -> u32
    ensures answer { RowToldAt (λ n m e s. refusal_of_masked s tick line (length bytes.now) given.now) pcm.old.value result }
    ensures done { result ≡ 0 → TakesRowAt (λ n. Happens (record {
      tick = tick;
      op = Mask line (laid bytes.now given.now (replicate n 0)) given.now;
    })) pcm.old.value pcm.new.value }
    ensures rest { result ≢ 0 → pcm.new ≡ pcm.old }
{
    if !pcm.is_open {
        return Status::Closed.number();
    }
    pcm.handle
        .held()
        .write_masked(tick, line, bytes, given)
        .number()
}

/// A read of a line comes.
#[unsafe(no_mangle)]
pub extern "C" fn pcm_module_read(pcm: &mut PcmModule, tick: u64, line: u32) -> u32
    ensures answer { RowToldAt (λ n m e s. refusal_of_read s tick line) pcm.old.value result }
    ensures done { result ≡ 0 → TakesRowAt (λ n. Happens (record {
      tick = tick;
      op = Read line;
    })) pcm.old.value pcm.new.value }
    ensures rest { result ≢ 0 → pcm.new ≡ pcm.old }
{
    if !pcm.is_open {
        return Status::Closed.number();
    }
    pcm.handle.held().read(tick, line).number()
}

/// The power is cut.
#[unsafe(no_mangle)]
pub extern "C" fn pcm_module_cut(pcm: &mut PcmModule, tick: u64) -> u32
    ensures answer { RowToldAt (λ n m e s. refusal_of_cut s tick) pcm.old.value result }
    ensures done { result ≡ 0 → TakesRowAt (λ n. Happens (record {
      tick = tick;
      op = Cut;
    })) pcm.old.value pcm.new.value }
    ensures rest { result ≢ 0 → pcm.new ≡ pcm.old }
{
    if !pcm.is_open {
        return Status::Closed.number();
    }
    pcm.handle.held().cut(tick).number()
}

/// Every bank comes to a tick.
#[unsafe(no_mangle)]
pub extern "C" fn pcm_module_settle(pcm: &mut PcmModule, tick: u64) -> u32
    ensures answer { result ≡ number_at (λ n m e s. settle_status s tick) pcm.old.value }
    ensures done { result ≡ 0 → TakesRowAt (λ n. Settle tick) pcm.old.value
        pcm.new.value }
    ensures rest { result ≢ 0 → pcm.new ≡ pcm.old }
{
    if !pcm.is_open {
        return Status::Closed.number();
    }
    pcm.handle.held().settle(tick).number()
}

/// Every bank goes on until a row has its outcome, at most to a tick.
#[unsafe(no_mangle)]
pub extern "C" fn pcm_module_settle_until(pcm: &mut PcmModule, row: u32, limit: u64) -> u32
    ensures answer { result ≡ number_at (λ n m e s. wait_status s row limit) pcm.old.value }
    ensures done { result ≡ 0 → TakesRowAt (λ n. Waits (record {
      row = row;
      limit = limit;
      reached = number_of tick_at pcm.new.value;
    })) pcm.old.value pcm.new.value }
    ensures rest { result ≢ 0 → pcm.new ≡ pcm.old }
{
    if !pcm.is_open {
        return Status::Closed.number();
    }
    pcm.handle.held().settle_until(row, limit).number()
}

/// Every bank goes on until any row has its outcome that had none, at most to a tick.
#[unsafe(no_mangle)]
pub extern "C" fn pcm_module_settle_any(pcm: &mut PcmModule, limit: u64) -> u32
    ensures answer { result ≡ number_at (λ n m e s. settle_status s limit) pcm.old.value }
    ensures done { result ≡ 0 → TakesRowAt (λ n. Awaits (record {
      limit = limit;
      reached = number_of tick_at pcm.new.value;
    })) pcm.old.value pcm.new.value }
    ensures rest { result ≢ 0 → pcm.new ≡ pcm.old }
{
    if !pcm.is_open {
        return Status::Closed.number();
    }
    pcm.handle.held().settle_any(limit).number()
}

/// No more rows come: the banks drain.
#[unsafe(no_mangle)]
pub extern "C" fn pcm_module_finish(pcm: &mut PcmModule) -> u32
    ensures answer { result ≡ number_at (λ n m e s. finish_status s) pcm.old.value }
    ensures done { result ≡ 0 → FinishesAt pcm.old.value pcm.new.value }
    ensures rest { result ≢ 0 → pcm.new ≡ pcm.old }
{
    if !pcm.is_open {
        return Status::Closed.number();
    }
    pcm.handle.held().finish().number()
}

/// The first outcome that waits is taken.
#[unsafe(no_mangle)]
pub extern "C" fn pcm_module_next(pcm: &mut PcmModule, out: &mut ModuleOutcome) -> u32
    ensures answer { result ≡ number_at (λ n m e s. next_status s) pcm.old.value }
    ensures done { result ≡ 0 → HandsAt pcm.old.value pcm.new.value out.new }
    ensures none { result ≢ 0 → HandsNothingAt pcm.old.value pcm.new.value }
    ensures out { result ≢ 0 → out.new ≡ out.old }
{
    if !pcm.is_open {
        return Status::Closed.number();
    }
    pcm.handle.held().next(out).number()
}

/// What waits in a bank.
#[unsafe(no_mangle)]
pub extern "C" fn pcm_module_bank(pcm: &mut PcmModule, bank: u32, out: &mut ModuleBacklog) -> u32
    ensures answer { result ≡ number_at (λ n m e s. bank_status s bank) pcm.old.value }
    ensures done { result ≡ 0 → TellsBankAt bank pcm.old.value out.new }
    ensures rest { pcm.new ≡ pcm.old }
    ensures out { result ≢ 0 → out.new ≡ out.old }
{
    if !pcm.is_open {
        return Status::Closed.number();
    }
    pcm.handle.held().bank(bank, out).number()
}

/// Where a line stands, and how worn its array line is.
#[unsafe(no_mangle)]
pub extern "C" fn pcm_module_line(pcm: &mut PcmModule, line: u32, out: &mut ModuleStanding) -> u32
    ensures answer { result ≡ number_at (λ n m e s. line_status s line) pcm.old.value }
    ensures done { result ≡ 0 → TellsLineAt line pcm.old.value out.new }
    ensures rest { pcm.new ≡ pcm.old }
    ensures out { result ≢ 0 → out.new ≡ out.old }
{
    if !pcm.is_open {
        return Status::Closed.number();
    }
    pcm.handle.held().line(line, out).number()
}

/// A line's newest bytes, as many as a line has. Nothing is sensed for them.
#[unsafe(no_mangle)]
pub extern "C" fn pcm_module_newest(pcm: &mut PcmModule, line: u32, bytes: &mut [u8]) -> u32
    ensures answer { result
        ≡ number_at (λ n m e s. newest_status s line (length bytes.old)) pcm.old.value }
    ensures done { result ≡ 0 → TellsNewestAt line pcm.old.value bytes.new }
    ensures rest { pcm.new ≡ pcm.old }
    ensures out { result ≢ 0 → bytes.new ≡ bytes.old }
{
    if !pcm.is_open {
        return Status::Closed.number();
    }
    pcm.handle.held().newest(line, bytes).number()
}

/// How worn the module is: a walk over its array lines.
#[unsafe(no_mangle)]
pub extern "C" fn pcm_module_look(pcm: &mut PcmModule, out: &mut ModuleWear) -> u32
    ensures answer { result ≡ number_at (λ n m e s. Status.Done) pcm.old.value }
    ensures done { result ≡ 0 → TellsWearAt pcm.old.value out.new }
    ensures rest { pcm.new ≡ pcm.old }
    ensures out { result ≢ 0 → out.new ≡ out.old }
{
    if !pcm.is_open {
        return Status::Closed.number();
    }
    pcm.handle.held().look(out);
    Status::Done.number()
}

/// The tick that was reached; 0 where it is closed.
#[unsafe(no_mangle)]
pub extern "C" fn pcm_module_tick(pcm: &mut PcmModule) -> u64
    ensures number { result ≡ number_of tick_at pcm.old.value }
    ensures rest { pcm.new ≡ pcm.old }
{
    if !pcm.is_open {
        return 0;
    }
    pcm.handle.held().tick()
}

/// How many rows came; 0 where it is closed.
#[unsafe(no_mangle)]
pub extern "C" fn pcm_module_rows(pcm: &mut PcmModule) -> u32
    ensures number { result ≡ number_of rows_at pcm.old.value }
    ensures rest { pcm.new ≡ pcm.old }
{
    if !pcm.is_open {
        return 0;
    }
    pcm.handle.held().rows()
}

/// How many lines it has; 0 where it is closed.
#[unsafe(no_mangle)]
pub extern "C" fn pcm_module_lines(pcm: &mut PcmModule) -> u32
    ensures number { result ≡ number_of lines_at pcm.old.value }
    ensures rest { pcm.new ≡ pcm.old }
{
    if !pcm.is_open {
        return 0;
    }
    pcm.handle.held().lines()
}

/// How many outcomes wait; 0 where it is closed.
#[unsafe(no_mangle)]
pub extern "C" fn pcm_module_waiting(pcm: &mut PcmModule) -> usize
    ensures number { result ≡ number_of waiting_at pcm.old.value }
    ensures rest { pcm.new ≡ pcm.old }
{
    if !pcm.is_open {
        return 0;
    }
    pcm.handle.held().waiting()
}

/// Closes a module. One that is closed stays so.
#[unsafe(no_mangle)]
pub extern "C" fn pcm_module_close(alloc: Global, pcm: &mut PcmModule)
    ensures { pcm.new.value ≡ None }
{
    if pcm.is_open {
        let handle = std::mem::replace(&mut pcm.handle, Handle::none(alloc));
        pcm.is_open = false;
        drop(handle.into_box(alloc));
    }
}
