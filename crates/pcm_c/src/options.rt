// What a module is to be, as C asks for it.
ghost use Rattle.std.specs.Prelude.{◌≡◌, IfOk, IfSome, None, Option, Some, if◌then◌else◌};
ghost use Rattle.cell_rows.specs.Device.{IsWear};
ghost use Rattle.pcm_c.specs.Opening.{IsChosen, bad_in, bad_option, bad_wear, home_of, option_number, option_of, policy_of, wear_of, width_of};

use bank_shape::{Home, Policy};
use cell_rows::Wear;
use module_shape::{Field, RawShape, Shape};

// How many bytes the options have.
const SIZE: u32 = 72;

/// What a module is to be.
#[repr(C)]
#[derive(Drop)]
pub struct ModuleOptions {
    /// How many bytes these options have.
    pub size: u32,
    pub banks: u32,
    pub regions: u32,
    pub lines: u32,
    /// The bytes of a line, 64 or 128.
    pub line: u32,
    pub spares: u32,
    pub write_queue: u32,
    pub read_queue: u32,
    pub psi: u32,
    pub read_ticks: u32,
    pub iter_ticks: u32,
    /// 0: pause, 1: plain, 2: cancel.
    pub policy: u32,
    /// 0: guarded, 1: in the array.
    pub registers: u32,
    pub misses: u32,
    pub lo: u32,
    pub hi: u32,
    pub seed: u64,
}

/// The sizes of a module, how its cells wear, and whether its lines have 128 bytes.
#[derive(Clone, Copy, Drop)]
pub(crate) struct Chosen {
    pub shape: Shape,
    pub wear: Wear,
    pub is_wide: bool,
}

/// An option that is out of range.
#[derive(Clone, Copy, PartialEq, Eq)]
pub(crate) enum BadOption {
    Size,
    Banks,
    Regions,
    Lines,
    /// The lines of the module, all together.
    Total,
    Line,
    Spares,
    WriteQueue,
    ReadQueue,
    Psi,
    ReadTicks,
    IterTicks,
    Policy,
    Registers,
    Misses,
    Lo,
    Hi,
}

impl BadOption {
    // The option that sets a size.
    fn of(field: Field) -> BadOption
        ensures { result ≡ option_of field }
    {
        match field {
            Field::Banks => BadOption::Banks,
            Field::Regions => BadOption::Regions,
            Field::Lines => BadOption::Lines,
            Field::Total => BadOption::Total,
            Field::Spares => BadOption::Spares,
            Field::Writes => BadOption::WriteQueue,
            Field::Reads => BadOption::ReadQueue,
            Field::Psi => BadOption::Psi,
            Field::ReadTicks => BadOption::ReadTicks,
            Field::IterTicks => BadOption::IterTicks,
        }
    }

    /// Its number in C.
    pub(crate) fn number(self) -> u32
        ensures { result ≡ option_number self }
    {
        match self {
            BadOption::Size => 1,
            BadOption::Banks => 2,
            BadOption::Regions => 3,
            BadOption::Lines => 4,
            BadOption::Total => 5,
            BadOption::Line => 6,
            BadOption::Spares => 7,
            BadOption::WriteQueue => 8,
            BadOption::ReadQueue => 9,
            BadOption::Psi => 10,
            BadOption::ReadTicks => 11,
            BadOption::IterTicks => 12,
            BadOption::Policy => 13,
            BadOption::Registers => 14,
            BadOption::Misses => 15,
            BadOption::Lo => 16,
            BadOption::Hi => 17,
        }
    }
}

// The policy of this number.
fn policy(number: u32) -> Option<Policy>
    ensures { result ≡ policy_of number }
{
    match number {
        0 => Some(Policy::Pause),
        1 => Some(Policy::Plain),
        2 => Some(Policy::Cancel),
        _ => None,
    }
}

// The home of the registers that has this number.
fn home(number: u32) -> Option<Home>
    ensures { result ≡ home_of number }
{
    match number {
        0 => Some(Home::Guarded),
        1 => Some(Home::Array),
        _ => None,
    }
}

// How cells wear.
fn wear(options: &ModuleOptions) -> Result<Wear, BadOption>
    ensures right { IfOk result (λ wear. (wear ≡ wear_of options.now) × IsWear wear) }
    ensures exact { bad_in result ≡ bad_wear options.now }
{
    if options.misses > 7 {
        return Err(BadOption::Misses);
    }
    if options.lo < 1 {
        return Err(BadOption::Lo);
    }
    if options.hi < options.lo || options.hi > 4_000_000_000 {
        return Err(BadOption::Hi);
    }
    Ok(Wear {
        seed: options.seed,
        lo: options.lo,
        hi: options.hi,
        misses: options.misses as u8,
    })
}

// Whether lines have 128 bytes.
fn is_wide(line: u32) -> Option<bool>
    ensures exact { result ≡ width_of line }
    ensures line { IfSome result (λ is_wide. line ≡ (if is_wide then 128 else 64)) }
{
    match line {
        64 => Some(false),
        128 => Some(true),
        _ => None,
    }
}

/// What the options choose, or one that is out of range.
pub(crate) fn choose(options: &ModuleOptions) -> Result<Chosen, BadOption>
    ensures right { IfOk result (λ chosen. IsChosen options.now chosen) }
    ensures exact { bad_in result ≡ bad_option options.now }
{
    if options.size != SIZE {
        return Err(BadOption::Size);
    }
    let Some(policy) = policy(options.policy) else {
        return Err(BadOption::Policy);
    };
    let Some(home) = home(options.registers) else {
        return Err(BadOption::Registers);
    };
    let Some(is_wide) = is_wide(options.line) else {
        return Err(BadOption::Line);
    };
    let wear = wear(options)?;
    match Shape::large(RawShape {
        banks: options.banks,
        regions: options.regions,
        lines: options.lines,
        spares: options.spares,
        writes: options.write_queue,
        reads: options.read_queue,
        psi: options.psi,
        read_ticks: options.read_ticks,
        iter_ticks: options.iter_ticks,
        policy,
        home,
    }) {
        Ok(shape) => Ok(Chosen {
            shape,
            wear,
            is_wide,
        }),
        Err(bad) => Err(BadOption::of(bad.field)),
    }
}
