//! What a bank is busy with, for how long, and what it turns to next.

ghost use Rattle.std.specs.Prelude.{◌≡◌, ◌+◌, ◌<◌, ◌^◌};
ghost use Rattle.bank_shape.specs.Acting.{chosen_by, choice, ends_with};

/// What a bank is busy with.
#[derive(Clone, Copy, PartialEq, Eq)]
pub enum Doing {
    /// A sense of the array line of the oldest waiting read.
    Serving,
    /// The first sense of a line write; for a gap move, of the line that is copied too.
    Beginning,
    /// One pulse of a line write and the sense behind it.
    Iterating,
}

/// An action that runs. Its event happens at its end.
#[derive(Clone, Copy, PartialEq, Eq)]
pub struct Action {
    pub doing: Doing,
    /// The tick at which it started.
    pub first: u64,
}

impl Action {
    /// The tick at which the action ends, where a sense takes `read` ticks and an iteration `iter`.
    pub fn ends(&self, read: u32, iter: u32) -> u64
        requires { self.now.first + 2 ^ 32 < 2 ^ 64 }
        ensures { result ≡ ends_with read iter self.now }
    {
        let ticks = match self.doing {
            Doing::Serving | Doing::Beginning => read,
            Doing::Iterating => iter,
        };
        self.first + ticks as u64
    }
}

/// What a bank turns to where nothing runs. A write that gives way lets a waiting read go first between two iterations
/// (write pausing, Qureshi et al., HPCA 2010).
pub fn choose(
    gives_way: bool,
    read_waits: bool,
    in_progress: bool,
    may_begin: bool,
) -> Option<Doing>
    ensures { result ≡ chosen_by gives_way read_waits (choice in_progress may_begin) }
{
    if gives_way && read_waits {
        Some(Doing::Serving)
    } else if in_progress {
        Some(Doing::Iterating)
    } else if read_waits {
        Some(Doing::Serving)
    } else if may_begin {
        Some(Doing::Beginning)
    } else {
        None
    }
}
