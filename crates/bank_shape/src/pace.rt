//! How fast a bank works: the ticks of a sense and of an iteration, and when a line write gives way to a read (write
//! pausing, Qureshi et al., HPCA 2010).

ghost use Rattle.std.specs.Prelude.{◌≡◌};
ghost use Rattle.bank_shape.specs.Pausing.{gives_way, is_cancelling};

/// When a line write gives way to a read.
#[derive(Clone, Copy, PartialEq, Eq)]
pub enum Policy {
    /// A waiting read goes first, between two iterations; the write then resumes.
    Pause,
    /// A line write in progress goes on to its end.
    Plain,
    /// As `Pause`, and a read that comes where none waits ends what runs of a line write, up to four times.
    Cancel,
}

/// How fast a bank works, and what goes first.
#[derive(Clone, Copy, PartialEq, Eq)]
pub struct Pace {
    /// Ticks of a sense, 1 to 255.
    pub read: u32,
    /// Ticks of an iteration, which is a pulse and the sense behind it, 1 to 255.
    pub iter: u32,
    /// When a line write gives way.
    pub policy: Policy,
}

impl Policy {
    /// Whether a read ends what runs of a line write.
    pub fn cancels(&self) -> bool
        ensures { result ≡ is_cancelling self.now }
    {
        match self {
            Policy::Cancel => true,
            _ => false,
        }
    }

    /// Whether a line write gives way to a waiting read between two iterations.
    pub fn gives_way(&self) -> bool
        ensures { result ≡ gives_way self.now }
    {
        match self {
            Policy::Pause => true,
            Policy::Plain => false,
            Policy::Cancel => true,
        }
    }
}
