// How a stream was done.
ghost use Rattle.std.specs.Prelude.{◌≡◌};
ghost use Rattle.stream_top.specs.Streams.{status_done};

/// How a stream was done.
#[derive(Clone, Copy, PartialEq, Eq)]
pub enum StreamDone {
    /// Wholly: no row fell short of what it asked for, or it stopped at a refused row, as it was to.
    Whole,
    /// Some row was refused, lost or left in a queue.
    Short,
}

impl StreamDone {
    /// The status of the program for it.
    pub fn status(self) -> u8
        ensures { result ≡ status_done self }
    {
        match self {
            StreamDone::Whole => 0,
            StreamDone::Short => 1,
        }
    }
}
