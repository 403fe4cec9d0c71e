// Replies to requests.
ghost use Rattle.std.specs.Prelude.{◌≡◌};
ghost use Rattle.nbd_frames.specs.Requests.{failure_number, error_number, reply_bytes};

/// Why a request isn't served, as far as NBD has a number for it.
#[derive(Clone, Copy, Debug, PartialEq, Eq)]
pub enum Failure {
    /// It can't be read or written.
    Io,
    /// Memory ran out.
    NoMemory,
    /// There is no such request.
    Invalid,
    /// It is to write beyond the end of the disk.
    NoSpace,
    /// The disk has lost its power.
    Shutdown,
}

impl Failure {
    // NBD's number of it.
    fn number(self) -> u32
        ensures { result ≡ failure_number self }
    {
        match self {
            Failure::Io => 5,
            Failure::NoMemory => 12,
            Failure::Invalid => 22,
            Failure::NoSpace => 28,
            Failure::Shutdown => 108,
        }
    }
}

// The error number of a reply.
fn error_number(failure: Option<Failure>) -> u32
    ensures { result ≡ error_number failure }
{
    match failure {
        None => 0,
        Some(failure) => failure.number(),
    }
}

/// The reply to the request with this cookie; the bytes of a read follow it.
pub fn reply(failure: Option<Failure>, cookie: u64) -> [u8; 16]
    ensures { result ≡ reply_bytes failure cookie }
{
    let [a, b, c, d] = error_number(failure).to_be_bytes();
    let [e, f, g, h, i, j, k, l] = cookie.to_be_bytes();
    [0x67, 0x44, 0x66, 0x98, a, b, c, d, e, f, g, h, i, j, k, l]
}
