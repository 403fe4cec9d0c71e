// Requests of a client.
ghost use Rattle.std.specs.Prelude.{◌≡◌, ◌≢◌, ◌<◌, ◌^◌, take, Some, IfSome, IfNone};
ghost use Rattle.nbd_frames.specs.Numbers.{four};
ghost use Rattle.nbd_frames.specs.Requests.{IsHeader, command_of, request_bytes, request_magic};
ghost use Rattle.nbd_frames.specs.declared.request.RequestHeader.{RequestHeader};

use crate::numbers::{eight_at, four_at, two_at};

/// What a client asks for.
#[derive(Clone, Copy, Debug, PartialEq, Eq)]
pub enum Command {
    Read,
    Write,
    /// The client leaves.
    Disconnect,
    Flush,
    /// Another command, by its number.
    Other(u16),
}

impl Command {
    // The command with a number.
    fn of(code: u16) -> Command
        ensures { result ≡ command_of code }
    {
        match code {
            0 => Command::Read,
            1 => Command::Write,
            2 => Command::Disconnect,
            3 => Command::Flush,
            _ => Command::Other(code),
        }
    }
}

/// The beginning of a request; behind that of a write come its bytes.
#[derive(Clone, Copy, Debug, PartialEq, Eq)]
pub struct RequestHeader {
    /// Bit 0: the write is to be durable as it is acknowledged.
    pub flags: u16,
    pub command: Command,
    /// What the client tells its requests apart by.
    pub cookie: u64,
    /// The offset on the disk, in bytes.
    pub at: u64,
    /// How many bytes are read or written.
    pub size: u32,
}

/// Reads the beginning of a request; there is none where the bytes don't begin as one.
pub fn read_request(bytes: &[u8; 28]) -> Option<RequestHeader>
    ensures found { IfSome result (λ header. bytes.now ≡ request_bytes header) }
    ensures lawful { IfSome result (λ header. IsHeader header) }
    ensures only { (header : RequestHeader) → IsHeader header → bytes.now ≡ request_bytes header
        → result ≡ Some header }
    ensures none { IfNone result (take 4 bytes.now ≢ four request_magic) }
{
    if four_at(bytes, 0) != 0x2560_9513 {
        return None;
    }
    Some(RequestHeader {
        flags: two_at(bytes, 4),
        command: Command::of(two_at(bytes, 6)),
        cookie: eight_at(bytes, 8),
        at: eight_at(bytes, 16),
        size: four_at(bytes, 24),
    })
}
