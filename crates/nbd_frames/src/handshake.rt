// The handshake: what is said before the first request.
ghost use Rattle.std.specs.Prelude.{◌≡◌, ◌≢◌, ◌++◌, take, Some, IfSome, IfNone};
ghost use Rattle.nbd_frames.specs.Numbers.{two, four, eight};
ghost use Rattle.nbd_frames.specs.Options.{IsOption, asks_info, choice_code, choice_of, export_bytes, greeting, most_data, option_bytes, option_magic, reply_code, reply_front};
ghost use Rattle.nbd_frames.specs.declared.handshake.OptionHeader.{OptionHeader};

use crate::numbers::{eight_at, four_at, two_at};

/// The most bytes of an option's data that are looked at.
pub const MOST_DATA: usize = 8_192;

/// What a client asks for in the handshake: NBD's options.
#[derive(Clone, Copy, Debug, PartialEq, Eq)]
pub enum Choice {
    /// To use an export, as old clients ask for it.
    ExportName,
    /// To end the handshake, and leave.
    Abort,
    /// To name the exports.
    Exports,
    /// To tell of an export.
    Info,
    /// To tell of an export, and use it.
    Go,
    /// Another option, by its number.
    Other(u32),
}

impl Choice {
    // The option with a number.
    fn of(code: u32) -> Choice
        ensures { result ≡ choice_of code }
    {
        match code {
            1 => Choice::ExportName,
            2 => Choice::Abort,
            3 => Choice::Exports,
            6 => Choice::Info,
            7 => Choice::Go,
            _ => Choice::Other(code),
        }
    }

    // Its number.
    fn code(self) -> u32
        ensures { result ≡ choice_code self }
    {
        match self {
            Choice::ExportName => 1,
            Choice::Abort => 2,
            Choice::Exports => 3,
            Choice::Info => 6,
            Choice::Go => 7,
            Choice::Other(code) => code,
        }
    }
}

/// The beginning of an option; its data come behind it.
#[derive(Clone, Copy, Debug, PartialEq, Eq)]
pub struct OptionHeader {
    pub choice: Choice,
    /// How many bytes of data there are.
    pub size: u32,
}

/// What is answered to an option.
#[derive(Clone, Copy, Debug, PartialEq, Eq)]
pub enum Reply {
    /// That is all, or it is done.
    Ack,
    /// There is an export with this name.
    Server,
    /// This is to know of the export.
    Info,
    /// The option isn't known.
    Unsupported,
    /// Its data aren't such data.
    Invalid,
    /// It has too many data.
    TooBig,
}

impl Reply {
    // Its number.
    fn code(self) -> u32
        ensures { result ≡ reply_code self }
    {
        match self {
            Reply::Ack => 1,
            Reply::Server => 2,
            Reply::Info => 3,
            Reply::Unsupported => 0x8000_0001,
            Reply::Invalid => 0x8000_0003,
            Reply::TooBig => 0x8000_0009,
        }
    }
}

/// What a server says first.
pub fn greet() -> [u8; 18]
    ensures { result ≡ greeting }
{
    *b"NBDMAGICIHAVEOPT\x00\x03"
}

/// The flags of a client: the four bytes behind the greeting.
pub fn read_flags(bytes: &[u8; 4]) -> u32
    ensures { bytes.now ≡ four result }
{
    u32::from_be_bytes(*bytes)
}

/// Reads the beginning of an option; there is none where the bytes don't begin as one.
pub fn read_option(bytes: &[u8; 16]) -> Option<OptionHeader>
    ensures found { IfSome result (λ header. bytes.now ≡ option_bytes header) }
    ensures lawful { IfSome result (λ header. IsOption header) }
    ensures only { (header : OptionHeader) → IsOption header → bytes.now ≡ option_bytes header
        → result ≡ Some header }
    ensures none { IfNone result (take 8 bytes.now ≢ eight option_magic) }
{
    if eight_at(bytes, 0) != 0x4948_4156_454F_5054 {
        return None;
    }
    Some(OptionHeader {
        choice: Choice::of(four_at(bytes, 8)),
        size: four_at(bytes, 12),
    })
}

/// The beginning of a reply to an option, behind which come so many bytes of data.
pub fn reply_front(choice: Choice, reply: Reply, size: u32) -> [u8; 20]
    ensures { result ≡ reply_front choice reply size }
{
    let [a, b, c, d] = choice.code().to_be_bytes();
    let [e, f, g, h] = reply.code().to_be_bytes();
    let [i, j, k, l] = size.to_be_bytes();
    [
        0x00, 0x03, 0xE8, 0x89, 0x04, 0x55, 0x65, 0xA9, a, b, c, d, e, f, g, h, i, j, k, l,
    ]
}

/// What an old client is told of a disk of so many bytes.
pub fn export_bytes(size: u64) -> [u8; 10]
    ensures { result ≡ export_bytes size }
{
    let [a, b, c, d, e, f, g, h] = size.to_be_bytes();
    [a, b, c, d, e, f, g, h, 0, 0x0D]
}

/// What other clients are told of it.
pub fn info_bytes(size: u64) -> [u8; 12]
    ensures { result ≡ two 0 ++ export_bytes size }
{
    let [a, b, c, d, e, f, g, h] = size.to_be_bytes();
    [0, 0, a, b, c, d, e, f, g, h, 0, 0x0D]
}

/// Whether an option's data are those of an INFO or a GO.
pub fn asks_info(bytes: &[u8]) -> bool
    ensures { result ≡ asks_info bytes.now }
{
    if bytes.len() < 6 {
        return false;
    }
    let name = four_at(bytes, 0) as usize;
    if bytes.len() < name + 6 {
        return false;
    }
    bytes.len() == name + 6 + 2 * two_at(bytes, 4 + name) as usize
}
