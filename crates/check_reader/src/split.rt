//! Where a trace ends and its results begin, in a source that has both.
ghost use Rattle.std.specs.Prelude.{◌≡◌, ◌↔◌, ◌<◌, length, drop, IsTrue};
ghost use Rattle.check_reader.specs.Splitting.{BeginsLine, BeginsWithHeader, BeginResultsAt, EndsLine, IsHeaderAt};

// Whether a line that is exactly the header begins here.
fn is_header_at(bytes: &[u8], at: usize) -> bool
    requires { at < length bytes.now }
    ensures { IsTrue result ↔ IsHeaderAt bytes.now at }
{
    begins_line(bytes, at) && begins_with_header(&bytes[at..])
}

// Whether a line begins here: at the first byte, and behind an LF or a CR.
fn begins_line(bytes: &[u8], at: usize) -> bool
    requires { at < length bytes.now }
    ensures { IsTrue result ↔ BeginsLine bytes.now at }
{
    at == 0 || bytes[at - 1] == b'\n' || bytes[at - 1] == b'\r'
}

// Whether bytes begin with a line that is exactly the header.
fn begins_with_header(bytes: &[u8]) -> bool
    ensures { IsTrue result ↔ BeginsWithHeader bytes.now }
{
    match bytes.strip_prefix(b"row,op,line,outcome,tick,place,data".as_slice()) {
        Some(behind) => ends_line(behind),
        None => false,
    }
}

// Whether a line ends before these bytes.
fn ends_line(behind: &[u8]) -> bool
    ensures { IsTrue result ↔ EndsLine behind.now }
{
    behind.is_empty() || behind[0] == b'\n'
}

/// The byte at which the first line begins that is exactly the header of results: what stands before it is the trace. Without such a line it is
/// the end of the bytes.
pub fn find_results(bytes: &[u8]) -> usize
    ensures { BeginResultsAt bytes.now result }
{
    'starts: for (at, byte) in bytes.iter().enumerate() {
        if *byte == b'r' && is_header_at(bytes, at) {
            return at;
        }
    }
    bytes.len()
}
