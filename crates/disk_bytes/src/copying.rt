// Bytes that are copied into the lines of a sector and out of them, a line at a time.
ghost use Rattle.std.specs.Prelude.{◌≡◌, ℕ, ◌+◌, ◌-◌, ◌*◌, ◌<◌, ◌≤◌, ◌&&◌, nat_le, nat_lt, if◌then◌else◌, length, slice_index};
ghost use Rattle.disk_rules.specs.Pieces.{byte_in};

// Lays so many bytes, from one place of theirs on, into a line, from a place of it on.
fn lay_in_line<const B: usize>(
    line: &mut [u8; B],
    begin: usize,
    bytes: &[u8],
    from: usize,
    count: usize,
)
    requires room { begin + count ≤ B }
    requires given { from + count ≤ length bytes.now }
    ensures { (j : ℕ) → slice_index line.new j ≡ (if nat_le begin j && nat_lt j (begin + count)
        then slice_index bytes.now (from + (j - begin)) else slice_index line.old j) }
{
    let line = &mut line[..];
    line[begin..begin + count].copy_from_slice(&bytes[from..from + count]);
}

// Fetches so many bytes from a place of a line on; they are put one behind the other, from a place
// on.
fn fetch_from_line<const B: usize>(
    line: &[u8; B],
    begin: usize,
    to: &mut [u8],
    from: usize,
    count: usize,
)
    requires there { begin + count ≤ B }
    requires room { from + count ≤ length to.old }
    ensures fetched { (i : ℕ) → i < count
        → slice_index to.new (from + i) ≡ slice_index line.now (begin + i) }
    ensures before { (i : ℕ) → i < from → slice_index to.new i ≡ slice_index to.old i }
    ensures length { length to.new ≡ length to.old }
{
    let line = &line[..];
    to[from..from + count].copy_from_slice(&line[begin..begin + count]);
}

// Lays so many bytes, from one place of theirs on, into the lines, from another place on.
pub(crate) fn lay<const B: usize>(
    lines: &mut [[u8; B]],
    begin: usize,
    bytes: &[u8],
    from: usize,
    count: usize,
)
    requires some { 0 < B }
    requires room { begin + count ≤ length lines.old * B }
    requires given { from + count ≤ length bytes.now }
    ensures laid { (y : ℕ) → byte_in B lines.new y ≡ (if nat_le begin y && nat_lt y (begin + count)
        then slice_index bytes.now (from + (y - begin)) else byte_in B lines.old y) }
    ensures length { length lines.new ≡ length lines.old }
{
    let mut done = 0;
    while done < count {
        let place = begin + done;
        let next = (B - place % B).min(count - done);
        lay_in_line(&mut lines[place / B], place % B, bytes, from + done, next);
        done += next;
    }
}

// Fetches so many bytes from a place of the lines on; they are put one behind the other, from a
// place on.
pub(crate) fn fetch<const B: usize>(
    lines: &[[u8; B]],
    begin: usize,
    to: &mut [u8],
    from: usize,
    count: usize,
)
    requires some { 0 < B }
    requires there { begin + count ≤ length lines.now * B }
    requires room { from + count ≤ length to.old }
    ensures fetched { (i : ℕ) → i < count
        → slice_index to.new (from + i) ≡ byte_in B lines.now (begin + i) }
    ensures before { (i : ℕ) → i < from → slice_index to.new i ≡ slice_index to.old i }
    ensures length { length to.new ≡ length to.old }
{
    let mut done = 0;
    while done < count {
        let place = begin + done;
        let next = (B - place % B).min(count - done);
        fetch_from_line(&lines[place / B], place % B, to, from + done, next);
        done += next;
    }
}
