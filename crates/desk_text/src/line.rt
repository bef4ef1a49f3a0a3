// The lines of a text, one by one.
ghost use Rattle.std.specs.Prelude.{◌≡◌, ◌<◌, ◌≤◌, ◌∷◌, length, drop, slice_range};
ghost use Rattle.desk_text.specs.Lines.{lines};

use memchr::memchr;

/// The most bytes that a line may hold, without its line feed.
pub const LONGEST_LINE: usize = 4096;

pub(crate) const LINE_FEED: u8 = b'\n';

/// Where a line stands in its text, and where the next one begins. Places are numbered from 0.
#[derive(Clone, Copy, PartialEq, Eq)]
pub struct Line {
    /// The place of its first byte.
    pub start: usize,
    /// The place after its last byte, without its line feed.
    pub end: usize,
    /// The place after its line feed, or the end of the text.
    pub next: usize,
}

/// The line that begins at the place `from`, counted from 0. It takes no memory.
pub fn next_line(bytes: &[u8], from: usize) -> Line
    requires { from < length bytes.now }
    // The lines from there on are this one and those after it.
    ensures lines { lines (drop from bytes.now) ≡ slice_range bytes.now result.start result.end ∷
        lines (drop result.next bytes.now) }
    ensures start { result.start ≡ from }
    ensures end { result.start ≤ result.end }
    ensures next { result.end ≤ result.next }
    ensures more { from < result.next }
    ensures within { result.next ≤ length bytes.now }
{
    match memchr(LINE_FEED, &bytes[from..]) {
        Some(length) => Line {
            start: from,
            end: from + length,
            next: from + length + 1,
        },
        None => Line {
            start: from,
            end: bytes.len(),
            next: bytes.len(),
        },
    }
}
