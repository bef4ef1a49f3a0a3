//! The numbers of lines.
ghost use Rattle.std.specs.Prelude.{◌≡◌, ◌≤◌, ◌+◌, ◌-◌, length, take, count_by, ◌==◌};

// How many lines end in a text.
fn line_feeds(text: &[u8]) -> usize
    ensures count { result ≡ count_by (λ b. b == 10) text.now }
    ensures few { result ≤ length text.now }
{
    text.iter().filter(|byte| **byte == b'\n').count()
}

/// The number, from 1, of the line with which the last bytes of a text begin.
pub fn line_number(bytes: &[u8], last: &[u8]) -> u64
    requires { length last.now ≤ length bytes.now }
    ensures { result ≡ count_by (λ b. b == 10) (take (length bytes.now - length last.now) bytes.now)
        + 1 }
{
    line_feeds(&bytes[..bytes.len() - last.len()]) as u64 + 1
}
