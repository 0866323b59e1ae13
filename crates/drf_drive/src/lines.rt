//! Splits a file into lines.
ghost use Rattle.std.specs.Prelude.{◌≡◌, ◌<◌, ◌∷◌, length};
ghost use Rattle.drf_journal.specs.Lines.{lines_of};

use drf_journal::line_feed_in;

/// Returns the first line of some bytes, without its line feed, and the bytes after it.
pub(crate) fn first_line(bytes: &[u8]) -> (&[u8], &[u8])
    requires { 0 < length bytes.now }
    ensures lines { lines_of bytes.now ≡ result.0.now ∷ lines_of result.1.now }
    ensures less { length result.1.now < length bytes.now }
{
    match line_feed_in(bytes) {
        Some(at) => (&bytes[..at], &bytes[at + 1..]),
        None => (bytes, &[]),
    }
}
