//! The text of hints.
ghost use Rattle.std.specs.Prelude.{◌≡◌, IfOk, true};
ghost use Rattle.drf_lint.specs.Diagnosed.{AreWords, is_seen};

use itoa::Buffer;
use std::alloc::{AllocError, Global};

/// A text that says what is wrong in a line, and the position at which it is wrong.
#[derive(Drop)]
pub(crate) struct Hint {
    /// The position in the line in bytes, from 0.
    pub place: usize,
    pub words: Vec<u8>,
}

/// Returns a hint with a fixed text.
pub(crate) fn plain_hint(alloc: Global, place: usize, text: &str) -> Result<Hint, AllocError> {
    let mut words = Vec::new(alloc);
    say(&mut words, text)?;
    Ok(Hint { place, words })
}

/// Appends a text.
pub(crate) fn say(words: &mut Vec<u8>, text: &str) -> Result<(), AllocError> {
    words.extend_from_slice(text.as_bytes())
}

/// Appends a decimal number.
pub(crate) fn say_number(words: &mut Vec<u8>, number: usize) -> Result<(), AllocError> {
    say(words, Buffer::new().format(number as u64))
}

/// Returns whether a byte is visible ASCII or a space, so that it can be shown as it is.
fn is_seen(byte: u8) -> bool
    ensures { result ≡ is_seen byte }
{
    (32 <= byte) & (byte <= 126)
}

const DIGITS: &[u8; 16] = b"0123456789abcdef";

/// Appends a byte, written like `\x0a` if it is neither visible ASCII nor a space.
fn show_byte(words: &mut Vec<u8>, byte: u8) -> Result<(), AllocError> {
    if is_seen(byte) {
        words.push(byte)?;
        return Ok(());
    }
    say(words, "\\x")?;
    words.push(DIGITS[(byte / 16) as usize])?;
    words.push(DIGITS[(byte % 16) as usize])?;
    Ok(())
}

/// How many bytes of a part of a line are shown.
const MOST_SHOWN: usize = 40;

/// Appends a part of the line; a long one is cut.
pub(crate) fn show(words: &mut Vec<u8>, piece: &[u8]) -> Result<(), AllocError> {
    let shown = piece.len().min(MOST_SHOWN);
    for byte in &piece[..shown] {
        show_byte(words, *byte)?;
    }
    if shown < piece.len() {
        say(words, "...")?;
    }
    Ok(())
}

/// Appends a text of the line in quotes.
pub(crate) fn quote(words: &mut Vec<u8>, text: &[u8]) -> Result<(), AllocError> {
    say(words, "\"")?;
    show(words, text)?;
    say(words, "\"")
}

/// The greatest length of a hint in bytes.
const MOST_WORDS: usize = 240;

/// Returns the byte, or `?` if it is neither visible ASCII nor a space.
fn seen_byte(byte: u8) -> u8
    ensures { is_seen result ≡ true }
{
    if is_seen(byte) {
        return byte;
    }
    b'?'
}

/// Returns the text cut to the greatest length of a hint, with each byte that is not visible replaced by `?`.
pub(crate) fn fitted(alloc: Global, said: &[u8]) -> Result<Vec<u8>, AllocError>
    ensures { IfOk result (λ words. AreWords words.items) }
{
    let mut words = Vec::new(alloc);
    for byte in &said[..said.len().min(MOST_WORDS)] {
        words.push(seen_byte(*byte))?;
    }
    Ok(words)
}
