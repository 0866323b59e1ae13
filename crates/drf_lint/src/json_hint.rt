//! Hints for lines that are not JSON: where a line stops being JSON, and what could be there.

use crate::place::MOST_DEPTH;
use crate::words::{Hint, plain_hint, say, show};
use json::{Reader, Scratch, Token, Value};
use std::alloc::{AllocError, Global};

/// What the JSON reader is in, and what it expects next.
#[derive(Clone, Copy, PartialEq, Eq)]
enum Within {
    /// Before the value of the line.
    Start,
    /// After the value of the line.
    End,
    /// In an array.
    Array,
    /// In an object, before a key.
    Object,
    /// In an object, after a key.
    Key,
}

/// Why a line is not JSON at a position.
#[derive(Clone, Copy, PartialEq, Eq)]
enum Stop {
    /// The line ends there, or the token there is not one that is expected.
    Unfit(Within),
    /// There is no JSON token, or a comma is missing before it.
    Bad(Within),
    /// A `:` comes after a text that is not a key.
    Colon,
    /// A text is where a key is expected, but no `:` comes after it.
    NoColon,
    /// An array or object is nested too deeply.
    Deep,
    /// A number is out of the range of a double.
    Large,
}

/// The arrays and objects that are open, the outermost first, and what is expected next.
#[derive(Drop)]
struct Nest {
    open: Vec<Within>,
    within: Within,
}

impl Nest {
    /// Continues in the enclosing array or object, after a value has ended.
    fn go_on(&mut self) {
        self.within = match self.open.last() {
            Some(outer) => *outer,
            None => Within::End,
        };
    }

    /// Opens an array or an object. Returns `Stop::Deep` if it is nested too deeply.
    fn begin(&mut self, kind: Within) -> Result<Option<Stop>, AllocError> {
        if self.open.len() >= MOST_DEPTH {
            return Ok(Some(Stop::Deep));
        }
        self.open.push(kind)?;
        self.within = kind;
        Ok(None)
    }

    /// Returns whether a value is allowed next.
    fn wants_value(&self) -> bool {
        matches!(self.within, Within::Start | Within::Array | Within::Key)
    }

    /// Closes an array or an object. Returns why it cannot end here, if the innermost open one is of the other kind or lacks a value.
    fn end(&mut self, kind: Within) -> Option<Stop> {
        if self.within != kind {
            return Some(Stop::Unfit(self.within));
        }
        let _ = self.open.pop();
        self.go_on();
        None
    }

    /// Reads a value of one token. Returns a reason if no value is allowed here.
    fn pass(&mut self) -> Option<Stop> {
        if !self.wants_value() {
            return Some(Stop::Unfit(self.within));
        }
        self.go_on();
        None
    }

    /// Reads a text that is not a key. Returns a reason if no such text is allowed here.
    fn pass_text(&mut self) -> Option<Stop> {
        if let Within::Object = self.within {
            return Some(Stop::NoColon);
        }
        self.pass()
    }

    /// Reads a key. Returns a reason if no key is allowed here.
    fn pass_key(&mut self) -> Option<Stop> {
        match self.within {
            Within::Object => {
                self.within = Within::Key;
                None
            }
            Within::Key | Within::Array => Some(Stop::Colon),
            other => Some(Stop::Unfit(other)),
        }
    }

    /// Reads a token. Returns a reason if it is not allowed here, and an error if memory runs out.
    fn take(&mut self, token: Token<'_>) -> Result<Option<Stop>, AllocError> {
        match token {
            Token::BeginObject | Token::BeginArray if !self.wants_value() => {
                Ok(Some(Stop::Unfit(self.within)))
            }
            Token::BeginObject => self.begin(Within::Object),
            Token::BeginArray => self.begin(Within::Array),
            Token::EndObject => Ok(self.end(Within::Object)),
            Token::EndArray => Ok(self.end(Within::Array)),
            Token::Key(_) => Ok(self.pass_key()),
            Token::String(_) => Ok(self.pass_text()),
            Token::Number(text) if is_large(text) => Ok(Some(Stop::Large)),
            Token::Number(_) | Token::Bool(_) | Token::Null => Ok(self.pass()),
            Token::Bad => Ok(Some(Stop::Bad(self.within))),
        }
    }
}

/// Returns whether a number is out of the range of a double.
fn is_large(text: &str) -> bool {
    let number: Value<'_> = Value::Number(text);
    match number.as_f64() {
        Some(double) => !double.is_finite(),
        None => false,
    }
}

/// Returns the position at which a text stops being JSON, and the reason.
fn stop_in(alloc: Global, text: &str) -> Result<(usize, Stop), AllocError> {
    let mut nest = Nest {
        open: Vec::new(alloc),
        within: Within::Start,
    };
    let mut scratch = Scratch::new(alloc);
    let mut reader = Reader::new(text, &mut scratch)?;
    for _turn in 0..text.len() {
        let place = reader.offset();
        let Some(token) = reader.next() else {
            break;
        };
        if let Some(stop) = nest.take(token)? {
            return Ok((place, stop));
        }
    }
    Ok((text.len(), Stop::Unfit(nest.within)))
}

/// Returns the last byte before a position that is not a space, a tab or a carriage return.
fn byte_before(bytes: &[u8], place: usize) -> Option<u8> {
    let prefix = bytes.get(..place)?;
    prefix
        .iter()
        .rev()
        .find(|b| !matches!(**b, b' ' | b'\t' | b'\r'))
        .copied()
}

/// Returns the message that says what is expected, given the last byte before the position.
fn expected(within: Within, before: Option<u8>) -> &'static str {
    match (within, before) {
        (Within::Start, _) => "expected an event, which is a JSON object",
        (Within::End, _) => "unexpected text after the object",
        (Within::Key, _) => "expected a value",
        (Within::Array, Some(b'[')) => "expected a value or ]",
        (Within::Array, Some(b',')) => "expected a value",
        (Within::Array, _) => "expected , or ]",
        (Within::Object, Some(b'{')) => "expected a key or }",
        (Within::Object, Some(b',')) => "expected a key",
        (Within::Object, _) => "expected , or }",
    }
}

/// Returns whether the byte ends the part of the line that is shown.
fn ends_piece(byte: u8) -> bool {
    matches!(
        byte,
        b' ' | b'\t' | b'\r' | b',' | b':' | b'{' | b'}' | b'[' | b']' | b'"'
    )
}

/// Returns the length of the part to show, if it does not begin with a quote.
fn piece_length(piece: &[u8]) -> usize {
    let behind = piece.get(1..).unwrap_or(&[]);
    behind
        .iter()
        .position(|b| ends_piece(*b))
        .map_or(piece.len(), |end| end.saturating_add(1))
}

/// Returns the length of a string up to the next quote, including both quotes.
fn string_length(piece: &[u8]) -> usize {
    let behind = piece.get(1..).unwrap_or(&[]);
    behind
        .iter()
        .position(|b| *b == b'"')
        .map_or(piece.len(), |end| end.saturating_add(2))
}

/// Returns the part of the line to show at a position: a string, or the bytes up to the next separator.
fn piece_at(bytes: &[u8], place: usize) -> &[u8] {
    let rest = bytes.get(place..).unwrap_or(&[]);
    let length = if rest.starts_with(b"\"") {
        string_length(rest)
    } else {
        piece_length(rest)
    };
    rest.get(..length).unwrap_or(rest)
}

/// Returns whether the bytes after a `\` make it a valid escape.
fn is_escape(behind: &[u8]) -> bool {
    match behind.first() {
        Some(b'u') => match behind.get(1..5) {
            Some(digits) => digits.iter().all(|b| b.is_ascii_hexdigit()),
            None => false,
        },
        Some(byte) => matches!(
            *byte,
            b'"' | b'\\' | b'/' | b'b' | b'f' | b'n' | b'r' | b't'
        ),
        None => false,
    }
}

/// Returns whether a text is allowed after this byte, which is the last one that is not blank.
fn may_follow(before: Option<u8>) -> bool {
    matches!(before, None | Some(b':' | b',' | b'[' | b'{'))
}

/// Why a string is not valid, and the part of the line to show.
#[derive(Clone, Copy)]
struct StringStop {
    place: usize,
    length: usize,
    why: &'static str,
}

/// Returns what is wrong with the string that begins at a position.
fn string_stop(bytes: &[u8], place: usize) -> StringStop {
    let mut at = place.saturating_add(1);
    for _turn in 0..bytes.len() {
        let Some(byte) = bytes.get(at) else {
            return StringStop {
                place,
                length: bytes.len(),
                why: "this text has no closing \"",
            };
        };
        match *byte {
            0..32 => {
                return StringStop {
                    place: at,
                    length: 1,
                    why: "a control byte in a text must be escaped, such as \\u0009",
                };
            }
            b'"' => break,
            b'\\' if !is_escape(bytes.get(at.saturating_add(1)..).unwrap_or(&[])) => {
                return StringStop {
                    place: at,
                    length: 2,
                    why: "not a JSON escape",
                };
            }
            b'\\' => at = at.saturating_add(2),
            _ => at = at.saturating_add(1),
        }
    }
    StringStop {
        place,
        length: string_length(bytes.get(place..).unwrap_or(&[])),
        why: "this text has a \\u that is half a character",
    }
}

/// Returns a hint that shows the part at a position, or says that the line ends there, and then says what is expected.
fn hint_at(alloc: Global, piece: &[u8], place: usize, expected: &str) -> Result<Hint, AllocError> {
    let mut words = Vec::new(alloc);
    if piece.is_empty() {
        say(&mut words, "the line ends here")?;
    } else {
        show(&mut words, piece)?;
    }
    say(&mut words, ": ")?;
    say(&mut words, expected)?;
    Ok(Hint { place, words })
}

/// Returns a hint for a position at which there is no JSON token.
fn bad_hint(alloc: Global, bytes: &[u8], place: usize, within: Within) -> Result<Hint, AllocError> {
    let before = byte_before(bytes, place);
    let rest = bytes.get(place..).unwrap_or(&[]);
    if rest.starts_with(b"\"") && may_follow(before) {
        let StringStop { place, length, why } = string_stop(bytes, place);
        let rest = bytes.get(place..).unwrap_or(&[]);
        return hint_at(alloc, rest.get(..length).unwrap_or(rest), place, why);
    }
    hint_at(
        alloc,
        piece_at(bytes, place),
        place,
        expected(within, before),
    )
}

/// Returns a hint for a line that is UTF-8 but not JSON.
fn text_hint(alloc: Global, line: &str) -> Result<Hint, AllocError> {
    let bytes = line.as_bytes();
    let (place, stop) = stop_in(alloc, line)?;
    match stop {
        Stop::Deep => plain_hint(alloc, place, "arrays and objects may nest 127 deep"),
        Stop::Large => hint_at(
            alloc,
            piece_at(bytes, place),
            place,
            "this number is out of the range of a double",
        ),
        Stop::NoColon => plain_hint(alloc, place, "expected : after this key"),
        Stop::Colon => plain_hint(
            alloc,
            place,
            "unexpected : after this text, which is not a key",
        ),
        Stop::Bad(within) => bad_hint(alloc, bytes, place, within),
        Stop::Unfit(within) => hint_at(
            alloc,
            piece_at(bytes, place),
            place,
            expected(within, byte_before(bytes, place)),
        ),
    }
}

/// Returns a hint for a line that is not JSON.
pub(crate) fn json_hint(alloc: Global, line: &[u8]) -> Result<Hint, AllocError> {
    match std::str::from_utf8(line) {
        Ok(text) => text_hint(alloc, text),
        Err(error) => {
            let place = error.valid_up_to();
            let rest = line.get(place..).unwrap_or(&[]);
            hint_at(alloc, rest.get(..1).unwrap_or(rest), place, "not UTF-8")
        }
    }
}
