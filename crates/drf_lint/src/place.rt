//! Positions of keys and values in a line that is JSON. If it is not JSON, nothing is found.

use json::{Reader, Scratch, Token};
use std::alloc::{AllocError, Global};

/// The greatest depth to which the arrays and objects of a line can nest.
pub(crate) const MOST_DEPTH: usize = 127;

/// The position of a member of an object: the bytes of the line, from 0, at which its key and its value begin.
#[derive(Clone, Copy)]
pub(crate) struct Spot {
    pub key: usize,
    pub value: usize,
}

/// Returns the rest of the line from a position. Returns `None` if the position is not in the line or is within a character.
fn text_from(line: &str, place: usize) -> Option<&str> {
    std::str::from_utf8(line.as_bytes().get(place..)?).ok()
}

/// Returns the position of the last member with this key, in the object that the reader has just opened.
fn last_member(reader: &mut Reader<'_>, most: usize, key: &str) -> Option<Spot> {
    let mut found = None;
    for _turn in 0..most {
        let at = reader.offset();
        let Ok(Some(name)) = reader.next_key() else {
            return found;
        };
        let value = reader.offset();
        if name == key {
            found = Some(Spot { key: at, value });
        }
        if reader.skip_value(MOST_DEPTH).is_err() {
            return found;
        }
    }
    found
}

/// Returns the position of the last member with this key, in the object that begins at `place`.
pub(crate) fn member_at(
    alloc: Global,
    line: &str,
    place: usize,
    key: &str,
) -> Result<Option<Spot>, AllocError> {
    let Some(text) = text_from(line, place) else {
        return Ok(None);
    };
    let mut scratch = Scratch::new(alloc);
    let mut reader = Reader::new(text, &mut scratch)?;
    let Some(Token::BeginObject) = reader.next() else {
        return Ok(None);
    };
    let found = last_member(&mut reader, text.len(), key);
    Ok(found.map(|spot| Spot {
        key: spot.key.saturating_add(place),
        value: spot.value.saturating_add(place),
    }))
}

/// Returns the position of an item, counted from 0, in the array that begins at `place`. Returns `place` if an item before it cannot be read.
pub(crate) fn item_at(
    alloc: Global,
    line: &str,
    place: usize,
    item: usize,
) -> Result<usize, AllocError> {
    let Some(text) = text_from(line, place) else {
        return Ok(place);
    };
    let mut scratch = Scratch::new(alloc);
    let mut reader = Reader::new(text, &mut scratch)?;
    let _ = reader.next();
    for _turn in 0..item {
        if reader.skip_value(MOST_DEPTH).is_err() {
            return Ok(place);
        }
    }
    Ok(place.saturating_add(reader.offset()))
}

/// Returns the position of the value of a key in the object that begins at `place`, or `place` if it has no such key.
pub(crate) fn value_at(
    alloc: Global,
    line: &str,
    place: usize,
    key: &str,
) -> Result<usize, AllocError> {
    match member_at(alloc, line, place, key)? {
        Some(spot) => Ok(spot.value),
        None => Ok(place),
    }
}

/// Returns the position in the line of a byte of a text, whose string begins at `place`. If an escape comes before that byte, returns `place`.
pub(crate) fn text_at(line: &str, place: usize, text: &str, byte: usize) -> usize {
    let begin = place.saturating_add(1);
    let Some(behind) = line.as_bytes().get(begin..) else {
        return place;
    };
    match text.as_bytes().get(..byte) {
        Some(prefix) => {
            if behind.starts_with(prefix) {
                return begin.saturating_add(byte);
            }
            place
        }
        None => place,
    }
}
