//! Names of agents, frameworks and tasks, and labels of resources.
ghost use Rattle.std.specs.Prelude.{◌≡◌, ◌↔◌, ◌≤◌, List, ℕ, IfOk, IsOk, OnOk, IsTrue, IsErrOf, length};
ghost use Rattle.drf_role.specs.Name.{IsNameByte, IsLabelByte, IsName, IsLabel};

use crate::label_text::LabelText;
use crate::word::Word;
use std::alloc::{AllocError, Global};
use std::marker::Model;
use thiserror::Error;

/// The greatest length of a name or a label, in bytes.
pub(crate) const MAX_NAME_LEN: usize = 64;

/// Why a text is not read as a name or a label.
#[derive(Clone, Copy, Debug, PartialEq, Eq, Error)]
pub enum NameFault {
    /// The text is not a name, or not a label.
    #[error("not a name")]
    BadName,
    #[error("out of memory")]
    Memory,
}

/// Returns whether a name can have this byte.
fn is_name_byte(byte: u8) -> bool
    ensures { IsTrue result ↔ IsNameByte byte }
{
    byte.is_ascii_alphanumeric() || byte == b'_' || byte == b'-' || byte == b'.'
}

/// Returns whether a label can have this byte.
fn is_label_byte(byte: u8) -> bool
    ensures { IsTrue result ↔ IsLabelByte byte }
{
    is_name_byte(byte) || byte == b'/'
}

/// Returns whether the text is a valid name.
fn is_name(text: &str) -> bool
    ensures { IsTrue result ↔ IsName text.now }
{
    let bytes = text.as_bytes();
    !bytes.is_empty() && bytes.len() <= MAX_NAME_LEN && bytes.iter().all(|b| is_name_byte(*b))
}

/// Returns whether the text is a valid label.
fn is_label(text: &str) -> bool
    ensures { IsTrue result ↔ IsLabel text.now }
{
    let bytes = text.as_bytes();
    !bytes.is_empty() && bytes.len() <= MAX_NAME_LEN && bytes.iter().all(|b| is_label_byte(*b))
}

/// The name of an agent, a framework or a task: 1 to 64 letters, digits, `_`, `-` or `.`.
#[derive(PartialEq, Eq, PartialOrd, Ord, Hash)]
pub struct Name {
    word: Word,
}

impl Model for Name {
    ghost Value = { List ℕ };

    ghost view = { λ n. n.word };

    ghost invariant = { λ n. IsName n.word };

    ghost inverse = { λ bytes. record { word = bytes } };
}

// Written out, so that a caller's proof about dropping a name deals with one call.
impl Drop for Name {
    fn drop(self) {
        let Name { word: _word } = self;
    }
}

impl Name {
    /// Reads a name. Fails with `BadName` if the text is not a name, and with `Memory` if memory runs out. A text that
    /// is not a name needs no memory.
    pub fn read(alloc: Global, text: &str) -> Result<Name, NameFault>
        ensures ok { IfOk result (λ name. name ≡ text.now) }
        ensures right { OnOk result (IsName text.now) }
        ensures bad { IsErrOf result NameFault.BadName ↔ ¬ IsName text.now }
        ensures memory { IsErrOf result NameFault.Memory → IsName text.now }
    {
        if !is_name(text) {
            return Err(NameFault::BadName);
        }
        match Word::from_text(alloc, text) {
            Ok(word) => Ok(Name { word }),
            Err(_) => Err(NameFault::Memory),
        }
    }

    /// Returns the text of the name.
    pub fn text(&self) -> &str
        ensures text { result.now ≡ self.now }
        ensures right { IsName self.now }
    {
        self.word.text()
    }

    /// Proves that the name is valid. It does nothing.
    pub fn recall(&self)
        ensures { IsName self.now }
    {
        let _ = self.text();
    }

    /// Returns an equal name.
    pub fn copy(&self) -> Result<Name, AllocError>
        ensures { IfOk result (λ name. name ≡ self.now) }
    {
        Ok(Name {
            word: self.word.copy()?,
        })
    }
}

/// The name of a resource or of a member of a set: 1 to 64 letters, digits, `_`, `-`, `.` or `/`.
#[derive(PartialEq, Eq, PartialOrd, Ord, Hash)]
pub struct Label {
    text: LabelText,
}

impl Model for Label {
    ghost Value = { List ℕ };

    ghost view = { λ l. l.text };

    ghost invariant = { λ l. IsLabel l.text };

    ghost inverse = { λ bytes. record { text = bytes } };
}

// Written out, so that a caller's proof about dropping a label deals with one call.
impl Drop for Label {
    fn drop(self) {
        let Label { text: _text } = self;
    }
}

impl Label {
    /// Reads a label. Fails with `BadName` if the text is not a label, and with `Memory` if memory runs out. Only a
    /// label of more than 8 bytes needs memory.
    pub fn read(alloc: Global, text: &str) -> Result<Label, NameFault>
        ensures ok { IfOk result (λ label. label ≡ text.now) }
        ensures right { OnOk result (IsLabel text.now) }
        ensures bad { IsErrOf result NameFault.BadName ↔ ¬ IsLabel text.now }
        ensures memory { IsErrOf result NameFault.Memory → IsLabel text.now }
        ensures here { IsLabel text.now → length text.now ≤ 8 → IsOk result }
    {
        if !is_label(text) {
            return Err(NameFault::BadName);
        }
        match LabelText::from_text(alloc, text) {
            Ok(text) => Ok(Label { text }),
            Err(_) => Err(NameFault::Memory),
        }
    }

    /// Returns the text of the label.
    pub fn text(&self) -> &str
        ensures text { result.now ≡ self.now }
        ensures right { IsLabel self.now }
    {
        self.text.text()
    }

    /// Proves that the label is valid. It does nothing.
    pub fn recall(&self)
        ensures { IsLabel self.now }
    {
        let _ = self.text();
    }

    /// Returns an equal label.
    pub fn copy(&self) -> Result<Label, AllocError>
        ensures { IfOk result (λ label. label ≡ self.now) }
    {
        Ok(Label {
            text: self.text.copy()?,
        })
    }
}
