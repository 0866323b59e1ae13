//! The text of a label. Most labels are short, and labels are often compared for equality.
ghost use Rattle.std.specs.Prelude.{◌≡◌, ◌≤◌, List, ℕ, All, IfOk, IsOk, Some, length};
ghost use Rattle.std.specs.Hash as fed;
ghost use Rattle.std.specs.Cmp;
ghost use Rattle.std.specs.Cmp.Lexicographic.{pointwise, slice_cmp, nat_list_eq_equiv, nat_list_cmp_total, texts_ties, texts_po};
ghost use Rattle.std.specs.Ordering.{nat_cmp};
ghost use Rattle.std.proofs.Common.{◌==◌, refl, rules};
ghost use Rattle.std.specs.Cmp.Rules.{hashing};
ghost use Rattle.drf_role.specs.LabelText.{IsByte, IsNumbered, bytes_of, number_of};

use arrayvec::ArrayString;
use std::alloc::{AllocError, Global};
use std::cmp::Ordering;
use std::hash::{Hash, Hasher};
use std::marker::Model;
use std::sync::Arc;

/// The greatest length, in bytes, of a text that has a number.
const MAX_NUMBERED_LEN: usize = 7;

/// The bytes of a text. At most 8 bytes are stored here and need no memory; a longer text is shared by its copies.
#[derive(Drop)]
enum LabelBytes {
    Here(ArrayString<8>),
    Shared(Arc<String>),
}

impl LabelBytes {
    /// Returns a copy of the text. Fails with `AllocError` if memory runs out, and never for at most 8 bytes.
    fn from_text(alloc: Global, text: &str) -> Result<LabelBytes, AllocError>
        ensures bytes { IfOk result (λ bytes. bytes_of bytes ≡ text.now) }
        ensures here { length text.now ≤ 8 → IsOk result }
    {
        match ArrayString::from(text) {
            Ok(here) => Ok(LabelBytes::Here(here)),
            Err(_) => Ok(LabelBytes::Shared(Arc::new(alloc, String::from_str(alloc, text)?)?)),
        }
    }

    /// Returns the text.
    fn text(&self) -> &str
        ensures { result.now ≡ bytes_of self.now }
    {
        match self {
            LabelBytes::Here(text) => text.as_str(),
            LabelBytes::Shared(text) => text.as_str(),
        }
    }

    /// Returns an equal text.
    fn copy(&self) -> Result<LabelBytes, AllocError>
        ensures { IfOk result (λ bytes. bytes_of bytes ≡ bytes_of self.now) }
    {
        match self {
            LabelBytes::Here(text) => Ok(LabelBytes::Here(*text)),
            LabelBytes::Shared(text) => Ok(LabelBytes::Shared(Arc::try_clone(text)?)),
        }
    }
}

/// Returns the number with these bytes as digits in base 256, and their count as a last digit in base 8.
fn number_of(bytes: &[u8]) -> u64
    requires { length bytes.now ≤ 7 }
    ensures number { result ≡ number_of bytes.now }
    ensures bytes { All IsByte bytes.now }
{
    let mut number = 0;
    for byte in bytes {
        number = number * 256 + u64::from(*byte);
    }
    number * 8 + bytes.len() as u64
}

/// Returns a number that identifies a text of 1 to 7 bytes, and 0 for any other text.
fn text_number(text: &str) -> u64
    ensures { IsNumbered text.now result }
{
    let bytes = text.as_bytes();
    if bytes.len() > MAX_NUMBERED_LEN {
        return 0;
    }
    number_of(bytes)
}

/// A text with its number.
pub struct LabelText {
    bytes: LabelBytes,
    number: u64,
}

impl Model for LabelText {
    ghost use Rattle.std.specs.Prelude.{List, ℕ};
    ghost use Rattle.drf_role.specs.LabelText.{IsNumbered, bytes_of};

    ghost Value = { List ℕ };

    ghost view = { λ t. bytes_of t.bytes };

    ghost invariant = { λ t. IsNumbered (bytes_of t.bytes) t.number };
}

// Written out, so that a caller's proof about dropping a text deals with one call, and not with its two forms.
impl Drop for LabelText {
    fn drop(self) {
        let LabelText {
            bytes: _bytes,
            number: _number,
        } = self;
    }
}

impl LabelText {
    /// Returns a copy of the text. Fails with `AllocError` if memory runs out, and never for at most 8 bytes.
    pub fn from_text(alloc: Global, text: &str) -> Result<LabelText, AllocError>
        ensures text { IfOk result (λ label. label ≡ text.now) }
        ensures here { length text.now ≤ 8 → IsOk result }
    {
        Ok(LabelText {
            bytes: LabelBytes::from_text(alloc, text)?,
            number: text_number(text),
        })
    }

    /// Returns the text.
    pub fn text(&self) -> &str
        ensures { result.now ≡ self.now }
    {
        self.bytes.text()
    }

    /// Returns an equal text. It allocates nothing, and fails only if a long text would have 2^63 owners.
    pub fn copy(&self) -> Result<LabelText, AllocError>
        ensures { IfOk result (λ label. label ≡ self.now) }
    {
        Ok(LabelText {
            bytes: self.bytes.copy()?,
            number: self.number,
        })
    }
}

impl PartialEq for LabelText {
    ghost eq = { pointwise ◌==◌ };

    ghost laws = { Cmp.partial_equiv_from_equiv nat_list_eq_equiv };

    fn eq(&self, other: &LabelText) -> bool {
        if self.number != other.number {
            return false;
        }
        self.number != 0 || self.text() == other.text()
    }
}

impl Eq for LabelText {
    ghost laws = { nat_list_eq_equiv };
}

impl PartialOrd for LabelText {
    ghost partial_cmp = { λ a b. Some (slice_cmp nat_cmp a b) };

    ghost laws = { texts_po };

    fn partial_cmp(&self, other: &LabelText) -> Option<Ordering> {
        Some(self.cmp(other))
    }
}

impl Ord for LabelText {
    ghost cmp = { slice_cmp nat_cmp };

    ghost total = { nat_list_cmp_total };

    ghost matches_partial_cmp = { λ a b. refl };

    ghost matches_eq = { texts_ties };

    fn cmp(&self, other: &LabelText) -> Ordering {
        self.text().cmp(other.text())
    }
}

impl Hash for LabelText {
    ghost hash_input = { fed.str };

    ghost respects_eq = { Prim.search (hashing, rules) };

    fn hash<H: Hasher>(&self, state: &mut H) {
        self.text().hash(state);
    }
}
