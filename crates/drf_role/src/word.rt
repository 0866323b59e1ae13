//! A text that its copies share. Contracts see its bytes.
ghost use Rattle.std.specs.Prelude.{◌≡◌, ◌≤◌, List, ℕ, IfOk, Some, length};
ghost use Rattle.std.specs.Arc.{arc_value};
ghost use Rattle.std.specs.Hash as fed;
ghost use Rattle.std.specs.Cmp;
ghost use Rattle.std.specs.Cmp.Lexicographic.{pointwise, slice_cmp, nat_list_eq_equiv, nat_list_cmp_total, texts_ties, texts_po};
ghost use Rattle.std.specs.Ordering.{nat_cmp};
ghost use Rattle.std.proofs.Common.{◌==◌, refl, rules};
ghost use Rattle.std.specs.Cmp.Rules.{hashing};

use crate::name::MAX_NAME_LEN;
use arrayvec::ArrayString;
use std::alloc::{AllocError, Global};
use std::cmp::Ordering;
use std::hash::{Hash, Hasher};
use std::marker::Model;
use std::sync::Arc;

/// A text of at most `MAX_NAME_LEN` bytes.
pub struct Word {
    text: Arc<ArrayString<MAX_NAME_LEN>>,
}

impl Model for Word {
    ghost Value = { List ℕ };

    ghost view = { λ w. (arc_value w.text).bytes };
}

// Written out, so that a caller's proof about dropping a text deals with one call.
impl Drop for Word {
    fn drop(self) {
        let Word { text: _text } = self;
    }
}

impl Word {
    /// Returns a copy of the text. Fails with `AllocError` if memory runs out.
    pub fn from_text(alloc: Global, text: &str) -> Result<Word, AllocError>
        requires { length text.now ≤ 64 }
        ensures { IfOk result (λ word. word ≡ text.now) }
    {
        let mut word = ArrayString::new();
        word.push_str(text);
        Ok(Word {
            text: Arc::new(alloc, word)?,
        })
    }

    /// Returns the text.
    pub fn text(&self) -> &str
        ensures { result.now ≡ self.now }
    {
        self.text.as_str()
    }

    /// Returns a copy that shares the text. It allocates nothing, and fails only if there would be 2^63 owners.
    pub fn copy(&self) -> Result<Word, AllocError>
        ensures { IfOk result (λ word. word ≡ self.now) }
    {
        Ok(Word {
            text: Arc::try_clone(&self.text)?,
        })
    }
}

impl PartialEq for Word {
    ghost eq = { pointwise ◌==◌ };

    ghost laws = { Cmp.partial_equiv_from_equiv nat_list_eq_equiv };

    fn eq(&self, other: &Word) -> bool {
        self.text() == other.text()
    }
}

impl Eq for Word {
    ghost laws = { nat_list_eq_equiv };
}

impl PartialOrd for Word {
    ghost partial_cmp = { λ a b. Some (slice_cmp nat_cmp a b) };

    ghost laws = { texts_po };

    fn partial_cmp(&self, other: &Word) -> Option<Ordering> {
        Some(self.cmp(other))
    }
}

impl Ord for Word {
    ghost cmp = { slice_cmp nat_cmp };

    ghost total = { nat_list_cmp_total };

    ghost matches_partial_cmp = { λ a b. refl };

    ghost matches_eq = { texts_ties };

    fn cmp(&self, other: &Word) -> Ordering {
        self.text().cmp(other.text())
    }
}

impl Hash for Word {
    ghost hash_input = { fed.str };

    ghost respects_eq = { Prim.search (hashing, rules) };

    fn hash<H: Hasher>(&self, state: &mut H) {
        self.text().hash(state);
    }
}
