//! The reply line that a journal must have next.
ghost use Rattle.std.specs.Prelude.{◌≡◌, ℕ, ◌<◌, List, [], ◌∷◌, ◌++◌, length, true, false, IsTrue, ◌↔◌};
ghost use Rattle.drf_journal.specs.Checking.{HasCome};

use std::alloc::Global;
use std::marker::Model;

/// A reply line that is expected, and how many of its bytes have arrived. If the text is empty, no reply line is
/// expected.
#[derive(Drop)]
pub(crate) struct Due {
    text: Vec<u8>,
    come: usize,
}

impl Model for Due {
    ghost use Rattle.std.specs.Prelude.{◌≤◌, length};
    ghost use Rattle.drf_journal.specs.Checking.{DueLine, due_code};

    ghost Value = { DueLine };

    ghost coded = { due_code };

    ghost view = { λ d. record { text = d.text.items; come = d.come } };

    ghost invariant = { λ d. d.come ≤ length d.text.items };
}

impl Due {
    /// Creates the value for which no reply line is expected.
    pub(crate) fn none(alloc: Global) -> Due
        ensures { result ≡ record { text = []; come = 0 } }
    {
        Due {
            text: Vec::new(alloc),
            come: 0,
        }
    }

    /// Creates the expectation of this reply line.
    pub(crate) fn of(text: Vec<u8>) -> Due
        ensures { result ≡ record { text = text.items; come = 0 } }
    {
        Due { text, come: 0 }
    }

    /// Returns whether no reply line is expected.
    pub(crate) fn is_none(&self) -> bool
        ensures { IsTrue result ↔ (length self.now.text ≡ 0) }
    {
        self.text.is_empty()
    }

    /// Returns whether any byte of the reply line has arrived.
    pub(crate) fn has_begun(&self) -> bool
        ensures { IsTrue result ↔ (0 < self.now.come) }
    {
        self.come > 0
    }

    /// Takes the next bytes, and returns whether they are those of the expected line.
    pub(crate) fn takes(&mut self, bytes: &[u8]) -> bool
        ensures text { self.new.text ≡ self.old.text }
        ensures right { result ≡ true → (line : List ℕ) → HasCome self.old line → HasCome self.new (line ++ bytes.now) }
        ensures wrong { result ≡ false → (line : List ℕ) → HasCome self.old line
            → (more : List ℕ) → ¬ (self.old.text ≡ line ++ (bytes.now ++ more)) }
    {
        if !self.text[self.come..].starts_with(bytes) {
            return false;
        }
        self.come += bytes.len();
        true
    }

    /// Takes the last bytes of the current line, and returns whether the whole line is the expected one.
    pub(crate) fn ends(&mut self, end: &[u8]) -> bool
        ensures right { result ≡ true → (line : List ℕ) → HasCome self.old line → self.old.text ≡ line ++ (end.now ++ 10 ∷ []) }
        ensures wrong { result ≡ false → (line : List ℕ) → HasCome self.old line
            → ¬ (self.old.text ≡ line ++ (end.now ++ 10 ∷ [])) }
    {
        if !self.takes(end) {
            return false;
        }
        if !self.takes(b"\n") {
            return false;
        }
        self.come == self.text.len()
    }
}
