//! Texts whose parts are joined by `/`: roles and the paths of nodes.
ghost use Rattle.std.specs.Prelude.{◌≡◌, ◌<◌, ◌≤◌, ◌↔◌, ◌==◌, [], ◌∷◌, List, ℕ, IfOk, IsTrue, Some, codes, length, slice_get, slice_index_or, take};
ghost use Rattle.std.specs.String.{string_bytes};
ghost use Rattle.std.specs.Str.{IsAscii};
ghost use Rattle.drf_role.specs.Parts.{parts_of, text_of, BeginsWith, GoesOn};
ghost use Rattle.drf_role.specs.Spans.{spans_from, text_in, spans_in};
ghost use Rattle.std.specs.Hash as fed;
ghost use Rattle.std.specs.Hash.{same_Alike};
ghost use Rattle.std.specs.Cmp;
ghost use Rattle.std.specs.Cmp.Lexicographic.{pointwise, slice_cmp, lists_equiv, lists_total, lists_ties, nat_list_eq_equiv, nat_list_cmp_total, texts_ties, bytes_decides, pointwise_decides};
ghost use Rattle.std.specs.Cmp.{partial_order_from_agreeing_total};
ghost use Rattle.std.specs.Ordering.{nat_cmp};
ghost use Rattle.std.proofs.Common.{refl};

use crate::parts::Parts;
use smallvec::SmallVec;
use std::alloc::{AllocError, Global};
use std::cmp::Ordering;
use std::hash::{Hash, Hasher};
use std::marker::Model;
use std::sync::Arc;

/// The text that needs no memory.
const STAR: &str = "*";

/// For how many parts the places are stored beside the text; those of more parts need their own memory.
const NEAR_SPANS: usize = 4;

/// Where a part begins and ends in the text.
#[derive(Clone, Copy, Default)]
struct Span {
    start: usize,
    end: usize,
}

/// Returns whether `text` is equal to `prefix`, or continues it with `/`.
fn goes_on(text: &[u8], prefix: &[u8]) -> bool
    ensures { IsTrue result ↔ GoesOn text.now prefix.now }
{
    // Most texts differ in this, so nothing else is compared.
    if text.len() > prefix.len() && text[prefix.len()] != b'/' {
        return false;
    }
    text.starts_with(prefix)
}

/// An ASCII text with the places of its parts.
#[derive(Drop)]
struct Cut {
    text: String,
    spans: SmallVec<Span, NEAR_SPANS>,
}

/// The stored text: `*`, the text of most roles, needs no memory; any other text is shared by its copies.
#[derive(Drop)]
enum Kept {
    Star,
    Shared(Arc<Cut>),
}

impl Kept {
    /// Returns the text.
    fn text(&self) -> &str
        ensures { result.now ≡ text_in self.now }
    {
        match self {
            Kept::Star => STAR,
            Kept::Shared(cut) => cut.text.as_str(),
        }
    }

    /// Returns the number of parts.
    fn len(&self) -> usize
        ensures { result ≡ length (spans_in self.now) }
    {
        match self {
            Kept::Star => 1,
            Kept::Shared(cut) => cut.spans.len(),
        }
    }

    /// Returns the place of a part in the text.
    fn span(&self, i: usize) -> Span
        requires { i < length (spans_in self.now) }
        ensures { result ≡ slice_index_or (spans_in self.now) i result }
    {
        match self {
            Kept::Star => Span {
                start: 0,
                end: STAR.len(),
            },
            Kept::Shared(cut) => cut.spans[i],
        }
    }

    /// Returns a copy that shares the text. It allocates nothing, and fails only if there would be 2^63 owners.
    fn copy(&self) -> Result<Kept, AllocError>
        ensures text { IfOk result (λ kept. text_in kept ≡ text_in self.now) }
        ensures spans { IfOk result (λ kept. spans_in kept ≡ spans_in self.now) }
    {
        match self {
            Kept::Star => Ok(Kept::Star),
            Kept::Shared(cut) => Ok(Kept::Shared(Arc::try_clone(cut)?)),
        }
    }
}

/// A text in parts. Contracts see the list of its parts.
pub struct Joined {
    kept: Kept,
    alloc: Global,
}

impl Model for Joined {
    ghost use Rattle.std.specs.Prelude.{List, ℕ};

    ghost Value = { List (List ℕ) };

    ghost use Rattle.drf_role.specs.Parts.{parts_of};
    ghost use Rattle.drf_role.specs.Spans.{IsCut, text_in, spans_in};

    ghost view = { λ p. parts_of (text_in p.kept) };

    ghost invariant = { λ p. IsCut (text_in p.kept) (spans_in p.kept) };
}

// Written out, so that a caller's proof about dropping a text deals with one call, and not with its two forms.
impl Drop for Joined {
    fn drop(self) {
        let Joined {
            kept: _kept,
            alloc: _alloc,
        } = self;
    }
}

impl Joined {
    /// Returns the places of the parts of a text.
    fn spans(alloc: Global, text: &str) -> Result<SmallVec<Span, NEAR_SPANS>, AllocError>
        ensures { IfOk result (λ spans. spans.items ≡ spans_from 0 (parts_of text.now)) }
    {
        let mut spans = SmallVec::new(alloc);
        let mut start = 0;
        for (i, byte) in text.as_bytes().iter().enumerate() {
            if *byte == b'/' {
                spans.push(Span { start, end: i })?;
                start = i + 1;
            }
        }
        spans.push(Span {
            start,
            end: text.len(),
        })?;
        Ok(spans)
    }

    /// Returns the text, cut at each `/`. Fails with `AllocError` if memory runs out.
    pub fn cut(alloc: Global, text: String) -> Result<Joined, AllocError>
        requires { IsAscii (string_bytes text) }
        ensures { IfOk result (λ parts. parts ≡ parts_of (string_bytes text)) }
    {
        let spans = Joined::spans(alloc, text.as_str())?;
        Ok(Joined {
            kept: Kept::Shared(Arc::new(alloc, Cut { text, spans })?),
            alloc,
        })
    }

    /// Returns the text `*`.
    pub fn star(alloc: Global) -> Joined
        ensures { result ≡ codes "*" ∷ [] }
    {
        Joined {
            kept: Kept::Star,
            alloc,
        }
    }

    /// Returns a copy of the text, cut at each `/`. Fails with `AllocError` if memory runs out.
    pub fn from_text(alloc: Global, text: &str) -> Result<Joined, AllocError>
        requires { IsAscii text.now }
        ensures { IfOk result (λ parts. parts ≡ parts_of text.now) }
    {
        if text == STAR {
            return Ok(Joined::star(alloc));
        }
        Joined::cut(alloc, String::from_str(alloc, text)?)
    }

    /// Returns the allocator of the text.
    pub fn alloc(&self) -> Global {
        self.alloc
    }

    /// Returns whether the text is stored without memory. Only `*` is.
    pub fn needs_no_memory(&self) -> bool
        ensures { IsTrue result → self.now ≡ codes "*" ∷ [] }
    {
        matches!(self.kept, Kept::Star)
    }

    /// Returns the text.
    pub fn text(&self) -> &str
        ensures text { result.now ≡ text_of self.now }
        ensures parts { parts_of result.now ≡ self.now }
        ensures ascii { IsAscii result.now }
    {
        self.kept.text()
    }

    /// Returns the number of parts.
    pub fn len(&self) -> usize
        ensures { result ≡ length self.now }
    {
        self.kept.len()
    }

    /// Returns the place of a part in the text.
    fn span(&self, i: usize) -> Span
        requires { i < length self.now }
        ensures { result ≡ slice_index_or (spans_from 0 self.now) i result }
    {
        self.kept.span(i)
    }

    /// Returns the part at an index.
    pub fn part(&self, i: usize) -> &str
        requires { i < length self.now }
        ensures { slice_get self.now i ≡ Some result.now }
    {
        let span = self.span(i);
        &self.text()[span.start..span.end]
    }

    /// Returns an iterator over the parts.
    pub fn parts(&self) -> Parts<'_>
        ensures { result ≡ self.now }
    {
        Parts::new(self)
    }

    /// Returns the prefix of `len` parts. If these are all parts, nothing is allocated.
    pub fn prefix(&self, len: usize) -> Result<Joined, AllocError>
        requires some { 1 ≤ len }
        requires within { len ≤ length self.now }
        ensures { IfOk result (λ prefix. prefix ≡ take len self.now) }
    {
        if len == self.len() {
            return self.copy();
        }
        let end = self.span(len - 1).end;
        Joined::from_text(self.alloc, &self.text()[..end])
    }

    /// Returns a copy that shares the text. It allocates nothing, and fails only if there would be 2^63 owners.
    pub fn copy(&self) -> Result<Joined, AllocError>
        ensures { IfOk result (λ parts. parts ≡ self.now) }
    {
        Ok(Joined {
            kept: self.kept.copy()?,
            alloc: self.alloc,
        })
    }

    /// Returns whether the parts of `prefix` are a prefix of these.
    pub fn begins_with(&self, prefix: &Joined) -> bool
        ensures { IsTrue result ↔ BeginsWith self.now prefix.now }
    {
        goes_on(self.text().as_bytes(), prefix.text().as_bytes())
    }
}

impl PartialEq for Joined {
    ghost eq = { pointwise (pointwise ◌==◌) };

    ghost laws = { Cmp.partial_equiv_from_equiv (lists_equiv nat_list_eq_equiv) };

    fn eq(&self, other: &Joined) -> bool {
        self.text() == other.text()
    }
}

impl Eq for Joined {
    ghost laws = { lists_equiv nat_list_eq_equiv };
}

impl Hash for Joined {
    ghost hash_input = { λ parts. fed.str (text_of parts) };

    ghost respects_eq = { (same_Alike (λ parts. fed.str (text_of parts)) (pointwise_decides bytes_decides)).fed };

    fn hash<H: Hasher>(&self, state: &mut H) {
        self.text().hash(state);
    }
}

impl PartialOrd for Joined {
    ghost partial_cmp = { λ a b. Some (slice_cmp (slice_cmp nat_cmp) a b) };

    ghost laws = { partial_order_from_agreeing_total (slice_cmp (slice_cmp nat_cmp)) (lists_total nat_list_cmp_total) (λ a b. refl) (lists_ties (slice_cmp nat_cmp) texts_ties) };

    fn partial_cmp(&self, other: &Joined) -> Option<Ordering> {
        Some(self.cmp(other))
    }
}

impl Ord for Joined {
    ghost cmp = { slice_cmp (slice_cmp nat_cmp) };

    ghost total = { lists_total nat_list_cmp_total };

    ghost matches_partial_cmp = { λ a b. refl };

    ghost matches_eq = { lists_ties (slice_cmp nat_cmp) texts_ties };

    /// Paths are compared part by part, each part by its bytes; a prefix comes before longer paths.
    fn cmp(&self, other: &Joined) -> Ordering {
        let shared = self.len().min(other.len());
        for i in 0..shared {
            let part = self.part(i);
            let its = other.part(i);
            if part != its {
                return part.cmp(its);
            }
        }
        self.len().cmp(&other.len())
    }
}
