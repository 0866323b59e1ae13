//! Cuts a piece, `name:value` or `name(role):value`, into its parts. Nothing here allocates memory.
ghost use Rattle.std.specs.Prelude.{◌≡◌, ◌∷◌, ◌==◌};
ghost use Rattle.std.specs.List.{list_all, list_any, slice_split};
ghost use Rattle.drf_text.specs.Blanks.{is_blank, trimmed};
ghost use Rattle.drf_text.specs.Faults.{IsCutAs};
ghost use Rattle.drf_text.specs.Pieces.{has_one_dash, parts_between};
ghost use Rattle.drf_text.specs.Steps.{cut_in, plain_head_in, head_in, view_head, body_in, view_body};

use crate::fault::TextFault;
use crate::trim::trim;

/// The part of a piece before the `:`: the name, and the text of the role if there is one.
#[derive(Clone, Copy)]
pub struct Head<'a> {
    pub name: &'a str,
    pub role: Option<&'a str>,
}

/// The kind of a value.
#[derive(Clone, Copy)]
pub enum Kind {
    Scalar,
    Ranges,
    Items,
}

/// The part of a piece after the `:`. The text of a scalar is all of it; that of ranges or a set is what is between the
/// brackets.
#[derive(Clone, Copy)]
pub struct Body<'a> {
    pub kind: Kind,
    pub text: &'a str,
}

/// Returns whether the text has only spaces and tabs.
pub fn is_blank(text: &str) -> bool
    ensures { result ≡ list_all is_blank text.now }
{
    text.as_bytes().iter().all(|b| *b == b' ' || *b == b'\t')
}

/// Returns the trimmed parts before and after the first `:`. Fails with `Syntax` if there is no `:`.
#[tactic(auto, unfolding(crate::specs::Steps::cut_in))]
pub fn cut_piece(piece: &str) -> Result<(&str, &str), TextFault>
    ensures { IsCutAs (λ parts. (parts.0.now, parts.1.now)) result (cut_in piece.now) }
{
    match piece.split_once(':') {
        Some((head, body)) => Ok((trim(head), trim(body))),
        None => Err(TextFault::Syntax),
    }
}

fn has_byte(text: &str, byte: u8) -> bool
    ensures { result ≡ list_any (λ b. b == byte) text.now }
{
    text.as_bytes().iter().any(|b| *b == byte)
}

/// Cuts a head without `(`. Fails with `Syntax` if it has a `)`.
#[tactic(auto, unfolding(crate::specs::Steps::plain_head_in))]
fn cut_plain_head(head: &str) -> Result<Head<'_>, TextFault>
    ensures { IsCutAs view_head result (plain_head_in head.now) }
{
    if has_byte(head, b')') {
        return Err(TextFault::Syntax);
    }
    Ok(Head {
        name: trim(head),
        role: None,
    })
}

/// Cuts a head into the part before its first `(` and the part between it and the last byte. Fails with `Syntax` if
/// that byte is not `)`.
pub fn cut_head(head: &str) -> Result<Head<'_>, TextFault>
    ensures { IsCutAs view_head result (head_in head.now) }
{
    match head.split_once('(') {
        None => cut_plain_head(head),
        Some((name, rest)) => match rest.strip_suffix(')') {
            Some(role) => Ok(Head {
                name: trim(name),
                role: Some(trim(role)),
            }),
            None => Err(TextFault::Syntax),
        },
    }
}

fn has_one_dash(part: &str) -> bool
    ensures { result ≡ has_one_dash part.now }
{
    part.as_bytes().iter().filter(|b| **b == b'-').count() == 1
}

fn have_one_dash(text: &str) -> bool
    ensures { result ≡ list_all (λ part. has_one_dash (trimmed part)) (slice_split (λ b. b == 44) text.now) }
{
    text.split(',').all(|part| has_one_dash(trim(part)))
}

/// Returns whether the text is blank, or each part between commas has exactly one `-`.
fn are_ranges(text: &str) -> bool
    ensures { result ≡ list_all has_one_dash (parts_between text.now) }
{
    is_blank(text) || have_one_dash(text)
}

/// Cuts ranges whose `[` was removed. Fails with `Syntax` if there is no closing `]`, or a part does not have exactly
/// one `-`.
fn cut_ranges(rest: &str) -> Result<Body<'_>, TextFault>
    ensures { IsCutAs view_body result (body_in (91 ∷ rest.now)) }
{
    match rest.strip_suffix(']') {
        Some(text) => {
            if !are_ranges(text) {
                return Err(TextFault::Syntax);
            }
            Ok(Body {
                kind: Kind::Ranges,
                text,
            })
        }
        None => Err(TextFault::Syntax),
    }
}

/// Cuts a set whose `{` was removed. Fails with `Syntax` if there is no closing `}`.
fn cut_items(rest: &str) -> Result<Body<'_>, TextFault>
    ensures { IsCutAs view_body result (body_in (123 ∷ rest.now)) }
{
    match rest.strip_suffix('}') {
        Some(text) => Ok(Body {
            kind: Kind::Items,
            text,
        }),
        None => Err(TextFault::Syntax),
    }
}

/// Returns the kind of a value, which its first byte decides, and the text in its brackets. Fails with `Syntax` if the
/// brackets or dashes are wrong.
pub fn cut_body(body: &str) -> Result<Body<'_>, TextFault>
    ensures { IsCutAs view_body result (body_in body.now) }
{
    match body.strip_prefix('[') {
        Some(rest) => cut_ranges(rest),
        None => match body.strip_prefix('{') {
            Some(rest) => cut_items(rest),
            None => Ok(Body {
                kind: Kind::Scalar,
                text: body,
            }),
        },
    }
}
