//! Reads one piece by itself.
ghost use Rattle.std.specs.Prelude.{◌≡◌, IsErrOf, IsOk};
ghost use Rattle.drf_role.specs.Role.{default_role};
ghost use Rattle.drf_text.specs.Faults.{IsReadAs, IsMeaning};
ghost use Rattle.drf_text.specs.Steps.{named_in, view_draft, draft_in, said_in, counted_in};

use crate::fault::TextFault;
use crate::piece::{Body, cut_body, cut_head, cut_piece};
use crate::values::{read_label, read_members, read_role, read_value};
use drf_bundle::Value;
use drf_role::{Label, Role};
use std::alloc::Global;

/// A piece that is partly read: the text of the role, and of the value all but the members of a set, are still to be
/// read.
#[derive(Drop)]
struct Draft<'a> {
    label: Label,
    role: Option<&'a str>,
    body: Body<'a>,
    members: Vec<Label>,
}

/// The resource that a piece of a bundle describes. The value is `None` if a scalar is too large.
#[derive(Drop)]
pub struct Said {
    pub label: Label,
    pub role: Role,
    pub value: Option<Value>,
}

/// The entry that a piece of quantities describes. The value is `None` if a scalar is too large.
#[derive(Drop)]
pub struct Counted {
    pub label: Label,
    pub value: Option<Value>,
}

#[tactic(auto, unfolding(crate::specs::Steps::draft_in, crate::specs::Steps::named_in))]
fn read_draft(alloc: Global, piece: &str) -> Result<Draft<'_>, TextFault>
    ensures read { IsReadAs view_draft result (draft_in piece.now) }
    ensures memory { IsErrOf result TextFault.Memory → IsOk (named_in piece.now) }
{
    let (head, body) = cut_piece(piece)?;
    let head = cut_head(head)?;
    let body = cut_body(body)?;
    let label = read_label(alloc, head.name)?;
    let members = read_members(alloc, &body)?;
    Ok(Draft {
        label,
        role: head.role,
        body,
        members,
    })
}

/// Reads a piece of a bundle. The caller passes the role `*` as `unreserved`, because most pieces have no role.
#[tactic(auto, using(crate::proofs::Named::draft_named), unfolding(crate::specs::Steps::said_in))]
pub fn read_piece(alloc: Global, piece: &str, unreserved: &Role) -> Result<Said, TextFault>
    requires { unreserved.now ≡ default_role }
    ensures read { IsMeaning result (said_in piece.now) }
    ensures memory { IsErrOf result TextFault.Memory → IsOk (named_in piece.now) }
{
    let Draft {
        label,
        role,
        body,
        members,
    } = read_draft(alloc, piece)?;
    let role = read_role(alloc, role, unreserved)?;
    let value = read_value(alloc, &body, members)?;
    Ok(Said { label, role, value })
}

/// Reads a piece of quantities. Fails with `BadRole` if it has parentheses.
#[tactic(auto, using(crate::proofs::Named::draft_named), unfolding(crate::specs::Steps::counted_in))]
pub fn read_count(alloc: Global, piece: &str) -> Result<Counted, TextFault>
    ensures read { IsMeaning result (counted_in piece.now) }
    ensures memory { IsErrOf result TextFault.Memory → IsOk (named_in piece.now) }
{
    let Draft {
        label,
        role,
        body,
        members,
    } = read_draft(alloc, piece)?;
    if role.is_some() {
        return Err(TextFault::BadRole);
    }
    let value = read_value(alloc, &body, members)?;
    Ok(Counted { label, value })
}
