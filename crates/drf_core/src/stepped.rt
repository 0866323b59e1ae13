//! A reply with copies of it.
ghost use Rattle.std.specs.Prelude.{◌≡◌, IfOk};
ghost use Rattle.drf_rows.specs.declared.reply.Reply.TheVariants.{Done, Refused};
ghost use Rattle.drf_core.specs.Copies.{copies_if};

use drf_rows::{Refusal, Reply};
use std::alloc::AllocError;

/// The reply to an event, and two copies of it if the caller asked for them.
#[derive(Drop)]
pub struct Stepped {
    pub reply: Reply,
    pub copies: Option<(Reply, Reply)>,
}

impl Stepped {
    /// Returns the reply `Done`. It needs no memory.
    pub(crate) fn done(copied: bool) -> Stepped
        ensures reply { result.reply ≡ Done }
        ensures copies { result.copies ≡ copies_if copied Done }
    {
        Stepped {
            reply: Reply::Done,
            copies: both_if(copied, Reply::Done, Reply::Done),
        }
    }

    /// Returns the reply `Refused`. It needs no memory.
    pub(crate) fn refused(refusal: Refusal, copied: bool) -> Stepped
        ensures reply { result.reply ≡ Refused refusal }
        ensures copies { result.copies ≡ copies_if copied (Refused refusal) }
    {
        let reply = Reply::Refused(refusal);
        Stepped {
            reply,
            copies: both_if(copied, Reply::Refused(refusal), Reply::Refused(refusal)),
        }
    }

    /// Returns any reply, with copies if `copied` is set.
    pub(crate) fn of(reply: Reply, copied: bool) -> Result<Stepped, AllocError>
        ensures reply { IfOk result (λ stepped. stepped.reply ≡ reply) }
        ensures copies { IfOk result (λ stepped. stepped.copies ≡ copies_if copied reply) }
    {
        let copies = copies_if(&reply, copied)?;
        Ok(Stepped { reply, copies })
    }
}

/// Returns two equal replies as the copies, if `copied` is set.
fn both_if(copied: bool, first: Reply, second: Reply) -> Option<(Reply, Reply)>
    requires { second ≡ first }
    ensures { result ≡ copies_if copied first }
{
    if copied { Some((first, second)) } else { None }
}

/// Returns two copies of a reply, if `copied` is set.
fn copies_if(reply: &Reply, copied: bool) -> Result<Option<(Reply, Reply)>, AllocError>
    ensures { IfOk result (λ copies. copies ≡ copies_if copied reply.now) }
{
    if !copied {
        return Ok(None);
    }
    let first = reply.copy()?;
    Ok(Some((first, reply.copy()?)))
}
