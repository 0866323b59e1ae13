//! Writes the lines of an audit.
ghost use Rattle.std.specs.Prelude.{◌≡◌, ◌++◌, IfOk, OnOk, OnErr};
ghost use Rattle.drf_audit.specs.AuditText.{audit_text};

use crate::agents::AuditLine;
use drf_text::write_bundle;
use json::Writer;
use std::alloc::{AllocError, Global};

fn line_text(alloc: Global, line: &AuditLine) -> Result<Vec<u8>, AllocError>
    ensures { IfOk result (λ text. text.items ≡ audit_text line.now) }
{
    let free = write_bundle(alloc, &line.free)?;
    let total = write_bundle(alloc, &line.total)?;
    let mut out = Writer::new(Vec::new(alloc));
    out.begin_object()?;
    out.key("agent")?;
    out.string(line.agent.text())?;
    out.key("free")?;
    out.string(free.as_str())?;
    out.key("out")?;
    out.u64(line.out)?;
    out.key("total")?;
    out.string(total.as_str())?;
    out.end_object()?;
    let mut text = out.into_inner();
    text.push(b'\n')?;
    Ok(text)
}

/// Appends the line of an agent: compact JSON, with keys in byte order. If memory runs out, the text is unchanged.
pub fn write_audit_line(
    alloc: Global,
    line: &AuditLine,
    text: &mut Vec<u8>,
) -> Result<(), AllocError>
    ensures ok { OnOk result (text.new.items ≡ text.old.items ++ audit_text line.now) }
    ensures err { OnErr result (text.new.items ≡ text.old.items) }
{
    let reported = line_text(alloc, line)?;
    text.extend_from_slice(&reported)
}
