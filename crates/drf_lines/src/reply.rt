//! Writes the line of a reply or of an error.
ghost use Rattle.std.specs.Prelude.{◌≡◌, ◌++◌, map, IfOk, OnOk};
ghost use Rattle.serde_json.specs.Data.{array};
ghost use Rattle.serde_json.specs.View.{items_of};
ghost use Rattle.serde_json.specs.Written.{compact_text};
ghost use Rattle.drf_lines.specs.ReplyLine.{offer_value, offers_value, refused_value, reply_value, reply_line, fault_line};
ghost use Rattle.drf_lines.specs.Written.{AppendsText, KeepsPrefix};

use crate::fault::LineFault;
use crate::last_report::LastReport;
use crate::member::{
    put, put_bundle, put_byte, put_comma, put_name, put_number, put_role, put_text,
};
use crate::report::put_report;
use drf_rows::{OfferLine, Reply};
use std::alloc::{AllocError, Global};

fn put_offer(line: &mut Vec<u8>, text: &mut String, offer: &OfferLine) -> Result<(), AllocError>
    ensures { AppendsText result line.old.items line.new.items (compact_text (offer_value offer.now)) }
{
    put_name(line, "{\"agent\":\"", &offer.agent)?;
    put_name(line, ",\"framework\":\"", &offer.framework)?;
    put_number(line, ",\"offer\":", offer.number)?;
    put_bundle(line, text, ",\"resources\":\"", &offer.resources)?;
    put_role(line, ",\"role\":\"", &offer.role)?;
    put_byte(line, b'}')
}

/// Appends the offers as an array, in their order.
fn put_offer_list(
    line: &mut Vec<u8>,
    text: &mut String,
    offers: &[OfferLine],
) -> Result<(), AllocError>
    ensures { AppendsText result line.old.items line.new.items (compact_text (array (items_of (map offer_value offers.now)))) }
{
    put_byte(line, b'[')?;
    for (i, offer) in offers.iter().enumerate() {
        put_comma(line, i)?;
        put_offer(line, text, offer)?;
    }
    put_byte(line, b']')
}

fn put_offers(line: &mut Vec<u8>, offers: &[OfferLine]) -> Result<(), AllocError>
    ensures { AppendsText result line.old.items line.new.items (compact_text (offers_value offers.now)) }
{
    let mut text = String::new(*line.allocator());
    put(line, "{\"offers\":")?;
    put_offer_list(line, &mut text, offers)?;
    put_byte(line, b'}')
}

fn put_refused(line: &mut Vec<u8>, name: &str, reason: u64) -> Result<(), AllocError>
    ensures { AppendsText result line.old.items line.new.items (compact_text (refused_value name.now reason)) }
{
    put_text(line, "{\"name\":\"", name)?;
    put_number(line, ",\"refused\":", reason)?;
    put_byte(line, b'}')
}

fn put_done(line: &mut Vec<u8>) -> Result<(), AllocError>
    ensures { AppendsText result line.old.items line.new.items (compact_text (reply_value Reply.Done)) }
{
    put(line, "{\"ok\":true}")
}

fn put_reply(line: &mut Vec<u8>, last: &mut LastReport, reply: &Reply) -> Result<(), AllocError>
    ensures ok { OnOk result (line.new.items ≡ line.old.items ++ compact_text (reply_value reply.now)) }
    ensures prefix { KeepsPrefix line.old.items line.new.items }
{
    match reply {
        Reply::Done => put_done(line),
        Reply::Offers(offers) => put_offers(line, offers.as_slice()),
        Reply::Report(report) => put_report(line, last, report),
        Reply::Refused(refusal) => put_refused(line, refusal.name(), refusal.number()),
    }
}

/// Appends the line of a reply. Text of a report can be copied from the last report.
pub fn push_reply_after(
    text: &mut Vec<u8>,
    last: &mut LastReport,
    reply: &Reply,
) -> Result<(), AllocError>
    ensures ok { OnOk result (text.new.items ≡ text.old.items ++ reply_line reply.now) }
    ensures prefix { KeepsPrefix text.old.items text.new.items }
{
    put_reply(text, last, reply)?;
    put_byte(text, b'\n')
}

/// Appends the line of a reply, with a line feed: compact JSON with its keys in byte order. If memory runs out, a part
/// of the line may have been appended.
pub fn push_reply(text: &mut Vec<u8>, reply: &Reply) -> Result<(), AllocError>
    ensures ok { OnOk result (text.new.items ≡ text.old.items ++ reply_line reply.now) }
    ensures prefix { KeepsPrefix text.old.items text.new.items }
{
    let mut last = LastReport::none();
    push_reply_after(text, &mut last, reply)
}

/// Appends the line that reports why a line is not an event, with a line feed. If memory runs out, a part of it may
/// have been appended.
pub fn push_fault(text: &mut Vec<u8>, fault: LineFault) -> Result<(), AllocError>
    ensures { AppendsText result text.old.items text.new.items (fault_line fault) }
{
    put_refused(text, fault.name(), fault.number())?;
    put_byte(text, b'\n')
}

/// Returns the line of a reply, with a line feed.
pub fn write_reply(alloc: Global, reply: &Reply) -> Result<Vec<u8>, AllocError>
    ensures { IfOk result (λ line. line.items ≡ reply_line reply.now) }
{
    let mut line = Vec::new(alloc);
    push_reply(&mut line, reply)?;
    Ok(line)
}

/// Returns the line that reports why a line is not an event, with a line feed.
pub fn write_fault(alloc: Global, fault: LineFault) -> Result<Vec<u8>, AllocError>
    ensures { IfOk result (λ line. line.items ≡ fault_line fault) }
{
    let mut line = Vec::new(alloc);
    push_fault(&mut line, fault)?;
    Ok(line)
}
