//! Makes calls from event lines, and writes journals as text.
use crate::server::{append_reply, call_once};
use anyhow::{Context, Result};
use drf_board::{Entry, Naming};
use drf_lines::write_event;
use drf_master::{Master, Pass};
use drf_rows::Reply;
use std::alloc::Global;
use std::fmt::Write;
use std::str;
use std::sync::Wait;

pub const AGENT: &str = r#"{"event":"add_agent","agent":"n1","total":"cpus:4;mem:1024"}"#;

pub const OTHER_AGENT: &str = r#"{"event":"add_agent","agent":"n2","total":"cpus:4;mem:1024"}"#;

pub const SMALL_AGENT: &str = r#"{"event":"add_agent","agent":"n1","total":"cpus:1"}"#;

pub const FRAMEWORK: &str = r#"{"event":"add_framework","framework":"f1","roles":["a"]}"#;

pub const CYCLE: &str = r#"{"event":"cycle","at":0}"#;

pub const LIMIT: &str = r#"{"event":"set_limit","role":"a","limit":"cpus:1"}"#;

pub const NO_LIMIT: &str = r#"{"event":"set_limit","role":"a","limit":""}"#;

/// Makes a call for each line, in order.
pub fn call_all<K: Naming, R: Wait + Drop, W: Wait>(
    rt: &W,
    alloc: Global,
    master: &Master<K, R>,
    passes: &mut [Pass],
    lines: &[&str],
) -> Result<()> {
    for line in lines {
        call_once(rt, alloc, master, passes, line)?;
    }
    Ok(())
}

/// Appends the place of a call and the line of its reply.
pub fn append_placed(alloc: Global, told: &mut String, place: u64, reply: &Reply) -> Result<()> {
    write!(told, " {place}")?;
    append_reply(alloc, told, reply)?;
    Ok(told.push(';')?)
}

// Appends the lines of an event and of its reply.
fn append_entry(alloc: Global, told: &mut String, entry: &Entry) -> Result<()> {
    let line = write_event(alloc, &entry.event)?;
    let text = str::from_utf8(&line).ok().context("no text")?;
    write!(told, " {text}")?;
    append_reply(alloc, told, &entry.reply)
}

/// Appends the lines of a journal.
pub fn append_entries(alloc: Global, told: &mut String, entries: &[Entry]) -> Result<()> {
    told.push_str(" entries:")?;
    for entry in entries {
        append_entry(alloc, told, entry)?;
    }
    Ok(())
}
