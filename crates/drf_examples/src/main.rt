//! Runs the worked examples of `data/`, and one of them on streams that are slow or fail, and prints whether the output is exactly the expected one.
#![tactic(auto)]

mod commands;
mod ends;
mod events;
mod generated;
mod keys;
mod resumes;
mod rows;
mod streams;

use std::io;

fn main(rt: HostRuntime) -> io::Result<()> {
    rows::run_all(&rt)?;
    streams::run_all(&rt)?;
    events::run_all(&rt)?;
    keys::run_all(&rt)?;
    ends::run_all(&rt)?;
    commands::run_all(&rt)?;
    resumes::run_all(&rt)?;
    generated::run_all(&rt)
}
