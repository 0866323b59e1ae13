//! An example of two masters: a pass of the second calls the first, the host, which refuses the call.
ghost use Rattle.std.specs.Prelude.{◌≡◌};
ghost use Rattle.drf_rows.specs.LimitNumbers.{ceilings};
ghost use Rattle.drf_rows.specs.Step.{opening};

use crate::lines::{AGENT, CYCLE, call_all};
use crate::masters::{append_used, close};
use anyhow::{Context, Result};
use drf_board::{Brand, Naming, Slate};
use drf_lines::read_event;
use drf_master::{Master, Pass};
use drf_rows::Limits;
use std::alloc::Global;
use std::fmt::Write;
use std::sync::Wait;

// Appends the error of a call on the host.
fn append_stranger<L: Naming, R: Wait + Drop, W: Wait>(
    rt: &W,
    alloc: Global,
    told: &mut String,
    host: &Master<L, R>,
    passes: &mut [Pass],
) -> Result<()> {
    let event = read_event(alloc, CYCLE.as_bytes())?;
    let pass = passes.first_mut().context("no pass")?;
    let fault = host
        .call(rt, pass, event)
        .err()
        .context("a stranger called")?;
    Ok(write!(told, " a pass of key 2 is told {fault:?} (its own master:")?)
}

// Makes a call on the own master, and one on the host.
fn call_both<K: Naming, L: Naming, R: Wait + Drop, Q: Wait + Drop, W: Wait>(
    rt: &W,
    alloc: Global,
    told: &mut String,
    host: &Master<L, Q>,
    master: &Master<K, R>,
    passes: &mut [Pass],
) -> Result<()> {
    call_all(rt, alloc, master, passes, &[AGENT])?;
    append_stranger(rt, alloc, told, host, passes)
}

// Makes both calls, and closes the own master.
fn call_and_close<K: Naming, L: Naming, R: Wait + Drop, Q: Wait + Drop, W: Wait>(
    rt: &W,
    alloc: Global,
    told: &mut String,
    host: &Master<L, Q>,
    kept: &mut Vec<Pass>,
    master: Master<K, R>,
    mut passes: Vec<Pass>,
) -> Result<()> {
    let called = call_both(rt, alloc, told, host, &master, &mut passes);
    let closed = close(master, passes, 2, kept);
    append_used(told, called, closed)
}

// Opens a master with key 2, makes both calls, and closes it.
fn visit_named<K: Naming, L: Naming, Q: Wait + Drop, W: Wait>(
    rt: &W,
    alloc: Global,
    told: &mut String,
    host: &Master<L, Q>,
    slate: Slate,
) -> Result<()>
    requires named { slate.name ≡ K.slate }
    requires limits { slate.name.limits ≡ ceilings }
    requires start { K.start ≡ opening }
{
    let mut kept = Vec::new(alloc);
    let (master, passes, _viewers) = Master::<K, &W>::open(rt, alloc, 2, Limits::full(), 2, slate)?;
    call_and_close(rt, alloc, told, host, &mut kept, master, passes)
}

/// Appends the example: a pass of a master with key 2 calls its own master, and then the host, which returns an error. Then its own master is closed.
pub fn append_visit<L: Naming, Q: Wait + Drop, W: Wait>(
    rt: &W,
    alloc: Global,
    told: &mut String,
    host: &Master<L, Q>,
) -> Result<()> {
    let slate = Slate::open(0, Limits::full())?;
    visit_named::<Brand, L, Q, W>(rt, alloc, told, host, slate)?;
    Ok(told.push_str(");")?)
}
