//! The worked examples. `rows` names each, followed by `echo`, or by a capacity that is not the full one and its number: `agents`, `clients`,
//! `filters`, `limits`, `scalar_names` or `events`. The replies to the lines of `NAME.in` must be those of `NAME.out`.
use crate::streams::print;
use drf_core::Core;
use drf_journal::{Device, run};
use drf_rows::Limits;
use std::alloc::Global;
use std::rt::{Files, Runtime};
use std::{fs, io};

/// Returns the bytes of an example's file.
pub fn bytes<R: Files + AllocGlobal>(rt: &R, name: &str, extension: &str) -> io::Result<Vec<u8>> {
    let path = format!(in rt.alloc(); "{name}.{extension}")?;
    fs::read(rt, path.as_str())
}

/// How an example is run.
#[derive(Clone, Copy)]
struct Settings {
    limits: Limits,
    echo: bool,
}

/// Returns the full limits, but with this number for one capacity. `None` if it is not allowed.
fn limits_of(limit: &str, number: u64) -> Option<Limits> {
    let full = Limits::full();
    let most = |name: &str, ceiling: u64| if name == limit { number } else { ceiling };
    Limits::new(
        most("agents", full.agents()),
        full.frameworks(),
        full.roles(),
        most("clients", full.clients()),
        most("filters", full.filters()),
        full.weights(),
        most("limits", full.limits()),
        most("scalar_names", full.scalar_names()),
        most("events", full.events()),
    )
}

/// Returns the settings that the words after an example's name state.
fn settings_of(words: &str) -> Option<Settings> {
    let echo = words == "echo";
    let limits = match words.split_once(' ') {
        Some((limit, number)) => limits_of(limit, number.parse::<u64>().ok()?)?,
        None => Limits::full(),
    };
    Some(Settings { limits, echo })
}

/// Returns whether the replies to the lines of an example are these bytes.
fn is_answered(alloc: Global, settings: Settings, input: &[u8], output: &[u8]) -> bool {
    let Settings { limits, echo } = settings;
    let Ok(core) = Core::open(alloc, limits) else {
        return false;
    };
    let mut reader = Device::new(input);
    let mut writer = Device::new(Vec::new(alloc));
    let is_done = run(alloc, core, &mut reader, &mut writer, echo).is_ok();
    let reported = writer.into_inner();
    is_done && reported.as_slice() == output
}

/// Returns whether the example of a line of `rows` has the expected replies.
fn is_exact<R: Files + AllocGlobal>(rt: &R, row: &str) -> io::Result<bool> {
    let (name, words) = row.split_once(' ').unwrap_or((row, ""));
    let Some(settings) = settings_of(words) else {
        return Ok(false);
    };
    let (input, output) = (bytes(rt, name, "in")?, bytes(rt, name, "out")?);
    Ok(is_answered(rt.alloc(), settings, &input, &output))
}

/// Runs all examples, and prints how many have other replies.
pub fn run_all<R: Runtime + AllocGlobal>(rt: &R) -> io::Result<()> {
    let list = fs::read_to_string(rt, "rows")?;
    let mut others = 0u64;
    for row in list.as_str().lines() {
        let is_exact = is_exact(rt, row)?;
        print(rt, row, is_exact)?;
        if !is_exact {
            others = others.saturating_add(1);
        }
    }
    println!(rt; "{others} examples are not exact")
}
