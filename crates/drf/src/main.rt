//! The program `drf`: passes its arguments, the files and the three standard streams to the command line.
#![tactic(auto)]

use drf_app::{command, report_no_arguments};
use drf_journal::{Device, SystemFiles, random_key};
use std::env::Env;
use std::process::ExitCode;
use std::{env, io};

/// Returns the arguments of the program. The first is always `drf`, which messages use as the program's name.
fn arguments<R: Env + AllocGlobal>(rt: &R) -> io::Result<Vec<String>> {
    let mut arguments = env::args(rt)?.collect::<Vec<String>>(rt.alloc())?;
    if let Some(name) = arguments.first_mut() {
        *name = String::from_str(rt.alloc(), "drf")?;
    }
    Ok(arguments)
}

fn main(rt: HostRuntime) -> ExitCode {
    let mut files = SystemFiles {
        rt: &rt,
        key: random_key(&rt),
    };
    let mut input = Device::new(rt.stdin());
    let mut output = Device::new(rt.stdout());
    let mut errors = Device::new(rt.stderr());
    let status = match arguments(&rt) {
        Ok(arguments) => command(
            &rt,
            rt.alloc(),
            &arguments,
            &mut files,
            &mut input,
            &mut output,
            &mut errors,
        ),
        Err(error) => report_no_arguments(&error, &mut errors),
    };
    ExitCode::from(status)
}
