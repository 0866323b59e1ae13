//! Worked examples of the master: a short server; masters that two threads call and that are then closed, also with passes that do not fit; a book
//! and a desk without a master; and drives. Each line of the output says how one example went, and does not depend on which thread was first.
#![tactic(auto)]

mod books;
mod calls;
mod closing;
mod desks;
mod driving;
mod lines;
mod masters;
mod server;
mod visiting;

use anyhow::Result;
use std::alloc::Global;
use std::io;
use std::sync::Wait;
use std::thread::Threads;

// Appends the lines of all examples.
fn run<W: Threads + Wait + Sync>(rt: &W, alloc: Global, told: &mut String) -> Result<()> {
    told.push_str("two viewers, an agent twice:")?;
    server::serve(rt, alloc, told)?;
    closing::append_all(rt, alloc, told)?;
    books::append_alone(rt, alloc, told)?;
    desks::append_alone(rt, alloc, told)?;
    driving::append_all(rt, alloc, told)
}

fn main(rt: HostRuntime) -> io::Result<()> {
    let mut told = String::new(rt.alloc());
    let ran = run(&rt, rt.alloc(), &mut told);
    print!(&rt; "{told}")?;
    match ran {
        Ok(()) => Ok(()),
        Err(fault) => println!(&rt; "not run: {fault}"),
    }
}
