//! Checks a file of recorded hours and says what it holds.
//! The numbers come from the file that the one argument names, or from standard input.
#![tactic(auto)]

mod lines;
mod listing;
mod report;

use anyhow::anyhow;
use report::report_of;
use std::io::{Read, Write};
use std::{env, fs};

fn input(rt: &HostRuntime) -> anyhow::Result<Vec<u8>> {
    let mut args = env::args(rt)?;
    let _program = args.next();
    let path = args.next();
    if args.next().is_some() {
        return Err(anyhow!("more than one file is named"));
    }
    if let Some(path) = path {
        return Ok(fs::read(rt, path)?);
    }
    let mut bytes = Vec::new(rt.alloc());
    rt.stdin().read_to_end(&mut bytes)?;
    Ok(bytes)
}

fn run(rt: &HostRuntime) -> anyhow::Result<()> {
    let bytes = input(rt)?;
    let written = report_of(rt.alloc(), bytes.as_slice())?;
    rt.stdout().write_all(written.as_bytes())?;
    Ok(())
}

// Whatever the file holds, the program has done its work: only a file that is not there, or a want of memory,
// is an error.
fn main(rt: HostRuntime) -> anyhow::Result<()> {
    run(&rt)
}
