//! Looks declarations up in a tree of files that is kept in memory, as the script on standard input says.
#![tactic(auto)]

mod memory;
mod printer;
mod report;
mod session;

use std::process::ExitCode;

fn main(rt: HostRuntime) -> anyhow::Result<ExitCode> {
    let text = commands::read(&rt)?;
    session::run(&rt, text.as_str())
}
