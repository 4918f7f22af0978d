//! Runs each row of a folder, a script beside what it has to print, over a new store in memory. It prints a line a row,
//! and ends with status 1 where a row isn't as wanted.
#![tactic(auto)]

mod folders;
mod geometries;
mod reports;
mod rows;
mod runs;

use std::io;
use std::process::ExitCode;

fn main(rt: HostRuntime) -> io::Result<ExitCode> {
    let status = rows::run_all(&rt, folders::folder_of_rows(&rt)?)?;
    Ok(ExitCode::from(status))
}
