//! The program: its command line, by which it makes a store in a file, does a command over one, runs a script, checks a
//! plan document, or runs a race.
#![tactic(auto)]

mod benches;
mod command_lines;
mod copies;
mod creates;
mod descriptors;
mod devices;
mod doctors;
mod inputs;
mod overs;
mod overviews;
mod queries;
mod repairs;
mod runs;
mod salvage_warnings;
mod salvages;
mod shards;
mod tools;
mod versions;
mod watchers;
mod words;

use std::io::IsTerminal;
use std::process::ExitCode;

fn main(rt: HostRuntime) -> ExitCode {
    // Before anything else is opened, and up to the program's end.
    match descriptors::stand_in(&rt) {
        Ok(_standing) => { ExitCode::from(command_lines::run(&rt, rt.stderr().is_terminal())) }
        Err(_) => ExitCode::from(cs_words::STREAM),
    }
}
