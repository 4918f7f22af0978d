//! The command line.
ghost use Rattle.std.specs.Prelude.{◌≤◌};

use crate::runs::run_standard_input;
use crate::tools::run_tool;
use crate::versions::{SOURCES, VERSION};
use crate::words::{file_in_environment, tell_unreadable, words_given};
use clap::ArgMatches;
use cs_options::script::{print_no_store, run_check};
use cs_options::{command, race_of};
use cs_race::{new_core as new_race_core, run_race};
use std::fs::File;
use std::io;
use std::random::RandomSource;
use std::rt::{Env, Files};
use std::sync::Wait;
use std::thread::Threads;
use std::time::Clock;

/// Does what the command line asks for, and gives the exit status. It is told whether standard error is a terminal.
pub fn run<
    R: Env
        + AllocGlobal
        + Clock
        + Files<File = File>
        + RandomSource
        + Input
        + Print
        + Eprint
        + Threads
        + Wait
        + Sync,
>(rt: &R, terminal: bool) -> u8
where
    R::Reader: Drop,
    ensures { result ≤ 7 }
{
    let words = match words_given(rt) {
        Ok(words) => words,
        Err(error) => return tell_unreadable(rt, error),
    };
    let environment = file_in_environment(rt);
    match environment {
        Some(path) => run_words(rt, &words, Some(path.as_str()), terminal),
        None => run_words(rt, &words, None, terminal),
    }
}

/// Does what these words ask for, and gives the exit status. The environment may name a file.
fn run_words<
    R: AllocGlobal
        + Clock
        + Files<File = File>
        + RandomSource
        + Input
        + Print
        + Eprint
        + Threads
        + Wait
        + Sync,
>(rt: &R, words: &[String], environment: Option<&str>, terminal: bool) -> u8
where
    R::Reader: Drop,
    ensures { result ≤ 7 }
{
    let version = format!(in rt.alloc();
        "{VERSION} (reads formats 1, 2 and 4; writes format 2 by run, 4 by create; sources {SOURCES})"
    );
    let (Ok(command), Ok(version)) = (command(rt.alloc()), version) else {
        let _ = eprintln!(rt; "out of memory");
        return cs_words::COMMAND_LINE;
    };
    match command.version(&version).try_get_matches_from(words) {
        Ok(matches) => run_matches(rt, &matches, environment, terminal),
        Err(error) => print_error(rt, &error),
    }
}

/// Prints what the words aren't, or the help that they ask for, and gives the exit status.
fn print_error<R: Print + Eprint>(rt: &R, error: &clap::Error) -> u8
    ensures { result ≤ 4 }
{
    match error.print(rt) {
        // What standard error took changes no status.
        _ if error.use_stderr() => cs_words::COMMAND_LINE,
        Ok(()) => cs_words::DONE,
        Err(_) => cs_words::STREAM,
    }
}

/// Does what the words were found to ask for, and gives the exit status. A subcommand is required.
fn run_matches<
    'a,
    R: AllocGlobal
        + Clock
        + Files<File = File>
        + RandomSource
        + Input
        + Print
        + Eprint
        + Threads
        + Wait
        + Sync,
>(rt: &R, matches: &ArgMatches<'a>, environment: Option<&'a str>, terminal: bool) -> u8
where
    R::Reader: Drop,
    ensures { result ≤ 7 }
{
    let Some((name, options)) = matches.subcommand() else {
        return cs_words::COMMAND_LINE;
    };
    match name {
        "run" => run_standard_input(rt, options, terminal),
        "race" => race_threads(rt, options),
        "check" => check_standard_input(rt),
        _ => run_tool(rt, name, options, environment, terminal),
    }
}

/// Checks the plan document on standard input.
fn check_standard_input<R: AllocGlobal + Input + Print>(rt: &R) -> u8
where
    R::Reader: Drop,
    ensures { result ≤ 4 }
{
    run_check(rt.alloc(), rt.reader(), &mut io::writer(rt))
}

/// Runs a race over a new store in memory.
fn race_threads<R: AllocGlobal + Print + Eprint + Threads + Wait + Sync>(
    rt: &R,
    options: &ArgMatches,
) -> u8
    ensures { result ≤ 4 }
{
    let Some(race) = race_of(options) else {
        let _ = eprintln!(rt; "error: threads are 1 to 64, puts 0 to 1,000, and drop at most puts");
        return cs_words::COMMAND_LINE;
    };
    let mut writer = io::writer(rt);
    match new_race_core(rt.alloc()) {
        Ok(core) => run_race(rt, rt.alloc(), core, race, &mut writer),
        Err(refusal) => print_no_store(&mut writer, refusal),
    }
}
