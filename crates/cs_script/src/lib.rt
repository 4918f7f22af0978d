//! What the program does beneath its command line: scripts, whose lines are `put`, `get`, `del`, `sweep`, `sync`,
//! `step`, `plan`, `document` and `crash`, and the check of plan documents. All of it reads and writes streams that it
//! is given. Races of threads on one node stand in a crate of their own; here are the numbers that one is run with, so
//! that what reads them needs no node.
#![tactic(auto)]

mod answers;
mod bad_lines;
mod bounded_readers;
mod checks;
mod crashes;
mod documents;
mod letters;
mod lines;
mod outputs;
mod plan_lines;
mod script_laws;
mod script_stores;
mod scripts;
mod steps;
mod sweep_lines;
mod syncs;
mod watchers;

pub use bad_lines::{BadLine, first_word};
pub use checks::run_check;
pub use cs_writeback::the_core as the_core;
pub use outputs::{print_acknowledged, print_no_store, print_refusal};
pub use script_laws::{
    a_strict_script_takes_each_line, a_sync_line_is_never_out_of_turn, a_watched_script_is_a_script,
};
pub use script_stores::{run_over, run_over_watched};
pub use scripts::{Ran, run_script, run_watched};
pub use watchers::{LineFault, Onward, Unwatched, Watcher};
