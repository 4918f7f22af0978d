//! What drives a core: whole rounds, syncs and sweeps. All of it is made of calls of `Core::apply` and
//! `Core::checkpoint`, one after another: the clauses `call` and `ran` say so, which is what a crash within them is
//! known by.
#![tactic(auto)]

mod asks;
mod syncs;
mod whole_sweeps;

pub use asks::{ask, make_room};
pub use cs_core as the_core;
pub use syncs::{
    Observer, Silent, Stop, a_sync_is_never_out_of_turn, end_round, finish_round, run_round, sync,
    write_rounds,
};
pub use whole_sweeps::{Swept, sweep};
