//! The event machine of a shard store over one disk: each call of `apply` is one event, and the history keeps it with
//! its reply until a checkpoint replaces it.
//!
//! An event goes through `cores` (`apply`) and `stores` (`serve`), which refuses most of them where the store is
//! halted, to one call of a `Store`: `commands`, `core_reads`, `stagings`, `rounds` or `sweep_events`. `core_openings`
//! makes a new store, or one of what cs_reader reads. `known_lengths` keeps in memory how long chunks are that were
//! read, put or moved (`lengths`).
#![tactic(auto)]

mod commands;
mod core_laws;
mod core_openings;
mod core_reads;
mod cores;
mod events;
mod histories;
mod known_lengths;
mod lengths;
mod rounds;
mod stagings;
mod stores;
mod sweep_events;

pub use core_laws::{
    a_crash_of_a_run_leaves_a_prefix, a_round_lowers_heights_by_one,
    all_accepted_is_persistent_at_rest, disks_hold_what_is_persistent,
    what_a_torn_crash_leaves_is_recovered, what_may_be_staged_agrees,
    what_places_mean_is_what_the_map_has, what_places_mean_is_what_was_put,
};
pub use cores::{Core, Limits};
pub use events::{Bytes, Elements, Event, OutOfMemory, Reply};
pub use law_refinement::reclaim as reclaim;
