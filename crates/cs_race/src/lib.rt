//! Races: threads put, get back and poll, beside a pilot and a reclaimer, on one node, which is closed then. What is
//! printed goes to a stream that is given.
#![tactic(auto)]

mod racers;
mod races;
mod traffic;

pub use racers::{Racer, Returned, racers_of};
pub use races::{new_core, run_race};
