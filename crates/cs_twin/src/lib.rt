//! A disk whose most important pages lie twice on the device below, so that a torn or damaged one of them is survived.
#![tactic(auto)]

mod findings;
mod notes;
mod paired;
mod pairs;
mod tears;

pub use findings::{Finding, Half, read_findings};
pub use paired::Paired;
pub use pairs::{Held, PageRules, Pair};
pub use tears::{
    Fate, Sector, TearDisk, a_torn_fence_shows_the_same, fenced_halves_stay_known,
    torn_pages_show_a_crash,
};
