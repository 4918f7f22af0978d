//! Sweeps: what lives on an extent is moved away, and then the extent is emptied, so that its pages are given again.
//!
//! The map from identifiers to bytes stays as it is through every call. The merged run and the root that no longer name
//! the extent are staged before it is emptied, so that what is written there later waits for them.
//!
//! A sweep copies what lives on its extent, and the chunks count where they lay until it is retired. In format 2, where
//! chunks and runs may lie on one extent, a chunk that is moved counts at once where it is now. `Sweeps` goes the one
//! way or the other.
#![tactic(auto)]

mod copies;
mod moves;
mod roots;
mod sweep_laws;
mod sweeps;
mod sweeps_v2;

pub use roots::{free_blank, is_any_swept};
pub use sweep_laws::{
    a_sweep_apart_keeps_every_shard, a_sweep_keeps_every_shard, a_swept_extent_stays,
    a_swept_extent_stays_apart, copies_stay, moves_keep_marks,
};
pub use sweeps::Sweeps;
pub use sweeps_v2::{Sweep, is_sweepable};
