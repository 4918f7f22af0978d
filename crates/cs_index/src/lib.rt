//! The index of a store: which locators each shard has, as a table in memory over the runs on the device. There are at
//! most 24 runs, and 4 in format 2.
//!
//! A later entry of an identifier wins over an earlier one: a newer run over an older one, the table over all runs. An
//! entry without locators is a deletion, which hides what earlier runs have. An identifier is found by binary search;
//! all are read in order, table and runs side by side.
#![tactic(auto)]

mod counted_copies;
mod counts;
mod index_laws;
mod indexes;
mod live;
mod mergers;
mod stages;
mod stages_v2;
mod stored_runs;

pub use counted_copies::ChunkCopy;
pub use index_laws::stages_without_sizes;
pub use indexes::Index;
pub use live::LiveChunk;
pub use stored_runs::{Entries, StoredRun};
