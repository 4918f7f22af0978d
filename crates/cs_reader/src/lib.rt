//! What a store has on its disk, read page by page: its head, which is superblock and root, and the runs of its index.
//!
//! Nothing is written and nothing is flushed. `heads` reads superblock and root, and makes of them extents and a graph; `loads` reads the
//! runs, and makes of them the index.
#![tactic(auto)]

mod heads;
mod loads;

pub use heads::{Head, new_graph, read_head};
pub use loads::{are_places_located, is_located, live_count, load_index, read_run, read_runs};
