//! What can be got of a store that can't be opened as usual. Nothing is written to its disk, and nothing is flushed.
//!
//! A rescue goes by the index. It is for a store whose index has a damaged run, or entries that name places which are
//! gone. It is also for a store whose root is older than one that was persistent. Superblock and root are read as at an
//! opening, whatever the sections record of the root. Then the runs of the root are read, the newest first, up to one
//! that can't be read. What these runs name is answered. What they don't name may be in one that is damaged, or older.
//! That is refused by a name of its own.
//!
//! A salvage goes by the frames alone, whatever superblock, root and index are. It reads the chunks that are whole, by
//! the heads that their payloads end with. Of each identifier it has the newest put all of whose parts are there. It
//! takes the chunks of one store, or those of any. Pages that can't be read are skipped and reported.
#![tactic(auto)]

mod finds;
mod namings;
mod parts;
mod rescued_runs;
mod rescues;
mod salvage_laws;
mod scans;
mod searches;
mod skipping;
mod whole_shards;

pub use finds::{Finds, Unwatched, Watcher, find_parts};
pub use namings::{Naming, count_of, lacking};
pub use parts::{Part, Put, read_whole};
pub use rescued_runs::DamagedRun;
pub use rescues::{Found, Rescue, RescueRefusal};
pub use salvage_laws::{
    what_a_map_has_is_found, what_a_part_means_is_one, what_is_found_lies_there,
    what_is_whole_is_got, what_newer_runs_name_is_right, what_stands_is_whole,
    whole_shards_are_what_was_put,
};
pub use scans::{Patience, Scanned, scan_commands};
pub use searches::{Sought, Whose};
pub use skipping::Skipping;
pub use whole_shards::{Missing, WholeShard, ambiguous, missing_puts, newest_whole};
