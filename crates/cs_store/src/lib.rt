//! The typed store over one core, for one thread, that programs embed: a map from identifiers to bytes over one disk.
//!
//! Its clauses speak of its value, that of the core (`View` of cs_core). `HasMap` says which map it has: what
//! `OpenOptions` found as it made or opened the store, changed by each put and delete that was accepted since. A `sync`
//! makes all of it persistent; what a crash leaves at any other moment is the map after some of the commands, none of
//! the persistent ones left out.
#![tactic(auto)]

mod devices;
mod errors;
mod fences;
mod figures;
pub mod file_openers;
mod gets;
mod identities;
mod left_out;
mod older;
mod options;
mod puts;
mod reclaims;
mod reserves;
mod sections;
mod sizes;
mod stores;

pub use devices::pages_said;
pub use errors::{DeleteError, GetError, OpenError, PutError, SweepError, SyncError};
pub use fences::ready_to_write;
pub use figures::{ExtentLook, StoreStats};
pub use identities::{NO_IDENTITY, identified, new_identity};
pub use options::{Loss, OpenOptions};
pub use reclaims::Reclaimed;
pub use reserves::{DEFAULT_RESERVE, Reserve, most_live};
pub use sections::ready_sections;
pub use sizes::SizeError;
pub use stores::Store;

// What callers need of the crates below, so that this one is enough.
pub use cs_disk::{FileDisk, MemoryDisk, PageDisk};
pub use cs_frame::{Format, Geometry, Locator, ShardId, StoreId};
pub use cs_index::LiveChunk;
pub use cs_inspect::{Damage, ExtentUse, RunUse, Scrubbed, Stats};
pub use cs_mount as mount;
pub use cs_mount::the_core::Limits;
pub use cs_mount::{AsOf, Finding, LIMITS, Mounted};
pub use cs_refusal::Refusal;
pub use cs_writeback::Swept;
