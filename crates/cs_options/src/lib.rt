//! The words that the command line understands, and what they ask for.
#![tactic(auto)]

mod choices;
mod commands;
mod devices;
mod examples;
mod files;
mod forms;
mod geometry_options;
mod options;
mod reclaim_options;
mod salvage_options;
mod shard_cuts;
mod sizes;
mod sizings;
mod sure_rooms;
mod tables;

pub use commands::command;
pub use cs_script as script;
pub use devices::on_device;
pub use files::{
    NoFile, NoIdentity, device_pages_of, file_of, identity_of, mode_of, reserve_of, skipped_of,
    wait_of,
};
pub use geometry_options::{TooSmall, Wish, geometry_for};
pub use options::{Listing, Measure, from_of, geometry_of, id_of, listing_of, measure_of, race_of};
pub use reclaim_options::{NoReach, Reach, reach_of};
pub use salvage_options::{NoGeometry, from_page_of, lost_geometry_of};
pub use sizes::size_of;
pub use sizings::{Sizing, USUAL_SIZE, exact_of, shard_size_of, sizing_of, wish_of};
pub use sure_rooms::{largest_shard, sure_bytes};
