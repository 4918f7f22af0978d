//! How stores lie on their disks: the root and each section of the superblock have two pages, of which the newest that
//! is whole shows. In format 2 each has one.
#![tactic(auto)]

mod as_of;
mod chosen;
mod creates;
mod ends;
mod fences;
mod identities;
mod left_out;
mod looks;
mod lost_sections;
mod made_laws;
mod makings;
mod mount_laws;
mod mount_options;
mod older;
mod page_fences;
mod remade;
mod remakes;
mod seals;
mod section_laws;
mod section_pages;
mod section_rows;
mod store_pairs;
mod unreadable;
mod write_laws;

pub use as_of::AsOf;
pub use chosen::Chosen;
pub use cs_core as the_core;
pub use cs_twin::Finding;
pub use ends::first_written;
pub use fences::fence;
pub use identities::two_stores;
pub use left_out::leave_out;
pub use looks::look;
pub use lost_sections::made_sections;
pub use made_laws::made_sections_give_the_map;
pub use makings::lay_store;
pub use mount_laws::{
    a_cleared_disk_holds_no_store, a_core_writes_a_half_once, a_crash_of_a_making,
    a_fence_is_whole_in_no_format, a_fenced_sector_is_whole_in_no_format, a_torn_crash_is_opened,
    a_torn_fence_of_a_store_shows_the_same, a_torn_making, the_geometry_is_found,
    torn_disks_show_a_crash, torn_stores_are_found_again, torn_stores_show_a_crash,
};
pub use mount_options::{LIMITS, MountOptions, Mounted, mend};
pub use page_fences::{a_crash_of_fences, fence_pages, pages_are_fenced, the_other_half_shows};
pub use remade::Remade;
pub use remakes::remake;
pub use seals::seal;
pub use section_laws::{
    a_seal_keeps_the_map, a_sealed_store_misses_its_root, an_extent_left_out_is_full,
    an_extent_may_be_left_out, sections_may_change,
};
pub use store_pairs::{
    StoreRules, find_geometry, find_last, holds_superblock, open_pairs, pairs_of_store,
};
pub use unreadable::unreadable_halves;
pub use write_laws::{
    a_core_lies_in_its_pairs, a_core_writes_what_its_pairs_take, undamaged_halves_are_fenced,
};
