//! The store's machine and what stands for it here. No code, but laws.
//!
//! The image of a store, and what is read of it page by page: what a new store writes and what an opening reads are what the machine
//! recovers, and the other way round. And the parts that a store has, its extents, its graph of what waits, its index and its disk: the same
//! moves, rounds, events, refusals and pages as the machine's.
//!
//! In the laws of images `x` is extents, `S` a shape and `F` formats, `n` a number of commands and `m` a map; `view` and `img` are what each page
//! of the image reads as; `read` is what was read of its superblock and its root.
//!
//! In those of parts `x` and `y` are extents before and after, `g` and `h` graphs (`g` also what waits in one), `i` and `j` indexes, and `s` and
//! `t` states of the machine; `w` is a world, `S` a shape and `F` formats. Of the machine's elements `u` is a version of a section of the
//! superblock and `r` one of the root, and `X` and `R` are sets, `R` one that a round makes; `z` is an element of the graph, and `d`
//! names what one needs. `e` is an extent's number, `p` a page's on the device, `l` a locator, `ls` several, `k` a place in a list, and `v`
//! the number of a version of the root. `n` is a number of commands, or that of one; `m` is a map, and `f` a refusal or a fault.
#![tactic(auto)]

mod crashes_refined;
mod events_refined;
mod frontiers_refined;
mod images;
mod moves_refined;
mod openings_refined;
mod reads_refined;
mod refusals_refined;
mod writebacks_refined;

pub use crashes_refined::what_a_crash_leaves_recovers;
pub use cs_reclaim as reclaim;
pub use events_refined::{
    copies_apart_refine_moves, copies_stay, delete_refines_delete, index_queries_agree,
    marks_refine_sweeps, move_refines_move, put_apart_refines_put, put_refines_put,
    retire_refines_retire, stage_refines_stage, stages_apart_refine_stages,
    sweeps_apart_refine_sweeps, worlds_apart_agree,
};
pub use frontiers_refined::{roots_are_counted, roots_are_noted, settle_refines_settle};
pub use images::{
    live_identifiers_are_those_of_the_map, new_stores_are_new, runs_are_read_one_by_one,
    visible_stores_recover, what_is_read_recovers, what_is_recovered_can_be_read,
};
pub use moves_refined::{
    append_refines_append, appends_refine_appends, closed_sets_agree, opened_stores_have_worlds,
    reset_refines_reset, root_refines_root, rounds_are_first_rounds, rounds_are_settled,
    staging_refines_staging, stores_keep_their_worlds, what_waits_is_of_the_world,
};
pub use openings_refined::{
    new_store_refines_start, read_store_refines_start, stores_apart_refine_start,
    what_is_found_is_the_start, whole_disks_have_pages,
};
pub use reads_refined::{get_refines_get, live_chunks_are_read, pages_are_read};
pub use refusals_refined::{
    delete_refusals_agree, move_refusals_agree, put_apart_refusals_agree, put_refusals_agree,
    refusals_keep_their_numbers, retire_apart_refusals_agree, retire_refusals_agree,
    stage_apart_refusals_agree, stage_refusals_agree, sweep_apart_refusals_agree,
    sweep_refusals_agree,
};
pub use writebacks_refined::{
    begin_refines_begin, disk_refines_device, end_refines_end, issue_refines_issue,
    round_refusals_agree, rounds_stay,
};
