//! The machine of a store that orders its writeback by needs. Its definitions are in `specs`, and each function here
//! has a law over them as its contract and an empty body.
//!
//! In its laws `S` is a shape and `F` formats; `s` and `t` are states before and after, `w` and `v` worlds, `u` is another one that
//! might come after; `x` is extents, `X` and `R` are sets of elements, `R` one that a round makes, and `r` is a root. `e` and `d` are
//! numbers of extents, `i` is a page's number in its extent, and `p` one on the device; `l` is a locator, `ls` are several, and
//! `bs` a frame's pages. `n` and `k` are numbers of commands, or `n` that of one; `m` and `o` are maps, and `f` is a refusal.
#![tactic(auto)]

mod allocation;
mod index;
mod machine_crashes;
mod machine_events;
mod premises;
mod recovery;
mod sets;
mod writeback;

pub use allocation::{
    a_frame_goes_to_one_extent, a_frame_is_appended_or_the_extents_are_full, an_append_takes_pages,
    appends_are_deterministic, appends_by_either_rule, frames_fit_where_they_can_be_appended,
    what_is_appended_by_either_rule_is_read, what_is_appended_is_read,
};
pub use index::{
    deletions_and_moves_weigh_no_more, tallies_count_identifiers, weights_count_newest_entries,
};
pub use machine_crashes::{
    a_crash_leaves_a_prefix, a_crash_that_tears_leaves_a_prefix, any_moment_of_an_event,
    checkpoints_are_safe, every_event_keeps, every_history_is_safe, torn_pages_are_not_read,
};
pub use machine_events::{
    a_put_has_one_list_of_payloads, a_stage_leaves_room_for_puts, all_is_persistent_at_rest,
    commands_go_on, each_member_is_issued_once, events_are_deterministic, events_are_total,
    format_2_counts_names_as_before, format_2_stages_as_before, the_frontier_is_exact,
    the_frontier_rises, there_is_a_frontier, there_is_a_round, what_an_event_leaves,
};
pub use premises::{apart_can_happen, formats_exist, geometries_are_shapes};
pub use recovery::{
    a_new_store_is_empty, an_image_gives_one_map, frames_tell_their_payload, given_pages_stay,
    named_pages_are_not_written, recovery_looks_at_the_pages_of_the_store,
    what_is_refused_of_a_frame, what_is_reset_is_not_named, what_was_there_at_open_stays,
};
pub use sets::{
    closed_sets_are_intact, crashes_leave_sets, every_move_keeps, needs_are_met_in_closed_sets,
    nothing_ready_is_nothing_waits, one_list_of_elements, rounds_are_closed,
};
pub use writeback::{
    a_flush_makes_the_next_image, an_issue_adds_one_write, two_rounds_make_all_persistent,
};
