//! Room: rules under which no store is ever stuck. Their definitions are in `specs`, and each function here has a law over
//! them as its contract and an empty body.
//!
//! In its laws `S` is a shape, and `J` how many extents may hold runs; `s`, `t` and `u` are states one after another, `a`, `b`, `d`
//! and `e` numbers of extents, and `n` numbers of extents that are wanted. `w` is a sweep, `c` a chunk, `r` a root. In those about
//! the machine `s` and `t` are states of it, `r` and `q` their rooms, `p` is a root of room, and `kept` says which of the issued
//! writes a crash keeps.
#![tactic(auto)]

mod brim;
mod examples;
mod gain;
mod keeping;
mod machine;
mod machine_brim;
mod newest;
mod room;
mod share;

pub use brim::{
    a_put_finds_room_up_to_the_brim, a_sure_sweep_gains, extents_are_left_at_the_brim,
    no_sweep_leaves_more_dead, sweeps_by_the_rule_end, sweeps_by_the_rule_make_room,
};
pub use examples::{
    a_new_store_keeps, formats_with_room_exist, how_much_may_live_beside_a_put,
    the_events_can_happen,
};
pub use gain::{no_sweep_takes_extents, one_sweep_may_gain, two_sweeps_gain};
pub use keeping::{every_event_keeps, what_lives_goes_on_living};
pub use machine::{
    a_crash_has_room, a_new_store_has_room, a_put_of_the_machine_finds_room,
    a_sweep_is_one_of_room, an_image_has_one_root, an_opening_keeps_room,
    each_event_is_one_of_room, no_store_is_ever_stuck, nothing_but_a_put_is_full,
};
pub use machine_brim::{
    a_put_of_the_machine_finds_room_up_to_the_brim, no_store_is_stuck_below_the_brim,
    the_rule_is_one_of_room,
};
pub use newest::{extents_are_reset_under_a_root, the_newest_root_stands};
pub use room::{there_is_room, what_needs_a_place_happens};
pub use share::{
    a_put_finds_its_extents, a_put_finds_room, a_sweep_can_be_made, chosen_sweeps_gain,
    pairs_of_sweeps_gain, two_sweeps_an_extent_are_enough,
};
