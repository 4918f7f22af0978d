//! Room in cores: what is proved of room in the machine is so of the formats that are written, of what is read of an
//! image, of cores, and of what drives them: rounds, syncs, sweeps and the typed store. Each function here has a law as
//! its contract and an empty body.
//!
//! In its laws `v` and `w` are cores one after another, `x` is extents, `S` a shape.
#![tactic(auto)]

mod cores;
mod drives;
mod formats;
mod lives;
mod room_by_reclaims;
mod room_for_puts;
mod room_of_stores;
mod room_to_the_brim;

pub use cores::{
    a_new_core_has_room, nothing_but_a_put_is_refused_full, room_stays,
    what_a_crash_leaves_has_room,
};
pub use drives::{
    a_sweep_is_never_refused_full, a_sync_is_never_refused_full, calls_keep_cores_roomy,
    crashes_leave_images_that_open_with_room, no_history_tells_of_want_of_room,
    only_puts_are_refused_full, some_cores_are_roomy,
};
pub use formats::formats_have_room;
pub use lives::{each_store_has_a_geometry, no_core_is_ever_stuck};
pub use room_by_reclaims::{no_more_lives_than_is_counted, reclaims_leave_room_for_puts};
pub use room_for_puts::{a_put_of_a_core_finds_room, how_many_extents_a_put_fills};
pub use room_of_stores::{
    a_put_of_a_store_finds_room, calls_keep_stores_roomy,
    nothing_but_a_put_of_a_store_is_refused_full,
};
pub use room_to_the_brim::a_put_finds_room_to_the_brim;
