//! Where frames go on the device. Its pages are divided into extents: frames are appended to an extent, and an extent
//! is reset as a whole.
//!
//! Each frame that is appended is staged in the graph: its pages as plain writes, and then a version of the
//! superblock's section that records how many pages of the frame's extent are given.
#![tactic(auto)]

mod extent_laws;
mod extents;
mod kinds;
mod notes;
mod numbers;
mod places;
mod places_v2;
mod planned;
mod purposes;
mod recorded_extents;
mod staged_frames;

pub use extent_laws::{
    joining_adds_nothing_to_one_section, needs_never_fall, one_place, pages_are_given_once,
};
pub use extents::{Extents, LAST_GENERATION};
pub use kinds::Kind;
pub use purposes::Purpose;
pub use staged_frames::{ROOT, root_needs, section_family};
