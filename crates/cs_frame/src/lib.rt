//! The formats on the device: superblock, root, frames of chunks and runs of the index.
//!
//! Numbers are spelled high byte first. A value can be spelled in one way alone, so a decoder reads the encoder's
//! pages and no others. It makes its tests in a stated order and answers the fault of the first that fails.
#![tactic(auto)]

mod faults;
mod format_laws;
mod format_runs;
mod formats;
mod frames;
mod geometries;
mod heads;
mod identifiers;
mod identities;
mod locators;
mod page_zero;
mod pages;
mod roots;
mod run_frames;
mod superblocks;

pub use faults::{FormatFault, refusal_of_fault};
pub use format_laws::{
    first_format_has_one_spelling, formats_are_apart, frame_has_one_spelling,
    frame_is_read_by_its_header, frames_fit_on_an_extent, heads_tell_chunks, marks_tell_digests,
    page_zero_has_one_spelling, records_fit, root_has_one_spelling, run_has_one_spelling,
    runs_have_sizes, runs_take_what_they_weigh, sections_have_all_extents, sections_tell_pointers,
    superblock_has_one_spelling, these_formats_are_formats, torn_pages_are_apart,
};
pub use format_runs::{decode_run, encode_run, run_size};
pub use formats::{Format, FormatNumber, entry_weight, head_bytes, record_in, weight_bytes};
pub use frames::{
    FrameHeader, FrameKind, ReadFrame, decode_frame, decode_frame_header, decode_meant_header,
    encode_frame, frame_mark, frame_pages, read_frame_in,
};
pub use geometries::{
    GREATEST_SECTION_EXTENTS, GREATEST_SUPERBLOCK_EXTENTS, Geometry, LEAST_PAGES, file_pages,
};
pub use heads::{ChunkHead, FoundHead, chunk_body, decode_head, encode_chunk, encode_head};
pub use identifiers::ShardId;
pub use identities::StoreId;
pub use locators::{Locator, Places};
pub use page_zero::decode_superblock;
pub use roots::{Root, decode_root, encode_root};
pub use run_frames::{GREATEST_CHUNKS, Run, run_bytes};
pub use superblocks::{Superblock, decode_section, encode_section, encode_superblock};
