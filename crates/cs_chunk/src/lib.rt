//! Shards as chunks: the bytes of a put are cut in chunks, each of which is a frame on the extents, and read back by
//! the places of these frames.
#![tactic(auto)]

mod chunk_laws;
mod chunk_puts;
mod cuts;
mod even_pieces;
mod reads;

pub use chunk_laws::{pages_have_one_newest, places_tell_digests, what_was_put_stays};
pub use chunk_puts::{put_chunks, shard_bytes};
pub use cuts::{Cut, Origin};
pub use reads::{frame_at, read_chunks, read_frame, read_length, read_lengths, waiting_length};
