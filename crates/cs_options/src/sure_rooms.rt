//! How many pages of a new store are sure to hold shards.
ghost use Rattle.std.specs.Prelude.{◌≡◌, ◌*◌, ◌<◌, ◌≤◌, ℕ, MatchOption};
ghost use Rattle.cs_options.specs.SureRooms.{Takes, full_extents, largest_shard, put_extents, sure_bytes, sure_room};
ghost use Rattle.cs_options.specs.Wishes.{piece_bytes};

use crate::shard_cuts::{CHUNK_OVERHEAD, Cut, MOST_CHUNKS};
use cs_frame::Geometry;

/// The bytes of an extent that no entry of the index has: the header of a frame, the front of the store's identity and
/// the count of a run.
pub(crate) const RUN_OVERHEAD: u64 = 53;

/// The bytes of an entry of the index without the places of its chunks.
const ENTRY: u64 = 17;

/// The bytes of the place of a chunk.
const PLACE: u64 = 16;

/// How many extents puts may use.
pub(crate) fn put_extents(extents: u64) -> u64
    ensures { result ≡ put_extents extents }
{
    let run_extents = if extents >= 16 { 2 } else { 1 };
    extents.saturating_sub(run_extents + 2)
}

/// A new store surely takes each shard that is no longer than so many extents hold. Cut evenly, such a shard takes
/// twice as many extents at most, and 8 at most.
pub(crate) fn full_extents(extents: u64) -> u64
    ensures { result ≡ full_extents extents }
{
    let extents = put_extents(extents);
    if extents >= 8 { 8 } else { extents / 2 }
}

/// The bytes of the longest shard that a new store of this geometry takes for sure, as it takes each shorter one.
pub fn largest_shard(geometry: Geometry) -> u64
    ensures value { result ≡ largest_shard geometry.extents geometry.pages }
    ensures takes { 5 ≤ geometry.extents → (bytes : ℕ) → bytes ≤ result → Takes 1 bytes geometry.extents geometry.pages }
{
    full_extents(u64::from(geometry.extents()))
        * (4096 * u64::from(geometry.pages()) - CHUNK_OVERHEAD)
}

/// How many pages of so many extents of so many pages are sure to hold shards of so many bytes.
pub(crate) fn sure_room(shard_size: u64, extents: u64, pages: u64) -> u64
    requires shard_size { shard_size ≤ 8 * piece_bytes pages }
    requires extents { extents ≤ 65535 }
    requires pages { (2 ≤ pages) × (pages ≤ 65535) }
    ensures { result ≡ sure_room shard_size extents pages }
{
    let cut = Cut::of(shard_size, pages);
    let named = (4096 * pages - RUN_OVERHEAD) / (ENTRY + PLACE * cut.chunks);
    (put_extents(extents) * (pages + 1 - cut.longest)).min(named * cut.all)
}

/// The same of a geometry.
pub(crate) fn room_of(geometry: Geometry, shard_size: u64) -> u64
    requires { shard_size ≤ 8 * piece_bytes geometry.pages }
    ensures { result ≡ sure_room shard_size geometry.extents geometry.pages }
{
    sure_room(
        shard_size,
        u64::from(geometry.extents()),
        u64::from(geometry.pages()),
    )
}

/// How many bytes a new store of this geometry is sure to hold in shards of this size. It returns None if a shard of
/// this size is too long for it.
pub fn sure_bytes(geometry: Geometry, shard_size: u64) -> Option<u64>
    ensures { MatchOption result (8 * piece_bytes geometry.pages < shard_size) (λ bytes. bytes ≡ sure_bytes shard_size geometry.extents geometry.pages) }
{
    let pages = u64::from(geometry.pages());
    if shard_size > MOST_CHUNKS * (4096 * pages - CHUNK_OVERHEAD) {
        return None;
    }
    let cut = Cut::of(shard_size, pages);
    Some(room_of(geometry, shard_size) / cut.all * shard_size)
}
