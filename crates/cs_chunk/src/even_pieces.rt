//! How long the pieces of a shard are.
//!
//! In format 4 a shard is cut evenly. 1 MiB on extents of 256 pages is cut in 8 pieces of 131,072 bytes, and each of
//! their chunks has 33 pages. The pieces are as many as it takes for chunks of an eighth of an extent, and 8 at most.
//! If their pages together are more than a sixteenth above those of the fewest pieces, there are fewer.
ghost use Rattle.std.specs.Prelude.{◌≡◌, ◌*◌, ◌^◌, ◌<◌, ◌≤◌};
ghost use Rattle.law_machine.specs.Pieces.{chunk_bytes_in, eighth, even_bytes, fewest, is_cheap, pages_cut, piece_bytes_in, share};

use cs_frame::{Format, Geometry, frame_pages, head_bytes};

/// The most chunks of a shard.
pub(crate) const MOST_CHUNKS: usize = 8;

/// The least number of which so many together are as many as all, and 1 at least.
fn share(all: usize, count: usize) -> usize
    requires { 1 ≤ count }
    ensures { result ≡ share all count }
{
    all.div_ceil(count).max(1)
}

/// The greatest piece in a chunk that has an eighth of an extent's pages, or one page, in bytes.
fn small_bytes(geometry: Geometry) -> usize
    ensures bytes { result ≡ chunk_bytes_in geometry.format (eighth geometry.pages) }
    ensures some { 1 ≤ result }
    ensures small { result ≤ chunk_bytes_in geometry.format geometry.pages }
{
    let pages = usize::from(geometry.pages() / 8).max(1);
    4096 * pages - 41 - head_bytes(geometry.format())
}

/// The pages of all chunks, if there are so many, and each but the last has so many bytes.
fn pages_cut(format: Format, bytes: usize, size: usize, count: usize) -> usize
    requires bytes { bytes < 2 ^ 31 }
    requires size { size < 2 ^ 31 }
    requires count { (1 ≤ count) × (count ≤ 8) }
    ensures pages { result ≡ pages_cut format bytes size count }
    ensures small { result < 2 ^ 31 }
{
    let head = head_bytes(format);
    let full = count - 1;
    full * frame_pages(head + size) + frame_pages(head + bytes.saturating_sub(full * size))
}

/// Whether so many pieces of one length have at most a sixteenth more pages than the fewest pieces, which have these.
fn is_cheap(geometry: Geometry, bytes: usize, pages: usize, count: usize) -> bool
    requires bytes { bytes ≤ 8 * chunk_bytes_in geometry.format geometry.pages }
    requires pages { pages ≡ pages_cut geometry.format bytes (chunk_bytes_in geometry.format geometry.pages) (fewest geometry.format geometry.pages bytes) }
    requires few { pages < 2 ^ 31 }
    requires count { (1 ≤ count) × (count ≤ 8) }
    ensures { result ≡ is_cheap geometry.format geometry.pages bytes count }
{
    let format = geometry.format();
    16 * pages_cut(format, bytes, share(bytes, count), count) <= 17 * pages
}

/// The length of the pieces if one chunk would have more than an eighth of an extent's pages.
fn even_bytes(geometry: Geometry, bytes: usize) -> usize
    requires { bytes ≤ 8 * chunk_bytes_in geometry.format geometry.pages }
    ensures { result ≡ even_bytes geometry.format geometry.pages bytes }
{
    let most = geometry.chunk_bytes();
    let fewest = share(bytes, most);
    let wanted = share(bytes, small_bytes(geometry)).min(MOST_CHUNKS);
    let pages = pages_cut(geometry.format(), bytes, most, fewest);
    for fewer in 0..wanted - fewest + 1 {
        let count = wanted - fewer;
        if is_cheap(geometry, bytes, pages, count) {
            return share(bytes, count);
        }
    }
    most
}

/// How many bytes each piece of a shard but the last has, if the shard has so many. In format 2 a piece is as long as
/// may be.
pub(crate) fn piece_bytes(geometry: Geometry, bytes: usize) -> usize
    requires { bytes ≤ 8 * chunk_bytes_in geometry.format geometry.pages }
    ensures { result ≡ piece_bytes_in geometry.format geometry.pages bytes }
{
    if !geometry.format().cuts_evenly() {
        geometry.chunk_bytes()
    } else if bytes <= small_bytes(geometry) {
        // The common case: one chunk is small enough.
        bytes.max(1)
    } else {
        even_bytes(geometry, bytes)
    }
}
