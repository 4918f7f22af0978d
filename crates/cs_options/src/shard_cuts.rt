//! How a shard is cut in a new store.
ghost use Rattle.std.specs.Prelude.{◌≡◌, ◌*◌, ◌-◌, ◌^◌, ◌<◌, ◌≤◌};
ghost use Rattle.law_machine.specs.Pieces.{chunk_bytes_in, chunk_pages, fewest, is_cheap, is_small, pages_cut, share, wanted};
ghost use Rattle.cs_options.specs.SureRooms.{chunk_count, longest_chunk, new_format, piece_size, shard_pages};
ghost use Rattle.cs_options.specs.Wishes.{piece_bytes};

/// The most chunks of a shard.
pub(crate) const MOST_CHUNKS: u64 = 8;

/// The bytes of an extent that no piece of a shard has: the header of a frame and the head of a chunk.
pub(crate) const CHUNK_OVERHEAD: u64 = 75;

/// How a shard is cut, if an extent has so many pages.
#[derive(Clone, Copy)]
pub(crate) struct Cut {
    /// How many chunks it has.
    pub(crate) chunks: u64,
    /// The pages of the longest chunk.
    pub(crate) longest: u64,
    /// The pages of all chunks.
    pub(crate) all: u64,
}

/// The least number of which so many together are as many as all, and 1 at least.
fn share(all: u64, count: u64) -> u64
    requires { 1 ≤ count }
    ensures { result ≡ share all count }
{
    all.div_ceil(count).max(1)
}

/// The pages of a chunk with so many bytes of a shard.
fn chunk_pages(piece: u64) -> u64
    requires { piece < 2 ^ 31 }
    ensures pages { result ≡ chunk_pages new_format piece }
    ensures few { result ≤ 2 ^ 20 }
    ensures some { 1 ≤ result }
{
    (piece + CHUNK_OVERHEAD).div_ceil(4096)
}

/// The pages of all chunks, if there are so many, and each but the last has so many bytes.
fn pages_cut(bytes: u64, size: u64, count: u64) -> u64
    requires bytes { bytes < 2 ^ 31 }
    requires size { size < 2 ^ 31 }
    requires count { (1 ≤ count) × (count ≤ 8) }
    ensures pages { result ≡ pages_cut new_format bytes size count }
    ensures few { result ≤ 2 ^ 23 }
    ensures some { 1 ≤ result }
{
    let full = count - 1;
    full * chunk_pages(size) + chunk_pages(bytes.saturating_sub(full * size))
}

/// Whether so many pieces of one length have chunks of an eighth of an extent's pages at most, or of one page.
fn is_small(bytes: u64, pages: u64, count: u64) -> bool
    requires bytes { bytes < 2 ^ 31 }
    requires count { 1 ≤ count }
    ensures { result ≡ is_small new_format pages bytes count }
{
    chunk_pages(share(bytes, count)) <= (pages / 8).max(1)
}

/// Whether so many pieces of one length have at most a sixteenth more pages than the fewest pieces, which have these.
fn is_cheap(bytes: u64, pages: u64, fewest_pages: u64, count: u64) -> bool
    requires bytes { bytes < 2 ^ 31 }
    requires fewest_pages { fewest_pages ≡ pages_cut new_format bytes (chunk_bytes_in new_format pages) (fewest new_format pages bytes) }
    requires few { fewest_pages ≤ 2 ^ 23 }
    requires count { (1 ≤ count) × (count ≤ 8) }
    ensures { result ≡ is_cheap new_format pages bytes count }
{
    16 * pages_cut(bytes, share(bytes, count), count) <= 17 * fewest_pages
}

/// The least number of pieces, from the fewest on, that is small; else 8.
fn wanted(bytes: u64, pages: u64, first: u64) -> u64
    requires pages { (2 ≤ pages) × (pages ≤ 65535) }
    requires bytes { bytes ≤ 8 * piece_bytes pages }
    requires first { first ≡ fewest new_format pages bytes }
    ensures value { result ≡ wanted new_format pages bytes }
    ensures fewest { first ≤ result }
    ensures few { result ≤ 8 }
{
    for count in first..MOST_CHUNKS {
        if is_small(bytes, pages, count) {
            return count;
        }
    }
    MOST_CHUNKS
}

/// The bytes of each piece but the last.
fn piece_size(bytes: u64, pages: u64) -> u64
    requires pages { (2 ≤ pages) × (pages ≤ 65535) }
    requires bytes { bytes ≤ 8 * piece_bytes pages }
    ensures { result ≡ piece_size bytes pages }
{
    let most = 4096 * pages - CHUNK_OVERHEAD;
    let first = share(bytes, most);
    let fewest_pages = pages_cut(bytes, most, first);
    let last = wanted(bytes, pages, first);
    for fewer in 0..last - first + 1 {
        if is_cheap(bytes, pages, fewest_pages, last - fewer) {
            return share(bytes, last - fewer);
        }
    }
    most
}

impl Cut {
    /// How a shard of so many bytes is cut, if an extent has so many pages.
    pub(crate) fn of(bytes: u64, pages: u64) -> Cut
        requires pages { (2 ≤ pages) × (pages ≤ 65535) }
        requires bytes { bytes ≤ 8 * piece_bytes pages }
        ensures chunks { result.chunks ≡ chunk_count bytes pages }
        ensures longest { result.longest ≡ longest_chunk bytes pages }
        ensures all { result.all ≡ shard_pages bytes pages }
        ensures few { (1 ≤ result.chunks) × (result.chunks ≤ 8) }
        ensures fits { (1 ≤ result.longest) × (result.longest ≤ pages) }
        ensures some { (1 ≤ result.all) × (result.all ≤ 2 ^ 23) }
    {
        let size = piece_size(bytes, pages);
        let chunks = share(bytes, size);
        Cut {
            chunks,
            longest: chunk_pages(size),
            all: pages_cut(bytes, size, chunks),
        }
    }
}
