//! The room that a store has for chunks, and what is in it.
ghost use Rattle.std.specs.Prelude.{◌≡◌, ◌*◌, ◌≤◌, max, min};

/// The room for chunks of a store in which no extent holds both chunks and runs, as in all formats but 1 and 2.
#[derive(Clone, Copy)]
pub struct ChunkRoom {
    /// How many extents may hold chunks.
    pub extents: usize,
    /// How many pages each of them has.
    pub pages: usize,
    /// How many they have together.
    pub all: usize,
    /// How many of these live: the pages of the chunks that live, as their headers count them.
    pub live: usize,
    /// How many pages the greatest chunk has that lives, or 1 if none lives.
    pub greatest: usize,
    /// How many identifiers of one chunk the index has room for still.
    pub identifiers: usize,
    ghost few: { extents ≤ 7680 },
    ghost short: { pages ≤ 65535 },
    ghost product: { all ≡ extents * pages },
    ghost within: { live ≤ all },
    ghost least: { 1 ≤ greatest },
    ghost fits: { greatest ≤ pages },
}

impl ChunkRoom {
    /// The room of so many extents of so many pages, of which so many live. If damaged headers count more pages than
    /// there are, all live, and the greatest chunk has as many as an extent.
    pub fn new(
        extents: usize,
        pages: usize,
        live: usize,
        greatest: usize,
        identifiers: usize,
    ) -> Self
        requires few { extents ≤ 7680 }
        requires some { 1 ≤ pages }
        requires short { pages ≤ 65535 }
        ensures extents { result.extents ≡ extents }
        ensures pages { result.pages ≡ pages }
        ensures small { result.extents * result.pages ≤ 503308800 }
        ensures live { result.live ≡ min live (result.extents * result.pages) }
        ensures greatest { result.greatest ≡ max 1 (min greatest result.pages) }
        ensures identifiers { result.identifiers ≡ identifiers }
    {
        let all = extents * pages;
        ChunkRoom {
            extents,
            pages,
            all,
            live: live.min(all),
            greatest: greatest.min(pages).max(1),
            identifiers,
        }
    }
}
