//! How the bytes of a put are cut in chunks, and puts.
ghost use Rattle.std.specs.Prelude.{◌≡◌, ◌↔◌, ◌⊎◌, ◌+◌, ◌*◌, ◌^◌, ◌<◌, ◌≤◌, ℕ, List, [], IfErr, IfOk, IfSome, MatchBool, MatchOption, OnErr, OnOk, Err, length, map, sum, take};
ghost use Rattle.cs_chunk.specs.Cuts.{IsCut, IsOversized, frames_cut, pages_of};
ghost use Rattle.cs_chunk.specs.Puts.{ArePayloadsIn, ArePutIn, IsPutFull, IsPutSoFar, IsPutWorn, MayPut, PutFits, frames_in};
ghost use Rattle.cs_deps.specs.State.{IsWhole as IsWholeGraph};
ghost use Rattle.cs_extent.specs.Appended.{IsAppended, IsReady};
ghost use Rattle.cs_extent.specs.Frames.{IsWorn};
ghost use Rattle.cs_extent.specs.Places.{FitIn, GoesIn};
ghost use Rattle.cs_extent.specs.State.{IsWhole, shape};
ghost use Rattle.cs_extent.specs.Worn.{AreWorn};
ghost use Rattle.cs_frame.specs.Frames.{page_count};
ghost use Rattle.cs_frame.specs.Identifiers.{id_number};
ghost use Rattle.cs_frame.specs.Places.{HasPlaceFor};
ghost use Rattle.law_machine.specs.Append.{page_counts};
ghost use Rattle.law_machine.specs.Events.{Chunked};
ghost use Rattle.law_machine.specs.Extents.{ForPut};
ghost use Rattle.law_machine.specs.Pieces.{head_bytes_in};

use crate::cuts::{Cut, Origin};
use crate::even_pieces::{MOST_CHUNKS, piece_bytes};
use crate::reads::format_of;
use cs_deps::Graph;
use cs_extent::{Extents, Purpose};
use cs_frame::{ChunkHead, Locator, Places, ShardId, encode_chunk, frame_pages, head_bytes};
use cs_refusal::Refusal;
use std::alloc::{AllocError, Global};

/// The greatest piece of a shard in one chunk, in bytes.
fn chunk_bytes(extents: &Extents) -> usize
    ensures bytes { result ≡ (shape extents.now).chunk_bytes }
    ensures whole { IsWhole extents.now }
{
    extents.geometry().chunk_bytes()
}

/// The most bytes of a shard.
pub fn shard_bytes(extents: &Extents) -> usize
    ensures bytes { result ≡ (shape extents.now).most_chunks * (shape extents.now).chunk_bytes }
    ensures whole { IsWhole extents.now }
{
    MOST_CHUNKS * chunk_bytes(extents)
}

/// The size of the pieces of a shard of so many bytes, of all but the last.
fn piece_size(extents: &Extents, bytes: usize) -> usize
    requires { ¬ IsOversized (shape extents.now) bytes }
    ensures bytes { result ≡ (shape extents.now).piece_bytes bytes }
    ensures some { 1 ≤ result }
    ensures few { bytes ≤ 8 * result }
    ensures pages { page_count (head_bytes_in (shape extents.now).format + result) ≤ (shape extents.now).pages }
{
    piece_bytes(extents.geometry(), bytes)
}

impl Cut {
    /// How so many bytes are cut: in one piece at least, all but the last of one length. None if they are too many.
    ///
    /// A chunk has at most 4,096 bytes for each page of an extent, less 41 and less 34 for its head, and there are at
    /// most eight. Format 2 has no heads, and its pieces are as long as may be.
    pub fn of(extents: &Extents, bytes: usize) -> Option<Cut>
        ensures cut { MatchOption result (IsOversized (shape extents.now) bytes) (IsCut (shape extents.now) bytes) }
        ensures small { IfSome result (λ _. ¬ IsOversized (shape extents.now) bytes) }
        ensures pieces { IfSome result (λ cut. (xs : List ℕ) (pieces : List (List ℕ)) → length xs ≡ bytes
            → Chunked ((shape extents.now).piece_bytes bytes) xs pieces → length pieces ≡ cut.count) }
        ensures pages { IfSome result (λ cut. cut.pages ≤ (shape extents.now).pages) }
        ensures whole { IsWhole extents.now }
    {
        if shard_bytes(extents) < bytes {
            return None;
        }
        let size = piece_size(extents, bytes);
        let count = bytes.div_ceil(size).max(1);
        let head = head_bytes(format_of(extents));
        Some(Cut {
            size,
            count,
            pages: frame_pages(head + size),
            last: frame_pages(head + (bytes - (count - 1) * size)),
        })
    }

    /// How many chunks there are.
    pub fn count(self) -> usize
        ensures count { result ≡ self.count }
        ensures few { (1 ≤ result) × (result ≤ 8) }
    {
        self.count
    }

    /// How many pages the frames of all chunks have together.
    pub fn all_pages(self) -> usize
        ensures sum { result ≡ sum (pages_of self) }
        ensures small { result ≤ 524280 }
    {
        (self.count - 1) * self.pages + self.last
    }

    /// The pages of each frame, for as many as there are chunks.
    fn frames(self) -> [usize; 8]
        ensures { take self.count result ≡ pages_of self }
    {
        let mut frames = [self.pages; MOST_CHUNKS];
        frames[self.count - 1] = self.last;
        frames
    }

    /// Refuses a put before memory is asked for.
    fn may_put(self, extents: &Extents, graph: &Graph) -> Result<(), Refusal>
        requires pages { self.pages ≤ (shape extents.now).pages }
        requires ready { IsReady extents.now graph.now.staging }
        ensures full { (result ≡ Err Refusal.Full) ↔ ¬ FitIn extents.now ForPut (pages_of self) }
        ensures fits { OnOk result (FitIn extents.now ForPut (pages_of self)) }
        ensures worn { (result ≡ Err Refusal.WornOut) ↔ (FitIn extents.now ForPut (pages_of self) × AreWorn extents.now graph.now.staging ForPut (pages_of self)) }
        ensures refusals { IfErr result (λ r. (r ≡ Refusal.Full) ⊎ (r ≡ Refusal.WornOut)) }
    {
        extents.may_append(graph, &self.frames()[..self.count], Purpose::Put)
    }

    /// Whether the chunks find places for a put: if not, `put` refuses it with 30 `Full`. It is the same for any bytes
    /// that are cut so, any identifier and command. Takes no memory.
    pub fn fits(self, extents: &Extents) -> bool
        requires { self.pages ≤ (shape extents.now).pages }
        ensures { (bytes : List ℕ) (id command : ℕ) → IsCut (shape extents.now) (length bytes) self
            → MatchBool result (PutFits extents.now id command bytes) (IsPutFull extents.now id command bytes) }
    {
        // Called for its contract alone: what all extents keep.
        extents.extent_count();
        extents.fits(&self.frames()[..self.count], Purpose::Put)
    }

    /// Appends a chunk's frame of each piece of the bytes. The head after a piece says the identifier, the chunk's
    /// number, how many there are, the number of the command, and the store. Format 2 has no heads. Returns where the
    /// frames begin, in order.
    ///
    /// 30 `Full` if the frames find no places, 35 `WornOut` if a number would pass 2^63 - 1. Memory is asked for last,
    /// for the pages of all frames: 9 `OutOfMemory`. After a refusal nothing is staged.
    pub fn put(
        self,
        alloc: Global,
        extents: &mut Extents,
        graph: &mut Graph,
        origin: Origin,
        bytes: &[u8],
    ) -> Result<Places, Refusal>
        requires cut { IsCut (shape extents.old) (length bytes.now) self }
        requires ready { IsReady extents.old graph.old.staging }

        // The frames of the chunks are appended, and read back.
        ensures chunks { IfOk result (λ ls. (cs : List (List ℕ)) × ArePayloadsIn extents.old (id_number origin.id) origin.command bytes.now cs
            × ArePutIn extents.old graph.old cs ls.items extents.new graph.new) }
        ensures few { IfOk result (λ ls. (1 ≤ length ls.items) × (length ls.items ≤ 8)) }
        ensures shape { shape extents.new ≡ shape extents.old }

        ensures full { (result ≡ Err Refusal.Full) ↔ IsPutFull extents.old (id_number origin.id) origin.command bytes.now }
        ensures worn { (result ≡ Err Refusal.WornOut) ↔ IsPutWorn extents.old graph.old.staging (id_number origin.id) origin.command bytes.now }
        ensures refusals { IfErr result (λ r. (r ≡ Refusal.Full) ⊎ (r ≡ Refusal.WornOut) ⊎ (r ≡ Refusal.OutOfMemory)) }
        ensures refused { OnErr result (extents.new ≡ extents.old) }
        ensures unstaged { OnErr result (graph.new ≡ record graph.old { room = graph.new.room }) }

        // Whatever the answer, the next append may be made.
        ensures ready { IsReady extents.new graph.new.staging }

        // What is used up of the room: one staging a page, and one a frame.
        ensures kept { OnErr result (graph.old.room ≤ graph.new.room) }
        ensures room { (cs : List (List ℕ)) → ArePayloadsIn extents.old (id_number origin.id) origin.command bytes.now cs
            → graph.old.room ≤ graph.new.room + (length cs + sum (page_counts (frames_in extents.old cs))) }
    {
        // Called for its contract alone: what all extents keep.
        extents.extent_count();
        match self.may_put(extents, graph) {
            Ok(()) => {}
            Err(refusal) => return Err(refusal),
        }
        match prepare(alloc, extents, graph, origin, bytes, self) {
            Ok((frames, mut places)) => {
                append_all(extents, graph, &frames, &mut places);
                Ok(places)
            }
            Err(_) => Err(Refusal::OutOfMemory),
        }
    }
}

/// The frames of the chunks of a put that is this command: the pieces are cut off the bytes one after another, and each
/// goes before its head, if the format has heads.
fn encode_chunks(
    alloc: Global,
    extents: &Extents,
    origin: Origin,
    bytes: &[u8],
    cut: Cut,
) -> Result<Vec<Vec<[u8; 4096]>>, AllocError>
    requires { cut.size < 2 ^ 31 }
    ensures { IfOk result (λ frames. map (λ f. f.items) frames.items ≡ frames_cut (shape extents.now) cut (id_number origin.id) origin.command bytes.now) }
{
    let format = format_of(extents);
    let mut frames = Vec::with_capacity(alloc, cut.count)?;
    let mut rest = bytes;
    for number in 0..cut.count {
        let (piece, behind) = rest.split_at(cut.size.min(rest.len()));
        let head = ChunkHead {
            id: origin.id,
            number: number as u8,
            count: cut.count as u8,
            command: origin.command,
        };
        frames.push(encode_chunk(alloc, format, head, piece)?)?;
        rest = behind;
    }
    Ok(frames)
}

/// Appends a frame, which nothing refuses.
fn append_one(extents: &mut Extents, graph: &mut Graph, frame: &[[u8; 4096]]) -> Locator
    requires ready { IsReady extents.old graph.old.staging }
    requires pages { (1 ≤ length frame.now) × (length frame.now ≤ (shape extents.old).pages) }
    requires place { (e : ℕ) × GoesIn extents.old ForPut (length frame.now) e }
    requires numbers { (e : ℕ) → GoesIn extents.old ForPut (length frame.now) e → ¬ IsWorn graph.old.staging ((shape extents.old).section e) (length frame.now) }
    requires room { length frame.now + 1 ≤ graph.old.room }
    ensures appended { IsAppended extents.old graph.old ForPut frame.now result extents.new graph.new }
    ensures whole { IsWholeGraph graph.new }
    ensures ready { IsReady extents.new graph.new.staging }
    ensures room { graph.old.room ≤ graph.new.room + (length frame.now + 1) }
{
    match extents.append(graph, frame, Purpose::Put) {
        Ok((place, _)) => {
            // Called for its contract alone: what every graph keeps.
            graph.families();
            place
        }
        Err(_) => unreachable!(),
    }
}

/// Appends frames, one after another, none of which is refused.
fn append_all(
    extents: &mut Extents,
    graph: &mut Graph,
    frames: &[Vec<[u8; 4096]>],
    places: &mut Places,
)
    requires may { MayPut extents.old graph.old (map (λ f. f.items) frames.now) }
    requires none { places.old.items ≡ [] }
    requires room { HasPlaceFor places.old (length frames.now) }
    ensures { IsPutSoFar extents.old graph.old (map (λ f. f.items) frames.now) [] places.new.items extents.new graph.new }
{
    for k in 0..frames.len() {
        let place = append_one(extents, graph, &frames[k]);
        places.push_reserved(place);
    }
}

/// The frames of the chunks, a place for each of their locators, and room for them in the graph.
fn prepare(
    alloc: Global,
    extents: &Extents,
    graph: &mut Graph,
    origin: Origin,
    bytes: &[u8],
    cut: Cut,
) -> Result<(Vec<Vec<[u8; 4096]>>, Places), AllocError>
    requires { cut.size < 2 ^ 31 }
    ensures frames { IfOk result (λ made. map (λ f. f.items) made.0.items ≡ frames_cut (shape extents.now) cut (id_number origin.id) origin.command bytes.now) }
    ensures places { IfOk result (λ made. made.1.items ≡ []) }
    ensures capacity { IfOk result (λ made. HasPlaceFor made.1 cut.count) }
    ensures room { OnOk result (cut.count + sum (pages_of cut) ≤ graph.new.room) }
    ensures kept { graph.old.room ≤ graph.new.room }
    ensures rest { graph.new ≡ record graph.old { room = graph.new.room } }
{
    let frames = encode_chunks(alloc, extents, origin, bytes, cut)?;
    let places = Places::with_room(alloc, cut.count)?;
    extents.reserve(graph, cut.count, cut.all_pages())?;
    Ok((frames, places))
}

/// Cuts the bytes that a command puts in pieces by `Cut::of`, and puts them by `Cut::put`, which has the refusals but
/// for 31 `TooLarge`, of bytes that are too many.
pub fn put_chunks(
    alloc: Global,
    extents: &mut Extents,
    graph: &mut Graph,
    id: ShardId,
    command: u64,
    bytes: &[u8],
) -> Result<Places, Refusal>
    requires ready { IsReady extents.old graph.old.staging }

    // The frames of the chunks are appended, and read back.
    ensures chunks { IfOk result (λ ls. (cs : List (List ℕ)) × ArePayloadsIn extents.old (id_number id) command bytes.now cs
        × ArePutIn extents.old graph.old cs ls.items extents.new graph.new) }
    ensures few { IfOk result (λ ls. (1 ≤ length ls.items) × (length ls.items ≤ 8)) }
    ensures shape { shape extents.new ≡ shape extents.old }

    ensures too_large { (result ≡ Err Refusal.TooLarge) ↔ IsOversized (shape extents.old) (length bytes.now) }
    ensures full { (result ≡ Err Refusal.Full) ↔ (¬ IsOversized (shape extents.old) (length bytes.now) × IsPutFull extents.old (id_number id) command bytes.now) }
    ensures worn { (result ≡ Err Refusal.WornOut) ↔ (¬ IsOversized (shape extents.old) (length bytes.now)
        × IsPutWorn extents.old graph.old.staging (id_number id) command bytes.now) }
    ensures refusals { IfErr result (λ r. (r ≡ Refusal.TooLarge) ⊎ (r ≡ Refusal.Full) ⊎ (r ≡ Refusal.WornOut) ⊎ (r ≡ Refusal.OutOfMemory)) }
    ensures refused { OnErr result (extents.new ≡ extents.old) }
    ensures unstaged { OnErr result (graph.new ≡ record graph.old { room = graph.new.room }) }

    // Whatever the answer, the next append may be made.
    ensures ready { IsReady extents.new graph.new.staging }

    // What is used up of the room: one staging a page, and one a frame.
    ensures kept { OnErr result (graph.old.room ≤ graph.new.room) }
    ensures room { (cs : List (List ℕ)) → ArePayloadsIn extents.old (id_number id) command bytes.now cs
        → graph.old.room ≤ graph.new.room + (length cs + sum (page_counts (frames_in extents.old cs))) }
{
    match Cut::of(extents, bytes.len()) {
        Some(cut) => cut.put(alloc, extents, graph, Origin { id, command }, bytes),
        None => Err(Refusal::TooLarge),
    }
}
