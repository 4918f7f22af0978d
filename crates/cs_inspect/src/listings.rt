//! The identifiers and the chunks of the shards that are there.
ghost use Rattle.std.specs.Prelude.{◌≡◌, ◌≢◌, ◌++◌, ◌∷◌, IfOk, OnOk, [], MatchBool, length, map, MatchOption};
ghost use Rattle.cs_index.specs.State.{IsId, id_number, index_of};
ghost use Rattle.law_machine.specs.Index.{live_at, FirstLive, NothingLive};
ghost use Rattle.cs_inspect.specs.Listings.{AreAll, AreFirst};
ghost use Rattle.cs_frame.specs.Formats.{place_of};
ghost use Rattle.cs_index.specs.Live.{IsFirstOn, NoneOn};
ghost use Rattle.cs_inspect.specs.Chunks.{AreLiveChunks, chunk_of, chunks_from};

use cs_frame::{Locator, ShardId};
use cs_index::{Index, LiveChunk};
use std::alloc::{AllocError, Global};

/// The identifiers of the first so many shards that are there, from one on, by rising bytes. Takes memory for them, and
/// time for their entries and the deletions between them.
pub fn ids_from(
    alloc: Global,
    index: &Index,
    from: ShardId,
    most: usize,
) -> Result<Vec<ShardId>, AllocError>
    ensures { IfOk result (λ ids. AreFirst (λ id. live_at (index_of index.now) id ≢ []) (id_number from) most (map id_number ids.items)) }
{
    let mut ids = Vec::new(alloc);
    if most == 0 {
        return Ok(ids);
    }
    add_if(&mut ids, from, index.is_live(from))?;
    let mut read = index.entries_behind(from);
    while ids.len() < most {
        match read.next_entry() {
            None => return Ok(ids),
            Some((id, places)) => add_if(&mut ids, id, !places.is_empty())?,
        }
    }
    Ok(ids)
}

/// The identifiers of all shards that are there, by rising bytes. Takes memory for them, and time for all entries.
pub fn ids(alloc: Global, index: &Index) -> Result<Vec<ShardId>, AllocError>
    ensures { IfOk result (λ ids. AreAll (λ id. live_at (index_of index.now) id ≢ []) (map id_number ids.items)) }
{
    ids_from(alloc, index, ShardId([0; 16]), usize::MAX)
}

/// Adds an identifier behind the others, where it is wanted.
fn add_if(ids: &mut Vec<ShardId>, id: ShardId, wanted: bool) -> Result<(), AllocError>
    ensures ids { OnOk result (MatchBool wanted (map id_number ids.new.items ≡ map id_number ids.old.items ++ id_number id ∷ []) (map id_number ids.new.items ≡ map id_number ids.old.items)) }
    ensures id { IsId id }
{
    let _bytes = id.bytes();
    if wanted {
        ids.push(id)?;
    }
    Ok(())
}

/// All chunks of all shards that are there, by rising identifiers, and those of a shard in their order. Takes memory
/// for all of them, and time for all entries of the index.
pub fn live_chunks(alloc: Global, index: &Index) -> Result<Vec<LiveChunk>, AllocError>
    ensures { IfOk result (λ chunks. AreLiveChunks (index_of index.now) (map chunk_of chunks.items)) }
{
    let mut chunks = Vec::new(alloc);
    let mut read = index.entries();
    while let Some((id, places)) = read.next_entry() {
        add_chunks(&mut chunks, id, places)?;
    }
    Ok(chunks)
}

/// Adds the chunks of a shard behind the others.
fn add_chunks(
    chunks: &mut Vec<LiveChunk>,
    id: ShardId,
    places: &[Locator],
) -> Result<(), AllocError>
    ensures chunks { OnOk result (map chunk_of chunks.new.items ≡ map chunk_of chunks.old.items ++ chunks_from (id_number id) 0 (map place_of places.now)) }
    ensures id { IsId id }
{
    let _bytes = id.bytes();
    for chunk in 0..places.len() {
        let place = places[chunk];
        chunks.push(LiveChunk { id, chunk, place })?;
    }
    Ok(())
}

/// The first chunk that lives on an extent, by identifier and then by number, None where none lives there. Takes no
/// memory, and time for the entries up to it.
pub fn first_on(index: &Index, extent: usize) -> Option<LiveChunk>
    ensures { MatchOption result (NothingLive (index_of index.now) extent) (λ found. FirstLive (index_of index.now) extent (id_number found.id) found.chunk (place_of found.place)) }
{
    let mut read = index.entries();
    while let Some((id, places)) = read.next_entry() {
        let _bytes = id.bytes();
        if let Some(chunk) = place_on(places, extent) {
            let place = places[chunk];
            return Some(LiveChunk { id, chunk, place });
        }
    }
    None
}

/// The first of these places that is on the extent.
fn place_on(places: &[Locator], extent: usize) -> Option<usize>
    ensures { MatchOption result (NoneOn (map place_of places.now) extent) (IsFirstOn (map place_of places.now) extent) }
{
    for k in 0..places.len() {
        if usize::from(places[k].extent) == extent {
            return Some(k);
        }
    }
    None
}
