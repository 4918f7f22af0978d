//! What lives on an extent: the first chunk of all, and the first behind one that was found.
ghost use Rattle.std.specs.Prelude.{◌≡◌, ◌⊎◌, ◌<◌, ◌↔◌, IfSome, IsTrue, MatchBool, MatchOption, None, map, option_map};
ghost use Rattle.cs_frame.specs.Formats.{place_of};
ghost use Rattle.cs_index.specs.Live.{FirstAfter, IsFirstOn, IsFirstOnBehind, NoneAfter, NoneOn, NoneOnBehind, NoneUpTo};
ghost use Rattle.cs_index.specs.State.{IsAfter, IsId, id_number, index_of};
ghost use Rattle.law_machine.specs.Index.{FirstLive, NothingLive, live_at};
ghost use Rattle.cs_index.specs.Copies.{FirstBehind, NoneBehind, numbered};

use crate::indexes::Index;
use crate::stored_runs::{Entries, is_before};
use cs_frame::{Locator, ShardId};

/// A chunk of a shard, and where its frame begins.
#[derive(Clone, Copy, Debug)]
pub struct LiveChunk {
    pub id: ShardId,
    pub chunk: usize,
    pub place: Locator,
}

/// An extent, and up to which identifier nothing lives there; None if that isn't known of any.
#[derive(Clone, Copy, Debug)]
pub struct Cleared {
    pub extent: usize,
    pub up_to: Option<ShardId>,
}

/// Nothing is known of any extent.
pub const NONE_KNOWN: Cleared = Cleared {
    extent: 0,
    up_to: None,
};

/// Up to which identifier nothing lives on the extent, as far as is known.
pub fn known_up_to(cleared: Cleared, extent: usize) -> Option<ShardId>
    ensures { ((result ≡ cleared.up_to) × (cleared.extent ≡ extent)) ⊎ (result ≡ None) }
{
    if cleared.extent == extent {
        cleared.up_to
    } else {
        None
    }
}

/// What is known still once an identifier has these locators.
pub fn still_cleared(cleared: Cleared, id: ShardId, locators: &[Locator]) -> Cleared
    ensures { ((result ≡ cleared) × (IsAfter (option_map id_number cleared.up_to) (id_number id) ⊎ NoneOn (map place_of locators.now) cleared.extent)) ⊎ (result.up_to ≡ None) }
{
    if is_after(cleared.up_to, id) {
        return cleared;
    }
    match first_on(locators, cleared.extent) {
        None => cleared,
        Some(_) => Cleared {
            extent: cleared.extent,
            up_to: None,
        },
    }
}

/// Whether an identifier comes after another.
fn is_after(last: Option<ShardId>, id: ShardId) -> bool
    ensures { MatchBool result (IsAfter (option_map id_number last) (id_number id)) (IsAfter (option_map id_number last) (id_number id) → ⊥) }
{
    match last {
        Some(before) => is_before(before, id),
        None => true,
    }
}

/// The first of these places that is on the extent.
fn first_on(places: &[Locator], extent: usize) -> Option<usize>
    ensures { MatchOption result (NoneOn (map place_of places.now) extent) (IsFirstOn (map place_of places.now) extent) }
{
    for k in 0..places.len() {
        if usize::from(places[k].extent) == extent {
            return Some(k);
        }
    }
    None
}

/// Tells clauses that the identifier, if there is one, has sixteen bytes. It has no effect.
fn is_id(id: Option<ShardId>)
    ensures { IfSome id IsId }
{
    if let Some(some) = id {
        let _bytes = some.bytes();
    }
}

/// Of the chunks that live on the extent the one that comes first, by identifier and then by chunk, and the last
/// identifier before it; where none lives there, None and the last identifier of all. Reading begins behind the one
/// that was passed already.
pub fn search(
    entries: Entries<'_>,
    passed: Option<ShardId>,
    extent: usize,
) -> (Option<LiveChunk>, Option<ShardId>)
    requires passed { entries.after ≡ option_map id_number passed }
    requires none { NoneUpTo entries.index entries.after extent }
    ensures found { MatchOption result.0 (NothingLive entries.entry.index extent) (λ found. FirstLive entries.entry.index extent (id_number found.id) found.chunk (place_of found.place)) }
    ensures none { NoneUpTo entries.entry.index (option_map id_number result.1) extent }
{
    is_id(passed);
    let mut read = entries;
    let mut last = passed;
    while let Some((id, places)) = read.next_entry() {
        let _bytes = id.bytes();
        if let Some(chunk) = first_on(places, extent) {
            let found = LiveChunk {
                id,
                chunk,
                place: places[chunk],
            };
            return (Some(found), last);
        }
        last = Some(id);
    }
    (None, last)
}

/// Of the chunks that live on the extent and belong to the shards behind this one, all where there is none, the one
/// that comes first, by identifier and then by chunk. The entries are those behind it.
pub fn search_behind(
    entries: Entries<'_>,
    after: Option<ShardId>,
    extent: usize,
) -> Option<LiveChunk>
    requires { entries.after ≡ option_map id_number after }
    ensures { MatchOption result (NoneAfter entries.entry.index (option_map id_number after) extent) (λ found. FirstAfter entries.entry.index (option_map id_number after) extent (id_number found.id) found.chunk (place_of found.place)) }
{
    is_id(after);
    let mut read = entries;
    while let Some((id, places)) = read.next_entry() {
        let _bytes = id.bytes();
        if let Some(chunk) = first_on(places, extent) {
            return Some(LiveChunk {
                id,
                chunk,
                place: places[chunk],
            });
        }
    }
    None
}

/// Whether a place of this number is on the extent and comes behind number `last`.
fn is_on_behind(place: Locator, number: usize, last: usize, extent: usize) -> bool
    ensures { IsTrue result ↔ ((last < number) × ((place_of place).extent ≡ extent)) }
{
    last < number && usize::from(place.extent) == extent
}

/// The first of these places behind number `last` that is on the extent, with its number.
pub fn first_on_behind(places: &[Locator], last: usize, extent: usize) -> Option<(usize, Locator)>
    ensures { MatchOption result (NoneOnBehind (map place_of places.now) last extent) (λ found. IsFirstOnBehind (map place_of places.now) last extent found.0 (place_of found.1)) }
{
    for k in 0..places.len() {
        let place = places[k];
        if is_on_behind(place, k, last, extent) {
            return Some((k, place));
        }
    }
    None
}

impl Index {
    /// The first live chunk on an extent behind the last one, a shard and the number of one of its chunks, by
    /// identifier and then by chunk; where there is no last one the first of all. The shard needn't be named. Searches
    /// for it in the table and in each run, and reads on from there: a search that goes on behind what the one before
    /// found reads each entry about once.
    pub fn first_behind(&self, extent: usize, last: Option<(ShardId, usize)>) -> Option<LiveChunk>
        ensures { MatchOption result (NoneBehind (index_of self.now) (option_map numbered last) extent) (λ found. FirstBehind (index_of self.now) (option_map numbered last) extent (id_number found.id) found.chunk (place_of found.place)) }
    {
        let Some((id, chunk)) = last else {
            return search_behind(self.entries(), None, extent);
        };
        if let Some((number, place)) = self.next_of(id, chunk, extent) {
            return Some(LiveChunk {
                id,
                chunk: number,
                place,
            });
        }
        search_behind(self.entries_behind(id), Some(id), extent)
    }

    /// The first chunk of a shard behind this one that lives on an extent, and where it lies.
    fn next_of(&self, id: ShardId, chunk: usize, extent: usize) -> Option<(usize, Locator)>
        ensures { MatchOption result (NoneOnBehind (live_at (index_of self.now) (id_number id)) chunk extent) (λ found. IsFirstOnBehind (live_at (index_of self.now) (id_number id)) chunk extent found.0 (place_of found.1)) }
    {
        match self.lookup(id) {
            Some(locators) => first_on_behind(locators, chunk, extent),
            None => None,
        }
    }
}
