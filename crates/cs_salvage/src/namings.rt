//! What the index says of shards whose parts were found.
ghost use Rattle.std.specs.Prelude.{◌≡◌, ◌≢◌, ◌≤◌, All, IfOk, MatchBool, length, map};
ghost use Rattle.std.specs.List.{AllZip};
ghost use Rattle.cs_frame.specs.Formats.{place_of};
ghost use Rattle.cs_salvage.specs.Namings.{AreCounted, AreLacking, AreMarked, HasShard, IsNaming, mark_of};
ghost use Rattle.cs_salvage.specs.Shards.{AreOrdered};

use crate::parts::Part;
use crate::rescues::Found;
use crate::whole_shards::WholeShard;
use cs_frame::{Locator, ShardId};
use std::alloc::{AllocError, Global};

/// What the runs of the index that were read say of a shard whose parts were found.
#[derive(Clone, Copy, Debug, PartialEq, Eq)]
pub enum Naming {
    /// The newest run that names its identifier has the chunks that these parts are, by the marks of their frames.
    AsItIs,
    /// That run has other chunks of the identifier.
    Otherwise,
    /// That run has the identifier as deleted.
    Deleted,
    /// No run names the identifier, and all were read: what was put was deleted, or never acknowledged.
    Unnamed,
    /// No run that was read names the identifier, and one couldn't be read: nothing is known of it.
    Unknown,
}

/// The mark of a part's frame.
fn mark_of_part(part: &Part) -> u64
    ensures { result ≡ mark_of part.now }
{
    let front = &part.digest[0..8];
    u64::from_be_bytes([
        front[0], front[1], front[2], front[3], front[4], front[5], front[6], front[7],
    ])
}

/// Whether these places mean the frames of these parts, one by one.
fn are_marked(places: &[Locator], parts: &[Part]) -> bool
    ensures { MatchBool result (AreMarked (map place_of places.now) parts.now) (AreMarked (map place_of places.now) parts.now → ⊥) }
{
    if places.len() != parts.len() {
        return false;
    }
    for k in 0..places.len() {
        if places[k].mark != mark_of_part(&parts[k]) {
            return false;
        }
    }
    true
}

impl Found {
    /// What the runs that were read say of a shard whose parts were found. Nothing is read.
    pub fn naming(&self, shard: &WholeShard) -> Naming
        ensures { IsNaming self.now shard.now result }
    {
        match self.index.lookup(shard.put.id) {
            Some(places) if places.is_empty() => Naming::Deleted,
            Some(places) if are_marked(places, &shard.parts) => Naming::AsItIs,
            Some(_) => Naming::Otherwise,
            None if self.damaged.is_some() => Naming::Unknown,
            None => Naming::Unnamed,
        }
    }

    /// What the runs that were read say of each of these shards, in order. Nothing is read.
    pub fn namings(&self, alloc: Global, shards: &[WholeShard]) -> Result<Vec<Naming>, AllocError>
        ensures { IfOk result (λ namings. AllZip (IsNaming self.now) shards.now namings.items) }
    {
        let mut namings = Vec::new(alloc);
        for k in 0..shards.len() {
            let naming = self.naming(&shards[k]);
            namings.push(naming)?;
        }
        Ok(namings)
    }
}

/// Whether the two are the same.
fn is_same(one: Naming, other: Naming) -> bool
    ensures { MatchBool result (one ≡ other) (one ≢ other) }
{
    one == other
}

/// How many of them are this one.
pub fn count_of(namings: &[Naming], naming: Naming) -> usize
    ensures count { AreCounted naming namings.now result }
    ensures most { result ≤ length namings.now }
{
    let mut count: usize = 0;
    for k in 0..namings.len() {
        if is_same(namings[k], naming) {
            count += 1;
        }
    }
    count
}

/// Whether one of these shards has this identifier. They are in the order of their identifiers.
fn has_shard(shards: &[WholeShard], id: ShardId) -> bool
    ensures { MatchBool result (HasShard shards.now id) (AreOrdered shards.now → HasShard shards.now id → ⊥) }
{
    match shards.binary_search_by_key(&id, |shard| shard.put.id) {
        Ok(_) => true,
        Err(_) => false,
    }
}

/// How many of these identifiers no shard has. The shards are in the order of their identifiers, as `newest_whole`
/// gives them. Each identifier is searched for among them.
pub fn lacking(ids: &[ShardId], shards: &[WholeShard]) -> usize
    ensures count { AreOrdered shards.now → AreLacking shards.now ids.now result }
    // Whatever their order, each identifier has a shard if none is lacking.
    ensures all { result ≡ 0 → All (HasShard shards.now) ids.now }
    ensures most { result ≤ length ids.now }
{
    let mut count: usize = 0;
    for k in 0..ids.len() {
        if !has_shard(shards, ids[k]) {
            count += 1;
        }
    }
    count
}
