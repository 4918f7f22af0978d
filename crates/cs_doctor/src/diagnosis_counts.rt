//! What the damages of a scrub and the frames on a device come to.
ghost use Rattle.std.specs.Prelude.{◌≡◌, ◌≤◌, All, Contains, IfOk, IsTrue, MatchOption, OnOk, nat_lt};
ghost use Rattle.std.specs.List.{count_by};
ghost use Rattle.cs_doctor.specs.DoctorCounts.{AreNamedBy, FailsOn, IsOf, Notes};

use cs_frame::ShardId;
use cs_inspect::Damage;
use cs_refusal::Refusal;
use cs_salvage::Part;
use std::alloc::{AllocError, Global};

/// What the damages of a scrub come to.
#[derive(Drop)]
pub struct DamageCounts {
    /// The shards that have a chunk that can't be read.
    pub shards: Vec<ShardId>,
    /// The extents with a frame that the device refuses to read.
    pub failing: Vec<u16>,
}

/// Whether the last of these identifiers is this one.
fn is_last(shards: &[ShardId], id: ShardId) -> bool
    ensures { IsTrue result → Contains shards.now id }
{
    match shards.last() {
        Some(last) => *last == id,
        None => false,
    }
}

/// Adds the shard of a damage, if it is one of a chunk, and the shard isn't the last one. Damages of one shard follow
/// one another.
fn note_shard(shards: &mut Vec<ShardId>, damage: &Damage) -> Result<(), AllocError>
    ensures { OnOk result (Notes IsOf damage.now shards.old.items shards.new.items) }
{
    match damage {
        Damage::Chunk { id, .. } if !is_last(shards, *id) => shards.push(*id)?,
        Damage::Chunk { .. } | Damage::Run { .. } => {}
    }
    Ok(())
}

/// The extent of a frame that the device refuses to read.
fn failing_of(damage: &Damage) -> Option<u16>
    ensures { MatchOption result ((e : _) → ¬ FailsOn e damage.now) (λ extent. FailsOn extent damage.now) }
{
    match damage {
        Damage::Chunk { place, refusal, .. } | Damage::Run { place, refusal } => match refusal {
            Refusal::DeviceFault => Some(place.extent),
            _ => None,
        },
    }
}

/// Adds the extent of a damage, if the device refuses to read the frame.
fn note_extent(extents: &mut Vec<u16>, damage: &Damage) -> Result<(), AllocError>
    ensures { OnOk result (Notes FailsOn damage.now extents.old.items extents.new.items) }
{
    match failing_of(damage) {
        Some(extent) if !extents.contains(&extent) => extents.push(extent)?,
        Some(_) | None => {}
    }
    Ok(())
}

/// What these damages come to.
pub fn damages_of(alloc: Global, damages: &[Damage]) -> Result<DamageCounts, AllocError>
    ensures shards { IfOk result (λ counts. AreNamedBy IsOf damages.now counts.shards.items) }
    ensures failing { IfOk result (λ counts. AreNamedBy FailsOn damages.now counts.failing.items) }
{
    let mut shards = Vec::new(alloc);
    let mut failing = Vec::new(alloc);
    for k in 0..damages.len() {
        note_shard(&mut shards, &damages[k])?;
        note_extent(&mut failing, &damages[k])?;
    }
    Ok(DamageCounts { shards, failing })
}

/// The frames whose commands a root doesn't count.
#[derive(Clone, Copy)]
pub struct Frontier {
    /// How many there are.
    pub above: usize,
    /// The greatest number of a command among all frames, 0 if there is none.
    pub greatest: u64,
}

/// The greatest number of a command among these frames, 0 if there is none.
fn greatest_of(parts: &[Part]) -> u64
    ensures { All (λ part. part.head.command ≤ result) parts.now }
{
    let mut greatest: u64 = 0;
    for k in 0..parts.len() {
        greatest = greatest.max(parts[k].head.command);
    }
    greatest
}

/// The frames with numbers of commands above this one.
pub fn frontier_of(parts: &[Part], commands: u64) -> Frontier
    ensures above { result.above ≡ count_by (λ part. nat_lt commands part.head.command) parts.now }
    ensures greatest { All (λ part. part.head.command ≤ result.greatest) parts.now }
{
    Frontier {
        above: parts
            .iter()
            .filter(|part| commands < part.head.command)
            .count(),
        greatest: greatest_of(parts),
    }
}
