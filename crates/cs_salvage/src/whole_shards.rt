//! The shards that parts make up, and what is missing of the others.
ghost use Rattle.std.specs.Prelude.{◌++◌, ◌<◌, ◌≡◌, IfOk, List, MatchBool, MatchOption, OnOk, length, option_map};
ghost use Rattle.std.specs.List.Sorted.{IsPermutation};
ghost use Rattle.cs_salvage.specs.Missing.{AreMissing, HasPart, IsMissing, LastIsOther};
ghost use Rattle.cs_salvage.specs.Puts.{Agrees, AreBefore, AreFirst, AreInOrder, AreOf, Conflicts, EndOtherwise, Have, IsEndOfPut, Lacks, first_with};
ghost use Rattle.cs_salvage.specs.Shards.{AreAllOf, AreAmbiguous, AreNewest, IsAmbiguous, IsWhole};
ghost use Rattle.cs_salvage.specs.declared.parts.Part.{Part as SomePart};

use crate::parts::{Part, Put};
use cs_frame::ShardId;
use std::alloc::{AllocError, Global};
use std::cmp::Reverse;

/// A shard all of whose parts are there.
#[derive(Debug, Drop)]
pub struct WholeShard {
    /// The put that they are of.
    pub put: Put,
    /// A part of each number, in order.
    pub parts: Vec<Part>,
}

/// The parts by their identifiers, and of one identifier those of the newest put first. So those of one put are side by
/// side, as they came.
pub fn by_puts(alloc: Global, parts: &[Part]) -> Result<Vec<Part>, AllocError>
    ensures same { IfOk result (λ sorted. IsPermutation parts.now sorted.items) }
    ensures ordered { IfOk result (λ sorted. AreInOrder sorted.items) }
{
    let mut sorted = Vec::from_slice(alloc, parts)?;
    sorted.sort_by_key(|part| (part.head.id, Reverse(part.head.command)))?;
    Ok(sorted)
}

/// Where the parts of the put end that begin at a place.
pub fn end_of_put(parts: &[Part], start: usize) -> usize
    requires { start < length parts.now }
    ensures { IsEndOfPut parts.now start result }
{
    let put = parts[start].put();
    for end in start + 1..parts.len() {
        if parts[end].put() != put {
            return end;
        }
    }
    parts.len()
}

/// The first of the parts with a number.
fn first_of(parts: &[Part], number: u8) -> Option<&Part>
    ensures { option_map (λ part. part.now) result ≡ first_with number parts.now }
{
    parts.iter().find(|part| part.head.number == number)
}

/// Whether a part conflicts with the first part of all, or with the first of its number.
fn conflicts(parts: &[Part], part: &Part) -> bool
    requires { 0 < length parts.now }
    ensures { MatchBool result (Conflicts parts.now part.now) (Agrees parts.now part.now) }
{
    if part.store != parts[0].store {
        return true;
    }
    if part.head.count != parts[0].head.count {
        return true;
    }
    match first_of(parts, part.head.number) {
        Some(first) => first.digest != part.digest,
        None => false,
    }
}

/// Whether two of these parts of a put conflict. Each is held against two of them.
pub fn are_ambiguous(put: Put, parts: &[Part]) -> bool
    requires some { 0 < length parts.now }
    requires own { AreOf put parts.now }
    ensures { MatchBool result (IsAmbiguous parts.now put) (IsAmbiguous parts.now put → ⊥) }
{
    for part in parts {
        if conflicts(parts, part) {
            return true;
        }
    }
    false
}

/// The first parts of the numbers below a count, if each is there.
fn first_parts(alloc: Global, parts: &[Part], count: u8) -> Result<Option<Vec<Part>>, AllocError>
    ensures { IfOk result (λ found. MatchOption found (Lacks parts.now count) (λ pieces. AreFirst parts.now count pieces.items)) }
{
    let mut pieces = Vec::new(alloc);
    for number in 0..count {
        match first_of(parts, number) {
            Some(part) => pieces.push(*part)?,
            None => return Ok(None),
        }
    }
    Ok(Some(pieces))
}

/// Of these parts of a put, those that make up the shard, if they do.
pub fn whole_of(alloc: Global, put: Put, parts: &[Part]) -> Result<Option<Vec<Part>>, AllocError>
    requires some { 0 < length parts.now }
    requires own { AreOf put parts.now }
    ensures { IfOk result (λ found. MatchOption found (IsWhole parts.now put → ⊥) (λ pieces. AreAllOf parts.now put pieces.items)) }
{
    let count = parts[0].head.count;
    if count == 0 || are_ambiguous(put, parts) {
        return Ok(None);
    }
    first_parts(alloc, parts, count)
}

/// Whether the last of the shards has an identifier.
fn ends_with(shards: &[WholeShard], id: ShardId) -> bool
    ensures { MatchBool result (Have id shards.now) (EndOtherwise id shards.now) }
{
    match shards.last() {
        Some(last) => last.put.id == id,
        None => false,
    }
}

/// Adds the shard that these parts of a put make up to those of the puts before. If a newer put of the same identifier
/// is whole, nothing is added.
fn add_newest(
    alloc: Global,
    shards: &mut Vec<WholeShard>,
    put: Put,
    parts: &[Part],
) -> Result<(), AllocError>
    requires some { 0 < length parts.now }
    requires own { AreOf put parts.now }
    ensures { (before : List SomePart) → AreBefore put before → AreNewest before shards.old.items
        → OnOk result (AreNewest (before ++ parts.now) shards.new.items) }
{
    if ends_with(shards, put.id) {
        return Ok(());
    }
    match whole_of(alloc, put, parts)? {
        Some(parts) => Ok(shards.push(WholeShard { put, parts })?),
        None => Ok(()),
    }
}

/// The shards that these parts make up, by their identifiers. Each is the newest put of its identifier of which all
/// parts are there and no two conflict, with a part of each number. Of copies of a part it is the first.
///
/// A command's number isn't unique. After a crash the count goes on from the persistent root's. So a put that was lost
/// and a later one can have the same number, for the same identifier too. And each store counts its own commands.
///
/// Two parts of one put conflict if they are of different stores, or say different numbers of chunks. They also do if
/// they have different payloads of one number, by their digests. Then nothing shows what was put: it isn't whole, and
/// `ambiguous` reports it. A mix of two such puts of one store may not be seen: if both have as many chunks, and each
/// chunk is left of one alone. Nor is it seen that a shard was deleted since, or that its put was never acknowledged.
///
/// The parts are sorted, in memory for as many again, and then each is held against the first ones of its put.
pub fn newest_whole(alloc: Global, parts: &[Part]) -> Result<Vec<WholeShard>, AllocError>
    ensures { IfOk result (λ shards. AreNewest parts.now shards.items) }
{
    let sorted = by_puts(alloc, parts)?;
    let mut shards = Vec::new(alloc);
    let mut start = 0;
    while start < sorted.len() {
        let end = end_of_put(&sorted, start);
        add_newest(alloc, &mut shards, sorted[start].put(), &sorted[start..end])?;
        start = end;
    }
    Ok(shards)
}

/// Adds a put whose parts these are to the ambiguous ones before, if it is one.
fn add_ambiguous(puts: &mut Vec<Put>, put: Put, parts: &[Part]) -> Result<(), AllocError>
    requires some { 0 < length parts.now }
    requires own { AreOf put parts.now }
    ensures { (before : List SomePart) → AreBefore put before → AreAmbiguous before puts.old.items
        → OnOk result (AreAmbiguous (before ++ parts.now) puts.new.items) }
{
    if are_ambiguous(put, parts) {
        puts.push(put)?;
    }
    Ok(())
}

/// The puts of which two parts conflict: there are frames of two puts of one identifier and one number of the command.
/// The newest first of each identifier.
pub fn ambiguous(alloc: Global, parts: &[Part]) -> Result<Vec<Put>, AllocError>
    ensures { IfOk result (λ puts. AreAmbiguous parts.now puts.items) }
{
    let sorted = by_puts(alloc, parts)?;
    let mut puts = Vec::new(alloc);
    let mut start = 0;
    while start < sorted.len() {
        let end = end_of_put(&sorted, start);
        add_ambiguous(&mut puts, sorted[start].put(), &sorted[start..end])?;
        start = end;
    }
    Ok(puts)
}

/// The newest put of an identifier of which parts are there, if it isn't whole.
#[derive(Clone, Copy, Debug, PartialEq, Eq)]
pub struct Missing {
    pub put: Put,
    /// Whether there are parts of two puts of that identifier and that number of the command. Then nothing shows what
    /// was put.
    pub ambiguous: bool,
}

/// Whether the last of the parts has an identifier.
fn is_last_of(parts: &[Part], id: ShardId) -> bool
    ensures { MatchBool result (HasPart id parts.now) (LastIsOther id parts.now) }
{
    match parts.last() {
        Some(last) => last.head.id == id,
        None => false,
    }
}

/// A put whose parts these are, if it isn't whole.
fn missing_of(alloc: Global, put: Put, parts: &[Part]) -> Result<Option<Missing>, AllocError>
    requires some { 0 < length parts.now }
    requires own { AreOf put parts.now }
    ensures { IfOk result (λ found. MatchOption found (IsWhole parts.now put) (λ it. (it.put ≡ put) × IsMissing parts.now it)) }
{
    if whole_of(alloc, put, parts)?.is_some() {
        return Ok(None);
    }
    let ambiguous = are_ambiguous(put, parts);
    Ok(Some(Missing { put, ambiguous }))
}

/// Adds a put whose parts these are to those that are missing of the parts before. It is added if it is the newest of
/// its identifier and isn't whole.
fn add_missing(
    alloc: Global,
    missing: &mut Vec<Missing>,
    before: &[Part],
    put: Put,
    parts: &[Part],
) -> Result<(), AllocError>
    requires some { 0 < length parts.now }
    requires own { AreOf put parts.now }
    ensures { AreInOrder before.now → AreBefore put before.now → AreMissing before.now missing.old.items
        → OnOk result (AreMissing (before.now ++ parts.now) missing.new.items) }
{
    if is_last_of(before, put.id) {
        return Ok(());
    }
    match missing_of(alloc, put, parts)? {
        Some(it) => Ok(missing.push(it)?),
        None => Ok(()),
    }
}

/// The newest put of each identifier of which there are parts, by their identifiers, without those that are whole. An
/// older put of the same identifier may be whole, and `newest_whole` has it then.
///
/// The parts are sorted, in memory for as many again. Then each is held against the first ones of its put, twice if the
/// put isn't whole.
pub fn missing_puts(alloc: Global, parts: &[Part]) -> Result<Vec<Missing>, AllocError>
    ensures { IfOk result (λ missing. AreMissing parts.now missing.items) }
{
    let sorted = by_puts(alloc, parts)?;
    let mut missing = Vec::new(alloc);
    let mut start = 0;
    while start < sorted.len() {
        let end = end_of_put(&sorted, start);
        let put = sorted[start].put();
        add_missing(
            alloc,
            &mut missing,
            &sorted[..start],
            put,
            &sorted[start..end],
        )?;
        start = end;
    }
    Ok(missing)
}
