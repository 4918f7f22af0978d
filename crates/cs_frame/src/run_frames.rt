//! Runs of the index.

ghost use Rattle.std.specs.Prelude.{◌≡◌, ◌+◌, ◌-◌, ◌^◌, ◌<◌, ◌≤◌, ◌++◌, false, ℕ, List, Some, None, Ok, Err, IfOk, OnOk, length, map, option_map, slice_index, slice_index_or, []};
ghost use Rattle.cs_frame.specs.Bytes.{IsBytes};
ghost use Rattle.cs_frame.specs.Locators.{AreUnmarked, FitsLocator, spelled_locators};
ghost use Rattle.std.specs.List.{AllByRecursion};
ghost use Rattle.cs_frame.specs.Faults.{HasFault, OkUnlessMemory, fault_in, first_fault};
ghost use Rattle.cs_frame.specs.Geometries.{run_bytes};
ghost use Rattle.law_machine.specs.Format.{Two};
ghost use Rattle.cs_frame.specs.Runs.{Entry, FitsEntry, IsRun, SpellsPlain, entries_of, entries_tests, entry_in, entry_of, entry_tests, greatest_chunks, id_in, order_test, pieces_in, plain_fault, run_length_test, spelled_entry};

use crate::faults::FormatFault;
use crate::identifiers::ShardId;
use crate::locators::{Locator, Places, places_from};
use crate::pages::is_zero;
use byteorder::{BigEndian, ByteOrder};
use std::alloc::{AllocError, Global};

/// The greatest number of chunks of a shard.
pub const GREATEST_CHUNKS: usize = 8;

/// A run of the index: what some commands changed.
#[derive(Debug, Drop)]
pub struct Run {
    /// At least one entry, by rising identifiers. An entry has the locators of a shard's chunks in
    /// order, 1 to 8 of them, or none where the shard was deleted.
    pub entries: Vec<(ShardId, Places)>,
}

/// How many bytes a run of so many entries has.
pub fn run_bytes(entries: usize) -> usize
    requires { run_bytes entries < 2 ^ 64 }
    ensures { result ≡ run_bytes entries }
{
    4 + 81 * entries
}

/// As many bytes as the entries that are counted.
fn check_length(payload: &[u8]) -> Result<(), FormatFault>
    ensures fault { fault_in result ≡ run_length_test payload.now }
    ensures bytes { IsBytes payload.now }
    ensures size { IfOk result (λ _. 4 ≤ length payload.now) }
{
    if payload.len() < 4 {
        return Err(FormatFault::BadLength);
    }
    let count = BigEndian::read_u32(&payload[0..4]) as usize;
    if count >= 1 && payload.len() == run_bytes(count) {
        Ok(())
    } else {
        Err(FormatFault::BadLength)
    }
}

fn id_from(piece: &[u8; 81]) -> ShardId
    ensures { result.0 ≡ id_in piece.now }
{
    let mut id = [0; 16];
    id.copy_from_slice(&piece[..16]);
    ShardId(id)
}

/// The identifier is greater than the one before, if there is one.
pub(crate) fn check_order(previous: Option<ShardId>, id: ShardId) -> Result<(), FormatFault>
    ensures { fault_in result ≡ order_test (option_map (λ id. id.0) previous) id.0 }
{
    match previous {
        None => Ok(()),
        Some(previous) => {
            if previous.cmp(&id).is_lt() {
                Ok(())
            } else {
                Err(FormatFault::OutOfOrder)
            }
        }
    }
}

/// Makes the tests of the entry after one with this identifier, and gives its identifier.
fn check_entry(previous: Option<ShardId>, piece: &[u8; 81]) -> Result<ShardId, FormatFault>
    ensures fault { fault_in result ≡ first_fault (entry_tests (option_map (λ id. id.0) previous) piece.now) }
    ensures id { IfOk result (λ id. id.0 ≡ id_in piece.now) }
{
    let id = id_from(piece);
    check_order(previous, id)?;
    let count = usize::from(piece[16]);
    if count > GREATEST_CHUNKS {
        return Err(FormatFault::BadLength);
    }
    if !is_zero(&piece[17 + 8 * count..]) {
        return Err(FormatFault::BadPadding);
    }
    Ok(id)
}

/// Makes the tests of all entries in order.
fn check_entries(pieces: &[[u8; 81]]) -> Result<(), FormatFault>
    ensures { fault_in result ≡ first_fault (entries_tests None pieces.now) }
{
    let mut previous = None;
    for piece in pieces {
        previous = Some(check_entry(previous, piece)?);
    }
    Ok(())
}

/// The pieces of 81 bytes after the count, one for each entry.
fn pieces_of(payload: &[u8]) -> &[[u8; 81]]
    requires { 4 ≤ length payload.now }
    ensures { result.now ≡ pieces_in payload.now }
{
    let (pieces, _) = payload[4..].as_chunks::<81>();
    pieces
}

/// Makes the tests of a run in order.
fn check_run(payload: &[u8]) -> Result<(), FormatFault>
    ensures fault { fault_in result ≡ plain_fault payload.now }
    ensures bytes { IsBytes payload.now }
    ensures size { IfOk result (λ _. 4 ≤ length payload.now) }
{
    check_length(payload)?;
    check_entries(pieces_of(payload))
}

fn entry_from(alloc: Global, piece: &[u8; 81]) -> Result<(ShardId, Places), AllocError>
    requires { slice_index piece.now 16 ≤ greatest_chunks }
    ensures { IfOk result (λ entry. entry_of entry ≡ entry_in piece.now) }
{
    let end = 17 + 8 * usize::from(piece[16]);
    let places = places_from(alloc, &piece[17..end])?;
    Ok((id_from(piece), places))
}

fn entries_from(alloc: Global, pieces: &[[u8; 81]]) -> Result<Vec<(ShardId, Places)>, AllocError>
    requires { (i : ℕ) → i < length pieces.now → slice_index (slice_index_or pieces.now i []) 16 ≤ greatest_chunks }
    ensures { IfOk result (λ v. entries_of v.items ≡ map entry_in pieces.now) }
{
    let mut entries = Vec::with_capacity(alloc, pieces.len())?;
    for piece in pieces {
        entries.push_reserved(entry_from(alloc, piece)?);
    }
    Ok(entries)
}

fn append_locators(payload: &mut Vec<u8>, locators: &[Locator]) -> Result<(), AllocError>
    requires { AreUnmarked locators.now }
    ensures spelled { OnOk result (payload.new.items ≡ payload.old.items ++ spelled_locators false locators.now) }
    ensures fit { OnOk result (AllByRecursion (FitsLocator false) locators.now) }
{
    for locator in locators {
        payload.extend_from_slice(&locator.bytes())?;
    }
    Ok(())
}

fn append_entry(payload: &mut Vec<u8>, entry: &(ShardId, Places)) -> Result<(), AllocError>
    requires few { length entry.now.1.items ≤ greatest_chunks }
    requires unmarked { AreUnmarked entry.now.1.items }
    ensures spelled { OnOk result (payload.new.items ≡ payload.old.items ++ spelled_entry (entry_of entry.now)) }
    ensures fits { OnOk result (FitsEntry false (entry_of entry.now)) }
{
    let (id, places) = entry;
    let locators = places.as_slice();
    payload.extend_from_slice(&id.bytes())?;
    payload.push(locators.len() as u8)?;
    append_locators(payload, locators)?;
    let end = payload.len() + 64 - 8 * locators.len();
    payload.resize(end, 0)
}

/// The payload that spells a run.
pub(crate) fn encode_plain_run(alloc: Global, run: &Run) -> Result<Vec<u8>, AllocError>
    requires { IsRun Two run.now }
    ensures { IfOk result (λ payload. SpellsPlain payload.items (entries_of run.now.entries.items)) }
{
    let mut payload = Vec::new(alloc);
    payload.extend_from_slice(&(run.entries.len() as u32).to_be_bytes())?;
    for entry in &run.entries {
        append_entry(&mut payload, entry)?;
    }
    Ok(payload)
}

/// The run that a payload spells. The first test that fails gives the fault: 22 BadLength for the count, then for each
/// entry 25 OutOfOrder, 22 and 23 BadPadding. 9 OutOfMemory comes only for a payload that spells a run.
pub(crate) fn decode_plain_run(alloc: Global, payload: &[u8]) -> Result<Run, FormatFault>
    // What is read is spelled by the payload.
    ensures spelled { IfOk result (λ run. SpellsPlain payload.now (entries_of run.entries.items)) }
    // What the payload spells is read, unless memory runs out.
    ensures read { (entries : List Entry) → SpellsPlain payload.now entries
        → OkUnlessMemory result (λ run. entries_of run.entries.items ≡ entries) }
    // Each other fault is that of the first test that fails.
    ensures fault { HasFault result (plain_fault payload.now) }
    ensures memory { result ≡ Err FormatFault.OutOfMemory → plain_fault payload.now ≡ None }
{
    check_run(payload)?;
    let entries = entries_from(alloc, pieces_of(payload))?;
    Ok(Run { entries })
}
