//! Runs of the index, as a format has them: their entries are packed where locators have marks.
ghost use Rattle.std.specs.Prelude.{◌≡◌, ◌^◌, ◌<◌, ◌≤◌, List, None, Err, IfOk, length, ◌+◌, ◌*◌, ◌++◌, ℕ, Ok, OnOk, drop, option_map, slice_index, true, ◌∷◌, []};
ghost use Rattle.std.specs.List.{AllByRecursion};
ghost use Rattle.cs_frame.specs.Faults.{HasFault, OkUnlessMemory, fault_in, first_fault};
ghost use Rattle.cs_frame.specs.FormatRuns.{SpellsRun, SpellsStored, front_length_test, front_test, run_fault, run_size, stored_fault};
ghost use Rattle.cs_frame.specs.Runs.{Entry, IsMarkedRun, IsRun, entries_of, greatest_chunks, FitsEntry, entry_of, id_in};
ghost use Rattle.cs_frame.specs.Bytes.{IsBytes, number};
ghost use Rattle.cs_frame.specs.Locators.{FitsLocator, spelled_locators};
ghost use Rattle.cs_frame.specs.PackedRuns.{AreThere, SpellsPacked, packed_count_test, packed_end, packed_entry, packed_entry_in, packed_entry_tests, packed_fault, packed_in, packed_size, packed_sizes, packed_tests};

use crate::faults::FormatFault;
use crate::formats::{Format, Known};
use crate::identifiers::ShardId;
use crate::locators::{Locator, Places, marked_places_from};
use crate::run_frames::{
    GREATEST_CHUNKS, Run, check_order, decode_plain_run, encode_plain_run, run_bytes,
};
use byteorder::{BigEndian, ByteOrder};
use std::alloc::{AllocError, Global};

/// How many bytes the payload has that spells a run in a format.
pub fn run_size(format: Format, run: &Run) -> usize
    requires few { AllByRecursion (λ entry. length entry.1.items ≤ greatest_chunks) run.now.entries.items }
    requires most { length run.now.entries.items < 2 ^ 32 }
    ensures { result ≡ run_size format (entries_of run.now.entries.items) }
{
    match format.known() {
        Known::Two => run_bytes(run.entries.len()),
        Known::Four { .. } => 12 + packed_sizes(&run.entries),
    }
}

/// The payload that spells a run in a format.
pub fn encode_run(alloc: Global, format: Format, run: &Run) -> Result<Vec<u8>, AllocError>
    requires { IsRun format run.now }
    ensures { IfOk result (λ payload. SpellsRun payload.items format (entries_of run.now.entries.items)) }
{
    match format.known() {
        Known::Two => encode_plain_run(alloc, run),
        Known::Four { store, .. } => encode_stored_run(alloc, store.front(), run),
    }
}

/// The run that a payload spells in a format. The first test that fails gives the fault. The tests in order:
///
/// - 22 BadLength, 26 Misplaced: the first eight bytes, which are those of the store's identity
/// - 22 BadLength: the count
/// - 22 BadLength, 25 OutOfOrder, 22 BadLength: each entry
/// - 22 BadLength: nothing follows the entries
///
/// In format 2 they are 22 for the count, then 25, 22 and 23 BadPadding for each entry. 9 OutOfMemory comes only for a
/// payload that spells a run.
pub fn decode_run(alloc: Global, format: Format, payload: &[u8]) -> Result<Run, FormatFault>
    // What is read is spelled by the payload.
    ensures spelled { IfOk result (λ run. SpellsRun payload.now format (entries_of run.entries.items)) }
    // What the payload spells is read, unless memory runs out.
    ensures read { (entries : List Entry) → SpellsRun payload.now format entries
        → OkUnlessMemory result (λ run. entries_of run.entries.items ≡ entries) }
    // Each other fault is that of the first test that fails.
    ensures fault { HasFault result (run_fault format payload.now) }
    ensures memory { result ≡ Err FormatFault.OutOfMemory → run_fault format payload.now ≡ None }
{
    match format.known() {
        Known::Two => decode_plain_run(alloc, payload),
        Known::Four { store, .. } => decode_stored_run(alloc, store.front(), payload),
    }
}

/// The bytes from one on.
fn behind(bytes: &[u8], start: usize) -> &[u8]
    requires { start ≤ length bytes.now }
    ensures { result.now ≡ drop start bytes.now }
{
    &bytes[start..]
}

/// The identifier with which these bytes begin.
fn first_id(bytes: &[u8]) -> ShardId
    requires { 17 ≤ length bytes.now }
    ensures { result.0 ≡ id_in bytes.now }
{
    let mut id = [0; 16];
    id.copy_from_slice(&bytes[..16]);
    ShardId(id)
}

/// Where the entry ends with which these bytes begin.
fn first_end(bytes: &[u8]) -> usize
    requires { 17 ≤ length bytes.now }
    ensures { result ≡ packed_end bytes.now }
{
    17 + 16 * usize::from(bytes[16])
}

/// Makes the tests of the entry with which these bytes begin, after one with this identifier, and gives its
/// identifier and where it ends.
fn check_entry(previous: Option<ShardId>, bytes: &[u8]) -> Result<(ShardId, usize), FormatFault>
    ensures fault { fault_in result ≡ first_fault (packed_entry_tests (option_map (λ id. id.0) previous) bytes.now) }
    ensures id { IfOk result (λ found. found.0.0 ≡ id_in bytes.now) }
    ensures end { IfOk result (λ found. found.1 ≡ packed_end bytes.now) }
    ensures inside { IfOk result (λ found. found.1 ≤ length bytes.now) }
{
    if bytes.len() < 17 {
        return Err(FormatFault::BadLength);
    }
    let id = first_id(bytes);
    check_order(previous, id)?;
    if usize::from(bytes[16]) > GREATEST_CHUNKS {
        return Err(FormatFault::BadLength);
    }
    let end = first_end(bytes);
    if end > bytes.len() {
        return Err(FormatFault::BadLength);
    }
    Ok((id, end))
}

/// Makes the tests of so many entries in order, and that nothing follows.
fn check_entries(count: usize, bytes: &[u8]) -> Result<(), FormatFault>
    ensures { fault_in result ≡ first_fault (packed_tests count None bytes.now) }
{
    let mut previous = None;
    let mut start = 0;
    for _ in 0..count {
        let (id, size) = check_entry(previous, behind(bytes, start))?;
        previous = Some(id);
        start += size;
    }
    if start == bytes.len() {
        Ok(())
    } else {
        Err(FormatFault::BadLength)
    }
}

/// Makes the tests of a run in order, and gives how many entries it has.
fn check_run(payload: &[u8]) -> Result<usize, FormatFault>
    ensures fault { fault_in result ≡ packed_fault payload.now }
    ensures bytes { IsBytes payload.now }
    ensures count { IfOk result (λ count. count ≡ number 0 4 payload.now) }
    ensures size { IfOk result (λ _. 4 ≤ length payload.now) }
{
    if payload.len() < 4 {
        return Err(FormatFault::BadLength);
    }
    let count = BigEndian::read_u32(&payload[0..4]) as usize;
    if count < 1 {
        return Err(FormatFault::BadLength);
    }
    check_entries(count, behind(payload, 4))?;
    Ok(count)
}

/// The entry with which these bytes begin.
fn entry_from(alloc: Global, bytes: &[u8]) -> Result<(ShardId, Places), AllocError>
    requires head { 17 ≤ length bytes.now }
    requires end { packed_end bytes.now ≤ length bytes.now }
    ensures { IfOk result (λ entry. entry_of entry ≡ packed_entry_in bytes.now) }
{
    let places = marked_places_from(alloc, &bytes[17..first_end(bytes)])?;
    Ok((first_id(bytes), places))
}

fn entries_from(
    alloc: Global,
    count: usize,
    bytes: &[u8],
) -> Result<Vec<(ShardId, Places)>, AllocError>
    requires { AreThere count bytes.now }
    ensures { IfOk result (λ v. entries_of v.items ≡ packed_in count bytes.now) }
{
    let mut entries = Vec::with_capacity(alloc, count)?;
    let mut start = 0;
    for _ in 0..count {
        let rest = behind(bytes, start);
        entries.push_reserved(entry_from(alloc, rest)?);
        start += first_end(rest);
    }
    Ok(entries)
}

/// How many bytes an entry takes.
fn packed_size(entry: &(ShardId, Places)) -> usize
    requires { length entry.now.1.items ≤ greatest_chunks }
    ensures { result ≡ packed_size (length entry.now.1.items) }
{
    let (_, places) = entry;
    17 + 16 * places.as_slice().len()
}

/// How many bytes these entries take together.
pub(crate) fn packed_sizes(entries: &[(ShardId, Places)]) -> usize
    requires few { AllByRecursion (λ entry. length entry.1.items ≤ greatest_chunks) entries.now }
    requires most { length entries.now < 2 ^ 32 }
    ensures value { result ≡ packed_sizes (entries_of entries.now) }
    ensures small { result ≤ 145 * length entries.now }
{
    let mut size: usize = 0;
    for entry in entries {
        size += packed_size(entry);
    }
    size
}

fn append_locators(payload: &mut Vec<u8>, locators: &[Locator]) -> Result<(), AllocError>
    ensures spelled { OnOk result (payload.new.items ≡ payload.old.items ++ spelled_locators true locators.now) }
    ensures fit { OnOk result (AllByRecursion (FitsLocator true) locators.now) }
{
    for locator in locators {
        payload.extend_from_slice(&locator.marked_bytes())?;
    }
    Ok(())
}

fn append_entry(payload: &mut Vec<u8>, entry: &(ShardId, Places)) -> Result<(), AllocError>
    requires { length entry.now.1.items ≤ greatest_chunks }
    ensures spelled { OnOk result (payload.new.items ≡ payload.old.items ++ packed_entry (entry_of entry.now)) }
    ensures fits { OnOk result (FitsEntry true (entry_of entry.now)) }
{
    let (id, places) = entry;
    let locators = places.as_slice();
    payload.extend_from_slice(&id.bytes())?;
    payload.push(locators.len() as u8)?;
    append_locators(payload, locators)
}

/// The payload that spells a run in the store whose identity begins with these bytes.
pub(crate) fn encode_stored_run(
    alloc: Global,
    front: [u8; 8],
    run: &Run,
) -> Result<Vec<u8>, AllocError>
    requires { IsMarkedRun true run.now }
    ensures { IfOk result (λ payload. SpellsStored front payload.items (entries_of run.now.entries.items)) }
{
    let mut payload = Vec::new(alloc);
    payload.extend_from_slice(&front)?;
    payload.extend_from_slice(&(run.entries.len() as u32).to_be_bytes())?;
    for entry in &run.entries {
        append_entry(&mut payload, entry)?;
    }
    Ok(payload)
}

/// The run that a payload spells in this way. The first test that fails gives the fault: 22 BadLength for the count,
/// then for each entry 22, 25 OutOfOrder and 22, and 22 if bytes follow. 9 OutOfMemory comes only for a payload that
/// spells a run.
pub(crate) fn decode_packed_run(alloc: Global, payload: &[u8]) -> Result<Run, FormatFault>
    // What is read is spelled by the payload.
    ensures spelled { IfOk result (λ run. SpellsPacked payload.now (entries_of run.entries.items)) }
    // What the payload spells is read, unless memory runs out.
    ensures read { (entries : List Entry) → SpellsPacked payload.now entries
        → OkUnlessMemory result (λ run. entries_of run.entries.items ≡ entries) }
    // Each other fault is that of the first test that fails.
    ensures fault { HasFault result (packed_fault payload.now) }
    ensures memory { result ≡ Err FormatFault.OutOfMemory → packed_fault payload.now ≡ None }
{
    let count = check_run(payload)?;
    let entries = entries_from(alloc, count, behind(payload, 4))?;
    Ok(Run { entries })
}

/// The payload begins with these bytes: else it is another store's, 26 Misplaced.
fn check_front(front: [u8; 8], payload: &[u8]) -> Result<(), FormatFault>
    ensures fault { fault_in result ≡ first_fault (front_length_test payload.now ∷ front_test front payload.now ∷ []) }
    ensures size { IfOk result (λ _. 8 ≤ length payload.now) }
    ensures front { length front ≡ 8 }
    ensures bytes { IsBytes payload.now }
{
    if payload.len() < 8 {
        return Err(FormatFault::BadLength);
    }
    if payload[..8] == front[..] {
        Ok(())
    } else {
        Err(FormatFault::Misplaced)
    }
}

/// The run that a payload spells in the store whose identity begins with these bytes.
pub(crate) fn decode_stored_run(
    alloc: Global,
    front: [u8; 8],
    payload: &[u8],
) -> Result<Run, FormatFault>
    // What is read is spelled by the payload.
    ensures spelled { IfOk result (λ run. SpellsStored front payload.now (entries_of run.entries.items)) }
    // What the payload spells is read, unless memory runs out.
    ensures read { (entries : List Entry) → SpellsStored front payload.now entries
        → OkUnlessMemory result (λ run. entries_of run.entries.items ≡ entries) }
    // Each other fault is that of the first test that fails.
    ensures fault { HasFault result (stored_fault front payload.now) }
    ensures memory { result ≡ Err FormatFault.OutOfMemory → stored_fault front payload.now ≡ None }
{
    check_front(front, payload)?;
    decode_packed_run(alloc, behind(payload, 8))
}
