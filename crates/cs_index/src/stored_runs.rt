//! Runs of the index, and sorted entries as its table and each run have them: one is found or put, and all are read in
//! order.
ghost use Rattle.std.specs.Prelude.{◌≡◌, ◌+◌, ◌<◌, ◌^◌, ◌||◌, false, if◌then◌else◌, map, option_copied, option_map, ◌≢◌, ◌≤◌, ◌==◌, ◌++◌, Some, IfOk, IfSome, length, IsOk, MatchBool, OnErr, OnOk, nat_lt, slice_get, vec_capacity, vec_len, ℕ, None, Option};
ghost use Rattle.std.specs.List.{AllByRecursion, insert as inserted};
ghost use Rattle.law_machine.specs.Apart.{any_run_on};
ghost use Rattle.law_machine.specs.Index.{entries_of, lookup, Ascending};
ghost use Rattle.cs_frame.specs.Formats.{place_of};
ghost use Rattle.cs_index.specs.State.{IsId, IsStored, id_number, newest_first, named_entry, IsNext};
ghost use Rattle.law_machine.specs.Element.{Entry};
ghost use Rattle.cs_index.specs.Read.{IsReadable, ArePlaces, AreStarts};
ghost use Rattle.cs_index.specs.Sorted.{IsPlace, IsPut, IsStart, first_of};

use cs_frame::{Locator, Places, ShardId};
use std::alloc::AllocError;
use std::marker::Model;

/// A run of the index, with the place of its frame.
#[derive(Debug, Drop)]
pub struct StoredRun {
    /// Where its frame begins.
    pub place: Locator,
    /// Its entries, by rising identifiers: 1 to 8 locators each, or none for a deletion.
    pub entries: Vec<(ShardId, Places)>,
}

/// The locators that the newest of the runs, which are listed oldest first, has of an identifier.
pub fn find_in_runs(runs: &[StoredRun], id: ShardId) -> Option<&[Locator]>
    requires { AllByRecursion IsStored (newest_first runs.now) }
    ensures { option_map (map place_of) (option_copied result) ≡ lookup (id_number id) (entries_of (newest_first runs.now)) }
{
    for k in 0..runs.len() {
        let run = &runs[runs.len() - 1 - k];
        if let Some(locators) = find(&run.entries, id) {
            return Some(locators);
        }
    }
    None
}

/// The locators of an identifier by its last entry. Searches the table, and then one run after another, the newest
/// first.
pub fn last_of<'a>(
    table: &'a [(ShardId, Places)],
    runs: &'a [StoredRun],
    id: ShardId,
) -> Option<&'a [Locator]>
    requires { IsReadable table.now runs.now }
    ensures last { option_map (map place_of) (option_copied result) ≡ lookup (id_number id) (map named_entry table.now ++ entries_of (newest_first runs.now)) }
    ensures short { IfSome result (λ locators. length locators.now ≤ 8) }
{
    match find(table, id) {
        Some(locators) => Some(locators),
        None => find_in_runs(runs, id),
    }
}

/// How many identifiers have an entry once this one got one, which had one already or not.
pub fn count_after(named: usize, known: bool) -> usize
    requires { known ≡ false → named + 1 < 2 ^ 64 }
    ensures { result ≡ (if known then named else named + 1) }
{
    if known { named } else { named + 1 }
}

/// Tells clauses that each identifier of these entries has sixteen bytes. It has no effect.
fn are_entry_ids(entries: &[(ShardId, Places)])
    ensures { AllByRecursion (λ entry. IsId entry.0) entries.now }
{
    for entry in entries {
        let _bytes = entry.0.bytes();
    }
}

/// Tells clauses that each identifier of these runs has sixteen bytes. It has no effect.
pub fn are_ids(runs: &[StoredRun])
    ensures { AllByRecursion (λ run. AllByRecursion (λ entry. IsId entry.0) run.entries.items) runs.now }
{
    for run in runs {
        are_entry_ids(&run.entries);
    }
}

/// Whether one of the runs lies on an extent.
pub fn lies_on(runs: &[StoredRun], extent: usize) -> bool
    ensures { result ≡ any_run_on (newest_first runs.now) extent }
{
    let mut found = false;
    for k in 0..runs.len() {
        let run = &runs[k];
        found = either(usize::from(run.place.extent) == extent, found);
    }
    found
}

/// Whether one of two things is so.
fn either(a: bool, b: bool) -> bool
    ensures { result ≡ (a || b) }
{
    a || b
}

/// Whether one identifier is less than another.
pub fn is_before(a: ShardId, b: ShardId) -> bool
    ensures { result ≡ nat_lt (id_number a) (id_number b) }
{
    a.bytes().cmp(&b.bytes()).is_lt()
}

/// Whether two identifiers are the same.
pub fn is_same(a: ShardId, b: ShardId) -> bool
    ensures { result ≡ (id_number a == id_number b) }
{
    a.bytes() == b.bytes()
}

/// How many entries have a lesser identifier.
pub fn place(entries: &[(ShardId, Places)], id: ShardId) -> usize
    requires { Ascending (map named_entry entries.now) }
    ensures { IsPlace (id_number id) result (map named_entry entries.now) }
{
    let mut low: usize = 0;
    let mut high = entries.len();
    while low < high {
        let middle = low + (high - low) / 2;
        if is_before(entries[middle].0, id) {
            low = middle + 1;
        } else {
            high = middle;
        }
    }
    low
}

/// Whether an entry at this place has this identifier.
pub fn is_at(entries: &[(ShardId, Places)], k: usize, id: ShardId) -> bool
    ensures { MatchBool result ((x : Entry) × (slice_get (map named_entry entries.now) k ≡ Some x) × (x.id ≡ id_number id)) ((x : Entry) → slice_get (map named_entry entries.now) k ≡ Some x → x.id ≢ id_number id) }
{
    if k < entries.len() {
        is_same(entries[k].0, id)
    } else {
        false
    }
}

/// The locators of an identifier.
pub fn find(entries: &[(ShardId, Places)], id: ShardId) -> Option<&[Locator]>
    requires { Ascending (map named_entry entries.now) }
    ensures { option_map (map place_of) (option_copied result) ≡ lookup (id_number id) (map named_entry entries.now) }
{
    let k = place(entries, id);
    if is_at(entries, k, id) {
        Some(entries[k].1.as_slice())
    } else {
        None
    }
}

/// Gives an identifier other locators, and returns for how many more entries there is room.
pub fn put(
    entries: &mut Vec<(ShardId, Places)>,
    room: usize,
    id: ShardId,
    locators: Places,
) -> Result<usize, AllocError>
    requires ascending { Ascending (map named_entry entries.old.items) }
    requires ids { AllByRecursion (λ entry. IsId entry.0) entries.old.items }
    requires fits { vec_len entries.old + room ≤ vec_capacity entries.old }
    ensures put { OnOk result (IsPut (map named_entry entries.old.items) (id_number id) (map place_of locators.items) (map named_entry entries.new.items)) }
    ensures ids { OnOk result (AllByRecursion (λ entry. IsId entry.0) entries.new.items) }
    ensures fits { IfOk result (λ left. vec_len entries.new + left ≤ vec_capacity entries.new) }
    ensures room { IfOk result (λ left. room ≤ left + 1) }
    ensures memory { 0 < room → IsOk result }
    ensures err { OnErr result (entries.new.items ≡ entries.old.items) }
    ensures err_fits { OnErr result (vec_len entries.new + room ≤ vec_capacity entries.new) }
{
    let k = place(entries, id);
    if is_at(entries, k, id) {
        let entry = &mut entries[k];
        entry.1 = locators;
        Ok(room)
    } else {
        insert(entries, room, k, id, locators)
    }
}

/// Puts an entry between others, and returns for how many more there is room.
fn insert(
    entries: &mut Vec<(ShardId, Places)>,
    room: usize,
    k: usize,
    id: ShardId,
    locators: Places,
) -> Result<usize, AllocError>
    requires inside { k ≤ vec_len entries.old }
    requires fits { vec_len entries.old + room ≤ vec_capacity entries.old }
    ensures items { OnOk result (entries.new.items ≡ inserted entries.old.items k (id, locators)) }
    ensures id { IsId id }
    ensures fits { IfOk result (λ left. vec_len entries.new + left ≤ vec_capacity entries.new) }
    ensures room { IfOk result (λ left. room ≤ left + 1) }
    ensures memory { 0 < room → IsOk result }
    ensures err { OnErr result (entries.new.items ≡ entries.old.items) }
    ensures err_fits { OnErr result (vec_len entries.new + room ≤ vec_capacity entries.new) }
{
    let _bytes = id.bytes();
    entries.insert(k, (id, locators))?;
    Ok(room.saturating_sub(1))
}

/// The entries of an index by rising identifiers, of each identifier the last.
#[derive(Drop)]
pub struct Entries<'a> {
    table: &'a [(ShardId, Places)],
    runs: &'a [StoredRun],
    /// The identifier that was read last.
    after: Option<ShardId>,
    /// Where the entries after it begin in the table.
    table_place: usize,
    /// Where they begin in each run, oldest first.
    run_places: [usize; 24],
}

impl<'a> Model for Entries<'a> {
    ghost use Rattle.cs_index.specs.Read.{IsHeldAt, Reading, reading_of};

    ghost Value = { Reading };

    ghost view = { λ x. reading_of x.table.now x.runs.now x.after };

    ghost invariant = { λ x. IsHeldAt x.table.now x.runs.now x.after x.table_place x.run_places };
}

impl<'a> Entries<'a> {
    /// The entry of the next identifier, None after the last one. Compares two identifiers or so for the table and for
    /// each run.
    pub fn next_entry(&mut self) -> Option<(ShardId, &'a [Locator])>
        ensures next { IsNext self.old.index self.old.after (option_map (λ found. record { id = id_number found.0; locators = map place_of found.1.now }) result) }
        ensures short { IfSome result (λ found. length found.1.now ≤ 8) }
        ensures read { IfSome result (λ found. self.new ≡ record { index = self.old.index; after = Some (id_number found.0) }) }
        ensures end { result ≡ None → self.new ≡ self.old }
    {
        let entry = lesser(
            entry_at(self.table, self.table_place),
            first_in_runs(self.runs, &self.run_places),
        )?;
        self.table_place = skip(self.table, self.table_place, entry.0);
        skip_in_runs(self.runs, &mut self.run_places, entry.0);
        self.after = Some(entry.0);
        Some((entry.0, entry.1.as_slice()))
    }
}

/// The entries of a table and of runs, which are listed oldest first, from the least identifier on.
pub fn entries_from<'a>(table: &'a [(ShardId, Places)], runs: &'a [StoredRun]) -> Entries<'a>
    requires { IsReadable table.now runs.now }
    ensures { result ≡ record { index = map named_entry table.now ++ entries_of (newest_first runs.now); after = None } }
{
    Entries {
        table,
        runs,
        after: None,
        table_place: 0,
        run_places: [0; 24],
    }
}

/// The entries behind an identifier, if there is one, else all. Searches for it in the table and in each run.
pub fn entries_after<'a>(
    table: &'a [(ShardId, Places)],
    runs: &'a [StoredRun],
    after: Option<ShardId>,
) -> Entries<'a>
    requires { IsReadable table.now runs.now }
    ensures { result ≡ record { index = map named_entry table.now ++ entries_of (newest_first runs.now); after = option_map id_number after } }
{
    match after {
        Some(id) => Entries {
            table,
            runs,
            after,
            table_place: start_behind(table, id),
            run_places: starts_behind(runs, id),
        },
        None => entries_from(table, runs),
    }
}

/// Where the entries behind an identifier begin.
fn start_behind(entries: &[(ShardId, Places)], id: ShardId) -> usize
    requires { Ascending (map named_entry entries.now) }
    ensures { IsStart (Some (id_number id)) result (map named_entry entries.now) }
{
    skip(entries, place(entries, id), id)
}

/// Where they begin in each run.
fn starts_behind(runs: &[StoredRun], id: ShardId) -> [usize; 24]
    requires few { length runs.now ≤ 24 }
    requires stored { AllByRecursion IsStored (newest_first runs.now) }
    ensures { AreStarts (Some (id_number id)) runs.now result }
{
    let mut starts = [0; 24];
    for k in 0..runs.len() {
        let run = &runs[k];
        starts[k] = start_behind(&run.entries, id);
    }
    starts
}

/// The entry at a place, if there is one.
fn entry_at(entries: &[(ShardId, Places)], k: usize) -> Option<&(ShardId, Places)>
    ensures { option_copied result ≡ slice_get entries.now k }
{
    entries.get(k)
}

/// The entry with the lesser identifier; if both have the same, the newer one.
fn lesser<'a>(
    newer: Option<&'a (ShardId, Places)>,
    older: Option<&'a (ShardId, Places)>,
) -> Option<&'a (ShardId, Places)>
    ensures { option_map named_entry (option_copied result) ≡ first_of (option_map named_entry (option_copied newer.entry)) (option_map named_entry (option_copied older.entry)) }
{
    match newer {
        None => older,
        Some(first) => match older {
            None => newer,
            Some(second) => if is_before(second.0, first.0) {
                older
            } else {
                newer
            },
        },
    }
}

/// Of the entries at these places of the runs one with the least identifier, and of those the newest.
fn first_in_runs<'a>(runs: &'a [StoredRun], places: &[usize; 24]) -> Option<&'a (ShardId, Places)>
    requires few { length runs.now ≤ 24 }
    requires stored { AllByRecursion IsStored (newest_first runs.now) }
    ensures { (after : Option ℕ) → AreStarts after runs.now places.now → IsNext (entries_of (newest_first runs.now)) after (option_map named_entry (option_copied result)) }
{
    let mut first: Option<&(ShardId, Places)> = None;
    for k in 0..runs.len() {
        let run = &runs[k];
        first = lesser(entry_at(&run.entries, places[k]), first);
    }
    first
}

/// The place behind an identifier, if no entry before this place has it or a greater one.
fn skip(entries: &[(ShardId, Places)], k: usize, id: ShardId) -> usize
    requires ascending { Ascending (map named_entry entries.now) }
    requires place { IsPlace (id_number id) k (map named_entry entries.now) }
    ensures { IsStart (Some (id_number id)) result (map named_entry entries.now) }
{
    if is_at(entries, k, id) { k + 1 } else { k }
}

/// Moves the places of the runs behind an identifier.
fn skip_in_runs(runs: &[StoredRun], places: &mut [usize; 24], id: ShardId)
    requires few { length runs.now ≤ 24 }
    requires stored { AllByRecursion IsStored (newest_first runs.now) }
    requires places { ArePlaces (id_number id) runs.now places.old }
    ensures { AreStarts (Some (id_number id)) runs.now places.new }
{
    for k in 0..runs.len() {
        let run = &runs[k];
        places[k] = skip(&run.entries, places[k], id);
    }
}
