//! How many identifiers are named and live, what their entries weigh, and how many chunks of them are on each extent.
ghost use Rattle.std.specs.Prelude.{◌≡◌, ◌≢◌, ℕ, ◌+◌, ◌-◌, ◌^◌, ◌<◌, ◌≤◌, ◌++◌, IfSome, MatchBool, None, length, map, option_copied, option_map, replicate, slice_index};
ghost use Rattle.cs_frame.specs.Formats.{place_of};
ghost use Rattle.cs_index.specs.Read.{IsReadable};
ghost use Rattle.cs_index.specs.Held.{AreCounts, one_on};
ghost use Rattle.cs_index.specs.State.{named_entry, newest_first};
ghost use Rattle.law_machine.specs.Geometry.{weigh_in};
ghost use Rattle.law_machine.specs.Index.{entries_of, live, named_weight, names, weight};
ghost use Rattle.law_machine.specs.Tally.{one_if_some, places_on, shards};

use crate::stored_runs::{StoredRun, entries_from};
use cs_frame::{Format, Locator, Places, ShardId, entry_weight};

/// 1 if there is a locator, else 0.
fn one_if_living(locators: &[Locator]) -> usize
    ensures { result ≡ one_if_some (map place_of locators.now) }
{
    if locators.is_empty() { 0 } else { 1 }
}

/// What an identifier comes to in the counts of an index: whether it has an entry, 1 if that has locators, else 0, and
/// what it weighs, 0 if there is none.
#[derive(Clone, Copy, Debug)]
pub struct Standing {
    pub known: bool,
    pub living: usize,
    pub weight: usize,
}

/// What an identifier comes to whose last entry has these locators.
pub fn standing_of(format: Format, last: Option<&[Locator]>) -> Standing
    requires { IfSome last (λ locators. length locators.now ≤ 8) }
    ensures known { MatchBool result.known (option_map (map place_of) (option_copied last.entry) ≢ None) (option_map (map place_of) (option_copied last.entry) ≡ None) }
    ensures lives { result.living ≡ one_if_some (live (option_map (map place_of) (option_copied last.entry))) }
    ensures weighs { result.weight ≡ weight (weigh_in format) (option_map (map place_of) (option_copied last.entry)) }
{
    match last {
        Some(locators) => Standing {
            known: true,
            living: one_if_living(locators),
            weight: entry_weight(format, locators.len()),
        },
        None => Standing {
            known: false,
            living: 0,
            weight: 0,
        },
    }
}

/// What all identifiers come to if one comes to so much, which came to so much before.
pub fn sum_after(sum: usize, before: usize, now: usize) -> usize
    requires less { before ≤ sum }
    requires fits { (sum - before) + now < 2 ^ 64 }
    ensures { result ≡ (sum - before) + now }
{
    sum - before + now
}

/// How many extents a store has at most.
pub const MOST_EXTENTS: usize = 7680;

/// Counts a chunk more on an extent, if that is one that is counted.
fn add_one(on: &mut [u32], extent: usize)
    requires { extent < length on.old → slice_index on.old extent + 1 < 2 ^ 32 }
    ensures size { length on.new ≡ length on.old }
    ensures each { (e : ℕ) → e < length on.old → slice_index on.new e ≡ slice_index on.old e + one_on extent e }
{
    if on.len() <= extent {
        return;
    }
    on[extent] += 1;
}

/// Counts a chunk less on an extent, if that is one that is counted.
fn take_one(on: &mut [u32], extent: usize)
    requires { extent < length on.old → 1 ≤ slice_index on.old extent }
    ensures size { length on.new ≡ length on.old }
    ensures each { (e : ℕ) → e < length on.old → slice_index on.new e + one_on extent e ≡ slice_index on.old e }
{
    if on.len() <= extent {
        return;
    }
    on[extent] -= 1;
}

/// Counts these places more.
pub fn add_places(on: &mut [u32], places: &[Locator])
    requires { (e : ℕ) → e < length on.old → slice_index on.old e + places_on e (map place_of places.now) < 2 ^ 32 }
    ensures size { length on.new ≡ length on.old }
    ensures each { (e : ℕ) → e < length on.old → slice_index on.new e ≡ slice_index on.old e + places_on e (map place_of places.now) }
{
    for k in 0..places.len() {
        add_one(on, usize::from(places[k].extent));
    }
}

/// Counts these places less.
fn take_places(on: &mut [u32], places: &[Locator])
    requires { (e : ℕ) → e < length on.old → places_on e (map place_of places.now) ≤ slice_index on.old e }
    ensures size { length on.new ≡ length on.old }
    ensures each { (e : ℕ) → e < length on.old → slice_index on.new e + places_on e (map place_of places.now) ≡ slice_index on.old e }
{
    for k in 0..places.len() {
        take_one(on, usize::from(places[k].extent));
    }
}

/// Counts the places that an identifier had last no more.
pub fn take_last(on: &mut [u32], last: Option<&[Locator]>)
    requires { (e : ℕ) → e < length on.old → places_on e (live (option_map (map place_of) (option_copied last))) ≤ slice_index on.old e }
    ensures size { length on.new ≡ length on.old }
    ensures each { (e : ℕ) → e < length on.old → slice_index on.new e + places_on e (live (option_map (map place_of) (option_copied last.entry))) ≡ slice_index on.old e }
{
    if let Some(locators) = last {
        take_places(on, locators);
    }
}

/// How many identifiers are named, and what their newest entries weigh together.
#[derive(Clone, Copy, Debug)]
pub struct Newest {
    pub named: usize,
    pub weight: usize,
}

/// Counts the identifiers that a table and runs name, which are listed oldest first, and weighs the newest entry of
/// each in this format. Reads all entries.
pub fn count_newest(table: &[(ShardId, Places)], runs: &[StoredRun], format: Format) -> Newest
    requires readable { IsReadable table.now runs.now }
    requires few { names (map named_entry table.now ++ entries_of (newest_first runs.now)) < 2 ^ 40 }
    ensures named { result.named ≡ names (map named_entry table.now ++ entries_of (newest_first runs.now)) }
    ensures weight { result.weight ≡ named_weight (weigh_in format) (map named_entry table.now ++ entries_of (newest_first runs.now)) }
{
    let mut named: usize = 0;
    let mut weight: usize = 0;
    let mut read = entries_from(table, runs);
    while let Some((id, locators)) = read.next_entry() {
        let _bytes = id.bytes();
        named += 1;
        weight += entry_weight(format, locators.len());
    }
    Newest { named, weight }
}

/// How many identifiers of a table and of runs, which are listed oldest first, have locators. Counts into zeros how
/// many chunks live on each extent. Reads all entries.
pub fn count_living(table: &[(ShardId, Places)], runs: &[StoredRun], on: &mut [u32]) -> usize
    requires readable { IsReadable table.now runs.now }
    requires few { names (map named_entry table.now ++ entries_of (newest_first runs.now)) < 2 ^ 29 }
    requires zeros { on.old ≡ replicate 7680 0 }
    ensures living { result ≡ shards (map named_entry table.now ++ entries_of (newest_first runs.now)) }
    ensures counts { AreCounts on.new (map named_entry table.now ++ entries_of (newest_first runs.now)) }
{
    let mut count: usize = 0;
    let mut read = entries_from(table, runs);
    while let Some((id, locators)) = read.next_entry() {
        let _bytes = id.bytes();
        count += one_if_living(locators);
        add_places(on, locators);
    }
    count
}
