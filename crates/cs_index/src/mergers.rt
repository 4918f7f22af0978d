//! What a Stage merges with the table: so many of the newest runs, with their deletions or without them, and the run of
//! them.
ghost use Rattle.std.specs.Prelude.{◌≡◌, ◌≤◌, ◌∷◌, ◌++◌, [], IfOk, OnOk, drop, length, map, ◌+◌, ◌*◌, ◌^◌, ◌<◌, ◌&&◌, ◌||◌, if◌then◌else◌, nat_le, nat_lt, true};
ghost use Rattle.std.specs.List.{AllByRecursion};
ghost use Rattle.cs_extent.specs.State.{shape};
ghost use Rattle.cs_frame.specs.Formats.{place_of};
ghost use Rattle.cs_index.specs.Merges.{deletions_go, reached, stage_takes, IsRunOfPart};
ghost use Rattle.cs_index.specs.Read.{IsReadable};
ghost use Rattle.cs_index.specs.Sorted.{kept_entry, live_entry};
ghost use Rattle.cs_index.specs.State.{IsId, IsShort, id_number, index_of, named_entry, newest_first, named_entries};
ghost use Rattle.law_machine.specs.Device.{Shape};
ghost use Rattle.law_machine.specs.Geometry.{by_size_in, most_runs_in, weigh_in};
ghost use Rattle.law_machine.specs.Index.{entries_of, named_weight};
ghost use Rattle.law_machine.specs.Merges.{IsRunOf, reaching, sizes};
ghost use Rattle.law_machine.specs.Tally.{dead_weight, living_weight};

use crate::indexes::Index;
use crate::stored_runs::{StoredRun, entries_from};
use cs_extent::{Extents, Purpose};
use cs_frame::{Format, Locator, Places, Run, ShardId, entry_weight};
use std::alloc::{AllocError, Global};

/// Adds an entry behind the others.
fn add_entry(
    alloc: Global,
    entries: &mut Vec<(ShardId, Places)>,
    id: ShardId,
    locators: &[Locator],
) -> Result<(), AllocError>
    requires { AllByRecursion (λ entry. IsId entry.0) entries.old.items }
    ensures items { OnOk result (map named_entry entries.new.items ≡ map named_entry entries.old.items ++ record { id = id_number id; locators = map place_of locators.now } ∷ []) }
    ensures ids { OnOk result (AllByRecursion (λ entry. IsId entry.0) entries.new.items) }
    ensures id { IsId id }
{
    let _bytes = id.bytes();
    let copied = Places::from_slice(alloc, locators)?;
    entries.push((id, copied))?;
    Ok(())
}

/// Adds an entry behind the others, unless it is a deletion.
fn add_live(
    alloc: Global,
    entries: &mut Vec<(ShardId, Places)>,
    id: ShardId,
    locators: &[Locator],
) -> Result<(), AllocError>
    requires { AllByRecursion (λ entry. IsId entry.0) entries.old.items }
    ensures items { OnOk result (map named_entry entries.new.items ≡ map named_entry entries.old.items ++ live_entry (id_number id) (map place_of locators.now)) }
    ensures ids { OnOk result (AllByRecursion (λ entry. IsId entry.0) entries.new.items) }
    ensures id { IsId id }
{
    let _bytes = id.bytes();
    if locators.is_empty() {
        return Ok(());
    }
    let copied = Places::from_slice(alloc, locators)?;
    entries.push((id, copied))?;
    Ok(())
}

/// Adds an entry behind the others, unless it is a deletion and there are to be none.
fn add_kept(
    alloc: Global,
    entries: &mut Vec<(ShardId, Places)>,
    id: ShardId,
    locators: &[Locator],
    without_deletions: bool,
) -> Result<(), AllocError>
    requires { AllByRecursion (λ entry. IsId entry.0) entries.old.items }
    ensures items { OnOk result (map named_entry entries.new.items ≡ map named_entry entries.old.items ++ kept_entry without_deletions (id_number id) (map place_of locators.now)) }
    ensures ids { OnOk result (AllByRecursion (λ entry. IsId entry.0) entries.new.items) }
    ensures id { IsId id }
{
    if without_deletions {
        add_live(alloc, entries, id, locators)
    } else {
        add_entry(alloc, entries, id, locators)
    }
}

/// The entries of a table and of runs, which are listed oldest first, by rising identifiers, of each identifier the
/// last: with deletions or without them. Takes memory for them, and time for all entries.
pub fn merged_part(
    alloc: Global,
    table: &[(ShardId, Places)],
    runs: &[StoredRun],
    without_deletions: bool,
) -> Result<Run, AllocError>
    requires { IsReadable table.now runs.now }
    ensures merged { IfOk result (λ run. IsRunOf without_deletions (map named_entry table.now ++ entries_of (newest_first runs.now)) (named_entries run)) }
    ensures ids { IfOk result (λ run. AllByRecursion (λ entry. IsId entry.0) run.entries.items) }
    ensures short { IfOk result (λ run. AllByRecursion IsShort (named_entries run)) }
{
    let mut entries = Vec::new(alloc);
    let mut read = entries_from(table, runs);
    while let Some((id, locators)) = read.next_entry() {
        add_kept(alloc, &mut entries, id, locators, without_deletions)?;
    }
    Ok(Run { entries })
}

/// Whether a run of so many entries is merged with so many, where so many runs are left with it and there may be so
/// many: one that has at most twice as many entries, and one that would be one too many.
fn goes_on(count: usize, size: usize, left: usize, most: usize) -> bool
    requires { size < 2 ^ 61 }
    ensures { result ≡ (nat_le count (2 * size) || nat_le most left) }
{
    count <= 2 * size || most <= left
}

/// How many of these runs, which are listed oldest first, are merged with so many entries, the newest first, where a
/// root may have so many runs.
pub fn newest_reached(runs: &[StoredRun], entries: usize, most: usize) -> usize
    requires short { AllByRecursion (λ run. length run.entries.items < 2 ^ 32) runs.now }
    requires few { length runs.now < 2 ^ 16 }
    requires entries { entries < 2 ^ 32 }
    ensures { (S : Shape) → S.most_runs ≡ most → result ≡ reaching S (sizes (newest_first runs.now)) entries }
{
    let mut size = entries;
    for k in 0..runs.len() {
        let run = &runs[runs.len() - 1 - k];
        let count = run.entries.len();
        if !goes_on(count, size, runs.len() - k, most) {
            return k;
        }
        size += count;
    }
    runs.len()
}

/// Whether deletions go if so many of so many runs are merged: if all are, and some unless a Stage merges by size.
pub fn lets_deletions_go(runs: usize, newest: usize, by_size: bool) -> bool
    ensures { result ≡ (nat_le runs newest && (by_size || nat_lt 0 newest)) }
{
    runs <= newest && (by_size || 0 < newest)
}

/// What is merged with the table: so many of the newest runs, with their deletions or without them.
#[derive(Clone, Copy, Debug)]
pub struct Portion {
    pub newest: usize,
    pub without_deletions: bool,
}

/// The run that a Stage writes, for which purpose, and what it takes the place of with the table.
#[derive(Drop)]
pub struct Chosen {
    pub run: Run,
    pub purpose: Purpose,
    pub portion: Portion,
}

impl Index {
    /// What the deletions weigh among the newest entries.
    fn dead_weight(&self) -> usize
        ensures value { result ≡ dead_weight (weigh_in self.now.format) (index_of self.now) }
        ensures limit { result ≤ self.now.limit }
    {
        let dead = self.named - self.living;
        dead * entry_weight(self.format, 0)
    }

    /// What the newest entries weigh once a run took the place of others: where it is without deletions it is the only
    /// one, and they weigh nothing more, and else as much as before.
    pub(crate) fn weight_after(&self, without_deletions: bool) -> usize
        ensures { result ≡ (if without_deletions then living_weight (weigh_in self.now.format) (index_of self.now) else named_weight (weigh_in self.now.format) (index_of self.now)) }
    {
        if without_deletions {
            self.weight - self.dead_weight()
        } else {
            self.weight
        }
    }

    /// How many of the newest runs a Stage merges by size, where a root may have so many runs: all of them where the
    /// deletions weigh at least a quarter of what the newest entries may weigh.
    fn newest_by_size(&self, most: usize) -> usize
        requires { self.now.limit < 2 ^ 32 }
        ensures { (S : Shape) → S.weigh ≡ weigh_in self.now.format → S.most_weight ≡ self.now.limit → S.most_runs ≡ most → result ≡ reached S self.now }
    {
        let fourfold = 4 * self.dead_weight();
        if self.limit <= fourfold {
            return self.runs.len();
        }
        newest_reached(&self.runs, self.table.entries.len(), most)
    }

    /// How many of the newest runs a Stage merges in a store of this format.
    fn newest_to_merge(&self, format: Format) -> usize
        requires { self.now.limit < 2 ^ 32 }
        ensures { (S : Shape) → S.by_size ≡ by_size_in format → S.weigh ≡ weigh_in self.now.format → S.most_weight ≡ self.now.limit → S.most_runs ≡ most_runs_in format → result ≡ stage_takes S self.now }
    {
        if format.merges_by_size() {
            return self.newest_by_size(format.greatest_runs());
        }
        let runs = self.run_count();
        if runs < 4 { 0 } else { runs }
    }

    /// What a Stage merges.
    pub(crate) fn newest_portion(&self, extents: &Extents) -> Portion
        requires format { self.now.format ≡ (shape extents.now).format }
        requires limit { self.now.limit ≡ (shape extents.now).most_weight }
        ensures newest { result.newest ≡ stage_takes (shape extents.now) self.now }
        ensures deletions { result.without_deletions ≡ deletions_go (shape extents.now) self.now result.newest }
        ensures inside { result.newest ≤ length self.now.runs }
        ensures left { length (drop result.newest self.now.runs) < most_runs_in extents.now.format }
        ensures alone { result.without_deletions ≡ true → drop result.newest self.now.runs ≡ [] }
    {
        let format = extents.geometry().format();
        let newest = self.newest_to_merge(format);
        let runs = self.run_count();
        let by_size = format.merges_by_size();
        Portion {
            newest,
            without_deletions: lets_deletions_go(runs, newest, by_size),
        }
    }

    /// What a Stage merges if it merges all.
    pub(crate) fn whole_portion(&self, extents: &Extents) -> Portion
        ensures newest { result.newest ≡ length self.now.runs }
        ensures deletions { result.without_deletions ≡ deletions_go (shape extents.now) self.now result.newest }
    {
        let runs = self.run_count();
        let by_size = extents.geometry().format().merges_by_size();
        Portion {
            newest: runs,
            without_deletions: lets_deletions_go(runs, runs, by_size),
        }
    }

    /// The table and so much more as one run. Takes memory for it, and time for these entries.
    pub(crate) fn merged_newest(&self, alloc: Global, portion: Portion) -> Result<Run, AllocError>
        requires { portion.newest ≤ length self.now.runs }
        ensures { IfOk result (IsRunOfPart self.now portion.without_deletions portion.newest) }
    {
        let left = self.runs.len() - portion.newest;
        merged_part(
            alloc,
            &self.table.entries,
            &self.runs[left..],
            portion.without_deletions,
        )
    }
}
