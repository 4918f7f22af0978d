//! The index of a store.
ghost use Rattle.std.specs.Prelude.{◌≡◌, ◌≢◌, ◌+◌, ◌<◌, ◌≤◌, ◌^◌, ◌⊎◌, ◌↔◌, ◌==◌, [], IfErr, IfOk, IfSome, IsOk, IsTrue, MatchOption, OnErr, OnOk, None, Some, MatchBool, length, map, option_copied, option_map, true, false};
ghost use Rattle.std.specs.List.{AllByRecursion};
ghost use Rattle.cs_frame.specs.Locators.{KeepFormat};
ghost use Rattle.cs_frame.specs.Runs.{IsRun};
ghost use Rattle.law_machine.specs.Apart.{any_run_on};
ghost use Rattle.law_machine.specs.Geometry.{weigh_in};
ghost use Rattle.law_machine.specs.Index.{FirstLive, NothingLive, entries_of, live_at, lookup, named_weight, names, weight_with};
ghost use Rattle.law_machine.specs.Tally.{lives_on, shards};
ghost use Rattle.cs_frame.specs.Formats.{place_of};
ghost use Rattle.cs_index.specs.State.{IsSet, IsWhole, id_number, index_of, newest_first};

use crate::counts::{
    MOST_EXTENTS, add_places, count_living, count_newest, standing_of, sum_after, take_last,
};
use crate::live::{Cleared, LiveChunk, NONE_KNOWN, known_up_to, search, still_cleared};
use crate::stored_runs::{
    Entries, StoredRun, are_ids, count_after, entries_after, entries_from, last_of, lies_on, put,
};
use cs_frame::{Format, Locator, Places, Run, ShardId, entry_weight};
use cs_refusal::Refusal;
use std::alloc::{AllocError, Global};
use std::marker::Model;

/// Which locators each shard has: a table in memory over the runs of its root, at most 24, and 4 in format 2.
#[derive(Drop)]
pub struct Index {
    /// The entries that no run has yet, by rising identifiers.
    pub(crate) table: Run,
    /// Oldest first.
    pub(crate) runs: Vec<StoredRun>,
    /// How many identifiers have an entry.
    pub(crate) named: usize,
    /// How many of them have locators.
    pub(crate) living: usize,
    /// What the newest entry of each weighs in the format, all together.
    pub(crate) weight: usize,
    /// How many chunks live on each extent that a store can have.
    pub(crate) on: Vec<u32>,
    /// The format of the store.
    pub(crate) format: Format,
    /// What they may weigh.
    pub(crate) limit: usize,
    /// So many more entries of the table have their place already.
    pub(crate) room: usize,
    /// What the last search of an extent found out.
    pub(crate) cleared: Cleared,
}

impl Model for Index {
    ghost use Rattle.std.specs.Prelude.{vec_capacity, vec_len};
    ghost use Rattle.cs_index.specs.Held.{IsHeld};
    ghost use Rattle.cs_index.specs.State.{State, state_of};

    ghost Value = { State };

    ghost view = { λ x. state_of x.table.entries.items x.runs.items x.format x.limit x.room };

    ghost invariant = { λ x. IsHeld (state_of x.table.entries.items x.runs.items x.format x.limit x.room) x.table.entries.items x.named x.living x.weight x.on.items (vec_len x.table.entries) (vec_capacity x.table.entries) x.cleared };
}

impl Index {
    /// The index of these runs, oldest first, with an empty table, in a store of this format. `limit` is what the
    /// newest entries of all identifiers may weigh together: as much as those of one run on one extent. An entry weighs
    /// `cs_frame::entry_weight`.
    ///
    /// 43 `NotAStore` if they weigh more, then 9 `OutOfMemory`. Asks for the memory of a number for each extent that a
    /// store can have. Reads all entries in order twice.
    pub fn load(
        alloc: Global,
        format: Format,
        limit: usize,
        runs: Vec<StoredRun>,
    ) -> Result<Index, Refusal>
        requires few { length runs.items ≤ 24 }
        requires runs { AllByRecursion (λ run. IsRun format (record { entries = run.entries })) runs.items }
        requires places { KeepFormat format (map (λ run. run.place) runs.items) }
        requires limit { limit < 2 ^ 29 }
        ensures loaded { IfOk result (λ x. x ≡ record { table = []; runs = newest_first runs.items; format = format; limit = limit; room = 0 }) }
        ensures full { (result ≡ Err Refusal.NotAStore) ↔ (limit < named_weight (weigh_in format) (entries_of (newest_first runs.items))) }
        ensures refusals { IfErr result (λ r. (r ≡ Refusal.NotAStore) ⊎ (r ≡ Refusal.OutOfMemory)) }
    {
        are_ids(&runs);
        let newest = count_newest(&[], &runs, format);
        if limit < newest.weight {
            return Err(Refusal::NotAStore);
        }
        let mut on = vec![in alloc; 0; MOST_EXTENTS]?;
        let living = count_living(&[], &runs, &mut on);
        Ok(Index {
            table: Run {
                entries: Vec::new(alloc),
            },
            runs,
            named: newest.named,
            living,
            weight: newest.weight,
            on,
            format,
            limit,
            room: 0,
            cleared: NONE_KNOWN,
        })
    }

    /// The locators of an identifier by its last entry, none of them if that is a deletion. Searches the table, and
    /// then one run after another, the newest first.
    pub fn lookup(&self, id: ShardId) -> Option<&[Locator]>
        ensures last { option_map (map place_of) (option_copied result) ≡ lookup (id_number id) (index_of self.now) }
        ensures short { IfSome result (λ locators. length locators.now ≤ 8) }
        ensures marks { IfSome result (λ locators. KeepFormat self.now.format locators.now) }
    {
        last_of(&self.table.entries, &self.runs, id)
    }

    /// The last entry of each identifier that has one, deletions included, by rising identifiers. All of them together
    /// cost as much as there are entries in the table and in the runs.
    pub fn entries(&self) -> Entries<'_>
        ensures { result ≡ record { index = index_of self.now; after = None } }
    {
        entries_from(&self.table.entries, &self.runs)
    }

    /// The same from behind an identifier on, which needn't be named. Searches for it in the table and in each run.
    pub fn entries_behind(&self, id: ShardId) -> Entries<'_>
        ensures { result ≡ record { index = index_of self.now; after = Some (id_number id) } }
    {
        entries_after(&self.table.entries, &self.runs, Some(id))
    }

    /// The runs, oldest first, each with the place of its frame and its entries.
    pub fn runs(&self) -> &[StoredRun]
        ensures { newest_first result.now ≡ self.now.runs }
    {
        &self.runs
    }

    /// The first live chunk on an extent, by identifier and then by chunk. If the last search was of the same extent it
    /// reads on from there, unless a shard that it had passed was given a locator there since, or all entries became
    /// one run: so searching an extent again and again, while its chunks are moved, reads each entry once.
    pub fn first_live(&mut self, extent: usize) -> Option<LiveChunk>
        ensures found { MatchOption result (NothingLive (index_of self.old) extent) (λ found. FirstLive (index_of self.old) extent (id_number found.id) found.chunk (place_of found.place)) }
        ensures same { self.new ≡ self.old }
    {
        let passed = known_up_to(self.cleared, extent);
        let entries = entries_after(&self.table.entries, &self.runs, passed);
        let (found, up_to) = search(entries, passed, extent);
        self.cleared = Cleared { extent, up_to };
        found
    }

    /// How many identifiers have an entry, deletions included. It costs no search.
    pub fn named_count(&self) -> usize
        ensures count { result ≡ names (index_of self.now) }
        ensures limit { result ≤ self.now.limit }
    {
        self.named
    }

    /// How many identifiers have locators. It costs no search.
    pub fn live_count(&self) -> usize
        ensures { result ≡ shards (index_of self.now) }
    {
        self.living
    }

    /// What the newest entry of each identifier weighs, all together. It costs no search.
    pub fn weight(&self) -> usize
        ensures weight { result ≡ named_weight (weigh_in self.now.format) (index_of self.now) }
        ensures limit { result ≤ self.now.limit }
    {
        self.weight
    }

    /// What they may weigh.
    pub fn limit(&self) -> usize
        ensures { result ≡ self.now.limit }
    {
        self.limit
    }

    /// The format of the store.
    pub fn format(&self) -> Format
        ensures { result ≡ self.now.format }
    {
        self.format
    }

    /// How many runs there are, at most 24.
    pub fn run_count(&self) -> usize
        ensures count { result ≡ length self.now.runs }
        ensures few { result ≤ 24 }
        ensures whole { IsWhole self.now }
    {
        self.runs.len()
    }

    /// How many chunks live on an extent. It costs no search.
    pub fn lives_on(&self, extent: usize) -> usize
        requires { extent < 7680 }
        ensures { result ≡ lives_on extent (index_of self.now) }
    {
        self.on[extent] as usize
    }

    /// Whether one of the runs lies on an extent.
    pub fn has_run_on(&self, extent: usize) -> bool
        ensures { result ≡ any_run_on self.now.runs extent }
    {
        lies_on(&self.runs, extent)
    }

    /// Whether all entries are in runs.
    pub fn is_table_empty(&self) -> bool
        ensures { IsTrue result ↔ (self.now.table ≡ []) }
    {
        self.table.entries.is_empty()
    }

    /// Makes room for so many entries in all: as many of the next calls of `set`, `erase` and `replace_if` ask for no
    /// memory. Each of them takes at most one from the room. If memory is refused the index stays as it is.
    pub fn reserve(&mut self, identifiers: usize) -> Result<(), AllocError>
        ensures room { OnOk result (identifiers ≤ self.new.room) }
        ensures kept { self.old.room ≤ self.new.room }
        ensures rest { self.new ≡ record self.old { room = self.new.room } }
        ensures memory { identifiers ≤ self.old.room → IsOk result }
    {
        self.table.entries.reserve(identifiers)?;
        self.room = self.room.max(identifiers);
        Ok(())
    }

    /// Whether the newest entries would weigh more than they may with one of so many chunks in place of what an
    /// identifier has. Searches for the identifier, and asks for no memory.
    pub fn is_full_for(&self, id: ShardId, chunks: usize) -> bool
        requires { chunks ≤ 8 }
        ensures { IsTrue result ↔ (self.now.limit < weight_with (weigh_in self.now.format) (index_of self.now) (id_number id) chunks) }
    {
        let before = standing_of(self.format, self.lookup(id));
        let now = entry_weight(self.format, chunks);
        self.limit < sum_after(self.weight, before.weight, now)
    }

    /// Gives an identifier other locators in the table. Searches for it once in all entries, and once more in the
    /// table.
    pub(crate) fn enter(&mut self, id: ShardId, locators: Places) -> Result<(), AllocError>
        requires short { length locators.items ≤ 8 }
        requires marks { KeepFormat self.old.format locators.items }
        requires limit { weight_with (weigh_in self.old.format) (index_of self.old) (id_number id) (length locators.items) ≤ self.old.limit }
        ensures entered { OnOk result (IsSet self.old (id_number id) (map place_of locators.items) self.new) }
        ensures room { self.old.room ≤ self.new.room + 1 }
        ensures memory { 0 < self.old.room → IsOk result }
        ensures err { OnErr result (self.new ≡ self.old) }
    {
        self.table.entries.reserve(1)?;
        let last = last_of(&self.table.entries, &self.runs, id);
        let before = standing_of(self.format, last);
        let now = standing_of(self.format, Some(locators.as_slice()));
        let cleared = still_cleared(self.cleared, id, locators.as_slice());
        take_last(&mut self.on, last);
        add_places(&mut self.on, locators.as_slice());
        match put(&mut self.table.entries, self.room.max(1), id, locators) {
            Ok(left) => {
                self.room = left;
                self.cleared = cleared;
                self.named = count_after(self.named, before.known);
                self.living = sum_after(self.living, before.living, now.living);
                self.weight = sum_after(self.weight, before.weight, now.weight);
                Ok(())
            }
            Err(_) => unreachable!(),
        }
    }

    /// Gives an identifier these locators, whatever it had before.
    ///
    /// 32 `IndexFull` if the newest entries would weigh more than they may with these in place of those, then 9
    /// `OutOfMemory`, only if `reserve` left no room and memory is refused. Costs two searches of the table and of each
    /// run.
    pub fn set(&mut self, id: ShardId, locators: Places) -> Result<(), Refusal>
        requires some { (1 ≤ length locators.items) × (length locators.items ≤ 8) }
        requires marks { KeepFormat self.old.format locators.items }
        ensures entered { OnOk result (IsSet self.old (id_number id) (map place_of locators.items) self.new) }
        ensures full { (result ≡ Err Refusal.IndexFull) ↔ (self.old.limit < weight_with (weigh_in self.old.format) (index_of self.old) (id_number id) (length locators.items)) }
        ensures refusals { IfErr result (λ r. (r ≡ Refusal.IndexFull) ⊎ (r ≡ Refusal.OutOfMemory)) }
        ensures refused { OnErr result (self.new ≡ self.old) }
        ensures memory { 0 < self.old.room → ¬ (result ≡ Err Refusal.OutOfMemory) }
        ensures room { self.old.room ≤ self.new.room + 1 }
    {
        if self.is_full_for(id, locators.as_slice().len()) {
            return Err(Refusal::IndexFull);
        }
        match self.enter(id, locators) {
            Ok(()) => Ok(()),
            Err(_) => Err(Refusal::OutOfMemory),
        }
    }

    /// Whether an identifier has locators. It asks for no memory.
    pub fn is_live(&self, id: ShardId) -> bool
        ensures { MatchBool result (live_at (index_of self.now) (id_number id) ≢ []) (live_at (index_of self.now) (id_number id) ≡ []) }
    {
        match self.lookup(id) {
            Some(locators) => !locators.is_empty(),
            None => false,
        }
    }

    /// Deletes an identifier that has locators, and returns whether it had any. The deletion is an entry of its own,
    /// which hides what the runs have. If it had none, or memory is refused, nothing changes.
    pub fn erase(&mut self, id: ShardId) -> Result<bool, AllocError>
        ensures answer { IfOk result (λ erased. IsTrue erased ↔ (live_at (index_of self.old) (id_number id) ≢ [])) }
        ensures entered { result ≡ Ok true → IsSet self.old (id_number id) [] self.new }
        ensures kept { result ≡ Ok false → self.new ≡ self.old }
        ensures err { OnErr result (self.new ≡ self.old) }
        ensures memory { 0 < self.old.room → IsOk result }
        ensures room { self.old.room ≤ self.new.room + 1 }
    {
        // Called for its contract alone: what an index keeps.
        self.run_count();
        if !self.is_live(id) {
            return Ok(false);
        }
        self.enter(id, Places::none())?;
        Ok(true)
    }

    /// Whether an identifier has exactly these locators.
    fn has(&self, id: ShardId, locators: &[Locator]) -> bool
        ensures { MatchBool result (lookup (id_number id) (index_of self.now) ≡ Some (map place_of locators.now)) (lookup (id_number id) (index_of self.now) ≢ Some (map place_of locators.now)) }
    {
        match self.lookup(id) {
            Some(found) => found == locators,
            None => false,
        }
    }

    /// Gives an identifier the new locators, no more than the old ones, if it has those, and returns whether it had. If
    /// it has others, or memory is refused, nothing changes.
    pub fn replace_if(
        &mut self,
        id: ShardId,
        old: &[Locator],
        new: Places,
    ) -> Result<bool, AllocError>
        requires some { (1 ≤ length new.items) × (length new.items ≤ 8) }
        requires no_more { length new.items ≤ length old.now }
        requires marks { KeepFormat self.old.format new.items }
        ensures answer { IfOk result (λ replaced. IsTrue replaced ↔ (lookup (id_number id) (index_of self.old) ≡ Some (map place_of old.now))) }
        ensures entered { result ≡ Ok true → IsSet self.old (id_number id) (map place_of new.items) self.new }
        ensures kept { result ≡ Ok false → self.new ≡ self.old }
        ensures err { OnErr result (self.new ≡ self.old) }
        ensures memory { 0 < self.old.room → IsOk result }
        ensures room { self.old.room ≤ self.new.room + 1 }
    {
        // Called for its contract alone: what an index keeps.
        self.run_count();
        if !self.has(id, old) {
            return Ok(false);
        }
        self.enter(id, new)?;
        Ok(true)
    }
}
