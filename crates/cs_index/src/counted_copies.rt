//! Copies that a sweep wrote of chunks, and an index once they count.
ghost use Rattle.std.specs.Prelude.{◌≡◌, ◌∷◌, ◌<◌, ◌≤◌, ◌^◌, [], IfOk, MatchOption, OnErr, OnOk, false, length, map, true};
ghost use Rattle.cs_extent.specs.Appended.{IsReady};
ghost use Rattle.cs_extent.specs.State.{shape};
ghost use Rattle.cs_frame.specs.Formats.{place_of};
ghost use Rattle.law_machine.specs.Apart.{is_place};
ghost use Rattle.law_machine.specs.Geometry.{marks_in};
ghost use Rattle.law_machine.specs.Index.{live_at};
ghost use Rattle.law_machine.specs.Lists.{nth, replaced};
ghost use Rattle.cs_index.specs.Copies.{IsSettled, copy_of, newest_copies, IsStagedSettled};
ghost use Rattle.cs_index.specs.Held.{AreCounts};
ghost use Rattle.cs_index.specs.Merges.{part};
ghost use Rattle.cs_index.specs.State.{IsId, id_number, index_of, newest_first, named_entries};
ghost use Rattle.law_machine.specs.Merges.{IsRunOf};
ghost use Rattle.std.specs.List.{AllByRecursion};

use crate::indexes::Index;
use crate::live::NONE_KNOWN;
use crate::mergers::Portion;
use crate::stored_runs::StoredRun;
use cs_deps::Graph;
use cs_extent::Extents;
use cs_frame::{Locator, Places, Run, ShardId};
use cs_refusal::Refusal;
use std::alloc::{AllocError, Global};
use std::mem::replace;

/// A copy that a sweep wrote of a chunk: of which shard, the chunk's number there, where it was read and where it was
/// written.
#[derive(Clone, Copy, Debug)]
pub struct ChunkCopy {
    pub id: ShardId,
    pub chunk: usize,
    pub from: Locator,
    pub to: Locator,
}

/// Whether the chunk of this number lies at a place.
fn lies_at(locators: &[Locator], chunk: usize, place: Locator) -> bool
    ensures { result ≡ is_place (nth (map place_of locators.now) chunk) (place_of place) }
{
    if locators.len() <= chunk {
        return false;
    }
    locators[chunk] == place
}

/// The same locators but for one chunk, which lies elsewhere.
fn with_copy(
    alloc: Global,
    locators: &[Locator],
    chunk: usize,
    place: Locator,
) -> Result<Places, AllocError>
    requires { chunk < length locators.now }
    ensures places { IfOk result (λ new. map place_of new.items ≡ replaced (map place_of locators.now) chunk (place_of place)) }
    ensures size { IfOk result (λ new. length new.items ≡ length locators.now) }
{
    let mut new = Places::from_slice(alloc, locators)?;
    new.set(chunk, place);
    Ok(new)
}

/// Copies of an index's table, and of how many chunks live on each extent.
#[derive(Drop)]
struct Copied {
    table: Run,
    on: Vec<u32>,
}

/// What is merged with the table if it is copied alone.
const TABLE_ALONE: Portion = Portion {
    newest: 0,
    without_deletions: false,
};

impl Index {
    /// As `stage_root`, but first each of these copies, oldest first, counts: if its chunk still lies where it was
    /// copied from, it lies where the copy is. Returns the version of the root. `generation_worn` says that the
    /// generation of the extent that the caller is to empty would pass its greatest: then nothing is staged.
    ///
    /// 30 `Full` and 35 `WornOut` as `stage_root` once the copies count, and 35 if `generation_worn`; 9 `OutOfMemory`
    /// may come instead of either. After a refusal nothing has changed but the graph's room, and no copy counts. Takes
    /// memory for the table and the run, and time for its entries.
    pub fn stage_settled(
        &mut self,
        extents: &mut Extents,
        graph: &mut Graph,
        commands: u64,
        copies: &[ChunkCopy],
        generation_worn: bool,
    ) -> Result<u64, Refusal>
        requires apart { (shape extents.old).apart ≡ true }
        requires format { self.old.format ≡ (shape extents.old).format }
        requires limit { self.old.limit ≡ (shape extents.old).most_weight }
        requires runs { length self.old.runs ≤ (shape extents.old).most_runs }
        requires ready { IsReady extents.old graph.old.staging }
        requires commands { commands < 2 ^ 63 }

        // What is staged, and when it is refused, of the index once the copies count.
        ensures settled { IsStagedSettled self.old (newest_copies copies.now) extents.old graph.old commands generation_worn result self.new extents.new graph.new }

        // Whatever the answer, the next append may be made.
        ensures ready { IsReady extents.new graph.new.staging }

        ensures refused { OnErr result (self.new ≡ self.old) }
        ensures unwritten { OnErr result (extents.new ≡ extents.old) }
        ensures unstaged { OnErr result (graph.new ≡ record graph.old { room = graph.new.room }) }
    {
        let copied = self.copied()?;
        let alloc = *self.table.entries.allocator();
        let runs = replace(&mut self.runs, Vec::new(alloc));
        let mut settled = Index {
            table: copied.table,
            runs,
            named: self.named,
            living: self.living,
            weight: self.weight,
            on: copied.on,
            format: self.format,
            limit: self.limit,
            room: 0,
            cleared: NONE_KNOWN,
        };
        match settled.settle_and_stage(extents, graph, commands, copies, generation_worn) {
            Ok(version) => {
                *self = settled;
                Ok(version)
            }
            Err(refusal) => {
                self.runs = settled.into_runs();
                Err(refusal)
            }
        }
    }

    /// Copies of the table and of the counts by extent.
    fn copied(&self) -> Result<Copied, AllocError>
        ensures copy { IfOk result (λ made. IsRunOf false (part self.now 0) (named_entries made.table)) }
        ensures ids { IfOk result (λ made. AllByRecursion (λ entry. IsId entry.0) made.table.entries.items) }
        ensures counts { IfOk result (λ made. AreCounts made.on.items (index_of self.now)) }
    {
        let alloc = *self.table.entries.allocator();
        let table = self.merged_newest(alloc, TABLE_ALONE)?;
        let on = Vec::from_slice(alloc, &self.on)?;
        Ok(Copied { table, on })
    }

    /// The runs, oldest first.
    fn into_runs(self) -> Vec<StoredRun>
        ensures { newest_first result.items ≡ self.runs }
    {
        self.runs
    }

    /// Lets the copies count, and then stages. After a refusal some may count.
    fn settle_and_stage(
        &mut self,
        extents: &mut Extents,
        graph: &mut Graph,
        commands: u64,
        copies: &[ChunkCopy],
        generation_worn: bool,
    ) -> Result<u64, Refusal>
        requires apart { (shape extents.old).apart ≡ true }
        requires format { self.old.format ≡ (shape extents.old).format }
        requires limit { self.old.limit ≡ (shape extents.old).most_weight }
        requires runs { length self.old.runs ≤ (shape extents.old).most_runs }
        requires ready { IsReady extents.old graph.old.staging }
        requires commands { commands < 2 ^ 63 }
        ensures settled { IsStagedSettled self.old (newest_copies copies.now) extents.old graph.old commands generation_worn result self.new extents.new graph.new }
        ensures ready { IsReady extents.new graph.new.staging }
        ensures runs { OnErr result (self.new.runs ≡ self.old.runs) }
        ensures unwritten { OnErr result (extents.new ≡ extents.old) }
        ensures unstaged { OnErr result (graph.new ≡ record graph.old { room = graph.new.room }) }
    {
        match self.settle(copies) {
            Ok(()) => {}
            Err(_) => return Err(Refusal::OutOfMemory),
        }
        if generation_worn {
            return Err(self.why_not(extents));
        }
        self.stage_root(extents, graph, commands)
    }

    /// Lets these copies count, the oldest first. If memory is refused some count.
    fn settle(&mut self, copies: &[ChunkCopy]) -> Result<(), AllocError>
        requires { marks_in self.old.format ≡ true }
        ensures settled { OnOk result (IsSettled self.old (newest_copies copies.now) self.new) }
        ensures runs { self.new.runs ≡ self.old.runs }
    {
        for k in 0..copies.len() {
            self.settle_one(copies[k])?;
        }
        Ok(())
    }

    /// Lets a copy count, if its chunk still lies where it was copied from.
    fn settle_one(&mut self, copy: ChunkCopy) -> Result<(), AllocError>
        requires { marks_in self.old.format ≡ true }
        ensures settled { OnOk result (IsSettled self.old (copy_of copy ∷ []) self.new) }
        ensures runs { self.new.runs ≡ self.old.runs }
    {
        // Called for its contract alone: what an index keeps.
        self.run_count();
        match self.locators_then(copy)? {
            Some(locators) => self.enter(copy.id, locators),
            None => Ok(()),
        }
    }

    /// The locators of a shard once a copy counts, if its chunk still lies where it was copied from.
    fn locators_then(&self, copy: ChunkCopy) -> Result<Option<Places>, AllocError>
        ensures { IfOk result (λ locators. MatchOption locators
            (is_place (nth (live_at (index_of self.now) (id_number copy.id)) copy.chunk) (place_of copy.from) ≡ false)
            (λ new. (is_place (nth (live_at (index_of self.now) (id_number copy.id)) copy.chunk) (place_of copy.from) ≡ true) × (map place_of new.items ≡ replaced (live_at (index_of self.now) (id_number copy.id)) copy.chunk (place_of copy.to)) × (length new.items ≤ 8))) }
    {
        let alloc = *self.table.entries.allocator();
        let Some(locators) = self.lookup(copy.id) else {
            return Ok(None);
        };
        if !lies_at(locators, copy.chunk, copy.from) {
            return Ok(None);
        }
        let new = with_copy(alloc, locators, copy.chunk, copy.to)?;
        Ok(Some(new))
    }
}
