//! The index becomes runs, and a root is staged over them.
ghost use Rattle.std.specs.Prelude.{◌≡◌, ◌≢◌, ◌⊎◌, ◌↔◌, ℕ, ◌+◌, ◌<◌, ◌≤◌, ◌^◌, [], IfErr, IfOk, None, OnErr, Some, drop, false, if◌then◌else◌, length, map, true, IsTrue, MatchBool, vec_capacity, vec_len};
ghost use Rattle.std.specs.List.{AllByRecursion};
ghost use Rattle.cs_extent.specs.Appended.{IsReady};
ghost use Rattle.cs_extent.specs.Purposes.{reason_of};
ghost use Rattle.cs_extent.specs.State.{shape, State as ExtentsState};
ghost use Rattle.cs_index.specs.Apart.{IsFullApart, IsStageFullApart, IsStageWornApart, IsStagedApart, WritesNewest, takes_apart};
ghost use Rattle.cs_index.specs.Merges.{deletions_go, IsRunOfPart};
ghost use Rattle.cs_index.specs.Staged.{IsExact, IsPartStaged, IsRootWorn, IsRunWorn, WritesPart, run_frame, IsRootOver, IsRunStaged, Fits, FitsNowhere, HasPlace};
ghost use Rattle.cs_index.specs.Stages.{DeletionsStay, IsStaged, IsTooFullToStage, IsTooWornToStage};
ghost use Rattle.cs_index.specs.State.{IsShort, index_of, newest_first, named_entries};
ghost use Rattle.law_machine.specs.Extents.{ForMerge, ForRun};
ghost use Rattle.law_machine.specs.Geometry.{most_runs_in, pages_first_in};
ghost use Rattle.law_machine.specs.Index.{live_at, lookup, run_weight};
ghost use Rattle.cs_extent.specs.Frames.{root_family};
ghost use Rattle.cs_extent.specs.Worn.{IsFrameWorn};
ghost use Rattle.cs_frame.specs.FormatRuns.{run_size};
ghost use Rattle.cs_frame.specs.Formats.{place_of};
ghost use Rattle.cs_frame.specs.Frames.{page_count};
ghost use Rattle.cs_frame.specs.Locators.{KeepFormat};
ghost use Rattle.cs_frame.specs.Runs.{IsRun, entries_of};

use crate::indexes::Index;
use crate::live::NONE_KNOWN;
use crate::mergers::Chosen;
use crate::stored_runs::StoredRun;
use cs_deps::{Graph, LAST_NUMBER};
use cs_extent::{Extents, Purpose, ROOT, root_needs};
use cs_frame::{
    Format, FrameKind, Locator, Root, Run, encode_frame, encode_root, encode_run, frame_pages,
    run_size,
};
use cs_refusal::Refusal;
use std::alloc::{AllocError, Global};

impl Index {
    /// Stages the table and as many of the newest runs as a Stage merges as one run, with `Purpose::Run`, and the root
    /// over it and the older runs, after which the table is empty. If chunks and runs lie apart, and no extent takes
    /// that run, the table and all runs become one, with `Purpose::Merge`. `commands` is how many puts and deletes the
    /// root includes. Returns the version of the root, or None if the table is empty: then nothing changes.
    ///
    /// 30 `Full` if no extent takes such a run, then 35 `WornOut` if a number would pass 2^63 - 1; 9 `OutOfMemory` may
    /// come instead of either. After a refusal nothing has changed but the graph's room. Takes memory for the run, and
    /// time for its entries.
    pub fn stage(
        &mut self,
        extents: &mut Extents,
        graph: &mut Graph,
        commands: u64,
    ) -> Result<Option<u64>, Refusal>
        requires format { self.old.format ≡ (shape extents.old).format }
        requires limit { self.old.limit ≡ (shape extents.old).most_weight }
        requires runs { (shape extents.old).apart ≡ true → length self.old.runs ≤ (shape extents.old).most_runs }
        requires ready { IsReady extents.old graph.old.staging }
        requires commands { commands < 2 ^ 63 }

        // What is staged.
        ensures none { IfOk result (λ staged. (staged ≡ None) ↔ (self.old.table ≡ [])) }
        ensures unchanged { result ≡ Ok None → (self.new ≡ self.old) × (extents.new ≡ extents.old) × (graph.new ≡ graph.old) }
        ensures staged { (v : ℕ) → result ≡ Ok (Some v) → IsStaged self.old extents.old graph.old v commands self.new extents.new graph.new }

        // The map stays: every entry where no merge takes deletions away, and all that is live in any case.
        ensures lookups { DeletionsStay self.old extents.old → (id : ℕ) → lookup id (index_of self.new) ≡ lookup id (index_of self.old) }
        ensures map { (id : ℕ) → live_at (index_of self.new) id ≡ live_at (index_of self.old) id }

        // Whatever the answer, the next append may be made.
        ensures ready { IsReady extents.new graph.new.staging }

        ensures why { IsExact result (IsTooFullToStage self.old extents.old) ((self.old.table ≢ []) × IsTooWornToStage self.old extents.old graph.old.staging) }
        ensures refused { OnErr result (self.new ≡ self.old) }
        ensures unwritten { OnErr result (extents.new ≡ extents.old) }
        ensures unstaged { OnErr result (graph.new ≡ record graph.old { room = graph.new.room }) }
    {
        if self.is_table_empty() {
            return Ok(None);
        }
        if extents.is_apart() {
            let version = self.stage_root(extents, graph, commands)?;
            return Ok(Some(version));
        }
        let version = self.stage_v2(extents, graph, commands)?;
        Ok(Some(version))
    }

    /// Stages the table and as many of the newest runs as a Stage merges as one run, with `Purpose::Run`; if no extent
    /// takes that run, the table and all runs as one, with `Purpose::Merge`. If the table is empty nothing is merged.
    /// Then stages the root over the runs that stand, always, and the table is empty. `commands` is how many puts and
    /// deletes the root includes. Returns the version of the root.
    ///
    /// 30 `Full` if no extent takes either run, then 35 `WornOut` if a number would pass 2^63 - 1; 9 `OutOfMemory` may
    /// come instead of either. After a refusal nothing has changed but the graph's room. Takes memory for the run, and
    /// time for its entries.
    pub fn stage_root(
        &mut self,
        extents: &mut Extents,
        graph: &mut Graph,
        commands: u64,
    ) -> Result<u64, Refusal>
        requires apart { (shape extents.old).apart ≡ true }
        requires format { self.old.format ≡ (shape extents.old).format }
        requires limit { self.old.limit ≡ (shape extents.old).most_weight }
        requires runs { length self.old.runs ≤ (shape extents.old).most_runs }
        requires ready { IsReady extents.old graph.old.staging }
        requires commands { commands < 2 ^ 63 }

        // What is staged.
        ensures staged { IfOk result (λ v. IsStagedApart self.old extents.old graph.old v commands self.new extents.new graph.new) }

        // The map stays: every entry where no merge takes deletions away, and all that is live in any case.
        ensures lookups { deletions_go (shape extents.old) self.old (takes_apart (shape extents.old) self.old) ≡ false → ¬ IsFullApart (WritesNewest (shape extents.old) self.old (takes_apart (shape extents.old) self.old)) extents.old ForRun → (id : ℕ) → lookup id (index_of self.new) ≡ lookup id (index_of self.old) }
        ensures map { (id : ℕ) → live_at (index_of self.new) id ≡ live_at (index_of self.old) id }

        // Whatever the answer, the next append may be made.
        ensures ready { IsReady extents.new graph.new.staging }

        ensures why { IsExact result (IsStageFullApart self.old extents.old) (IsStageWornApart self.old extents.old graph.old.staging) }
        ensures refused { OnErr result (self.new ≡ self.old) }
        ensures unwritten { OnErr result (extents.new ≡ extents.old) }
        ensures unstaged { OnErr result (graph.new ≡ record graph.old { room = graph.new.room }) }
    {
        if self.is_table_empty() {
            let format = extents.geometry().format();
            let places = places_of(*self.table.entries.allocator(), &self.runs)?;
            return stage_over(graph, format, places, commands);
        }
        match self.choose(extents) {
            Ok(chosen) => self.stage_chosen(extents, graph, chosen, commands),
            Err(refusal) => Err(refusal),
        }
    }

    /// Why a Stage is refused that a number of the caller's forbids.
    pub(crate) fn why_not(&self, extents: &Extents) -> Refusal
        requires apart { (shape extents.now).apart ≡ true }
        requires format { self.now.format ≡ (shape extents.now).format }
        requires limit { self.now.limit ≡ (shape extents.now).most_weight }
        ensures { ((result ≡ Refusal.WornOut) × ¬ IsStageFullApart self.now extents.now) ⊎ ((result ≡ Refusal.Full) × IsStageFullApart self.now extents.now) ⊎ (result ≡ Refusal.OutOfMemory) }
    {
        if self.is_table_empty() {
            return Refusal::WornOut;
        }
        match self.choose(extents) {
            Ok(_) => {}
            Err(refusal) => return refusal,
        }
        Refusal::WornOut
    }

    /// Chooses the run that a Stage writes, if the table isn't empty: that of as many of the newest runs as it takes,
    /// or if no extent takes it that of all.
    ///
    /// 30 `Full` if no extent takes either; 9 `OutOfMemory` may come instead.
    fn choose(&self, extents: &Extents) -> Result<Chosen, Refusal>
        requires some { self.now.table ≢ [] }
        requires apart { (shape extents.now).apart ≡ true }
        requires format { self.now.format ≡ (shape extents.now).format }
        requires limit { self.now.limit ≡ (shape extents.now).most_weight }
        ensures inside { IfOk result (λ x. x.portion.newest ≤ length self.now.runs) }
        ensures deletions { IfOk result (λ x. x.portion.without_deletions ≡ deletions_go (shape extents.now) self.now x.portion.newest) }
        ensures run { IfOk result (λ x. IsRunOfPart self.now x.portion.without_deletions x.portion.newest x.run) }
        ensures chosen { IfOk result (λ x. ((reason_of x.purpose ≡ ForRun) × (x.portion.newest ≡ takes_apart (shape extents.now) self.now))
            ⊎ ((reason_of x.purpose ≡ ForMerge) × (x.portion.newest ≡ length self.now.runs) × IsFullApart (WritesNewest (shape extents.now) self.now (takes_apart (shape extents.now) self.now)) extents.now ForRun)) }
        ensures left { IfOk result (λ x. length (drop x.portion.newest self.now.runs) < (shape extents.now).most_runs) }
        ensures placed { IfOk result (λ x. Fits extents.now (reason_of x.purpose) (named_entries x.run)) }
        ensures refused { IfErr result (λ r. ((r ≡ Refusal.Full) × IsStageFullApart self.now extents.now) ⊎ (r ≡ Refusal.OutOfMemory)) }
    {
        let alloc = *self.table.entries.allocator();
        let portion = self.newest_portion(extents);
        let run = self.merged_newest(alloc, portion)?;
        if run_fits(extents, &run, Purpose::Run) {
            return Ok(Chosen {
                run,
                purpose: Purpose::Run,
                portion,
            });
        }
        let whole = self.whole_portion(extents);
        let all = self.merged_newest(alloc, whole)?;
        if run_fits(extents, &all, Purpose::Merge) {
            return Ok(Chosen {
                run: all,
                purpose: Purpose::Merge,
                portion: whole,
            });
        }
        Err(Refusal::Full)
    }

    /// Stages the run that was chosen, if it has an entry, in place of the table and of so many of the newest runs, and
    /// the root over it and the older runs.
    pub(crate) fn stage_chosen(
        &mut self,
        extents: &mut Extents,
        graph: &mut Graph,
        chosen: Chosen,
        commands: u64,
    ) -> Result<u64, Refusal>
        requires some { (chosen.portion.without_deletions ≡ true) ⊎ (self.old.table ≢ []) }
        requires inside { chosen.portion.newest ≤ length self.old.runs }
        requires alone { chosen.portion.without_deletions ≡ true → drop chosen.portion.newest self.old.runs ≡ [] }
        requires run { IsRunOfPart self.old chosen.portion.without_deletions chosen.portion.newest chosen.run }
        requires left { length (drop chosen.portion.newest self.old.runs) < most_runs_in extents.old.format }
        requires placed { Fits extents.old (reason_of chosen.purpose) (named_entries chosen.run) }
        requires format { self.old.format ≡ (shape extents.old).format }
        requires limit { self.old.limit ≡ (shape extents.old).most_weight }
        requires ready { IsReady extents.old graph.old.staging }
        requires commands { commands < 2 ^ 63 }
        ensures staged { IfOk result (λ v. IsPartStaged chosen.portion.without_deletions chosen.portion.newest self.old extents.old graph.old (reason_of chosen.purpose) v commands self.new extents.new graph.new) }
        ensures ready { IsReady extents.new graph.new.staging }
        ensures why { IsExact result ⊥ (IsRootWorn graph.old.staging ⊎ IsRunWorn (WritesPart chosen.portion.without_deletions self.old chosen.portion.newest) extents.old (reason_of chosen.purpose) graph.old.staging) }
        ensures refused { OnErr result (self.new ≡ self.old) }
        ensures unwritten { OnErr result (extents.new ≡ extents.old) }
        ensures unstaged { OnErr result (graph.new ≡ record graph.old { room = graph.new.room }) }
    {
        let alloc = *self.table.entries.allocator();
        let Chosen {
            run,
            purpose,
            portion,
        } = chosen;
        let format = extents.geometry().format();
        if run.entries.is_empty() {
            let version = stage_over(graph, format, Vec::new(alloc), commands)?;
            self.become_empty(alloc);
            return Ok(version);
        }
        let left = self.runs.len() - portion.newest;
        let weight = self.weight_after(portion.without_deletions);
        let named = named_after(self.named, &run, portion.without_deletions);
        self.runs.reserve(1)?;
        match stage_run(extents, graph, &run, &self.runs[..left], commands, purpose) {
            Ok((place, version)) => {
                self.runs.truncate(left);
                self.runs.push_reserved(StoredRun {
                    place,
                    entries: run.entries,
                });
                self.table = Run {
                    entries: Vec::new(alloc),
                };
                self.named = named;
                self.weight = weight;
                self.room = 0;
                self.cleared = NONE_KNOWN;
                Ok(version)
            }
            Err(refusal) => Err(refusal),
        }
    }

    /// Lets all entries go, of which none lives.
    fn become_empty(&mut self, alloc: Global)
        requires { (id : ℕ) → live_at (index_of self.old) id ≡ [] }
        ensures { self.new ≡ record { table = []; runs = []; format = self.old.format; limit = self.old.limit; room = 0 } }
    {
        self.table = Run {
            entries: Vec::new(alloc),
        };
        self.runs = Vec::new(alloc);
        self.named = 0;
        self.living = 0;
        self.weight = 0;
        self.room = 0;
        self.cleared = NONE_KNOWN;
    }
}

/// How many identifiers are named once a run took the place of others: where it is without deletions it is the only
/// one, and names them all, and else as many as before.
fn named_after(named: usize, run: &Run, without_deletions: bool) -> usize
    ensures { result ≡ (if without_deletions then length run.now.entries.items else named) }
{
    if without_deletions {
        run.entries.len()
    } else {
        named
    }
}

/// Whether the last number of a root is given.
fn is_last_root(graph: &Graph) -> bool
    requires { root_family < length graph.now.staging.latest }
    ensures { IsTrue result ↔ IsRootWorn graph.now.staging }
{
    LAST_NUMBER <= graph.last_version(ROOT)
}

/// Stages the next version of the root, in this format, over runs whose frames begin at these places, oldest first. It
/// needs all plain writes that were staged where those don't come first.
fn push_root(graph: &mut Graph, format: Format, places: Vec<Locator>, commands: u64) -> u64
    requires families { root_family < length graph.old.staging.latest }
    requires few { length graph.old.staging.latest ≤ 16 }
    requires room { 0 < graph.old.room }
    requires number { ¬ IsRootWorn graph.old.staging }
    requires commands { commands < 2 ^ 63 }
    requires places { length places.items ≤ most_runs_in format }
    requires marks { KeepFormat format places.items }
    ensures staged { IsRootOver format (pages_first_in format) graph.old graph.new result commands places.items }
    ensures ready { (x : ExtentsState) → IsReady x graph.old.staging → IsReady x graph.new.staging }
{
    let alloc = *places.allocator();
    let version = graph.last_version(ROOT) + 1;
    let needs = root_needs(alloc, graph, format.pages_first());
    let root = Root {
        store: format.store(),
        version,
        commands,
        runs: places,
    };
    let page = encode_root(&root);
    match graph.stage_version(ROOT, 1, &page, needs) {
        Ok(staged) => staged,
        Err(_) => unreachable!(),
    }
}

/// The pages that spell a run in this format.
fn frame_of(alloc: Global, format: Format, run: &Run) -> Result<Vec<[u8; 4096]>, AllocError>
    requires run { IsRun format run.now }
    requires most { run_size format (entries_of run.now.entries.items) < 2 ^ 32 }
    ensures frame { IfOk result (λ frame. (x : ExtentsState) → x.format ≡ format → frame.items ≡ run_frame x (named_entries run.now)) }
    ensures count { IfOk result (λ frame. length frame.items ≡ page_count (run_size format (entries_of run.now.entries.items))) }
{
    let payload = encode_run(alloc, format, run)?;
    encode_frame(alloc, format.number(), FrameKind::Run, &payload)
}

/// Where the frames of these runs begin, with room for one more.
fn places_of(alloc: Global, runs: &[StoredRun]) -> Result<Vec<Locator>, AllocError>
    requires { length runs.now ≤ 24 }
    ensures places { IfOk result (λ places. places.items ≡ map (λ run. run.place) runs.now) }
    ensures room { IfOk result (λ places. vec_len places < vec_capacity places) }
{
    let mut places = Vec::with_capacity(alloc, runs.len() + 1)?;
    for run in runs {
        places.push_reserved(run.place);
    }
    Ok(places)
}

/// How many pages the frame of a run has.
fn run_pages(extents: &Extents, run: &Run) -> usize
    requires short { AllByRecursion IsShort (named_entries run.now) }
    requires weight { run_weight (shape extents.now).weigh (named_entries run.now) ≤ (shape extents.now).most_weight }
    ensures count { result ≡ length (run_frame extents.now (named_entries run.now)) }
    ensures fits { (1 ≤ result) × (result ≤ (shape extents.now).pages) }
{
    frame_pages(run_size(extents.geometry().format(), run))
}

/// Whether a run needs no place, as it has no entry, or an extent takes its frame.
pub fn run_fits(extents: &Extents, run: &Run, purpose: Purpose) -> bool
    requires short { AllByRecursion IsShort (named_entries run.now) }
    requires weight { run_weight (shape extents.now).weigh (named_entries run.now) ≤ (shape extents.now).most_weight }
    ensures { MatchBool result (Fits extents.now (reason_of purpose) (named_entries run.now)) (FitsNowhere extents.now (reason_of purpose) (named_entries run.now)) }
{
    if run.entries.is_empty() {
        return true;
    }
    extents.has_place(run_pages(extents, run), purpose)
}

/// Makes what is written with a run: the pages of its frame, the places of the older runs with room for one more, and
/// room in the graph for all that is staged.
///
/// 35 `WornOut` if the last number of a root is given; 9 `OutOfMemory` may come instead.
fn prepare(
    extents: &Extents,
    graph: &mut Graph,
    run: &Run,
    older: &[StoredRun],
) -> Result<(Vec<[u8; 4096]>, Vec<Locator>), Refusal>
    requires run { IsRun extents.now.format run.now }
    requires weight { run_weight (shape extents.now).weigh (named_entries run.now) ≤ (shape extents.now).most_weight }
    requires few { length older.now ≤ 24 }
    requires ready { IsReady extents.now graph.old.staging }
    ensures frame { IfOk result (λ made. made.0.items ≡ run_frame extents.now (named_entries run.now)) }
    ensures pages { IfOk result (λ made. (1 ≤ length made.0.items) × (length made.0.items ≤ (shape extents.now).pages)) }
    ensures places { IfOk result (λ made. made.1.items ≡ map (λ run. run.place) older.now) }
    ensures spare { IfOk result (λ made. vec_len made.1 < vec_capacity made.1) }
    ensures room { IfOk result (λ made. length made.0.items + 2 ≤ graph.new.room) }
    ensures why { IsExact result ⊥ (IsRootWorn graph.old.staging) }
    ensures rest { graph.new ≡ record graph.old { room = graph.new.room } }
{
    let alloc = *run.entries.allocator();
    let frame = frame_of(alloc, extents.geometry().format(), run)?;
    let places = places_of(alloc, older)?;
    if is_last_root(graph) {
        return Err(Refusal::WornOut);
    }
    graph.reserve(frame.len() + 2)?;
    Ok((frame, places))
}

/// Stages a run, for which there is a place, for this purpose, and the root over the older runs and this one. Returns
/// where the run's frame begins, and the version of the root.
///
/// 35 `WornOut` if a number would pass 2^63 - 1; 9 `OutOfMemory` may come instead.
pub fn stage_run(
    extents: &mut Extents,
    graph: &mut Graph,
    run: &Run,
    older: &[StoredRun],
    commands: u64,
    purpose: Purpose,
) -> Result<(Locator, u64), Refusal>
    requires run { IsRun extents.old.format run.now }
    requires weight { run_weight (shape extents.old).weigh (named_entries run.now) ≤ (shape extents.old).most_weight }
    requires few { length older.now < most_runs_in extents.old.format }
    requires marks { KeepFormat extents.old.format (map (λ run. run.place) older.now) }
    requires placed { HasPlace extents.old (reason_of purpose) (named_entries run.now) }
    requires ready { IsReady extents.old graph.old.staging }
    requires commands { commands < 2 ^ 63 }
    ensures staged { IfOk result (λ made. IsRunStaged extents.old graph.old (reason_of purpose) (named_entries run.now) (newest_first older.now) (place_of made.0) made.1 commands extents.new graph.new) }
    ensures ready { IsReady extents.new graph.new.staging }
    ensures why { IsExact result ⊥ (IsRootWorn graph.old.staging ⊎ IsFrameWorn extents.old (reason_of purpose) graph.old.staging (length (run_frame extents.old (named_entries run.now)))) }
    ensures refused { OnErr result (extents.new ≡ extents.old) }
    ensures unstaged { OnErr result (graph.new ≡ record graph.old { room = graph.new.room }) }
{
    let format = extents.geometry().format();
    let (frame, mut places) = prepare(extents, graph, run, older)?;
    match extents.append(graph, &frame, purpose) {
        Ok((place, _)) => {
            places.push_reserved(place);
            let version = push_root(graph, format, places, commands);
            Ok((place, version))
        }
        Err(refusal) => Err(refusal),
    }
}

/// Stages the root over the runs at these places, oldest first.
///
/// 35 `WornOut` if the last number of a root is given, then 9 `OutOfMemory`, if the graph has no room and gets none.
fn stage_over(
    graph: &mut Graph,
    format: Format,
    places: Vec<Locator>,
    commands: u64,
) -> Result<u64, Refusal>
    requires families { root_family < length graph.old.staging.latest }
    requires few { length graph.old.staging.latest ≤ 16 }
    requires commands { commands < 2 ^ 63 }
    requires places { length places.items ≤ most_runs_in format }
    requires marks { KeepFormat format places.items }
    ensures staged { IfOk result (λ v. IsRootOver format (pages_first_in format) graph.old graph.new v commands places.items) }
    ensures ready { (x : ExtentsState) → IsReady x graph.old.staging → IsReady x graph.new.staging }
    ensures why { IsExact result ⊥ (IsRootWorn graph.old.staging) }
    ensures unstaged { OnErr result (graph.new ≡ record graph.old { room = graph.new.room }) }
{
    if is_last_root(graph) {
        return Err(Refusal::WornOut);
    }
    graph.reserve(1)?;
    Ok(push_root(graph, format, places, commands))
}
