//! Puts and deletes.
ghost use Rattle.std.specs.Prelude.{◌≡◌, ◌≢◌, ◌<◌, ◌≤◌, ◌⊎◌, ℕ, List, IfErr, IfOk, MatchOption, OnErr, OnOk, false, length, map};
ghost use Rattle.cs_chunk.specs.Cuts.{IsCut};
ghost use Rattle.cs_extent.specs.State.{shape};
ghost use Rattle.cs_frame.specs.Formats.{place_of};
ghost use Rattle.cs_frame.specs.Locators.{KeepFormat};
ghost use Rattle.cs_index.specs.State.{IsSet, id_number, index_of};
ghost use Rattle.law_machine.specs.Geometry.{weigh_in};
ghost use Rattle.law_machine.specs.Index.{weight_with};
ghost use Rattle.law_machine.specs.State.{Accepted, Delete, Put};
ghost use Rattle.cs_core.specs.Lookups.{AreMeantBytes};
ghost use Rattle.cs_core.specs.Puts.{MeansTheSameBut};
ghost use Rattle.cs_core.specs.Replies.{MayRefuse};
ghost use Rattle.cs_core.specs.Steps.{Answers, deleted_or_not};
ghost use Rattle.cs_core.specs.Stored.{IsWhyWorn, but_for_room};
ghost use Rattle.cs_core.specs.Writebacks.{AddsCommand, KeepsRound, KeepsStaging, Stages};

use crate::events::Event;
use crate::stores::Store;
use cs_chunk::{Cut, Origin};
use cs_extent::Extents;
use cs_frame::{Places, ShardId};
use cs_index::Index;
use cs_refusal::Refusal;

impl Store {
    /// Stages a shard, chunk by chunk. Returns its number among the accepted commands.
    ///
    /// The refusals come in the order of `Event::Put`. Of 31 and 32 nothing is appended, and 9 `OutOfMemory` may come
    /// after them.
    pub fn put(&mut self, id: ShardId, bytes: &[u8]) -> Result<u64, Refusal>
        ensures adds { IfOk result (λ n. AddsCommand n self.old self.new) }
        ensures round { KeepsRound self.old self.new }
        ensures behind { OnOk result (Stages self.old self.new) }
        ensures meaning { OnOk result (AreMeantBytes self.new (id_number id) bytes.now × MeansTheSameBut (id_number id) self.old.index self.new.index) }
        ensures step { self.old.halted ≡ false → Answers self.old (Put (id_number id) bytes.now) (λ n. Accepted n) result self.new }
        ensures refused { OnErr result (but_for_room self.new ≡ but_for_room self.old) }
        ensures refusals { IfErr result (λ r. (r ≡ Refusal.OutOfMemory) ⊎ MayRefuse (Event.Put id bytes.now) r) }
        ensures shape { shape self.new.extents ≡ shape self.old.extents }
        ensures frontier { self.new.frontier ≡ self.old.frontier }
        ensures no_fault { IfErr result (λ r. r ≢ Refusal.DeviceFault) }
        ensures unlimited { IfErr result (λ r. r ≢ Refusal.HistoryFull) }
    {
        let Some(cut) = Cut::of(&self.extents, bytes.len()) else {
            return Err(Refusal::TooLarge);
        };
        if self.index.is_full_for(id, cut.count()) {
            return Err(Refusal::IndexFull);
        }
        if self.is_worn() {
            return Err(why_worn(&self.extents, cut));
        }
        self.index.reserve(1)?;
        // A chunk's head names the command that put it, counted from the first command of the store.
        let command = self.base + self.accepted + 1;
        let origin = Origin { id, command };
        match cut.put(
            self.alloc,
            &mut self.extents,
            &mut self.graph,
            origin,
            bytes,
        ) {
            Ok(places) => {
                enter(&mut self.index, id, places);
                self.accepted += 1;
                Ok(self.accepted)
            }
            Err(refusal) => Err(refusal),
        }
    }

    /// Deletes a shard. Returns the number of that among the accepted commands, or None if there is no such shard.
    pub fn delete(&mut self, id: ShardId) -> Result<Option<u64>, Refusal>
        ensures step { self.old.halted ≡ false → Answers self.old (Delete (id_number id)) deleted_or_not result self.new }
        ensures adds { IfOk result (λ deleted. MatchOption deleted (but_for_room self.new ≡ but_for_room self.old) (λ n. AddsCommand n self.old self.new)) }
        ensures round { KeepsRound self.old self.new }
        ensures staging { KeepsStaging self.old self.new }
        ensures meaning { OnOk result (MeansTheSameBut (id_number id) self.old.index self.new.index) }
        ensures refused { OnErr result (but_for_room self.new ≡ but_for_room self.old) }
        ensures refusals { IfErr result (λ r. (r ≡ Refusal.OutOfMemory) ⊎ MayRefuse (Event.Delete id) r) }
        ensures shape { shape self.new.extents ≡ shape self.old.extents }
        ensures frontier { self.new.frontier ≡ self.old.frontier }
        ensures no_fault { IfErr result (λ r. r ≢ Refusal.DeviceFault) }
        ensures unlimited { IfErr result (λ r. r ≢ Refusal.HistoryFull) }
    {
        // Called for its contract alone: what all extents keep.
        self.extents.extent_count();
        if !self.index.is_live(id) {
            return Ok(None);
        }
        if self.is_worn() {
            return Err(Refusal::WornOut);
        }
        match self.index.erase(id) {
            Ok(true) => {
                self.accepted += 1;
                Ok(Some(self.accepted))
            }
            Ok(false) => unreachable!(),
            Err(_) => Err(Refusal::OutOfMemory),
        }
    }
}

/// Why a put is refused if no further command can be numbered: 30 `Full` comes before 35 `WornOut`.
fn why_worn(extents: &Extents, cut: Cut) -> Refusal
    requires { cut.pages ≤ (shape extents.now).pages }
    ensures { (bytes : List ℕ) → IsCut (shape extents.now) (length bytes) cut → IsWhyWorn extents.now bytes result }
{
    if cut.fits(extents) {
        Refusal::WornOut
    } else {
        Refusal::Full
    }
}

/// Points an identifier at the chunks that were put under it.
fn enter(index: &mut Index, id: ShardId, places: Places)
    requires count { (1 ≤ length places.items) × (length places.items ≤ 8) }
    requires marks { KeepFormat index.old.format places.items }
    requires limit { weight_with (weigh_in index.old.format) (index_of index.old) (id_number id) (length places.items) ≤ index.old.limit }
    requires room { 0 < index.old.room }
    ensures { IsSet index.old (id_number id) (map place_of places.items) index.new }
{
    match index.set(id, places) {
        Ok(()) => {}
        Err(_) => unreachable!(),
    }
}
