//! Which lengths of chunks are known without a read: those of chunks that were read, put or moved since their extent was
//! emptied.
ghost use Rattle.std.specs.Prelude.{◌≡◌, ◌⊎◌, ◌+◌, ◌<◌, ◌↔◌, ◌∷◌, [], ℕ, IfSome, IsTrue, List, OnOk, Some, map};
ghost use Rattle.cs_extent.specs.State.{extents_of, shape};
ghost use Rattle.cs_frame.specs.declared.frames.FrameKind.TheVariants.{Chunk};
ghost use Rattle.cs_frame.specs.declared.locators.Locator.{Locator as Place};
ghost use Rattle.cs_frame.specs.Formats.{as_locator};
ghost use Rattle.cs_index.specs.State.{id_number, index_of};
ghost use Rattle.law_machine.specs.Index.{live_at};
ghost use Rattle.law_refinement.specs.cs_reclaim.Copied.{last_place_of};
ghost use Rattle.cs_core.specs.Known.{AreNotedIfWaiting, IsGiven, NotesWhatWaits, StayNoted, moved_to};
ghost use Rattle.cs_core.specs.Lengths.{noted_at};

use crate::events::{Event, Reply};
use crate::lengths::Lengths;
use crate::stores::Store;
use cs_chunk::waiting_length;
use cs_frame::{FrameKind, Locator, ShardId};
use std::alloc::AllocError;

impl Store {
    /// Whether a place is on a page that is given now.
    fn is_given(&self, place: Locator) -> bool
        ensures { IsTrue result ↔ IsGiven self.now.extents place }
    {
        let extent = usize::from(place.extent);
        extent < self.extents.extent_count()
            && self.extents.generation(extent) == place.generation
            && usize::from(place.page) < self.extents.pointer(extent)
    }

    /// What is noted for the place of a chunk, if it is on a page that is given now, else None.
    pub fn known_length(&self, lengths: &Lengths, kind: FrameKind, place: Locator) -> Option<u32>
        ensures noted { kind ≡ Chunk → IsGiven self.now.extents place → result ≡ noted_at lengths.now place }
        ensures kind { IfSome result (λ _. kind ≡ Chunk) }
        ensures given { IfSome result (λ _. IsGiven self.now.extents place) }
    {
        match kind {
            FrameKind::Chunk => if self.is_given(place) {
                lengths.get(place)
            } else {
                None
            },
            FrameKind::Run => None,
        }
    }

    /// Notes how many bytes a chunk has that was read, if its place is on a page that is given now. If memory is
    /// refused it isn't noted.
    pub fn note_read(
        &self,
        lengths: &mut Lengths,
        kind: FrameKind,
        place: Locator,
        count: u32,
    ) -> Result<(), AllocError>
        ensures noted { OnOk result (kind ≡ Chunk → IsGiven self.now.extents place → noted_at lengths.new place ≡ Some count) }
        // Nothing else is noted anew.
        ensures adds { (l : Place) (n : ℕ) → noted_at lengths.new l ≡ Some n
            → (noted_at lengths.old l ≡ Some n) ⊎ ((kind ≡ Chunk) × IsGiven self.now.extents place × (place ≡ l) × (count ≡ n)) }
    {
        match kind {
            FrameKind::Chunk => if self.is_given(place) {
                lengths.note(place, count)
            } else {
                Ok(())
            },
            FrameKind::Run => Ok(()),
        }
    }

    /// Notes how long the chunks are that an event put or moved, if their first pages wait. The disk isn't asked. If
    /// memory is refused some of them aren't noted.
    pub fn note_done(
        &self,
        lengths: &mut Lengths,
        event: &Event,
        reply: &Reply,
    ) -> Result<(), AllocError>
        ensures said { NotesWhatWaits self.now.extents self.now.graph lengths.old lengths.new }
        // The chunks of a shard that was put are noted.
        ensures put { OnOk result ((id : ShardId) (bytes : List ℕ) (n : ℕ) → event.now ≡ Event.Put id bytes → reply.now ≡ Reply.Accepted n
            → AreNotedIfWaiting self.now.extents self.now.graph lengths.new (map as_locator (live_at (index_of self.now.index) (id_number id)))) }
        // So is a chunk that was moved.
        ensures moved { OnOk result ((id : ShardId) (chunk : ℕ) → reply.now ≡ Reply.Moved id chunk
            → AreNotedIfWaiting self.now.extents self.now.graph lengths.new (moved_to (last_place_of self.now.copies) (live_at (index_of self.now.index) (id_number id)))) }
    {
        match reply {
            Reply::Accepted(_) => match event {
                Event::Put(id, _) => self.note_shard(lengths, *id),
                _ => Ok(()),
            },
            Reply::Moved(id, _) => self.note_moved(lengths, *id),
            _ => Ok(()),
        }
    }

    /// Notes how long the chunks of a shard are whose first pages wait.
    fn note_shard(&self, lengths: &mut Lengths, id: ShardId) -> Result<(), AllocError>
        ensures said { NotesWhatWaits self.now.extents self.now.graph lengths.old lengths.new }
        ensures noted { OnOk result (AreNotedIfWaiting self.now.extents self.now.graph lengths.new (map as_locator (live_at (index_of self.now.index) (id_number id)))) }
    {
        let Some(places) = self.index.lookup(id) else {
            return Ok(());
        };
        for k in 0..places.len() {
            self.note_waiting(lengths, places[k])?;
        }
        Ok(())
    }

    /// Notes how long the chunk is that was moved last: where the last copy lies, or where the shard's chunks lie if a
    /// chunk that is moved counts at once.
    fn note_moved(&self, lengths: &mut Lengths, id: ShardId) -> Result<(), AllocError>
        ensures said { NotesWhatWaits self.now.extents self.now.graph lengths.old lengths.new }
        ensures noted { OnOk result (AreNotedIfWaiting self.now.extents self.now.graph lengths.new (moved_to (last_place_of self.now.copies) (live_at (index_of self.now.index) (id_number id)))) }
    {
        match self.sweeps.last_place() {
            Some(place) => self.note_waiting(lengths, place),
            None => self.note_shard(lengths, id),
        }
    }

    /// Notes how long the chunk at a place is, if the place is on a page that is given now and a write to it waits.
    fn note_waiting(&self, lengths: &mut Lengths, place: Locator) -> Result<(), AllocError>
        ensures said { NotesWhatWaits self.now.extents self.now.graph lengths.old lengths.new }
        ensures noted { OnOk result (AreNotedIfWaiting self.now.extents self.now.graph lengths.new (place ∷ [])) }
        // What was noted of other places is noted still, if it is what their headers say.
        ensures stay { StayNoted self.now.extents self.now.graph lengths.old lengths.new }
    {
        // Called for its contract alone: what all extents keep.
        self.extents.extent_count();
        if !self.is_given(place) {
            return Ok(());
        }
        match waiting_length(&self.extents, &self.graph, FrameKind::Chunk, place) {
            Some(count) => lengths.note(place, count),
            None => Ok(()),
        }
    }
}
