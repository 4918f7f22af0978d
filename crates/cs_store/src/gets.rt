//! What is under an identifier, which shards there are, and what lives on an extent.
ghost use Rattle.std.specs.Prelude.{◌↔◌, ◌≡◌, ◌≢◌, IfErr, IfOk, IfSome, IsTrue, MatchOption, None, [], map};
ghost use Rattle.cs_core.specs.Lookups.{AreMeantBytes};
ghost use Rattle.cs_core.specs.Prefixes.{IsPrefixOf};
ghost use Rattle.cs_disk.specs.Disk.{LeavesOnly, Rises};
ghost use Rattle.cs_disk.specs.Reads.{OnlyReads};
ghost use Rattle.cs_frame.specs.Formats.{place_of};
ghost use Rattle.cs_index.specs.State.{id_number, index_of};
ghost use Rattle.cs_inspect.specs.Listings.{AreAll, AreFirst};
ghost use Rattle.cs_store.specs.Gets.{IsGot};
ghost use Rattle.cs_store.specs.Maps.{HasMap};
ghost use Rattle.law_machine.specs.Element.{Map};
ghost use Rattle.law_machine.specs.Index.{FirstLive, NothingLive, live_at};

use crate::errors::GetError;
use crate::stores::Store;
use cs_disk::PageDisk;
use cs_frame::ShardId;
use cs_index::LiveChunk;
use cs_inspect::{first_on, ids, ids_from};
use std::alloc::AllocError;

impl<D: PageDisk> Store<D> {
    /// The bytes under an identifier, None where there is nothing. Searches the index, and reads each page of each
    /// chunk once, from the newest write to it that waits, else from the device. It takes memory for the bytes and for
    /// the pages of a chunk. No event is kept of it, and a halted store answers it too.
    ///
    /// Refused 1 DeviceFault where a read failed, 20 BadMagic, 21 BadDigest, 22 BadLength, 23 BadPadding or 24
    /// BadVersion where a chunk is damaged, by the first test that fails, 26 Misplaced where a whole frame lies there
    /// that isn't the one that the index means, and 9 OutOfMemory.
    pub fn get(&mut self, id: ShardId) -> Result<Option<Vec<u8>>, GetError>
        ensures answer { (m : Map) → HasMap self.old m → D.honest self.old.disk → IsGot (m (id_number id)) result }
        // Whatever the disk does, the bytes are those that the places of the shard's chunks mean. These are what the
        // map has, or one of these chunks and the map's at its place differ and agree in the first eight bytes of their
        // digests (`what_places_mean_is_what_the_map_has` of the core). Places of the older formats mean nothing of
        // that.
        ensures meant { IfOk result (λ found. IfSome found (λ bytes. AreMeantBytes self.old.store (id_number id) bytes.items)) }
        // Whatever the disk does, None is answered where the index has no places of the shard's chunks, and nowhere
        // else.
        ensures absent { (result ≡ Ok None) ↔ (live_at (index_of self.old.store.index) (id_number id) ≡ []) }
        ensures same { self.new ≡ record self.old { disk = self.new.disk } }
        ensures disk { OnlyReads D.PageDisk self.old.disk self.new.disk }
        // 1 is answered only where the disk's count of failures rose, or stood at its end.
        ensures cause { IfErr result (λ error. error ≡ GetError.DeviceFault → Rises (D.failure_count self.old.disk) (D.failure_count self.new.disk)) }
        // A crash meanwhile leaves what one before it might have left.
        ensures crash { D.honest self.old.disk → LeavesOnly D.moment D.left_since self.old.disk self.new.disk (IsPrefixOf self.old) }
    {
        // Called for their contracts alone: which state of the machine the store is in, and what all extents keep.
        self.core.progress();
        self.core.extents().extent_count();
        match self.core.read(id) {
            Ok(found) => Ok(found),
            Err(refusal) => Err(GetError::of(refusal)),
        }
    }

    /// Whether there is something under an identifier, by the index alone: neither the device nor memory is asked for
    /// anything. Its chunks may be damaged.
    pub fn contains(&self, id: ShardId) -> bool
        ensures map { (m : Map) → HasMap self.now m → D.honest self.now.disk → (IsTrue result ↔ (m (id_number id) ≢ None)) }
        ensures lookup { IsTrue result ↔ (live_at (index_of self.now.store.index) (id_number id) ≢ []) }
    {
        // Called for their contracts alone: which state of the machine the store is in, and what all extents keep.
        self.core.progress();
        self.core.extents().extent_count();
        self.core.contains(id)
    }

    /// The identifiers of all shards that are there, by rising bytes. Takes memory for them, and time for all entries
    /// of the index; the disk isn't asked, so a shard may be damaged. No event is kept of it, and a halted store
    /// answers it too.
    ///
    /// `AllocError` is 9 OutOfMemory.
    pub fn ids(&self) -> Result<Vec<ShardId>, AllocError>
        // They are those that the map has.
        ensures map { (m : Map) → HasMap self.now m → D.honest self.now.disk → IfOk result (λ ids. AreAll (λ id. m id ≢ None) (map id_number ids.items)) }
        // Whatever the disk does, they are those of which the index has places.
        ensures index { IfOk result (λ ids. AreAll (λ id. live_at (index_of self.now.store.index) id ≢ []) (map id_number ids.items)) }
    {
        // Called for their contracts alone: which state of the machine the store is in, and what all extents keep.
        self.core.progress();
        self.core.extents().extent_count();
        ids(self.alloc, self.core.index())
    }

    /// The identifiers of the first so many shards that are there, from one on, by rising bytes: a page of a long list.
    /// The next page begins behind the last of these. Takes memory for them, and time for their entries and for the
    /// deletions between them.
    ///
    /// `AllocError` is 9 OutOfMemory.
    pub fn ids_from(&self, from: ShardId, most: usize) -> Result<Vec<ShardId>, AllocError>
        // They are the first that the map has.
        ensures map { (m : Map) → HasMap self.now m → D.honest self.now.disk → IfOk result (λ ids. AreFirst (λ id. m id ≢ None) (id_number from) most (map id_number ids.items)) }
        // Whatever the disk does, they are the first of which the index has places.
        ensures index { IfOk result (λ ids. AreFirst (λ id. live_at (index_of self.now.store.index) id ≢ []) (id_number from) most (map id_number ids.items)) }
    {
        // Called for their contracts alone: which state of the machine the store is in, and what all extents keep.
        self.core.progress();
        self.core.extents().extent_count();
        ids_from(self.alloc, self.core.index(), from, most)
    }

    /// The first chunk that lives on an extent, by identifier and then by number: what a sweep of it moves next; None
    /// where none lives there. After a sweep was refused 20 BadMagic to 24 BadVersion or 26 Misplaced it is the one
    /// that can't be read: put its shard again or delete it, and sweep again. Takes no memory, and time for the entries
    /// of the index up to it.
    pub fn first_on(&self, extent: usize) -> Option<LiveChunk>
        ensures { MatchOption result (NothingLive (index_of self.now.store.index) extent) (λ found. FirstLive (index_of self.now.store.index) extent (id_number found.id) found.chunk (place_of found.place)) }
    {
        first_on(self.core.index(), extent)
    }
}
