//! What is read of a store: Get, which is an event, and the calls beside it, which are none.
ghost use Rattle.std.specs.Prelude.{◌≡◌, ◌≢◌, ◌+◌, ◌<◌, ◌≤◌, ◌↔◌, ◌⊎◌, [], ℕ, IfErr, IfOk, IfSome, List, MatchBool, MatchResult, None, Some, length, map, IsTrue};
ghost use Rattle.cs_chunk.specs.Chunks.{IsFrameIn, IsMeant, kind_of};
ghost use Rattle.cs_chunk.specs.Lengths.{IsHeaderRefusal, IsOfFaultOrMark, header_fault_in, length_at};
ghost use Rattle.cs_chunk.specs.Newest.{AreNewest};
ghost use Rattle.cs_chunk.specs.Reads.{AnswersFault, IsCaused, IsNoAnswer, IsReadRefusal, fault_in};
ghost use Rattle.cs_disk.specs.Disk.{seen, LeavesOnly};
ghost use Rattle.cs_disk.specs.Reads.{OnlyReads};
ghost use Rattle.cs_extent.specs.State.{shape};
ghost use Rattle.cs_frame.specs.declared.frames.FrameKind.TheVariants.{Chunk};
ghost use Rattle.cs_frame.specs.Formats.{as_locator, formats_of};
ghost use Rattle.cs_frame.specs.Frames.{page_count};
ghost use Rattle.cs_index.specs.State.{id_number, index_of};
ghost use Rattle.law_machine.specs.Index.{live_at};
ghost use Rattle.cs_core.specs.Known.{AreKnown, IsGiven};
ghost use Rattle.cs_core.specs.Lengths.{noted_at};
ghost use Rattle.cs_core.specs.Lookups.{AreMeantBytes, IsSaid, TellsSize, IsReading, IsSize};
ghost use Rattle.cs_core.specs.Reads.{GetAnswers};
ghost use Rattle.cs_reader.specs.ImageReads.{page_total};
ghost use Rattle.law_machine.specs.State.{State, map_now};
ghost use Rattle.cs_core.specs.Stored.{AreInside, but_for_room};
ghost use Rattle.cs_core.specs.Views.{IsIn};
ghost use Rattle.cs_core.specs.Prefixes.{IsPrefixOf};

use crate::cores::Core;
use crate::lengths::Lengths;
use crate::stores::Store;
use cs_chunk::{read_chunks, read_frame, read_length, read_lengths};
use cs_disk::PageDisk;
use cs_extent::Extents;
use cs_frame::{FrameKind, Locator, ShardId};
use cs_index::Index;
use cs_refusal::Refusal;

impl Store {
    /// The bytes of a shard, or None if there is none. `Event::Get` has the refusals.
    pub fn get<D: PageDisk>(&self, disk: &mut D, id: ShardId) -> Result<Option<Vec<u8>>, Refusal>
        requires device { page_total (shape self.now.extents) ≡ D.page_count disk.old }
        ensures step { D.honest disk.old → GetAnswers self.now (D.state disk.old) (id_number id) result }
        // Whatever the disk does, the answer is None exactly if the index has no places of the shard's chunks.
        ensures absent { (result ≡ Ok None) ↔ (live_at (index_of self.now.index) (id_number id) ≡ []) }
        // Whatever the disk reads as, the bytes are those that the places mean.
        ensures meant { IfOk result (λ found. IfSome found (λ bytes. AreMeantBytes self.now (id_number id) bytes.items)) }
        ensures refusals { IfErr result IsReadRefusal }
        ensures disk { OnlyReads D.PageDisk disk.old disk.new }
        ensures cause { IsCaused (D.failure_count disk.old) (D.failure_count disk.new) result }
    {
        // Called for their contracts alone: what all extents and every graph keep.
        self.extents.extent_count();
        self.graph.families();
        let Some(places) = self.index.lookup(id) else {
            return Ok(None);
        };
        if places.is_empty() {
            return Ok(None);
        }
        match read_chunks(self.alloc, &self.extents, &self.graph, disk, places) {
            Ok(bytes) => Ok(Some(bytes)),
            Err(refusal) => Err(refusal),
        }
    }

    /// The payload of the frame of this kind that begins at a place, as `read_frame` of cs_chunk.
    pub fn read_frame<D: PageDisk>(
        &self,
        disk: &mut D,
        kind: FrameKind,
        place: Locator,
    ) -> Result<Vec<u8>, Refusal>
        requires device { page_total (shape self.now.extents) ≡ D.page_count disk.old }
        requires extent { place.extent < (shape self.now.extents).extents }
        requires page { place.page < (shape self.now.extents).pages }
        ensures payload { D.honest disk.old → (view : ℕ → List ℕ) → AreNewest self.now.graph (seen (D.state disk.old)) view
            → IfOk result (λ payload. IsFrameIn self.now.extents view (kind_of kind) place payload.items) }
        ensures read { D.honest disk.old → (view : ℕ → List ℕ) (payload : List ℕ) → AreNewest self.now.graph (seen (D.state disk.old)) view
            → IsFrameIn self.now.extents view (kind_of kind) place payload → MatchResult result (λ found. found.items ≡ payload) IsNoAnswer }
        ensures fault { D.honest disk.old → (view : ℕ → List ℕ) → AreNewest self.now.graph (seen (D.state disk.old)) view
            → AnswersFault (fault_in self.now.extents view kind place) result }
        ensures refusals { IfErr result IsReadRefusal }
        ensures meant { IfOk result (λ payload. IsMeant (shape self.now.extents) (kind_of kind) place payload.items) }
        ensures size { IfOk result (λ payload. place.page + length ((formats_of (shape self.now.extents)).frame (kind_of kind) payload.items) ≤ (shape self.now.extents).pages) }
        ensures disk { OnlyReads D.PageDisk disk.old disk.new }
        ensures cause { IsCaused (D.failure_count disk.old) (D.failure_count disk.new) result }
    {
        // Called for its contract alone: what all extents keep.
        self.extents.extent_count();
        read_frame(self.alloc, &self.extents, &self.graph, disk, kind, place)
    }

    /// How many bytes a shard has by the first page of each chunk's frame, or None if there is none.
    pub fn size_of<D: PageDisk>(&self, disk: &mut D, id: ShardId) -> Result<Option<usize>, Refusal>
        requires device { page_total (shape self.now.extents) ≡ D.page_count disk.old }
        ensures size { D.honest disk.old → TellsSize self.now (D.state disk.old) (id_number id) result }
        ensures headers { D.honest disk.old → (view : ℕ → List ℕ) → AreNewest self.now.graph (seen (D.state disk.old)) view
            → IsSaid self.now.extents view (map as_locator (live_at (index_of self.now.index) (id_number id))) result }
        // Whatever the disk does, the answer is None exactly if the index has no places of the shard's chunks.
        ensures absent { (result ≡ Ok None) ↔ (live_at (index_of self.now.index) (id_number id) ≡ []) }
        ensures refusals { IfErr result IsHeaderRefusal }
        ensures disk { OnlyReads D.PageDisk disk.old disk.new }
        ensures cause { IsCaused (D.failure_count disk.old) (D.failure_count disk.new) result }
    {
        // Called for their contracts alone: what all extents and every graph keep.
        self.extents.extent_count();
        self.graph.families();
        let Some(places) = self.index.lookup(id) else {
            return Ok(None);
        };
        if places.is_empty() {
            return Ok(None);
        }
        match read_lengths(&self.extents, &self.graph, disk, places) {
            Ok(count) => Ok(Some(count)),
            Err(refusal) => Err(refusal),
        }
    }

    /// How many bytes the payload of the frame of this kind has that begins at a place, as `read_length` of cs_chunk.
    /// What is noted is returned without a read. What is read is noted if memory allows it.
    pub fn read_length<D: PageDisk>(
        &self,
        lengths: &mut Lengths,
        disk: &mut D,
        kind: FrameKind,
        place: Locator,
    ) -> Result<u32, Refusal>
        requires device { page_total (shape self.now.extents) ≡ D.page_count disk.old }
        requires extent { place.extent < (shape self.now.extents).extents }
        requires page { place.page < (shape self.now.extents).pages }
        requires known { AreKnown D.PageDisk (but_for_room self.now) disk.old lengths.old }
        // If the length of a chunk is noted, and its place is on a page that is given now, the disk isn't asked.
        ensures noted { (count : ℕ) → noted_at lengths.old place ≡ Some count → kind ≡ Chunk → IsGiven self.now.extents place
            → (result ≡ Ok count) × (disk.new ≡ disk.old) }
        ensures known { AreKnown D.PageDisk (but_for_room self.now) disk.new lengths.new }
        ensures told { D.honest disk.old → (view : ℕ → List ℕ) → AreNewest self.now.graph (seen (D.state disk.old)) view
            → IfOk result (λ count. count ≡ length_at (shape self.now.extents) view place) }
        ensures read { D.honest disk.old → (view : ℕ → List ℕ) (payload : List ℕ) → AreNewest self.now.graph (seen (D.state disk.old)) view
            → IsFrameIn self.now.extents view (kind_of kind) place payload → MatchResult result (λ count. count ≡ length payload) IsNoAnswer }
        ensures header { D.honest disk.old → (view : ℕ → List ℕ) → AreNewest self.now.graph (seen (D.state disk.old)) view
            → AnswersFault (header_fault_in self.now.extents view kind place) result }
        ensures fault { D.honest disk.old → (view : ℕ → List ℕ) → AreNewest self.now.graph (seen (D.state disk.old)) view
            → IfErr result (λ r. IsNoAnswer r ⊎ IsOfFaultOrMark (fault_in self.now.extents view kind place) r) }
        ensures refusals { IfErr result IsHeaderRefusal }
        ensures size { IfOk result (λ count. place.page + page_count count ≤ (shape self.now.extents).pages) }
        ensures disk { OnlyReads D.PageDisk disk.old disk.new }
        ensures cause { IsCaused (D.failure_count disk.old) (D.failure_count disk.new) result }
    {
        // Called for its contract alone: what all extents keep.
        self.extents.extent_count();
        if let Some(count) = self.known_length(lengths, kind, place) {
            return Ok(count);
        }
        match read_length(&self.extents, &self.graph, disk, kind, place) {
            Ok(count) => {
                let _ = self.note_read(lengths, kind, place, count);
                Ok(count)
            }
            Err(refusal) => Err(refusal),
        }
    }

    /// Whether the index has places of a shard's chunks.
    pub fn is_live(&self, id: ShardId) -> bool
        ensures { MatchBool result (live_at (index_of self.now.index) (id_number id) ≢ []) (live_at (index_of self.now.index) (id_number id) ≡ []) }
    {
        self.index.is_live(id)
    }
}

impl<D: PageDisk> Core<D> {
    /// The bytes of a shard, or None if there is none: what the event Get would answer, with the refusals of
    /// `Event::Get`; 9 `OutOfMemory`.
    ///
    /// It searches the index and reads each page of each chunk once, from the newest write to it that waits, else from
    /// the device. It takes memory for the bytes and for the pages of a chunk.
    pub fn read(&mut self, id: ShardId) -> Result<Option<Vec<u8>>, Refusal>
        ensures answer { D.honest self.old.disk → (s : State) → IsIn D.state self.old s → IsReading (map_now s (id_number id)) result }
        // Whatever the disk does, the answer is None exactly if the index has no places of the shard's chunks.
        ensures absent { (result ≡ Ok None) ↔ (live_at (index_of self.old.store.index) (id_number id) ≡ []) }
        // Whatever the disk reads as, the bytes are those that the places mean.
        ensures meant { IfOk result (λ found. IfSome found (λ bytes. AreMeantBytes self.old.store (id_number id) bytes.items)) }
        ensures refusals { IfErr result IsReadRefusal }
        ensures same { self.new ≡ record self.old { disk = self.new.disk } }
        ensures disk { OnlyReads D.PageDisk self.old.disk self.new.disk }
        ensures cause { IsCaused (D.failure_count self.old.disk) (D.failure_count self.new.disk) result }
        // A crash during this call leaves what a crash before it may leave.
        ensures crash { D.honest self.old.disk → LeavesOnly D.moment D.left_since self.old.disk self.new.disk (IsPrefixOf self.old) }
    {
        // Called for its contract alone: what all extents keep.
        self.store.extent_count();
        self.store.get(&mut self.disk, id)
    }

    /// How many bytes a shard has, as many as `read` returns, or None if there is none. It searches the index and reads
    /// the first page of each chunk's frame, from the newest write to it that waits, else from the device. It takes no
    /// memory itself. The bytes aren't tested: a shard with a damaged chunk may have a size here, though `read` refuses
    /// it.
    ///
    /// 20 `BadMagic`, 22 `BadLength` or 24 `BadVersion` if the header of a chunk is damaged, by the first test that
    /// fails. 26 `Misplaced` if the header is another frame's, or if its digest is damaged. 1 `DeviceFault` or 9
    /// `OutOfMemory` if the disk refused a read so.
    pub fn size_of(&mut self, id: ShardId) -> Result<Option<usize>, Refusal>
        ensures answer { D.honest self.old.disk → (s : State) → IsIn D.state self.old s → IsSize (map_now s (id_number id)) result }
        // The size of a damaged shard too is what the headers say.
        ensures headers { D.honest self.old.disk → (view : ℕ → List ℕ) → AreNewest self.old.store.graph (seen (D.state self.old.disk)) view
            → IsSaid self.old.store.extents view (map as_locator (live_at (index_of self.old.store.index) (id_number id))) result }
        // Whatever the disk does, the answer is None exactly if the index has no places of the shard's chunks.
        ensures absent { (result ≡ Ok None) ↔ (live_at (index_of self.old.store.index) (id_number id) ≡ []) }
        ensures refusals { IfErr result IsHeaderRefusal }
        ensures same { self.new ≡ record self.old { disk = self.new.disk } }
        ensures disk { OnlyReads D.PageDisk self.old.disk self.new.disk }
        ensures cause { IsCaused (D.failure_count self.old.disk) (D.failure_count self.new.disk) result }
        // A crash during this call leaves what a crash before it may leave.
        ensures crash { D.honest self.old.disk → LeavesOnly D.moment D.left_since self.old.disk self.new.disk (IsPrefixOf self.old) }
    {
        // Called for its contract alone: what all extents keep.
        self.store.extent_count();
        self.store.size_of(&mut self.disk, id)
    }

    /// Whether there is a shard, by the index alone: nothing is read, and no memory is taken. Its chunks may be
    /// damaged.
    pub fn contains(&self, id: ShardId) -> bool
        ensures map { (s : State) → IsIn D.state self.now s → (IsTrue result ↔ (map_now s (id_number id) ≢ None)) }
        ensures lookup { IsTrue result ↔ (live_at (index_of self.now.store.index) (id_number id) ≢ []) }
    {
        self.store.is_live(id)
    }

    /// The payload of the frame of this kind that begins at a place, for a caller that tests whether frames can be
    /// read. Each page is read once, from the newest write to it that waits, else from the device. The header is tested
    /// before the second page is read. It takes memory for the pages and the payload.
    ///
    /// 20 `BadMagic`, 21 `BadDigest`, 22 `BadLength`, 23 `BadPadding` or 24 `BadVersion`, the first test that fails, if
    /// no frame of this kind begins there. 26 `Misplaced` if one does that the place doesn't mean. Then 22 if it is a
    /// chunk's and its payload is shorter than a head. 1 `DeviceFault` if a read failed; 9 `OutOfMemory`.
    pub fn read_frame(&mut self, kind: FrameKind, place: Locator) -> Result<Vec<u8>, Refusal>
        requires extent { place.extent < (shape self.old.store.extents).extents }
        requires page { place.page < (shape self.old.store.extents).pages }
        // What is read is the payload of a frame there.
        ensures payload { D.honest self.old.disk → (view : ℕ → List ℕ) → AreNewest self.old.store.graph (seen (D.state self.old.disk)) view
            → IfOk result (λ payload. IsFrameIn self.old.store.extents view (kind_of kind) place payload.items) }
        // If there is a frame its payload is read, unless the device or memory refuses.
        ensures read { D.honest self.old.disk → (view : ℕ → List ℕ) (payload : List ℕ) → AreNewest self.old.store.graph (seen (D.state self.old.disk)) view
            → IsFrameIn self.old.store.extents view (kind_of kind) place payload → MatchResult result (λ found. found.items ≡ payload) IsNoAnswer }
        // Any other refusal is that of the first test that fails.
        ensures fault { D.honest self.old.disk → (view : ℕ → List ℕ) → AreNewest self.old.store.graph (seen (D.state self.old.disk)) view
            → AnswersFault (fault_in self.old.store.extents view kind place) result }
        ensures refusals { IfErr result IsReadRefusal }
        // Whatever the disk reads as, the payload is that of the frame that the place means, and the frame lies in the
        // extent.
        ensures meant { IfOk result (λ payload. IsMeant (shape self.old.store.extents) (kind_of kind) place payload.items) }
        ensures size { IfOk result (λ payload. place.page + length ((formats_of (shape self.old.store.extents)).frame (kind_of kind) payload.items) ≤ (shape self.old.store.extents).pages) }
        ensures same { self.new ≡ record self.old { disk = self.new.disk } }
        ensures disk { OnlyReads D.PageDisk self.old.disk self.new.disk }
        ensures cause { IsCaused (D.failure_count self.old.disk) (D.failure_count self.new.disk) result }
        // A crash during this call leaves what a crash before it may leave.
        ensures crash { D.honest self.old.disk → LeavesOnly D.moment D.left_since self.old.disk self.new.disk (IsPrefixOf self.old) }
    {
        // Called for its contract alone: what all extents keep.
        self.store.extent_count();
        self.store.read_frame(&mut self.disk, kind, place)
    }

    /// How many bytes the payload of the frame of this kind has that begins at a place, by the frame's first page: the
    /// newest write to it that waits, else what the device has. Only the header is tested: a frame whose digest or
    /// padding is damaged has a length too.
    ///
    /// The length of a chunk is kept, and given again without a read until the chunk's extent is emptied. So is that of
    /// a chunk that was put or moved. It takes up to 32 bytes a chunk; if memory is refused the length isn't kept.
    ///
    /// 20 `BadMagic`, 24 `BadVersion` or 22 `BadLength`, the first test that fails, if no header of this kind is there.
    /// 26 `Misplaced` if one is there of a frame that the place doesn't mean, or if its digest is damaged. 1
    /// `DeviceFault` or 9 `OutOfMemory` if the disk refused the read so.
    pub fn read_length(&mut self, kind: FrameKind, place: Locator) -> Result<u32, Refusal>
        requires extent { place.extent < (shape self.old.store.extents).extents }
        requires page { place.page < (shape self.old.store.extents).pages }
        // The length is what the header says.
        ensures told { D.honest self.old.disk → (view : ℕ → List ℕ) → AreNewest self.old.store.graph (seen (D.state self.old.disk)) view
            → IfOk result (λ count. count ≡ length_at (shape self.old.store.extents) view place) }
        // If there is a frame the length is that of its payload, unless the device or memory refuses.
        ensures read { D.honest self.old.disk → (view : ℕ → List ℕ) (payload : List ℕ) → AreNewest self.old.store.graph (seen (D.state self.old.disk)) view
            → IsFrameIn self.old.store.extents view (kind_of kind) place payload → MatchResult result (λ count. count ≡ length payload) IsNoAnswer }
        // Any other refusal is that of the first of the header's tests that fails.
        ensures header { D.honest self.old.disk → (view : ℕ → List ℕ) → AreNewest self.old.store.graph (seen (D.state self.old.disk)) view
            → AnswersFault (header_fault_in self.old.store.extents view kind place) result }
        // So it is that of the frame's first test that fails, or 26 if the frame has a fault.
        ensures fault { D.honest self.old.disk → (view : ℕ → List ℕ) → AreNewest self.old.store.graph (seen (D.state self.old.disk)) view
            → IfErr result (λ r. IsNoAnswer r ⊎ IsOfFaultOrMark (fault_in self.old.store.extents view kind place) r) }
        ensures refusals { IfErr result IsHeaderRefusal }
        // Whatever the disk reads as, a frame of so many bytes lies in the extent.
        ensures size { IfOk result (λ count. place.page + page_count count ≤ (shape self.old.store.extents).pages) }
        ensures same { self.new ≡ record self.old { disk = self.new.disk } }
        ensures disk { OnlyReads D.PageDisk self.old.disk self.new.disk }
        ensures cause { IsCaused (D.failure_count self.old.disk) (D.failure_count self.new.disk) result }
        // A crash during this call leaves what a crash before it may leave.
        ensures crash { D.honest self.old.disk → LeavesOnly D.moment D.left_since self.old.disk self.new.disk (IsPrefixOf self.old) }
    {
        // Called for its contract alone: what all extents keep.
        self.store.extent_count();
        self.store
            .read_length(&mut self.lengths, &mut self.disk, kind, place)
    }

    /// The extents: their geometry, and of each its pointer, its generation, and whether it is open or being swept.
    pub fn extents(&self) -> &Extents
        ensures { result.now ≡ self.now.store.extents }
    {
        &self.store.extents
    }

    /// The index: its runs, how many identifiers are named, and their entries with the places of the chunks.
    /// `read_frame` may be called with each place of a shard that is there.
    pub fn index(&self) -> &Index
        // How many more entries there is room for isn't part of a core's value.
        ensures index { self.now.store.index ≡ record result.now { room = 0 } }
        // All chunks of all shards that are there begin on pages of the extents.
        ensures places { AreInside (shape self.now.store.extents) result.now }
    {
        self.store.index()
    }
}
