//! How many bytes a shard has.
ghost use Rattle.std.specs.Prelude.{◌↔◌, ◌≡◌, IfErr, List, None, [], map, ℕ};
ghost use Rattle.cs_chunk.specs.Lengths.{IsHeaderRefusal};
ghost use Rattle.cs_chunk.specs.Newest.{AreNewest};
ghost use Rattle.cs_core.specs.Prefixes.{IsPrefixOf};
ghost use Rattle.cs_disk.specs.Disk.{LeavesOnly, Rises, seen};
ghost use Rattle.cs_disk.specs.Reads.{OnlyReads};
ghost use Rattle.cs_frame.specs.Formats.{as_locator};
ghost use Rattle.cs_index.specs.State.{id_number, index_of};
ghost use Rattle.cs_store.specs.Maps.{HasMap};
ghost use Rattle.cs_store.specs.Sizes.{IsSaidByHeaders, IsSized, size_refusal};
ghost use Rattle.law_machine.specs.Element.{Map};
ghost use Rattle.law_machine.specs.Index.{live_at};

use crate::errors::same_name;
use crate::stores::Store;
use cs_disk::PageDisk;
use cs_frame::ShardId;
use cs_refusal::Refusal;
use thiserror::Error;

/// Why the size of a shard wasn't told.
#[derive(Clone, Copy, Debug, PartialEq, Eq, Error)]
#[error("{}", self.refusal())]
pub enum SizeError {
    /// 1 DeviceFault: a read failed.
    DeviceFault,
    /// 9 OutOfMemory: memory was asked for and refused.
    OutOfMemory,
    /// 20 BadMagic: where a chunk should begin there is no frame.
    #[error("there is no frame where a chunk should begin")]
    BadMagic,
    /// 22 BadLength: a chunk's header tells a length that goes past its extent.
    #[error("a chunk's length can't be right")]
    BadLength,
    /// 24 BadVersion: a chunk's header has another version or another kind.
    #[error("a chunk's header has another version or kind")]
    BadVersion,
    /// 26 Misplaced: the header is of another frame than the one that the index means, or its digest is damaged; never
    /// in stores of format 2.
    Misplaced,
}

impl SizeError {
    /// The refusal that it is, with its number and its name.
    pub fn refusal(self) -> Refusal
        ensures { result ≡ size_refusal self }
    {
        same_name!(self, SizeError => Refusal;
            DeviceFault, OutOfMemory, BadMagic, BadLength, BadVersion, Misplaced)
    }

    /// The error that a refusal of the header's tests is.
    fn of(refusal: Refusal) -> Self
        requires { IsHeaderRefusal refusal }
        ensures { size_refusal result ≡ refusal }
    {
        same_name!(refusal, Refusal => SizeError;
            DeviceFault, OutOfMemory, BadMagic, BadLength, BadVersion, Misplaced; no other)
    }
}

impl From<SizeError> for Refusal {
    ghost from_gives = { λ error refusal. refusal ≡ size_refusal error };

    fn from(error: SizeError) -> Self {
        error.refusal()
    }
}

impl<D: PageDisk> Store<D> {
    /// How many bytes a shard has, None where there is none: as many as `get` gives. Searches the index, and reads the
    /// first page alone of each chunk, from the newest write to it that waits, else from the device. The bytes
    /// themselves aren't tested, so a damaged shard may have a size, though `get` refuses it. No event is kept of it,
    /// and a halted store answers it too.
    ///
    /// Refused 1 DeviceFault or 9 OutOfMemory where the disk refused a read so, 20 BadMagic, 22 BadLength or 24
    /// BadVersion where the header of a chunk is damaged, by the first test that fails, and 26 Misplaced where it is
    /// that of another frame, or its digest is damaged.
    pub fn size_of(&mut self, id: ShardId) -> Result<Option<usize>, SizeError>
        ensures answer { (m : Map) → HasMap self.old m → D.honest self.old.disk → IsSized (m (id_number id)) result }
        // Also of a damaged shard what is told is what the headers say.
        ensures headers { D.honest self.old.disk → (view : ℕ → List ℕ) → AreNewest self.old.store.graph (seen (D.state self.old.disk)) view
            → IsSaidByHeaders self.old.store.extents view (map as_locator (live_at (index_of self.old.store.index) (id_number id))) result }
        // Whatever the disk does, None is answered where the index has no places of the shard's chunks, and nowhere
        // else.
        ensures absent { (result ≡ Ok None) ↔ (live_at (index_of self.old.store.index) (id_number id) ≡ []) }
        ensures same { self.new ≡ record self.old { disk = self.new.disk } }
        ensures disk { OnlyReads D.PageDisk self.old.disk self.new.disk }
        // 1 is answered only where the disk's count of failures rose, or stood at its end.
        ensures cause { IfErr result (λ error. error ≡ SizeError.DeviceFault → Rises (D.failure_count self.old.disk) (D.failure_count self.new.disk)) }
        // A crash meanwhile leaves what one before it might have left.
        ensures crash { D.honest self.old.disk → LeavesOnly D.moment D.left_since self.old.disk self.new.disk (IsPrefixOf self.old) }
    {
        // Called for their contracts alone: which state of the machine the store is in, and what all extents keep.
        self.core.progress();
        self.core.extents().extent_count();
        match self.core.size_of(id) {
            Ok(found) => Ok(found),
            Err(refusal) => Err(SizeError::of(refusal)),
        }
    }
}
