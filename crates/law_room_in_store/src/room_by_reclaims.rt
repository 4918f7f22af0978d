//! Reclaims of the typed store leave room for puts.
ghost use Rattle.std.specs.Prelude.{◌≡◌, ◌+◌, ◌-◌, ◌*◌, ◌^◌, ◌<◌, ◌≤◌, ℕ, List, None, false};
ghost use Rattle.cs_chunk.specs.Newest.{AreNewest};
ghost use Rattle.cs_deps.specs.State.{IsWhole as IsWholeGraph};
ghost use Rattle.cs_disk.specs.Disk.{seen};
ghost use Rattle.cs_extent.specs.State.{IsWhole, extents_of, shape};
ghost use Rattle.cs_core.specs.Views.{View};
ghost use Rattle.cs_writeback.specs.Syncs.{Syncs};
ghost use Rattle.cs_inspect.specs.Chunks.{Chunk};
ghost use Rattle.cs_inspect.specs.declared.surveys.ExtentUse.{ExtentUse};
ghost use Rattle.law_room_in_store.specs.Cores.{NoneWornIn};
ghost use Rattle.law_room_in_store.specs.Reclaims.{AreUsesOf, DeadAtMost, IsIdle, IsReclaim, LiveFewFor, NoneFailed, NothingDeadIn, ReclaimsBy};
ghost use Rattle.law_room_in_store.specs.Roomy.{IsRoomyCore};
ghost use Rattle.cs_store.specs.Reserves.{total_live};
ghost use Rattle.law_room_in_store.specs.Sweeps.{AreLeftForPuts, LiveAtMost, chunk_extents_of};
ghost use Rattle.law_room.specs.Sweeps.{AreFewPages};

use cs_disk::PageDisk;

/// A sync and 2n calls of reclaim that sweep, and one more for each extent with dead pages, leave n extents for puts,
/// with syncs between them or none. Where one finds nothing to sweep before that, n extents are left already, as long as
/// less than (E - J - 1 - n)(P + 1) / 2 pages of chunks live and E - J - 1 - n is 2 or more. All that, where no shard is
/// damaged and none of the disk's calls failed meanwhile.
pub fn reclaims_leave_room_for_puts<D: PageDisk>()
    ensures all { (v w : View D) (n k dead : ℕ) → IsRoomyCore D.PageDisk v → NoneWornIn w → IsIdle v → DeadAtMost D.state v dead
        → ReclaimsBy D.PageDisk k v w → NoneFailed D.PageDisk v w → 2 * n + dead ≤ k → AreLeftForPuts n w }
    // So they end: each two gain an extent, but for one for each extent with dead pages, and one.
    ensures ends { (v w : View D) (k dead : ℕ) → IsRoomyCore D.PageDisk v → NoneWornIn w → IsIdle v → DeadAtMost D.state v dead
        → ReclaimsBy D.PageDisk k v w → NoneFailed D.PageDisk v w → k + 2 * chunk_extents_of w ≤ dead + 2 * chunk_extents_of v + 1 }
    ensures fewer { (v w x : View D) (n k pages : ℕ) → IsRoomyCore D.PageDisk v → NoneWornIn w → IsIdle v
        → (let S = shape v.store.extents in (S.run_extents + n + 3 ≤ S.extents)
        → LiveAtMost D.state v pages → AreFewPages S S.run_extents n pages
        → ReclaimsBy D.PageDisk k v w → IsReclaim D.PageDisk w None x → NoneFailed D.PageDisk v x → AreLeftForPuts n w) }
    // So it is where no more lives than (E - J - 2 - n)(P - c + 1) pages of chunks of at most c each.
    ensures greatest { (v w x : View D) (n k c : ℕ) → IsRoomyCore D.PageDisk v → NoneWornIn w → IsIdle v
        → (let S = shape v.store.extents in (S.run_extents + n + 3 ≤ S.extents) → LiveFewFor D.state v n c
        → ReclaimsBy D.PageDisk k v w → IsReclaim D.PageDisk w None x → NoneFailed D.PageDisk v x → AreLeftForPuts n w) }
    // Where one finds nothing to sweep, no page of chunks is dead.
    ensures nothing { (v x : View D) → IsRoomyCore D.PageDisk v → NoneWornIn v → IsIdle v → IsReclaim D.PageDisk v None x
        → NoneFailed D.PageDisk v x → NothingDeadIn D.state v }
    // After a sync where no sweep goes on, nothing is left of one that was given up.
    ensures synced { (u v : View D) → IsRoomyCore D.PageDisk u → NoneWornIn v → Syncs D.PageDisk u v
        → ((e : ℕ) → e < (shape v.store.extents).extents → (extents_of v.store.extents).swept e ≡ false) → IsIdle v }
{}

/// No more lives than is counted: no more pages of chunks live than the uses of the extents count together, of a whole
/// store whose chunks' headers they were counted by, unless that is more than 64 bits hold.
pub fn no_more_lives_than_is_counted<D: PageDisk>()
    ensures { (v : View D) (view : ℕ → List ℕ) (chunks : List Chunk) (uses : List ExtentUse) → IsRoomyCore D.PageDisk v
        → IsWhole v.store.extents → IsWholeGraph v.store.graph → AreNewest v.store.graph (seen (D.state v.disk)) view
        → AreUsesOf v view chunks uses → total_live uses < 2 ^ 64 - 1 → LiveAtMost D.state v (total_live uses) }
{}
