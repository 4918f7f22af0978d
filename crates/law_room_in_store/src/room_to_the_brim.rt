//! Up to the brim puts find room beside what lives.
ghost use Rattle.std.specs.Prelude.{◌+◌, ◌-◌, ◌*◌, ◌<◌, ◌≤◌, ℕ, List, None, length};
ghost use Rattle.cs_refusal.specs.declared.refusals.Refusal.TheVariants.{Full};
ghost use Rattle.cs_extent.specs.State.{shape};
ghost use Rattle.cs_frame.specs.declared.identifiers.ShardId.{ShardId};
ghost use Rattle.cs_core.specs.declared.events.Event.TheVariants.{Put};
ghost use Rattle.cs_core.specs.declared.events.Reply.TheVariants.{Refused};
ghost use Rattle.cs_core.specs.Views.{Applies, View};
ghost use Rattle.cs_store.specs.Reserves.{RefusesPut};
ghost use Rattle.law_machine.specs.Pieces.{chunk_pages};
ghost use Rattle.law_room.specs.OfMachine.{AreChunksAtMost};
ghost use Rattle.law_room_in_store.specs.Cores.{NoneWornIn};
ghost use Rattle.law_room_in_store.specs.Images.{HasGeometry};
ghost use Rattle.law_room_in_store.specs.Reclaims.{FitsBeside, IsIdle, IsReclaim, NoneFailed, NothingDeadIn, ReclaimsBy, TakenAtMost};
ghost use Rattle.law_room_in_store.specs.Roomy.{IsRoomyCore};
ghost use Rattle.law_room_in_store.specs.Sweeps.{LiveAtMost};

use cs_disk::PageDisk;

/// A put whose frames have at most y pages each, and w together, is never refused for want of a place as long as the
/// pages that live or are dead, and w, are fewer than N (P - y + 1) + y, where N = E - J - 2 extents of P pages may hold
/// chunks: whatever the sizes of what lives. After reclaims, when one finds nothing to sweep, nothing is dead, so it is
/// enough that what lives and w are fewer.
pub fn a_put_finds_room_to_the_brim<D: PageDisk>()
    ensures core { (v w : View D) (id : ShardId) (bytes : List ℕ) (taken : ℕ) → IsRoomyCore D.PageDisk v → NoneWornIn v → IsIdle v
        → TakenAtMost D.state v taken → FitsBeside v taken id bytes → Applies D.PageDisk v (Put id bytes) (Refused Full) w → ⊥ }
    // So it is of the typed store: the sync that makes room for its event takes none of it. A reserve may refuse the put
    // 36 Reserved.
    ensures store { (v w : View D) (id : ShardId) (bytes : List ℕ) (taken : ℕ) → IsRoomyCore D.PageDisk v → NoneWornIn v → NoneWornIn w
        → IsIdle v → TakenAtMost D.state v taken → FitsBeside v taken id bytes → RefusesPut D.PageDisk v id bytes Full w → ⊥ }
    // Where nothing is dead no more is taken than lives.
    ensures taken { (v : View D) (live : ℕ) → NothingDeadIn D.state v → LiveAtMost D.state v live → TakenAtMost D.state v live }
    // So a put finds room after reclaims when one finds nothing to sweep, with syncs between them or none, where no shard is
    // damaged and none of the disk's calls failed meanwhile.
    ensures reclaimed { (v w x y : View D) (id : ShardId) (bytes : List ℕ) (k live : ℕ) → IsRoomyCore D.PageDisk v → NoneWornIn y → IsIdle v
        → ReclaimsBy D.PageDisk k v w → IsReclaim D.PageDisk w None x → NoneFailed D.PageDisk v x → LiveAtMost D.state v live
        → FitsBeside v live id bytes → RefusesPut D.PageDisk x id bytes Full y → ⊥ }
    // The frames of at most n chunks fit beside what lives if n frames of a whole piece do.
    ensures chunks { (v : View D) (id : ShardId) (bytes : List ℕ) (n live : ℕ) → HasGeometry v.store.extents
        → (let S = shape v.store.extents in let most = chunk_pages S.format (S.piece_bytes (length bytes))
        in AreChunksAtMost S n bytes → S.run_extents + 3 ≤ S.extents
        → live + n * most < (S.extents - (S.run_extents + 2)) * (S.pages + 1 - most) + most → FitsBeside v live id bytes) }
{}
