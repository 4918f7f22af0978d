//! Puts of cores find room.
ghost use Rattle.std.specs.Prelude.{◌↔◌, ◌≡◌, ◌+◌, ◌*◌, ◌<◌, ◌≤◌, ℕ, List, length};
ghost use Rattle.cs_refusal.specs.declared.refusals.Refusal.TheVariants.{Full};
ghost use Rattle.cs_extent.specs.State.{State as ExtentsState, shape};
ghost use Rattle.cs_frame.specs.declared.identifiers.ShardId.{ShardId};
ghost use Rattle.cs_core.specs.declared.events.Event.TheVariants.{Put};
ghost use Rattle.cs_core.specs.declared.events.Reply.TheVariants.{Refused};
ghost use Rattle.cs_core.specs.Views.{Applies, View};
ghost use Rattle.law_machine.specs.Format.{Four};
ghost use Rattle.law_machine.specs.Pieces.{chunk_pages};
ghost use Rattle.law_room_in_store.specs.Cores.{NoneSweptIn, NoneWornIn};
ghost use Rattle.law_room_in_store.specs.Images.{HasGeometry};
ghost use Rattle.law_room_in_store.specs.Puts.{FillsExtents};
ghost use Rattle.law_room_in_store.specs.Sweeps.{AreLeftForPuts, LiveAtMost, PairsSweptBy};
ghost use Rattle.law_room.specs.OfMachine.{AreChunksAtMost};
ghost use Rattle.law_room.specs.Sweeps.{AreFewPages};
ghost use Rattle.law_room_in_store.specs.Roomy.{IsRoomyCore};

use cs_disk::PageDisk;

/// A put is never refused for want of a place if n extents are left for puts and its frames fill at most n extents.
/// `how_many_extents_a_put_fills` says how many they fill.
pub fn a_put_of_a_core_finds_room<D: PageDisk>()
    ensures left { (v w : View D) (id : ShardId) (bytes : List ℕ) (n : ℕ) → IsRoomyCore D.PageDisk v → NoneWornIn v
        → AreLeftForPuts n v → FillsExtents (shape v.store.extents) n id bytes
        → Applies D.PageDisk v (Put id bytes) (Refused Full) w → ⊥ }
    // So it is where less than half of the device lives, but for a few extents, no sweep goes on, and then n pairs of
    // extents were swept.
    ensures pairs { (v w x : View D) (id : ShardId) (bytes : List ℕ) (n pages : ℕ) → IsRoomyCore D.PageDisk v → NoneWornIn w → NoneSweptIn v
        → (let S = shape v.store.extents in (S.run_extents + n + 3 ≤ S.extents)
        → LiveAtMost D.state v pages → AreFewPages S S.run_extents n pages
        → PairsSweptBy D.PageDisk n v w → FillsExtents S n id bytes
        → Applies D.PageDisk w (Put id bytes) (Refused Full) x → ⊥) }
{}

/// How many extents a put fills. Its bytes are cut in pieces of `piece_bytes` each, and only the last may be shorter.
/// Each piece is a chunk, and has a frame of its own.
pub fn how_many_extents_a_put_fills()
    // Bytes are cut in at most n pieces, 1 or more, if and only if they are no longer than n such pieces.
    ensures pieces { (x : ExtentsState) (n : ℕ) (bytes : List ℕ) → HasGeometry x
        → AreChunksAtMost (shape x) n bytes ↔ ((1 ≤ n) × (length bytes ≤ n * (shape x).piece_bytes (length bytes))) }
    // A shard that isn't too large to be put is cut in at most as many pieces as a shard may have.
    ensures most { (x : ExtentsState) (bytes : List ℕ) → HasGeometry x
        → length bytes ≤ (shape x).most_chunks * (shape x).chunk_bytes → AreChunksAtMost (shape x) (shape x).most_chunks bytes }
    // At most n chunks fill at most n extents.
    ensures chunks { (x : ExtentsState) (n : ℕ) (id : ShardId) (bytes : List ℕ) → HasGeometry x
        → AreChunksAtMost (shape x) n bytes → FillsExtents (shape x) n id bytes }
    // If the frames of m whole pieces fit on one extent, at most m n chunks fill at most n extents.
    ensures together { (x : ExtentsState) (m n : ℕ) (id : ShardId) (bytes : List ℕ) → HasGeometry x
        → m * chunk_pages (shape x).format ((shape x).piece_bytes (length bytes)) ≤ (shape x).pages
        → AreChunksAtMost (shape x) (m * n) bytes → FillsExtents (shape x) n id bytes }
    // For example, in format 4 with 256 pages an extent, 1,048,501 bytes are 8 chunks of 33 pages. Seven of them fit on
    // one extent, so they fill two.
    ensures example { (x : ExtentsState) (store : List ℕ) (device : ℕ) (id : ShardId) (bytes : List ℕ) → HasGeometry x
        → x.format ≡ Four store device → x.pages ≡ 256 → length bytes ≡ 1048501
        → (AreChunksAtMost (shape x) 7 bytes → ⊥) × AreChunksAtMost (shape x) 8 bytes × FillsExtents (shape x) 2 id bytes }
{}
