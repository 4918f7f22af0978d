//! What a sweep gains, with syncs behind it or none.
ghost use Rattle.law_machine.specs.Device.{Shape};
ghost use Rattle.law_room.specs.Invariant.{Keeps};
ghost use Rattle.law_room.specs.Rooms.{Room, chunk_extents, live_pages};
ghost use Rattle.law_room.specs.Sweeps.{IsChunkExtent, IsSwept};
ghost use Rattle.std.specs.Prelude.{◌≡◌, ◌≢◌, ◌⊎◌, ◌+◌, ◌<◌, ◌≤◌, ℕ, Some};

/// After a sweep no more extents hold chunks than before.
pub fn no_sweep_takes_extents()
    ensures { (S : Shape) (J : ℕ) (s t : Room) (e : ℕ) → 1 ≤ J → Keeps S J s → IsSwept S J s e t
        → chunk_extents t S.extents ≤ chunk_extents s S.extents }
{}

/// Where all that lives on an extent fits behind the last copy of any sweep, a sweep gives an extent.
pub fn one_sweep_may_gain()
    ensures { (S : Shape) (J : ℕ) (s t : Room) (d e : ℕ) → 1 ≤ J → Keeps S J s → s.last ≡ Some d → IsChunkExtent S J s d
        → d ≢ e → s.pointer d + live_pages s.chunks e ≤ S.pages → IsSwept S J s e t
        → chunk_extents t S.extents < chunk_extents s S.extents }
{}

/// Where all that lives on two extents fits on one, sweeps of both give an extent: the first sweep, or the second, which can be
/// made then. Syncs may come between them.
pub fn two_sweeps_gain()
    ensures { (S : Shape) (J : ℕ) (s t : Room) (a b : ℕ) → 1 ≤ J → Keeps S J s → a ≢ b → IsChunkExtent S J s b
        → live_pages s.chunks a + live_pages s.chunks b ≤ S.pages → IsSwept S J s a t
        → (chunk_extents t S.extents < chunk_extents s S.extents)
        ⊎ (IsChunkExtent S J t b × ((u : Room) → IsSwept S J t b u
        → chunk_extents u S.extents < chunk_extents s S.extents)) }
{}
