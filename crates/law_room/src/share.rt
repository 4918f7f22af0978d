//! How much may live so that a put finds room.
ghost use Rattle.law_machine.specs.Device.{Shape};
ghost use Rattle.law_room.specs.Events.{Does, Put, Writes, dropped};
ghost use Rattle.law_room.specs.Invariant.{Keeps};
ghost use Rattle.law_room.specs.Rooms.{Room, all_pages, chunk_extents};
ghost use Rattle.law_room.specs.Sweeps.{ChosenSwept, FillsAtMost, IsChunkExtent, IsSwept, NoTwoFit, PairsSwept, SweepsMade, AreFewPages};
ghost use Rattle.std.specs.Prelude.{◌≡◌, ◌+◌, ◌*◌, ◌≤◌, ℕ, List, None};

/// Where no sweep is unfinished, each extent of chunks can be swept, however many pages runs take, as long as one of all fits on an
/// extent.
pub fn a_sweep_can_be_made()
    ensures { (S : Shape) (J : ℕ) (s : Room) (e newest pages all : ℕ) → Keeps S J s → 1 ≤ J → s.sweep ≡ None
        → IsChunkExtent S J s e → all ≤ S.pages
        → (t : Room) × (swept : IsSwept S J s e t) × (swept.newest ≡ newest) × (swept.pages ≡ pages)
        × (swept.all ≡ all) }
{}

/// Where less than half of the device lives, but for J + 1 + n extents, two extents or more are left beside those, and no sweep is unfinished, sweeps
/// of at most n pairs leave n extents for puts.
pub fn two_sweeps_an_extent_are_enough()
    ensures { (S : Shape) (J n : ℕ) (s : Room) → Keeps S J s → 1 ≤ J → s.sweep ≡ None → J + n + 3 ≤ S.extents
        → AreFewPages S J n (all_pages s.chunks) → (pairs : ℕ) × (t : Room) × (pairs ≤ n) × PairsSwept S J pairs s t × Keeps S J t
        × (chunk_extents t S.extents + n + J + 2 ≤ S.extents) }
{}

/// So at most 2 n whole sweeps lead to a store in which a put has a place whose frames fill at most n extents.
pub fn a_put_finds_room()
    ensures { (S : Shape) (J n : ℕ) (s : Room) (id : ℕ) (sizes : List ℕ) → Keeps S J s → 1 ≤ J → s.sweep ≡ None
        → J + n + 3 ≤ S.extents → AreFewPages S J n (all_pages s.chunks) → FillsAtMost S.pages n sizes
        → (sweeps : ℕ) × (t : Room) × (u : Room) × (sweeps ≤ 2 * n) × SweepsMade S J sweeps s t
        × Does S J t (Put id sizes) u }
{}

/// Sweeps of any n pairs with the least that lives leave n extents for puts, in whatever way they find their places.
pub fn pairs_of_sweeps_gain()
    ensures { (S : Shape) (J n : ℕ) (s t : Room) → Keeps S J s → 1 ≤ J → s.sweep ≡ None → J + n + 3 ≤ S.extents
        → AreFewPages S J n (all_pages s.chunks) → PairsSwept S J n s t → chunk_extents t S.extents + n + J + 2 ≤ S.extents }
{}

/// Sweeps of chosen extents, two for each of n, leave n extents for puts: each two of them give one, whatever the second one is of. Where less
/// than half of the device lives, but for J + 1 + n extents, and two or more are left beside those, fewer do if none can be chosen after them.
pub fn chosen_sweeps_gain()
    ensures gain { (S : Shape) (J n : ℕ) (s t : Room) → Keeps S J s → 1 ≤ J → s.sweep ≡ None → ChosenSwept S J (2 * n) s t
        → chunk_extents t S.extents + n + J + 2 ≤ S.extents }
    ensures none { (S : Shape) (J n k : ℕ) (s t : Room) → Keeps S J s → 1 ≤ J → J + n + 3 ≤ S.extents
        → AreFewPages S J n (all_pages s.chunks) → ChosenSwept S J k s t → NoTwoFit S J t
        → chunk_extents t S.extents + n + J + 2 ≤ S.extents }
{}

/// Where n extents are left for puts, a put of frames that fill at most n extents has a place, and is done wherever its frames go.
pub fn a_put_finds_its_extents()
    ensures fills { (S : Shape) (J n : ℕ) (s : Room) (id : ℕ) (sizes : List ℕ) → Keeps S J s
        → chunk_extents s S.extents + n + J + 2 ≤ S.extents → FillsAtMost S.pages n sizes
        → (t : Room) × Does S J s (Put id sizes) t }
    ensures wherever { (S : Shape) (J n : ℕ) (s t : Room) (id : ℕ) (sizes : List ℕ) → Keeps S J s
        → chunk_extents s S.extents + n + J + 2 ≤ S.extents → FillsAtMost S.pages n sizes
        → Writes S (dropped s id) id sizes t → Does S J s (Put id sizes) t }
{}
