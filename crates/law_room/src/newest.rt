//! What the newest root names.
ghost use Rattle.law_machine.specs.Device.{Shape};
ghost use Rattle.law_room.specs.Events.{Does, Event, Open};
ghost use Rattle.law_room.specs.Example.{new_room};
ghost use Rattle.law_room.specs.Invariant.{Grows, IsReset, Keeps, KeepsNewest};
ghost use Rattle.law_room.specs.Rooms.{Room, Root};
ghost use Rattle.std.specs.Prelude.{◌≢◌, ◌⊎◌, ◌≤◌, ℕ};

/// What the newest root names stands, whatever comes: no event empties an extent on which something lies that it names, and no
/// sweep opens one.
pub fn the_newest_root_stands()
    ensures new_store { (S : Shape) (J : ℕ) → KeepsNewest S J new_room }
    ensures keeps { (S : Shape) (J : ℕ) (s t : Room) (event : Event) → 1 ≤ J → Keeps S J s → KeepsNewest S J s
        → Does S J s event t → KeepsNewest S J t }
{}

/// Until a store is opened anew, more pages of an extent are given, or it is reset under a root that names nothing there. So the
/// extents that an older root names were reset under a later one or not at all, which is what an opening at that root counts on.
pub fn extents_are_reset_under_a_root()
    ensures { (S : Shape) (J : ℕ) (s t : Room) (event : Event) → 1 ≤ J → Keeps S J s → KeepsNewest S J s
        → Does S J s event t → ((r : Root) (found : ℕ → ℕ) → event ≢ Open r found)
        → (e : ℕ) → Grows s t e ⊎ IsReset t e }
{}
