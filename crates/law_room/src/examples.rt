//! The premises of the laws can be met, and the events can happen.
ghost use Rattle.law_machine.specs.Device.{IsShape, Shape};
ghost use Rattle.law_machine.specs.Example.{telling_format};
ghost use Rattle.law_machine.specs.Frames.{IsFormat};
ghost use Rattle.law_machine.specs.State.{State};
ghost use Rattle.law_room.specs.Brim.{FitBeside};
ghost use Rattle.law_room.specs.Example.{Plays, example_abandoned, example_events, example_opened, example_root, example_shape, new_room};
ghost use Rattle.law_room.specs.Invariant.{Keeps};
ghost use Rattle.law_room.specs.Lives.{IsFormatWithRoom, IsMade, Lives};
ghost use Rattle.law_room.specs.OfMachine.{ChunksFit};
ghost use Rattle.law_room.specs.Rooms.{Room, chunk_extents, run_extents};
ghost use Rattle.std.specs.Prelude.{◌+◌, ◌≡◌, ◌<◌, ◌≤◌, ◌∷◌, ℕ, true, []};

/// A new store of two extents more than may hold runs keeps the invariant.
pub fn a_new_store_keeps()
    ensures { (S : Shape) (J : ℕ) → J + 2 ≤ S.extents → Keeps S J new_room }
{}

/// The events of the examples can happen one after another, and leave one extent of chunks and one of runs. Behind an opening there
/// lives what its root names, and the store has no other root.
pub fn the_events_can_happen()
    ensures retired { (t : Room) × Plays example_shape 1 new_room example_events t × (chunk_extents t 6 ≡ 1)
        × (run_extents t 6 ≡ 1) }
    ensures abandoned { (t : Room) × Plays example_shape 1 new_room example_abandoned t × (chunk_extents t 6 ≡ 1)
        × (run_extents t 6 ≡ 1) }
    ensures opened { (t : Room) × Plays example_shape 1 new_room example_opened t × (chunk_extents t 6 ≡ 1)
        × (run_extents t 6 ≡ 1) × (t.chunks ≡ example_root.chunks) × (t.roots ≡ example_root ∷ []) }
{}

/// There is a format in which no store is ever stuck, and in it stores can be made, with a shape of pages, numbers and generations.
pub fn formats_with_room_exist()
    ensures format { (S : Shape) → 1 ≤ S.pages → IsFormat S (telling_format S) × IsFormatWithRoom S (telling_format S)
        × ChunksFit S (telling_format S) }
    ensures made { (S : Shape) → IsShape S → S.apart ≡ true → 1 ≤ S.greatest_number → 0 < S.greatest_generation
        → (s : State) × IsMade S (telling_format S) s × Lives S (telling_format S) s [] s }
{}

/// With 64 extents of 256 pages, two of which may hold runs, 60 may hold chunks. A put of one page has room beside all of
/// their pages but one; a put of eight frames of 33 pages has room beside 80 % of all pages.
pub fn how_much_may_live_beside_a_put()
    ensures page { (S : Shape) → S.extents ≡ 64 → S.pages ≡ 256 → FitBeside S 2 15359 (1 ∷ []) }
    ensures no_more { (S : Shape) → S.extents ≡ 64 → S.pages ≡ 256 → FitBeside S 2 15360 (1 ∷ []) → ⊥ }
    ensures eight { (S : Shape) → S.extents ≡ 64 → S.pages ≡ 256
        → FitBeside S 2 13208 (33 ∷ 33 ∷ 33 ∷ 33 ∷ 33 ∷ 33 ∷ 33 ∷ 33 ∷ []) }
{}
