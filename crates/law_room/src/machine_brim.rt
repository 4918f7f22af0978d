//! What is proved of room up to the brim is so of the machine.
ghost use Rattle.law_machine.specs.Apart.{any_swept};
ghost use Rattle.law_machine.specs.Device.{IsShape, Shape};
ghost use Rattle.law_machine.specs.Formats.{Formats};
ghost use Rattle.law_machine.specs.Frames.{IsFormat};
ghost use Rattle.law_machine.specs.Grounds.{Refuses};
ghost use Rattle.law_machine.specs.Refusal.{Full};
ghost use Rattle.law_machine.specs.State.{Put, State};
ghost use Rattle.law_room.specs.Brim.{NextSwept, dead_extents};
ghost use Rattle.law_room.specs.BrimOfMachine.{FitBesideAllIn, FitBesideIn, LivesFewFor, NextSweptIn, NoneNextIn, NothingDeadIn};
ghost use Rattle.law_room.specs.Lives.{Act, IsFormatWithRoom, IsMade, Lives};
ghost use Rattle.law_room.specs.OfMachine.{AreChunksAtMost, ChunksFit, HasRoomNow, NoneWorn};
ghost use Rattle.law_room.specs.Rooms.{Room, chunk_extents};
ghost use Rattle.std.specs.Prelude.{◌≡◌, ◌+◌, ◌*◌, ◌≤◌, ℕ, List, true, false, None};

/// A put is not refused for want of a place as long as its frames fit beside what lives and what is dead.
pub fn a_put_of_the_machine_finds_room_up_to_the_brim()
    ensures all { (S : Shape) (F : Formats) (s : State) (r : Room) (id : ℕ) (bytes : List ℕ) → IsShape S → IsFormat S F
        → S.fills ≡ true → HasRoomNow S F s r → r.sweep ≡ None → FitBesideAllIn S F s id bytes
        → Refuses S F s (Put id bytes) Full → ⊥ }
    // So if nothing is dead it isn't as long as they fit beside what lives.
    ensures beside { (S : Shape) (F : Formats) (s : State) (r : Room) (id : ℕ) (bytes : List ℕ) → IsShape S → IsFormat S F
        → S.fills ≡ true → HasRoomNow S F s r → r.sweep ≡ None → NothingDeadIn S F s → FitBesideIn S F s id bytes
        → Refuses S F s (Put id bytes) Full → ⊥ }
    // Nor is one of n chunks when the rule says none, if little enough lives by its greatest chunk.
    ensures left { (S : Shape) (F : Formats) (s : State) (r : Room) (id n c : ℕ) (bytes : List ℕ) → IsShape S → IsFormat S F
        → S.fills ≡ true → ChunksFit S F → HasRoomNow S F s r → S.run_extents + n + 3 ≤ S.extents → NoneNextIn S F s
        → LivesFewFor S F n c s → AreChunksAtMost S n bytes → Refuses S F s (Put id bytes) Full → ⊥ }
{}

/// Sweeps of the machine by the rule are sweeps of room by the rule.
pub fn the_rule_is_one_of_room()
    ensures room { (S : Shape) (F : Formats) (k : ℕ) (s t : State) (r : Room) → IsShape S → IsFormat S F → S.apart ≡ true
        → HasRoomNow S F s r → NextSweptIn S F k s t → NoneWorn S t
        → (q : Room) × NextSwept S S.run_extents k r q × HasRoomNow S F t q }
    // So they end: there are at most as many as extents have dead pages, and two for each extent that is gained.
    ensures sweeps { (S : Shape) (F : Formats) (k : ℕ) (s t : State) (r : Room) → IsShape S → IsFormat S F → S.fills ≡ true
        → HasRoomNow S F s r → NextSweptIn S F k s t → NoneWorn S t → NoneNextIn S F t → (q : Room) × HasRoomNow S F t q
        × (k + 2 * chunk_extents q S.extents ≤ dead_extents r S.extents + 2 * chunk_extents r S.extents) }
{}

/// From the time that a store is made, through any events, crashes and openings, a put is not refused for want of a place while
/// its frames fit beside what lives and what is dead.
pub fn no_store_is_stuck_below_the_brim()
    ensures all { (S : Shape) (F : Formats) (s t : State) (acts : List Act) (id : ℕ) (bytes : List ℕ) → IsShape S → IsFormat S F
        → IsFormatWithRoom S F → S.fills ≡ true → IsMade S F s → Lives S F s acts t → any_swept S t ≡ false
        → FitBesideAllIn S F t id bytes → Refuses S F t (Put id bytes) Full → ⊥ }
    // So if nothing is dead it isn't while they fit beside what lives.
    ensures beside { (S : Shape) (F : Formats) (s t : State) (acts : List Act) (id : ℕ) (bytes : List ℕ) → IsShape S → IsFormat S F
        → IsFormatWithRoom S F → S.fills ≡ true → IsMade S F s → Lives S F s acts t → any_swept S t ≡ false
        → NothingDeadIn S F t → FitBesideIn S F t id bytes → Refuses S F t (Put id bytes) Full → ⊥ }
    // So it is after sweeps by the rule, when that says none.
    ensures swept { (S : Shape) (F : Formats) (s t u : State) (acts : List Act) (id k : ℕ) (bytes : List ℕ) → IsShape S → IsFormat S F
        → IsFormatWithRoom S F → S.fills ≡ true → IsMade S F s → Lives S F s acts t → any_swept S t ≡ false → NextSweptIn S F k t u
        → NoneWorn S u → NoneNextIn S F u → FitBesideIn S F u id bytes → Refuses S F u (Put id bytes) Full → ⊥ }
{}
