//! What is proved of room is so of the machine.
ghost use Rattle.law_machine.specs.Apart.{any_swept};
ghost use Rattle.law_machine.specs.Device.{IsShape, Page, Shape};
ghost use Rattle.law_machine.specs.Element.{Map};
ghost use Rattle.law_machine.specs.Formats.{Formats};
ghost use Rattle.law_machine.specs.Frames.{IsFormat};
ghost use Rattle.law_machine.specs.Grounds.{Refuses};
ghost use Rattle.law_machine.specs.Open.{opened_state};
ghost use Rattle.law_machine.specs.Recovery.{IsNew, Recovers};
ghost use Rattle.law_machine.specs.Refusal.{Full};
ghost use Rattle.law_machine.specs.Sound.{crashed};
ghost use Rattle.law_machine.specs.State.{Event, Put, Reply, State};
ghost use Rattle.law_machine.specs.Step.{History, Step};
ghost use Rattle.law_machine.specs.Torn.{TornFrom};
ghost use Rattle.law_room.specs.Events.{opened};
ghost use Rattle.law_room.specs.Example.{new_room};
ghost use Rattle.law_room.specs.Lives.{Act, IsFormatWithRoom, IsMade, Lives};
ghost use Rattle.law_room.specs.OfMachine.{ChunksFit, HasRoomNow, InRoom, IsPut, IsRootIn, NoneToldFull, NoneWorn, RunsFit, AreChunksAtMost};
ghost use Rattle.law_room.specs.Rooms.{Room, Root, all_pages, chunk_extents};
ghost use Rattle.law_room.specs.RootsOfMachine.{IsRoomy, TellsPointers, OpensRoomy};
ghost use Rattle.law_room.specs.Sweeps.{IsSwept, AreFewPages};
ghost use Rattle.law_room.specs.SweepsOfMachine.{IsSweptIn, PairsSweptIn, LivesFewIn};
ghost use Rattle.std.specs.Prelude.{◌≡◌, ◌+◌, ◌<◌, ◌≤◌, ℕ, Bool, List, true, false, None, []};

/// A store that is opened where the root names no run is one in which nothing lies. A new one is so.
pub fn a_new_store_has_room()
    ensures nothing { (S : Shape) (F : Formats) (img : ℕ → Page) (n : ℕ) (m : Map) (gives : Recovers S F img n m) → IsShape S
        → S.apart ≡ true → gives.runs ≡ [] → NoneWorn S (opened_state S F img n m gives)
        → IsRoomy S F (opened_state S F img n m gives) new_room }
    ensures fresh { (S : Shape) (F : Formats) (img : ℕ → Page) (n : ℕ) (m : Map) (gives : Recovers S F img n m) → IsShape S
        → IsFormat S F → S.apart ≡ true → IsNew S F img → NoneWorn S (opened_state S F img n m gives)
        → IsRoomy S F (opened_state S F img n m gives) new_room }
    // And it can be opened.
    ensures there { (S : Shape) (F : Formats) (img : ℕ → Page) → IsShape S → S.apart ≡ true → IsNew S F img
        → 0 < S.greatest_generation → (gives : Recovers S F img 0 (λ id. None))
        × IsRoomy S F (opened_state S F img 0 (λ id. None) gives) new_room }
{}

/// Each event of the machine is one of room, or leaves room as it is, until an extent was reset so often that its generation is the
/// greatest.
pub fn each_event_is_one_of_room()
    ensures event { (S : Shape) (F : Formats) (s t : State) (r : Room) (event : Event) (reply : Reply) → IsShape S
        → IsFormat S F → S.apart ≡ true → HasRoomNow S F s r → Step S F s event reply t → NoneWorn S t
        → (q : Room) × InRoom S F event reply r q × HasRoomNow S F t q }
    // So a state has room after any history.
    ensures history { (S : Shape) (F : Formats) (s t : State) (r : Room) (history : List (Event × Reply)) → IsShape S
        → IsFormat S F → S.apart ≡ true → HasRoomNow S F s r → History S F s history t → NoneWorn S t
        → (q : Room) × HasRoomNow S F t q }
    // And where any crash leaves room of a state, so it does of the next.
    ensures roomy { (S : Shape) (F : Formats) (s t : State) (r : Room) (event : Event) (reply : Reply) → IsShape S
        → IsFormat S F → S.apart ≡ true → IsRoomy S F s r → Step S F s event reply t → NoneWorn S t
        → (q : Room) × InRoom S F event reply r q × IsRoomy S F t q }
{}

/// Nothing but a put is refused for want of a place, where each run fits on an extent, and no damaged chunk that lives is told so.
pub fn nothing_but_a_put_is_full()
    ensures { (S : Shape) (F : Formats) (s : State) (r : Room) (event : Event) → IsShape S → IsFormat S F → S.apart ≡ true
        → RunsFit S F → HasRoomNow S F s r → NoneToldFull s → Refuses S F s event Full → IsPut event }
{}

/// A store that is opened on an image whose root keeps the quotas has room: that of an opening at this root.
pub fn an_opening_keeps_room()
    ensures { (S : Shape) (F : Formats) (img : ℕ → Page) (n : ℕ) (m : Map) (gives : Recovers S F img n m) (p : Root)
        → IsShape S → S.apart ≡ true → IsRootIn S F img n m gives p → NoneWorn S (opened_state S F img n m gives)
        → IsRoomy S F (opened_state S F img n m gives) (opened p gives.pointers) }
{}

/// Whether an image has room is told by the image alone: the root of room that one opening finds there any finds.
pub fn an_image_has_one_root()
    ensures { (S : Shape) (F : Formats) (img : ℕ → Page) (n k : ℕ) (m o : Map) (gives : Recovers S F img n m)
        (other : Recovers S F img k o) (p : Root) → IsShape S → IsFormat S F → TellsPointers S F
        → IsRootIn S F img n m gives p → IsRootIn S F img k o other p }
{}

/// After a crash, whichever of the issued writes it keeps, a store that is opened on what it left has room: that of an opening of room
/// at one of its roots.
pub fn a_crash_has_room()
    ensures whole { (S : Shape) (F : Formats) (s : State) (r : Room) (kept : List Bool) (n : ℕ) (m : Map)
        (gives : Recovers S F (crashed S F s kept) n m) → IsShape S → IsFormat S F → TellsPointers S F → S.apart ≡ true
        → IsRoomy S F s r → NoneWorn S (opened_state S F (crashed S F s kept) n m gives)
        → OpensRoomy S F r gives.pointers (opened_state S F (crashed S F s kept) n m gives) }
    // So it is whatever the crash makes of the pages of frames that are being written.
    ensures torn { (S : Shape) (F : Formats) (s : State) (r : Room) (kept : List Bool) (img : ℕ → Page) (n : ℕ) (m : Map)
        (gives : Recovers S F img n m) → IsShape S → IsFormat S F → TellsPointers S F → S.apart ≡ true
        → IsRoomy S F s r → TornFrom S F s kept img → NoneWorn S (opened_state S F img n m gives)
        → OpensRoomy S F r gives.pointers (opened_state S F img n m gives) }
{}

/// A whole sweep is one of room, with the syncs behind it.
pub fn a_sweep_is_one_of_room()
    ensures { (S : Shape) (F : Formats) (s t : State) (r : Room) (e : ℕ) → IsShape S → IsFormat S F → S.apart ≡ true
        → HasRoomNow S F s r → IsSweptIn S F s e t → NoneWorn S t
        → (q : Room) × IsSwept S S.run_extents r e q × HasRoomNow S F t q }
{}

/// A put of n chunks is never refused for want of a place where n extents are left for puts, as long as each chunk fits on one.
pub fn a_put_of_the_machine_finds_room()
    ensures left { (S : Shape) (F : Formats) (s : State) (r : Room) (id n : ℕ) (bytes : List ℕ)
        → IsShape S → IsFormat S F → S.apart ≡ true → ChunksFit S F → HasRoomNow S F s r
        → chunk_extents r S.extents + n + S.run_extents + 2 ≤ S.extents → AreChunksAtMost S n bytes
        → Refuses S F s (Put id bytes) Full → ⊥ }
    // So it is where less than half of the device lives, but for a few extents, and then n pairs are swept.
    ensures pairs { (S : Shape) (F : Formats) (s t : State) (r : Room) (id n : ℕ) (bytes : List ℕ)
        → IsShape S → IsFormat S F → S.apart ≡ true → ChunksFit S F → HasRoomNow S F s r → r.sweep ≡ None
        → S.run_extents + n + 3 ≤ S.extents → AreFewPages S S.run_extents n (all_pages r.chunks)
        → PairsSweptIn S F n s t → NoneWorn S t → AreChunksAtMost S n bytes → Refuses S F t (Put id bytes) Full → ⊥ }
{}

/// From the time that a store is made, through any events, crashes and openings, nothing but a put is ever refused for want of a
/// place, until an extent was reset so often that its generation is the greatest.
pub fn no_store_is_ever_stuck()
    ensures full { (S : Shape) (F : Formats) (s t : State) (acts : List Act) (event : Event) → IsShape S → IsFormat S F
        → IsFormatWithRoom S F → S.apart ≡ true → IsMade S F s → Lives S F s acts t → Refuses S F t event Full
        → IsPut event }
    // It has room all the time.
    ensures room { (S : Shape) (F : Formats) (s t : State) (acts : List Act) → IsShape S → IsFormat S F
        → IsFormatWithRoom S F → S.apart ≡ true → IsMade S F s → Lives S F s acts t → (r : Room) × IsRoomy S F t r }
    // So it has from any time on at which it has, whoever made it.
    ensures stays { (S : Shape) (F : Formats) (s t : State) (r : Room) (acts : List Act) → IsShape S → IsFormat S F
        → IsFormatWithRoom S F → S.apart ≡ true → IsRoomy S F s r → Lives S F s acts t
        → (q : Room) × IsRoomy S F t q }
    // A put of n chunks finds room where less than half of the device lives, but for a few extents, and n pairs are swept.
    ensures puts { (S : Shape) (F : Formats) (s t u : State) (acts : List Act) (id n : ℕ) (bytes : List ℕ)
        → IsShape S → IsFormat S F → IsFormatWithRoom S F → ChunksFit S F → S.apart ≡ true
        → IsMade S F s → Lives S F s acts t → any_swept S t ≡ false → S.run_extents + n + 3 ≤ S.extents
        → LivesFewIn S F n t → PairsSweptIn S F n t u → NoneWorn S u → AreChunksAtMost S n bytes
        → Refuses S F u (Put id bytes) Full → ⊥ }
    // And whatever a crash leaves of one that was made can be opened.
    ensures opens { (S : Shape) (F : Formats) (s t : State) (acts : List Act) (kept : List Bool) → IsShape S → IsFormat S F
        → IsFormatWithRoom S F → S.apart ≡ true → IsMade S F s → Lives S F s acts t
        → (n : ℕ) × (m : Map) × Recovers S F (crashed S F t kept) n m }
{}
