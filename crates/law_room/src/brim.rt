//! Room up to the brim: dead pages go first, and how much may live so that a put finds room then.
ghost use Rattle.law_machine.specs.Device.{Shape};
ghost use Rattle.law_room.specs.Brim.{AreFewFor, FitBeside, IsFewest, IsNext, IsSure, NextSwept, NoneNext, NothingDead, all_dead, dead_extents, dead_pages};
ghost use Rattle.law_room.specs.Events.{Does, Put, Writes, dropped};
ghost use Rattle.law_room.specs.Invariant.{Keeps};
ghost use Rattle.law_room.specs.Rooms.{Room, all_pages, chunk_extents};
ghost use Rattle.law_room.specs.Sweeps.{AreFewPages, IsSwept, NoTwoFit};
ghost use Rattle.std.specs.Prelude.{◌≡◌, ◌⊎◌, ◌+◌, ◌-◌, ◌*◌, ◌<◌, ◌≤◌, ◌∷◌, ℕ, List, None, true, []};

/// A put has a place as long as its frames fit beside what lives and what is dead, whatever the sizes of that.
pub fn a_put_finds_room_up_to_the_brim()
    ensures beside { (S : Shape) (J : ℕ) (s : Room) (id : ℕ) (sizes : List ℕ) → Keeps S J s → s.sweep ≡ None
        → FitBeside S J (all_pages s.chunks + all_dead s S.extents) sizes → (t : Room) × Does S J s (Put id sizes) t }
    // So if nothing is dead it has one as long as they fit beside what lives.
    ensures there { (S : Shape) (J : ℕ) (s : Room) (id : ℕ) (sizes : List ℕ) → Keeps S J s → s.sweep ≡ None → NothingDead S s
        → FitBeside S J (all_pages s.chunks) sizes → (t : Room) × Does S J s (Put id sizes) t }
    // One frame of k pages does if less lives than N (P - k + 1) pages, where N extents of P pages may hold chunks.
    ensures one { (S : Shape) (J : ℕ) (s : Room) (id k : ℕ) → Keeps S J s → s.sweep ≡ None → NothingDead S s
        → all_pages s.chunks < (S.extents - (J + 2)) * (S.pages + 1 - k) → (t : Room) × Does S J s (Put id (k ∷ [])) t }
    // Where extents are filled up, the put is done wherever its frames go.
    ensures wherever { (S : Shape) (J : ℕ) (s t : Room) (id : ℕ) (sizes : List ℕ) → S.fills ≡ true → Keeps S J s → s.sweep ≡ None
        → FitBeside S J (all_pages s.chunks + all_dead s S.extents) sizes → Writes S (dropped s id) id sizes t
        → Does S J s (Put id sizes) t }
{}

/// A sweep leaves no more dead pages on any extent than were there, and none on the one that is swept.
pub fn no_sweep_leaves_more_dead()
    ensures each { (S : Shape) (J : ℕ) (s t : Room) (x e : ℕ) → 1 ≤ J → Keeps S J s → IsSwept S J s x t → e < S.extents
        → dead_pages t e ≤ dead_pages s e }
    ensures swept { (S : Shape) (J : ℕ) (s t : Room) (x : ℕ) → 1 ≤ J → Keeps S J s → IsSwept S J s x t → dead_pages t x ≡ 0 }
    // So all of them are fewer by those of the swept one; and fewer extents have one, if it had one.
    ensures all { (S : Shape) (J : ℕ) (s t : Room) (x : ℕ) → 1 ≤ J → Keeps S J s → IsSwept S J s x t
        → all_dead t S.extents + dead_pages s x ≤ all_dead s S.extents }
    ensures extents { (S : Shape) (J : ℕ) (s t : Room) (x : ℕ) → 1 ≤ J → Keeps S J s → IsSwept S J s x t
        → (dead_extents t S.extents ≤ dead_extents s S.extents)
        × (0 < dead_pages s x → dead_extents t S.extents < dead_extents s S.extents) }
{}

/// Where extents are filled up, a sweep that is sure to gain gives an extent.
pub fn a_sure_sweep_gains()
    ensures { (S : Shape) (J : ℕ) (s t : Room) (x : ℕ) → 1 ≤ J → S.fills ≡ true → Keeps S J s → IsSure S s x → IsSwept S J s x t
        → chunk_extents t S.extents < chunk_extents s S.extents }
{}

/// By the rule there is an extent to be swept next, or it says none. Until it does so, there are at most as many sweeps as
/// extents have dead pages, and two for each extent that is gained.
pub fn sweeps_by_the_rule_end()
    ensures next { (S : Shape) (J : ℕ) (s : Room) → Keeps S J s → ((x : ℕ) × IsNext S J s x) ⊎ NoneNext S J s }
    // Of several on which the least lives any one tells, where nothing is dead.
    ensures alike { (S : Shape) (J : ℕ) (s : Room) (x y : ℕ) → Keeps S J s → NothingDead S s → IsFewest S J s x → IsFewest S J s y
        → IsSure S s x → IsSure S s y }
    ensures sweeps { (S : Shape) (J k : ℕ) (s t : Room) → 1 ≤ J → S.fills ≡ true → Keeps S J s → NextSwept S J k s t
        → k + dead_extents t S.extents + 2 * chunk_extents t S.extents
        ≤ dead_extents s S.extents + 2 * chunk_extents s S.extents + 1 }
    // One fewer where no two fit any more, so when it says none.
    ensures none { (S : Shape) (J k : ℕ) (s t : Room) → 1 ≤ J → S.fills ≡ true → Keeps S J s → NextSwept S J k s t → NoTwoFit S J t
        → k + dead_extents t S.extents + 2 * chunk_extents t S.extents
        ≤ dead_extents s S.extents + 2 * chunk_extents s S.extents }
    // They lose nothing that lives, and leave no sweep unfinished.
    ensures leaves { (S : Shape) (J k : ℕ) (s t : Room) → 1 ≤ J → Keeps S J s → s.sweep ≡ None → NextSwept S J k s t
        → Keeps S J t × (t.sweep ≡ None) × (all_pages t.chunks ≡ all_pages s.chunks) }
    // And all of them can be made.
    ensures there { (S : Shape) (J : ℕ) (s : Room) → 1 ≤ J → S.fills ≡ true → Keeps S J s → s.sweep ≡ None
        → (k : ℕ) × (t : Room) × NextSwept S J k s t × NoneNext S J t × Keeps S J t × (t.sweep ≡ None)
        × (all_pages t.chunks ≡ all_pages s.chunks) }
{}

/// When the rule says none, n whole extents are left for puts, if little enough lives: by its greatest chunk, or as less than half
/// of the device does.
pub fn extents_are_left_at_the_brim()
    ensures greatest { (S : Shape) (J n c : ℕ) (s : Room) → Keeps S J s → J + n + 3 ≤ S.extents → NoneNext S J s
        → AreFewFor S J n c s → chunk_extents s S.extents + n + J + 2 ≤ S.extents }
    // Sweeps by the rule keep how many pages each chunk takes, so it is enough that so little lived before them.
    ensures swept { (S : Shape) (J n c k : ℕ) (s t : Room) → 1 ≤ J → Keeps S J s → s.sweep ≡ None → J + n + 3 ≤ S.extents
        → AreFewFor S J n c s → NextSwept S J k s t → NoneNext S J t → chunk_extents t S.extents + n + J + 2 ≤ S.extents }
    ensures half { (S : Shape) (J n : ℕ) (s : Room) → J + n + 3 ≤ S.extents → NoTwoFit S J s
        → AreFewPages S J n (all_pages s.chunks) → chunk_extents s S.extents + n + J + 2 ≤ S.extents }
{}

/// So sweeps by the rule lead to a store in which a put has a place, as long as its frames fit beside what lives: at most as many
/// as extents have dead pages, and two for each extent that is gained.
pub fn sweeps_by_the_rule_make_room()
    ensures { (S : Shape) (J : ℕ) (s : Room) (id : ℕ) (sizes : List ℕ) → 1 ≤ J → S.fills ≡ true → Keeps S J s → s.sweep ≡ None
        → FitBeside S J (all_pages s.chunks) sizes
        → (k : ℕ) × (t : Room) × (u : Room) × NextSwept S J k s t × Does S J t (Put id sizes) u
        × (k + 2 * chunk_extents t S.extents ≤ dead_extents s S.extents + 2 * chunk_extents s S.extents) }
{}
